//! Forms as trees.
ghost use Rattle.std.specs.Prelude.{◌≡◌, ◌<◌, [], ◌∷◌, ◌++◌, length, OnErr, OnOk, slice_get};
ghost use Rattle.awk_form.specs.View.{Below, form_of, forms_of};

use crate::dims::Dims;
use crate::kind::IndexKind;
use awk_types::{Name, Names, NoMemory, Prim};
use std::alloc::Global;

/// A form: the layout of an array, without its length and its buffers.
#[cycle(form)]
#[derive(Debug, Drop)]
pub struct Form {
    /// What the keys of the node's buffers begin with.
    pub key: Option<Name>,
    pub shape: Shape,
}

/// A node of one of the twelve classes.
#[cycle(form)]
#[derive(Debug, Drop)]
pub enum Shape {
    Empty,
    Numpy {
        prim: Prim,
        inner: Dims,
    },
    Regular {
        size: u64,
        content: Box<Form>,
    },
    List {
        starts: IndexKind,
        stops: IndexKind,
        content: Box<Form>,
    },
    ListOffset {
        offsets: IndexKind,
        content: Box<Form>,
    },
    /// A record, or a tuple where there are no names.
    Row {
        names: Option<Names>,
        contents: Forms,
    },
    Indexed {
        index: IndexKind,
        content: Box<Form>,
    },
    IndexedOption {
        index: IndexKind,
        content: Box<Form>,
    },
    ByteMasked {
        valid_when: bool,
        content: Box<Form>,
    },
    BitMasked {
        valid_when: bool,
        lsb_order: bool,
        content: Box<Form>,
    },
    Unmasked {
        content: Box<Form>,
    },
    Union {
        index: IndexKind,
        contents: Forms,
    },
}

/// Forms in order.
#[cycle(form)]
#[derive(Debug, Drop)]
pub struct Forms {
    pub(crate) items: Vec<Form>,
}

impl Forms {
    /// No forms.
    pub fn new(alloc: Global) -> Forms
        ensures { forms_of result ≡ [] }
    {
        Forms {
            items: Vec::new(alloc),
        }
    }

    /// Puts a form at the end.
    pub fn push(&mut self, item: Form) -> Result<(), NoMemory>
        ensures ok { OnOk result (forms_of self.new ≡ forms_of self.old ++ form_of item ∷ []) }
        ensures err { OnErr result (forms_of self.new ≡ forms_of self.old) }
    {
        self.items.push(item)?;
        Ok(())
    }

    /// How many forms there are.
    pub fn len(&self) -> usize
        ensures { result ≡ length (forms_of self.now) }
    {
        self.items.len()
    }

    /// The form at a place.
    #[tactic(auto, using(crate::proofs::Views::forms_get))]
    pub fn get(&self, i: usize) -> &Form
        requires { i < length (forms_of self.now) }
        ensures item { slice_get (forms_of self.now) i ≡ Some (form_of result.now) }
        ensures below { Below result.now self.now }
    {
        &self.items[i]
    }
}
