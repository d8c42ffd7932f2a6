//! Functions of one list, over columns of lists.
ghost use Rattle.std.specs.Prelude.{◌≡◌, None, true, false, IfOk};
ghost use Rattle.awk_types.specs.View.{typ_of};
ghost use Rattle.awk_layout.specs.Typing.{array_type};
ghost use Rattle.awk_list_functions.specs.Counted.{CountsGiven};
ghost use Rattle.awk_list_functions.specs.Made.{IsMade};
ghost use Rattle.awk_list_functions.specs.ListFunction.{ListFunction, made_type, given_type};
ghost use Rattle.awk_list_functions.specs.ListFunction.{given_class};
ghost use Rattle.awk_list_functions.specs.ListFunction.{gives_lists, NeverIndex};
ghost use Rattle.awk_list_functions.specs.declared.function.Made.TheVariants as made;
ghost use Rattle.awk_columns.specs.ListClass.{list_type};

use crate::causes::{Refusal, Spoil};
use awk_columns::Lists;
use awk_lanes::{Arena, Lane, Steps};
use awk_layout::Node;
use awk_types::{NoMemory, Typ};
use std::alloc::Global;
use std::sync::ledger::Ledger;

/// What is made of a column of lists.
#[derive(Drop)]
pub enum Made<'a> {
    /// The lists are refused.
    Spoiled(Spoil),
    /// A list for each list. The lists fill their content.
    Lists {
        offsets: Lane<'a>,
        content: Node<'a>,
    },
    /// A list for each list, all of one size. The lists fill their content, and no lane tells where
    /// each begins.
    Even(Node<'a>),
    /// A list for each list, of any length, where it lies in a content that holds others too.
    Spans {
        starts: Lane<'a>,
        stops: Lane<'a>,
        content: Node<'a>,
    },
    /// A single value for each list.
    Singles(Node<'a>),
}

impl<'a> Made<'a> {
    /// Lists as they lie: no item is moved.
    pub fn as_they_lie(alloc: Global, lists: &Lists<'a>) -> Result<Made<'a>, NoMemory>
        ensures { let l = lists.now in
            IfOk result (λ m. m ≡ made.Spans l.starts l.stops l.content) }
    {
        let content = lists.content().node().copy(alloc)?;
        Ok(Made::Spans {
            starts: lists.starts().copy(),
            stops: lists.stops().copy(),
            content,
        })
    }
}

/// A function of one list.
pub trait ListOp {
    /// What it does.
    ghost function: { Self → ListFunction };

    /// Why the items' type is refused.
    fn refusal(&self, item: &Typ) -> Option<Refusal>
        ensures { result ≡ (function self.now).refusal (typ_of item.now) };

    /// The type of the items of a list that is given, or that of a single value.
    fn typ(&self, alloc: Global, item: &Typ) -> Result<Typ, NoMemory>
        ensures { let giving = (function self.now).giving in
            IfOk result (λ t. typ_of t ≡ made_type giving (typ_of item.now)) };

    /// Whether it gives lists.
    fn gives_lists(&self) -> bool
        ensures { result ≡ gives_lists (function self.now).giving };

    /// The class of a list that is given for one of this class.
    fn class(&self, class: Option<u64>) -> Option<u64>
        ensures { result ≡ given_class (function self.now).giving class };

    /// Whether lists may be refused for a place. Where they are not, lists above the axis that have
    /// too many items together are refused without a look inside.
    fn tells_index(&self) -> bool
        ensures { result ≡ false → NeverIndex (function self.now) }
    {
        true
    }

    /// Whether lists are refused for the number of items that are given alone, and never where
    /// single values are given. Then lists that lie over one another need not be joined.
    fn counts_given(&self) -> bool
        ensures { result ≡ true → CountsGiven (function self.now) }
    {
        false
    }

    /// What is made of all lists of a column at once.
    fn column<'a, L: Ledger>(
        &self,
        alloc: Global,
        lists: &Lists<'a>,
        arena: &'a Arena,
        steps: &mut Steps<L>,
    ) -> Result<Made<'a>, NoMemory>
        requires accepted { (function self.now).refusal (array_type lists.now.content) ≡ None }
        ensures { IfOk result (IsMade (function self.now) lists.now.class lists.now.starts
            lists.now.stops lists.now.content) };
}

/// The type of lists of a class.
fn list_typ(alloc: Global, class: Option<u64>, item: Typ) -> Result<Typ, NoMemory>
    ensures { IfOk result (λ t. typ_of t ≡ list_type class (typ_of item)) }
{
    match class {
        None => Ok(Typ::Var(Box::new(alloc, item)?)),
        Some(n) => Ok(Typ::Reg(n, Box::new(alloc, item)?)),
    }
}

/// The type that is given for a list of a class.
#[tactic(auto, using(crate::proofs::GivenTypes::given))]
pub(crate) fn given_typ<F: ListOp>(
    alloc: Global,
    f: &F,
    class: Option<u64>,
    item: &Typ,
) -> Result<Typ, NoMemory>
    ensures { let giving = (F.function f.now).giving in
        IfOk result (λ t. typ_of t ≡ given_type giving class (typ_of item.now)) }
{
    let made = f.typ(alloc, item)?;
    if f.gives_lists() {
        list_typ(alloc, f.class(class), made)
    } else {
        Ok(made)
    }
}
