//! What several types unify to, part by part.
ghost use Rattle.std.specs.Prelude.{◌≡◌, OnOk};
ghost use Rattle.awk_unify.specs.Join.{no_parts, one_more};
ghost use Rattle.awk_unify.specs.View.{parts_of, unified_of};

use crate::lift::Lifts;
use crate::unified::Unified;
use awk_types::{NoMemory, Typs};
use std::alloc::Global;

/// The types that parts of two rows unify to, and how the values of each side become values of
/// them.
#[derive(Debug, Drop)]
pub(crate) struct Parts {
    pub(crate) typs: Typs,
    pub(crate) lefts: Lifts,
    pub(crate) rights: Lifts,
}

impl Parts {
    /// No parts.
    pub(crate) fn new(alloc: Global) -> Parts
        ensures { parts_of result ≡ no_parts }
    {
        Parts {
            typs: Typs::new(alloc),
            lefts: Lifts::new(alloc),
            rights: Lifts::new(alloc),
        }
    }

    /// Puts what two further types unify to at the end.
    pub(crate) fn push(&mut self, item: Unified) -> Result<(), NoMemory>
        ensures { OnOk result (parts_of self.new ≡ one_more (parts_of self.old) (unified_of item)) }
    {
        let Unified { typ, left, right } = item;
        self.typs.push(typ)?;
        self.lefts.push(left)?;
        self.rights.push(right)
    }
}
