//! The lists that the slots of tuples take their items of.
ghost use Rattle.std.specs.Prelude.{◌≡◌, ◌++◌, ◌∷◌, [], IfOk};

use awk_lanes::{Lane, Lanes};
use awk_layout::{Array, Arrays};
use awk_types::NoMemory;
use std::alloc::Global;

/// The lists of each slot.
#[derive(Drop)]
pub struct Sources<'a> {
    pub firsts: Lanes<'a>,
    pub lengths: Lanes<'a>,
    pub contents: Arrays<'a>,
}

impl<'a> Sources<'a> {
    /// No slots.
    pub fn new(alloc: Global) -> Sources<'a>
        ensures { result ≡ record { firsts = []; lengths = []; contents = [] } }
    {
        Sources {
            firsts: Lanes::new(alloc),
            lengths: Lanes::new(alloc),
            contents: Arrays::new(alloc),
        }
    }

    /// Adds a slot.
    pub fn push(
        &mut self,
        first: Lane<'a>,
        length: Lane<'a>,
        content: Array<'a>,
    ) -> Result<(), NoMemory>
        ensures { IfOk result (λ _. self.new ≡ record {
          firsts = self.old.firsts ++ first.entry ∷ [];
          lengths = self.old.lengths ++ length.entry ∷ [];
          contents = self.old.contents ++ content.entry ∷ [];
        }) }
    {
        self.firsts.push(first)?;
        self.lengths.push(length)?;
        self.contents.push(content)
    }
}
