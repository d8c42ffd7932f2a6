//! The numbers of an inner shape.
ghost use Rattle.std.specs.Prelude.{◌≡◌, ◌<◌, [], ◌∷◌, ◌++◌, length, OnErr, OnOk, slice_get};

use awk_types::NoMemory;
use std::alloc::Global;
use std::marker::Model;

/// Numbers in order.
#[derive(Debug, Drop)]
pub struct Dims {
    pub(crate) items: Vec<u64>,
}

impl Model for Dims {
    ghost use Rattle.std.specs.Prelude.{List, ℕ};

    ghost Value = { List ℕ };

    ghost view = { λ a. a.items.items };
}

impl Dims {
    /// No numbers.
    pub fn new(alloc: Global) -> Dims
        ensures { result ≡ [] }
    {
        Dims {
            items: Vec::new(alloc),
        }
    }

    /// Puts a number at the end.
    pub fn push(&mut self, item: u64) -> Result<(), NoMemory>
        ensures ok { OnOk result (self.new ≡ self.old ++ item ∷ []) }
        ensures err { OnErr result (self.new ≡ self.old) }
    {
        self.items.push(item)?;
        Ok(())
    }

    /// How many numbers there are.
    pub fn len(&self) -> usize
        ensures { result ≡ length self.now }
    {
        self.items.len()
    }

    /// The number at a place.
    pub fn get(&self, i: usize) -> &u64
        requires { i < length self.now }
        ensures { slice_get self.now i ≡ Some result.now }
    {
        &self.items[i]
    }
}
