//! Whole numbers in order.
ghost use Rattle.std.specs.Prelude.{◌≡◌, ◌<◌, [], ◌∷◌, ◌++◌, length, OnErr, OnOk, slice_get};

use crate::name::NoMemory;
use std::alloc::Global;
use std::marker::Model;

/// Whole numbers in order.
#[derive(Debug, Drop)]
pub struct Wholes {
    items: Vec<i128>,
}

impl Model for Wholes {
    ghost use Rattle.std.specs.Prelude.{List, ℤ};

    ghost Value = { List ℤ };

    ghost view = { λ a. a.items.items };
}

impl Wholes {
    /// No numbers.
    pub fn new(alloc: Global) -> Wholes
        ensures { result ≡ [] }
    {
        Wholes {
            items: Vec::new(alloc),
        }
    }

    /// Puts a number at the end.
    pub fn push(&mut self, item: i128) -> Result<(), NoMemory>
        ensures ok { OnOk result (self.new ≡ self.old ++ item ∷ []) }
        ensures err { OnErr result (self.new ≡ self.old) }
    {
        self.items.push(item)?;
        Ok(())
    }

    /// How many numbers there are.
    pub fn len(&self) -> usize
        ensures { result ≡ length self.now }
    {
        self.items.len()
    }

    /// The number at a place.
    pub fn get(&self, i: usize) -> &i128
        requires { i < length self.now }
        ensures { slice_get self.now i ≡ Some result.now }
    {
        &self.items[i]
    }
}
