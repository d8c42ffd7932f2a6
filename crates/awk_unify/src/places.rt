//! Places in order.
ghost use Rattle.std.specs.Prelude.{◌≡◌, ◌<◌, ◌↔◌, [], ◌∷◌, ◌++◌, length, map, IfOk, IsTrue};
ghost use Rattle.std.specs.Prelude.{OnErr, OnOk, slice_get};
ghost use Rattle.awk_unify.specs.Carry.{tag_at};
ghost use Rattle.awk_unify.specs.Places.{places};

use awk_types::NoMemory;
use std::alloc::Global;
use std::marker::Model;

/// Whether these are the same numbers.
fn same_numbers(numbers: &[u64], others: &[u64]) -> bool
    ensures { IsTrue result ↔ (numbers.now ≡ others.now) }
{
    numbers == others
}

/// Places in order.
#[derive(Debug, Drop)]
pub struct Places {
    items: Vec<u64>,
}

impl Model for Places {
    ghost use Rattle.std.specs.Prelude.{List, ℕ};

    ghost Value = { List ℕ };

    ghost view = { λ p. p.items.items };
}

impl Places {
    /// No places.
    pub fn new(alloc: Global) -> Places
        ensures { result ≡ [] }
    {
        Places {
            items: Vec::new(alloc),
        }
    }

    /// Puts a place at the end.
    pub fn push(&mut self, item: u64) -> Result<(), NoMemory>
        ensures ok { OnOk result (self.new ≡ self.old ++ item ∷ []) }
        ensures err { OnErr result (self.new ≡ self.old) }
    {
        self.items.push(item)?;
        Ok(())
    }

    /// How many places there are.
    pub fn len(&self) -> usize
        ensures { result ≡ length self.now }
    {
        self.items.len()
    }

    /// The one at a place.
    pub fn get(&self, i: usize) -> u64
        requires { i < length self.now }
        ensures { slice_get self.now i ≡ Some result }
    {
        self.items[i]
    }

    /// Whether these are the same places.
    pub(crate) fn same(&self, others: &Places) -> bool
        ensures { IsTrue result ↔ (self.now ≡ others.now) }
    {
        same_numbers(&self.items, &others.items)
    }

    /// Equal places.
    pub fn copy(&self, alloc: Global) -> Result<Places, NoMemory>
        ensures { IfOk result (λ p. p ≡ self.now) }
    {
        let mut items = Vec::new(alloc);
        for item in &self.items {
            items.push(*item)?;
        }
        Ok(Places { items })
    }

    /// The one at a place, or 0 beyond the last one.
    #[tactic(auto, using(crate::proofs::Lists::place_laws))]
    pub fn at(&self, i: u64) -> u64
        ensures { result ≡ tag_at self.now i }
    {
        if i < self.len() as u64 {
            self.get(i as usize)
        } else {
            0
        }
    }

    /// For each of these places what stands there.
    #[tactic(auto, using(crate::proofs::Lists::place_laws))]
    pub(crate) fn at_each(&self, alloc: Global, ks: &Places) -> Result<Places, NoMemory>
        ensures { IfOk result (λ p. p ≡ map (tag_at self.now) ks.now) }
    {
        let mut made = Places::new(alloc);
        for i in 0..ks.len() {
            made.push(self.at(ks.get(i)))?;
        }
        Ok(made)
    }

    /// The first n places.
    #[tactic(auto, using(crate::proofs::Lists::place_laws))]
    pub(crate) fn first(alloc: Global, n: usize) -> Result<Places, NoMemory>
        ensures { IfOk result (λ p. p ≡ places n) }
    {
        let mut made = Places::new(alloc);
        for i in 0..n {
            made.push(i as u64)?;
        }
        Ok(made)
    }
}
