//! Lists of lanes.
ghost use Rattle.std.specs.Prelude.{◌≡◌, ◌<◌, ◌++◌, ◌∷◌, [], length, slice_get, Some, OnOk, OnErr};

use crate::byte_lane::ByteLane;
use crate::lane::Lane;
use crate::memory::{Arena, NoMemory};
use std::alloc::Global;
use std::marker::Model;

/// A list of lanes, which keeps the allocator that it was made with.
#[derive(Drop)]
pub struct Lanes<'a> {
    lanes: Vec<Lane<'a>>,
}

impl<'a> Model for Lanes<'a> {
    ghost use Rattle.std.specs.Prelude.{List};
    ghost use Rattle.awk_lanes.specs.Column.{Column};

    ghost Value = { List Column };

    ghost view = { λ a. a.lanes.items };
}

impl<'a> Lanes<'a> {
    /// No lanes.
    pub fn new(alloc: Global) -> Lanes<'a>
        ensures { result ≡ [] }
    {
        Lanes {
            lanes: Vec::new(alloc),
        }
    }

    /// Adds a lane at the end, or leaves the list as it was where memory is wanting.
    pub fn push(&mut self, lane: Lane<'a>) -> Result<(), NoMemory>
        ensures ok { OnOk result (self.new ≡ self.old ++ lane.entry ∷ []) }
        ensures err { OnErr result (self.new ≡ self.old) }
    {
        self.lanes.push(lane)?;
        Ok(())
    }

    /// How many lanes.
    pub fn len(&self) -> usize
        ensures { result ≡ length self.now }
    {
        self.lanes.len()
    }

    /// The lane at a place.
    pub fn get(&self, i: usize) -> &Lane<'a>
        requires { i < length self.now }
        ensures { slice_get self.now i ≡ Some result.now }
    {
        &self.lanes[i]
    }
}

/// A list of lanes in bytes, which keeps the allocator that it was made with.
#[derive(Drop)]
pub struct ByteLanes<'a> {
    lanes: Vec<ByteLane<'a>>,
}

impl<'a> Model for ByteLanes<'a> {
    ghost use Rattle.std.specs.Prelude.{List};
    ghost use Rattle.awk_lanes.specs.Column.{Column};

    ghost Value = { List Column };

    ghost view = { λ a. a.lanes.items };
}

impl<'a> ByteLanes<'a> {
    /// No lanes.
    pub fn new(alloc: Global) -> ByteLanes<'a>
        ensures { result ≡ [] }
    {
        ByteLanes {
            lanes: Vec::new(alloc),
        }
    }

    /// Adds a lane at the end, or leaves the list as it was where memory is wanting. Bytes are made
    /// of a lane that has none.
    pub fn push(&mut self, lane: Lane<'a>, arena: &'a Arena) -> Result<(), NoMemory>
        ensures ok { OnOk result (self.new ≡ self.old ++ lane.entry ∷ []) }
        ensures err { OnErr result (self.new ≡ self.old) }
    {
        let bytes = lane.in_bytes(arena)?;
        self.lanes.push(bytes)?;
        Ok(())
    }

    /// How many lanes.
    pub fn len(&self) -> usize
        ensures { result ≡ length self.now }
    {
        self.lanes.len()
    }

    /// The lane at a place.
    pub fn get(&self, i: usize) -> &ByteLane<'a>
        requires { i < length self.now }
        ensures { slice_get self.now i ≡ Some result.now }
    {
        &self.lanes[i]
    }
}
