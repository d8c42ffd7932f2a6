//! How a line is read by where it stands, and what a load line has behind it.
ghost use Rattle.std.specs.Prelude.{◌≡◌, ◌<◌, [], ◌∷◌, ◌++◌, length, OnErr, OnOk, slice_get, Some};

use awk_types::{Name, NoMemory};
use std::alloc::Global;
use std::marker::Model;

/// How a line is read, by where it stands in a session.
#[derive(Clone, Copy, Debug, PartialEq, Eq)]
pub enum Reading {
    /// The first line that is not blank: a line of version 1, or the one that begins version 2.
    First,
    /// A later line of version 1.
    One,
    /// A later line of version 2.
    Two,
}

/// The key of a buffer, and how many of the bytes behind the line are its.
#[derive(Debug, Drop)]
pub struct RawPart {
    /// The key.
    pub key: Name,
    /// How many bytes.
    pub count: u64,
}

/// Buffers whose bytes stand behind the line, in order.
#[derive(Debug, Drop)]
pub struct RawParts {
    items: Vec<RawPart>,
}

impl Model for RawParts {
    ghost use Rattle.std.specs.Prelude.{List};
    ghost use Rattle.awk_query.specs.declared.reading.RawPart.{RawPart};

    ghost Value = { List RawPart };

    ghost view = { λ a. a.items.items };
}

impl RawParts {
    /// No buffers.
    pub fn new(alloc: Global) -> RawParts
        ensures { result ≡ [] }
    {
        RawParts {
            items: Vec::new(alloc),
        }
    }

    /// Puts a buffer at the end.
    pub fn push(&mut self, item: RawPart) -> Result<(), NoMemory>
        ensures ok { OnOk result (self.new ≡ self.old ++ item ∷ []) }
        ensures err { OnErr result (self.new ≡ self.old) }
    {
        self.items.push(item)?;
        Ok(())
    }

    /// How many buffers there are.
    pub fn len(&self) -> usize
        ensures { result ≡ length self.now }
    {
        self.items.len()
    }

    /// The buffer at a place.
    pub fn get(&self, i: usize) -> &RawPart
        requires { i < length self.now }
        ensures { slice_get self.now i ≡ Some result.now }
    {
        &self.items[i]
    }
}
