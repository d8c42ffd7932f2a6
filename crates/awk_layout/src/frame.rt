//! Nodes over several contents.
ghost use Rattle.std.specs.Prelude.{◌≡◌};
ghost use Rattle.awk_layout.specs.Frames as spec;

use crate::node::{Node, Nodes};
use awk_lanes::{Lane, Steps};
use awk_types::Names;
use std::sync::ledger::Ledger;

/// What lies over several contents.
#[derive(Drop)]
pub enum Frame<'a> {
    /// The names of a record, or none of a tuple.
    Row(Option<Names>),
    /// The tags and the index of a union.
    Union(Lane<'a>, Lane<'a>),
}

/// The node of n items over several contents.
pub fn framed<'a, L: Ledger>(
    n: u64,
    frame: Frame<'a>,
    contents: Nodes<'a>,
    steps: &mut Steps<L>,
) -> Node<'a>
    requires { spec.Frames n frame contents }
    ensures { result ≡ spec.framed n frame.entry contents.entry }
{
    match frame {
        Frame::Row(names) => Node::row(names, n, contents, steps),
        Frame::Union(tags, index) => Node::union(tags, index, contents, steps),
    }
}
