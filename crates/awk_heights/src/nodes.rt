//! Nodes over what is made of their contents.
ghost use Rattle.std.specs.Prelude.{◌≡◌, IfOk};
ghost use Rattle.awk_layout.specs.Valid.{len};
ghost use Rattle.awk_heights.specs.Levels as spec;

use crate::level::Cover;
use awk_lanes::{NoMemory, Steps};
use awk_layout::Node;
use std::alloc::Global;
use std::sync::ledger::Ledger;

/// The node over one content.
pub(crate) fn covered<'a, L: Ledger>(
    alloc: Global,
    cover: Cover<'a>,
    content: Node<'a>,
    steps: &mut Steps<L>,
) -> Result<Node<'a>, NoMemory>
    requires { spec.Covers cover (len content) }
    ensures { IfOk result (λ y. y ≡ spec.covered cover.entry content.entry) }
{
    let content = Box::new(alloc, content)?;
    match cover {
        Cover::Lists(starts, stops) => Ok(Node::list(starts, stops, content, steps)),
        Cover::Sized(index, size, n) => {
            let lists = Box::new(alloc, Node::regular(size, n, content, steps))?;
            Ok(Node::indexed(index, lists, steps))
        }
        Cover::Option(index) => Ok(Node::indexed_option(index, content, steps)),
    }
}
