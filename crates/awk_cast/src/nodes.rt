//! Nodes over what is made of their contents.
ghost use Rattle.std.specs.Prelude.{◌≡◌, ◌<◌, ◌^◌, IfOk};
ghost use Rattle.awk_layout.specs.Valid.{len};
ghost use Rattle.awk_cast.specs.Levels as spec;

use crate::level::Cover;
use awk_columns::list_node;
use awk_lanes::{NoMemory, Steps};
use awk_layout::Node;
use std::alloc::Global;
use std::sync::ledger::Ledger;

/// A node of n items over one content.
pub(crate) fn covered<'a, L: Ledger>(
    alloc: Global,
    n: u64,
    cover: Cover<'a>,
    content: Node<'a>,
    steps: &mut Steps<L>,
) -> Result<Node<'a>, NoMemory>
    requires { spec.Covers n cover (len content) }
    ensures { IfOk result (λ y. y ≡ spec.covered n cover.entry content.entry) }
{
    match cover {
        Cover::Lists(class, offsets) => list_node(alloc, class, n, offsets, content, steps),
        Cover::Option(index) => {
            let content = Box::new(alloc, content)?;
            Ok(Node::indexed_option(index, content, steps))
        }
    }
}
