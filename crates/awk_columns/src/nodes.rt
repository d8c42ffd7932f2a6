//! Lists of a class over their content, as one node.
ghost use Rattle.std.specs.Prelude.{◌≡◌, IfOk};
ghost use Rattle.awk_layout.specs.Valid.{len};
ghost use Rattle.awk_columns.specs.Joined.{AreOffsets};
ghost use Rattle.awk_columns.specs.ListNode.{AreEven, list_layout};

use awk_lanes::{Lane, Steps};
use awk_layout::Node;
use awk_types::NoMemory;
use std::alloc::Global;
use std::sync::ledger::Ledger;

/// Lists over their content: even ones of a sized class.
pub fn list_node<'a, L: Ledger>(
    alloc: Global,
    class: Option<u64>,
    n: u64,
    offsets: Lane<'a>,
    content: Node<'a>,
    steps: &mut Steps<L>,
) -> Result<Node<'a>, NoMemory>
    requires offsets { AreOffsets offsets n (len content) }
    requires even { AreEven class offsets n }
    ensures { IfOk result (λ y. y ≡ list_layout class n offsets.entry content.entry) }
{
    let content = Box::new(alloc, content)?;
    match class {
        None => Ok(Node::list_offset(offsets, content, steps)),
        Some(size) => Ok(Node::regular(size, n, content, steps)),
    }
}
