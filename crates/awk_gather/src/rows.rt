//! Records at places: an index over the record, which moves no column.
ghost use Rattle.std.specs.Prelude.{◌≡◌, ◌+◌, ◌≤◌, ◌<◌, ◌^◌, IfOk};
ghost use Rattle.awk_lanes.specs.Places.{size_of, IsIndex};
ghost use Rattle.awk_lanes.specs.declared.kind.Kind.TheVariants as Kind;
ghost use Rattle.awk_layout.specs.Layout.{indexed};
ghost use Rattle.awk_layout.specs.Valid.{len};
ghost use Rattle.awk_gather.specs.Arrays.{index_over};

use awk_gather_lanes::narrowed;
use awk_lanes::{Arena, Lane, NoMemory, Steps};
use awk_layout::Node;
use std::alloc::Global;
use std::sync::ledger::Ledger;

/// Places as an index over n items.
fn index_of_places<'a, L: Ledger>(
    places: &Lane<'a>,
    n: u64,
    arena: &'a Arena,
    steps: &mut Steps<L>,
) -> Result<Lane<'a>, NoMemory>
    requires kind { places.now.kind ≡ Kind.I64 }
    requires places { IsIndex places.now n }
    ensures lane { IfOk result (λ r. r ≡ index_over n places.now) }
    ensures cost { steps.new ≤ steps.old + size_of places.now }
{
    if n > 1 << 32 {
        Ok(places.copy())
    } else {
        narrowed(places, arena, steps)
    }
}

/// An index directly over a copy of the node.
pub fn gather_rows<'a, L: Ledger>(
    alloc: Global,
    x: &Node<'a>,
    places: &Lane<'a>,
    arena: &'a Arena,
    steps: &mut Steps<L>,
) -> Result<Node<'a>, NoMemory>
    requires kind { places.now.kind ≡ Kind.I64 }
    requires small { size_of places.now < 2 ^ 63 }
    requires places { IsIndex places.now (len x.now) }
    ensures node { IfOk result (λ r. r ≡ indexed (index_over (len x.now) places.now) x.now) }
    ensures cost { steps.new ≤ steps.old + (size_of places.now + 1) }
{
    let index = index_of_places(places, x.len(), arena, steps)?;
    let content = Box::new(alloc, x.copy(alloc)?)?;
    Ok(Node::indexed(index, content, steps))
}
