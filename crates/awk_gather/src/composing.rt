//! Indexes of options, composed with what they are put over.
ghost use Rattle.std.specs.Prelude.{◌≡◌, IfOk};
ghost use Rattle.awk_lanes.specs.Places.{IsOptionalIndex};
ghost use Rattle.awk_lanes.specs.declared.kind.Kind.TheVariants as Kinds;
ghost use Rattle.awk_layout.specs.Valid.{len};
ghost use Rattle.awk_gather.specs.Peeled.{IsPickedOpt};
ghost use Rattle.awk_gather.specs.Composed.{IsComposed};

use crate::peeling::{Peeled, peel};
use awk_lanes::{Arena, Lane, Steps};
use awk_layout::Node;
use awk_types::NoMemory;
use std::alloc::{AllocError, Global};
use std::sync::ledger::Ledger;

/// The items of a node at places, and null at each negative number. The options and indexes of the
/// node are followed, so that no further one is put over them: a chain of operations that make
/// options makes no layout higher.
#[tactic(auto, using(crate::proofs::GatheredArrays::peeled_opt))]
pub fn option_over<'a, L: Ledger>(
    alloc: Global,
    x: &Node<'a>,
    places: &Lane<'a>,
    arena: &'a Arena,
    steps: &mut Steps<L>,
) -> Result<Node<'a>, NoMemory>
    requires kind { places.now.kind ≡ Kinds.I64 }
    requires places { IsOptionalIndex places.now (len x.now) }
    ensures items { IfOk result (IsPickedOpt x.now places.now) }
    ensures composed { IfOk result IsComposed }
{
    if places.len() >= 1 << 63 {
        return Err(AllocError);
    }
    let Peeled { index, content } = peel(alloc, x, places.copy(), arena, steps)?;
    let content = Box::new(alloc, content)?;
    Ok(Node::indexed_option(index, content, steps))
}
