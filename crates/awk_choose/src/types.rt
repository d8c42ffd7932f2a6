//! What the types of operands tell before their values are looked at.
ghost use Rattle.std.specs.Prelude.{◌≡◌, ◌<◌, ◌^◌, [], false, map, IfOk};
ghost use Rattle.std.specs.List.{list_all};
ghost use Rattle.awk_types.specs.Faults.{fault_told, limit_refused};
ghost use Rattle.awk_types.specs.Gives.{Gives, refused_or};
ghost use Rattle.awk_types.specs.Predicates.{is_leaf};
ghost use Rattle.awk_types.specs.Simple.{present, option_if};
ghost use Rattle.awk_types.specs.DataType.{DataType, leaf};
ghost use Rattle.awk_types.specs.View.{typ_of};
ghost use Rattle.awk_lanes.specs.Places.{size_of};
ghost use Rattle.awk_lanes.specs.declared.kind.Kind.TheVariants as Kind;
ghost use Rattle.awk_layout.specs.Array.{IsArrayType};
ghost use Rattle.awk_layout.specs.Kinds.{primitive_of};
ghost use Rattle.awk_layout.specs.Typing.{array_type, array_items};
ghost use Rattle.awk_layout.specs.Valid.{len};
ghost use Rattle.awk_frames.specs.Framed.{IsFrame, over_type};
ghost use Rattle.awk_frames.specs.Shape.{shape as shape_by};
ghost use Rattle.awk_frames.specs.View.{shape_of};
ghost use Rattle.awk_pointwise.specs.Choice.{chosen_items};
ghost use Rattle.awk_choose.specs.Ends.{ArePresent};

use awk_frames::{Frame, framed};
use awk_lanes::{Arena, Kind, Lane, LaneMaker, NoMemory, Steps};
use awk_layout::{Arrays, Node, kind_of};
use awk_pair_sides::present_type;
use awk_pair_types::typ_within;
use awk_pointwise::Chosen;
use awk_types::{Fault, Prim, Typ, is_leaf};
use std::alloc::Global;
use std::sync::ledger::Ledger;

/// Whether columns are of leaves, optional or not.
pub(crate) fn are_leaves(columns: &Arrays) -> bool
    ensures { result ≡ list_all is_leaf (map present (map array_type columns.now)) }
{
    for i in 0..columns.len() {
        if !is_leaf(present_type(columns.get(i).typ())) {
            return false;
        }
    }
    true
}

/// The node of what is chosen, optional or not.
pub(crate) fn chosen_node<'a, L: Ledger>(
    alloc: Global,
    optional: bool,
    chosen: &Chosen<'a>,
    steps: &mut Steps<L>,
) -> Result<Node<'a>, NoMemory>
    requires fits { size_of chosen.now.lane < 2 ^ 63 }
    requires sizes { size_of chosen.now.nulls ≡ size_of chosen.now.lane }
    requires mask { chosen.now.nulls.kind ≡ Kind.I8 }
    requires present { optional ≡ false → ArePresent (chosen_items chosen.now) }
    ensures items { IfOk result (λ y. array_items y ≡ chosen_items chosen.now) }
    ensures typ { IfOk result (λ y.
        array_type y ≡ option_if optional (leaf (primitive_of chosen.now.lane.kind))) }
    ensures size { IfOk result (λ y. len y ≡ size_of chosen.now.lane) }
{
    let leaves = Node::numpy(chosen.lane.copy(), steps);
    if !optional {
        return Ok(leaves);
    }
    let leaves = Box::new(alloc, leaves)?;
    Ok(Node::byte_masked(chosen.nulls.copy(), false, leaves, steps))
}

fn no_numbers<'a>(kind: Kind, arena: &'a Arena) -> Result<Lane<'a>, NoMemory>
    ensures kind { IfOk result (λ r. r.kind ≡ kind) }
    ensures items { IfOk result (λ r. r.items ≡ []) }
{
    Ok(LaneMaker::new(kind, 0, arena)?.finish())
}

/// The type of chosen leaves of a primitive under what operands share, or the limit that it passes.
pub(crate) fn result_typ<'a, L: Ledger>(
    alloc: Global,
    prim: Prim,
    optional: bool,
    shape: &Frame<'a>,
    arena: &'a Arena,
    steps: &mut Steps<L>,
) -> Result<Typ, Fault>
    requires frame { IsFrame (shape_of shape.now) 0 }
    ensures answer { (t : DataType) → shape_of shape.now ≡ shape_by t [] →
        let u = over_type t (option_if optional (leaf prim)) in
        Gives typ_of fault_told result (refused_or (limit_refused u) u) }
    ensures lawful { IfOk result (λ t. IsArrayType (typ_of t)) }
{
    let none = Chosen {
        nulls: no_numbers(Kind::I8, arena)?,
        lane: no_numbers(kind_of(prim), arena)?,
    };
    let leaves = chosen_node(alloc, optional, &none, steps)?;
    let node = framed(alloc, shape, leaves, steps)?;
    typ_within(alloc, node)
}
