//! The type of a result.
ghost use Rattle.std.specs.Prelude.{◌≡◌, ◌<◌, length, false, None, IfOk};
ghost use Rattle.awk_types.specs.Faults.{fault_told, limit_refused};
ghost use Rattle.awk_types.specs.Gives.{Gives, refused_or};
ghost use Rattle.awk_types.specs.View.{typ_of};
ghost use Rattle.awk_layout.specs.Array.{IsArrayType};
ghost use Rattle.awk_layout.specs.Typing.{array_type};
ghost use Rattle.awk_pair_operands.specs.First.{all_data};
ghost use Rattle.awk_pair_operands.specs.Pairs.{has_wrong_end};
ghost use Rattle.awk_arith.specs.AtLeaves.{result_type};

use awk_frames::framed;
use awk_lanes::{Arena, LaneMaker, NoMemory, Steps};
use awk_layout::{Node, Operands, kind_of};
use awk_pair_types::{pair_types, typ_within};
use awk_types::{Fault, Prim, Typ};
use std::alloc::Global;
use std::sync::ledger::Ledger;

/// No leaves of a primitive, under what operands share. It has the type of the result.
fn no_result<'a, L: Ledger>(
    alloc: Global,
    prim: Prim,
    xs: &Operands<'a>,
    arena: &'a Arena,
    steps: &mut Steps<L>,
) -> Result<Node<'a>, NoMemory>
    requires some { 0 < length xs.now }
    requires leaves { has_wrong_end None (all_data xs.now) ≡ false }
    ensures { IfOk result (λ y. array_type y ≡ result_type prim (all_data xs.now)) }
{
    let none = pair_types(alloc, false, xs, None, arena, steps)?;
    let maker = LaneMaker::new(kind_of(prim), 0, arena)?;
    let lane = maker.finish();
    framed(alloc, &none.shape, Node::numpy(lane, steps), steps)
}

/// The type of leaves of a primitive under what operands share, or the limit that it passes.
pub(crate) fn result_typ<'a, L: Ledger>(
    alloc: Global,
    prim: Prim,
    xs: &Operands<'a>,
    arena: &'a Arena,
    steps: &mut Steps<L>,
) -> Result<Typ, Fault>
    requires some { 0 < length xs.now }
    requires leaves { has_wrong_end None (all_data xs.now) ≡ false }
    ensures answer { let t = result_type prim (all_data xs.now) in
        Gives typ_of fault_told result (refused_or (limit_refused t) t) }
    ensures lawful { IfOk result (λ t. IsArrayType (typ_of t)) }
{
    let none = no_result(alloc, prim, xs, arena, steps)?;
    typ_within(alloc, none)
}
