//! Packing: the form of the type, and the lanes of one node after another.
ghost use Rattle.std.specs.Prelude.{◌≡◌, true, IfOk};
ghost use Rattle.awk_types.specs.Gives.{Gives};
ghost use Rattle.awk_form.specs.Lawful.{IsLawful};
ghost use Rattle.awk_form.specs.View.{form_of};
ghost use Rattle.awk_layout.specs.Typing.{array_type, array_items};
ghost use Rattle.awk_pack.specs.Canon.{canon, pack_told, is_too_large};
ghost use Rattle.awk_pack.specs.Packing.{IsPut, IfSize};
ghost use Rattle.awk_pack.specs.Shown.{packed_of};

use crate::contents::contents;
use crate::form::packed_form;
use crate::packed::{PackFault, Packed};
use awk_lanes::{Arena, ByteLanes, Steps};
use awk_layout::Array;
use std::alloc::Global;
use std::sync::ledger::Ledger;

/// Puts the lanes of an array behind others, node by node in pre-order.
#[cycle(put)]
fn put_lanes<'a, L: Ledger>(
    alloc: Global,
    x: &Array<'a>,
    lanes: &mut ByteLanes<'a>,
    arena: &'a Arena,
    steps: &mut Steps<L>,
) -> Result<(), PackFault>
    ensures put { IfOk result (λ done.
        IsPut (array_type x.now) (array_items x.now) lanes.old lanes.new) }
    ensures size { IfSize result (is_too_large (array_type x.now) (array_items x.now) ≡ true) }
{
    let inner = contents(alloc, x, lanes, arena, steps)?;
    for i in 0..inner.len() {
        put_lanes(alloc, inner.get(i), lanes, arena, steps)?;
    }
    Ok(())
}

/// The packed array of the type and the items of an array. `Size` tells exactly that a column has
/// more than 1,073,741,824 items.
pub fn pack<'a, L: Ledger>(
    alloc: Global,
    x: &Array<'a>,
    arena: &'a Arena,
    steps: &mut Steps<L>,
) -> Result<Packed<'a>, PackFault>
    ensures packed { let said = canon (array_type x.now) (array_items x.now) in
        Gives packed_of pack_told result said }
    ensures lawful { IfOk result (λ p. IsLawful (form_of p.form)) }
{
    let form = packed_form(alloc, x.typ())?;
    let mut lanes = ByteLanes::new(alloc);
    put_lanes(alloc, x, &mut lanes, arena, steps)?;
    Ok(Packed {
        form,
        length: x.len(),
        lanes,
    })
}
