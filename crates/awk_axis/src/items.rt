//! A function of one list, applied to the lists inside the items of an array.
ghost use Rattle.std.specs.Prelude.{◌≡◌, IfOk};
ghost use Rattle.awk_types.specs.Faults.{fault_told};
ghost use Rattle.awk_types.specs.Gives.{Gives};
ghost use Rattle.awk_layout.specs.Datum.{datum_of, first_item, IsDatum};
ghost use Rattle.awk_layout.specs.Typing.{array_type, array_items};
ghost use Rattle.awk_layout.specs.Valid.{len};
ghost use Rattle.awk_list_functions.specs.Lifting as spec;
ghost use Rattle.awk_list_functions.specs.Spoils.{too_many};

use crate::lift::{Mapped, lifted};
use awk_lanes::{Arena, Steps};
use awk_layout::{Array, Datum};
use awk_list_functions::{ListOp, Reach, Spoil, first_of, judged, spoilt};
use awk_types::{Fault, ITEM_LIMIT};
use std::alloc::Global;
use std::sync::ledger::Ledger;

/// The spoil of a column of n items.
fn too_many(n: u64) -> Option<Spoil>
    ensures { result ≡ too_many n }
{
    if n > ITEM_LIMIT {
        Some(Spoil::Size)
    } else {
        None
    }
}

/// The array, each list inside its items that is reached by the function.
pub(crate) fn on_items<'a, F: ListOp, L: Ledger>(
    alloc: Global,
    f: &F,
    k: Reach,
    x: &Array<'a>,
    arena: &'a Arena,
    steps: &mut Steps<L>,
) -> Result<Datum<'a>, Fault>
    ensures answer { Gives datum_of fault_told result
        (spec.on_items (F.function f.now) k (array_type x.now) (array_items x.now)) }
    ensures datum { IfOk result IsDatum }
{
    if let Err(why) = judged(alloc, f, k, x.typ()) {
        return Err(why);
    }
    let many = too_many(x.len());
    match lifted(alloc, f, k, x, arena, steps)? {
        Mapped::Spoiled(why) => Err(spoilt(first_of(many, why))),
        Mapped::Column(node) => match many {
            Some(why) => Err(spoilt(why)),
            None => Ok(Datum::Arr(Array::of_node(alloc, node)?)),
        },
    }
}

/// The single value that is the item of an array, each list inside that is reached by the function.
pub(crate) fn on_one<'a, F: ListOp, L: Ledger>(
    alloc: Global,
    f: &F,
    k: Reach,
    x: &Array<'a>,
    arena: &'a Arena,
    steps: &mut Steps<L>,
) -> Result<Datum<'a>, Fault>
    requires one { len x.now ≡ 1 }
    ensures answer { Gives datum_of fault_told result
        (spec.on_one (F.function f.now) k (array_type x.now) (first_item x.now)) }
    ensures datum { IfOk result IsDatum }
{
    if let Err(why) = judged(alloc, f, k, x.typ()) {
        return Err(why);
    }
    match lifted(alloc, f, k, x, arena, steps)? {
        Mapped::Spoiled(why) => Err(spoilt(why)),
        Mapped::Column(node) => Ok(Datum::One(Array::of_node(alloc, node)?)),
    }
}
