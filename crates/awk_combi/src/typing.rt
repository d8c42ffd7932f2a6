//! The type of tuples of items of a type.
ghost use Rattle.std.specs.Prelude.{◌≡◌, replicate, IfOk};
ghost use Rattle.awk_types.specs.View.{typ_of, typs_of};
ghost use Rattle.awk_combi.specs.Combinations as spec;

use awk_types::{NoMemory, Prim, Typ, Typs, copy_type, nodes};
use std::alloc::Global;

/// The type of what stands in a slot: a place, or an item.
fn slot_typ(alloc: Global, places: bool, item: &Typ) -> Result<Typ, NoMemory>
    ensures { IfOk result (λ t. typ_of t ≡ spec.slot_type places (typ_of item.now)) }
{
    if places {
        Ok(Typ::Leaf(Prim::I64))
    } else {
        copy_type(alloc, item)
    }
}

/// How many of n slots of a type are made: no more than are too many for a type.
fn slots_of(n: u64, slot: &Typ) -> u64
    ensures { result ≡ spec.slots n (typ_of slot.now) }
{
    n.min(65536 / nodes(slot) + 1)
}

/// How many of n slots are made, of places or of items of a type.
pub(crate) fn slots_made(n: u64, places: bool, item: &Typ) -> u64
    ensures { result ≡ spec.slots n (spec.slot_type places (typ_of item.now)) }
{
    if places {
        slots_of(n, &Typ::Leaf(Prim::I64))
    } else {
        slots_of(n, item)
    }
}

/// The types of n slots, or of as many as are made.
fn slot_typs(alloc: Global, n: u64, slot: &Typ) -> Result<Typs, NoMemory>
    ensures { let t = typ_of slot.now in
        IfOk result (λ ts. typs_of ts ≡ replicate (spec.slots n t) t) }
{
    let mut parts = Typs::new(alloc);
    for i in 0..slots_of(n, slot) {
        parts.push(copy_type(alloc, slot)?)?;
    }
    Ok(parts)
}

/// The type of a tuple of n slots.
pub(crate) fn tuple_typ(alloc: Global, places: bool, n: u64, item: &Typ) -> Result<Typ, NoMemory>
    ensures { IfOk result (λ t. typ_of t ≡ spec.tuple_type places n (typ_of item.now)) }
{
    let slot = slot_typ(alloc, places, item)?;
    Ok(Typ::Tup(slot_typs(alloc, n, &slot)?))
}
