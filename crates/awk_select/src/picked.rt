//! The items of an array at places and nulls, of which a mask or an index tells.
ghost use Rattle.std.specs.Prelude.{◌≡◌, false, None, Ok};
ghost use Rattle.awk_types.specs.DataType.{opt};
ghost use Rattle.awk_types.specs.Datum.{arr};
ghost use Rattle.awk_types.specs.Faults.{fault_told, limit_refused};
ghost use Rattle.awk_types.specs.Gives.{Gives, refused_or};
ghost use Rattle.awk_types.specs.Limit.{limit};
ghost use Rattle.awk_types.specs.Simple.{is_option, simple};
ghost use Rattle.awk_types.specs.View.{typ_of};
ghost use Rattle.awk_lanes.specs.Places.{IsIndex, IsOptionalIndex};
ghost use Rattle.awk_lanes.specs.declared.kind.Kind.TheVariants as Kind;
ghost use Rattle.awk_layout.specs.Typing.{array_type, array_items, array_datum};
ghost use Rattle.awk_layout.specs.Valid.{len};
ghost use Rattle.awk_gather.specs.Arrays.{pick as items_at};
ghost use Rattle.awk_select.specs.Picks.{picked_type};

use awk_gather::{gather, gather_opt};
use awk_lanes::{Arena, Lane, Steps};
use awk_layout::Array;
use awk_types::{Fault, Typ, copy_type, is_optional, opt_of};
use std::alloc::Global;
use std::sync::ledger::Ledger;

/// Judges the type of items of type t that are picked by others of type u.
pub(crate) fn judge_type(alloc: Global, t: &Typ, u: &Typ) -> Result<(), Fault>
    requires { limit (typ_of t.now) ≡ None }
    ensures { let made = picked_type (typ_of u.now) (typ_of t.now) in
        let said = refused_or (limit_refused made) (tt {0}) in
        Gives (λ _. tt {0}) fault_told result said }
{
    if is_optional(u) {
        judge_option(alloc, t)
    } else {
        Ok(())
    }
}

// Judges the option of a type.
fn judge_option(alloc: Global, t: &Typ) -> Result<(), Fault>
    ensures { let said = refused_or (limit_refused (simple (opt (typ_of t.now)))) (tt {0}) in
        Gives (λ _. tt {0}) fault_told result said }
{
    let t = copy_type(alloc, t)?;
    let _ = opt_of(alloc, t)?;
    Ok(())
}

/// The items of an array at places, and null at each negative number, in the type that items of
/// type u give them.
pub(crate) fn pick<'a, L: Ledger>(
    alloc: Global,
    x: &Array<'a>,
    places: &Lane<'a>,
    u: &Typ,
    arena: &'a Arena,
    steps: &mut Steps<L>,
) -> Result<Array<'a>, Fault>
    requires kind { places.now.kind ≡ Kind.I64 }
    requires places { IsOptionalIndex places.now (len x.now) }
    requires present { is_option (typ_of u.now) ≡ false → IsIndex places.now (len x.now) }
    requires limit { limit (picked_type (typ_of u.now) (array_type x.now)) ≡ None }
    ensures answer { let items = items_at (array_items x.now) places.now.items in
        let said = Ok (arr (picked_type (typ_of u.now) (array_type x.now)) items) in
        Gives array_datum fault_told result said }
{
    if is_optional(u) {
        gather_opt(alloc, x, places, arena, steps)
    } else {
        Ok(gather(alloc, x, places, arena, steps)?)
    }
}
