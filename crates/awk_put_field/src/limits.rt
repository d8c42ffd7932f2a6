//! The limit that the result's type passes where the list beside a single value passes one.
ghost use Rattle.std.specs.Prelude.{◌≡◌, ◌==◌, ◌<◌, ◌||◌, length, min, get_or, if◌then◌else◌};
ghost use Rattle.awk_types.specs.DataType.{depth as depth_of, depths, greatest, var};
ghost use Rattle.awk_types.specs.Faults.{fault_told};
ghost use Rattle.awk_types.specs.Names.{place_of};
ghost use Rattle.awk_types.specs.Parts.{item_of};
ghost use Rattle.awk_types.specs.Simple.{present};
ghost use Rattle.awk_types.specs.View.{typ_of, fields_of, names_of, types_of};
ghost use Rattle.awk_put_field.specs.Depths.{depth_over as depth_joined, one_if as one_where};
ghost use Rattle.awk_put_field.specs.Depths.{list_told};
ghost use Rattle.awk_put_field.specs.Field.{put};

use awk_pair_sides::present_type;
use awk_types::{Fault, Fields, Typ, TypeFault, depth, is_optional};

/// The place of a field, or the number of fields where there is none of the name.
fn field_place(fields: &Fields, name: &str) -> usize
    ensures { result ≡ place_of name.now (names_of (fields_of fields.now)) }
{
    for i in 0..fields.len() {
        if fields.get(i).name.as_str() == name {
            return i;
        }
    }
    fields.len()
}

/// How deep the type of a field is, or 0 where it is the one at a place.
fn depth_beside(fields: &Fields, i: usize, place: usize) -> u64
    requires { i < length (fields_of fields.now) }
    ensures { let kept = get_or (depths (types_of (fields_of fields.now))) i 0 in
        result ≡ (if i == place then 0 else min kept u64.MAX) }
{
    if i == place {
        return 0;
    }
    depth(&fields.get(i).typ)
}

/// The greatest depth of fields, with one of another depth among them.
fn deepest_with(fields: &Fields, name: &str, new: u64) -> u64
    ensures { let ds = depths (types_of (fields_of fields.now)) in
        let all = put name.now (names_of (fields_of fields.now)) new ds in
        result ≡ min (greatest all) u64.MAX }
{
    let place = field_place(fields, name);
    let mut deepest = new;
    for i in 0..fields.len() {
        deepest = deepest.max(depth_beside(fields, i, place));
    }
    deepest
}

/// 1 where a level is optional, else 0.
fn one_if(a: bool, b: bool) -> u64
    ensures { result ≡ one_where (a || b) }
{
    if a {
        return 1;
    }
    if b { 1 } else { 0 }
}

/// The type of what stands below a level.
fn item_type(t: &Typ) -> &Typ
    ensures { typ_of result.now ≡ item_of (present (typ_of t.now)) }
{
    let t = present_type(t);
    match t {
        Typ::Var(item) | Typ::Reg(_, item) => item,
        _ => t,
    }
}

/// How deep the type of records is with a field of another type.
fn depth_over(name: &str, optional: bool, t: &Typ, u: &Typ) -> u64
    ensures { let joined = depth_joined name.now optional (typ_of t.now) (typ_of u.now) in
        result ≡ min joined u64.MAX }
{
    match t {
        Typ::Opt(inner) => depth_over(name, true, inner, u),
        Typ::Var(item) | Typ::Reg(_, item) => {
            let below = depth_over(name, false, item, item_type(u)).saturating_add(1);
            below.saturating_add(one_if(optional, is_optional(u)))
        }
        Typ::Rec(fields) => {
            let fields = deepest_with(fields, name, depth(u)).saturating_add(1);
            fields.saturating_add(one_if(optional, false))
        }
        _ => 0,
    }
}

/// The same where the field is of lists of a type.
fn depth_over_lists(name: &str, optional: bool, t: &Typ, u: &Typ) -> u64
    ensures { let joined = depth_joined name.now optional (typ_of t.now) (var (typ_of u.now)) in
        result ≡ min joined u64.MAX }
{
    match t {
        Typ::Opt(inner) => depth_over_lists(name, true, inner, u),
        Typ::Var(item) | Typ::Reg(_, item) => {
            let below = depth_over(name, false, item, u).saturating_add(1);
            below.saturating_add(one_if(optional, false))
        }
        Typ::Rec(fields) => {
            let new = depth(u).saturating_add(1);
            let fields = deepest_with(fields, name, new).saturating_add(1);
            fields.saturating_add(one_if(optional, false))
        }
        _ => 0,
    }
}

/// The fault of the result's type, where lists of a type passed a limit.
pub fn list_fault(name: &str, t: &Typ, u: &Typ, fault: TypeFault) -> Fault
    ensures { fault_told result ≡ list_told name.now (typ_of t.now) (typ_of u.now) fault }
{
    match fault {
        TypeFault::Depth => Fault::Depth,
        TypeFault::Size => {
            if depth_over_lists(name, false, t, u) > 60 {
                return Fault::Depth;
            }
            Fault::Size
        }
        TypeFault::NoMemory => Fault::NoMemory,
    }
}
