//! The axis that is handed to an operation: a negative one counts from the innermost lists.
ghost use Rattle.std.specs.Prelude.{◌≡◌, ◌<◌, ◌^◌, map, IfSome};
ghost use Rattle.awk_types.specs.Levels as deep;
ghost use Rattle.awk_layout.specs.Datum.{datum_of};
ghost use Rattle.awk_arguments.specs.Axes as meaning;

use awk_layout::{Datum, Datums};
use awk_types::{levels, turned_axis};

/// How many lists lie down to the leaves, where all branches are equally deep.
fn datum_levels(x: &Datum) -> Option<u64>
    ensures levels { result ≡ deep.datum_levels (datum_of x.now) }
    ensures fewer { IfSome result (λ n. n < 2 ^ 63) }
{
    match x {
        Datum::Arr(x) => Some(levels(x.typ())? + 1),
        Datum::One(x) => levels(x.typ()),
    }
}

/// Whether a datum has so many levels.
fn has_levels(x: &Datum, n: u64) -> bool
    ensures { result ≡ deep.is_number n (deep.datum_levels (datum_of x.now)) }
{
    match datum_levels(x) {
        Some(m) => m == n,
        None => false,
    }
}

/// How many lists lie down to the leaves of each, where all are equally deep.
fn common_levels(xs: &Datums) -> Option<u64>
    ensures levels { result ≡ deep.common_number (map deep.datum_levels (map datum_of xs.now)) }
    ensures fewer { IfSome result (λ n. n < 2 ^ 63) }
{
    if xs.len() == 0 {
        return None;
    }
    let first = datum_levels(xs.get(0))?;
    for k in 1..xs.len() {
        if !has_levels(xs.get(k), first) {
            return None;
        }
    }
    Some(first)
}

/// The axis that an axis of a datum stands for. What stays negative is no axis.
pub fn axis_in(x: &Datum, axis: i64) -> i64
    ensures { result ≡ meaning.axis_in (datum_of x.now) axis }
{
    turned_axis(datum_levels(x), axis)
}

/// The axis that an axis of several data stands for. It stays negative where it would not stand
/// for the same in all.
pub fn axis_among(xs: &Datums, axis: i64) -> i64
    ensures { result ≡ meaning.axis_among (map datum_of xs.now) axis }
{
    turned_axis(common_levels(xs), axis)
}
