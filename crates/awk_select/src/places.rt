//! Places that are counted from either end, bounds of ranges, and places as numbers of lanes.
ghost use Rattle.std.specs.Prelude.{◌≡◌, ◌+◌, ◌-◌, ◌<◌, ◌≤◌, pos};
ghost use Rattle.awk_select.specs.Cells.{cell_shown, IsNamed};
ghost use Rattle.awk_select.specs.Places as places;

use awk_lanes::Num;

/// A place of n items. A negative number counts from the end.
#[inline(always)]
pub fn place_in(n: u64, i: i64) -> Option<u64>
    ensures { result ≡ places.place_in n i }
{
    if i >= 0 {
        return below(n, i as u64);
    }
    let back = i.unsigned_abs();
    if back <= n { Some(n - back) } else { None }
}

// A place that is counted from the first item.
#[inline(always)]
fn below(n: u64, k: u64) -> Option<u64>
    ensures { result ≡ places.place_in n (pos k) }
{
    if k < n { Some(k) } else { None }
}

/// What an item of an index names.
#[derive(Clone, Copy, Debug, PartialEq, Eq)]
pub enum Named {
    /// No place, though it is a number.
    Outside,
    /// Null.
    Null,
    At(u64),
}

/// What a value of an index names among n items.
#[inline(always)]
pub fn place_named(n: u64, value: Option<Num>) -> Named
    ensures { IsNamed n (cell_shown value) result }
{
    match value {
        None => Named::Null,
        Some(Num::Truth(_)) => Named::Null,
        Some(Num::Int(i)) => match place_in(n, i) {
            None => Named::Outside,
            Some(k) => Named::At(k),
        },
        Some(Num::Nat(k)) => { if k < n { Named::At(k) } else { Named::Outside } }
    }
}

/// A bound of a range that goes up, or what stands for one that is not given.
pub fn bound_up(n: u64, other: u64, bound: Option<i64>) -> u64
    requires { other ≤ n }
    ensures bound { result ≡ places.bound_up n other bound }
    ensures within { result ≤ n }
{
    match bound {
        None => other,
        Some(z) if z >= 0 => n.min(z as u64),
        Some(z) => n.saturating_sub(z.unsigned_abs()),
    }
}

/// One more than a bound of a range that goes down, or than what stands for one that is not given.
pub(crate) fn bound_down(n: u64, other: u64, bound: Option<i64>) -> u64
    requires { other ≤ n }
    ensures bound { result ≡ places.bound_down n other bound }
    ensures within { result ≤ n }
{
    match bound {
        None => other,
        Some(z) if z >= 0 => n.min(z as u64 + 1),
        Some(z) => n.saturating_sub(z.unsigned_abs() - 1),
    }
}
