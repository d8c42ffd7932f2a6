//! The least or the greatest of numbers of 64 bits without a sign, which are compared as such.
ghost use Rattle.std.specs.Prelude.{◌≡◌, ◌<◌, pos, get_or, length, map};
ghost use Rattle.awk_cells.specs.Extremes.{IsExtreme, better_number, number_or_zero};
ghost use Rattle.awk_lanes.specs.Numbers.{number};
ghost use Rattle.awk_lanes.specs.declared.kind.Kind.TheVariants as Kind;
ghost use Rattle.awk_numbers.specs.Folds.{first_extreme};

use awk_numbers::{Extreme, Greater, Lesser, Side};

/// The number of eight bytes.
#[inline(always)]
fn natural(bytes: &[u8; 8]) -> u64
    ensures { pos result ≡ number Kind.U64 bytes.now }
{
    u64::from_le_bytes(*bytes)
}

/// The number at place i.
#[inline(always)]
fn natural_at(groups: &[[u8; 8]], i: usize) -> u64
    requires { i < length groups.now }
    ensures { pos result ≡ get_or (map (number Kind.U64) groups.now) i (pos 0) }
{
    natural(&groups[i])
}

/// The better one of the best so far and the next number.
#[inline(always)]
fn better<S: Side>(old: u64, next: u64) -> u64
    ensures { pos result ≡ better_number S.how (pos old) (pos next) }
{
    if S::beats_natural(next, old) {
        next
    } else {
        old
    }
}

/// The extreme, by one number after another.
#[inline(always)]
fn natural_in<S: Side>(groups: &[[u8; 8]]) -> u64
    requires some { 0 < length groups.now }
    ensures { IsExtreme S.how (map (number Kind.U64) groups.now) (pos result) }
{
    let mut best = natural_at(groups, 0);
    for i in 0..groups.len() {
        best = better::<S>(best, natural_at(groups, i));
    }
    best
}

/// The extreme, and 0 of none.
#[inline(always)]
pub fn natural_of(how: Extreme, groups: &[[u8; 8]]) -> u64
    ensures { let zs = map (number Kind.U64) groups.now in
        pos result ≡ number_or_zero zs (first_extreme how zs) }
{
    if groups.is_empty() {
        return 0;
    }
    match how {
        Extreme::Least => natural_in::<Lesser>(groups),
        Extreme::Greatest => natural_in::<Greater>(groups),
    }
}
