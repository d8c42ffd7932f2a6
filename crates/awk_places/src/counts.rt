//! How many tuples there are, before any is made.
ghost use Rattle.std.specs.Prelude.{◌≡◌, ◌+◌, ◌*◌, ◌/◌, ◌<◌, ◌≤◌, ◌^◌, length};
ghost use Rattle.awk_types.specs.ItemLimit.{item_limit};
ghost use Rattle.awk_places.specs.Places.{rising_places, IsCounted};
ghost use Rattle.awk_places.specs.Paths.{paths};

use awk_types::ITEM_LIMIT;

/// A quotient. The first two numbers of a row, which pairs ask for, are divided by 1 and by 2.
#[tactic(auto, using(crate::proofs::Quotients::dividing))]
fn quotient(n: u64, parts: u64) -> u64
    requires { 0 < parts }
    ensures { result ≡ n / parts }
{
    if parts == 1 {
        return n;
    }
    if parts == 2 {
        return n / 2;
    }
    n / parts
}

/// The next number of a row of paths, where 64 bits hold what is divided.
fn small_next(count: u64, a: u64, j: u64) -> u64
    requires few { count ≤ item_limit }
    requires width { a < 2 ^ 32 }
    requires turn { j < 2 ^ 32 }
    ensures { result ≡ count * (a + j + 1) / (j + 1) }
{
    quotient(count * (a + j + 1), j + 1)
}

/// The next number of a row of paths.
fn next_count(count: u64, a: u64, j: u64) -> u128
    requires { count ≤ item_limit }
    ensures { result ≡ count * (a + j + 1) / (j + 1) }
{
    if a <= u64::from(u32::MAX) {
        if j <= u64::from(u32::MAX) {
            return u128::from(small_next(count, a, j));
        }
    }
    u128::from(count) * (u128::from(a) + u128::from(j) + 1) / (u128::from(j) + 1)
}

/// How many paths there are of a steps to one side and n to the other, or none where they are more
/// than the limit of a column.
#[tactic(auto, using(crate::proofs::Paths::counting))]
fn count_paths(a: u64, n: u64) -> Option<u64>
    ensures { IsCounted (paths a n) result }
{
    let mut count: u64 = 1;
    for j in 0..n {
        let next = next_count(count, a, j);
        if next > u128::from(ITEM_LIMIT) {
            return None;
        }
        count = next as u64;
    }
    Some(count)
}

/// The same, in as few turns as the lesser of the two.
fn count_either(a: u64, n: u64) -> Option<u64>
    ensures { IsCounted (paths a n) result }
{
    if n <= a {
        count_paths(a, n)
    } else {
        count_paths(n, a)
    }
}

/// How many lists of n places of m items go up, with replacement or without, or none where they are
/// more than the limit of a column.
pub fn count_rising(replacement: bool, n: u64, m: u64) -> Option<u64>
    ensures { IsCounted (length (rising_places replacement n m)) result }
{
    if n == 0 {
        return Some(1);
    }
    if replacement {
        if m == 0 {
            Some(0)
        } else {
            count_either(m - 1, n)
        }
    } else if m < n {
        Some(0)
    } else {
        count_either(m - n, n)
    }
}
