//! Numbers in two halves, whose sums need nothing carried from one to the other.
ghost use Rattle.std.specs.Prelude.{◌≡◌, pos};
ghost use Rattle.awk_lanes.specs.Numbers.{int_of};
ghost use Rattle.awk_nullable.specs.Halves.{halves_sum, IsHalves};

use awk_lanes::Num;

/// A number, or a sum of such: as many times 2 to the power of 32 as the one half, and the other.
#[derive(Clone, Copy)]
pub struct Halves {
    pub high: i64,
    pub low: i64,
}

/// An integer, of which the low half has the lowest 32 bits.
#[inline(always)]
pub(crate) fn int_halves(z: i64) -> Halves
    ensures { IsHalves z result }
{
    Halves {
        high: z >> 32,
        low: z & 0xffff_ffff,
    }
}

/// The same of a number that is not negative.
#[inline(always)]
fn nat_halves(n: u64) -> Halves
    ensures { IsHalves (pos n) result }
{
    Halves {
        high: (n >> 32) as i64,
        low: (n & 0xffff_ffff) as i64,
    }
}

/// An integer, which is its low half where it needs no more than 32 bits beside its sign. Where
/// its type holds no other, that is known without a test.
#[inline(always)]
pub(crate) fn short_halves(z: i64) -> Halves
    ensures { IsHalves z result }
{
    if -0x1_0000_0000 <= z && z < 0x1_0000_0000 {
        return Halves { high: 0, low: z };
    }
    int_halves(z)
}

/// A number as it is read from a lane.
#[inline(always)]
pub(crate) fn halves_of(x: Num) -> Halves
    ensures { IsHalves (int_of x) result }
{
    match x {
        Num::Int(z) => int_halves(z),
        Num::Nat(n) => nat_halves(n),
        Num::Truth(b) => short_halves(i64::from(b)),
    }
}

/// The number of two halves.
#[inline(always)]
pub(crate) fn whole_of(x: Halves) -> i128
    ensures { result ≡ halves_sum x }
{
    i128::from(x.high) * 4_294_967_296 + i128::from(x.low)
}
