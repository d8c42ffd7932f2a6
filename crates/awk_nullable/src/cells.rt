//! The numbers of a lane, by their places.
ghost use Rattle.std.specs.Prelude.{◌≡◌, ◌<◌, ◌+ℤ◌, pos, negsuc, unsigned_abs};
ghost use Rattle.awk_lanes.specs.Numbers.{int_of};
ghost use Rattle.awk_lanes.specs.Places.{size_of, at};
ghost use Rattle.awk_nullable.specs.Halves.{IsHalves};
ghost use Rattle.awk_nullable.specs.Keys.{shift_in, shift_of};

use crate::halves::{Halves, halves_of, int_halves};
use awk_index::Index;
use awk_lanes::{Kind, Lane, Num, Steps};
use std::sync::ledger::Ledger;

/// The numbers of a lane.
pub trait Cells {
    ghost use Rattle.std.specs.Prelude.{ℤ, ◌+ℤ◌};
    ghost use Rattle.awk_lanes.specs.Column.{Column};

    /// The lane whose numbers they are.
    ghost lane: { Self → Column };

    /// How many numbers there are.
    fn len(&self) -> u64
        ensures { result ≡ size_of (lane self.now) };

    /// The number at place k.
    fn exact<L: Ledger>(&self, k: u64, steps: &mut Steps<L>) -> i128
        requires { k < size_of (lane self.now) }
        ensures number { result ≡ at (lane self.now) k }
        ensures near { unsigned_abs result < 18446744073709551616 };

    /// The number at place k in two halves, by which it is summed.
    fn halves<L: Ledger>(&self, k: u64, steps: &mut Steps<L>) -> Halves
        requires { k < size_of (lane self.now) }
        ensures { IsHalves (at (lane self.now) k) result };

    /// How far a key lies from its number.
    ghost shift: { Self → ℤ };

    fn shift(&self) -> i64
        ensures { result ≡ shift self.now };

    /// The key of place k, by which its number is compared with others.
    fn key<L: Ledger>(&self, k: u64, steps: &mut Steps<L>) -> i64
        requires { k < size_of (lane self.now) }
        ensures { result ≡ at (lane self.now) k +ℤ shift self.now };
}

/// The key of a number that is not negative.
#[inline(always)]
fn nat_key(n: u64) -> i64
    ensures { result ≡ pos n +ℤ negsuc 9223372036854775807 }
{
    if n < 0x8000_0000_0000_0000 {
        n as i64 + i64::MIN
    } else {
        (n - 0x8000_0000_0000_0000) as i64
    }
}

/// The key of a number.
#[inline(always)]
fn key_of(x: Num) -> i64
    ensures { result ≡ int_of x +ℤ shift_in x }
{
    match x {
        Num::Int(z) => z,
        Num::Nat(n) => nat_key(n),
        Num::Truth(b) => i64::from(b),
    }
}

/// How far the keys of a kind lie from their numbers.
#[inline(always)]
fn shift_by(kind: Kind) -> i64
    ensures { result ≡ shift_of kind }
{
    match kind {
        Kind::U8 | Kind::U16 | Kind::U32 | Kind::U64 => i64::MIN,
        Kind::Bool | Kind::I8 | Kind::I16 | Kind::I32 | Kind::I64 => 0,
    }
}

/// A number as it is.
#[inline(always)]
fn as_it_is(x: Num) -> i128
    ensures number { result ≡ int_of x }
    ensures near { unsigned_abs result < 18446744073709551616 }
{
    match x {
        Num::Int(z) => i128::from(z),
        Num::Nat(n) => i128::from(n),
        Num::Truth(b) => { if b { 1 } else { 0 } }
    }
}

/// The numbers of any lane.
impl<'a> Cells for Lane<'a> {
    ghost use Rattle.awk_nullable.specs.Keys.{shift_of};

    ghost lane = { λ x. x };

    ghost shift = { λ x. shift_of x.kind };

    #[inline(always)]
    fn shift(&self) -> i64 {
        shift_by(self.kind())
    }

    #[inline(always)]
    fn len(&self) -> u64 {
        Lane::len(self)
    }

    #[inline(always)]
    fn exact<L: Ledger>(&self, k: u64, steps: &mut Steps<L>) -> i128 {
        as_it_is(self.at(k, steps))
    }

    #[inline(always)]
    fn halves<L: Ledger>(&self, k: u64, steps: &mut Steps<L>) -> Halves {
        halves_of(self.at(k, steps))
    }

    #[inline(always)]
    fn key<L: Ledger>(&self, k: u64, steps: &mut Steps<L>) -> i64 {
        key_of(self.at(k, steps))
    }
}

/// Numbers of i64, which are read without asking for their kind.
impl<'a> Cells for Index<'a> {
    ghost use Rattle.std.specs.Prelude.{pos};

    ghost lane = { λ x. x };

    ghost shift = { λ _. pos 0 };

    #[inline(always)]
    fn shift(&self) -> i64 {
        0
    }

    #[inline(always)]
    fn len(&self) -> u64 {
        Index::len(self)
    }

    #[inline(always)]
    fn exact<L: Ledger>(&self, k: u64, _steps: &mut Steps<L>) -> i128 {
        i128::from(self.number(k))
    }

    #[inline(always)]
    fn halves<L: Ledger>(&self, k: u64, _steps: &mut Steps<L>) -> Halves {
        int_halves(self.number(k))
    }

    #[inline(always)]
    fn key<L: Ledger>(&self, k: u64, _steps: &mut Steps<L>) -> i64 {
        self.number(k)
    }
}
