//! A lane of numbers in borrowed bytes.
ghost use Rattle.std.specs.Prelude.{◌≡◌, ◌+◌, ◌*◌, ◌/◌, ◌%◌, ◌<◌, ◌≤◌, ◌^◌, length, IsTrue};
ghost use Rattle.std.specs.List.{flat_map};
ghost use Rattle.awk_lanes.specs.Numbers.{width, int_of, bytes_of, numbers, IsOf};
ghost use Rattle.awk_lanes.specs.Places.{size_of, at};
ghost use Rattle.awk_lanes.specs.Ranges.{AreNumbers};
ghost use Rattle.awk_lanes.specs.Cut.{cut_of};
ghost use Rattle.awk_lanes.specs.declared.kind.Kind.TheVariants as Kinds;

use crate::bytes::{item, part, wide_item};
use crate::kind::{Kind, Num};
use crate::steps::Steps;
use std::marker::Model;
use std::sync::ledger::Ledger;

/// Numbers of one kind, least significant byte first, in borrowed bytes.
/// They are seen through `at` and `bulk` alone, which count what they show.
#[derive(Drop)]
pub struct ByteLane<'a> {
    kind: Kind,
    count: u64,
    bytes: &'a [u8],
}

impl<'a> Model for ByteLane<'a> {
    ghost use Rattle.awk_lanes.specs.Column.{Column};

    ghost Value = { Column };

    ghost use Rattle.std.specs.Prelude.{◌≡◌, ◌*◌, length};
    ghost use Rattle.awk_lanes.specs.Numbers.{width, numbers, AreBytes};

    ghost view = { λ l. record { kind = l.kind; items = numbers l.kind l.count l.bytes.now } };

    ghost invariant = { λ l. (l.count * width l.kind ≡ length l.bytes.now) × AreBytes l.bytes.now };
}

impl<'a> ByteLane<'a> {
    /// The numbers that the bytes are.
    pub fn new(kind: Kind, bytes: &'a [u8]) -> ByteLane<'a>
        requires { length bytes.now % width kind ≡ 0 }
        ensures kind { result.kind ≡ kind }
        ensures items { result.items ≡ numbers kind (length bytes.now / width kind) bytes.now }
    {
        ByteLane {
            kind,
            count: (bytes.len() / kind.width()) as u64,
            bytes,
        }
    }

    /// The n numbers that the bytes are.
    pub(crate) fn whole(kind: Kind, n: u64, bytes: &'a [u8]) -> ByteLane<'a>
        requires { n * width kind ≡ length bytes.now }
        ensures { result ≡ record { kind = kind; items = numbers kind n bytes.now } }
    {
        ByteLane {
            kind,
            count: n,
            bytes,
        }
    }

    /// The kind of the numbers.
    pub fn kind(&self) -> Kind
        ensures { result ≡ self.now.kind }
    {
        self.kind
    }

    /// How many numbers. Each is in the range of its kind, and a u64 counts their bytes.
    pub fn len(&self) -> u64
        ensures len { result ≡ size_of self.now }
        ensures fits { AreNumbers self.now }
        ensures small { result * width self.now.kind < 2 ^ 64 }
    {
        let _ = self.bytes.len();
        self.count
    }

    /// The number at place i.
    #[inline(always)]
    pub fn at<L: Ledger>(&self, i: u64, steps: &mut Steps<L>) -> Num
        requires { i < size_of self.now }
        ensures number { int_of result ≡ at self.now i }
        ensures kind { IsOf self.now.kind result }
        ensures cost { steps.new ≡ steps.old + 1 }
    {
        steps.tick(); // one number read
        item(self.kind, self.bytes, i as usize)
    }

    /// The number at place i of a lane of 64 bits, whose kind is not asked for.
    #[inline(always)]
    pub(crate) fn wide_at<L: Ledger>(&self, i: u64, steps: &mut Steps<L>) -> i64
        requires kind { self.now.kind ≡ Kinds.I64 }
        requires within { i < size_of self.now }
        ensures value { result ≡ at self.now i }
        ensures cost { steps.new ≡ steps.old + 1 }
    {
        steps.tick(); // one number of 64 bits read
        wide_item(self.bytes, i as usize)
    }

    /// The numbers from place lo below place hi, over the same bytes.
    pub fn cut<L: Ledger>(&self, lo: u64, hi: u64, steps: &mut Steps<L>) -> ByteLane<'a>
        requires order { lo ≤ hi }
        requires within { hi ≤ size_of self.now }
        ensures value { result ≡ cut_of self.now lo hi }
        ensures cost { steps.new ≡ steps.old + 1 }
    {
        steps.tick(); // one cut
        ByteLane {
            kind: self.kind,
            count: hi - lo,
            bytes: part(self.kind, self.bytes, lo as usize, hi as usize),
        }
    }

    /// The bytes of all numbers, at a step for each number.
    pub fn bulk<L: Ledger>(&self, steps: &mut Steps<L>) -> &'a [u8]
        ensures numbers { numbers self.now.kind (size_of self.now) result.now ≡ self.now.items }
        ensures size { length result.now ≡ size_of self.now * width self.now.kind }
        ensures bytes { result.now ≡ flat_map (bytes_of self.now.kind) self.now.items }
        ensures cost { steps.new ≡ steps.old + size_of self.now }
    {
        steps.add(self.count);
        self.bytes
    }

    /// The same numbers, over the same bytes.
    pub fn copy(&self) -> ByteLane<'a>
        ensures { result ≡ self.now }
    {
        ByteLane {
            kind: self.kind,
            count: self.count,
            bytes: self.bytes,
        }
    }

    /// Whether both have the same bytes, of one kind.
    pub(crate) fn is_same<L: Ledger>(&self, other: &ByteLane, steps: &mut Steps<L>) -> bool
        ensures { IsTrue result → self.now ≡ other.now }
    {
        if self.kind() != other.kind() {
            return false;
        }
        self.bulk(steps) == other.bulk(steps)
    }
}
