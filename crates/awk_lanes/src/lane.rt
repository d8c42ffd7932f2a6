//! A lane: numbers of one kind.
ghost use Rattle.std.specs.Prelude.{◌≡◌, ◌≢◌, ◌+◌, ◌*◌, ◌/◌, ◌%◌, ◌<◌, ◌≤◌, ◌^◌, length, IfOk};
ghost use Rattle.std.specs.Prelude.{IsTrue};
ghost use Rattle.std.specs.List.{flat_map};
ghost use Rattle.awk_lanes.specs.Numbers.{width, int_of, bytes_of, numbers, IsOf};
ghost use Rattle.awk_lanes.specs.Places.{size_of, at};
ghost use Rattle.awk_lanes.specs.Ranges.{AreNumbers};
ghost use Rattle.awk_lanes.specs.Cut.{cut_of};
ghost use Rattle.awk_lanes.specs.Held.{held_column};
ghost use Rattle.awk_lanes.specs.declared.kind.Kind.TheVariants as Kinds;

use crate::byte_lane::ByteLane;
use crate::kind::{Kind, Num};
use crate::memory::{Arena, NoMemory};
use crate::run::Run;
use crate::steps::Steps;
use std::marker::Model;
use std::sync::ledger::Ledger;

/// How numbers are held: in bytes, or as places in order, which take none.
#[derive(Drop)]
pub enum Held<'a> {
    Bytes(ByteLane<'a>),
    Run(Run),
}

/// Numbers of one kind, in borrowed bytes, or many places in order, told by their bounds.
/// They are seen through `at` and `bulk` alone, which count what they show.
#[derive(Drop)]
pub struct Lane<'a> {
    held: Held<'a>,
}

impl<'a> Model for Lane<'a> {
    ghost use Rattle.awk_lanes.specs.Column.{Column};

    ghost Value = { Column };

    ghost use Rattle.awk_lanes.specs.Held.{held_column};

    ghost view = { λ l. held_column l.held };
}

impl<'a> Lane<'a> {
    /// The numbers that the bytes are.
    pub fn new(kind: Kind, bytes: &'a [u8]) -> Lane<'a>
        requires { length bytes.now % width kind ≡ 0 }
        ensures kind { result.kind ≡ kind }
        ensures items { result.items ≡ numbers kind (length bytes.now / width kind) bytes.now }
    {
        Lane {
            held: Held::Bytes(ByteLane::new(kind, bytes)),
        }
    }

    /// The n numbers that the bytes are.
    pub(crate) fn whole(kind: Kind, n: u64, bytes: &'a [u8]) -> Lane<'a>
        requires { n * width kind ≡ length bytes.now }
        ensures { result ≡ record { kind = kind; items = numbers kind n bytes.now } }
    {
        Lane {
            held: Held::Bytes(ByteLane::whole(kind, n, bytes)),
        }
    }

    /// Places in order, which are not made.
    pub(crate) fn of_run(run: Run) -> Lane<'a>
        ensures { result ≡ run }
    {
        Lane {
            held: Held::Run(run),
        }
    }

    /// The kind of the numbers.
    pub fn kind(&self) -> Kind
        ensures { result ≡ self.now.kind }
    {
        match &self.held {
            Held::Bytes(lane) => lane.kind(),
            Held::Run(places) => places.kind(),
        }
    }

    /// How many numbers. Each is in the range of its kind, and a u64 counts their bytes.
    pub fn len(&self) -> u64
        ensures len { result ≡ size_of self.now }
        ensures fits { AreNumbers self.now }
        ensures small { result * width self.now.kind < 2 ^ 64 }
    {
        match &self.held {
            Held::Bytes(lane) => lane.len(),
            Held::Run(places) => places.len(),
        }
    }

    /// The number at place i.
    #[inline(always)]
    pub fn at<L: Ledger>(&self, i: u64, steps: &mut Steps<L>) -> Num
        requires { i < size_of self.now }
        ensures number { int_of result ≡ at self.now i }
        ensures kind { IsOf self.now.kind result }
        ensures cost { steps.new ≡ steps.old + 1 }
    {
        match &self.held {
            Held::Bytes(lane) => lane.at(i, steps),
            Held::Run(places) => places.at(i, steps),
        }
    }

    /// The numbers from place lo below place hi, over the same bytes.
    pub fn cut<L: Ledger>(&self, lo: u64, hi: u64, steps: &mut Steps<L>) -> Lane<'a>
        requires order { lo ≤ hi }
        requires within { hi ≤ size_of self.now }
        ensures value { result ≡ cut_of self.now lo hi }
        ensures cost { steps.new ≡ steps.old + 1 }
    {
        match &self.held {
            Held::Bytes(lane) => Lane {
                held: Held::Bytes(lane.cut(lo, hi, steps)),
            },
            Held::Run(places) => Lane {
                held: Held::Run(places.cut(lo, hi, steps)),
            },
        }
    }

    /// The bytes of all numbers, at a step for each number. Those of places in order are made.
    pub fn bulk<'b, L: Ledger>(
        &self,
        arena: &'b Arena,
        steps: &mut Steps<L>,
    ) -> Result<&'b [u8], NoMemory>
    where
        'a: 'b,
        ensures numbers { IfOk result (λ r.
            numbers self.now.kind (size_of self.now) r.now ≡ self.now.items) }
        ensures size { IfOk result (λ r.
            length r.now ≡ size_of self.now * width self.now.kind) }
        ensures bytes { IfOk result (λ r.
            r.now ≡ flat_map (bytes_of self.now.kind) self.now.items) }
        ensures cost { steps.new ≡ steps.old + size_of self.now }
    {
        match &self.held {
            Held::Bytes(lane) => Ok(lane.bulk(steps)),
            Held::Run(places) => {
                steps.add(places.len());
                places.bytes(arena)
            }
        }
    }

    /// The bytes of all numbers of a kind other than i64, which always lie there, at a step for
    /// each number.
    pub fn narrow_bytes<L: Ledger>(&self, steps: &mut Steps<L>) -> &'a [u8]
        requires { self.now.kind ≢ Kinds.I64 }
        ensures numbers { numbers self.now.kind (size_of self.now) result.now ≡ self.now.items }
        ensures size { length result.now ≡ size_of self.now * width self.now.kind }
        ensures cost { steps.new ≡ steps.old + size_of self.now }
    {
        match &self.held {
            Held::Bytes(lane) => lane.bulk(steps),
            Held::Run(places) => {
                let _ = places.kind();
                unreachable!()
            }
        }
    }

    /// The same numbers in bytes, which are made of places in order.
    pub fn in_bytes(&self, arena: &'a Arena) -> Result<ByteLane<'a>, NoMemory>
        ensures { IfOk result (λ r. r ≡ self.now) }
    {
        match &self.held {
            Held::Bytes(lane) => Ok(lane.copy()),
            Held::Run(places) => {
                let n = places.len();
                let kind = places.kind();
                let bytes = places.bytes(arena)?;
                Ok(ByteLane::whole(kind, n, bytes))
            }
        }
    }

    /// The same numbers, over the same bytes.
    pub fn copy(&self) -> Lane<'a>
        ensures { result ≡ self.now }
    {
        match &self.held {
            Held::Bytes(lane) => Lane {
                held: Held::Bytes(lane.copy()),
            },
            Held::Run(places) => Lane {
                held: Held::Run(places.copy()),
            },
        }
    }

    /// How the numbers are held.
    pub fn held(&self) -> &Held<'a>
        ensures { held_column result.now ≡ self.now }
    {
        &self.held
    }

    /// Whether both are of one kind, with the same bytes or the same bounds.
    pub fn is_same<L: Ledger>(&self, other: &Lane, steps: &mut Steps<L>) -> bool
        ensures { IsTrue result → self.now ≡ other.now }
    {
        match (&self.held, &other.held) {
            (Held::Bytes(a), Held::Bytes(b)) => a.is_same(b, steps),
            (Held::Run(a), Held::Run(b)) => a.is_same(b),
            _ => false,
        }
    }
}
