//! Places in order, told by their bounds.
ghost use Rattle.std.specs.Prelude.{◌≡◌, ◌+◌, ◌*◌, ◌<◌, ◌≤◌, ◌^◌, length, map, IfOk, IsTrue};
ghost use Rattle.std.specs.List.{flat_map, range_with_len};
ghost use Rattle.awk_lanes.specs.Cut.{cut_of};
ghost use Rattle.awk_lanes.specs.Made.{lane_of};
ghost use Rattle.awk_lanes.specs.Numbers.{width, numbers, bytes_of, nat_of, int_of, IsOf};
ghost use Rattle.awk_lanes.specs.Places.{size_of, at};
ghost use Rattle.awk_lanes.specs.Ranges.{AreNumbers};
ghost use Rattle.awk_lanes.specs.Runs.{run_at};
ghost use Rattle.awk_lanes.specs.Words.{low_groups, integers, HasNats};
ghost use Rattle.awk_lanes.specs.declared.kind.Kind.TheVariants as Kinds;

use crate::kind::{Kind, Num};
use crate::memory::{Arena, NoMemory};
use crate::steps::Steps;
use bumpalo::collections::into_bump_slice;
use std::alloc::Global;
use std::marker::Model;
use std::sync::ledger::Ledger;

/// Numbers of i64: as many as `count` in order from the first on, and -1 past these.
#[derive(Drop)]
pub struct Run {
    size: u64,
    first: u64,
    count: u64,
}

impl Model for Run {
    ghost use Rattle.awk_lanes.specs.Column.{Column};

    ghost Value = { Column };

    ghost use Rattle.std.specs.Prelude.{◌+◌, ◌<◌, ◌≤◌, ◌^◌};
    ghost use Rattle.awk_lanes.specs.Made.{lane_of};
    ghost use Rattle.awk_lanes.specs.Runs.{run_at};
    ghost use Rattle.awk_lanes.specs.declared.kind.Kind.TheVariants.{I64};

    ghost view = { λ r. lane_of I64 r.size (run_at r.first r.count) };

    ghost invariant = { λ r. (r.size < 2 ^ 61) × (r.first + r.count ≤ 2 ^ 63) };
}

/// The number at place i.
#[inline(always)]
fn number_at(first: u64, count: u64, i: u64) -> i64
    requires { first + count ≤ 2 ^ 63 }
    ensures { result ≡ run_at first count i }
{
    if i >= count {
        return -1;
    }
    (first + i) as i64
}

/// The same as a number of a lane.
#[inline(always)]
fn item_at(first: u64, count: u64, i: u64) -> Num
    requires { first + count ≤ 2 ^ 63 }
    ensures number { int_of result ≡ run_at first count i }
    ensures kind { IsOf Kinds.I64 result }
{
    Num::Int(number_at(first, count, i))
}

/// The same, or 0 where it is negative.
#[inline(always)]
fn nat_at(first: u64, count: u64, i: u64) -> u64
    requires { first + count ≤ 2 ^ 63 }
    ensures { result ≡ nat_of (run_at first count i) }
{
    if count <= i {
        return 0;
    }
    first + i
}

/// The first n numbers, each as its bytes.
fn run_groups<'a>(
    n: u64,
    first: u64,
    count: u64,
    arena: &'a Arena,
) -> Result<&'a [[u8; 8]], NoMemory>
    requires { first + count ≤ 2 ^ 63 }
    ensures { IfOk result (λ r. r.now ≡ low_groups 8 n (run_at first count)) }
{
    let mut groups = Vec::with_capacity(arena, n as usize)?;
    for i in 0..n {
        groups.push_reserved(number_at(first, count, i).to_le_bytes());
    }
    Ok(into_bump_slice(groups))
}

/// The first n numbers.
fn run_numbers(alloc: Global, n: u64, first: u64, count: u64) -> Result<Vec<i64>, NoMemory>
    requires { first + count ≤ 2 ^ 63 }
    ensures { IfOk result (λ v. v.items ≡ map (run_at first count) (range_with_len 0 n)) }
{
    let mut numbers = Vec::with_capacity(alloc, n as usize)?;
    for i in 0..n {
        numbers.push_reserved(number_at(first, count, i));
    }
    Ok(numbers)
}

/// The first n numbers, where none is negative.
fn run_nats(alloc: Global, n: u64, first: u64, count: u64) -> Result<Vec<u64>, NoMemory>
    requires { first + count ≤ 2 ^ 63 }
    ensures { IfOk result (λ v.
        v.items ≡ map (λ i. nat_of (run_at first count i)) (range_with_len 0 n)) }
{
    let mut nats = Vec::with_capacity(alloc, n as usize)?;
    for i in 0..n {
        nats.push_reserved(nat_at(first, count, i));
    }
    Ok(nats)
}

impl Run {
    /// So many numbers.
    pub(crate) fn new(size: u64, first: u64, count: u64) -> Run
        requires few { size < 2 ^ 61 }
        requires fits { first + count ≤ 2 ^ 63 }
        ensures { result ≡ lane_of Kinds.I64 size (run_at first count) }
    {
        Run { size, first, count }
    }

    /// The kind of the numbers.
    pub fn kind(&self) -> Kind
        ensures value { result ≡ self.now.kind }
        ensures wide { self.now.kind ≡ Kinds.I64 }
    {
        let _size = self.size; // so that its view is known
        Kind::I64
    }

    /// How many numbers. Each is of 64 bits, and a u64 counts their bytes.
    pub fn len(&self) -> u64
        ensures len { result ≡ size_of self.now }
        ensures fits { AreNumbers self.now }
        ensures small { result * width self.now.kind < 2 ^ 64 }
    {
        self.size
    }

    /// The number at place i.
    pub(crate) fn at<L: Ledger>(&self, i: u64, steps: &mut Steps<L>) -> Num
        requires { i < size_of self.now }
        ensures number { int_of result ≡ at self.now i }
        ensures kind { IsOf self.now.kind result }
        ensures cost { steps.new ≡ steps.old + 1 }
    {
        steps.tick(); // one number read
        item_at(self.first, self.count, i)
    }

    /// The same as the number that it is.
    pub(crate) fn wide_at<L: Ledger>(&self, i: u64, steps: &mut Steps<L>) -> i64
        requires { i < size_of self.now }
        ensures value { result ≡ at self.now i }
        ensures cost { steps.new ≡ steps.old + 1 }
    {
        steps.tick(); // one number read
        number_at(self.first, self.count, i)
    }

    /// The numbers from place lo below place hi.
    pub(crate) fn cut<L: Ledger>(&self, lo: u64, hi: u64, steps: &mut Steps<L>) -> Run
        requires order { lo ≤ hi }
        requires within { hi ≤ size_of self.now }
        ensures value { result ≡ cut_of self.now lo hi }
        ensures cost { steps.new ≡ steps.old + 1 }
    {
        steps.tick(); // one cut
        let before = lo.min(self.count);
        Run {
            size: hi - lo,
            first: self.first + before,
            count: self.count - before,
        }
    }

    /// The same numbers.
    pub(crate) fn copy(&self) -> Run
        ensures { result ≡ self.now }
    {
        Run {
            size: self.size,
            first: self.first,
            count: self.count,
        }
    }

    /// Whether both have the same bounds.
    pub(crate) fn is_same(&self, other: &Run) -> bool
        ensures { IsTrue result → self.now ≡ other.now }
    {
        if self.size != other.size {
            return false;
        }
        if self.first != other.first {
            return false;
        }
        self.count == other.count
    }

    /// The bytes of all numbers, which are made.
    pub(crate) fn bytes<'a>(&self, arena: &'a Arena) -> Result<&'a [u8], NoMemory>
        ensures numbers { IfOk result (λ r.
            numbers self.now.kind (size_of self.now) r.now ≡ self.now.items) }
        ensures size { IfOk result (λ r.
            length r.now ≡ size_of self.now * width self.now.kind) }
        ensures bytes { IfOk result (λ r.
            r.now ≡ flat_map (bytes_of self.now.kind) self.now.items) }
    {
        let groups = run_groups(self.size, self.first, self.count, arena)?;
        Ok(groups.as_flattened())
    }

    /// All numbers, at a step for each.
    pub fn numbers<L: Ledger>(
        &self,
        alloc: Global,
        steps: &mut Steps<L>,
    ) -> Result<Vec<i64>, NoMemory>
        ensures numbers { IfOk result (λ v. v.items ≡ self.now.items) }
        ensures cost { steps.new ≡ steps.old + size_of self.now }
    {
        steps.add(self.size);
        run_numbers(alloc, self.size, self.first, self.count)
    }

    /// All numbers, of which none is negative, at a step for each.
    pub fn nats<L: Ledger>(&self, alloc: Global, steps: &mut Steps<L>) -> Result<Vec<u64>, NoMemory>
        requires { HasNats self.now.kind self.now.items }
        ensures numbers { IfOk result (λ v. integers v.items ≡ self.now.items) }
        ensures cost { steps.new ≡ steps.old + size_of self.now }
    {
        steps.add(self.size);
        run_nats(alloc, self.size, self.first, self.count)
    }
}
