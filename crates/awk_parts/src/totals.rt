//! Lanes of exact numbers that fit a primitive.
ghost use Rattle.std.specs.Prelude.{◌≡◌, ◌<◌, ◌≤◌, IfOk};
ghost use Rattle.awk_layout.specs.Kinds.{kind_of};
ghost use Rattle.awk_types.specs.declared.primitive.Primitive.TheVariants as Prims;
ghost use Rattle.awk_numbers.specs.Folds.{IsNear};
ghost use Rattle.awk_parts.specs.Fits.{IsFitting, AreFitting, AreFirst, ArePushed};

use crate::fits::fitting;
use awk_lanes::{
    Arena, GroupMaker, IndexMaker, Lane, LaneMaker, NoMemory, Num, NumberMaker, Steps,
};
use awk_layout::kind_of;
use awk_types::Prim;
use std::sync::ledger::Ledger;

/// Exact numbers by their places.
pub trait Totals {
    ghost use Rattle.std.specs.Prelude.{ℕ, ℤ};
    ghost use Rattle.awk_numbers.specs.Folds.{IsNear};

    /// The number at a place.
    ghost at: { Self → ℕ → ℤ };

    /// How many numbers may be asked for.
    ghost size: { Self → ℕ };

    /// What the numbers rest on.
    ghost IsReady: { Self → Type 0 } = { λ _. Unit {0} };

    /// The number at place i, or none where no number of 64 bits is so far from 0.
    fn total<L: Ledger>(&self, i: u64, steps: &mut Steps<L>) -> Option<i128>
        requires ready { IsReady self.now }
        requires within { i < size self.now }
        ensures { IsNear (at self.now i) result };
}

/// The number at place i as one of a primitive, if it is one.
#[inline(always)]
fn total_at<S: Totals, L: Ledger>(
    prim: Prim,
    source: &S,
    i: u64,
    steps: &mut Steps<L>,
) -> Option<Num>
    requires ready { S.IsReady source.now }
    requires within { i < S.size source.now }
    ensures { IsFitting prim (S.at source.now i) result }
{
    match source.total(i, steps) {
        Some(z) => fitting(prim, z),
        None => None,
    }
}

/// Puts the numbers from one place below another behind those before them, as numbers of a
/// primitive, and tells whether all are; it stops at the first that is not.
#[inline(always)]
pub(crate) fn push_totals<S: Totals, M: NumberMaker, L: Ledger>(
    prim: Prim,
    from: u64,
    to: u64,
    source: &S,
    maker: &mut M,
    steps: &mut Steps<L>,
) -> bool
    requires ready { S.IsReady source.now }
    requires order { from ≤ to }
    requires within { to ≤ S.size source.now }
    requires room { to ≤ (M.making maker.old).room }
    requires kind { M.kind maker.old ≡ kind_of prim }
    requires made { AreFirst prim (S.at source.now) (M.making maker.old).room from
        (M.making maker.old) }
    ensures kind { M.kind maker.new ≡ kind_of prim }
    ensures made { ArePushed prim (S.at source.now) (M.making maker.old).room to
        (M.making maker.new) result }
{
    for i in from..to {
        match total_at(prim, source, i, steps) {
            Some(number) => maker.put(number),
            None => return false,
        }
    }
    true
}

/// The first n numbers as those of a primitive, or none where one does not fit.
#[inline(always)]
fn fitting_numbers<'a, S: Totals, L: Ledger>(
    prim: Prim,
    n: u64,
    source: &S,
    arena: &'a Arena,
    steps: &mut Steps<L>,
) -> Result<Option<Lane<'a>>, NoMemory>
    requires ready { S.IsReady source.now }
    requires within { n ≤ S.size source.now }
    ensures { IfOk result (AreFitting prim (S.at source.now) n) }
{
    let mut maker = LaneMaker::new(kind_of(prim), n, arena)?;
    if push_totals(prim, 0, n, source, &mut maker, steps) {
        Ok(Some(maker.finish()))
    } else {
        Ok(None)
    }
}

/// The same of i64, whose lane is made without asking for its kind.
fn fitting_ints<'a, S: Totals, L: Ledger>(
    n: u64,
    source: &S,
    arena: &'a Arena,
    steps: &mut Steps<L>,
) -> Result<Option<Lane<'a>>, NoMemory>
    requires ready { S.IsReady source.now }
    requires within { n ≤ S.size source.now }
    ensures { IfOk result (AreFitting Prims.I64 (S.at source.now) n) }
{
    let mut maker = IndexMaker::new(n, arena)?;
    if push_totals(Prim::I64, 0, n, source, &mut maker, steps) {
        Ok(Some(maker.finish()))
    } else {
        Ok(None)
    }
}

/// The same of u64.
fn fitting_nats<'a, S: Totals, L: Ledger>(
    n: u64,
    source: &S,
    arena: &'a Arena,
    steps: &mut Steps<L>,
) -> Result<Option<Lane<'a>>, NoMemory>
    requires ready { S.IsReady source.now }
    requires within { n ≤ S.size source.now }
    ensures { IfOk result (AreFitting Prims.U64 (S.at source.now) n) }
{
    let mut maker: GroupMaker<'a, 8, u64> = GroupMaker::new(n, arena)?;
    if push_totals(Prim::U64, 0, n, source, &mut maker, steps) {
        Ok(Some(maker.finish()))
    } else {
        Ok(None)
    }
}

/// The first n numbers as those of a primitive, or none where one does not fit. There is a loop for
/// each primitive that sums and products are of.
pub fn fitting_lane<'a, S: Totals, L: Ledger>(
    prim: Prim,
    n: u64,
    source: &S,
    arena: &'a Arena,
    steps: &mut Steps<L>,
) -> Result<Option<Lane<'a>>, NoMemory>
    requires ready { S.IsReady source.now }
    requires within { n ≤ S.size source.now }
    ensures { IfOk result (AreFitting prim (S.at source.now) n) }
{
    match prim {
        Prim::I64 => fitting_ints(n, source, arena, steps),
        Prim::U64 => fitting_nats(n, source, arena, steps),
        _ => fitting_numbers(prim, n, source, arena, steps),
    }
}
