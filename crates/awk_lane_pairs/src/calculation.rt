//! Sums, differences and products of two lanes of 8 or 16 bits a number.
//!
//! One pass tells whether the primitive holds each result, and one more makes the lane. Where it
//! does not hold one, no lane is made: who asks finds the first such place as in other lanes.
ghost use Rattle.std.specs.Prelude.{◌≡◌, ◌<◌, ◌≤◌, false, length, replicate, IfOk, IfSome};
ghost use Rattle.std.specs.Prelude.{IsTrue};
ghost use Rattle.awk_kernels.specs.Operations.{divides};
ghost use Rattle.awk_lanes.specs.Numbers.{width};
ghost use Rattle.awk_lanes.specs.Places.{size_of};
ghost use Rattle.awk_layout.specs.Kinds.{kind_of};
ghost use Rattle.awk_lane_pairs.specs.Results.{exact_at, IsHeld, AreHeld, AreResults};
ghost use Rattle.awk_lane_pairs.specs.Results.{AreCalculated};

use crate::exact::{Difference, Exact, Product, Sum};
use crate::narrow::Narrow;
use crate::quotient::quotient_lane;
use crate::wide::{wide_beside, wide_lanes};
use awk_kernels::Arith;
use awk_lanes::{Arena, Lane, NoMemory, Num, Numbers, Steps, made_lane};
use awk_types::Prim;
use std::marker::PhantomData;
use std::sync::ledger::Ledger;

/// The result at place i.
#[inline(always)]
fn result_at<const W: usize, O: Exact, N: Narrow<W>>(a: &[[u8; W]], b: &[[u8; W]], i: usize) -> i64
    requires small { W ≤ 8 }
    requires first { i < length a.now }
    requires second { i < length b.now }
    ensures value { result ≡ exact_at O.op (kind_of N.prim) a.now b.now i }
    ensures undivided { divides O.op ≡ false }
{
    O::of(N::number(&a[i]), N::number(&b[i]))
}

/// Whether the primitive holds the result at place i.
#[inline(always)]
fn is_held<const W: usize, O: Exact, N: Narrow<W>>(a: &[[u8; W]], b: &[[u8; W]], i: usize) -> bool
    requires small { W ≤ 8 }
    requires first { i < length a.now }
    requires second { i < length b.now }
    ensures { IsTrue result → IsHeld O.op N.prim a.now b.now i }
{
    N::holds(result_at::<W, O, N>(a, b, i))
}

/// Whether the primitive holds the results at all places.
fn are_held<const W: usize, O: Exact, N: Narrow<W>>(a: &[[u8; W]], b: &[[u8; W]]) -> bool
    requires small { W ≤ 8 }
    requires size { length b.now ≡ length a.now }
    ensures { IsTrue result → AreHeld O.op N.prim a.now b.now (length a.now) }
{
    let mut held = true;
    for i in 0..a.len() {
        held &= is_held::<W, O, N>(a, b, i);
    }
    held
}

/// The results at all places, which the primitive holds.
#[derive(Drop)]
struct Results<'s, const W: usize, O: Exact, N: Narrow<W>> {
    a: &'s [[u8; W]],
    b: &'s [[u8; W]],
    op: PhantomData<O>,
    prim: PhantomData<N>,
}

impl<'s, const W: usize, O: Exact, N: Narrow<W>> Numbers for Results<'s, W, O, N> {
    ghost use Rattle.std.specs.Prelude.{◌≡◌, ◌≤◌, length};
    ghost use Rattle.awk_lane_pairs.specs.Results.{exact_at, AreHeld};

    ghost kind = { λ _. kind_of N.prim };

    ghost at = { λ r. exact_at O.op (kind_of N.prim) r.a.now r.b.now };

    ghost size = { λ r. length r.a.now };

    ghost IsReady = { λ r. (W ≤ 8) × (length r.b.now ≡ length r.a.now)
        × AreHeld O.op N.prim r.a.now r.b.now (length r.a.now) };

    #[inline(always)]
    fn number<L: Ledger>(&self, i: u64, _steps: &mut Steps<L>) -> Num {
        N::num(result_at::<W, O, N>(self.a, self.b, i as usize))
    }
}

/// The lane of the results at all places, if the primitive holds them.
fn held_results<'a, const W: usize, O: Exact, N: Narrow<W>, L: Ledger>(
    a: &[[u8; W]],
    b: &[[u8; W]],
    arena: &'a Arena,
    steps: &mut Steps<L>,
) -> Result<Option<Lane<'a>>, NoMemory>
    requires small { W ≤ 8 }
    requires size { length b.now ≡ length a.now }
    ensures { IfOk result (λ o. IfSome o (AreResults O.op N.prim a.now b.now)) }
{
    if !are_held::<W, O, N>(a, b) {
        return Ok(None);
    }
    let results = Results::<W, O, N> {
        a,
        b,
        op: PhantomData,
        prim: PhantomData,
    };
    let lane = made_lane(N::kind(), a.len() as u64, &results, arena, steps)?;
    Ok(Some(lane))
}

/// The same, of one of the operations. There are loops for each, so that no place asks for it.
fn calculated_groups<'a, const W: usize, N: Narrow<W>, L: Ledger>(
    op: Arith,
    a: &[[u8; W]],
    b: &[[u8; W]],
    arena: &'a Arena,
    steps: &mut Steps<L>,
) -> Result<Option<Lane<'a>>, NoMemory>
    requires small { W ≤ 8 }
    requires size { length b.now ≡ length a.now }
    ensures { IfOk result (λ o. IfSome o (AreResults op N.prim a.now b.now)) }
{
    match op {
        Arith::Add => held_results::<W, Sum, N, L>(a, b, arena, steps),
        Arith::Sub => held_results::<W, Difference, N, L>(a, b, arena, steps),
        Arith::Mul => held_results::<W, Product, N, L>(a, b, arena, steps),
        Arith::FloorDiv | Arith::Rem => Ok(None),
    }
}

/// The same, of two lanes of the primitive.
fn calculated_cells<'a, const W: usize, N: Narrow<W>, L: Ledger>(
    op: Arith,
    a: &Lane,
    b: &Lane,
    arena: &'a Arena,
    steps: &mut Steps<L>,
) -> Result<Option<Lane<'a>>, NoMemory>
    requires first { a.now.kind ≡ kind_of N.prim }
    requires second { b.now.kind ≡ kind_of N.prim }
    requires width { width (kind_of N.prim) ≡ W }
    requires some { 0 < W }
    requires small { W ≤ 8 }
    requires size { size_of b.now ≡ size_of a.now }
    ensures { IfOk result (λ o. IfSome o (AreCalculated op N.prim a.now.items b.now.items)) }
{
    let first = a.bulk(arena, steps)?;
    let (x, _) = first.as_chunks::<W>();
    let second = b.bulk(arena, steps)?;
    let (y, _) = second.as_chunks::<W>();
    calculated_groups::<W, N, L>(op, x, y, arena, steps)
}

/// The lane of the sums, differences or products of two lanes of a primitive, if its numbers have
/// at most 16 bits or are of int64, and it holds the results.
pub fn calculated_lanes<'a, L: Ledger>(
    op: Arith,
    prim: Prim,
    a: &Lane,
    b: &Lane,
    arena: &'a Arena,
    steps: &mut Steps<L>,
) -> Result<Option<Lane<'a>>, NoMemory>
    requires first { a.now.kind ≡ kind_of prim }
    requires second { b.now.kind ≡ kind_of prim }
    requires size { size_of b.now ≡ size_of a.now }
    ensures { IfOk result (λ o. IfSome o (AreCalculated op prim a.now.items b.now.items)) }
{
    match prim {
        Prim::I8 => calculated_cells::<1, i8, L>(op, a, b, arena, steps),
        Prim::I16 => calculated_cells::<2, i16, L>(op, a, b, arena, steps),
        Prim::I64 => wide_lanes(op, a, b, arena, steps),
        Prim::U8 => calculated_cells::<1, u8, L>(op, a, b, arena, steps),
        Prim::U16 => calculated_cells::<2, u16, L>(op, a, b, arena, steps),
        _ => Ok(None),
    }
}

/// The lane of the quotients of a lane of a primitive by one number, if this is above 0 and fits an
/// i32. Of other operations it is none.
fn quotients_of<'a, const W: usize, N: Narrow<W>, L: Ledger>(
    op: Arith,
    a: &Lane,
    y: i64,
    arena: &'a Arena,
    steps: &mut Steps<L>,
) -> Result<Option<Lane<'a>>, NoMemory>
    requires kind { a.now.kind ≡ kind_of N.prim }
    requires width { width (kind_of N.prim) ≡ W }
    requires some { 0 < W }
    requires small { W ≤ 8 }
    ensures { IfOk result (λ o. IfSome o
        (AreCalculated op N.prim a.now.items (replicate (size_of a.now) y))) }
{
    if y < 1 {
        return Ok(None);
    }
    if y > 0x7fff_ffff {
        return Ok(None);
    }
    match op {
        Arith::FloorDiv => quotient_lane::<W, N, L>(a, y as i32, arena, steps),
        _ => Ok(None),
    }
}

/// The lane of the sums, differences or products of a lane of int64 and one number, or of the
/// quotients of a lane of 8 or 16 bits a number by one above 0, if its primitive holds the results.
pub fn calculated_beside<'a, L: Ledger>(
    op: Arith,
    prim: Prim,
    a: &Lane,
    y: i64,
    arena: &'a Arena,
    steps: &mut Steps<L>,
) -> Result<Option<Lane<'a>>, NoMemory>
    requires { a.now.kind ≡ kind_of prim }
    ensures { IfOk result (λ o. IfSome o
        (AreCalculated op prim a.now.items (replicate (size_of a.now) y))) }
{
    match prim {
        Prim::I8 => quotients_of::<1, i8, L>(op, a, y, arena, steps),
        Prim::I16 => quotients_of::<2, i16, L>(op, a, y, arena, steps),
        Prim::I64 => wide_beside(op, a, y, arena, steps),
        Prim::U8 => quotients_of::<1, u8, L>(op, a, y, arena, steps),
        Prim::U16 => quotients_of::<2, u16, L>(op, a, y, arena, steps),
        _ => Ok(None),
    }
}
