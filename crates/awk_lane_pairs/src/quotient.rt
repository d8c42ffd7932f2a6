//! Quotients of a lane of 8 or 16 bits a number by one number above 0.
//!
//! A quotient lies no farther from 0 than what is divided, so its primitive holds each.
ghost use Rattle.std.specs.Prelude.{◌≡◌, ◌<◌, ◌≤◌, ◌≤ℤ◌, pos, replicate, IfOk, IfSome};
ghost use Rattle.awk_kernels.specs.Operations.{floor_div};
ghost use Rattle.awk_kernels.specs.declared.operation.Arith.TheVariants.{FloorDiv};
ghost use Rattle.awk_lanes.specs.Numbers.{width};
ghost use Rattle.awk_lanes.specs.Places.{size_of};
ghost use Rattle.awk_layout.specs.Kinds.{kind_of};
ghost use Rattle.awk_lane_pairs.specs.Results.{AreCalculated};

use crate::narrow::Narrow;
use awk_lanes::{Arena, Lane, NoMemory, Num, Numbers, Steps, made_lane};
use std::marker::PhantomData;
use std::sync::ledger::Ledger;

#[inline(always)]
fn divided(x: i32, y: i32) -> i32
    requires { pos 1 ≤ℤ y }
    ensures { result ≡ floor_div x y }
{
    x.div_euclid(y)
}

#[inline(always)]
fn quotient_of(x: i32, y: i32) -> i64
    requires { pos 1 ≤ℤ y }
    ensures { result ≡ floor_div x y }
{
    i64::from(divided(x, y))
}

/// The quotients of the numbers of a lane.
#[derive(Drop)]
struct Quotients<'s, const W: usize, N: Narrow<W>> {
    a: &'s [[u8; W]],
    y: i32,
    prim: PhantomData<N>,
}

impl<'s, const W: usize, N: Narrow<W>> Numbers for Quotients<'s, W, N> {
    ghost use Rattle.std.specs.Prelude.{◌≤◌, ◌≤ℤ◌, pos, length};
    ghost use Rattle.awk_lane_pairs.specs.Results.{quotient_at, AreKnown};

    ghost kind = { λ _. kind_of N.prim };

    ghost at = { λ r. quotient_at (kind_of N.prim) r.a.now r.y };

    ghost size = { λ r. length r.a.now };

    ghost IsReady = { λ r. (W ≤ 8) × (pos 1 ≤ℤ r.y) × AreKnown N.prim r.a.now };

    #[inline(always)]
    fn number<L: Ledger>(&self, i: u64, _steps: &mut Steps<L>) -> Num {
        N::num(quotient_of(N::number(&self.a[i as usize]), self.y))
    }
}

/// The lane of the quotients of the numbers of a lane.
pub(crate) fn quotient_lane<'a, const W: usize, N: Narrow<W>, L: Ledger>(
    a: &Lane,
    y: i32,
    arena: &'a Arena,
    steps: &mut Steps<L>,
) -> Result<Option<Lane<'a>>, NoMemory>
    requires kind { a.now.kind ≡ kind_of N.prim }
    requires width { width (kind_of N.prim) ≡ W }
    requires some { 0 < W }
    requires small { W ≤ 8 }
    requires above { pos 1 ≤ℤ y }
    ensures { IfOk result (λ o. IfSome o
        (AreCalculated FloorDiv N.prim a.now.items (replicate (size_of a.now) y))) }
{
    let _ = a.len(); // each number is one of its kind
    let kind = N::kind();
    let bytes = a.bulk(arena, steps)?;
    let (x, _) = bytes.as_chunks::<W>();
    let quotients = Quotients::<W, N> {
        a: x,
        y,
        prim: PhantomData,
    };
    let lane = made_lane(kind, x.len() as u64, &quotients, arena, steps)?;
    Ok(Some(lane))
}
