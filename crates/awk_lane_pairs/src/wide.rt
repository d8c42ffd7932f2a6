//! Sums, differences and products of two lanes of int64, and of a lane and one number.
//!
//! Each result is tested as it is made. Where int64 does not hold one, the lane so far is left: who
//! asks finds the first such place as in other lanes.
ghost use Rattle.std.specs.Prelude.{◌≡◌, pos, negsuc, length, replicate, Ok, IfOk, IfSome};
ghost use Rattle.awk_types.specs.declared.primitive.Primitive.TheVariants as prims;
ghost use Rattle.awk_kernels.specs.Operations.{leaf};
ghost use Rattle.awk_lanes.specs.Places.{size_of};
ghost use Rattle.awk_lanes.specs.declared.kind.Kind.TheVariants as Kind;
ghost use Rattle.awk_lane_pairs.specs.Results.{AreCalculated};

use crate::rows::{Cells, Row, Same};
use awk_kernels::{Arith, calculate};
use awk_lanes::{Arena, IndexMaker, Lane, NoMemory, Num, Steps};
use std::sync::ledger::Ledger;

/// An operation on two numbers of int64.
trait Wide {
    ghost use Rattle.awk_kernels.specs.declared.operation.Arith.{Arith};

    ghost op: { Arith };

    /// The result, if int64 holds it.
    fn of(x: i64, y: i64) -> Option<i64>
        ensures { IfSome result (λ z. leaf op (negsuc 9223372036854775807)
            (pos 9223372036854775807) x y ≡ Ok z) };
}

struct WideSum;

impl Wide for WideSum {
    ghost use Rattle.awk_kernels.specs.declared.operation.Arith.TheVariants.{Add};

    ghost op = { Add };

    #[inline(always)]
    fn of(x: i64, y: i64) -> Option<i64> {
        match calculate(Arith::Add, x, y, i64::MIN, i64::MAX) {
            Ok(z) => Some(z),
            Err(_) => None,
        }
    }
}

struct WideDifference;

impl Wide for WideDifference {
    ghost use Rattle.awk_kernels.specs.declared.operation.Arith.TheVariants.{Sub};

    ghost op = { Sub };

    #[inline(always)]
    fn of(x: i64, y: i64) -> Option<i64> {
        match calculate(Arith::Sub, x, y, i64::MIN, i64::MAX) {
            Ok(z) => Some(z),
            Err(_) => None,
        }
    }
}

struct WideProduct;

impl Wide for WideProduct {
    ghost use Rattle.awk_kernels.specs.declared.operation.Arith.TheVariants.{Mul};

    ghost op = { Mul };

    #[inline(always)]
    fn of(x: i64, y: i64) -> Option<i64> {
        match calculate(Arith::Mul, x, y, i64::MIN, i64::MAX) {
            Ok(z) => Some(z),
            Err(_) => None,
        }
    }
}

/// The lane of the results at n places, if int64 holds them.
fn wide_results<'a, O: Wide, A: Row, B: Row>(
    a: &A,
    b: &B,
    n: usize,
    arena: &'a Arena,
) -> Result<Option<Lane<'a>>, NoMemory>
    requires first { length (A.numbers a.now) ≡ n }
    requires second { length (B.numbers b.now) ≡ n }
    ensures { IfOk result (λ o. IfSome o
        (AreCalculated O.op prims.I64 (A.numbers a.now) (B.numbers b.now))) }
{
    let mut maker = IndexMaker::new(n as u64, arena)?;
    for i in 0..n {
        match O::of(a.at(i), b.at(i)) {
            Some(z) => maker.push(Num::Int(z)),
            None => return Ok(None),
        }
    }
    Ok(Some(maker.finish()))
}

/// The same, of one of the operations. There is a loop for each, so that no place asks for it.
fn wide_rows<'a, A: Row, B: Row>(
    op: Arith,
    a: &A,
    b: &B,
    n: usize,
    arena: &'a Arena,
) -> Result<Option<Lane<'a>>, NoMemory>
    requires first { length (A.numbers a.now) ≡ n }
    requires second { length (B.numbers b.now) ≡ n }
    ensures { IfOk result (λ o. IfSome o
        (AreCalculated op prims.I64 (A.numbers a.now) (B.numbers b.now))) }
{
    match op {
        Arith::Add => wide_results::<WideSum, A, B>(a, b, n, arena),
        Arith::Sub => wide_results::<WideDifference, A, B>(a, b, n, arena),
        Arith::Mul => wide_results::<WideProduct, A, B>(a, b, n, arena),
        Arith::FloorDiv | Arith::Rem => Ok(None),
    }
}

/// The lane of the sums, differences or products of two lanes of int64, if it holds them.
pub(crate) fn wide_lanes<'a, L: Ledger>(
    op: Arith,
    a: &Lane,
    b: &Lane,
    arena: &'a Arena,
    steps: &mut Steps<L>,
) -> Result<Option<Lane<'a>>, NoMemory>
    requires first { a.now.kind ≡ Kind.I64 }
    requires second { b.now.kind ≡ Kind.I64 }
    requires size { size_of b.now ≡ size_of a.now }
    ensures { IfOk result (λ o. IfSome o
        (AreCalculated op prims.I64 a.now.items b.now.items)) }
{
    let ones = a.bulk(arena, steps)?;
    let (x, _) = ones.as_chunks::<8>();
    let others = b.bulk(arena, steps)?;
    let (y, _) = others.as_chunks::<8>();
    let first = Cells::<8, i64>::new(x);
    let second = Cells::<8, i64>::new(y);
    wide_rows(op, &first, &second, x.len(), arena)
}

/// The same, of a lane of int64 and one number.
pub(crate) fn wide_beside<'a, L: Ledger>(
    op: Arith,
    a: &Lane,
    y: i64,
    arena: &'a Arena,
    steps: &mut Steps<L>,
) -> Result<Option<Lane<'a>>, NoMemory>
    requires { a.now.kind ≡ Kind.I64 }
    ensures { IfOk result (λ o. IfSome o
        (AreCalculated op prims.I64 a.now.items (replicate (size_of a.now) y))) }
{
    let bytes = a.bulk(arena, steps)?;
    let (x, _) = bytes.as_chunks::<8>();
    let first = Cells::<8, i64>::new(x);
    let second = Same {
        number: y,
        n: x.len(),
    };
    wide_rows(op, &first, &second, x.len(), arena)
}
