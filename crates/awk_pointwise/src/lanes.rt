//! Operations on two lanes, and on a lane and one number, from where the lanes lie.
ghost use Rattle.std.specs.Prelude.{◌≡◌, true, [], replicate, IfOk, IfSome};
ghost use Rattle.std.specs.Simd.Lanes.{zip2};
ghost use Rattle.awk_types.specs.declared.primitive.Primitive.TheVariants as prims;
ghost use Rattle.awk_primitives.specs.Promotion.{is_whole};
ghost use Rattle.awk_lanes.specs.Places.{size_of};
ghost use Rattle.awk_leaves.specs.Values.{binary_on};
ghost use Rattle.awk_leaves.specs.declared.operation.Binary.TheVariants.{Calculate, Test};
ghost use Rattle.awk_numbers.specs.Folds.{lane_numbers};
ghost use Rattle.awk_pointwise.specs.Lanes.{HasResults};
ghost use Rattle.awk_pointwise.specs.Numbers.{AreReady};

use awk_kernels::{Arith, Compare};
use awk_lane_pairs::{calculated_beside, calculated_lanes, compared_beside, compared_lanes};
use awk_lanes::{Arena, Kind, Lane, NoMemory, Steps};
use awk_layout::kind_of;
use awk_leaves::Binary;
use awk_types::Prim;
use std::sync::ledger::Ledger;

/// The lane of the sums, differences or products of two lanes, if it is made from where they lie.
fn calculated_of<'a, L: Ledger>(
    op: Arith,
    prim: Prim,
    a: &Lane,
    b: &Lane,
    arena: &'a Arena,
    steps: &mut Steps<L>,
) -> Result<Option<Lane<'a>>, NoMemory>
    requires whole { is_whole prim ≡ true }
    requires size { size_of b.now ≡ size_of a.now }
    ensures { IfOk result (λ o. IfSome o (HasResults prim
        (zip2 (binary_on (Calculate op) prim) (lane_numbers a.now) (lane_numbers b.now)))) }
{
    let kind = kind_of(prim);
    if a.kind() != kind {
        return Ok(None);
    }
    if b.kind() != kind {
        return Ok(None);
    }
    calculated_lanes(op, prim, a, b, arena, steps)
}

/// The lane of the truth values of a comparison of two lanes, if it is made from where they lie.
fn compared_of<'a, L: Ledger>(
    how: Compare,
    a: &Lane,
    b: &Lane,
    arena: &'a Arena,
    steps: &mut Steps<L>,
) -> Result<Option<Lane<'a>>, NoMemory>
    requires { size_of b.now ≡ size_of a.now }
    ensures { IfOk result (λ o. IfSome o (HasResults prims.Bool
        (zip2 (binary_on (Test how) prims.Bool) (lane_numbers a.now) (lane_numbers b.now)))) }
{
    if a.kind() == Kind::Bool {
        return Ok(None);
    }
    if a.kind() == Kind::U64 {
        return Ok(None);
    }
    if b.kind() != a.kind() {
        return Ok(None);
    }
    let lane = compared_lanes(how, a, b, arena, steps)?;
    Ok(Some(lane))
}

/// The lane of what an operation gives of two lanes, if it is made from where they lie.
pub(crate) fn of_lanes<'a, L: Ledger>(
    op: Binary,
    prim: Prim,
    a: &Lane,
    b: &Lane,
    arena: &'a Arena,
    steps: &mut Steps<L>,
) -> Result<Option<Lane<'a>>, NoMemory>
    requires ready { AreReady op prim [] [] }
    requires size { size_of b.now ≡ size_of a.now }
    ensures { IfOk result (λ o. IfSome o (HasResults prim
        (zip2 (binary_on op prim) (lane_numbers a.now) (lane_numbers b.now)))) }
{
    match op {
        Binary::Calculate(op) => calculated_of(op, prim, a, b, arena, steps),
        Binary::Test(how) => compared_of(how, a, b, arena, steps),
        Binary::Join(_) => Ok(None),
    }
}

/// A number as one of int64, if it is one.
fn as_int64(z: i128) -> Option<i64>
    ensures { IfSome result (λ y. y ≡ z) }
{
    if z < -0x8000_0000_0000_0000 {
        return None;
    }
    if z > 0x7fff_ffff_ffff_ffff {
        return None;
    }
    Some(z as i64)
}

/// The lane of the sums, differences or products of a lane and one number, if it is made from where
/// the lane lies.
fn calculated_with<'a, L: Ledger>(
    op: Arith,
    prim: Prim,
    a: &Lane,
    z: i128,
    arena: &'a Arena,
    steps: &mut Steps<L>,
) -> Result<Option<Lane<'a>>, NoMemory>
    requires { is_whole prim ≡ true }
    ensures { IfOk result (λ o. IfSome o (HasResults prim (zip2
        (binary_on (Calculate op) prim) (lane_numbers a.now) (replicate (size_of a.now) z)))) }
{
    if a.kind() != kind_of(prim) {
        return Ok(None);
    }
    match as_int64(z) {
        Some(y) => calculated_beside(op, prim, a, y, arena, steps),
        None => Ok(None),
    }
}

/// The lane of the truth values of a comparison of a lane and one number, if it is made from where
/// the lane lies.
fn compared_with<'a, L: Ledger>(
    how: Compare,
    a: &Lane,
    z: i128,
    arena: &'a Arena,
    steps: &mut Steps<L>,
) -> Result<Option<Lane<'a>>, NoMemory>
    ensures { IfOk result (λ o. IfSome o (HasResults prims.Bool (zip2
        (binary_on (Test how) prims.Bool) (lane_numbers a.now) (replicate (size_of a.now) z)))) }
{
    if a.kind() == Kind::Bool {
        return Ok(None);
    }
    if a.kind() == Kind::U64 {
        return Ok(None);
    }
    match as_int64(z) {
        Some(y) => {
            let lane = compared_beside(how, a, y, arena, steps)?;
            Ok(Some(lane))
        }
        None => Ok(None),
    }
}

/// The lane of what an operation gives of a lane and one number, if it is made from where the lane
/// lies.
pub(crate) fn of_lane_beside<'a, L: Ledger>(
    op: Binary,
    prim: Prim,
    a: &Lane,
    z: i128,
    arena: &'a Arena,
    steps: &mut Steps<L>,
) -> Result<Option<Lane<'a>>, NoMemory>
    requires { AreReady op prim [] [] }
    ensures { IfOk result (λ o. IfSome o (HasResults prim
        (zip2 (binary_on op prim) (lane_numbers a.now) (replicate (size_of a.now) z)))) }
{
    match op {
        Binary::Calculate(op) => calculated_with(op, prim, a, z, arena, steps),
        Binary::Test(how) => compared_with(how, a, z, arena, steps),
        Binary::Join(_) => Ok(None),
    }
}
