//! Operations on two sides: of lanes of one kind from where they lie, else block by block.
ghost use Rattle.std.specs.Prelude.{◌≡◌, length, Ok, IfOk, IfSome};
ghost use Rattle.std.specs.Simd.Lanes.{zip2};
ghost use Rattle.awk_types.specs.Faults.{fault_told};
ghost use Rattle.awk_types.specs.Gives.{Gives};
ghost use Rattle.awk_types.specs.declared.primitive.Primitive.{Primitive};
ghost use Rattle.awk_layout.specs.Kinds.{kind_of};
ghost use Rattle.awk_leaves.specs.Table.{binary_judged};
ghost use Rattle.awk_leaves.specs.Values.{binary_at, binary_on, binary_values, all_values};
ghost use Rattle.awk_pointwise.specs.Blocks.{IsPair};
ghost use Rattle.awk_pointwise.specs.Lanes.{HasResults};
ghost use Rattle.awk_pointwise.specs.Numbers.{word_numbers, AreReady};
ghost use Rattle.awk_pointwise.specs.Sides.{side_values, leaf_type, lane_values, IsSide};

use crate::blocks::{Blocks, lane_by_blocks};
use crate::calculate::calculated;
use crate::lanes::{of_lane_beside, of_lanes};
use crate::see::see_part;
use crate::sides::Side;
use crate::truths::{joined_lane, tested};
use crate::words::Words;
use awk_kernels::Kernels;
use awk_lanes::{Arena, Lane, NoMemory, Steps};
use awk_layout::kind_of;
use awk_leaves::{Binary, binary_prim};
use awk_types::{Fault, Prim};
use std::alloc::Global;
use std::sync::ledger::Ledger;

/// What an operation gives of two numbers at each place, in a primitive.
fn of_numbers<'a, N: Kernels>(
    alloc: Global,
    op: Binary,
    prim: Prim,
    sides: (Words, Words),
    kernels: &N,
    arena: &'a Arena,
) -> Result<Lane<'a>, Fault>
    requires ready { AreReady op prim (word_numbers sides.0) (word_numbers sides.1) }
    requires size { length (word_numbers sides.1) ≡ length (word_numbers sides.0) }
    ensures answer { Gives lane_values fault_told result (all_values
        (zip2 (binary_on op prim) (word_numbers sides.0) (word_numbers sides.1))) }
    ensures kind { IfOk result (λ r. r.kind ≡ kind_of prim) }
{
    match op {
        Binary::Calculate(op) => calculated(alloc, op, prim, sides, kernels, arena),
        Binary::Test(how) => Ok(tested(how, &sides.0, &sides.1, kernels, arena)?),
        Binary::Join(op) => Ok(joined_lane(alloc, op, sides.0, sides.1, arena)?),
    }
}

/// An operation on two sides of n places, in the primitive of its result.
#[derive(Drop)]
struct Pair<'s, 'b, 'a, N: Kernels> {
    alloc: Global,
    op: Binary,
    prim: Prim,
    x: &'s Side<'b, 'a>,
    y: &'s Side<'b, 'a>,
    n: u64,
    kernels: &'s N,
}

impl<'s, 'b, 'a, N: Kernels> Blocks for Pair<'s, 'b, 'a, N> {
    ghost use Rattle.awk_leaves.specs.Values.{binary_at};
    ghost use Rattle.awk_pointwise.specs.Blocks.{IsPair};

    ghost kind = { λ p. kind_of p.prim };

    ghost results = { λ p.
        zip2 (binary_at p.op p.prim) (side_values p.n p.x.now) (side_values p.n p.y.now) };

    ghost IsReady = { λ p. IsPair p.op p.prim p.n p.x.now p.y.now };

    fn block<'r, L: Ledger>(
        &self,
        lo: u64,
        hi: u64,
        arena: &'r Arena,
        steps: &mut Steps<L>,
    ) -> Result<Lane<'r>, Fault> {
        let a = see_part(self.alloc, self.x, lo, hi, steps)?;
        let b = see_part(self.alloc, self.y, lo, hi, steps)?;
        of_numbers(self.alloc, self.op, self.prim, (a, b), self.kernels, arena)
    }
}

/// The lane of all results, if it is made from where lanes lie.
fn pair_of_lanes<'r, N: Kernels, L: Ledger>(
    pair: &Pair<N>,
    arena: &'r Arena,
    steps: &mut Steps<L>,
) -> Result<Option<Lane<'r>>, NoMemory>
    requires { IsPair pair.now.op pair.now.prim pair.now.n pair.now.x.now pair.now.y.now }
    ensures { IfOk result (λ o. IfSome o (HasResults pair.now.prim
        (zip2 (binary_at pair.now.op pair.now.prim) (side_values pair.now.n pair.now.x.now)
        (side_values pair.now.n pair.now.y.now)))) }
{
    match (pair.x, pair.y) {
        (Side::Column(a), Side::Column(b)) => of_lanes(pair.op, pair.prim, a, b, arena, steps),
        (Side::Column(a), Side::Literal(z)) => {
            of_lane_beside(pair.op, pair.prim, a, *z, arena, steps)
        }
        _ => Ok(None),
    }
}

/// The lane of what an operation gives at each of n places of two sides, or the fault of the first
/// place that has one.
pub fn binary_leaves<'a, N: Kernels, L: Ledger>(
    alloc: Global,
    op: Binary,
    sides: (&Side, &Side),
    n: u64,
    kernels: &N,
    arena: &'a Arena,
    steps: &mut Steps<L>,
) -> Result<Lane<'a>, Fault>
    requires first { IsSide n sides.0.now }
    requires second { IsSide n sides.1.now }
    ensures answer { Gives lane_values fault_told result (binary_values op
        (leaf_type sides.entry.0.now) (leaf_type sides.entry.1.now)
        (side_values n sides.entry.0.now) (side_values n sides.entry.1.now)) }
    ensures kind { (p : Primitive)
        → binary_judged op (leaf_type sides.entry.0.now) (leaf_type sides.entry.1.now) ≡ Ok p
        → IfOk result (λ r. r.kind ≡ kind_of p) }
{
    let (x, y) = sides;
    let prim = binary_prim(op, x.leaf_type(), y.leaf_type())?;
    let pair = Pair {
        alloc,
        op,
        prim,
        x,
        y,
        n,
        kernels,
    };
    let made = pair_of_lanes(&pair, arena, steps)?;
    match made {
        Some(lane) => Ok(lane),
        None => lane_by_blocks(alloc, kind_of(prim), n, &pair, arena, steps),
    }
}
