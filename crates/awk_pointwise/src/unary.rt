//! Operations on one side.
ghost use Rattle.std.specs.Prelude.{◌≡◌, true, neg_ℤ, map, Ok, IfOk};
ghost use Rattle.std.specs.List.{AllByRecursion};
ghost use Rattle.awk_types.specs.Faults.{fault_told};
ghost use Rattle.awk_types.specs.Gives.{Gives};
ghost use Rattle.awk_types.specs.Has.{Holds};
ghost use Rattle.awk_primitives.specs.Promotion.{is_whole};
ghost use Rattle.awk_types.specs.declared.primitive.Primitive.{Primitive};
ghost use Rattle.awk_types.specs.declared.primitive.Primitive.TheVariants as prims;
ghost use Rattle.awk_lanes.specs.Words.{integers, column};
ghost use Rattle.awk_lanes.specs.declared.kind.Kind.TheVariants as Kind;
ghost use Rattle.awk_kernels.specs.Kernels.{compared};
ghost use Rattle.awk_layout.specs.Kinds.{kind_of};
ghost use Rattle.awk_leaves.specs.Table.{unary_judged};
ghost use Rattle.awk_leaves.specs.Values.{unary_on, unary_values, all_values};
ghost use Rattle.awk_leaves.specs.declared.operation.Unary.TheVariants.{Cast};
ghost use Rattle.awk_pointwise.specs.Numbers.{word_numbers, all_numbers};
ghost use Rattle.awk_pointwise.specs.Single.{zeros_beside, held_all, size_of_number, below_zero};
ghost use Rattle.awk_pointwise.specs.Single.{IsReady};
ghost use Rattle.awk_pointwise.specs.Sides.{side_values, leaf_type, lane_values, IsSide};

use crate::blocks::{Blocks, lane_by_blocks};
use crate::calculate::{calculate_ints, calculate_nats, calculated, calculated_ints};
use crate::see::see_part;
use crate::sides::Side;
use crate::truths::tested;
use crate::words::{Words, ints, known, repeated};
use awk_kernels::{Arith, Compare, Kernels};
use awk_lanes::{Arena, Lane, NoMemory, Steps, lane_of_nats, lane_of_numbers};
use awk_layout::kind_of;
use awk_leaves::{Unary, unary_prim};
use awk_types::{Fault, Prim};
use std::alloc::Global;
use std::sync::ledger::Ledger;

/// A zero beside each number.
fn zeros(alloc: Global, numbers: &Words) -> Result<Words, NoMemory>
    ensures { IfOk result (λ w. word_numbers w ≡ zeros_beside (word_numbers numbers.now)) }
{
    repeated(alloc, 0, numbers.len() as u64)
}

/// Each number with the other sign.
fn negated<'a, N: Kernels>(
    alloc: Global,
    prim: Prim,
    numbers: Words,
    kernels: &N,
    arena: &'a Arena,
) -> Result<Lane<'a>, Fault>
    requires whole { is_whole prim ≡ true }
    requires held { AllByRecursion (Holds prim) (word_numbers numbers) }
    ensures answer { Gives (λ r. r.items) fault_told result
        (all_numbers (held_all neg_ℤ prim (word_numbers numbers))) }
    ensures kind { IfOk result (λ r. r.kind ≡ kind_of prim) }
{
    let zeros = zeros(alloc, &numbers)?;
    calculated(alloc, Arith::Sub, prim, (zeros, numbers), kernels, arena)
}

/// The number as far below 0 as this one is from it.
#[inline(always)]
fn below(z: i64) -> i64
    ensures { result ≡ below_zero z }
{
    if z < 0 { z } else { -z }
}

fn all_below(alloc: Global, items: &[i64]) -> Result<Vec<i64>, NoMemory>
    ensures { IfOk result (λ v. v.items ≡ map below_zero items.now) }
{
    items.iter().map(|z| below(*z)).collect(alloc)
}

/// Each number without its sign, in a primitive whose numbers all fit an i64.
fn sizes_in_ints<'a, N: Kernels>(
    alloc: Global,
    prim: Prim,
    numbers: Words,
    kernels: &N,
    arena: &'a Arena,
) -> Result<Lane<'a>, Fault>
    requires other { prim ≡ prims.U64 → ⊥ }
    requires held { AllByRecursion (Holds prim) (word_numbers numbers) }
    ensures answer { Gives (λ r. r.items) fault_told result
        (all_numbers (held_all size_of_number prim (word_numbers numbers))) }
    ensures kind { IfOk result (λ r. r.kind ≡ kind_of prim) }
{
    let zeros = zeros(alloc, &numbers)?;
    let items = ints(alloc, numbers)?;
    let below = all_below(alloc, &items)?;
    calculated_ints(
        alloc,
        Arith::Sub,
        prim,
        (zeros, Words::Ints(below)),
        kernels,
        arena,
    )
}

/// Each number without its sign, which is a number of uint64 as it stands.
fn sizes_in_nats<'a, N: Kernels>(
    alloc: Global,
    numbers: Words,
    kernels: &N,
    arena: &'a Arena,
) -> Result<Lane<'a>, Fault>
    requires held { AllByRecursion (Holds prims.U64) (word_numbers numbers) }
    ensures answer { Gives (λ r. r.items) fault_told result
        (all_numbers (held_all size_of_number prims.U64 (word_numbers numbers))) }
    ensures kind { IfOk result (λ r. r.kind ≡ Kind.U64) }
{
    let zeros = zeros(alloc, &numbers)?;
    calculated(
        alloc,
        Arith::Add,
        Prim::U64,
        (numbers, zeros),
        kernels,
        arena,
    )
}

/// Each number without its sign.
fn sizes<'a, N: Kernels>(
    alloc: Global,
    prim: Prim,
    numbers: Words,
    kernels: &N,
    arena: &'a Arena,
) -> Result<Lane<'a>, Fault>
    requires held { AllByRecursion (Holds prim) (word_numbers numbers) }
    ensures answer { Gives (λ r. r.items) fault_told result
        (all_numbers (held_all size_of_number prim (word_numbers numbers))) }
    ensures kind { IfOk result (λ r. r.kind ≡ kind_of prim) }
{
    match prim {
        Prim::U64 => sizes_in_nats(alloc, numbers, kernels, arena),
        _ => sizes_in_ints(alloc, prim, numbers, kernels, arena),
    }
}

/// The numbers where a primitive holds each.
fn held_ints<N: Kernels>(
    alloc: Global,
    to: Prim,
    items: &[i64],
    kernels: &N,
) -> Result<Vec<i64>, Fault>
    ensures { Gives (λ v. v.items) fault_told result
        (all_numbers (held_all (λ z. z) to items.now)) }
{
    known(items);
    let zeros = vec![in alloc; 0i64; items.len()]?;
    calculate_ints(alloc, Arith::Add, to, items, &zeros, kernels)
}

/// The same of numbers that are not negative.
fn held_nats<N: Kernels>(
    alloc: Global,
    to: Prim,
    items: &[u64],
    kernels: &N,
) -> Result<Vec<u64>, Fault>
    requires { is_whole to ≡ true }
    ensures { Gives (λ v. integers v.items) fault_told result
        (all_numbers (held_all (λ z. z) to (integers items.now))) }
{
    let zeros = vec![in alloc; 0u64; items.len()]?;
    calculate_nats(alloc, Arith::Add, to, items, &zeros, kernels)
}

fn cast_ints<'a, N: Kernels>(
    alloc: Global,
    to: Prim,
    items: &[i64],
    kernels: &N,
    arena: &'a Arena,
) -> Result<Lane<'a>, Fault>
    ensures answer { Gives (λ r. r.items) fault_told result
        (all_numbers (held_all (λ z. z) to items.now)) }
    ensures kind { IfOk result (λ r. r.kind ≡ kind_of to) }
{
    let numbers = held_ints(alloc, to, items, kernels)?;
    Ok(lane_of_numbers(kind_of(to), &numbers, arena)?)
}

fn cast_nats<'a, N: Kernels>(
    alloc: Global,
    to: Prim,
    items: &[u64],
    kernels: &N,
    arena: &'a Arena,
) -> Result<Lane<'a>, Fault>
    requires { is_whole to ≡ true }
    ensures answer { Gives (λ r. r.items) fault_told result
        (all_numbers (held_all (λ z. z) to (integers items.now))) }
    ensures kind { IfOk result (λ r. r.kind ≡ kind_of to) }
{
    let numbers = held_nats(alloc, to, items, kernels)?;
    Ok(lane_of_nats(kind_of(to), &numbers, arena)?)
}

/// The same numbers in a primitive of whole numbers.
fn cast<'a, N: Kernels>(
    alloc: Global,
    to: Prim,
    numbers: Words,
    kernels: &N,
    arena: &'a Arena,
) -> Result<Lane<'a>, Fault>
    requires { is_whole to ≡ true }
    ensures answer { Gives (λ r. r.items) fault_told result
        (all_numbers (held_all (λ z. z) to (word_numbers numbers))) }
    ensures kind { IfOk result (λ r. r.kind ≡ kind_of to) }
{
    match numbers {
        Words::Ints(items) => cast_ints(alloc, to, &items, kernels, arena),
        Words::Nats(items) => cast_nats(alloc, to, &items, kernels, arena),
    }
}

/// Whether each number is 0, or is not.
fn compared_with_zero<'a, N: Kernels>(
    alloc: Global,
    how: Compare,
    numbers: &Words,
    kernels: &N,
    arena: &'a Arena,
) -> Result<Lane<'a>, NoMemory>
    ensures { IfOk result (λ r. r ≡ column Kind.Bool (integers
        (compared how (word_numbers numbers.now) (zeros_beside (word_numbers numbers.now))))) }
{
    let zeros = zeros(alloc, numbers)?;
    tested(how, numbers, &zeros, kernels, arena)
}

/// The same numbers in a primitive, where truth values are whether they are not 0.
fn cast_or_test<'a, N: Kernels>(
    alloc: Global,
    to: Prim,
    numbers: Words,
    kernels: &N,
    arena: &'a Arena,
) -> Result<Lane<'a>, Fault>
    ensures answer { Gives lane_values fault_told result
        (all_values (map (unary_on (Cast to) to) (word_numbers numbers))) }
    ensures kind { IfOk result (λ r. r.kind ≡ kind_of to) }
{
    match to {
        Prim::Bool => Ok(compared_with_zero(alloc, Compare::Ne, &numbers, kernels, arena)?),
        _ => cast(alloc, to, numbers, kernels, arena),
    }
}

/// What an operation gives of a number at each place, in a primitive.
fn of_number<'a, N: Kernels>(
    alloc: Global,
    op: Unary,
    prim: Prim,
    numbers: Words,
    kernels: &N,
    arena: &'a Arena,
) -> Result<Lane<'a>, Fault>
    requires { IsReady op prim (word_numbers numbers) }
    ensures answer { Gives lane_values fault_told result
        (all_values (map (unary_on op prim) (word_numbers numbers))) }
    ensures kind { IfOk result (λ r. r.kind ≡ kind_of prim) }
{
    match op {
        Unary::Not => Ok(compared_with_zero(alloc, Compare::Eq, &numbers, kernels, arena)?),
        Unary::Negate => negated(alloc, prim, numbers, kernels, arena),
        Unary::Absolute => sizes(alloc, prim, numbers, kernels, arena),
        Unary::Cast(to) => cast_or_test(alloc, to, numbers, kernels, arena),
    }
}

/// An operation on a side of n places, in the primitive of its result.
#[derive(Drop)]
struct Single<'s, 'b, 'a, N: Kernels> {
    alloc: Global,
    op: Unary,
    prim: Prim,
    side: &'s Side<'b, 'a>,
    n: u64,
    kernels: &'s N,
}

impl<'s, 'b, 'a, N: Kernels> Blocks for Single<'s, 'b, 'a, N> {
    ghost use Rattle.awk_leaves.specs.Values.{unary_at};
    ghost use Rattle.awk_pointwise.specs.Blocks.{IsSingle};

    ghost kind = { λ s. kind_of s.prim };

    ghost results = { λ s. map (unary_at s.op s.prim) (side_values s.n s.side.now) };

    ghost IsReady = { λ s. IsSingle s.op s.prim s.n s.side.now };

    fn block<'r, L: Ledger>(
        &self,
        lo: u64,
        hi: u64,
        arena: &'r Arena,
        steps: &mut Steps<L>,
    ) -> Result<Lane<'r>, Fault> {
        let numbers = see_part(self.alloc, self.side, lo, hi, steps)?;
        of_number(self.alloc, self.op, self.prim, numbers, self.kernels, arena)
    }
}

/// The lane of what an operation gives at each of n places of a side, or the fault of the first
/// place that has one.
pub fn unary_leaves<'a, N: Kernels, L: Ledger>(
    alloc: Global,
    op: Unary,
    side: &Side,
    n: u64,
    kernels: &N,
    arena: &'a Arena,
    steps: &mut Steps<L>,
) -> Result<Lane<'a>, Fault>
    requires { IsSide n side.now }
    ensures answer { Gives lane_values fault_told result
        (unary_values op (leaf_type side.now) (side_values n side.now)) }
    ensures kind { (p : Primitive) → unary_judged op (leaf_type side.now) ≡ Ok p
        → IfOk result (λ r. r.kind ≡ kind_of p) }
{
    let prim = unary_prim(op, side.leaf_type())?;
    let single = Single {
        alloc,
        op,
        prim,
        side,
        n,
        kernels,
    };
    lane_by_blocks(alloc, kind_of(prim), n, &single, arena, steps)
}
