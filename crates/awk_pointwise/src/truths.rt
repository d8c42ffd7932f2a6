//! Comparisons, and operations on truth values, at all places by one pass.
ghost use Rattle.std.specs.Prelude.{◌≡◌, ℤ, map, length, IfOk};
ghost use Rattle.std.specs.Int.{from_bool};
ghost use Rattle.std.specs.List.{zip, AllByRecursion};
ghost use Rattle.awk_lanes.specs.Words.{integers, column};
ghost use Rattle.awk_lanes.specs.declared.kind.Kind.TheVariants as Kind;
ghost use Rattle.awk_kernels.specs.Kernels.{compared};
ghost use Rattle.awk_kernels.specs.Operations.{holds};
ghost use Rattle.awk_leaves.specs.Values as values;
ghost use Rattle.awk_leaves.specs.Values.{is_nonzero};
ghost use Rattle.awk_pointwise.specs.Numbers.{word_numbers, joined_bytes, IsInt64};

use crate::words::{Words, ints};
use awk_kernels::{Compare, Kernels};
use awk_lanes::{Arena, Kind, Lane, NoMemory};
use awk_leaves::Logic;
use bumpalo::collections::into_bump_slice;
use std::alloc::Global;

/// The lane of truth values whose bytes are given.
fn truth_lane<'a>(bytes: &'a [u8]) -> Lane<'a>
    ensures { result ≡ column Kind.Bool (integers bytes.now) }
{
    Lane::new(Kind::Bool, bytes)
}

/// The comparison that holds of b and a where another holds of a and b.
fn mirrored(how: Compare) -> Compare
    ensures { (a b : ℤ) → holds result b a ≡ holds how a b }
{
    match how {
        Compare::Eq => Compare::Eq,
        Compare::Ne => Compare::Ne,
        Compare::Lt => Compare::Gt,
        Compare::Le => Compare::Ge,
        Compare::Gt => Compare::Lt,
        Compare::Ge => Compare::Le,
    }
}

/// Writes 1 where the comparison holds, else 0.
fn compare_into<N: Kernels>(how: Compare, a: &Words, b: &Words, kernels: &N, out: &mut [u8])
    requires b { length (word_numbers b.now) ≡ length (word_numbers a.now) }
    requires out { length out.old ≡ length (word_numbers a.now) }
    ensures { out.new ≡ compared how (word_numbers a.now) (word_numbers b.now) }
{
    match (a, b) {
        (Words::Ints(a), Words::Ints(b)) => kernels.compare_i64(how, a, b, out),
        (Words::Nats(a), Words::Nats(b)) => kernels.compare_u64(how, a, b, out),
        (Words::Ints(a), Words::Nats(b)) => kernels.compare_mixed(how, a, b, out),
        (Words::Nats(a), Words::Ints(b)) => kernels.compare_mixed(mirrored(how), b, a, out),
    }
}

/// The truth values of a comparison.
pub(crate) fn tested<'a, N: Kernels>(
    how: Compare,
    a: &Words,
    b: &Words,
    kernels: &N,
    arena: &'a Arena,
) -> Result<Lane<'a>, NoMemory>
    requires { length (word_numbers b.now) ≡ length (word_numbers a.now) }
    ensures { IfOk result (λ r. r ≡ column Kind.Bool
        (integers (compared how (word_numbers a.now) (word_numbers b.now)))) }
{
    let out = arena.try_alloc_slice_fill_clone(a.len() as usize, 0u8)?;
    compare_into(how, a, b, kernels, out);
    Ok(truth_lane(out))
}

#[inline(always)]
fn joined(op: Logic, a: bool, b: bool) -> bool
    ensures { result ≡ values.joined op a b }
{
    match op {
        Logic::And => a && b,
        Logic::Or => a || b,
        Logic::Xor => a != b,
    }
}

#[inline(always)]
fn joined_byte(op: Logic, a: i64, b: i64) -> u8
    ensures { result ≡ from_bool (values.joined op (is_nonzero a) (is_nonzero b)) }
{
    u8::from(joined(op, a != 0, b != 0))
}

fn join_bytes<'a>(
    op: Logic,
    a: &[i64],
    b: &[i64],
    arena: &'a Arena,
) -> Result<Vec<u8, &'a Arena>, NoMemory>
    ensures { IfOk result (λ v. v.items ≡ map
        (λ p. from_bool (values.joined op (is_nonzero p.0) (is_nonzero p.1))) (zip a.now b.now)) }
{
    a.iter()
        .zip(b)
        .map(|(&a, &b)| joined_byte(op, a, b))
        .collect(arena)
}

/// The truth values of an operation on truth values, each 0 or not.
pub(crate) fn joined_lane<'a>(
    alloc: Global,
    op: Logic,
    a: Words,
    b: Words,
    arena: &'a Arena,
) -> Result<Lane<'a>, NoMemory>
    requires a { AllByRecursion IsInt64 (word_numbers a) }
    requires b { AllByRecursion IsInt64 (word_numbers b) }
    ensures { IfOk result (λ r. r ≡ column Kind.Bool
        (integers (joined_bytes op (word_numbers a) (word_numbers b)))) }
{
    let a = ints(alloc, a)?;
    let b = ints(alloc, b)?;
    Ok(truth_lane(into_bump_slice(join_bytes(op, &a, &b, arena)?)))
}
