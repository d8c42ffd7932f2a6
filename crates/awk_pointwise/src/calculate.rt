//! Arithmetic at all places by one pass.
ghost use Rattle.std.specs.Prelude.{◌≡◌, length, IfOk};
ghost use Rattle.std.specs.List.{AllByRecursion};
ghost use Rattle.awk_types.specs.Faults.{fault_told};
ghost use Rattle.awk_types.specs.Gives.{Gives};
ghost use Rattle.awk_types.specs.Has.{least_number, greatest_number, Holds};
ghost use Rattle.awk_types.specs.declared.primitive.Primitive.TheVariants as prims;
ghost use Rattle.awk_lanes.specs.Numbers.{nat_of};
ghost use Rattle.awk_lanes.specs.Words.{integers};
ghost use Rattle.awk_lanes.specs.declared.kind.Kind.TheVariants as Kind;
ghost use Rattle.awk_layout.specs.Kinds.{kind_of};
ghost use Rattle.awk_leaves.specs.Values as values;
ghost use Rattle.awk_pointwise.specs.Numbers.{word_numbers, all_numbers, IsInt64, IsNat64};
ghost use Rattle.awk_pointwise.specs.Numbers.{greatest_int64, prim_leaves, int_leaves, nat_leaves};

use crate::words::{Words, ints, nats};
use awk_kernels::{Arith, Kernels, Why};
use awk_lanes::{Arena, Kind, Lane, lane_of_nats, lane_of_numbers};
use awk_layout::kind_of;
use awk_types::{Fault, Prim};
use std::alloc::Global;

fn fault_of(why: Why) -> Fault
    ensures { result ≡ values.fault_of why }
{
    match why {
        Why::Overflow => Fault::Overflow,
        Why::Zero => Fault::Zero,
    }
}

/// The least number of a primitive.
fn least_int(prim: Prim) -> i64
    ensures { result ≡ least_number prim }
{
    match prim {
        Prim::I8 => -0x80,
        Prim::I16 => -0x8000,
        Prim::I32 => -0x8000_0000,
        Prim::I64 => i64::MIN,
        _ => 0,
    }
}

/// The greatest number of a primitive that fits an i64.
fn greatest_int(prim: Prim) -> i64
    ensures { result ≡ greatest_int64 prim }
{
    match prim {
        Prim::Bool => -1,
        Prim::I8 => 0x7f,
        Prim::I16 => 0x7fff,
        Prim::I32 => 0x7fff_ffff,
        Prim::U8 => 0xff,
        Prim::U16 => 0xffff,
        Prim::U32 => 0xffff_ffff,
        Prim::I64 | Prim::U64 => i64::MAX,
    }
}

/// The greatest number of a primitive.
fn greatest_nat(prim: Prim) -> u64
    ensures { result ≡ nat_of (greatest_number prim) }
{
    match prim {
        Prim::Bool => 0,
        Prim::I8 => 0x7f,
        Prim::I16 => 0x7fff,
        Prim::I32 => 0x7fff_ffff,
        Prim::I64 => 0x7fff_ffff_ffff_ffff,
        Prim::U8 => 0xff,
        Prim::U16 => 0xffff,
        Prim::U32 => 0xffff_ffff,
        Prim::U64 => u64::MAX,
    }
}

fn ints_into<N: Kernels>(
    op: Arith,
    prim: Prim,
    a: &[i64],
    b: &[i64],
    kernels: &N,
    out: &mut [i64],
) -> Result<(), Fault>
    requires b { length b.now ≡ length a.now }
    requires out { length out.old ≡ length a.now }
    ensures { Gives (λ _. out.new) fault_told result
        (all_numbers (int_leaves op prim a.now b.now)) }
{
    match kernels.arith_i64(op, a, b, least_int(prim), greatest_int(prim), out) {
        Some(broken) => Err(fault_of(broken.why)),
        None => Ok(()),
    }
}

fn nats_into<N: Kernels>(
    op: Arith,
    prim: Prim,
    a: &[u64],
    b: &[u64],
    kernels: &N,
    out: &mut [u64],
) -> Result<(), Fault>
    requires b { length b.now ≡ length a.now }
    requires out { length out.old ≡ length a.now }
    ensures { Gives (λ _. integers out.new) fault_told result
        (all_numbers (nat_leaves op prim (integers a.now) (integers b.now))) }
{
    match kernels.arith_u64(op, a, b, greatest_nat(prim), out) {
        Some(broken) => Err(fault_of(broken.why)),
        None => Ok(()),
    }
}

/// The results that a primitive holds and that fit an i64.
pub(crate) fn calculate_ints<N: Kernels>(
    alloc: Global,
    op: Arith,
    prim: Prim,
    a: &[i64],
    b: &[i64],
    kernels: &N,
) -> Result<Vec<i64>, Fault>
    requires { length b.now ≡ length a.now }
    ensures { Gives (λ v. v.items) fault_told result
        (all_numbers (int_leaves op prim a.now b.now)) }
{
    let mut out = vec![in alloc; 0i64; a.len()]?;
    ints_into(op, prim, a, b, kernels, &mut out)?;
    Ok(out)
}

/// The results that a primitive holds and that are not negative.
pub(crate) fn calculate_nats<N: Kernels>(
    alloc: Global,
    op: Arith,
    prim: Prim,
    a: &[u64],
    b: &[u64],
    kernels: &N,
) -> Result<Vec<u64>, Fault>
    requires { length b.now ≡ length a.now }
    ensures { Gives (λ v. integers v.items) fault_told result
        (all_numbers (nat_leaves op prim (integers a.now) (integers b.now))) }
{
    let mut out = vec![in alloc; 0u64; a.len()]?;
    nats_into(op, prim, a, b, kernels, &mut out)?;
    Ok(out)
}

/// Arithmetic in a primitive whose numbers all fit an i64.
pub(crate) fn calculated_ints<'a, N: Kernels>(
    alloc: Global,
    op: Arith,
    prim: Prim,
    sides: (Words, Words),
    kernels: &N,
    arena: &'a Arena,
) -> Result<Lane<'a>, Fault>
    requires prim { prim ≡ prims.U64 → ⊥ }
    requires a { AllByRecursion IsInt64 (word_numbers sides.0) }
    requires b { AllByRecursion IsInt64 (word_numbers sides.1) }
    requires size { length (word_numbers sides.1) ≡ length (word_numbers sides.0) }
    ensures answer { Gives (λ r. r.items) fault_told result (all_numbers
        (prim_leaves op prim (word_numbers sides.0) (word_numbers sides.1))) }
    ensures kind { IfOk result (λ r. r.kind ≡ kind_of prim) }
{
    let a = ints(alloc, sides.0)?;
    let b = ints(alloc, sides.1)?;
    let numbers = calculate_ints(alloc, op, prim, &a, &b, kernels)?;
    Ok(lane_of_numbers(kind_of(prim), &numbers, arena)?)
}

/// Arithmetic in uint64.
fn calculated_nats<'a, N: Kernels>(
    alloc: Global,
    op: Arith,
    sides: (Words, Words),
    kernels: &N,
    arena: &'a Arena,
) -> Result<Lane<'a>, Fault>
    requires a { AllByRecursion IsNat64 (word_numbers sides.0) }
    requires b { AllByRecursion IsNat64 (word_numbers sides.1) }
    requires size { length (word_numbers sides.1) ≡ length (word_numbers sides.0) }
    ensures answer { Gives (λ r. r.items) fault_told result (all_numbers
        (prim_leaves op prims.U64 (word_numbers sides.0) (word_numbers sides.1))) }
    ensures kind { IfOk result (λ r. r.kind ≡ Kind.U64) }
{
    let a = nats(alloc, sides.0)?;
    let b = nats(alloc, sides.1)?;
    let numbers = calculate_nats(alloc, op, Prim::U64, &a, &b, kernels)?;
    Ok(lane_of_nats(Kind::U64, &numbers, arena)?)
}

/// Arithmetic in a primitive that holds all numbers of both sides.
pub(crate) fn calculated<'a, N: Kernels>(
    alloc: Global,
    op: Arith,
    prim: Prim,
    sides: (Words, Words),
    kernels: &N,
    arena: &'a Arena,
) -> Result<Lane<'a>, Fault>
    requires a { AllByRecursion (Holds prim) (word_numbers sides.0) }
    requires b { AllByRecursion (Holds prim) (word_numbers sides.1) }
    requires size { length (word_numbers sides.1) ≡ length (word_numbers sides.0) }
    ensures answer { Gives (λ r. r.items) fault_told result (all_numbers
        (prim_leaves op prim (word_numbers sides.0) (word_numbers sides.1))) }
    ensures kind { IfOk result (λ r. r.kind ≡ kind_of prim) }
{
    match prim {
        Prim::U64 => calculated_nats(alloc, op, sides, kernels, arena),
        _ => calculated_ints(alloc, op, prim, sides, kernels, arena),
    }
}
