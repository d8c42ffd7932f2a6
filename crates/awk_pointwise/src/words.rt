//! Numbers of eight bytes each, as the kernels take them.
ghost use Rattle.std.specs.Prelude.{◌≡◌, ℕ, ◌<◌, ◌≤ℤ◌, pos, map, replicate};
ghost use Rattle.std.specs.Prelude.{length, get_or, IfOk, FitsSigned};
ghost use Rattle.std.specs.Int.{w64};
ghost use Rattle.std.specs.List.{AllByRecursion};
ghost use Rattle.awk_lanes.specs.Numbers.{element, nat_of};
ghost use Rattle.awk_lanes.specs.Words.{integers};
ghost use Rattle.awk_lanes.specs.declared.kind.Kind.TheVariants as Kind;
ghost use Rattle.awk_numbers.specs.Folds.{lane_numbers};
ghost use Rattle.awk_pointwise.specs.Numbers.{word_numbers, clip, IsInt64, IsNat64};
ghost use Rattle.awk_pointwise.specs.Sides.{IsNumber64};

use awk_index::{byte_numbers, nats_of, numbers_of};
use awk_lanes::{Kind, Lane, NoMemory, Steps};
use std::alloc::Global;
use std::sync::ledger::Ledger;

/// Numbers, none of which needs more than 64 bits.
#[derive(Drop)]
pub(crate) enum Words {
    /// Of either sign.
    Ints(Vec<i64>),
    /// None is negative.
    Nats(Vec<u64>),
}

/// 1 where a byte is not 0, else 0.
#[inline(always)]
fn one_if(byte: u8) -> i64
    ensures { result ≡ element Kind.Bool (pos byte) }
{
    if byte == 0 { 0 } else { 1 }
}

/// Each byte as 1 where it is not 0, else 0.
fn ones(alloc: Global, bytes: &[u8]) -> Result<Vec<i64>, NoMemory>
    ensures { IfOk result (λ v. v.items ≡ map (λ b. element Kind.Bool (pos b)) bytes.now) }
{
    bytes.iter().map(|b| one_if(*b)).collect(alloc)
}

/// The numbers of a lane, a truth value as 0 or 1, in one pass.
pub(crate) fn words_of<L: Ledger>(
    alloc: Global,
    lane: &Lane,
    steps: &mut Steps<L>,
) -> Result<Words, NoMemory>
    ensures { IfOk result (λ w. word_numbers w ≡ lane_numbers lane.now) }
{
    match lane.kind() {
        Kind::U64 => Ok(Words::Nats(nats_of(alloc, lane, steps)?)),
        Kind::Bool => Ok(Words::Ints(ones(alloc, byte_numbers(lane, steps))?)),
        _ => Ok(Words::Ints(numbers_of(alloc, lane, steps)?)),
    }
}

fn nat_of_wide(z: i128) -> u64
    requires low { pos 0 ≤ℤ z }
    requires high { z ≤ℤ pos 18446744073709551615 }
    ensures { pos result ≡ z }
{
    z as u64
}

/// One number at each of n places.
pub(crate) fn repeated(alloc: Global, z: i128, n: u64) -> Result<Words, NoMemory>
    requires { IsNumber64 z }
    ensures { IfOk result (λ w. word_numbers w ≡ replicate n z) }
{
    if z <= 0x7fff_ffff_ffff_ffff {
        Ok(Words::Ints(vec![in alloc; z as i64; n as usize]?))
    } else {
        Ok(Words::Nats(vec![in alloc; nat_of_wide(z); n as usize]?))
    }
}

/// Each number fits an i64, which a proof learns from reading it. Nothing is left of this when
/// built.
#[inline(always)]
pub(crate) fn known(items: &[i64])
    ensures { (k : ℕ) → k < length items.now → FitsSigned w64 (get_or items.now k (pos 0)) }
{
    for i in 0..items.len() {
        let _ = items[i] == 0;
    }
}

#[inline(always)]
fn clipped(n: u64) -> i64
    ensures { result ≡ clip n }
{
    if n < 0x8000_0000_0000_0000 {
        n as i64
    } else {
        i64::MAX
    }
}

#[inline(always)]
fn nat(z: i64) -> u64
    ensures { result ≡ nat_of z }
{
    if z < 0 { 0 } else { z as u64 }
}

fn clip_all(alloc: Global, items: &[u64]) -> Result<Vec<i64>, NoMemory>
    ensures { IfOk result (λ v. v.items ≡ map clip items.now) }
{
    items.iter().map(|n| clipped(*n)).collect(alloc)
}

fn nat_all(alloc: Global, items: &[i64]) -> Result<Vec<u64>, NoMemory>
    ensures { IfOk result (λ v. v.items ≡ map nat_of items.now) }
{
    items.iter().map(|z| nat(*z)).collect(alloc)
}

impl Words {
    /// How many there are.
    pub(crate) fn len(&self) -> usize
        ensures { result ≡ length (word_numbers self.now) }
    {
        match self {
            Words::Ints(items) => items.len(),
            Words::Nats(items) => items.len(),
        }
    }
}

/// Numbers that all fit an i64.
pub(crate) fn ints(alloc: Global, words: Words) -> Result<Vec<i64>, NoMemory>
    requires { AllByRecursion IsInt64 (word_numbers words) }
    ensures { IfOk result (λ v. v.items ≡ word_numbers words) }
{
    match words {
        Words::Ints(items) => Ok(items),
        Words::Nats(items) => clip_all(alloc, &items),
    }
}

/// Numbers of which none is negative.
pub(crate) fn nats(alloc: Global, words: Words) -> Result<Vec<u64>, NoMemory>
    requires { AllByRecursion IsNat64 (word_numbers words) }
    ensures { IfOk result (λ v. integers v.items ≡ word_numbers words) }
{
    match words {
        Words::Ints(items) => nat_all(alloc, &items),
        Words::Nats(items) => Ok(items),
    }
}
