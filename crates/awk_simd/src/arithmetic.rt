//! Sums and differences of eight numbers at once, and quotients and remainders by one number. Of
//! products no place is made.
ghost use Rattle.std.specs.Prelude.{◌≡◌, ℕ, ◌+◌, ◌<◌, ◌≤◌, length, get_or, pos, Ok, IsTrue, IsNone};
ghost use Rattle.std.specs.Prelude.{map, negsuc, FitsSigned};
ghost use Rattle.std.specs.Int.{w64};
ghost use Rattle.awk_kernels.specs.Operations.{leaf};
ghost use Rattle.awk_kernels.specs.Kernels.{first_broken, leaves, nat_leaves};
ghost use Rattle.awk_kernels.specs.declared.operation.Arith.TheVariants.{Add, Sub};

use crate::blocks::known;
use crate::division::{divided, divided_nat};
use crate::rest;
use awk_kernels::{Arith, Broken};
use std::simd::prelude::*;

/// Whether every i64 lies from `lo` to `hi`.
#[inline(always)]
fn takes_all(lo: i64, hi: i64) -> bool
    ensures least { IsTrue result → lo ≡ negsuc 9223372036854775807 }
    ensures greatest { IsTrue result → hi ≡ pos 9223372036854775807 }
{
    lo == i64::MIN && hi == i64::MAX
}

/// Writes the sums of the eight numbers from a place on, and tells whether each of them is exact
/// and lies from `lo` to `hi`. Where one is not, it says nothing of these places.
#[inline(always)]
fn add_block(a: &[i64], b: &[i64], at: usize, lo: i64, hi: i64, out: &mut [i64]) -> bool
    requires room { at + 8 ≤ length a.now }
    requires b { length b.now ≡ length a.now }
    requires out { length out.old ≡ length a.now }
    requires known_a { (k : ℕ) → k < length a.now → FitsSigned w64 (get_or a.now k (pos 0)) }
    requires known_b { (k : ℕ) → k < length b.now → FitsSigned w64 (get_or b.now k (pos 0)) }
    ensures below { (k : ℕ) → k < at → get_or out.new k (pos 0) ≡ get_or out.old k (pos 0) }
    ensures made { IsTrue result → (k : ℕ) → at ≤ k → k < at + 8
        → leaf Add lo hi (get_or a.now k (pos 0)) (get_or b.now k (pos 0))
        ≡ Ok (get_or out.new k (pos 0)) }
{
    let x = i64x8::from_slice(&a[at..]);
    let y = i64x8::from_slice(&b[at..]);
    let z = x + y;
    z.copy_to_slice(&mut out[at..]);
    let wrapped = (x ^ z) & (y ^ z); // below 0 where the sum has the sign of neither
    if wrapped.simd_lt(i64x8::splat(0)).to_bitmask() != 0 {
        return false;
    }
    if takes_all(lo, hi) {
        return true;
    }
    if z.simd_lt(i64x8::splat(lo)).to_bitmask() != 0 {
        return false;
    }
    z.simd_gt(i64x8::splat(hi)).to_bitmask() == 0
}

/// The same, of differences.
#[inline(always)]
fn subtract_block(a: &[i64], b: &[i64], at: usize, lo: i64, hi: i64, out: &mut [i64]) -> bool
    requires room { at + 8 ≤ length a.now }
    requires b { length b.now ≡ length a.now }
    requires out { length out.old ≡ length a.now }
    requires known_a { (k : ℕ) → k < length a.now → FitsSigned w64 (get_or a.now k (pos 0)) }
    requires known_b { (k : ℕ) → k < length b.now → FitsSigned w64 (get_or b.now k (pos 0)) }
    ensures below { (k : ℕ) → k < at → get_or out.new k (pos 0) ≡ get_or out.old k (pos 0) }
    ensures made { IsTrue result → (k : ℕ) → at ≤ k → k < at + 8
        → leaf Sub lo hi (get_or a.now k (pos 0)) (get_or b.now k (pos 0))
        ≡ Ok (get_or out.new k (pos 0)) }
{
    let x = i64x8::from_slice(&a[at..]);
    let y = i64x8::from_slice(&b[at..]);
    let z = x - y;
    z.copy_to_slice(&mut out[at..]);
    let wrapped = (x ^ y) & (x ^ z); // below 0 where x alone has its sign
    if wrapped.simd_lt(i64x8::splat(0)).to_bitmask() != 0 {
        return false;
    }
    if takes_all(lo, hi) {
        return true;
    }
    if z.simd_lt(i64x8::splat(lo)).to_bitmask() != 0 {
        return false;
    }
    z.simd_gt(i64x8::splat(hi)).to_bitmask() == 0
}

/// The results by eights from the first place on, and how many places were made.
fn arith_blocks(op: Arith, a: &[i64], b: &[i64], lo: i64, hi: i64, out: &mut [i64]) -> usize
    requires b { length b.now ≡ length a.now }
    requires out { length out.old ≡ length a.now }
    ensures within { result ≤ length a.now }
    ensures made { (k : ℕ) → k < result
        → leaf op lo hi (get_or a.now k (pos 0)) (get_or b.now k (pos 0))
        ≡ Ok (get_or out.new k (pos 0)) }
{
    known(a);
    known(b);
    for n in 0..a.len() / 8 {
        let made = match op {
            Arith::Add => add_block(a, b, n * 8, lo, hi, out),
            Arith::Sub => subtract_block(a, b, n * 8, lo, hi, out),
            _ => false,
        };
        if !made {
            return n * 8;
        }
    }
    a.len() / 8 * 8
}

/// The results at some of the first places, and how many these are.
fn arith_front(op: Arith, a: &[i64], b: &[i64], lo: i64, hi: i64, out: &mut [i64]) -> usize
    requires b { length b.now ≡ length a.now }
    requires out { length out.old ≡ length a.now }
    ensures within { result ≤ length a.now }
    ensures made { (k : ℕ) → k < result
        → leaf op lo hi (get_or a.now k (pos 0)) (get_or b.now k (pos 0))
        ≡ Ok (get_or out.new k (pos 0)) }
{
    match op {
        Arith::FloorDiv | Arith::Rem => divided(op, a, b, lo, hi, out),
        _ => arith_blocks(op, a, b, lo, hi, out),
    }
}

/// The results at all places, or the first place that has none.
pub(crate) fn arith(
    op: Arith,
    a: &[i64],
    b: &[i64],
    lo: i64,
    hi: i64,
    out: &mut [i64],
) -> Option<Broken>
    requires b { length b.now ≡ length a.now }
    requires out { length out.old ≡ length a.now }
    ensures broken { result ≡ first_broken (leaves op lo hi a.now b.now) }
    ensures written { IsNone result → map Ok out.new ≡ leaves op lo hi a.now b.now }
{
    let made = arith_front(op, a, b, lo, hi, out);
    rest::arith(op, a, b, lo, hi, made, out)
}

/// Writes the sums of the eight numbers from a place on, which are not below 0, and tells whether
/// each of them is exact and at most `hi`.
#[inline(always)]
fn add_nat_block(a: &[u64], b: &[u64], at: usize, hi: u64, out: &mut [u64]) -> bool
    requires room { at + 8 ≤ length a.now }
    requires b { length b.now ≡ length a.now }
    requires out { length out.old ≡ length a.now }
    ensures below { (k : ℕ) → k < at → get_or out.new k 0 ≡ get_or out.old k 0 }
    ensures made { IsTrue result → (k : ℕ) → at ≤ k → k < at + 8
        → leaf Add (pos 0) (pos hi) (pos (get_or a.now k 0)) (pos (get_or b.now k 0))
        ≡ Ok (pos (get_or out.new k 0)) }
{
    let x = u64x8::from_slice(&a[at..]);
    let z = x + u64x8::from_slice(&b[at..]);
    z.copy_to_slice(&mut out[at..]);
    if z.simd_lt(x).to_bitmask() != 0 {
        return false;
    }
    z.simd_gt(u64x8::splat(hi)).to_bitmask() == 0
}

/// The same, of differences.
#[inline(always)]
fn subtract_nat_block(a: &[u64], b: &[u64], at: usize, hi: u64, out: &mut [u64]) -> bool
    requires room { at + 8 ≤ length a.now }
    requires b { length b.now ≡ length a.now }
    requires out { length out.old ≡ length a.now }
    ensures below { (k : ℕ) → k < at → get_or out.new k 0 ≡ get_or out.old k 0 }
    ensures made { IsTrue result → (k : ℕ) → at ≤ k → k < at + 8
        → leaf Sub (pos 0) (pos hi) (pos (get_or a.now k 0)) (pos (get_or b.now k 0))
        ≡ Ok (pos (get_or out.new k 0)) }
{
    let x = u64x8::from_slice(&a[at..]);
    let y = u64x8::from_slice(&b[at..]);
    let z = x - y;
    z.copy_to_slice(&mut out[at..]);
    if x.simd_lt(y).to_bitmask() != 0 {
        return false;
    }
    z.simd_gt(u64x8::splat(hi)).to_bitmask() == 0
}

/// The results by eights from the first place on, and how many places were made.
fn arith_nat_blocks(op: Arith, a: &[u64], b: &[u64], hi: u64, out: &mut [u64]) -> usize
    requires b { length b.now ≡ length a.now }
    requires out { length out.old ≡ length a.now }
    ensures within { result ≤ length a.now }
    ensures made { (k : ℕ) → k < result
        → leaf op (pos 0) (pos hi) (pos (get_or a.now k 0)) (pos (get_or b.now k 0))
        ≡ Ok (pos (get_or out.new k 0)) }
{
    for n in 0..a.len() / 8 {
        let made = match op {
            Arith::Add => add_nat_block(a, b, n * 8, hi, out),
            Arith::Sub => subtract_nat_block(a, b, n * 8, hi, out),
            _ => false,
        };
        if !made {
            return n * 8;
        }
    }
    a.len() / 8 * 8
}

/// The results at some of the first places, and how many these are.
fn arith_nat_front(op: Arith, a: &[u64], b: &[u64], hi: u64, out: &mut [u64]) -> usize
    requires b { length b.now ≡ length a.now }
    requires out { length out.old ≡ length a.now }
    ensures within { result ≤ length a.now }
    ensures made { (k : ℕ) → k < result
        → leaf op (pos 0) (pos hi) (pos (get_or a.now k 0)) (pos (get_or b.now k 0))
        ≡ Ok (pos (get_or out.new k 0)) }
{
    match op {
        Arith::FloorDiv | Arith::Rem => divided_nat(op, a, b, hi, out),
        _ => arith_nat_blocks(op, a, b, hi, out),
    }
}

/// The results at all places, or the first place that has none.
pub(crate) fn arith_nat(op: Arith, a: &[u64], b: &[u64], hi: u64, out: &mut [u64]) -> Option<Broken>
    requires b { length b.now ≡ length a.now }
    requires out { length out.old ≡ length a.now }
    ensures broken { result ≡ first_broken (nat_leaves op hi a.now b.now) }
    ensures written { IsNone result
        → map (λ z. Ok (pos z)) out.new ≡ nat_leaves op hi a.now b.now }
{
    let made = arith_nat_front(op, a, b, hi, out);
    rest::arith_nat(op, a, b, hi, made, out)
}
