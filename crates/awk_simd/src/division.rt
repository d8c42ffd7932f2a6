//! Quotients and remainders by one number, each found by a product in place of a division.
ghost use Rattle.std.specs.Prelude.{◌≡◌, ℕ, ◌/◌, ◌%◌, ◌<◌, ◌≤◌, length, get_or, pos, Ok, IfSome};
ghost use Rattle.std.specs.Prelude.{IsTrue};
ghost use Rattle.awk_kernels.specs.Operations.{divides, exact, floor_div, floor_rem, leaf};
ghost use Rattle.awk_simd.specs.Divisor.{IsDivisor};

use awk_kernels::Arith;

/// How many numbers a u64 has.
const NUMBERS: u128 = 0x1_0000_0000_0000_0000;

/// A number that others are divided by, and how often it goes into all numbers of a u64.
#[derive(Drop)]
struct Divisor {
    number: u64,
    share: u64,
}

impl Divisor {
    fn new(number: u64) -> Divisor
        requires { 0 < number }
        ensures divisor { IsDivisor result }
        ensures number { result.number ≡ number }
    {
        Divisor {
            number,
            share: u64::MAX / number,
        }
    }

    /// The quotient and what is left. The product with the share is at most one too small.
    #[inline(always)]
    fn divide(&self, x: u64) -> (u64, u64)
        requires { IsDivisor self.now }
        ensures quotient { result.0 ≡ x / self.now.number }
        ensures rest { result.1 ≡ x % self.now.number }
    {
        let quotient = (x as u128 * self.share as u128 / NUMBERS) as u64;
        let rest = x - quotient * self.number;
        if rest < self.number {
            (quotient, rest)
        } else {
            (quotient + 1, rest - self.number)
        }
    }

    /// The same of a number of either sign, the quotient rounded towards minus infinity.
    #[inline(always)]
    fn floor(&self, x: i64) -> (i64, i64)
        requires divisor { IsDivisor self.now }
        requires small { self.now.number < 9223372036854775808 }
        ensures quotient { result.0 ≡ floor_div x (pos self.now.number) }
        ensures rest { result.1 ≡ floor_rem x (pos self.now.number) }
    {
        let distance = if x < 0 { -1 - x } else { x };
        let (quotient, rest) = self.divide(distance as u64);
        if x < 0 {
            (-1 - quotient as i64, (self.number - 1 - rest) as i64)
        } else {
            (quotient as i64, rest as i64)
        }
    }

    /// The quotient or the remainder.
    #[inline(always)]
    fn result(&self, op: Arith, x: i64) -> i64
        requires op { IsTrue (divides op) }
        requires divisor { IsDivisor self.now }
        requires small { self.now.number < 9223372036854775808 }
        ensures { result ≡ exact op x (pos self.now.number) }
    {
        let (quotient, rest) = self.floor(x);
        match op {
            Arith::FloorDiv => quotient,
            _ => rest,
        }
    }

    /// The result by y where this is the divisor and the result lies from `lo` to `hi`.
    #[inline(always)]
    fn within(&self, op: Arith, x: i64, y: i64, lo: i64, hi: i64) -> Option<i64>
        requires op { IsTrue (divides op) }
        requires divisor { IsDivisor self.now }
        requires small { self.now.number < 9223372036854775808 }
        ensures { IfSome result (λ z. leaf op lo hi x y ≡ Ok z) }
    {
        if y != self.number as i64 {
            return None;
        }
        let z = self.result(op, x);
        if z < lo || z > hi { None } else { Some(z) }
    }

    /// The same, of a number that is not below 0.
    #[inline(always)]
    fn result_nat(&self, op: Arith, x: u64) -> u64
        requires op { IsTrue (divides op) }
        requires divisor { IsDivisor self.now }
        ensures { pos result ≡ exact op (pos x) (pos self.now.number) }
    {
        let (quotient, rest) = self.divide(x);
        match op {
            Arith::FloorDiv => quotient,
            _ => rest,
        }
    }

    /// The result by y where this is the divisor and the result is at most `hi`.
    #[inline(always)]
    fn within_nat(&self, op: Arith, x: u64, y: u64, hi: u64) -> Option<u64>
        requires op { IsTrue (divides op) }
        requires divisor { IsDivisor self.now }
        ensures { IfSome result (λ z. leaf op (pos 0) (pos hi) (pos x) (pos y) ≡ Ok (pos z)) }
    {
        if y != self.number {
            return None;
        }
        let z = self.result_nat(op, x);
        if z > hi { None } else { Some(z) }
    }
}

/// The results from the first place on while the divisor is the first one, and how many places were
/// made. By a number that is not above 0 none is.
pub(crate) fn divided(op: Arith, a: &[i64], b: &[i64], lo: i64, hi: i64, out: &mut [i64]) -> usize
    requires op { IsTrue (divides op) }
    requires b { length b.now ≡ length a.now }
    requires out { length out.old ≡ length a.now }
    ensures within { result ≤ length a.now }
    ensures made { (k : ℕ) → k < result
        → leaf op lo hi (get_or a.now k (pos 0)) (get_or b.now k (pos 0))
        ≡ Ok (get_or out.new k (pos 0)) }
{
    if b.is_empty() || b[0] <= 0 {
        return 0;
    }
    let by = Divisor::new(b[0] as u64);
    for i in 0..a.len() {
        match by.within(op, a[i], b[i], lo, hi) {
            Some(z) => out[i] = z,
            None => return i,
        }
    }
    a.len()
}

/// The same, of numbers that are not below 0.
pub(crate) fn divided_nat(op: Arith, a: &[u64], b: &[u64], hi: u64, out: &mut [u64]) -> usize
    requires op { IsTrue (divides op) }
    requires b { length b.now ≡ length a.now }
    requires out { length out.old ≡ length a.now }
    ensures within { result ≤ length a.now }
    ensures made { (k : ℕ) → k < result
        → leaf op (pos 0) (pos hi) (pos (get_or a.now k 0)) (pos (get_or b.now k 0))
        ≡ Ok (pos (get_or out.new k 0)) }
{
    if b.is_empty() || b[0] == 0 {
        return 0;
    }
    let by = Divisor::new(b[0]);
    for i in 0..a.len() {
        match by.within_nat(op, a[i], b[i], hi) {
            Some(z) => out[i] = z,
            None => return i,
        }
    }
    a.len()
}
