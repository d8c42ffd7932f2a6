//! The kernels, each by the pass over vectors that it has, or by plain loops.
use crate::{arithmetic, comparisons, counts, extremes, searches};
use awk_kernels::{Arith, Broken, Compare, Kernels, Plain};

/// The kernels by vectors, with the plain kernels for the rest of a slice. The greatest number,
/// choices, gathers, running sums, sums, products, quotients and remainders are the plain kernels.
/// It answers what `Plain` does.
#[derive(Clone, Copy, Debug, Default)]
pub struct Wide;

impl Kernels for Wide {
    fn first_out_of_order(&self, starts: &[i64], stops: &[i64]) -> Option<usize> {
        searches::first_out_of_order(starts, stops)
    }

    fn first_outside(&self, xs: &[i64], lo: i64, hi: i64) -> Option<usize> {
        searches::first_outside(xs, lo, hi)
    }

    fn greatest(&self, xs: &[i64]) -> Option<i64> {
        Plain.greatest(xs)
    }

    fn prefix_sums(&self, xs: &[u64], out: &mut [u64]) -> Option<usize> {
        Plain.prefix_sums(xs, out)
    }

    fn gather(&self, xs: &[i64], places: &[u64], out: &mut [i64]) {
        Plain.gather(xs, places, out)
    }

    fn arith_i64(
        &self,
        op: Arith,
        a: &[i64],
        b: &[i64],
        lo: i64,
        hi: i64,
        out: &mut [i64],
    ) -> Option<Broken> {
        arithmetic::arith(op, a, b, lo, hi, out)
    }

    fn arith_u64(
        &self,
        op: Arith,
        a: &[u64],
        b: &[u64],
        hi: u64,
        out: &mut [u64],
    ) -> Option<Broken> {
        arithmetic::arith_nat(op, a, b, hi, out)
    }

    fn compare_i64(&self, how: Compare, a: &[i64], b: &[i64], out: &mut [u8]) {
        comparisons::compare(how, a, b, out)
    }

    fn compare_u64(&self, how: Compare, a: &[u64], b: &[u64], out: &mut [u8]) {
        comparisons::compare_nat(how, a, b, out)
    }

    fn compare_mixed(&self, how: Compare, a: &[i64], b: &[u64], out: &mut [u8]) {
        comparisons::compare_mixed(how, a, b, out)
    }

    fn select_i64(&self, mask: &[u8], a: &[i64], b: &[i64], out: &mut [i64]) {
        Plain.select_i64(mask, a, b, out)
    }

    fn select_u64(&self, mask: &[u8], a: &[u64], b: &[u64], out: &mut [u64]) {
        Plain.select_u64(mask, a, b, out)
    }

    fn count_true(&self, xs: &[u8]) -> u64 {
        counts::count(xs)
    }

    fn sum_i64(&self, xs: &[i64]) -> i128 {
        Plain.sum_i64(xs)
    }

    fn sum_u64(&self, xs: &[u64]) -> u128 {
        Plain.sum_u64(xs)
    }

    fn first_least(&self, xs: &[i64]) -> Option<usize> {
        extremes::first_least(xs)
    }

    fn first_greatest(&self, xs: &[i64]) -> Option<usize> {
        extremes::first_greatest(xs)
    }
}
