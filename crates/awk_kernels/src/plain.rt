//! The kernels as plain passes of std's iterators.
use crate::kernels::Kernels;
use crate::operation::{Arith, Broken, Compare};
use crate::{fold, pointwise};

/// The kernels, one number at a time.
#[derive(Clone, Copy, Debug, Default)]
pub struct Plain;

impl Kernels for Plain {
    fn first_out_of_order(&self, starts: &[i64], stops: &[i64]) -> Option<usize> {
        starts.iter().zip(stops).position(|(&start, &stop)| {
            start != stop && (start > stop || start < 0)
        })
    }

    fn first_outside(&self, xs: &[i64], lo: i64, hi: i64) -> Option<usize> {
        xs.iter().position(|&x| x < lo || x >= hi)
    }

    fn greatest(&self, xs: &[i64]) -> Option<i64> {
        xs.iter().copied().max()
    }

    fn prefix_sums(&self, xs: &[u64], out: &mut [u64]) -> Option<usize> {
        out[0] = 0;
        let mut sum: u64 = 0;
        for i in 0..xs.len() {
            let Some(next) = sum.checked_add(xs[i]) else {
                return Some(i);
            };
            sum = next;
            out[i + 1] = next;
        }
        None
    }

    fn gather(&self, xs: &[i64], places: &[u64], out: &mut [i64]) {
        for i in 0..places.len() {
            out[i] = xs[places[i] as usize];
        }
    }

    fn arith_i64(
        &self,
        op: Arith,
        a: &[i64],
        b: &[i64],
        lo: i64,
        hi: i64,
        out: &mut [i64],
    ) -> Option<Broken> {
        pointwise::arith(op, a, b, lo, hi, out)
    }

    fn arith_u64(
        &self,
        op: Arith,
        a: &[u64],
        b: &[u64],
        hi: u64,
        out: &mut [u64],
    ) -> Option<Broken> {
        pointwise::arith_nat(op, a, b, hi, out)
    }

    fn compare_i64(&self, how: Compare, a: &[i64], b: &[i64], out: &mut [u8]) {
        pointwise::compare(how, a, b, out)
    }

    fn compare_u64(&self, how: Compare, a: &[u64], b: &[u64], out: &mut [u8]) {
        pointwise::compare_nat(how, a, b, out)
    }

    fn compare_mixed(&self, how: Compare, a: &[i64], b: &[u64], out: &mut [u8]) {
        pointwise::compare_mixed(how, a, b, out)
    }

    fn select_i64(&self, mask: &[u8], a: &[i64], b: &[i64], out: &mut [i64]) {
        pointwise::choose(mask, a, b, out)
    }

    fn select_u64(&self, mask: &[u8], a: &[u64], b: &[u64], out: &mut [u64]) {
        pointwise::choose(mask, a, b, out)
    }

    fn count_true(&self, xs: &[u8]) -> u64 {
        fold::count_true(xs)
    }

    fn sum_i64(&self, xs: &[i64]) -> i128 {
        fold::sum(xs)
    }

    fn sum_u64(&self, xs: &[u64]) -> u128 {
        fold::sum_nat(xs)
    }

    fn first_least(&self, xs: &[i64]) -> Option<usize> {
        fold::first_least(xs)
    }

    fn first_greatest(&self, xs: &[i64]) -> Option<usize> {
        fold::first_greatest(xs)
    }
}
