//! What each implementation of the kernels answers.
ghost use Rattle.std.specs.Prelude.{◌≡◌, ℕ, ◌+◌, ◌<◌, ◌≤◌, pos, map, get_or, length, IsNone, Ok};
ghost use Rattle.awk_kernels.specs.Kernels.{first_out_of_order, first_outside, greatest};
ghost use Rattle.awk_kernels.specs.Kernels.{first_past, prefix_sums, gathered};
ghost use Rattle.awk_kernels.specs.Kernels.{first_broken, leaves, nat_leaves, compared, chosen};
ghost use Rattle.awk_kernels.specs.Kernels.{count_true, total};
ghost use Rattle.awk_kernels.specs.Kernels.{first_least, first_greatest};

use crate::operation::{Arith, Broken, Compare};

/// Passes over whole lanes. No kernel takes memory, and each is one pass.
pub trait Kernels {
    /// The first place whose list, from start below stop, is not empty and ends before it starts
    /// or starts below 0. An empty list is in order wherever it stands.
    fn first_out_of_order(&self, starts: &[i64], stops: &[i64]) -> Option<usize>
        requires { length starts.now ≡ length stops.now }
        ensures { result ≡ first_out_of_order starts.now stops.now };

    /// The first place of a number that is less than `lo` or not less than `hi`.
    fn first_outside(&self, xs: &[i64], lo: i64, hi: i64) -> Option<usize>
        ensures { result ≡ first_outside xs.now lo hi };

    /// The greatest number, or none of none.
    fn greatest(&self, xs: &[i64]) -> Option<i64>
        ensures { result ≡ greatest xs.now };

    /// Writes 0 and then the running sums of the numbers, or tells the first place whose running
    /// sum does not fit a u64. Then it says nothing of `out`, which has one place more than `xs`.
    fn prefix_sums(&self, xs: &[u64], out: &mut [u64]) -> Option<usize>
        requires { length out.old ≡ length xs.now + 1 }
        ensures past { result ≡ first_past xs.now }
        ensures sums { IsNone result → out.new ≡ prefix_sums xs.now };

    /// Writes at each place of `out` the item of `xs` whose place stands there in `places`.
    fn gather(&self, xs: &[i64], places: &[u64], out: &mut [i64])
        requires length { length out.old ≡ length places.now }
        requires places { (k : ℕ) → k < length places.now → get_or places.now k 0 < length xs.now }
        ensures { out.new ≡ gathered xs.now places.now };

    /// Writes the exact result at each place, or tells the first place that has none: the divisor
    /// is 0, or the exact number is below `lo` or above `hi`. Then it says nothing of `out`.
    fn arith_i64(
        &self,
        op: Arith,
        a: &[i64],
        b: &[i64],
        lo: i64,
        hi: i64,
        out: &mut [i64],
    ) -> Option<Broken>
        requires b { length b.now ≡ length a.now }
        requires out { length out.old ≡ length a.now }
        ensures broken { result ≡ first_broken (leaves op lo hi a.now b.now) }
        ensures written { IsNone result → map Ok out.new ≡ leaves op lo hi a.now b.now };

    /// The same, of numbers that are not below 0.
    fn arith_u64(&self, op: Arith, a: &[u64], b: &[u64], hi: u64, out: &mut [u64]) -> Option<Broken>
        requires b { length b.now ≡ length a.now }
        requires out { length out.old ≡ length a.now }
        ensures broken { result ≡ first_broken (nat_leaves op hi a.now b.now) }
        ensures written { IsNone result
            → map (λ z. Ok (pos z)) out.new ≡ nat_leaves op hi a.now b.now };

    /// Writes 1 where the comparison holds of the two numbers at a place, else 0.
    fn compare_i64(&self, how: Compare, a: &[i64], b: &[i64], out: &mut [u8])
        requires b { length b.now ≡ length a.now }
        requires out { length out.old ≡ length a.now }
        ensures { out.new ≡ compared how a.now b.now };

    /// The same, of numbers that are not below 0.
    fn compare_u64(&self, how: Compare, a: &[u64], b: &[u64], out: &mut [u8])
        requires b { length b.now ≡ length a.now }
        requires out { length out.old ≡ length a.now }
        ensures { out.new ≡ compared how (map pos a.now) (map pos b.now) };

    /// The same, of a number of either sign and one that is not below 0.
    fn compare_mixed(&self, how: Compare, a: &[i64], b: &[u64], out: &mut [u8])
        requires b { length b.now ≡ length a.now }
        requires out { length out.old ≡ length a.now }
        ensures { out.new ≡ compared how a.now (map pos b.now) };

    /// Writes the item of `a` where the byte of the mask is not 0, else the item of `b`.
    fn select_i64(&self, mask: &[u8], a: &[i64], b: &[i64], out: &mut [i64])
        requires a { length a.now ≡ length mask.now }
        requires b { length b.now ≡ length mask.now }
        requires out { length out.old ≡ length mask.now }
        ensures { out.new ≡ chosen mask.now a.now b.now };

    /// The same, of numbers that are not below 0.
    fn select_u64(&self, mask: &[u8], a: &[u64], b: &[u64], out: &mut [u64])
        requires a { length a.now ≡ length mask.now }
        requires b { length b.now ≡ length mask.now }
        requires out { length out.old ≡ length mask.now }
        ensures { out.new ≡ chosen mask.now a.now b.now };

    /// How many bytes are not 0.
    fn count_true(&self, xs: &[u8]) -> u64
        ensures { result ≡ count_true xs.now };

    /// The exact sum.
    fn sum_i64(&self, xs: &[i64]) -> i128
        requires { length xs.now ≤ 1073741824 }
        ensures { result ≡ total xs.now };

    /// The same, of numbers that are not below 0.
    fn sum_u64(&self, xs: &[u64]) -> u128
        requires { length xs.now ≤ 1073741824 }
        ensures { pos result ≡ total (map pos xs.now) };

    /// The first place of the least number, or none of none.
    fn first_least(&self, xs: &[i64]) -> Option<usize>
        ensures { result ≡ first_least xs.now };

    /// The first place of the greatest number, or none of none.
    fn first_greatest(&self, xs: &[i64]) -> Option<usize>
        ensures { result ≡ first_greatest xs.now };
}
