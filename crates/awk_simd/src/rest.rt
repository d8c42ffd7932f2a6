//! The plain kernels at the places from one on, where those before it are done.
ghost use Rattle.std.specs.Prelude.{◌≡◌, ℕ, ◌<◌, ◌≤◌, length, get_or, pos, map, zip, false};
ghost use Rattle.std.specs.Prelude.{IsNone, Ok};
ghost use Rattle.awk_kernels.specs.Kernels.{is_out_of_order, first_out_of_order};
ghost use Rattle.awk_kernels.specs.Kernels.{is_outside, first_outside};
ghost use Rattle.awk_kernels.specs.Kernels.{first_broken, leaves, nat_leaves, compared};

use awk_kernels::{Arith, Broken, Compare, Kernels, Plain};

/// The first list out of order, where none of the first `passed` is.
pub(crate) fn first_out_of_order(starts: &[i64], stops: &[i64], passed: usize) -> Option<usize>
    requires within { passed ≤ length starts.now }
    requires stops { length stops.now ≡ length starts.now }
    requires passed { (k : ℕ) → k < passed
        → is_out_of_order (get_or starts.now k (pos 0), get_or stops.now k (pos 0)) ≡ false }
    ensures { result ≡ first_out_of_order starts.now stops.now }
{
    match Plain.first_out_of_order(&starts[passed..], &stops[passed..]) {
        Some(i) => Some(passed + i),
        None => None,
    }
}

/// The first number outside, where none of the first `passed` is.
pub(crate) fn first_outside(xs: &[i64], lo: i64, hi: i64, passed: usize) -> Option<usize>
    requires within { passed ≤ length xs.now }
    requires passed { (k : ℕ) → k < passed
        → is_outside lo hi (get_or xs.now k (pos 0)) ≡ false }
    ensures { result ≡ first_outside xs.now lo hi }
{
    match Plain.first_outside(&xs[passed..], lo, hi) {
        Some(i) => Some(passed + i),
        None => None,
    }
}

/// All results, where the first `made` places have theirs.
pub(crate) fn arith(
    op: Arith,
    a: &[i64],
    b: &[i64],
    lo: i64,
    hi: i64,
    made: usize,
    out: &mut [i64],
) -> Option<Broken>
    requires within { made ≤ length a.now }
    requires b { length b.now ≡ length a.now }
    requires out { length out.old ≡ length a.now }
    requires made { (k : ℕ) → k < made
        → get_or (leaves op lo hi a.now b.now) k (Ok (pos 0)) ≡ Ok (get_or out.old k (pos 0)) }
    ensures broken { result ≡ first_broken (leaves op lo hi a.now b.now) }
    ensures written { IsNone result → map Ok out.new ≡ leaves op lo hi a.now b.now }
{
    match Plain.arith_i64(op, &a[made..], &b[made..], lo, hi, &mut out[made..]) {
        Some(broken) => Some(Broken {
            place: made + broken.place,
            why: broken.why,
        }),
        None => None,
    }
}

/// The same, of numbers that are not below 0.
pub(crate) fn arith_nat(
    op: Arith,
    a: &[u64],
    b: &[u64],
    hi: u64,
    made: usize,
    out: &mut [u64],
) -> Option<Broken>
    requires within { made ≤ length a.now }
    requires b { length b.now ≡ length a.now }
    requires out { length out.old ≡ length a.now }
    requires made { (k : ℕ) → k < made
        → get_or (nat_leaves op hi a.now b.now) k (Ok (pos 0)) ≡ Ok (pos (get_or out.old k 0)) }
    ensures broken { result ≡ first_broken (nat_leaves op hi a.now b.now) }
    ensures written { IsNone result
        → map (λ z. Ok (pos z)) out.new ≡ nat_leaves op hi a.now b.now }
{
    match Plain.arith_u64(op, &a[made..], &b[made..], hi, &mut out[made..]) {
        Some(broken) => Some(Broken {
            place: made + broken.place,
            why: broken.why,
        }),
        None => None,
    }
}

/// All flags, where the first `made` places have theirs.
pub(crate) fn compare(how: Compare, a: &[i64], b: &[i64], made: usize, out: &mut [u8])
    requires within { made ≤ length a.now }
    requires b { length b.now ≡ length a.now }
    requires out { length out.old ≡ length a.now }
    requires made { (k : ℕ) → k < made
        → get_or out.old k 0 ≡ get_or (compared how a.now b.now) k 0 }
    ensures { out.new ≡ compared how a.now b.now }
{
    Plain.compare_i64(how, &a[made..], &b[made..], &mut out[made..]);
}

/// The same, of numbers that are not below 0.
pub(crate) fn compare_nat(how: Compare, a: &[u64], b: &[u64], made: usize, out: &mut [u8])
    requires within { made ≤ length a.now }
    requires b { length b.now ≡ length a.now }
    requires out { length out.old ≡ length a.now }
    requires made { (k : ℕ) → k < made
        → get_or out.old k 0 ≡ get_or (compared how (map pos a.now) (map pos b.now)) k 0 }
    ensures { out.new ≡ compared how (map pos a.now) (map pos b.now) }
{
    Plain.compare_u64(how, &a[made..], &b[made..], &mut out[made..]);
}

/// The same, of a number of either sign and one that is not below 0.
pub(crate) fn compare_mixed(how: Compare, a: &[i64], b: &[u64], made: usize, out: &mut [u8])
    requires within { made ≤ length a.now }
    requires b { length b.now ≡ length a.now }
    requires out { length out.old ≡ length a.now }
    requires made { (k : ℕ) → k < made
        → get_or out.old k 0 ≡ get_or (compared how a.now (map pos b.now)) k 0 }
    ensures { out.new ≡ compared how a.now (map pos b.now) }
{
    Plain.compare_mixed(how, &a[made..], &b[made..], &mut out[made..]);
}
