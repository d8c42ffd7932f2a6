//! Loops over places, which write one number at each.
ghost use Rattle.std.specs.Prelude.{◌≡◌, pos, map, length, IsNone, Ok};
ghost use Rattle.awk_kernels.specs.Kernels.{first_broken, leaves, nat_leaves, compared, chosen};

use crate::operation::{Arith, Broken, Compare};
use crate::scalar::{calculate, calculate_nat, test, test_mixed, test_nat};

pub(crate) fn arith(
    op: Arith,
    a: &[i64],
    b: &[i64],
    lo: i64,
    hi: i64,
    out: &mut [i64],
) -> Option<Broken>
    requires b { length b.now ≡ length a.now }
    requires out { length out.old ≡ length a.now }
    ensures broken { result ≡ first_broken (leaves op lo hi a.now b.now) }
    ensures written { IsNone result → map Ok out.new ≡ leaves op lo hi a.now b.now }
{
    for i in 0..a.len() {
        match calculate(op, a[i], b[i], lo, hi) {
            Ok(z) => out[i] = z,
            Err(why) => return Some(Broken { place: i, why }),
        }
    }
    None
}

pub(crate) fn arith_nat(op: Arith, a: &[u64], b: &[u64], hi: u64, out: &mut [u64]) -> Option<Broken>
    requires b { length b.now ≡ length a.now }
    requires out { length out.old ≡ length a.now }
    ensures broken { result ≡ first_broken (nat_leaves op hi a.now b.now) }
    ensures written { IsNone result
        → map (λ z. Ok (pos z)) out.new ≡ nat_leaves op hi a.now b.now }
{
    for i in 0..a.len() {
        match calculate_nat(op, a[i], b[i], hi) {
            Ok(z) => out[i] = z,
            Err(why) => return Some(Broken { place: i, why }),
        }
    }
    None
}

pub(crate) fn compare(how: Compare, a: &[i64], b: &[i64], out: &mut [u8])
    requires b { length b.now ≡ length a.now }
    requires out { length out.old ≡ length a.now }
    ensures { out.new ≡ compared how a.now b.now }
{
    for i in 0..a.len() {
        out[i] = u8::from(test(how, a[i], b[i]));
    }
}

pub(crate) fn compare_nat(how: Compare, a: &[u64], b: &[u64], out: &mut [u8])
    requires b { length b.now ≡ length a.now }
    requires out { length out.old ≡ length a.now }
    ensures { out.new ≡ compared how (map pos a.now) (map pos b.now) }
{
    for i in 0..a.len() {
        out[i] = u8::from(test_nat(how, a[i], b[i]));
    }
}

pub(crate) fn compare_mixed(how: Compare, a: &[i64], b: &[u64], out: &mut [u8])
    requires b { length b.now ≡ length a.now }
    requires out { length out.old ≡ length a.now }
    ensures { out.new ≡ compared how a.now (map pos b.now) }
{
    for i in 0..a.len() {
        out[i] = u8::from(test_mixed(how, a[i], b[i]));
    }
}

pub(crate) fn choose<T: Copy>(mask: &[u8], a: &[T], b: &[T], out: &mut [T])
    requires a { length a.now ≡ length mask.now }
    requires b { length b.now ≡ length mask.now }
    requires out { length out.old ≡ length mask.now }
    ensures { out.new ≡ chosen mask.now a.now b.now }
{
    for i in 0..mask.len() {
        out[i] = if mask[i] != 0 { a[i] } else { b[i] };
    }
}
