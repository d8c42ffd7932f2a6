//! Loops that give one number.
ghost use Rattle.std.specs.Prelude.{◌≡◌, ◌≤◌, pos, map, length};
ghost use Rattle.awk_kernels.specs.Kernels.{count_true, total, first_least, first_greatest};

pub(crate) fn count_true(xs: &[u8]) -> u64
    ensures { result ≡ count_true xs.now }
{
    let mut count: u64 = 0;
    for x in xs {
        count += u64::from(*x != 0);
    }
    count
}

pub(crate) fn sum(xs: &[i64]) -> i128
    requires { length xs.now ≤ 1073741824 }
    ensures { result ≡ total xs.now }
{
    let mut sum: i128 = 0;
    for x in xs {
        sum += i128::from(*x);
    }
    sum
}

pub(crate) fn sum_nat(xs: &[u64]) -> u128
    requires { length xs.now ≤ 1073741824 }
    ensures { pos result ≡ total (map pos xs.now) }
{
    let mut sum: u128 = 0;
    for x in xs {
        sum += u128::from(*x);
    }
    sum
}

pub(crate) fn first_least(xs: &[i64]) -> Option<usize>
    ensures { result ≡ first_least xs.now }
{
    if xs.is_empty() {
        return None;
    }
    let mut place = 0;
    let mut least = xs[0];
    for i in 0..xs.len() {
        if xs[i] < least {
            place = i;
            least = xs[i];
        }
    }
    Some(place)
}

pub(crate) fn first_greatest(xs: &[i64]) -> Option<usize>
    ensures { result ≡ first_greatest xs.now }
{
    if xs.is_empty() {
        return None;
    }
    let mut place = 0;
    let mut greatest = xs[0];
    for i in 0..xs.len() {
        if xs[i] > greatest {
            place = i;
            greatest = xs[i];
        }
    }
    Some(place)
}
