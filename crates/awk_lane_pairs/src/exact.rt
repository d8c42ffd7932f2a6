//! Sums, differences and products of two numbers of at most 16 bits.
ghost use Rattle.std.specs.Prelude.{◌≡◌, ◌≤◌, unsigned_abs, false};
ghost use Rattle.awk_kernels.specs.Operations.{exact, divides};

/// An operation that has a result of each two numbers.
pub(crate) trait Exact {
    ghost use Rattle.awk_kernels.specs.declared.operation.Arith.{Arith};

    ghost op: { Arith };

    /// The result.
    fn of(x: i32, y: i32) -> i64
        requires first { unsigned_abs x ≤ 65535 }
        requires second { unsigned_abs y ≤ 65535 }
        ensures value { result ≡ exact op x y }
        ensures undivided { divides op ≡ false };
}

pub(crate) struct Sum;

impl Exact for Sum {
    ghost use Rattle.awk_kernels.specs.declared.operation.Arith.TheVariants.{Add};

    ghost op = { Add };

    #[inline(always)]
    fn of(x: i32, y: i32) -> i64 {
        i64::from(x + y)
    }
}

pub(crate) struct Difference;

impl Exact for Difference {
    ghost use Rattle.awk_kernels.specs.declared.operation.Arith.TheVariants.{Sub};

    ghost op = { Sub };

    #[inline(always)]
    fn of(x: i32, y: i32) -> i64 {
        i64::from(x - y)
    }
}

pub(crate) struct Product;

impl Exact for Product {
    ghost use Rattle.awk_kernels.specs.declared.operation.Arith.TheVariants.{Mul};

    ghost op = { Mul };

    #[inline(always)]
    fn of(x: i32, y: i32) -> i64 {
        i64::from(x) * i64::from(y)
    }
}
