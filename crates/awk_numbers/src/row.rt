//! How numbers lie in the bytes of a lane.
ghost use Rattle.std.specs.Prelude.{◌≡◌, ◌<◌, pos, get_or, length, unsigned_abs};

use std::marker::PhantomData;

/// A number of W bytes, the least significant first; a truth value is 0 or 1.
pub(crate) trait Cell<const W: usize> {
    ghost use Rattle.std.specs.Prelude.{ℕ, ℤ, List};

    /// The number of a group of bytes.
    ghost number: { List ℕ → ℤ };

    /// The number of these bytes.
    fn number(bytes: &[u8; W]) -> i128
        ensures number { result ≡ number bytes.now }
        ensures near { unsigned_abs result < 18446744073709551616 };
}

impl Cell<1> for bool {
    ghost use Rattle.awk_lanes.specs.Numbers.{element, number as number_of};
    ghost use Rattle.awk_lanes.specs.declared.kind.Kind.TheVariants as Kind;

    ghost number = { λ b. element Kind.Bool (number_of Kind.Bool b) };

    #[inline(always)]
    fn number(bytes: &[u8; 1]) -> i128 {
        if bytes[0] == 0 { 0 } else { 1 }
    }
}

impl Cell<1> for i8 {
    ghost use Rattle.awk_lanes.specs.Numbers.{number as number_of};
    ghost use Rattle.awk_lanes.specs.declared.kind.Kind.TheVariants as Kind;

    ghost number = { number_of Kind.I8 };

    #[inline(always)]
    fn number(bytes: &[u8; 1]) -> i128 {
        i128::from(i8::from_le_bytes(*bytes))
    }
}

impl Cell<2> for i16 {
    ghost use Rattle.awk_lanes.specs.Numbers.{number as number_of};
    ghost use Rattle.awk_lanes.specs.declared.kind.Kind.TheVariants as Kind;

    ghost number = { number_of Kind.I16 };

    #[inline(always)]
    fn number(bytes: &[u8; 2]) -> i128 {
        i128::from(i16::from_le_bytes(*bytes))
    }
}

impl Cell<4> for i32 {
    ghost use Rattle.awk_lanes.specs.Numbers.{number as number_of};
    ghost use Rattle.awk_lanes.specs.declared.kind.Kind.TheVariants as Kind;

    ghost number = { number_of Kind.I32 };

    #[inline(always)]
    fn number(bytes: &[u8; 4]) -> i128 {
        i128::from(i32::from_le_bytes(*bytes))
    }
}

impl Cell<8> for i64 {
    ghost use Rattle.awk_lanes.specs.Numbers.{number as number_of};
    ghost use Rattle.awk_lanes.specs.declared.kind.Kind.TheVariants as Kind;

    ghost number = { number_of Kind.I64 };

    #[inline(always)]
    fn number(bytes: &[u8; 8]) -> i128 {
        i128::from(i64::from_le_bytes(*bytes))
    }
}

impl Cell<1> for u8 {
    ghost use Rattle.awk_lanes.specs.Numbers.{number as number_of};
    ghost use Rattle.awk_lanes.specs.declared.kind.Kind.TheVariants as Kind;

    ghost number = { number_of Kind.U8 };

    #[inline(always)]
    fn number(bytes: &[u8; 1]) -> i128 {
        i128::from(bytes[0])
    }
}

impl Cell<2> for u16 {
    ghost use Rattle.awk_lanes.specs.Numbers.{number as number_of};
    ghost use Rattle.awk_lanes.specs.declared.kind.Kind.TheVariants as Kind;

    ghost number = { number_of Kind.U16 };

    #[inline(always)]
    fn number(bytes: &[u8; 2]) -> i128 {
        i128::from(u16::from_le_bytes(*bytes))
    }
}

impl Cell<4> for u32 {
    ghost use Rattle.awk_lanes.specs.Numbers.{number as number_of};
    ghost use Rattle.awk_lanes.specs.declared.kind.Kind.TheVariants as Kind;

    ghost number = { number_of Kind.U32 };

    #[inline(always)]
    fn number(bytes: &[u8; 4]) -> i128 {
        i128::from(u32::from_le_bytes(*bytes))
    }
}

impl Cell<8> for u64 {
    ghost use Rattle.awk_lanes.specs.Numbers.{number as number_of};
    ghost use Rattle.awk_lanes.specs.declared.kind.Kind.TheVariants as Kind;

    ghost number = { number_of Kind.U64 };

    #[inline(always)]
    fn number(bytes: &[u8; 8]) -> i128 {
        i128::from(u64::from_le_bytes(*bytes))
    }
}

/// Numbers one after another.
pub(crate) trait Row {
    ghost use Rattle.std.specs.Prelude.{ℤ, List};

    ghost numbers: { Self → List ℤ };

    /// How many there are.
    fn len(&self) -> usize
        ensures { result ≡ length (numbers self.now) };

    /// The number at place i.
    fn at(&self, i: usize) -> i128
        requires { i < length (numbers self.now) }
        ensures number { result ≡ get_or (numbers self.now) i (pos 0) }
        ensures near { unsigned_abs result < 18446744073709551616 };
}

/// Numbers of one kind where they lie.
#[derive(Clone, Copy)]
pub(crate) struct Cells<'a, const W: usize, C: Cell<W>> {
    groups: &'a [[u8; W]],
    kind: PhantomData<C>,
}

impl<'a, const W: usize, C: Cell<W>> Cells<'a, W, C> {
    #[inline(always)]
    pub(crate) fn new(groups: &'a [[u8; W]]) -> Cells<'a, W, C>
        ensures { result.groups.now ≡ groups.now }
    {
        Cells {
            groups,
            kind: PhantomData,
        }
    }
}

impl<'a, const W: usize, C: Cell<W>> Row for Cells<'a, W, C> {
    ghost use Rattle.std.specs.Prelude.{map};

    ghost numbers = { λ row. map C.number row.groups.now };

    #[inline(always)]
    fn len(&self) -> usize {
        self.groups.len()
    }

    #[inline(always)]
    fn at(&self, i: usize) -> i128 {
        C::number(&self.groups[i])
    }
}
