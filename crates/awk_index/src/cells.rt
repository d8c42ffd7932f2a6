//! Numbers of a lane's bytes, each in eight bytes.
ghost use Rattle.std.specs.Prelude.{◌≡◌, map, IfOk};

use awk_lanes::NoMemory;
use std::alloc::Global;

/// A number of W bytes, the least significant first, that fits an i64.
pub(crate) trait Cell<const W: usize> {
    ghost use Rattle.std.specs.Prelude.{ℕ, ℤ, List};

    /// The number of a group of bytes.
    ghost number: { List ℕ → ℤ };

    /// The number of these bytes.
    fn number(bytes: &[u8; W]) -> i64
        ensures { result ≡ number bytes.now };
}

/// A number of W bytes, the least significant first, that is not negative.
pub(crate) trait Natural<const W: usize> {
    ghost use Rattle.std.specs.Prelude.{ℕ, List};

    /// The number of a group of bytes.
    ghost number: { List ℕ → ℕ };

    /// The number of these bytes.
    fn number(bytes: &[u8; W]) -> u64
        ensures { result ≡ number bytes.now };
}

impl Cell<1> for i8 {
    ghost use Rattle.awk_lanes.specs.Numbers.{number as number_of};
    ghost use Rattle.awk_lanes.specs.declared.kind.Kind.TheVariants as Kind;

    ghost number = { number_of Kind.I8 };

    #[inline(always)]
    fn number(bytes: &[u8; 1]) -> i64 {
        i64::from(i8::from_le_bytes(*bytes))
    }
}

impl Cell<2> for i16 {
    ghost use Rattle.awk_lanes.specs.Numbers.{number as number_of};
    ghost use Rattle.awk_lanes.specs.declared.kind.Kind.TheVariants as Kind;

    ghost number = { number_of Kind.I16 };

    #[inline(always)]
    fn number(bytes: &[u8; 2]) -> i64 {
        i64::from(i16::from_le_bytes(*bytes))
    }
}

impl Cell<4> for i32 {
    ghost use Rattle.awk_lanes.specs.Numbers.{number as number_of};
    ghost use Rattle.awk_lanes.specs.declared.kind.Kind.TheVariants as Kind;

    ghost number = { number_of Kind.I32 };

    #[inline(always)]
    fn number(bytes: &[u8; 4]) -> i64 {
        i64::from(i32::from_le_bytes(*bytes))
    }
}

impl Cell<8> for i64 {
    ghost use Rattle.awk_lanes.specs.Numbers.{number as number_of};
    ghost use Rattle.awk_lanes.specs.declared.kind.Kind.TheVariants as Kind;

    ghost number = { number_of Kind.I64 };

    #[inline(always)]
    fn number(bytes: &[u8; 8]) -> i64 {
        i64::from_le_bytes(*bytes)
    }
}

impl Cell<1> for u8 {
    ghost use Rattle.awk_lanes.specs.Numbers.{number as number_of};
    ghost use Rattle.awk_lanes.specs.declared.kind.Kind.TheVariants as Kind;

    ghost number = { number_of Kind.U8 };

    #[inline(always)]
    fn number(bytes: &[u8; 1]) -> i64 {
        i64::from(bytes[0])
    }
}

impl Cell<2> for u16 {
    ghost use Rattle.awk_lanes.specs.Numbers.{number as number_of};
    ghost use Rattle.awk_lanes.specs.declared.kind.Kind.TheVariants as Kind;

    ghost number = { number_of Kind.U16 };

    #[inline(always)]
    fn number(bytes: &[u8; 2]) -> i64 {
        i64::from(u16::from_le_bytes(*bytes))
    }
}

impl Cell<4> for u32 {
    ghost use Rattle.awk_lanes.specs.Numbers.{number as number_of};
    ghost use Rattle.awk_lanes.specs.declared.kind.Kind.TheVariants as Kind;

    ghost number = { number_of Kind.U32 };

    #[inline(always)]
    fn number(bytes: &[u8; 4]) -> i64 {
        i64::from(u32::from_le_bytes(*bytes))
    }
}

impl Natural<1> for u8 {
    ghost use Rattle.awk_lanes.specs.Words.{unsigned};
    ghost use Rattle.awk_lanes.specs.declared.kind.Kind.TheVariants as Kind;

    ghost number = { unsigned Kind.U8 };

    #[inline(always)]
    fn number(bytes: &[u8; 1]) -> u64 {
        u64::from(bytes[0])
    }
}

impl Natural<2> for u16 {
    ghost use Rattle.awk_lanes.specs.Words.{unsigned};
    ghost use Rattle.awk_lanes.specs.declared.kind.Kind.TheVariants as Kind;

    ghost number = { unsigned Kind.U16 };

    #[inline(always)]
    fn number(bytes: &[u8; 2]) -> u64 {
        u64::from(u16::from_le_bytes(*bytes))
    }
}

impl Natural<4> for u32 {
    ghost use Rattle.awk_lanes.specs.Words.{unsigned};
    ghost use Rattle.awk_lanes.specs.declared.kind.Kind.TheVariants as Kind;

    ghost number = { unsigned Kind.U32 };

    #[inline(always)]
    fn number(bytes: &[u8; 4]) -> u64 {
        u64::from(u32::from_le_bytes(*bytes))
    }
}

impl Natural<8> for u64 {
    ghost use Rattle.awk_lanes.specs.Words.{unsigned};
    ghost use Rattle.awk_lanes.specs.declared.kind.Kind.TheVariants as Kind;

    ghost number = { unsigned Kind.U64 };

    #[inline(always)]
    fn number(bytes: &[u8; 8]) -> u64 {
        u64::from_le_bytes(*bytes)
    }
}

/// The number of each group. All their memory is taken before the first.
pub(crate) fn widened<const W: usize, C: Cell<W>>(
    alloc: Global,
    groups: &[[u8; W]],
) -> Result<Vec<i64>, NoMemory>
    ensures { IfOk result (λ v. v.items ≡ map C.number groups.now) }
{
    let mut numbers = Vec::with_capacity(alloc, groups.len())?;
    for i in 0..groups.len() {
        numbers.push_reserved(C::number(&groups[i]));
    }
    Ok(numbers)
}

/// The number of each group, none of which is negative. All their memory is taken before the first.
pub(crate) fn naturals<const W: usize, C: Natural<W>>(
    alloc: Global,
    groups: &[[u8; W]],
) -> Result<Vec<u64>, NoMemory>
    ensures { IfOk result (λ v. v.items ≡ map C.number groups.now) }
{
    let mut numbers = Vec::with_capacity(alloc, groups.len())?;
    for i in 0..groups.len() {
        numbers.push_reserved(C::number(&groups[i]));
    }
    Ok(numbers)
}
