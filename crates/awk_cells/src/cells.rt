//! How numbers that fit an i64 lie in the bytes of a lane.
ghost use Rattle.std.specs.Prelude.{◌≡◌, ◌≤◌, true, unsigned_abs, FitsSigned};
ghost use Rattle.std.specs.Int.{w32};
ghost use Rattle.awk_lanes.specs.Numbers.{element, number as number_of};

/// A number of W bytes, the least significant first, that fits an i64; a truth value is 0 or 1.
pub trait Cell<const W: usize> {
    ghost use Rattle.std.specs.Prelude.{ℕ, ℤ, List, Bool};
    ghost use Rattle.awk_lanes.specs.declared.kind.Kind.{Kind};

    /// The kind of lanes that hold such numbers.
    ghost kind: { Kind };

    /// The number of a group of bytes.
    ghost number: { List ℕ → ℤ };

    /// How far from 0 a number may lie.
    ghost reach: { ℕ };

    /// Whether each number fits an i32.
    ghost is_short: { Bool };

    /// The number of these bytes.
    fn number(bytes: &[u8; W]) -> i64
        ensures number { result ≡ number bytes.now }
        ensures element { result ≡ element kind (number_of kind bytes.now) }
        ensures near { unsigned_abs result ≤ reach }
        ensures short { is_short ≡ true → FitsSigned w32 result };
}

impl Cell<1> for bool {
    ghost use Rattle.std.specs.Prelude.{true};
    ghost use Rattle.awk_lanes.specs.Numbers.{element, number as number_of};
    ghost use Rattle.awk_lanes.specs.declared.kind.Kind.TheVariants as Kind;

    ghost kind = { Kind.Bool };

    ghost number = { λ b. element Kind.Bool (number_of Kind.Bool b) };

    ghost reach = { 1 };

    ghost is_short = { true };

    #[inline(always)]
    fn number(bytes: &[u8; 1]) -> i64 {
        if bytes[0] == 0 { 0 } else { 1 }
    }
}

impl Cell<1> for i8 {
    ghost use Rattle.std.specs.Prelude.{true};
    ghost use Rattle.awk_lanes.specs.Numbers.{number as number_of};
    ghost use Rattle.awk_lanes.specs.declared.kind.Kind.TheVariants as Kind;

    ghost kind = { Kind.I8 };

    ghost number = { number_of Kind.I8 };

    ghost reach = { 128 };

    ghost is_short = { true };

    #[inline(always)]
    fn number(bytes: &[u8; 1]) -> i64 {
        i64::from(i8::from_le_bytes(*bytes))
    }
}

impl Cell<2> for i16 {
    ghost use Rattle.std.specs.Prelude.{true};
    ghost use Rattle.awk_lanes.specs.Numbers.{number as number_of};
    ghost use Rattle.awk_lanes.specs.declared.kind.Kind.TheVariants as Kind;

    ghost kind = { Kind.I16 };

    ghost number = { number_of Kind.I16 };

    ghost reach = { 32768 };

    ghost is_short = { true };

    #[inline(always)]
    fn number(bytes: &[u8; 2]) -> i64 {
        i64::from(i16::from_le_bytes(*bytes))
    }
}

impl Cell<4> for i32 {
    ghost use Rattle.std.specs.Prelude.{true};
    ghost use Rattle.awk_lanes.specs.Numbers.{number as number_of};
    ghost use Rattle.awk_lanes.specs.declared.kind.Kind.TheVariants as Kind;

    ghost kind = { Kind.I32 };

    ghost number = { number_of Kind.I32 };

    ghost reach = { 2147483648 };

    ghost is_short = { true };

    #[inline(always)]
    fn number(bytes: &[u8; 4]) -> i64 {
        i64::from(i32::from_le_bytes(*bytes))
    }
}

impl Cell<8> for i64 {
    ghost use Rattle.std.specs.Prelude.{false};
    ghost use Rattle.awk_lanes.specs.Numbers.{number as number_of};
    ghost use Rattle.awk_lanes.specs.declared.kind.Kind.TheVariants as Kind;

    ghost kind = { Kind.I64 };

    ghost number = { number_of Kind.I64 };

    ghost reach = { 9223372036854775808 };

    ghost is_short = { false };

    #[inline(always)]
    fn number(bytes: &[u8; 8]) -> i64 {
        i64::from_le_bytes(*bytes)
    }
}

impl Cell<1> for u8 {
    ghost use Rattle.std.specs.Prelude.{true};
    ghost use Rattle.awk_lanes.specs.Numbers.{number as number_of};
    ghost use Rattle.awk_lanes.specs.declared.kind.Kind.TheVariants as Kind;

    ghost kind = { Kind.U8 };

    ghost number = { number_of Kind.U8 };

    ghost reach = { 255 };

    ghost is_short = { true };

    #[inline(always)]
    fn number(bytes: &[u8; 1]) -> i64 {
        i64::from(bytes[0])
    }
}

impl Cell<2> for u16 {
    ghost use Rattle.std.specs.Prelude.{true};
    ghost use Rattle.awk_lanes.specs.Numbers.{number as number_of};
    ghost use Rattle.awk_lanes.specs.declared.kind.Kind.TheVariants as Kind;

    ghost kind = { Kind.U16 };

    ghost number = { number_of Kind.U16 };

    ghost reach = { 65535 };

    ghost is_short = { true };

    #[inline(always)]
    fn number(bytes: &[u8; 2]) -> i64 {
        i64::from(u16::from_le_bytes(*bytes))
    }
}

impl Cell<4> for u32 {
    ghost use Rattle.std.specs.Prelude.{false};
    ghost use Rattle.awk_lanes.specs.Numbers.{number as number_of};
    ghost use Rattle.awk_lanes.specs.declared.kind.Kind.TheVariants as Kind;

    ghost kind = { Kind.U32 };

    ghost number = { number_of Kind.U32 };

    ghost reach = { 4294967295 };

    ghost is_short = { false };

    #[inline(always)]
    fn number(bytes: &[u8; 4]) -> i64 {
        i64::from(u32::from_le_bytes(*bytes))
    }
}
