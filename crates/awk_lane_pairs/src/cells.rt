//! Numbers of each kind that fits an i64, as they lie in a lane.
ghost use Rattle.std.specs.Prelude.{◌≡◌};
ghost use Rattle.awk_lanes.specs.Numbers.{number as number_of};

/// A number of W bytes, the least significant first, that fits an i64.
pub(crate) trait Cell<const W: usize> {
    ghost use Rattle.awk_lanes.specs.declared.kind.Kind.{Kind};

    ghost kind: { Kind };

    /// The number of these bytes.
    fn number(bytes: &[u8; W]) -> i64
        ensures { result ≡ number_of kind bytes.now };
}

impl Cell<1> for i8 {
    ghost use Rattle.awk_lanes.specs.declared.kind.Kind.TheVariants as Kind;

    ghost kind = { Kind.I8 };

    #[inline(always)]
    fn number(bytes: &[u8; 1]) -> i64 {
        i64::from(i8::from_le_bytes(*bytes))
    }
}

impl Cell<2> for i16 {
    ghost use Rattle.awk_lanes.specs.declared.kind.Kind.TheVariants as Kind;

    ghost kind = { Kind.I16 };

    #[inline(always)]
    fn number(bytes: &[u8; 2]) -> i64 {
        i64::from(i16::from_le_bytes(*bytes))
    }
}

impl Cell<4> for i32 {
    ghost use Rattle.awk_lanes.specs.declared.kind.Kind.TheVariants as Kind;

    ghost kind = { Kind.I32 };

    #[inline(always)]
    fn number(bytes: &[u8; 4]) -> i64 {
        i64::from(i32::from_le_bytes(*bytes))
    }
}

impl Cell<8> for i64 {
    ghost use Rattle.awk_lanes.specs.declared.kind.Kind.TheVariants as Kind;

    ghost kind = { Kind.I64 };

    #[inline(always)]
    fn number(bytes: &[u8; 8]) -> i64 {
        i64::from_le_bytes(*bytes)
    }
}

impl Cell<1> for u8 {
    ghost use Rattle.awk_lanes.specs.declared.kind.Kind.TheVariants as Kind;

    ghost kind = { Kind.U8 };

    #[inline(always)]
    fn number(bytes: &[u8; 1]) -> i64 {
        i64::from(bytes[0])
    }
}

impl Cell<2> for u16 {
    ghost use Rattle.awk_lanes.specs.declared.kind.Kind.TheVariants as Kind;

    ghost kind = { Kind.U16 };

    #[inline(always)]
    fn number(bytes: &[u8; 2]) -> i64 {
        i64::from(u16::from_le_bytes(*bytes))
    }
}

impl Cell<4> for u32 {
    ghost use Rattle.awk_lanes.specs.declared.kind.Kind.TheVariants as Kind;

    ghost kind = { Kind.U32 };

    #[inline(always)]
    fn number(bytes: &[u8; 4]) -> i64 {
        i64::from(u32::from_le_bytes(*bytes))
    }
}
