//! Primitives of 8 and 16 bits, and their numbers as they lie in a lane.
ghost use Rattle.std.specs.Prelude.{◌≡◌, ◌≤◌, unsigned_abs, true, IsTrue};
ghost use Rattle.awk_types.specs.Has.{Holds};
ghost use Rattle.awk_primitives.specs.Promotion.{is_whole};
ghost use Rattle.awk_lanes.specs.Numbers.{number as number_of, int_of, IsOf};
ghost use Rattle.awk_layout.specs.Kinds.{kind_of};

use awk_lanes::{Kind, Num};

/// A primitive whose numbers lie in W bytes, the least significant first.
pub(crate) trait Narrow<const W: usize> {
    ghost use Rattle.awk_types.specs.declared.primitive.Primitive.{Primitive};

    ghost prim: { Primitive };

    /// The kind of its lanes. Its numbers are whole.
    fn kind() -> Kind
        ensures kind { result ≡ kind_of prim }
        ensures whole { is_whole prim ≡ true };

    /// The number of these bytes.
    fn number(bytes: &[u8; W]) -> i32
        ensures value { result ≡ number_of (kind_of prim) bytes.now }
        ensures near { unsigned_abs result ≤ 65535 };

    /// Whether it holds a number.
    fn holds(z: i64) -> bool
        ensures { IsTrue result → Holds prim z };

    /// A number as it lies in a lane.
    fn num(z: i64) -> Num
        requires { Holds prim z }
        ensures number { int_of result ≡ z }
        ensures kind { IsOf (kind_of prim) result };
}

impl Narrow<1> for i8 {
    ghost use Rattle.awk_types.specs.declared.primitive.Primitive.TheVariants as prims;

    ghost prim = { prims.I8 };

    #[inline(always)]
    fn kind() -> Kind {
        Kind::I8
    }

    #[inline(always)]
    fn number(bytes: &[u8; 1]) -> i32 {
        i32::from(i8::from_le_bytes(*bytes))
    }

    #[inline(always)]
    fn holds(z: i64) -> bool {
        -0x80 <= z && z <= 0x7f
    }

    #[inline(always)]
    fn num(z: i64) -> Num {
        Num::Int(z)
    }
}

impl Narrow<2> for i16 {
    ghost use Rattle.awk_types.specs.declared.primitive.Primitive.TheVariants as prims;

    ghost prim = { prims.I16 };

    #[inline(always)]
    fn kind() -> Kind {
        Kind::I16
    }

    #[inline(always)]
    fn number(bytes: &[u8; 2]) -> i32 {
        i32::from(i16::from_le_bytes(*bytes))
    }

    #[inline(always)]
    fn holds(z: i64) -> bool {
        -0x8000 <= z && z <= 0x7fff
    }

    #[inline(always)]
    fn num(z: i64) -> Num {
        Num::Int(z)
    }
}

impl Narrow<1> for u8 {
    ghost use Rattle.awk_types.specs.declared.primitive.Primitive.TheVariants as prims;

    ghost prim = { prims.U8 };

    #[inline(always)]
    fn kind() -> Kind {
        Kind::U8
    }

    #[inline(always)]
    fn number(bytes: &[u8; 1]) -> i32 {
        i32::from(bytes[0])
    }

    #[inline(always)]
    fn holds(z: i64) -> bool {
        0 <= z && z <= 0xff
    }

    #[inline(always)]
    fn num(z: i64) -> Num {
        Num::Nat(z as u64)
    }
}

impl Narrow<2> for u16 {
    ghost use Rattle.awk_types.specs.declared.primitive.Primitive.TheVariants as prims;

    ghost prim = { prims.U16 };

    #[inline(always)]
    fn kind() -> Kind {
        Kind::U16
    }

    #[inline(always)]
    fn number(bytes: &[u8; 2]) -> i32 {
        i32::from(u16::from_le_bytes(*bytes))
    }

    #[inline(always)]
    fn holds(z: i64) -> bool {
        0 <= z && z <= 0xffff
    }

    #[inline(always)]
    fn num(z: i64) -> Num {
        Num::Nat(z as u64)
    }
}
