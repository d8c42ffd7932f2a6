//! Numbers as code holds those of a kind.
ghost use Rattle.std.specs.Prelude.{◌≡◌};
ghost use Rattle.awk_lanes.specs.Numbers.{int_of, IsOf};
ghost use Rattle.awk_parts.specs.Elements.{IsElement};

use awk_lanes::{Kind, Num};

/// A number as code holds those of a kind, of which it is one.
#[inline(always)]
pub fn number_in(kind: Kind, z: i128) -> Num
    requires { IsElement kind z }
    ensures number { int_of result ≡ z }
    ensures kind { IsOf kind result }
{
    match kind {
        Kind::Bool => Num::Truth(z != 0),
        Kind::I8 | Kind::I16 | Kind::I32 | Kind::I64 => Num::Int(z as i64),
        Kind::U8 | Kind::U16 | Kind::U32 | Kind::U64 => Num::Nat(z as u64),
    }
}
