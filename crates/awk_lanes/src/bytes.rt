//! Numbers in bytes: the functions here see slices alone.
ghost use Rattle.std.specs.Prelude.{◌≡◌, ◌+◌, ◌*◌, ◌≤◌, length, slice_range, drop};
ghost use Rattle.awk_lanes.specs.Numbers.{width, number, element, int_of, IsOf};
ghost use Rattle.awk_lanes.specs.declared.kind.Kind.TheVariants as Kinds;

use crate::kind::{Kind, Num};

/// The number of 64 bits that the first bytes are.
#[inline(always)]
fn wide(b: &[u8]) -> i64
    requires { 8 ≤ length b.now }
    ensures { result ≡ element Kinds.I64 (number Kinds.I64 b.now) }
{
    i64::from_le_bytes([b[0], b[1], b[2], b[3], b[4], b[5], b[6], b[7]])
}

/// The number that the first bytes are.
fn read(kind: Kind, b: &[u8]) -> Num
    requires { width kind ≤ length b.now }
    ensures number { int_of result ≡ element kind (number kind b.now) }
    ensures kind { IsOf kind result }
{
    match kind {
        Kind::Bool => Num::Truth(b[0] != 0),
        Kind::I8 => Num::Int(i8::from_le_bytes([b[0]]) as i64),
        Kind::I16 => Num::Int(i16::from_le_bytes([b[0], b[1]]) as i64),
        Kind::I32 => Num::Int(i32::from_le_bytes([b[0], b[1], b[2], b[3]]) as i64),
        Kind::I64 => Num::Int(wide(b)),
        Kind::U8 => Num::Nat(b[0] as u64),
        Kind::U16 => Num::Nat(u16::from_le_bytes([b[0], b[1]]) as u64),
        Kind::U32 => Num::Nat(u32::from_le_bytes([b[0], b[1], b[2], b[3]]) as u64),
        Kind::U64 => Num::Nat(u64::from_le_bytes([b[0], b[1], b[2], b[3], b[4], b[5], b[6], b[7]])),
    }
}

/// The number at place i. Most are of i64, so that kind is asked for first.
#[inline(always)]
pub fn item(kind: Kind, bytes: &[u8], i: usize) -> Num
    requires { i * width kind + width kind ≤ length bytes.now }
    ensures number { int_of result ≡ element kind (number kind (drop (i * width kind) bytes.now)) }
    ensures kind { IsOf kind result }
{
    match kind {
        Kind::I64 => Num::Int(wide(&bytes[i * 8..])),
        _ => read(kind, &bytes[i * kind.width()..]),
    }
}

/// The number of 64 bits at place i.
#[inline(always)]
pub fn wide_item(bytes: &[u8], i: usize) -> i64
    requires { i * 8 + 8 ≤ length bytes.now }
    ensures { result ≡ element Kinds.I64 (number Kinds.I64 (drop (i * 8) bytes.now)) }
{
    match item(Kind::I64, bytes, i) {
        Num::Int(z) => z,
        Num::Nat(_) | Num::Truth(_) => unreachable!(),
    }
}

/// The bytes of the numbers from place lo below place hi.
pub fn part<'b>(kind: Kind, bytes: &'b [u8], lo: usize, hi: usize) -> &'b [u8]
    requires order { lo ≤ hi }
    requires within { hi * width kind ≤ length bytes.now }
    ensures { result.now ≡ slice_range bytes.now (lo * width kind) (hi * width kind) }
{
    let width = kind.width();
    &bytes[lo * width..hi * width]
}
