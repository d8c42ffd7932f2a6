//! Numbers whose most significant byte comes first, turned round.
ghost use Rattle.std.specs.Prelude.{◌≡◌, ◌<◌, ◌≤◌, ◌/◌, ◌%◌, ◌*◌, length, map, reverse, IfOk};
ghost use Rattle.std.specs.List.{flat_map};
ghost use Rattle.std.specs.Simd.{first_chunks};
ghost use Rattle.awk_lanes.specs.Numbers.{width, numbers};
ghost use Rattle.awk_valid.specs.Container.{big_numbers};

use awk_lanes::{Arena, Kind, NoMemory};
use bumpalo::collections::into_bump_slice;

/// The same bytes, the last first.
fn turned_group<const W: usize>(group: [u8; W]) -> [u8; W]
    ensures { result ≡ reverse group.entry }
{
    let mut turned = group;
    turned.reverse();
    turned
}

/// Each group with its last byte first.
fn turned_groups<'a, const W: usize>(
    groups: &[[u8; W]],
    arena: &'a Arena,
) -> Result<&'a [[u8; W]], NoMemory>
    requires fits { W ≤ 8 }
    ensures { IfOk result (λ r. r.now ≡ map reverse groups.now) }
{
    let mut turned = Vec::with_capacity(arena, groups.len())?;
    for i in 0..groups.len() {
        turned.push_reserved(turned_group::<W>(groups[i]));
    }
    Ok(into_bump_slice(turned))
}

/// The groups of W bytes, each with its last byte first.
fn turned_bytes<'a, const W: usize>(bytes: &[u8], arena: &'a Arena) -> Result<&'a [u8], NoMemory>
    requires some { 0 < W }
    requires fits { W ≤ 8 }
    ensures bytes { IfOk result (λ r. r.now ≡
        flat_map reverse (first_chunks W (length bytes.now / W) bytes.now)) }
    ensures size { IfOk result (λ r. length r.now ≡ length bytes.now / W * W) }
{
    let (groups, _) = bytes.as_chunks::<W>();
    let turned = turned_groups::<W>(groups, arena)?;
    Ok(turned.as_flattened())
}

/// Numbers of W bytes, least significant byte first.
fn turned_numbers<'a, const W: usize>(
    bytes: &[u8],
    kind: Kind,
    arena: &'a Arena,
) -> Result<&'a [u8], NoMemory>
    requires wide { width kind ≡ W }
    requires fits { W ≤ 8 }
    ensures numbers { let n = length bytes.now / width kind in
        IfOk result (λ r. numbers kind n r.now ≡ big_numbers kind n bytes.now) }
    ensures size { IfOk result (λ r. length r.now ≡ length bytes.now / W * W) }
{
    let turned = turned_bytes::<W>(bytes, arena)?;
    Ok(turned)
}

/// Numbers of one byte, which have no order.
fn whole_bytes(bytes: &[u8], kind: Kind) -> &[u8]
    requires { width kind ≡ 1 }
    ensures numbers { let n = length bytes.now / width kind in
        numbers kind n result.now ≡ big_numbers kind n bytes.now }
    ensures size { length result.now ≡ length bytes.now }
{
    bytes
}

/// The bytes of numbers whose most significant byte comes first, least significant byte first, in
/// the arena.
pub(crate) fn turned_into<'a>(
    bytes: &[u8],
    kind: Kind,
    arena: &'a Arena,
) -> Result<&'a [u8], NoMemory>
    requires { length bytes.now % width kind ≡ 0 }
    ensures numbers { let n = length bytes.now / width kind in
        IfOk result (λ r. numbers kind n r.now ≡ big_numbers kind n bytes.now) }
    ensures size { IfOk result (λ r. length r.now ≡ length bytes.now) }
{
    match kind {
        Kind::Bool | Kind::I8 | Kind::U8 => {
            Ok(arena.try_alloc_slice_copy(whole_bytes(bytes, kind))?)
        }
        Kind::I16 | Kind::U16 => turned_numbers::<2>(bytes, kind, arena),
        Kind::I32 | Kind::U32 => turned_numbers::<4>(bytes, kind, arena),
        Kind::I64 | Kind::U64 => turned_numbers::<8>(bytes, kind, arena),
    }
}

/// The same of bytes that lie in the arena. Numbers of one byte are left where they are.
pub(crate) fn turned<'a>(
    bytes: &'a [u8],
    kind: Kind,
    arena: &'a Arena,
) -> Result<&'a [u8], NoMemory>
    requires { length bytes.now % width kind ≡ 0 }
    ensures numbers { let n = length bytes.now / width kind in
        IfOk result (λ r. numbers kind n r.now ≡ big_numbers kind n bytes.now) }
    ensures size { IfOk result (λ r. length r.now ≡ length bytes.now) }
{
    if kind.width() == 1 {
        return Ok(whole_bytes(bytes, kind));
    }
    turned_into(bytes, kind, arena)
}
