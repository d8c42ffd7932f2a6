//! Lanes made of all numbers of a slice at once.
ghost use Rattle.std.specs.Prelude.{◌≡◌, ◌<◌, ◌≤◌, ◌*◌, length, map, take, IfOk};
ghost use Rattle.std.specs.Int.{to_le_bytes, w64};
ghost use Rattle.std.specs.List.{flat_map};
ghost use Rattle.awk_lanes.specs.Numbers.{width, numbers};
ghost use Rattle.awk_lanes.specs.Ranges.{AreNumbers};
ghost use Rattle.awk_lanes.specs.Words.{integers, column, low_bytes};

use crate::kind::{Kind, Num};
use crate::lane::Lane;
use crate::memory::{Arena, NoMemory};
use bumpalo::collections::into_bump_slice;

/// A number of eight bytes.
pub(crate) trait Word {
    ghost use Rattle.std.specs.Prelude.{ℕ};

    /// The number that its bytes are, unsigned.
    ghost word: { Self → ℕ };

    /// Its bytes, the lowest first.
    fn bytes(&self) -> [u8; 8]
        ensures { result ≡ to_le_bytes w64 (word self.now) };
}

impl Word for i64 {
    ghost use Rattle.std.specs.Int.{cast_unsigned, w64};

    ghost word = { cast_unsigned w64 };

    fn bytes(&self) -> [u8; 8] {
        self.to_le_bytes()
    }
}

impl Word for u64 {
    ghost word = { λ n. n };

    fn bytes(&self) -> [u8; 8] {
        self.to_le_bytes()
    }
}

impl Word for Num {
    ghost use Rattle.std.specs.Int.{cast_unsigned, w64};
    ghost use Rattle.awk_lanes.specs.Numbers.{int_of};

    ghost word = { λ x. cast_unsigned w64 (int_of x) };

    fn bytes(&self) -> [u8; 8] {
        match self {
            Num::Int(z) => z.to_le_bytes(),
            Num::Nat(n) => n.to_le_bytes(),
            Num::Truth(b) => (*b as u64).to_le_bytes(),
        }
    }
}

/// The first W bytes of eight.
pub(crate) fn first_bytes<const W: usize>(bytes: [u8; 8]) -> [u8; W]
    requires some { 0 < W }
    requires fits { W ≤ 8 }
    ensures { result ≡ take W bytes }
{
    let (groups, _) = bytes.as_chunks::<W>();
    groups[0]
}

/// The lowest W bytes of each number.
fn groups_of<'a, const W: usize, X: Word>(
    words: &[X],
    arena: &'a Arena,
) -> Result<&'a [[u8; W]], NoMemory>
    requires some { 0 < W }
    requires fits { W ≤ 8 }
    ensures { IfOk result (λ r. r.now ≡ map (λ x. low_bytes W (X.word x)) words.now) }
{
    let mut groups = Vec::with_capacity(arena, words.len())?;
    for i in 0..words.len() {
        groups.push_reserved(first_bytes::<W>(words[i].bytes()));
    }
    Ok(into_bump_slice(groups))
}

/// The lowest W bytes of each number, one number after another.
fn flat_bytes<'a, const W: usize, X: Word>(
    words: &[X],
    arena: &'a Arena,
) -> Result<&'a [u8], NoMemory>
    requires some { 0 < W }
    requires fits { W ≤ 8 }
    ensures bytes { IfOk result (λ r.
        r.now ≡ flat_map (λ x. low_bytes W (X.word x)) words.now) }
    ensures size { IfOk result (λ r. length r.now ≡ length words.now * W) }
{
    let groups = groups_of::<W, X>(words, arena)?;
    Ok(groups.as_flattened())
}

/// As many of the lowest bytes of each number as the kind takes.
fn bytes_in<'a, X: Word>(kind: Kind, words: &[X], arena: &'a Arena) -> Result<&'a [u8], NoMemory>
    ensures bytes { IfOk result (λ r.
        r.now ≡ flat_map (λ x. low_bytes (width kind) (X.word x)) words.now) }
    ensures size { IfOk result (λ r. length r.now ≡ length words.now * width kind) }
{
    match kind {
        Kind::Bool | Kind::I8 | Kind::U8 => flat_bytes::<1, X>(words, arena),
        Kind::I16 | Kind::U16 => flat_bytes::<2, X>(words, arena),
        Kind::I32 | Kind::U32 => flat_bytes::<4, X>(words, arena),
        Kind::I64 | Kind::U64 => flat_bytes::<8, X>(words, arena),
    }
}

/// The lane of these numbers, each in the range of the kind. A truth value is given as its byte.
pub fn lane_of_numbers<'a>(
    kind: Kind,
    numbers: &[i64],
    arena: &'a Arena,
) -> Result<Lane<'a>, NoMemory>
    requires { AreNumbers (column kind numbers.now) }
    ensures { IfOk result (λ r. r ≡ column kind numbers.now) }
{
    let bytes = bytes_in(kind, numbers, arena)?;
    Ok(Lane::whole(kind, numbers.len() as u64, bytes))
}

/// The same for numbers that are not negative.
pub fn lane_of_nats<'a>(kind: Kind, nats: &[u64], arena: &'a Arena) -> Result<Lane<'a>, NoMemory>
    requires { AreNumbers (column kind (integers nats.now)) }
    ensures { IfOk result (λ r. r ≡ column kind (integers nats.now)) }
{
    let bytes = bytes_in(kind, nats, arena)?;
    Ok(Lane::whole(kind, nats.len() as u64, bytes))
}
