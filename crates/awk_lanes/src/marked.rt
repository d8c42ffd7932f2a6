//! A lane of the numbers that a function of the place gives, and a mask of those that are there.
ghost use Rattle.std.specs.Prelude.{◌≡◌, ◌<◌, ◌≤◌, ◌*◌, length, pos, cond, IfOk};
ghost use Rattle.awk_lanes.specs.Numbers.{width, int_of, IsOf};
ghost use Rattle.awk_lanes.specs.Made.{lane_of};
ghost use Rattle.awk_lanes.specs.Words.{low_groups, low_row, AreOf};
ghost use Rattle.awk_lanes.specs.declared.kind.Kind.TheVariants as Kinds;

use crate::kind::{Kind, Num};
use crate::lane::Lane;
use crate::memory::{Arena, NoMemory};
use crate::steps::Steps;
use crate::words::{Word, first_bytes};
use bumpalo::collections::into_bump_slice;
use std::sync::ledger::Ledger;

/// Numbers by their places, of which some are there and some are not.
pub trait MarkedNumbers {
    ghost use Rattle.std.specs.Prelude.{ℕ, ℤ};
    ghost use Rattle.awk_lanes.specs.declared.kind.Kind.{Kind};

    /// The kind of the numbers.
    ghost kind: { Self → Kind };

    /// The number at a place, be it there or not.
    ghost at: { Self → ℕ → ℤ };

    /// 1 where the number at a place is there, else 0.
    ghost mark: { Self → ℕ → ℤ };

    /// How many numbers may be asked for.
    ghost size: { Self → ℕ };

    /// What the numbers rest on.
    ghost IsReady: { Self → Type 0 } = { λ _. Unit {0} };

    /// The number at place i, and whether it is there.
    fn number<L: Ledger>(&self, i: u64, steps: &mut Steps<L>) -> (Num, bool)
        requires ready { IsReady self.now }
        requires within { i < size self.now }
        ensures number { int_of result.0 ≡ at self.now i }
        ensures kind { IsOf (kind self.now) result.0 }
        ensures mark { pos (cond result.1 1 0) ≡ mark self.now i };
}

/// Numbers and a mask of those that are there, a byte each, which is 1 or 0.
#[derive(Drop)]
pub struct Marked<'a> {
    pub numbers: Lane<'a>,
    pub mask: Lane<'a>,
}

/// 1 for a number that is there, else 0.
#[inline(always)]
fn mark_of(is_there: bool) -> Num
    ensures number { int_of result ≡ pos (cond is_there 1 0) }
    ensures kind { IsOf Kinds.I8 result }
{
    Num::Int(i64::from(is_there))
}

/// The lowest W bytes of each of the first n numbers, and the marks of these.
fn marked_groups<'a, const W: usize, S: MarkedNumbers, L: Ledger>(
    n: u64,
    source: &S,
    arena: &'a Arena,
    steps: &mut Steps<L>,
) -> Result<(&'a [[u8; W]], &'a [[u8; 1]]), NoMemory>
    requires some { 0 < W }
    requires narrow { W ≤ 8 }
    requires ready { S.IsReady source.now }
    requires within { n ≤ S.size source.now }
    ensures groups { IfOk result (λ r. r.0.now ≡ low_groups W n (S.at source.now)) }
    ensures marks { IfOk result (λ r. r.1.now ≡ low_groups 1 n (S.mark source.now)) }
    ensures numbers { IfOk result (λ _. AreOf (S.kind source.now) n (S.at source.now)) }
    ensures bits { IfOk result (λ _. AreOf Kinds.I8 n (S.mark source.now)) }
{
    let mut groups = Vec::with_capacity(arena, n as usize)?;
    let mut marks = Vec::with_capacity(arena, n as usize)?;
    for i in 0..n {
        let (number, is_there) = source.number(i, steps);
        groups.push_reserved(first_bytes::<W>(number.bytes()));
        marks.push_reserved(first_bytes::<1>(mark_of(is_there).bytes()));
    }
    Ok((into_bump_slice(groups), into_bump_slice(marks)))
}

/// The same bytes, one number after another.
fn marked_bytes<'a, const W: usize, S: MarkedNumbers, L: Ledger>(
    n: u64,
    source: &S,
    arena: &'a Arena,
    steps: &mut Steps<L>,
) -> Result<(&'a [u8], &'a [u8]), NoMemory>
    requires some { 0 < W }
    requires narrow { W ≤ 8 }
    requires ready { S.IsReady source.now }
    requires within { n ≤ S.size source.now }
    ensures bytes { IfOk result (λ r. r.0.now ≡ low_row W n (S.at source.now)) }
    ensures size { IfOk result (λ r. length r.0.now ≡ n * W) }
    ensures marks { IfOk result (λ r. r.1.now ≡ low_row 1 n (S.mark source.now)) }
    ensures count { IfOk result (λ r. length r.1.now ≡ n * 1) }
    ensures numbers { IfOk result (λ _. AreOf (S.kind source.now) n (S.at source.now)) }
    ensures bits { IfOk result (λ _. AreOf Kinds.I8 n (S.mark source.now)) }
{
    let (groups, marks) = marked_groups::<W, S, L>(n, source, arena, steps)?;
    Ok((groups.as_flattened(), marks.as_flattened()))
}

/// As many of the lowest bytes of each number as the kind takes, and the marks.
fn marked_by<'a, S: MarkedNumbers, L: Ledger>(
    kind: Kind,
    n: u64,
    source: &S,
    arena: &'a Arena,
    steps: &mut Steps<L>,
) -> Result<(&'a [u8], &'a [u8]), NoMemory>
    requires ready { S.IsReady source.now }
    requires within { n ≤ S.size source.now }
    ensures bytes { IfOk result (λ r. r.0.now ≡ low_row (width kind) n (S.at source.now)) }
    ensures size { IfOk result (λ r. length r.0.now ≡ n * width kind) }
    ensures marks { IfOk result (λ r. r.1.now ≡ low_row 1 n (S.mark source.now)) }
    ensures count { IfOk result (λ r. length r.1.now ≡ n * 1) }
    ensures numbers { IfOk result (λ _. AreOf (S.kind source.now) n (S.at source.now)) }
    ensures bits { IfOk result (λ _. AreOf Kinds.I8 n (S.mark source.now)) }
{
    match kind {
        Kind::Bool | Kind::I8 | Kind::U8 => marked_bytes::<1, S, L>(n, source, arena, steps),
        Kind::I16 | Kind::U16 => marked_bytes::<2, S, L>(n, source, arena, steps),
        Kind::I32 | Kind::U32 => marked_bytes::<4, S, L>(n, source, arena, steps),
        Kind::I64 | Kind::U64 => marked_bytes::<8, S, L>(n, source, arena, steps),
    }
}

/// The first n numbers, and the mask of those that are there, made in one loop.
pub fn marked_lanes<'a, S: MarkedNumbers, L: Ledger>(
    kind: Kind,
    n: u64,
    source: &S,
    arena: &'a Arena,
    steps: &mut Steps<L>,
) -> Result<Marked<'a>, NoMemory>
    requires kind { S.kind source.now ≡ kind }
    requires ready { S.IsReady source.now }
    requires within { n ≤ S.size source.now }
    ensures numbers { IfOk result (λ r. r.numbers ≡ lane_of kind n (S.at source.now)) }
    ensures mask { IfOk result (λ r. r.mask ≡ lane_of Kinds.I8 n (S.mark source.now)) }
{
    let (bytes, marks) = marked_by(kind, n, source, arena, steps)?;
    Ok(Marked {
        numbers: Lane::whole(kind, n, bytes),
        mask: Lane::whole(Kind::I8, n, marks),
    })
}
