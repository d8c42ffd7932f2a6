//! Comparisons of two lanes of one kind, and of a lane and one number.
ghost use Rattle.std.specs.Prelude.{◌≡◌, ◌≢◌, ◌<◌, ◌≤◌, ℤ, replicate, IfOk};
ghost use Rattle.awk_kernels.specs.Operations.{holds};
ghost use Rattle.awk_lanes.specs.Numbers.{width};
ghost use Rattle.awk_lanes.specs.Places.{size_of};
ghost use Rattle.awk_lanes.specs.declared.kind.Kind.TheVariants as Kind;
ghost use Rattle.awk_lane_pairs.specs.Comparisons.{flag, IsCompared};

use crate::cells::Cell;
use awk_kernels::Compare;
use awk_lanes::{Arena, Kind, Lane, NoMemory, Num, Numbers, Steps, made_lane};
use std::marker::PhantomData;
use std::sync::ledger::Ledger;

/// What a comparison says where the first number is less, where both are equal, and where it is
/// greater.
#[derive(Clone, Copy)]
struct Flags {
    less: bool,
    equal: bool,
    greater: bool,
}

fn flags_of(how: Compare) -> Flags
    ensures { (x y : ℤ) → flag result x y ≡ holds how x y }
{
    let (less, equal, greater) = match how {
        Compare::Eq => (false, true, false),
        Compare::Ne => (true, false, true),
        Compare::Lt => (true, false, false),
        Compare::Le => (true, true, false),
        Compare::Gt => (false, false, true),
        Compare::Ge => (false, true, true),
    };
    Flags {
        less,
        equal,
        greater,
    }
}

/// What is said of two numbers.
#[inline(always)]
fn said(flags: Flags, x: i64, y: i64) -> bool
    ensures { result ≡ flag flags x y }
{
    if x < y {
        flags.less
    } else if x == y {
        flags.equal
    } else {
        flags.greater
    }
}

/// What is said of the numbers of two lanes. One loop does for all comparisons.
#[derive(Drop)]
struct Tests<'s, const W: usize, C: Cell<W>> {
    flags: Flags,
    a: &'s [[u8; W]],
    b: &'s [[u8; W]],
    kind: PhantomData<C>,
}

impl<'s, const W: usize, C: Cell<W>> Numbers for Tests<'s, W, C> {
    ghost use Rattle.std.specs.Prelude.{◌≡◌, ◌≤◌, length};
    ghost use Rattle.awk_lanes.specs.declared.kind.Kind.TheVariants as Kind;
    ghost use Rattle.awk_lane_pairs.specs.Comparisons.{truth_at};

    ghost kind = { λ _. Kind.Bool };

    ghost at = { λ r. truth_at r.flags C.kind r.a.now r.b.now };

    ghost size = { λ r. length r.a.now };

    ghost IsReady = { λ r. (W ≤ 8) × (length r.b.now ≡ length r.a.now) };

    #[inline(always)]
    fn number<L: Ledger>(&self, i: u64, _steps: &mut Steps<L>) -> Num {
        let x = C::number(&self.a[i as usize]);
        let y = C::number(&self.b[i as usize]);
        Num::Truth(said(self.flags, x, y))
    }
}

/// The truth values of a comparison of two lanes of a kind.
fn compared_cells<'a, const W: usize, C: Cell<W>, L: Ledger>(
    how: Compare,
    a: &Lane,
    b: &Lane,
    arena: &'a Arena,
    steps: &mut Steps<L>,
) -> Result<Lane<'a>, NoMemory>
    requires first { a.now.kind ≡ C.kind }
    requires second { b.now.kind ≡ C.kind }
    requires width { width C.kind ≡ W }
    requires some { 0 < W }
    requires small { W ≤ 8 }
    requires size { size_of b.now ≡ size_of a.now }
    ensures { IfOk result (IsCompared how a.now.items b.now.items) }
{
    let first = a.bulk(arena, steps)?;
    let (x, _) = first.as_chunks::<W>();
    let second = b.bulk(arena, steps)?;
    let (y, _) = second.as_chunks::<W>();
    let tests = Tests::<W, C> {
        flags: flags_of(how),
        a: x,
        b: y,
        kind: PhantomData,
    };
    let lane = made_lane(Kind::Bool, x.len() as u64, &tests, arena, steps)?;
    Ok(lane)
}

/// The lane of the truth values of a comparison of two lanes of one kind, whose numbers fit an i64.
pub fn compared_lanes<'a, L: Ledger>(
    how: Compare,
    a: &Lane,
    b: &Lane,
    arena: &'a Arena,
    steps: &mut Steps<L>,
) -> Result<Lane<'a>, NoMemory>
    requires truths { a.now.kind ≢ Kind.Bool }
    requires nats { a.now.kind ≢ Kind.U64 }
    requires kinds { b.now.kind ≡ a.now.kind }
    requires size { size_of b.now ≡ size_of a.now }
    ensures { IfOk result (IsCompared how a.now.items b.now.items) }
{
    match a.kind() {
        Kind::I8 => compared_cells::<1, i8, L>(how, a, b, arena, steps),
        Kind::I16 => compared_cells::<2, i16, L>(how, a, b, arena, steps),
        Kind::I32 => compared_cells::<4, i32, L>(how, a, b, arena, steps),
        Kind::I64 => compared_cells::<8, i64, L>(how, a, b, arena, steps),
        Kind::U8 => compared_cells::<1, u8, L>(how, a, b, arena, steps),
        Kind::U16 => compared_cells::<2, u16, L>(how, a, b, arena, steps),
        Kind::U32 => compared_cells::<4, u32, L>(how, a, b, arena, steps),
        Kind::Bool => unreachable!(),
        Kind::U64 => unreachable!(),
    }
}

/// What is said of the numbers of a lane and one number.
#[derive(Drop)]
struct TestsBeside<'s, const W: usize, C: Cell<W>> {
    flags: Flags,
    a: &'s [[u8; W]],
    y: i64,
    kind: PhantomData<C>,
}

impl<'s, const W: usize, C: Cell<W>> Numbers for TestsBeside<'s, W, C> {
    ghost use Rattle.std.specs.Prelude.{◌≤◌, length};
    ghost use Rattle.awk_lanes.specs.declared.kind.Kind.TheVariants as Kind;
    ghost use Rattle.awk_lane_pairs.specs.Comparisons.{truth_beside};

    ghost kind = { λ _. Kind.Bool };

    ghost at = { λ r. truth_beside r.flags C.kind r.a.now r.y };

    ghost size = { λ r. length r.a.now };

    ghost IsReady = { λ r. W ≤ 8 };

    #[inline(always)]
    fn number<L: Ledger>(&self, i: u64, _steps: &mut Steps<L>) -> Num {
        let x = C::number(&self.a[i as usize]);
        Num::Truth(said(self.flags, x, self.y))
    }
}

/// The truth values of a comparison of a lane of a kind and one number.
fn compared_beside_cells<'a, const W: usize, C: Cell<W>, L: Ledger>(
    how: Compare,
    a: &Lane,
    y: i64,
    arena: &'a Arena,
    steps: &mut Steps<L>,
) -> Result<Lane<'a>, NoMemory>
    requires kind { a.now.kind ≡ C.kind }
    requires width { width C.kind ≡ W }
    requires some { 0 < W }
    requires small { W ≤ 8 }
    ensures { IfOk result (IsCompared how a.now.items (replicate (size_of a.now) y)) }
{
    let bytes = a.bulk(arena, steps)?;
    let (x, _) = bytes.as_chunks::<W>();
    let tests = TestsBeside::<W, C> {
        flags: flags_of(how),
        a: x,
        y,
        kind: PhantomData,
    };
    let lane = made_lane(Kind::Bool, x.len() as u64, &tests, arena, steps)?;
    Ok(lane)
}

/// The lane of the truth values of a comparison of a lane, whose numbers fit an i64, and one
/// number.
pub fn compared_beside<'a, L: Ledger>(
    how: Compare,
    a: &Lane,
    y: i64,
    arena: &'a Arena,
    steps: &mut Steps<L>,
) -> Result<Lane<'a>, NoMemory>
    requires truths { a.now.kind ≢ Kind.Bool }
    requires nats { a.now.kind ≢ Kind.U64 }
    ensures { IfOk result (IsCompared how a.now.items (replicate (size_of a.now) y)) }
{
    match a.kind() {
        Kind::I8 => compared_beside_cells::<1, i8, L>(how, a, y, arena, steps),
        Kind::I16 => compared_beside_cells::<2, i16, L>(how, a, y, arena, steps),
        Kind::I32 => compared_beside_cells::<4, i32, L>(how, a, y, arena, steps),
        Kind::I64 => compared_beside_cells::<8, i64, L>(how, a, y, arena, steps),
        Kind::U8 => compared_beside_cells::<1, u8, L>(how, a, y, arena, steps),
        Kind::U16 => compared_beside_cells::<2, u16, L>(how, a, y, arena, steps),
        Kind::U32 => compared_beside_cells::<4, u32, L>(how, a, y, arena, steps),
        Kind::Bool => unreachable!(),
        Kind::U64 => unreachable!(),
    }
}
