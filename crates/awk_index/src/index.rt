//! The numbers of a lane in groups of eight bytes.
ghost use Rattle.std.specs.Prelude.{◌≡◌, ◌<◌, [], get_or, length, map, IfOk, IfSome};
ghost use Rattle.awk_lanes.specs.Numbers.{number};
ghost use Rattle.awk_lanes.specs.Places.{size_of, at, option_place_at, IsIndexKind};
ghost use Rattle.awk_lanes.specs.declared.kind.Kind.TheVariants as Kinds;

use crate::cells::Cell;
use crate::numbers::numbers_of;
use awk_lanes::{Arena, Held, Kind, Lane, NoMemory, Steps, lane_of_numbers, to_option_place};
use bumpalo::collections::into_bump_slice;
use std::alloc::Global;
use std::marker::Model;
use std::sync::ledger::Ledger;

/// Numbers of a kind of offsets, starts, stops and indexes, each in eight bytes.
#[derive(Drop)]
pub struct Index<'a> {
    kind: Kind,
    groups: &'a [[u8; 8]],
}

impl<'a> Model for Index<'a> {
    ghost use Rattle.awk_lanes.specs.Column.{Column};

    ghost Value = { Column };

    ghost use Rattle.std.specs.Prelude.{map};
    ghost use Rattle.awk_lanes.specs.Numbers.{number};
    ghost use Rattle.awk_lanes.specs.Places.{IsIndexKind};
    ghost use Rattle.awk_lanes.specs.declared.kind.Kind.TheVariants.{I64};

    ghost view = { λ x. record { kind = x.kind; items = map (number I64) x.groups.now } };

    ghost invariant = { λ x. IsIndexKind x.kind };
}

/// The number that the group at place i is.
#[inline(always)]
fn eight_at(groups: &[[u8; 8]], i: usize) -> i64
    requires { i < length groups.now }
    ensures { result ≡ number Kinds.I64 (get_or groups.now i []) }
{
    i64::from_le_bytes(groups[i])
}

impl<'a> Index<'a> {
    /// How many numbers there are.
    #[inline(always)]
    pub fn len(&self) -> u64
        ensures len { result ≡ size_of self.now }
    {
        self.groups.len() as u64
    }

    /// The number at place i.
    #[inline(always)]
    pub fn number(&self, i: u64) -> i64
        requires { i < size_of self.now }
        ensures number { result ≡ at self.now i }
        ensures kind { IsIndexKind self.now.kind }
    {
        eight_at(self.groups, i as usize)
    }

    /// The place at place i, or none where the number is negative.
    #[inline(always)]
    pub fn option_place(&self, i: u64) -> Option<u64>
        requires { i < size_of self.now }
        ensures { result ≡ option_place_at self.now i }
    {
        to_option_place(self.number(i))
    }
}

/// The numbers of a lane of 64 bits where they lie, as those of a kind. Places in order, which lie
/// nowhere, are made.
fn whole<'a: 'b, 'b, L: Ledger>(
    kind: Kind,
    lane: &Lane<'a>,
    arena: &'b Arena,
    steps: &mut Steps<L>,
) -> Result<Index<'b>, NoMemory>
    requires wide { lane.now.kind ≡ Kinds.I64 }
    requires kind { IsIndexKind kind }
    ensures { IfOk result (λ r. r ≡ record { kind = kind; items = lane.now.items }) }
{
    let bytes = lane.bulk(arena, steps)?;
    let (groups, _) = bytes.as_chunks::<8>();
    Ok(Index { kind, groups })
}

/// The numbers of a lane of 64 bits where they lie. Places in order, which lie nowhere, are made.
pub fn wide_index<'a: 'b, 'b, L: Ledger>(
    lane: &Lane<'a>,
    arena: &'b Arena,
    steps: &mut Steps<L>,
) -> Result<Index<'b>, NoMemory>
    requires { lane.now.kind ≡ Kinds.I64 }
    ensures { IfOk result (λ r. r ≡ lane.now) }
{
    whole(Kind::I64, lane, arena, steps)
}

/// The numbers of a lane of 64 bits where they lie, or none where they lie nowhere.
pub fn laid_index<'a, L: Ledger>(lane: &Lane<'a>, steps: &mut Steps<L>) -> Option<Index<'a>>
    requires { lane.now.kind ≡ Kinds.I64 }
    ensures { IfSome result (λ r. r ≡ lane.now) }
{
    match lane.held() {
        Held::Bytes(lane) => {
            let (groups, _) = lane.bulk(steps).as_chunks::<8>();
            let kind = Kind::I64;
            Some(Index { kind, groups })
        }
        Held::Run(_) => None,
    }
}

/// The number of each group in eight bytes. All their memory is taken before the first.
fn wide_groups<'a, const W: usize, C: Cell<W>>(
    groups: &[[u8; W]],
    arena: &'a Arena,
) -> Result<&'a [[u8; 8]], NoMemory>
    ensures { IfOk result (λ r. map (number Kinds.I64) r.now ≡ map C.number groups.now) }
{
    let mut wide = Vec::with_capacity(arena, groups.len())?;
    for i in 0..groups.len() {
        wide.push_reserved(C::number(&groups[i]).to_le_bytes());
    }
    Ok(into_bump_slice(wide))
}

/// The numbers of a lane of i32, widened.
fn wider<'a, L: Ledger>(
    lane: &Lane<'a>,
    arena: &'a Arena,
    steps: &mut Steps<L>,
) -> Result<Index<'a>, NoMemory>
    requires { lane.now.kind ≡ Kinds.I32 }
    ensures { IfOk result (λ r. r ≡ lane.now) }
{
    let (fours, _) = lane.narrow_bytes(steps).as_chunks::<4>();
    let groups = wide_groups::<4, i32>(fours, arena)?;
    Ok(Index {
        kind: Kind::I32,
        groups,
    })
}

/// The numbers of a lane: where they lie, if they are of i64, and else widened.
pub fn index_of<'a, L: Ledger>(
    alloc: Global,
    lane: &Lane<'a>,
    arena: &'a Arena,
    steps: &mut Steps<L>,
) -> Result<Index<'a>, NoMemory>
    requires { IsIndexKind lane.now.kind }
    ensures { IfOk result (λ r. r ≡ lane.now) }
{
    let kind = lane.kind();
    let _ = lane.len();
    match kind {
        Kind::I64 => whole(kind, lane, arena, steps),
        Kind::I32 => wider(lane, arena, steps),
        _ => {
            let numbers = numbers_of(alloc, lane, steps)?;
            let wide = lane_of_numbers(Kind::I64, &numbers, arena)?;
            whole(kind, &wide, arena, steps)
        }
    }
}
