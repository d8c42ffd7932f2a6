//! Numbers that stand beside the true items of a mask. They are moved as the groups of bytes that
//! they lie in, and no lane of their places is made.
ghost use Rattle.std.specs.Prelude.{◌≡◌, ◌≢◌, ◌+◌, ◌<◌, ◌≤◌, ◌^◌, [], ◌++◌, length, vec_len};
ghost use Rattle.std.specs.Prelude.{vec_capacity, IfOk};
ghost use Rattle.awk_types.specs.ItemLimit.{item_limit};
ghost use Rattle.awk_lanes.specs.Counted.{before, offsets_by};
ghost use Rattle.awk_lanes.specs.Numbers.{width};
ghost use Rattle.awk_lanes.specs.Places.{size_of, IsIndex};
ghost use Rattle.awk_lanes.specs.declared.kind.Kind.TheVariants as Kinds;
ghost use Rattle.awk_layout.specs.Valid.{len};
ghost use Rattle.awk_select.specs.Cells.{truth_cells};
ghost use Rattle.awk_jagged_places.specs.Beside.{groups_beside, kept_length, places_beside};
ghost use Rattle.awk_jagged_places.specs.Beside.{IsBeside, IsMoved};
ghost use Rattle.awk_jagged_places.specs.Leaves.{AreLeaves, mask_numbers};
ghost use Rattle.awk_jagged_rows.specs.Rows.{AreAlike};

use awk_columns::Bounds;
use awk_lanes::{Arena, IndexMaker, Kind, Lane, NoMemory, Steps, number};
use awk_select::{Truths, put_if};
use bumpalo::collections::into_bump_slice;
use std::sync::ledger::Ledger;

/// Numbers of lists that are moved, and the offsets of these lists.
#[derive(Drop)]
pub struct Moved<'a> {
    pub offsets: Lane<'a>,
    pub lane: Lane<'a>,
}

/// Lists of truth values beside those that are picked from.
#[derive(Drop)]
pub struct Beside<'r, 's, 'a> {
    pub xs: &'r Bounds<'s, 'a>,
    pub ws: &'r Bounds<'s, 'a>,
    pub truths: &'r Truths<'a>,
}

impl<'r, 's, 'a> Beside<'r, 's, 'a> {
    /// Puts the groups beside the true items of list i.
    #[inline(always)]
    fn put_list<const W: usize>(&self, i: u64, groups: &[[u8; W]], made: &mut Vec<[u8; W], &Arena>)
        requires small { W ≤ 8 }
        requires leaves { AreLeaves self.now.xs.now self.now.ws.now
            (truth_cells self.now.truths.now.bytes.now) }
        requires alike { AreAlike self.now.xs.now self.now.ws.now }
        requires content { len self.now.xs.now.content ≡ length groups.now }
        requires list { i < size_of self.now.ws.now.starts }
        requires room { vec_len made.old
            + length (mask_numbers self.now.xs.now self.now.ws.now i) < vec_capacity made.old }
        ensures items { made.new.items ≡ made.old.items
            ++ groups_beside self.now.xs.now self.now.ws.now groups.now i }
        ensures len { vec_len made.new ≡ vec_len made.old
            + length (mask_numbers self.now.xs.now self.now.ws.now i) }
        ensures capacity { vec_capacity made.new ≡ vec_capacity made.old }
    {
        let from = self.xs.span_of(i);
        let by = self.ws.span_of(i);
        for k in 0..by.length {
            let keep = self.truths.at(by.start + k);
            put_if(made, keep, groups[(from.start + k) as usize]);
        }
    }
}

/// The groups beside the true items of the first n lists, for which there is room. The offsets of
/// these lists are put meanwhile.
#[tactic(auto, using(awk_lanes::proofs::MadeLanes::making))]
fn groups_of<'a, const W: usize>(
    n: u64,
    room: u64,
    picks: &Beside,
    groups: &[[u8; W]],
    offsets: &mut IndexMaker,
    arena: &'a Arena,
) -> Result<&'a [[u8; W]], NoMemory>
    requires small { W ≤ 8 }
    requires leaves { AreLeaves picks.now.xs.now picks.now.ws.now
        (truth_cells picks.now.truths.now.bytes.now) }
    requires alike { AreAlike picks.now.xs.now picks.now.ws.now }
    requires content { len picks.now.xs.now.content ≡ length groups.now }
    requires within { n ≤ size_of picks.now.ws.now.starts }
    requires room { before (kept_length picks.now.xs.now picks.now.ws.now) n ≤ room }
    requires few { room ≤ item_limit }
    requires begun { offsets.old ≡ record { kind = Kinds.I64; room = n + 1; items = [] } }
    ensures groups { IfOk result (λ r.
        IsBeside picks.now.xs.now picks.now.ws.now n groups.now r.now) }
    ensures offsets { IfOk result (λ _. offsets.new.items
        ≡ (offsets_by (kept_length picks.now.xs.now picks.now.ws.now) n).items) }
{
    let mut made = Vec::with_capacity(arena, (room + 1) as usize)?;
    offsets.push(number(0));
    for i in 0..n {
        picks.put_list(i, groups, &mut made);
        offsets.push(number(made.len() as u64));
    }
    Ok(into_bump_slice(made))
}

/// The numbers of W bytes beside the true items of the first n lists of a mask.
fn wide_lists<'a, const W: usize, L: Ledger>(
    n: u64,
    room: u64,
    picks: &Beside<'_, '_, 'a>,
    lane: &Lane<'a>,
    arena: &'a Arena,
    steps: &mut Steps<L>,
) -> Result<Moved<'a>, NoMemory>
    requires leaves { AreLeaves picks.now.xs.now picks.now.ws.now
        (truth_cells picks.now.truths.now.bytes.now) }
    requires alike { AreAlike picks.now.xs.now picks.now.ws.now }
    requires plain { lane.now.kind ≢ Kinds.Bool }
    requires width { width lane.now.kind ≡ W }
    requires some { 0 < W }
    requires content { len picks.now.xs.now.content ≡ size_of lane.now }
    requires index { IsIndex (places_beside picks.now.xs.now picks.now.ws.now n)
        (size_of lane.now) }
    requires within { n ≤ size_of picks.now.ws.now.starts }
    requires fits { n < 2 ^ 63 }
    requires room { before (kept_length picks.now.xs.now picks.now.ws.now) n ≤ room }
    requires few { room ≤ item_limit }
    ensures { IfOk result (IsMoved picks.now.xs.now picks.now.ws.now n lane.now) }
{
    let mut offsets = IndexMaker::new(n + 1, arena)?;
    let bytes = lane.bulk(arena, steps)?;
    let (groups, _) = bytes.as_chunks::<W>();
    let moved = groups_of(n, room, picks, groups, &mut offsets, arena)?;
    Ok(Moved {
        offsets: offsets.finish(),
        lane: Lane::new(lane.kind(), moved.as_flattened()),
    })
}

/// The numbers of a lane beside the true items of the first n lists of a mask, for which there is
/// room, in one pass with the offsets of these lists. No number is a truth value, of which any byte
/// but 0 is one.
pub fn beside_lists<'a, L: Ledger>(
    n: u64,
    room: u64,
    picks: &Beside<'_, '_, 'a>,
    lane: &Lane<'a>,
    arena: &'a Arena,
    steps: &mut Steps<L>,
) -> Result<Moved<'a>, NoMemory>
    requires leaves { AreLeaves picks.now.xs.now picks.now.ws.now
        (truth_cells picks.now.truths.now.bytes.now) }
    requires alike { AreAlike picks.now.xs.now picks.now.ws.now }
    requires plain { lane.now.kind ≢ Kinds.Bool }
    requires content { len picks.now.xs.now.content ≡ size_of lane.now }
    requires index { IsIndex (places_beside picks.now.xs.now picks.now.ws.now n)
        (size_of lane.now) }
    requires within { n ≤ size_of picks.now.ws.now.starts }
    requires fits { n < 2 ^ 63 }
    requires room { before (kept_length picks.now.xs.now picks.now.ws.now) n ≤ room }
    requires few { room ≤ item_limit }
    ensures { IfOk result (IsMoved picks.now.xs.now picks.now.ws.now n lane.now) }
{
    match lane.kind() {
        Kind::I8 | Kind::U8 => wide_lists::<1, L>(n, room, picks, lane, arena, steps),
        Kind::I16 | Kind::U16 => wide_lists::<2, L>(n, room, picks, lane, arena, steps),
        Kind::I32 | Kind::U32 => wide_lists::<4, L>(n, room, picks, lane, arena, steps),
        Kind::I64 | Kind::U64 => wide_lists::<8, L>(n, room, picks, lane, arena, steps),
        Kind::Bool => unreachable!(),
    }
}
