//! Options over numbers in order: the numbers that are there are moved at once.
ghost use Rattle.std.specs.Prelude.{IfOk};
ghost use Rattle.awk_layout.specs.Layout.{Layout, flat, optional, byte_masked};
ghost use Rattle.awk_layout.specs.Typing.{array_items};
ghost use Rattle.awk_layout.specs.Valid.{IsValid};
ghost use Rattle.awk_open.specs.Inner.{IsInner};
ghost use Rattle.awk_open.specs.Opened.{IsOpened};
ghost use Rattle.awk_open.specs.declared.opening.Opened.TheVariants as Opened;
ghost use Rattle.awk_open.specs.InOrder.{IsInOrder};
ghost use Rattle.awk_pair_present.specs.Present.{opened_option};

use awk_counts::counted_narrow;
use awk_frames::OptionLane;
use awk_index::index_of;
use awk_lanes::{Arena, Kind, Lane, NoMemory, Steps};
use awk_layout::Array;
use awk_list_numbers::named_numbers;
use awk_narrow::{OptionIndex, narrow_index};
use awk_open::mask_index;
use std::alloc::Global;
use std::sync::ledger::Ledger;

/// An option in order: an index that counts the items that are there, and these.
#[derive(Drop)]
pub(crate) struct OrderedOption<'a> {
    pub(crate) index: OptionLane<'a>,
    pub(crate) content: Array<'a>,
}

/// An option over a lane of numbers in order: those that are there, and an index that counts them.
pub(crate) fn present_numbers<'a, P: OptionIndex, L: Ledger>(
    alloc: Global,
    index: &P,
    lane: &Lane,
    arena: &'a Arena,
    steps: &mut Steps<L>,
) -> Result<OrderedOption<'a>, NoMemory>
    requires valid { IsValid (optional (P.lane index.now) (flat lane.now)) }
    ensures opened { let named = P.lane index.now in
        (x : Layout) → IsOpened x (Opened.Option named (flat lane.now)) →
        IfOk result (λ r. IsOpened x (opened_option r)) }
    ensures inner { IfOk result (λ r. IsInner (opened_option r)) }
    ensures order { let named = P.lane index.now in
        (x : Layout) → IsOpened x (Opened.Option named (flat lane.now)) →
        IfOk result (λ r. IsInOrder (array_items x) (opened_option r)) }
{
    let content = named_numbers(alloc, index, lane, arena, steps)?;
    let _ = content.len();
    let numbers = counted_narrow(index, arena)?;
    let index = OptionLane::new(numbers);
    Ok(OrderedOption { index, content })
}

/// The same by a lane of an index. One of 32 bits is read where it lies.
pub(crate) fn indexed_numbers<'a, L: Ledger>(
    alloc: Global,
    index: &Lane<'a>,
    lane: &Lane,
    arena: &'a Arena,
    steps: &mut Steps<L>,
) -> Result<OrderedOption<'a>, NoMemory>
    requires valid { IsValid (optional index.now (flat lane.now)) }
    ensures opened { let named = Opened.Option index.now (flat lane.now) in
        (x : Layout) → IsOpened x named → IfOk result (λ r. IsOpened x (opened_option r)) }
    ensures inner { IfOk result (λ r. IsInner (opened_option r)) }
    ensures order { let named = Opened.Option index.now (flat lane.now) in
        (x : Layout) → IsOpened x named →
        IfOk result (λ r. IsInOrder (array_items x) (opened_option r)) }
{
    if index.kind() == Kind::I32 {
        let index = narrow_index(index, steps);
        return present_numbers(alloc, &index, lane, arena, steps);
    }
    let index = index_of(alloc, index, arena, steps)?;
    present_numbers(alloc, &index, lane, arena, steps)
}

/// A mask of bytes over a lane of numbers in order: no lane of places is made of it.
pub(crate) fn masked_numbers<'a, L: Ledger>(
    alloc: Global,
    mask: &Lane,
    valid_when: bool,
    lane: &Lane,
    arena: &'a Arena,
    steps: &mut Steps<L>,
) -> Result<OrderedOption<'a>, NoMemory>
    requires valid { IsValid (byte_masked mask.now valid_when (flat lane.now)) }
    ensures opened { let x = byte_masked mask.now valid_when (flat lane.now) in
        IfOk result (λ r. IsOpened x (opened_option r)) }
    ensures inner { IfOk result (λ r. IsInner (opened_option r)) }
    ensures order { let x = byte_masked mask.now valid_when (flat lane.now) in
        IfOk result (λ r. IsInOrder (array_items x) (opened_option r)) }
{
    let index = mask_index(mask, valid_when, steps);
    present_numbers(alloc, &index, lane, arena, steps)
}
