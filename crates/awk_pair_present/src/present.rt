//! The rows of operands that have no null.
ghost use Rattle.std.specs.Prelude.{◌≡◌, ◌≤◌, ◌∷◌, [], true, IfOk, IfSome, List};
ghost use Rattle.awk_types.specs.ItemLimit.{item_limit};
ghost use Rattle.awk_types.specs.Simple.{is_option};
ghost use Rattle.awk_layout.specs.Typing.{array_type, array_items};
ghost use Rattle.awk_layout.specs.Valid.{len};
ghost use Rattle.awk_open.specs.Inner.{IsInner};
ghost use Rattle.awk_open.specs.Opened.{IsOpened, AreLong};
ghost use Rattle.awk_open.specs.declared.opening.Opened.TheVariants as opening;
ghost use Rattle.awk_open.specs.InOrder.{IsInOrder};
ghost use Rattle.awk_layout.specs.Layout.{Layout};
ghost use Rattle.awk_pair_present.specs.Presence.{AreAsLong, ArePresences};
ghost use Rattle.awk_pair_present.specs.Present.{IsPresentRows, opened_option};

use crate::numbers::{OrderedOption, indexed_numbers, masked_numbers};
use crate::presence::{Presence, all_taken, are_there, presences_of};
use awk_columns::places_of;
use awk_counts::{count_present, counted_narrow};
use awk_frames::OptionLane;
use awk_lanes::{
    Arena, Items, Kind, Lane, Lengths, NoMemory, Num, Numbers, Steps, made_lane, number,
};
use awk_layout::{Array, Arrays, Class};
use awk_list_numbers::has_numbers;
use awk_narrow::OptionIndex;
use awk_open::{MaskIndex, Opened, in_order, mask_index, opened};
use awk_types::is_optional;
use std::alloc::Global;
use std::sync::ledger::Ledger;

/// The rows without a null, and an index over them that counts up, and is -1 for each other row.
#[derive(Drop)]
pub struct PresentRows<'a> {
    pub index: OptionLane<'a>,
    pub count: u64,
    pub arrays: Arrays<'a>,
}

/// The rows of operands by their items that are there: a byte for each row, 1 where all items are
/// there, else 0.
#[derive(Drop)]
struct KeptRows<'b, 'a> {
    presences: &'b [Presence<'a>],
    rows: u64,
}

impl<'b, 'a> Numbers for KeptRows<'b, 'a> {
    ghost use Rattle.awk_lanes.specs.declared.kind.Kind.TheVariants as Kind;
    ghost use Rattle.awk_pair_present.specs.Presence.{kept_byte, AreAsLong};

    ghost kind = { λ _. Kind.I8 };

    ghost at = { λ f. kept_byte f.presences.now };

    ghost size = { λ f. f.rows };

    ghost IsReady = { λ f. AreAsLong f.rows f.presences.now };

    fn number<L: Ledger>(&self, i: u64, _steps: &mut Steps<L>) -> Num {
        if are_there(self.presences, self.rows, i) {
            Num::Int(1)
        } else {
            Num::Int(0)
        }
    }
}

/// The rows that a mask shows, each as a list of its place, and each other one as an empty list.
#[derive(Drop)]
struct ShownRows<'b, 'a> {
    index: &'b MaskIndex<'a>,
}

impl<'b, 'a> Lengths for ShownRows<'b, 'a> {
    ghost use Rattle.std.specs.Prelude.{◌<◌, ◌^◌, length};
    ghost use Rattle.awk_lanes.specs.Places.{size_of};
    ghost use Rattle.awk_counts.specs.Counted.{present_at};

    ghost length = { λ f i. length (present_at f.index.now i) };

    ghost size = { λ f. size_of f.index.now };

    ghost IsReady = { λ f. size_of f.index.now < 2 ^ 63 };

    #[inline(always)]
    fn length<L: Ledger>(&self, i: u64, _steps: &mut Steps<L>) -> u64 {
        match self.index.place(i) {
            Some(_) => 1,
            None => 0,
        }
    }
}

impl<'b, 'a> Items for ShownRows<'b, 'a> {
    ghost use Rattle.std.specs.Prelude.{pos};
    ghost use Rattle.awk_lanes.specs.declared.kind.Kind.TheVariants as Kind;

    ghost kind = { λ _. Kind.I64 };

    ghost at = { λ _ i k. pos i };

    #[inline(always)]
    fn item<L: Ledger>(&self, i: u64, _k: u64, _steps: &mut Steps<L>) -> Num {
        number(i)
    }
}

/// The rows without a null, of operands by their items that are there. Each row is asked once, and
/// put down in a mask: that tells how many there are, where they lie and their index.
fn kept_rows<'a, L: Ledger>(
    alloc: Global,
    n: u64,
    presences: &[Presence<'a>],
    arena: &'a Arena,
    steps: &mut Steps<L>,
) -> Result<PresentRows<'a>, NoMemory>
    requires long { AreAsLong n presences.now }
    requires few { n ≤ item_limit }
    ensures { (xs : List Layout) → ArePresences n xs presences.now →
        IfOk result (IsPresentRows n xs) }
{
    let rows = KeptRows { presences, rows: n };
    let mask = made_lane(Kind::I8, n, &rows, arena, steps)?;
    let shown = mask_index(&mask, true, steps);
    let count = count_present(&shown);
    let places = places_of(n, count, &ShownRows { index: &shown }, arena, steps)?;
    let numbers = counted_narrow(&shown, arena)?;
    let index = OptionLane::new(numbers);
    let arrays = all_taken(alloc, presences, n, &places, arena, steps)?;
    Ok(PresentRows {
        index,
        count,
        arrays,
    })
}

/// The only operand, where its items may be null.
fn only_option<'b, 'a>(xs: &'b Arrays<'a>) -> Option<&'b Array<'a>>
    ensures only { IfSome result (λ x. xs.now ≡ x.now ∷ []) }
    ensures option { IfSome result (λ x. is_option (array_type x.now) ≡ true) }
{
    if xs.len() != 1 {
        return None;
    }
    let x = xs.get(0);
    if is_optional(x.typ()) { Some(x) } else { None }
}

/// An option in order, whatever lies in it.
fn option_in_order<'a, L: Ledger>(
    alloc: Global,
    x: &Array<'a>,
    arena: &'a Arena,
    steps: &mut Steps<L>,
) -> Result<OrderedOption<'a>, NoMemory>
    requires option { is_option (array_type x.now) ≡ true }
    ensures opened { IfOk result (λ r. IsOpened x.now (opened_option r)) }
    ensures inner { IfOk result (λ r. IsInner (opened_option r)) }
    ensures order { IfOk result (λ r. IsInOrder (array_items x.now) (opened_option r)) }
{
    match in_order(alloc, x, arena, steps)? {
        Opened::Option { index, content } => Ok(OrderedOption {
            index: OptionLane::new(index),
            content,
        }),
        _ => unreachable!(),
    }
}

/// An option by its index and its content, in order: numbers are moved at once.
fn named_in_order<'a, L: Ledger>(
    alloc: Global,
    x: &Array<'a>,
    index: &Lane<'a>,
    content: &Array<'a>,
    arena: &'a Arena,
    steps: &mut Steps<L>,
) -> Result<OrderedOption<'a>, NoMemory>
    requires opened { IsOpened x.now (opening.Option index.now content.now) }
    requires option { is_option (array_type x.now) ≡ true }
    ensures opened { IfOk result (λ r. IsOpened x.now (opened_option r)) }
    ensures inner { IfOk result (λ r. IsInner (opened_option r)) }
    ensures order { IfOk result (λ r. IsInOrder (array_items x.now) (opened_option r)) }
{
    match content.node().class() {
        Class::Numpy { lane } => indexed_numbers(alloc, index, lane, arena, steps),
        _ => option_in_order(alloc, x, arena, steps),
    }
}

/// An option over numbers, in order.
fn numbers_in_order<'a, L: Ledger>(
    alloc: Global,
    x: &Array<'a>,
    arena: &'a Arena,
    steps: &mut Steps<L>,
) -> Result<OrderedOption<'a>, NoMemory>
    requires option { is_option (array_type x.now) ≡ true }
    ensures opened { IfOk result (λ r. IsOpened x.now (opened_option r)) }
    ensures inner { IfOk result (λ r. IsInner (opened_option r)) }
    ensures order { IfOk result (λ r. IsInOrder (array_items x.now) (opened_option r)) }
{
    match opened(alloc, x, arena, steps)? {
        Opened::Option { index, content } => {
            named_in_order(alloc, x, &index, &content, arena, steps)
        }
        _ => unreachable!(),
    }
}

/// A mask of bytes over numbers, in order, or none of another array.
fn masked_in_order<'a, L: Ledger>(
    alloc: Global,
    x: &Array<'a>,
    arena: &'a Arena,
    steps: &mut Steps<L>,
) -> Result<Option<OrderedOption<'a>>, NoMemory>
    ensures opened { IfOk result (λ o. IfSome o (λ r. IsOpened x.now (opened_option r))) }
    ensures inner { IfOk result (λ o. IfSome o (λ r. IsInner (opened_option r))) }
    ensures order { let IsOrdered = IsInOrder (array_items x.now) in
        IfOk result (λ o. IfSome o (λ r. IsOrdered (opened_option r))) }
{
    let _ = x.len();
    match x.node().class() {
        Class::ByteMasked {
            mask,
            valid_when,
            content,
        } => match content.class() {
            Class::Numpy { lane } => {
                let numbers = masked_numbers(alloc, mask, valid_when, lane, arena, steps)?;
                Ok(Some(numbers))
            }
            _ => Ok(None),
        },
        _ => Ok(None),
    }
}

/// An option in order. Numbers behind an index or a mask of bytes are moved at once, without a lane
/// of their places; and a mask of bytes is not made an index of all items.
fn ordered<'a, L: Ledger>(
    alloc: Global,
    x: &Array<'a>,
    arena: &'a Arena,
    steps: &mut Steps<L>,
) -> Result<OrderedOption<'a>, NoMemory>
    requires option { is_option (array_type x.now) ≡ true }
    ensures opened { IfOk result (λ r. IsOpened x.now (opened_option r)) }
    ensures inner { IfOk result (λ r. IsInner (opened_option r)) }
    ensures order { IfOk result (λ r. IsInOrder (array_items x.now) (opened_option r)) }
{
    if let Some(numbers) = masked_in_order(alloc, x, arena, steps)? {
        return Ok(numbers);
    }
    if has_numbers(x) {
        return numbers_in_order(alloc, x, arena, steps);
    }
    option_in_order(alloc, x, arena, steps)
}

/// The items of one operand that are there: its option in order.
fn present_items<'a, L: Ledger>(
    alloc: Global,
    n: u64,
    x: &Array<'a>,
    arena: &'a Arena,
    steps: &mut Steps<L>,
) -> Result<PresentRows<'a>, NoMemory>
    requires long { len x.now ≡ n }
    requires option { is_option (array_type x.now) ≡ true }
    ensures { IfOk result (IsPresentRows n (x.now ∷ [])) }
{
    let OrderedOption { index, content } = ordered(alloc, x, arena, steps)?;
    let count = content.len();
    let mut arrays = Arrays::new(alloc);
    arrays.push(content)?;
    Ok(PresentRows {
        index,
        count,
        arrays,
    })
}

/// The rows without a null. One operand alone is opened in order, and no row is looked at.
pub fn present_rows<'a, L: Ledger>(
    alloc: Global,
    n: u64,
    xs: &Arrays<'a>,
    arena: &'a Arena,
    steps: &mut Steps<L>,
) -> Result<PresentRows<'a>, NoMemory>
    requires long { AreLong n xs.now }
    requires few { n ≤ item_limit }
    ensures { IfOk result (IsPresentRows n xs.now) }
{
    if let Some(x) = only_option(xs) {
        return present_items(alloc, n, x, arena, steps);
    }
    let presences = presences_of(alloc, n, xs, arena, steps)?;
    let rows = kept_rows(alloc, n, &presences, arena, steps)?;
    Ok(rows)
}
