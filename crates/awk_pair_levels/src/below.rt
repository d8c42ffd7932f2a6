//! The rows below the rows of a level of lists.
ghost use Rattle.std.specs.Prelude.{◌≡◌, ◌≤◌, length, map, true, false, IfOk, IfSome};
ghost use Rattle.std.specs.List.{list_any};
ghost use Rattle.awk_types.specs.ItemLimit.{item_limit};
ghost use Rattle.awk_lanes.specs.Counted.{before, offsets_by};
ghost use Rattle.awk_lanes.specs.Places.{size_of};
ghost use Rattle.awk_layout.specs.Layout.{flat};
ghost use Rattle.awk_layout.specs.Typing.{array_type};
ghost use Rattle.awk_layout.specs.Valid.{len};
ghost use Rattle.awk_open.specs.Opened.{AreLong};
ghost use Rattle.awk_pair_sides.specs.Levels as spec;
ghost use Rattle.awk_columns.specs.Lists.{length_of};
ghost use Rattle.awk_pair_levels.specs.InRow.{IsOf, AreOf};
ghost use Rattle.awk_pair_levels.specs.Inner.{IsBelow};
ghost use Rattle.awk_pair_levels.specs.Shares.{is_lists, AreEven, AreAsLong, IsAmong};
ghost use Rattle.awk_pair_levels.specs.Shares.{IsAsLong, IsEven, IsNext, AreNext, IsRepeated};
ghost use Rattle.awk_pair_levels.specs.Shares.{AreRepeats, IsShared};
ghost use Rattle.awk_pair_levels.specs.declared.shares.Share.TheVariants as given;

use crate::alike::{all_plain, are_alike, is_flat, lead_in, level_class};
use crate::shares::{Share, no_places, shares_of};
use awk_columns::{Bounds, Lists, places_of};
use awk_gather::gather;
use awk_lanes::{Arena, Items, Lane, Lengths, NoMemory, Num, Steps, number};
use awk_layout::{Array, Arrays, Class, Node};
use awk_list_numbers::{Places, list_numbers};
use awk_list_rows::{items_in, own_ends, own_items, row_offsets};
use std::alloc::Global;
use std::sync::ledger::Ledger;

/// What lies below the rows of a level of lists.
#[derive(Drop)]
pub enum Below<'a> {
    /// The lists of some row differ in length.
    Unequal,
    /// There are too many rows below.
    TooMany,
    /// The rows below, one list after another, where each begins, and the class of the lists.
    Rows {
        class: Option<u64>,
        offsets: Lane<'a>,
        count: u64,
        arrays: Arrays<'a>,
    },
}

/// The place of each list, as often as it has items.
#[derive(Drop)]
struct Repeats<'b, 'r, 'a> {
    lists: &'b Bounds<'r, 'a>,
}

impl<'b, 'r, 'a> Lengths for Repeats<'b, 'r, 'a> {
    ghost use Rattle.awk_columns.specs.Lists.{length_of};
    ghost use Rattle.awk_lanes.specs.Places.{size_of};

    ghost length = { λ f. length_of f.lists.now };

    ghost size = { λ f. size_of f.lists.now.starts };

    fn length<L: Ledger>(&self, i: u64, _steps: &mut Steps<L>) -> u64 {
        self.lists.length_at(i)
    }
}

impl<'b, 'r, 'a> Places for Repeats<'b, 'r, 'a> {
    ghost place = { λ _ i k. i };

    fn place<L: Ledger>(&self, i: u64, _k: u64, _steps: &mut Steps<L>) -> u64 {
        i
    }
}

impl<'b, 'r, 'a> Items for Repeats<'b, 'r, 'a> {
    ghost use Rattle.std.specs.Prelude.{pos};
    ghost use Rattle.awk_lanes.specs.declared.kind.Kind.TheVariants as Kind;

    ghost kind = { λ _. Kind.I64 };

    ghost at = { λ _ i k. pos i };

    fn item<L: Ledger>(&self, i: u64, _k: u64, _steps: &mut Steps<L>) -> Num {
        let _ = self.lists.len();
        number(i)
    }
}

/// Lists that all operands share, of so many items together, and the place of each list as often as
/// it has items, where some operand needs these.
#[derive(Drop)]
struct Level<'b, 'r, 'a> {
    lead: &'b Bounds<'r, 'a>,
    count: u64,
    places: Lane<'a>,
}

/// The place of each of the lead's lists, as often as it has items, where an operand is repeated
/// that is no column of numbers.
fn repeats_of<'a, L: Ledger>(
    lead: &Bounds,
    count: u64,
    shares: &[Share<'a>],
    arena: &'a Arena,
    steps: &mut Steps<L>,
) -> Result<Lane<'a>, NoMemory>
    requires { count ≡ before (length_of lead.now) (size_of lead.now.starts) }
    ensures { let n = size_of lead.now.starts in
        IfOk result (λ r. AreRepeats (length_of lead.now) n r shares.now) }
{
    if all_plain(shares) {
        let none = no_places(arena)?;
        return Ok(none);
    }
    let n = lead.len();
    let repeats = Repeats { lists: lead };
    let places = places_of(n, count, &repeats, arena, steps)?;
    Ok(places)
}

/// Numbers, each as often as the list at its place has items.
fn repeated_numbers<'a, L: Ledger>(
    alloc: Global,
    level: &Level<'_, '_, 'a>,
    lane: &Lane<'a>,
    arena: &'a Arena,
    steps: &mut Steps<L>,
) -> Result<Array<'a>, NoMemory>
    requires long { size_of lane.now ≡ size_of level.now.lead.now.starts }
    requires count { let l = level.now.lead.now in
        level.now.count ≡ before (length_of l) (size_of l.starts) }
    requires few { level.now.count ≤ item_limit }
    ensures { let l = level.now.lead.now in
        IfOk result (IsNext (length_of l) (size_of l.starts) (given.Items (flat lane.now))) }
{
    let n = level.lead.len();
    let repeats = Repeats { lists: level.lead };
    let numbers = list_numbers(lane, n, level.count, &repeats, arena, steps)?;
    let array = Array::of_node(alloc, Node::numpy(numbers, steps))?;
    Ok(array)
}

/// An operand's items, each as often as the list at its place has items.
fn repeated<'a, L: Ledger>(
    alloc: Global,
    level: &Level<'_, '_, 'a>,
    y: &Array<'a>,
    arena: &'a Arena,
    steps: &mut Steps<L>,
) -> Result<Array<'a>, NoMemory>
    requires long { len y.now ≡ size_of level.now.lead.now.starts }
    requires count { let l = level.now.lead.now in
        level.now.count ≡ before (length_of l) (size_of l.starts) }
    requires few { level.now.count ≤ item_limit }
    requires places { let l = level.now.lead.now in
        IsRepeated (length_of l) (size_of l.starts) level.now.places (given.Items y.now) }
    ensures { let l = level.now.lead.now in
        IfOk result (IsNext (length_of l) (size_of l.starts) (given.Items y.now)) }
{
    if !is_flat(y) {
        let items = gather(alloc, y, &level.places, arena, steps)?;
        return Ok(items);
    }
    match y.node().class() {
        Class::Numpy { lane } => repeated_numbers(alloc, level, lane, arena, steps),
        _ => unreachable!(),
    }
}

/// The items of an operand's lists, of which there are so many, one list after another.
fn items_below<'a, L: Ledger>(
    alloc: Global,
    count: u64,
    x: &Array<'a>,
    lists: &Lists<'a>,
    arena: &'a Arena,
    steps: &mut Steps<L>,
) -> Result<Array<'a>, NoMemory>
    requires count { count ≡ before (length_of lists.now) (size_of lists.now.starts) }
    requires of { IsOf x.now (given.Lists lists.now) }
    ensures { let l = lists.now in
        IfOk result (IsNext (length_of l) (size_of l.starts) (given.Lists l)) }
{
    if let Some(own) = own_items(alloc, x, steps)? {
        return Ok(own);
    }
    let items = items_in(alloc, count, lists, arena, steps)?;
    Ok(items)
}

/// What an operand gives to the rows below: the items of its lists, or its items repeated.
fn column_below<'a, L: Ledger>(
    alloc: Global,
    level: &Level<'_, '_, 'a>,
    x: &Array<'a>,
    share: &Share<'a>,
    arena: &'a Arena,
    steps: &mut Steps<L>,
) -> Result<Array<'a>, NoMemory>
    requires count { let l = level.now.lead.now in
        level.now.count ≡ before (length_of l) (size_of l.starts) }
    requires few { level.now.count ≤ item_limit }
    requires long { IsAsLong (size_of level.now.lead.now.starts) share.now }
    requires even { let l = level.now.lead.now in
        IsEven (length_of l) (size_of l.starts) share.now }
    requires places { let l = level.now.lead.now in
        IsRepeated (length_of l) (size_of l.starts) level.now.places share.now }
    requires of { IsOf x.now share.now }
    ensures { let l = level.now.lead.now in
        IfOk result (IsNext (length_of l) (size_of l.starts) share.now) }
{
    match share {
        Share::Lists(lists) => {
            let items = items_below(alloc, level.count, x, lists, arena, steps)?;
            Ok(items)
        }
        Share::Items(y) => {
            let items = repeated(alloc, level, y, arena, steps)?;
            Ok(items)
        }
    }
}

/// What each operand gives to the rows below.
fn columns_below<'a, L: Ledger>(
    alloc: Global,
    lead: &Bounds<'_, 'a>,
    count: u64,
    xs: &Arrays<'a>,
    shares: &[Share<'a>],
    arena: &'a Arena,
    steps: &mut Steps<L>,
) -> Result<Arrays<'a>, NoMemory>
    requires long { AreAsLong (size_of lead.now.starts) shares.now }
    requires even { AreEven (length_of lead.now) (size_of lead.now.starts) shares.now }
    requires count { count ≡ before (length_of lead.now) (size_of lead.now.starts) }
    requires few { count ≤ item_limit }
    requires same { length xs.now ≡ length shares.now }
    requires of { AreOf xs.now shares.now }
    ensures { let n = size_of lead.now.starts in
        IfOk result (AreNext (length_of lead.now) n shares.now) }
{
    let places = repeats_of(lead, count, shares, arena, steps)?;
    let level = Level {
        lead,
        count,
        places,
    };
    let mut columns = Arrays::new(alloc);
    for i in 0..shares.len() {
        let column = column_below(alloc, &level, xs.get(i), &shares[i], arena, steps)?;
        columns.push(column)?;
    }
    Ok(columns)
}

/// The rows below lists that are all as long as those of the lead.
fn rows_by<'a, L: Ledger>(
    alloc: Global,
    lead: &Lists<'a>,
    ends: Option<Lane<'a>>,
    xs: &Arrays<'a>,
    shares: &[Share<'a>],
    arena: &'a Arena,
    steps: &mut Steps<L>,
) -> Result<Below<'a>, NoMemory>
    requires ends { IfSome ends (λ o.
        o ≡ offsets_by (length_of lead.now) (size_of lead.now.starts)) }
    requires long { AreAsLong (size_of lead.now.starts) shares.now }
    requires lead { IsAmong lead.now shares.now }
    requires even { AreEven (length_of lead.now) (size_of lead.now.starts) shares.now }
    requires same { length xs.now ≡ length shares.now }
    requires of { AreOf xs.now shares.now }
    ensures { IfOk result (IsShared (size_of lead.now.starts) shares.now) }
{
    let _ = lead.len();
    let bounds = Bounds::new(alloc, lead, arena, steps)?;
    match row_offsets(&bounds, ends, arena, steps)? {
        None => Ok(Below::TooMany),
        Some(offsets) => {
            let count = offsets.total;
            let arrays = columns_below(alloc, &bounds, count, xs, shares, arena, steps)?;
            Ok(Below::Rows {
                class: level_class(shares),
                offsets: offsets.lane,
                count,
                arrays,
            })
        }
    }
}

/// The rows below what operands give to a level.
fn shared_rows<'a, L: Ledger>(
    alloc: Global,
    n: u64,
    xs: &Arrays<'a>,
    shares: &[Share<'a>],
    arena: &'a Arena,
    steps: &mut Steps<L>,
) -> Result<Below<'a>, NoMemory>
    requires long { AreAsLong n shares.now }
    requires lists { list_any is_lists shares.now ≡ true }
    requires same { length xs.now ≡ length shares.now }
    requires of { AreOf xs.now shares.now }
    ensures { IfOk result (IsShared n shares.now) }
{
    let lead = lead_in(shares);
    let ends = own_ends(xs.get(lead.place), steps);
    if !are_alike(&lead, &ends, xs, shares, steps) {
        return Ok(Below::Unequal);
    }
    rows_by(alloc, lead.lists, ends, xs, shares, arena, steps)
}

/// The rows below those of a level of lists without nulls. Where `keep` is true no list of the
/// first operand is stretched.
pub fn rows_below<'a, L: Ledger>(
    alloc: Global,
    keep: bool,
    n: u64,
    xs: &Arrays<'a>,
    arena: &'a Arena,
    steps: &mut Steps<L>,
) -> Result<Below<'a>, NoMemory>
    requires long { AreLong n xs.now }
    requires lists { spec.opens (map array_type xs.now) ≡ true }
    requires bare { spec.some_option (map array_type xs.now) ≡ false }
    ensures { IfOk result (IsBelow keep n xs.now) }
{
    let shares = shares_of(alloc, keep, n, xs, arena, steps)?;
    let below = shared_rows(alloc, n, xs, &shares, arena, steps)?;
    Ok(below)
}
