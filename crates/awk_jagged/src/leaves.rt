//! The innermost picks: by masks and by places, in pairs of lists.
ghost use Rattle.std.specs.Prelude.{◌≡◌, ◌≢◌, ◌<◌, ◌^◌, true, false, Some, IfOk, IfSome, IsTrue};
ghost use Rattle.awk_types.specs.ItemLimit.{item_limit};
ghost use Rattle.awk_types.specs.Simple.{present, is_option};
ghost use Rattle.awk_lanes.specs.Counted.{before, AreOffsetsBy};
ghost use Rattle.awk_lanes.specs.Places.{size_of, IsIndex, IsIndexKind, IsOptionalIndex};
ghost use Rattle.awk_lanes.specs.declared.kind.Kind.TheVariants as Kinds;
ghost use Rattle.awk_layout.specs.Layout.{flat};
ghost use Rattle.awk_layout.specs.Typing.{array_type};
ghost use Rattle.awk_layout.specs.Valid.{len};
ghost use Rattle.awk_columns.specs.Lists.{length_of};
ghost use Rattle.awk_select.specs.Cells.{AreCells, truth_cells};
ghost use Rattle.awk_types.specs.Predicates.{is_leaf};
ghost use Rattle.awk_select.specs.Picks as picks;
ghost use Rattle.awk_jagged_places.specs.Leaves.{AreLeaves, mask_numbers};
ghost use Rattle.awk_jagged.specs.PickedAt.{ArePlacesOr, ArePicked, AreWithinOr, IsPickedAt};
ghost use Rattle.awk_jagged.specs.Outcomes.{IsOutcomeOf};
ghost use Rattle.awk_jagged_rows.specs.Rows.{AreAlike};

use awk_columns::{Bounds, Lists};
use awk_gather::{gather, gather_opt};
use awk_index::{Index, index_of};
use awk_jagged_places::{
    Beside, Kept, Taken, TakenNumbers, beside_lists, kept_lane, lengths_differ, put_lane,
    room_beside,
};
use awk_lanes::{Arena, Kind, Lane, Offsets, Steps, offsets_within};
use awk_layout::{Array, Class, Node, wide_numbers};
use awk_select::{Cells, Sparse, Truths, Values, cells_of, is_mask, truths_of};
use awk_types::{ITEM_LIMIT, NoMemory, is_optional};
use std::alloc::{AllocError, Global};
use std::sync::ledger::Ledger;

/// What is picked from lists by those of an index.
#[derive(Drop)]
pub enum Outcome<'a> {
    /// A list of a mask, or of rows, is not as long as what is picked from.
    Uneven,
    /// A place is not in its list.
    Outside,
    /// A column of the result has too many items.
    TooMany,
    Lists {
        offsets: Lane<'a>,
        content: Node<'a>,
    },
}

/// Where picks lie in a content, list by list.
#[derive(Drop)]
struct Places<'a> {
    offsets: Lane<'a>,
    lane: Lane<'a>,
}

/// The places where a mask is true, unless they are too many.
fn kept<'a, V: Values, L: Ledger>(
    picks: &Kept<'_, '_, 'a, V>,
    n: u64,
    arena: &'a Arena,
    steps: &mut Steps<L>,
) -> Result<Option<Places<'a>>, NoMemory>
    requires leaves { AreLeaves picks.now.xs.now picks.now.ws.now (V.cells picks.now.cells.now) }
    requires alike { AreAlike picks.now.xs.now picks.now.ws.now }
    requires lists { n ≡ size_of picks.now.ws.now.starts }
    requires fits { n < 2 ^ 63 }
    ensures { IfOk result (ArePlacesOr (mask_numbers picks.now.xs.now picks.now.ws.now) n) }
{
    match offsets_within(ITEM_LIMIT, n, picks, arena, steps)? {
        None => Ok(None),
        Some(offsets) => {
            let lane = kept_lane(n, offsets.total, picks, arena, steps)?;
            Ok(Some(Places {
                offsets: offsets.lane,
                lane,
            }))
        }
    }
}

/// The items of an array at places, and null at each negative number.
fn items_at<'a, L: Ledger>(
    alloc: Global,
    x: &Array<'a>,
    places: &Lane<'a>,
    optional: bool,
    arena: &'a Arena,
    steps: &mut Steps<L>,
) -> Result<Node<'a>, NoMemory>
    requires kind { places.now.kind ≡ Kinds.I64 }
    requires places { IsOptionalIndex places.now (len x.now) }
    requires present { optional ≡ false → IsIndex places.now (len x.now) }
    ensures { IfOk result (ArePicked optional x.now places.now) }
{
    if !optional {
        let items = gather(alloc, x, places, arena, steps)?;
        let _ = items.len(); // its node is valid
        return items.node().copy(alloc);
    }
    match gather_opt(alloc, x, places, arena, steps) {
        Ok(items) => items.node().copy(alloc),
        // The type is within the limits, so memory alone is wanting.
        Err(_) => Err(AllocError),
    }
}

/// What is picked from a content at places, unless these are too many.
fn picked_at<'a, L: Ledger>(
    alloc: Global,
    x: &Array<'a>,
    places: Option<Places<'a>>,
    optional: bool,
    arena: &'a Arena,
    steps: &mut Steps<L>,
) -> Result<Outcome<'a>, NoMemory>
    requires places { AreWithinOr optional (len x.now) places }
    ensures { IfOk result (IsPickedAt optional x.now places.entry) }
{
    match places {
        None => Ok(Outcome::TooMany),
        Some(places) => Ok(Outcome::Lists {
            content: items_at(alloc, x, &places.lane, optional, arena, steps)?,
            offsets: places.offsets,
        }),
    }
}

/// What is picked from lists by those of a mask, which are as long.
fn by_masks<'s, 'a, V: Values, L: Ledger>(
    alloc: Global,
    xs: &Bounds<'s, 'a>,
    ws: &Bounds<'s, 'a>,
    cells: &V,
    arena: &'a Arena,
    steps: &mut Steps<L>,
) -> Result<Outcome<'a>, NoMemory>
    requires pairs { size_of xs.now.starts ≡ size_of ws.now.starts }
    requires alike { AreAlike xs.now ws.now }
    requires leaf { is_leaf (present (array_type ws.now.content)) ≡ true }
    requires mask { picks.is_mask (array_type ws.now.content) ≡ true }
    requires cells { AreCells ws.now.content (V.cells cells.now) }
    ensures { IfOk result (IsOutcomeOf xs.now ws.now) }
{
    let content = xs.content();
    let index = ws.content();
    let _ = index.len();
    let optional = is_optional(index.typ());
    let picks = Kept { xs, ws, cells };
    let places = kept(&picks, ws.len(), arena, steps)?;
    picked_at(alloc, content, places, optional, arena, steps)
}

/// What is told of an index of more items than a column may have: a place that is missing first.
fn too_many<'a, V: Values, L: Ledger>(
    source: &Taken<'_, '_, 'a, V>,
    steps: &mut Steps<L>,
) -> Outcome<'a>
    requires leaves { AreLeaves source.now.xs.now source.now.ws.now (V.cells source.now.cells.now) }
    requires leaf { is_leaf (present (array_type source.now.ws.now.content)) ≡ true }
    requires mask { picks.is_mask (array_type source.now.ws.now.content) ≡ false }
    requires many { item_limit
        < before (length_of source.now.ws.now) (size_of source.now.ws.now.starts) }
    ensures { IsOutcomeOf source.now.xs.now source.now.ws.now result }
{
    let _ = source.xs.content();
    if source.has_outside(steps) {
        return Outcome::Outside;
    }
    Outcome::TooMany
}

/// What is picked from n lists by those of an index, in one pass over it.
fn places_taken<'s, 'a, V: Values, L: Ledger>(
    alloc: Global,
    source: &Taken<'_, 's, 'a, V>,
    n: u64,
    offsets: Offsets<'a>,
    arena: &'a Arena,
    steps: &mut Steps<L>,
) -> Result<Outcome<'a>, NoMemory>
    requires leaves { AreLeaves source.now.xs.now source.now.ws.now (V.cells source.now.cells.now) }
    requires leaf { is_leaf (present (array_type source.now.ws.now.content)) ≡ true }
    requires mask { picks.is_mask (array_type source.now.ws.now.content) ≡ false }
    requires lists { n ≡ size_of source.now.ws.now.starts }
    requires offsets { AreOffsetsBy item_limit (length_of source.now.ws.now) n
        (Some offsets) }
    ensures { IfOk result (IsOutcomeOf source.now.xs.now source.now.ws.now) }
{
    let content = source.xs.content();
    let index = source.ws.content();
    let _ = index.len();
    let optional = is_optional(index.typ());
    match put_lane(n, offsets.total, source, arena, steps)? {
        None => Ok(Outcome::Outside),
        Some(lane) => {
            let places = Places {
                offsets: offsets.lane,
                lane,
            };
            picked_at(alloc, content, Some(places), optional, arena, steps)
        }
    }
}

/// The lane of an array of numbers that lie side by side, of which none is a truth value.
fn plain_lane<'x, 'a>(x: &'x Array<'a>) -> Option<&'x Lane<'a>>
    ensures { IfSome result (λ c. (c.now.kind ≢ Kinds.Bool) × (x.now ≡ flat c.now)) }
{
    match x.node().class() {
        Class::Numpy { lane } if lane.kind() != Kind::Bool => Some(lane),
        _ => None,
    }
}

/// What is picked from n lists of numbers that lie side by side in 64 bits by an index without
/// nulls: each is moved as its place is read, and no lane of places is made.
fn numbers_taken<'s, 'a, V: Values, L: Ledger>(
    source: &Taken<'_, 's, 'a, V>,
    numbers: &Index<'a>,
    n: u64,
    offsets: Offsets<'a>,
    arena: &'a Arena,
    steps: &mut Steps<L>,
) -> Result<Outcome<'a>, NoMemory>
    requires leaves { AreLeaves source.now.xs.now source.now.ws.now (V.cells source.now.cells.now) }
    requires leaf { is_leaf (present (array_type source.now.ws.now.content)) ≡ true }
    requires mask { picks.is_mask (array_type source.now.ws.now.content) ≡ false }
    requires present { is_option (array_type source.now.ws.now.content) ≡ false }
    requires kind { numbers.now.kind ≡ Kinds.I64 }
    requires content { source.now.xs.now.content ≡ flat numbers.now }
    requires lists { n ≡ size_of source.now.ws.now.starts }
    requires offsets { AreOffsetsBy item_limit (length_of source.now.ws.now) n
        (Some offsets) }
    ensures { IfOk result (IsOutcomeOf source.now.xs.now source.now.ws.now) }
{
    let _ = source.xs.content();
    let index = source.ws.content();
    let _ = index.len();
    let moved = TakenNumbers {
        picks: source,
        numbers,
    };
    match put_lane(n, offsets.total, &moved, arena, steps)? {
        None => Ok(Outcome::Outside),
        Some(lane) => Ok(Outcome::Lists {
            offsets: offsets.lane,
            content: Node::numpy(lane, steps),
        }),
    }
}

/// What is picked from n lists by those of an index of places, whose items are not too many.
fn taken<'s, 'a, V: Values, L: Ledger>(
    alloc: Global,
    source: &Taken<'_, 's, 'a, V>,
    n: u64,
    offsets: Offsets<'a>,
    arena: &'a Arena,
    steps: &mut Steps<L>,
) -> Result<Outcome<'a>, NoMemory>
    requires leaves { AreLeaves source.now.xs.now source.now.ws.now (V.cells source.now.cells.now) }
    requires leaf { is_leaf (present (array_type source.now.ws.now.content)) ≡ true }
    requires mask { picks.is_mask (array_type source.now.ws.now.content) ≡ false }
    requires lists { n ≡ size_of source.now.ws.now.starts }
    requires offsets { AreOffsetsBy item_limit (length_of source.now.ws.now) n
        (Some offsets) }
    ensures { IfOk result (IsOutcomeOf source.now.xs.now source.now.ws.now) }
{
    let index = source.ws.content();
    let optional = is_optional(index.typ());
    if optional {
        return places_taken(alloc, source, n, offsets, arena, steps);
    }
    match wide_numbers(source.xs.content(), steps) {
        Some(numbers) => numbers_taken(source, &numbers, n, offsets, arena, steps),
        None => places_taken(alloc, source, n, offsets, arena, steps),
    }
}

/// What is picked from lists by those of an index of places.
fn by_places<'s, 'a, V: Values, L: Ledger>(
    alloc: Global,
    xs: &Bounds<'s, 'a>,
    ws: &Bounds<'s, 'a>,
    cells: &V,
    arena: &'a Arena,
    steps: &mut Steps<L>,
) -> Result<Outcome<'a>, NoMemory>
    requires pairs { size_of xs.now.starts ≡ size_of ws.now.starts }
    requires leaf { is_leaf (present (array_type ws.now.content)) ≡ true }
    requires mask { picks.is_mask (array_type ws.now.content) ≡ false }
    requires cells { AreCells ws.now.content (V.cells cells.now) }
    ensures { IfOk result (IsOutcomeOf xs.now ws.now) }
{
    let picks = Taken { xs, ws, cells };
    let n = ws.len();
    match offsets_within(ITEM_LIMIT, n, ws, arena, steps)? {
        None => Ok(too_many(&picks, steps)),
        Some(offsets) => taken(alloc, &picks, n, offsets, arena, steps),
    }
}

/// What is picked from lists of numbers that lie side by side by truth values: each is moved as the
/// truth value beside it is read, and the offsets are made meanwhile. No lane of places is made.
fn numbers_kept<'s, 'a, L: Ledger>(
    xs: &Bounds<'s, 'a>,
    ws: &Bounds<'s, 'a>,
    truths: &Truths<'a>,
    numbers: &Lane<'a>,
    arena: &'a Arena,
    steps: &mut Steps<L>,
) -> Result<Outcome<'a>, NoMemory>
    requires pairs { size_of xs.now.starts ≡ size_of ws.now.starts }
    requires alike { AreAlike xs.now ws.now }
    requires leaf { is_leaf (present (array_type ws.now.content)) ≡ true }
    requires mask { picks.is_mask (array_type ws.now.content) ≡ true }
    requires present { is_option (array_type ws.now.content) ≡ false }
    requires cells { AreCells ws.now.content (truth_cells truths.now.bytes.now) }
    requires plain { numbers.now.kind ≢ Kinds.Bool }
    requires content { xs.now.content ≡ flat numbers.now }
    ensures { IfOk result (IsOutcomeOf xs.now ws.now) }
{
    let _ = xs.content();
    let index = ws.content();
    let _ = index.len();
    let n = ws.len();
    let picks = Beside { xs, ws, truths };
    let Some(room) = room_beside(&picks, arena, steps)? else {
        return Ok(Outcome::TooMany);
    };
    let moved = beside_lists(n, room, &picks, numbers, arena, steps)?;
    Ok(Outcome::Lists {
        offsets: moved.offsets,
        content: Node::numpy(moved.lane, steps),
    })
}

/// What is picked from lists by those of truth values, which are as long.
fn by_truths<'s, 'a, L: Ledger>(
    alloc: Global,
    xs: &Bounds<'s, 'a>,
    ws: &Bounds<'s, 'a>,
    truths: &Truths<'a>,
    arena: &'a Arena,
    steps: &mut Steps<L>,
) -> Result<Outcome<'a>, NoMemory>
    requires pairs { size_of xs.now.starts ≡ size_of ws.now.starts }
    requires alike { AreAlike xs.now ws.now }
    requires leaf { is_leaf (present (array_type ws.now.content)) ≡ true }
    requires mask { picks.is_mask (array_type ws.now.content) ≡ true }
    requires cells { AreCells ws.now.content (truth_cells truths.now.bytes.now) }
    ensures { IfOk result (IsOutcomeOf xs.now ws.now) }
{
    let index = ws.content();
    let optional = is_optional(index.typ());
    if optional {
        return by_masks(alloc, xs, ws, truths, arena, steps);
    }
    match plain_lane(xs.content()) {
        Some(numbers) => numbers_kept(xs, ws, truths, numbers, arena, steps),
        None => by_masks(alloc, xs, ws, truths, arena, steps),
    }
}

/// What is picked from lists by those of a mask, in the form in which its values lie.
fn masked<'s, 'a, L: Ledger>(
    alloc: Global,
    xs: &Bounds<'s, 'a>,
    ws: &Bounds<'s, 'a>,
    cells: &Cells<'a>,
    arena: &'a Arena,
    steps: &mut Steps<L>,
) -> Result<Outcome<'a>, NoMemory>
    requires pairs { size_of xs.now.starts ≡ size_of ws.now.starts }
    requires leaf { is_leaf (present (array_type ws.now.content)) ≡ true }
    requires mask { picks.is_mask (array_type ws.now.content) ≡ true }
    requires cells { AreCells ws.now.content cells.now }
    ensures { IfOk result (IsOutcomeOf xs.now ws.now) }
{
    if lengths_differ(xs, ws) {
        return Ok(Outcome::Uneven);
    }
    if let Cells::Plain(lane) = cells {
        if lane.kind() == Kind::Bool {
            let truths = truths_of(lane, steps);
            return by_truths(alloc, xs, ws, &truths, arena, steps);
        }
    }
    by_masks(alloc, xs, ws, cells, arena, steps)
}

/// Whether numbers of a kind are seen as an index.
fn is_index(kind: Kind) -> bool
    ensures { IsTrue result → IsIndexKind kind }
{
    match kind {
        Kind::I32 | Kind::U32 | Kind::I64 => true,
        _ => false,
    }
}

/// Whether numbers of both of two kinds are.
fn are_indexes(a: Kind, b: Kind) -> bool
    ensures { IsTrue result → IsIndexKind a × IsIndexKind b }
{
    if is_index(a) {
        return is_index(b);
    }
    false
}

/// What is picked from lists by those of an index of places, in the form in which these lie.
fn placed<'s, 'a, L: Ledger>(
    alloc: Global,
    xs: &Bounds<'s, 'a>,
    ws: &Bounds<'s, 'a>,
    cells: &Cells<'a>,
    arena: &'a Arena,
    steps: &mut Steps<L>,
) -> Result<Outcome<'a>, NoMemory>
    requires pairs { size_of xs.now.starts ≡ size_of ws.now.starts }
    requires leaf { is_leaf (present (array_type ws.now.content)) ≡ true }
    requires mask { picks.is_mask (array_type ws.now.content) ≡ false }
    requires cells { AreCells ws.now.content cells.now }
    ensures { IfOk result (IsOutcomeOf xs.now ws.now) }
{
    match cells {
        Cells::Plain(lane) if is_index(lane.kind()) => {
            let places = index_of(alloc, lane, arena, steps)?;
            by_places(alloc, xs, ws, &places, arena, steps)
        }
        Cells::Optional { index, lane } if are_indexes(index.kind(), lane.kind()) => {
            let places = Sparse {
                index: index_of(alloc, index, arena, steps)?,
                numbers: index_of(alloc, lane, arena, steps)?,
            };
            by_places(alloc, xs, ws, &places, arena, steps)
        }
        _ => by_places(alloc, xs, ws, cells, arena, steps),
    }
}

/// What is picked from lists, whose ends are seen, by those of a mask or of places.
fn seen_leaves<'s, 'a, L: Ledger>(
    alloc: Global,
    xs: &Bounds<'s, 'a>,
    ws: &Bounds<'s, 'a>,
    arena: &'a Arena,
    steps: &mut Steps<L>,
) -> Result<Outcome<'a>, NoMemory>
    requires pairs { size_of xs.now.starts ≡ size_of ws.now.starts }
    requires leaf { is_leaf (present (array_type ws.now.content)) ≡ true }
    ensures { IfOk result (IsOutcomeOf xs.now ws.now) }
{
    let index = ws.content();
    let cells = cells_of(alloc, index, arena, steps)?;
    if is_mask(index.typ()) {
        masked(alloc, xs, ws, &cells, arena, steps)
    } else {
        placed(alloc, xs, ws, &cells, arena, steps)
    }
}

/// What is picked from lists by those of a mask or of places.
pub fn picked_leaves<'a, L: Ledger>(
    alloc: Global,
    xs: &Lists<'a>,
    ws: &Lists<'a>,
    arena: &'a Arena,
    steps: &mut Steps<L>,
) -> Result<Outcome<'a>, NoMemory>
    requires pairs { size_of xs.now.starts ≡ size_of ws.now.starts }
    requires leaf { is_leaf (present (array_type ws.now.content)) ≡ true }
    ensures { IfOk result (IsOutcomeOf xs.now ws.now) }
{
    let xs = Bounds::new(alloc, xs, arena, steps)?;
    let ws = Bounds::new(alloc, ws, arena, steps)?;
    seen_leaves(alloc, &xs, &ws, arena, steps)
}
