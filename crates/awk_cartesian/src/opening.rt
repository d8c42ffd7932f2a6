//! Operands as lists of rows.
ghost use Rattle.std.specs.Prelude.{◌≡◌, ◌<◌, ◌∷◌, [], true, false, Some, pos, IfOk, is_some};
ghost use Rattle.awk_types.specs.Parts.{list_item, IsListType};
ghost use Rattle.awk_types.specs.Simple.{is_option};
ghost use Rattle.awk_types.specs.Value.{list, values_from};
ghost use Rattle.awk_lanes.specs.Numbers.{int_of, IsOf};
ghost use Rattle.awk_lanes.specs.Places.{size_of};
ghost use Rattle.awk_lanes.specs.declared.kind.Kind.TheVariants as Kinds;
ghost use Rattle.awk_layout.specs.Datum.{datum_of};
ghost use Rattle.awk_layout.specs.Typing.{array_type, array_items};
ghost use Rattle.awk_layout.specs.Valid.{len};
ghost use Rattle.awk_gather.specs.Arrays.{array_item};
ghost use Rattle.awk_merge_operands.specs.Operands as spec;
ghost use Rattle.awk_merge_operands.specs.Operands.{values_by, IndexHas, IsListIndex};
ghost use Rattle.awk_cartesian.specs.Cartesian.{rows_item, operand_item};
ghost use Rattle.awk_cartesian.specs.Sources.{rows_in, may_be_null, IsOpened, IsOfLists, IsOfNone};
ghost use Rattle.awk_cartesian.specs.Spans as spans;
ghost use Rattle.awk_open.specs.Opens.{OpensLists, OpensOption};

use crate::sources::Source;
use awk_columns::{Bounds, Lists};
use awk_lanes::{Arena, Kind, Lane, Num, Numbers, Steps, made_lane, number, option_place_in};
use awk_layout::{Array, Datum};
use awk_merge_operands::Axis;
use awk_open::{Opened, open_array};
use awk_products::repeated;
use awk_types::{NoMemory, is_optional, is_unknown};
use std::alloc::Global;
use std::sync::ledger::Ledger;

/// Which list a row is: the one of its place, or by the index of an option.
pub(crate) fn list_place<L: Ledger>(
    index: &Option<Lane>,
    i: u64,
    steps: &mut Steps<L>,
) -> Option<u64>
    requires { IndexHas index.now i }
    ensures { result ≡ spec.list_place index.now i }
{
    match index {
        Some(index) => option_place_in(index, i, steps),
        None => Some(i),
    }
}

/// Rows that are lists by an index, or null.
#[derive(Drop)]
struct Indexed<'b, 'c, 'r, 'a> {
    n: u64,
    index: &'b Option<Lane<'a>>,
    lists: &'c Bounds<'r, 'a>,
}

/// Where a list begins, but 0 where it is empty.
fn first_at(lists: &Bounds, place: u64) -> Num
    requires { place < size_of lists.now.starts }
    ensures number { let said = spans.first_of lists.now.starts lists.now.stops (Some place) in
        int_of result ≡ pos said }
    ensures kind { IsOf Kinds.I64 result }
{
    let span = lists.span_of(place);
    if span.length == 0 {
        return number(0);
    }
    number(span.start)
}

/// The first places of rows.
#[derive(Drop)]
struct Firsts<'b, 'c, 'r, 'a> {
    rows: Indexed<'b, 'c, 'r, 'a>,
}

impl<'b, 'c, 'r, 'a> Numbers for Firsts<'b, 'c, 'r, 'a> {
    ghost use Rattle.std.specs.Prelude.{pos};
    ghost use Rattle.awk_lanes.specs.Places.{size_of};
    ghost use Rattle.awk_lanes.specs.declared.kind.Kind.TheVariants as Kinds;
    ghost use Rattle.awk_merge_operands.specs.Operands.{list_place, IsListIndex};
    ghost use Rattle.awk_cartesian.specs.Spans.{first_of};

    ghost kind = { λ _. Kinds.I64 };

    ghost at = { λ f i. pos (first_of f.rows.lists.now.starts f.rows.lists.now.stops
        (list_place f.rows.index.now i)) };

    ghost size = { λ f. f.rows.n };

    ghost IsReady = { λ f. IsListIndex f.rows.index.now f.rows.n
        (size_of f.rows.lists.now.starts) };

    fn number<L: Ledger>(&self, i: u64, steps: &mut Steps<L>) -> Num {
        match list_place(self.rows.index, i, steps) {
            Some(place) => first_at(self.rows.lists, place),
            None => number(0),
        }
    }
}

/// The lengths of rows.
#[derive(Drop)]
struct RowLengths<'b, 'c, 'r, 'a> {
    rows: Indexed<'b, 'c, 'r, 'a>,
}

impl<'b, 'c, 'r, 'a> Numbers for RowLengths<'b, 'c, 'r, 'a> {
    ghost use Rattle.std.specs.Prelude.{pos};
    ghost use Rattle.awk_lanes.specs.Places.{size_of};
    ghost use Rattle.awk_lanes.specs.declared.kind.Kind.TheVariants as Kinds;
    ghost use Rattle.awk_merge_operands.specs.Operands.{list_place, IsListIndex};
    ghost use Rattle.awk_cartesian.specs.Spans.{length_of};

    ghost kind = { λ _. Kinds.I64 };

    ghost at = { λ f i. pos (length_of f.rows.lists.now.starts f.rows.lists.now.stops
        (list_place f.rows.index.now i)) };

    ghost size = { λ f. f.rows.n };

    ghost IsReady = { λ f. IsListIndex f.rows.index.now f.rows.n
        (size_of f.rows.lists.now.starts) };

    fn number<L: Ledger>(&self, i: u64, steps: &mut Steps<L>) -> Num {
        match list_place(self.rows.index, i, steps) {
            Some(place) => number(self.rows.lists.length_at(place)),
            None => number(0),
        }
    }
}

/// The first place of each row, as a lane.
fn first_lane<'r, 'a, L: Ledger>(
    index: &Option<Lane<'a>>,
    n: u64,
    lists: &Bounds<'r, 'a>,
    arena: &'a Arena,
    steps: &mut Steps<L>,
) -> Result<Lane<'a>, NoMemory>
    requires { IsListIndex index.now n (size_of lists.now.starts) }
    ensures { IfOk result (λ r.
        r ≡ spans.first_lane index.now lists.now.starts lists.now.stops n) }
{
    let rows = Indexed { n, index, lists };
    made_lane(Kind::I64, n, &Firsts { rows }, arena, steps)
}

/// The length of each row, as a lane.
fn length_lane<'r, 'a, L: Ledger>(
    index: &Option<Lane<'a>>,
    n: u64,
    lists: &Bounds<'r, 'a>,
    arena: &'a Arena,
    steps: &mut Steps<L>,
) -> Result<Lane<'a>, NoMemory>
    requires { IsListIndex index.now n (size_of lists.now.starts) }
    ensures { IfOk result (λ r.
        r ≡ spans.length_lane index.now lists.now.starts lists.now.stops n) }
{
    let rows = Indexed { n, index, lists };
    made_lane(Kind::I64, n, &RowLengths { rows }, arena, steps)
}

/// The lists of an array of lists.
fn opened_lists<'a, L: Ledger>(
    alloc: Global,
    x: &Array<'a>,
    arena: &'a Arena,
    steps: &mut Steps<L>,
) -> Result<Lists<'a>, NoMemory>
    requires { IsListType (array_type x.now) }
    ensures { IfOk result (λ r. OpensLists r.class r.starts r.stops r.content x.now) }
{
    match open_array(alloc, x, arena, steps)? {
        Opened::Items(lists) => Ok(lists),
        _ => unreachable!(),
    }
}

/// Items that may be null: where each is in a content.
#[derive(Drop)]
struct Nullable<'a> {
    index: Lane<'a>,
    content: Array<'a>,
}

/// The items of an array that may be null.
fn opened_option<'a, L: Ledger>(
    alloc: Global,
    x: &Array<'a>,
    arena: &'a Arena,
    steps: &mut Steps<L>,
) -> Result<Nullable<'a>, NoMemory>
    requires { is_option (array_type x.now) ≡ true }
    ensures { IfOk result (λ r. OpensOption r.index r.content x.now) }
{
    match open_array(alloc, x, arena, steps)? {
        Opened::Option { index, content } => Ok(Nullable { index, content }),
        _ => unreachable!(),
    }
}

/// Rows that are lists by an index.
fn lists_source<'a, L: Ledger>(
    alloc: Global,
    index: Option<Lane<'a>>,
    n: u64,
    lists: &Lists<'a>,
    arena: &'a Arena,
    steps: &mut Steps<L>,
) -> Result<Source<'a>, NoMemory>
    requires { IsListIndex index n (size_of lists.now.starts) }
    ensures { IfOk result (IsOfLists index.entry n lists.now) }
{
    let bounds = Bounds::new(alloc, lists, arena, steps)?;
    let first = first_lane(&index, n, &bounds, arena, steps)?;
    let length = length_lane(&index, n, &bounds, arena, steps)?;
    let content = lists.content().copy(alloc)?;
    Ok(Source {
        index,
        first,
        length,
        content,
    })
}

/// Rows of no lists.
fn empty_source<'a, L: Ledger>(
    alloc: Global,
    index: Option<Lane<'a>>,
    n: u64,
    x: &Array<'a>,
    arena: &'a Arena,
    steps: &mut Steps<L>,
) -> Result<Source<'a>, NoMemory>
    ensures { IfOk result (IsOfNone index.entry n x.now) }
{
    let first = repeated(n, 0, arena, steps)?;
    let length = repeated(n, 0, arena, steps)?;
    let content = x.copy(alloc)?;
    Ok(Source {
        index,
        first,
        length,
        content,
    })
}

/// Rows that are the lists of an array, by an index.
fn indexed_source<'a, L: Ledger>(
    alloc: Global,
    index: Option<Lane<'a>>,
    n: u64,
    x: &Array<'a>,
    arena: &'a Arena,
    steps: &mut Steps<L>,
) -> Result<Source<'a>, NoMemory>
    requires lists { is_some (list_item (array_type x.now)) ≡ true }
    requires index { IsListIndex index n (len x.now) }
    ensures { let vs = values_by index.entry n (array_item x.now) in
        let item = list_item (array_type x.now) in
        IfOk result (IsOpened vs item (is_some index.entry)) }
{
    let _ = x.len();
    if is_unknown(x.typ()) {
        return empty_source(alloc, index, n, x, arena, steps);
    }
    let lists = opened_lists(alloc, x, arena, steps)?;
    lists_source(alloc, index, n, &lists, arena, steps)
}

/// The rows of an array, each a list of its own.
fn rows_source<'a, L: Ledger>(
    alloc: Global,
    x: &Array<'a>,
    arena: &'a Arena,
    steps: &mut Steps<L>,
) -> Result<Source<'a>, NoMemory>
    requires lists { is_some (rows_item (array_type x.now)) ≡ true }
    ensures { let t = array_type x.now in
        IfOk result (IsOpened (array_items x.now) (rows_item t) (is_option t)) }
{
    let n = x.len();
    if !is_optional(x.typ()) {
        return indexed_source(alloc, None, n, x, arena, steps);
    }
    let rows = opened_option(alloc, x, arena, steps)?;
    indexed_source(alloc, Some(rows.index), n, &rows.content, arena, steps)
}

/// An array as one row.
fn whole_source<'a, L: Ledger>(
    alloc: Global,
    x: &Array<'a>,
    arena: &'a Arena,
    steps: &mut Steps<L>,
) -> Result<Source<'a>, NoMemory>
    ensures { let vs = list (values_from (array_items x.now)) ∷ [] in
        IfOk result (IsOpened vs (Some (array_type x.now)) false) }
{
    let first = repeated(1, 0, arena, steps)?;
    let length = repeated(1, x.len(), arena, steps)?;
    let content = x.copy(alloc)?;
    Ok(Source {
        index: None,
        first,
        length,
        content,
    })
}

/// An operand as lists of rows.
pub(crate) fn opened<'a, L: Ledger>(
    alloc: Global,
    axis: Axis,
    x: &Datum<'a>,
    arena: &'a Arena,
    steps: &mut Steps<L>,
) -> Result<Source<'a>, NoMemory>
    requires lists { is_some (operand_item axis (datum_of x.now)) ≡ true }
    ensures { let item = operand_item axis (datum_of x.now) in
        IfOk result (IsOpened (rows_in axis x.now) item (may_be_null axis x.now)) }
{
    match x {
        Datum::Arr(x) => match axis {
            Axis::Arrays => whole_source(alloc, x, arena, steps),
            Axis::Rows => rows_source(alloc, x, arena, steps),
        },
        Datum::One(_) => unreachable!(),
    }
}
