//! Arrays joined row by row: the lists of each row become one.
ghost use Rattle.std.specs.Prelude.{◌≡◌, ◌*◌, ◌<◌, ◌^◌, ℕ, Option, Some, IfOk, length};
ghost use Rattle.awk_types.specs.DataType.{DataType, var};
ghost use Rattle.awk_types.specs.Faults.{fault_told};
ghost use Rattle.awk_types.specs.Gives.{Gives};
ghost use Rattle.awk_types.specs.View.{typ_of};
ghost use Rattle.awk_lanes.specs.Numbers.{int_of, IsOf};
ghost use Rattle.awk_lanes.specs.declared.kind.Kind.TheVariants as Kinds;
ghost use Rattle.awk_lanes.specs.Places.{size_of, IsIndexKind, IsOptionalIndex};
ghost use Rattle.awk_layout.specs.Array.{IsArrayType};
ghost use Rattle.awk_layout.specs.Layout.{offset_lists, optional};
ghost use Rattle.awk_layout.specs.Typing.{array_type, array_items, array_datum};
ghost use Rattle.awk_layout.specs.Valid.{len};
ghost use Rattle.awk_gather.specs.Arrays.{array_item};
ghost use Rattle.awk_columns.specs.Lists.{AreLists};
ghost use Rattle.awk_open.specs.Opens.{OpensLists};
ghost use Rattle.awk_merge_operands.specs.Operands as spec;
ghost use Rattle.awk_merge_operands.specs.Operands.{stacked_rows, filled_rows, rows_datum};
ghost use Rattle.awk_merge_operands.specs.Operands.{values_by};
ghost use Rattle.awk_merge_operands.specs.Operands.{type_by, list_between, IsListIndex, IsRowsType};
ghost use Rattle.awk_merge_operands.specs.Operands.{IndexHas, IndexesAll, AreRising};
ghost use Rattle.awk_merge_sides.specs.Sides.{sides_of, merged_items, AreSides, IsCounted};

use crate::joining_arrays::merged;
use awk_columns::{Joined, Lists, join_spans, places_of};
use awk_index::{Index, index_of};
use awk_lanes::{
    Arena, IndexMaker, Items, Lane, LaneMaker, Lengths, Num, Steps, number, option_place_in,
};
use awk_layout::{Array, Node};
use awk_merge_sides::Sides;
use awk_open::{Opened, open_array};
use awk_types::{Fault, NoMemory, Typ, copy_type, is_optional};
use std::alloc::Global;
use std::sync::ledger::Ledger;

/// Which list a value is: the one of its place, or by the index of an option.
fn list_place<L: Ledger>(index: &Option<Lane>, j: u64, steps: &mut Steps<L>) -> Option<u64>
    requires { IndexHas index.now j }
    ensures { result ≡ spec.list_place index.now j }
{
    match index {
        Some(index) => option_place_in(index, j, steps),
        None => Some(j),
    }
}

/// Whether row i of k columns of n values has no null.
fn is_whole<L: Ledger>(index: &Option<Lane>, n: u64, k: u64, i: u64, steps: &mut Steps<L>) -> bool
    requires index { IndexesAll index.now (k * n) }
    requires fits { k * n < 2 ^ 63 }
    requires within { i < n }
    ensures { result ≡ spec.is_whole index.now n k i }
{
    for j in 0..k {
        if list_place(index, j * n + i, steps).is_none() {
            return false;
        }
    }
    true
}

/// The place of a row without null, and -1 for another.
fn row_or_null<L: Ledger>(index: &Option<Lane>, n: u64, k: u64, i: u64, steps: &mut Steps<L>) -> Num
    requires index { IndexesAll index.now (k * n) }
    requires fits { k * n < 2 ^ 63 }
    requires small { n < 2 ^ 63 }
    requires within { i < n }
    ensures number { int_of result ≡ spec.row_or_null index.now n k i }
    ensures kind { IsOf Kinds.I64 result }
{
    if is_whole(index, n, k, i, steps) {
        number(i)
    } else {
        Num::Int(-1)
    }
}

/// Each row without null by its place, and -1 for the others.
#[tactic(auto, using(awk_lanes::proofs::MadeLanes::making))]
fn rows_lane<'a, L: Ledger>(
    index: &Option<Lane>,
    n: u64,
    k: u64,
    arena: &'a Arena,
    steps: &mut Steps<L>,
) -> Result<Lane<'a>, NoMemory>
    requires index { IndexesAll index.now (k * n) }
    requires fits { k * n < 2 ^ 63 }
    requires small { n < 2 ^ 63 }
    ensures { IfOk result (λ r. r ≡ spec.rows_lane index.now n k) }
{
    let mut maker = IndexMaker::new(n, arena)?;
    for i in 0..n {
        let row = row_or_null(index, n, k, i, steps);
        maker.push(row);
    }
    Ok(maker.finish())
}

/// The end of a list by its index, and 0 where the index has none.
#[inline(always)]
fn end_at<L: Ledger>(index: &Option<Lane>, t: u64, ends: &Index, steps: &mut Steps<L>) -> Num
    requires index { IndexHas index.now t }
    requires within { (p : ℕ) → spec.list_place index.now t ≡ Some p → p < size_of ends.now }
    ensures number { int_of result ≡ spec.end_at ends.now (spec.list_place index.now t) }
    ensures kind { IsOf Kinds.I64 result }
{
    match list_place(index, t, steps) {
        Some(place) => Num::Int(ends.number(place)),
        None => Num::Int(0),
    }
}

/// The ends of the lists of each row, of k in each; 0 where the row is null.
#[derive(Drop)]
struct RowEnds<'b, 'a, 'c> {
    index: &'b Option<Lane<'c>>,
    rows: &'b Index<'a>,
    k: u64,
    ends: &'b Index<'a>,
}

impl<'b, 'a, 'c> Lengths for RowEnds<'b, 'a, 'c> {
    ghost use Rattle.std.specs.Prelude.{◌*◌, ◌<◌, ◌^◌};
    ghost use Rattle.awk_lanes.specs.Places.{size_of, IsOptionalIndex};
    ghost use Rattle.awk_merge_operands.specs.Operands.{IsListIndex};

    ghost length = { λ f _. f.k };

    ghost size = { λ f. size_of f.rows.now };

    ghost IsReady = { λ f. (f.k * size_of f.rows.now < 2 ^ 63)
        × IsOptionalIndex f.rows.now (size_of f.rows.now)
        × IsListIndex f.index.now (f.k * size_of f.rows.now) (size_of f.ends.now) };

    fn length<L: Ledger>(&self, _i: u64, _steps: &mut Steps<L>) -> u64 {
        self.k
    }
}

impl<'b, 'a, 'c> Items for RowEnds<'b, 'a, 'c> {
    ghost use Rattle.awk_lanes.specs.Places.{size_of, option_place_at};
    ghost use Rattle.awk_lanes.specs.declared.kind.Kind.TheVariants as Kinds;
    ghost use Rattle.awk_merge_operands.specs.Operands.{end_of_row};

    ghost kind = { λ _. Kinds.I64 };

    ghost at = { λ f i j. end_of_row f.index.now (size_of f.rows.now) f.ends.now j
        (option_place_at f.rows.now i) };

    fn item<L: Ledger>(&self, i: u64, j: u64, steps: &mut Steps<L>) -> Num {
        match self.rows.option_place(i) {
            Some(row) => end_at(self.index, j * self.rows.len() + row, self.ends, steps),
            None => Num::Int(0),
        }
    }
}

/// The ends of the lists of each row, row after row.
fn ends_in_rows<'a, L: Ledger>(
    alloc: Global,
    index: &Option<Lane>,
    rows: &Lane<'a>,
    k: u64,
    ends: &Lane<'a>,
    arena: &'a Arena,
    steps: &mut Steps<L>,
) -> Result<Lane<'a>, NoMemory>
    requires index { IsListIndex index.now (k * size_of rows.now) (size_of ends.now) }
    requires fits { k * size_of rows.now < 2 ^ 63 }
    requires rows { IsOptionalIndex rows.now (size_of rows.now) }
    requires ends { IsIndexKind ends.now.kind }
    ensures { IfOk result (λ r. r ≡ spec.ends_in_rows index.now rows.now k ends.now) }
{
    let rows = index_of(alloc, rows, arena, steps)?;
    let ends = index_of(alloc, ends, arena, steps)?;
    let n = rows.len();
    let source = RowEnds {
        index,
        rows: &rows,
        k,
        ends: &ends,
    };
    places_of(n, n * k, &source, arena, steps)
}

/// Each k-th offset, up to that of place n.
#[tactic(auto, using(awk_lanes::proofs::MadeLanes::making))]
fn offsets_of_rows<'a, L: Ledger>(
    offsets: &Lane,
    n: u64,
    k: u64,
    arena: &'a Arena,
    steps: &mut Steps<L>,
) -> Result<Lane<'a>, NoMemory>
    requires within { n * k < size_of offsets.now }
    requires fits { n < 2 ^ 63 }
    requires small { n * k < 2 ^ 63 }
    ensures { IfOk result (λ r. r ≡ spec.offsets_of_rows offsets.now n k) }
{
    let mut maker = LaneMaker::new(offsets.kind(), n + 1, arena)?;
    for i in 0..n + 1 {
        let offset = offsets.at(i * k, steps);
        maker.push(offset);
    }
    Ok(maker.finish())
}

/// Lists joined, k of them to one, and each as long as all of the k are.
fn lists_of_rows<'a, L: Ledger>(
    alloc: Global,
    n: u64,
    k: u64,
    offsets: &Lane<'a>,
    content: &Array<'a>,
    arena: &'a Arena,
    steps: &mut Steps<L>,
) -> Result<Node<'a>, NoMemory>
    requires fits { n < 2 ^ 63 }
    requires small { n * k < 2 ^ 63 }
    requires offsets { AreRising offsets.now (n * k) (len content.now) }
    ensures { let made = spec.offsets_of_rows offsets.now n k in
        IfOk result (λ r. r ≡ offset_lists made content.now) }
{
    let _ = content.len();
    let offsets = offsets_of_rows(offsets, n, k, arena, steps)?;
    let content = Box::new(alloc, content.node().copy(alloc)?)?;
    Ok(Node::list_offset(offsets, content, steps))
}

/// The lists of each row joined, and an empty one for each row with a null.
fn joined_lists<'a, L: Ledger>(
    alloc: Global,
    index: &Option<Lane>,
    rows: &Lane<'a>,
    k: u64,
    starts: &Lane<'a>,
    stops: &Lane<'a>,
    content: &Array<'a>,
    arena: &'a Arena,
    steps: &mut Steps<L>,
) -> Result<Node<'a>, Fault>
    requires some { 0 < k }
    requires lists { (class : Option ℕ) × AreLists class starts.now stops.now content.now }
    requires index { IsListIndex index.now (k * size_of rows.now) (size_of starts.now) }
    requires fits { k * size_of rows.now < 2 ^ 63 }
    requires rows { rows.now ≡ spec.rows_lane index.now (size_of rows.now) k }
    ensures { let n = size_of rows.now in
        let vs = values_by index.now (k * n) (list_between starts.now stops.now content.now) in
        let said = rows_datum (var (array_type content.now)) (filled_rows n k vs) in
        Gives array_datum fault_told result said }
{
    let firsts = ends_in_rows(alloc, index, rows, k, starts, arena, steps)?;
    let ends = ends_in_rows(alloc, index, rows, k, stops, arena, steps)?;
    let _ = content.len();
    match join_spans(alloc, None, &firsts, &ends, content, arena, steps)? {
        Joined::TooMany => Err(Fault::Size),
        Joined::Lists { offsets, content } => {
            Ok(lists_of_rows(alloc, rows.len(), k, &offsets, &content, arena, steps)?)
        }
    }
}

/// Lists by an index that has -1 where they are null.
fn null_rows<'a, L: Ledger>(
    alloc: Global,
    rows: Lane<'a>,
    lists: Node<'a>,
    steps: &mut Steps<L>,
) -> Result<Node<'a>, NoMemory>
    requires fits { size_of rows < 2 ^ 63 }
    requires index { IsOptionalIndex rows (len lists) }
    ensures { IfOk result (λ r. r ≡ optional rows.entry lists.entry) }
{
    let lists = Box::new(alloc, lists)?;
    Ok(Node::indexed_option(rows, lists, steps))
}

/// Rows of lists, which are null where an index tells that one of theirs is.
fn rows_by_index<'a, L: Ledger>(
    alloc: Global,
    index: &Option<Lane>,
    n: u64,
    k: u64,
    starts: &Lane<'a>,
    stops: &Lane<'a>,
    content: &Array<'a>,
    arena: &'a Arena,
    steps: &mut Steps<L>,
) -> Result<Node<'a>, Fault>
    requires some { 0 < k }
    requires lists { (class : Option ℕ) × AreLists class starts.now stops.now content.now }
    requires index { IsListIndex index.now (k * n) (size_of starts.now) }
    requires fits { k * n < 2 ^ 63 }
    ensures { let list = list_between starts.now stops.now content.now in
        let vs = values_by index.now (k * n) list in
        let typ = type_by index.now (var (array_type content.now)) in
        Gives array_datum fault_told result (rows_datum typ (stacked_rows n k vs)) }
{
    let rows = rows_lane(index, n, k, arena, steps)?;
    let lists = joined_lists(alloc, index, &rows, k, starts, stops, content, arena, steps)?;
    match index {
        Some(_) => Ok(null_rows(alloc, rows, lists, steps)?),
        None => Ok(lists),
    }
}

/// The lists of a column.
fn opened_lists<'a, L: Ledger>(
    alloc: Global,
    x: &Array<'a>,
    arena: &'a Arena,
    steps: &mut Steps<L>,
) -> Result<Lists<'a>, NoMemory>
    requires lists { (u : DataType) × (array_type x.now ≡ var u) }
    ensures { IfOk result (λ r.
        (class : Option ℕ) × OpensLists class r.starts r.stops r.content x.now) }
{
    match open_array(alloc, x, arena, steps)? {
        Opened::Items(lists) => Ok(lists),
        _ => unreachable!(),
    }
}

/// The same of a column that is no option.
fn plain_rows<'a, L: Ledger>(
    alloc: Global,
    index: &Option<Lane>,
    n: u64,
    k: u64,
    lists: &Array<'a>,
    arena: &'a Arena,
    steps: &mut Steps<L>,
) -> Result<Node<'a>, Fault>
    requires some { 0 < k }
    requires lists { (u : DataType) × (array_type lists.now ≡ var u) }
    requires index { IsListIndex index.now (k * n) (len lists.now) }
    requires fits { k * n < 2 ^ 63 }
    ensures { let vs = values_by index.now (k * n) (array_item lists.now) in
        let typ = type_by index.now (array_type lists.now) in
        Gives array_datum fault_told result (rows_datum typ (stacked_rows n k vs)) }
{
    let opened = opened_lists(alloc, lists, arena, steps)?;
    rows_by_index(
        alloc,
        index,
        n,
        k,
        opened.starts(),
        opened.stops(),
        opened.content(),
        arena,
        steps,
    )
}

/// The rows of k columns of n values, one column after another, each joined to one list, or null
/// where a value is.
fn rows_of<'a, L: Ledger>(
    alloc: Global,
    x: &Array<'a>,
    n: u64,
    k: u64,
    arena: &'a Arena,
    steps: &mut Steps<L>,
) -> Result<Node<'a>, Fault>
    requires rows { IsRowsType (array_type x.now) }
    requires whole { len x.now ≡ k * n }
    requires some { 0 < k }
    requires fits { k * n < 2 ^ 63 }
    ensures { let rows = stacked_rows n k (array_items x.now) in
        Gives array_datum fault_told result (rows_datum (array_type x.now) rows) }
{
    if !is_optional(x.typ()) {
        return plain_rows(alloc, &None, n, k, x, arena, steps);
    }
    match open_array(alloc, x, arena, steps)? {
        Opened::Option { index, content } => {
            plain_rows(alloc, &Some(index), n, k, &content, arena, steps)
        }
        _ => unreachable!(),
    }
}

/// The rows of k columns of n lists each, one column after another, joined. `Size` tells that their
/// items are too many together.
pub fn joined_rows<'a, L: Ledger>(
    alloc: Global,
    typ: &Typ,
    n: u64,
    k: u64,
    sides: &Sides<'a>,
    arena: &'a Arena,
    steps: &mut Steps<L>,
) -> Result<Array<'a>, Fault>
    requires lawful { IsArrayType (typ_of typ.now) }
    requires rows { IsRowsType (typ_of typ.now) }
    requires sides { AreSides (typ_of typ.now) (sides_of sides.now) }
    requires counted { IsCounted sides.now }
    requires whole { length (merged_items (sides_of sides.now)) ≡ k * n }
    requires some { 0 < k }
    ensures { let rows = stacked_rows n k (merged_items (sides_of sides.now)) in
        Gives array_datum fault_told result (rows_datum (typ_of typ.now) rows) }
{
    let x = merged(alloc, typ, sides, arena, steps)?;
    let rows = rows_of(alloc, &x, n, k, arena, steps)?;
    let again = copy_type(alloc, typ)?;
    Ok(Array::with_type(rows, again))
}
