//! The lists of a list joined to one list.
ghost use Rattle.std.specs.Prelude.{◌≡◌, ◌-◌, ◌≤ℤ◌, true, None, pos, IfOk};
ghost use Rattle.awk_types.specs.Faults.{fault_told};
ghost use Rattle.awk_types.specs.Gives.{Gives};
ghost use Rattle.awk_types.specs.Parts.{item_of};
ghost use Rattle.awk_types.specs.Simple.{present};
ghost use Rattle.awk_types.specs.View.{typ_of};
ghost use Rattle.awk_lanes.specs.Numbers.{nat_of};
ghost use Rattle.awk_layout.specs.Datum.{datum_of, IsDatum};
ghost use Rattle.awk_layout.specs.Typing.{array_type};
ghost use Rattle.awk_columns.specs.Lists.{AreLists};
ghost use Rattle.awk_open.specs.Opens.{OpensNothing};
ghost use Rattle.awk_columns.specs.Joined.{JoinsLists};
ghost use Rattle.awk_list_functions.specs.Made.{IsMade};
ghost use Rattle.awk_types.specs.Predicates as predicates;
ghost use Rattle.awk_lists.specs.Flatten.{flatten_function, flatten_of};
ghost use Rattle.awk_lists.specs.Held.{AreHeld};
ghost use Rattle.awk_lists.specs.Listed.{IsListed};

use crate::holding::held_of;
use crate::one_row::one_row;
use crate::sharing::shared_rows;
use awk_axis::lift_at;
use awk_columns::{Joined, Lists, join_spans};
use awk_gather_lanes::gather_lane;
use awk_index::index_of;
use awk_lanes::{Arena, Kind, Lane, LaneMaker, Steps, number};
use awk_layout::{Array, Datum};
use awk_list_ends::{lie_over_one_another, numbers_at_ends};
use awk_list_functions::{ListOp, Made, Refusal, Spoil};
use awk_open::{Opened, open_array};
use awk_types::{Fault, NoMemory, Typ, copy_type, is_list_or_unknown};
use std::alloc::Global;
use std::sync::ledger::Ledger;

/// Whether they are lists, optional or not, or of no values.
fn has_lists_or_unknown(t: &Typ) -> bool
    ensures { result ≡ predicates.is_list_or_unknown (present (typ_of t.now)) }
{
    match t {
        Typ::Opt(lists) => is_list_or_unknown(lists),
        _ => is_list_or_unknown(t),
    }
}

/// The type of the items of lists.
fn item_typ(alloc: Global, t: &Typ) -> Result<Typ, NoMemory>
    ensures { IfOk result (λ u. typ_of u ≡ item_of (typ_of t.now)) }
{
    match t {
        Typ::Var(item) | Typ::Reg(_, item) => copy_type(alloc, item),
        _ => copy_type(alloc, t),
    }
}

/// No lists.
fn no_lists<'a>(alloc: Global, x: &Array<'a>, arena: &'a Arena) -> Result<Joined<'a>, NoMemory>
    requires { OpensNothing x.now }
    ensures { IfOk result (IsListed x.now) }
{
    let mut offsets = LaneMaker::new(Kind::I64, 1, arena)?;
    offsets.push(number(0));
    let _ = x.len();
    Ok(Joined::Lists {
        offsets: offsets.finish(),
        content: x.copy(alloc)?,
    })
}

/// The lists of an array, none of which is null.
fn plain_lists<'a, L: Ledger>(
    alloc: Global,
    x: &Array<'a>,
    arena: &'a Arena,
    steps: &mut Steps<L>,
) -> Result<Joined<'a>, NoMemory>
    requires { predicates.is_list_or_unknown (array_type x.now) ≡ true }
    ensures { IfOk result (IsListed x.now) }
{
    match open_array(alloc, x, arena, steps)? {
        Opened::Empty => no_lists(alloc, x, arena),
        Opened::Items(lists) => lists.joined(alloc, arena, steps),
        _ => unreachable!(),
    }
}

/// Rows of lists joined, where the rows lie one after another.
fn joined_rows<'a, L: Ledger>(
    alloc: Global,
    class: Option<u64>,
    starts: &Lane<'a>,
    stops: &Lane<'a>,
    content: &Array<'a>,
    rows: &Lane<'a>,
    lists: &Array<'a>,
    arena: &'a Arena,
    steps: &mut Steps<L>,
) -> Result<Made<'a>, NoMemory>
    requires lists { predicates.is_list_or_unknown (array_type content.now) ≡ true }
    requires spans { AreLists class starts.now stops.now content.now }
    requires rows { JoinsLists starts.now stops.now content.now rows.now lists.now }
    ensures { IfOk result (IsMade flatten_function class starts.now stops.now content.now) }
{
    match plain_lists(alloc, lists, arena, steps)? {
        Joined::TooMany => Ok(Made::Spoiled(Spoil::Size)),
        Joined::Lists { offsets, content } => {
            let _ = content.len();
            let offsets = gather_lane(&offsets, rows, arena, steps)?;
            Ok(Made::Lists {
                offsets,
                content: content.node().copy(alloc)?,
            })
        }
    }
}

/// Rows of lists joined, where the lists are brought in order that hold an item. So many lists have
/// at least so many items.
fn held_rows<'a, L: Ledger>(
    alloc: Global,
    lists: &Lists<'a>,
    counts: &Lane<'a>,
    held: &Array<'a>,
    arena: &'a Arena,
    steps: &mut Steps<L>,
) -> Result<Made<'a>, NoMemory>
    requires accepted { flatten_function.refusal (array_type lists.now.content) ≡ None }
    requires lists { AreHeld lists.now.content counts.now held.now }
    ensures { IfOk result (IsMade flatten_function lists.now.class lists.now.starts
        lists.now.stops lists.now.content) }
{
    let _ = lists.content();
    let starts = index_of(alloc, lists.starts(), arena, steps)?;
    let stops = index_of(alloc, lists.stops(), arena, steps)?;
    let counts = index_of(alloc, counts, arena, steps)?;
    let firsts = numbers_at_ends(&counts, &starts, &stops, &starts, arena, steps)?;
    let ends = numbers_at_ends(&counts, &starts, &stops, &stops, arena, steps)?;
    match join_spans(alloc, None, &firsts, &ends, held, arena, steps)? {
        Joined::TooMany => Ok(Made::Spoiled(Spoil::Size)),
        Joined::Lists {
            offsets,
            content: rows,
        } => joined_rows(
            alloc, None, &firsts, &ends, held, &offsets, &rows, arena, steps,
        ),
    }
}

/// Rows of lists joined, by the lists that hold an item.
fn any_rows<'a, L: Ledger>(
    alloc: Global,
    lists: &Lists<'a>,
    arena: &'a Arena,
    steps: &mut Steps<L>,
) -> Result<Made<'a>, NoMemory>
    requires accepted { flatten_function.refusal (array_type lists.now.content) ≡ None }
    ensures { IfOk result (IsMade flatten_function lists.now.class lists.now.starts
        lists.now.stops lists.now.content) }
{
    let held = held_of(alloc, lists.content(), arena, steps)?;
    held_rows(alloc, lists, &held.counts, &held.lists, arena, steps)
}

/// The same where none of the lists is null: all of them are brought in order, unless they are too
/// many.
fn plain_rows<'a, L: Ledger>(
    alloc: Global,
    lists: &Lists<'a>,
    arena: &'a Arena,
    steps: &mut Steps<L>,
) -> Result<Made<'a>, NoMemory>
    requires accepted { flatten_function.refusal (array_type lists.now.content) ≡ None }
    requires lists { predicates.is_list_or_unknown (array_type lists.now.content) ≡ true }
    ensures { IfOk result (IsMade flatten_function lists.now.class lists.now.starts
        lists.now.stops lists.now.content) }
{
    let _ = lists.content();
    match lists.joined(alloc, arena, steps)? {
        Joined::TooMany => any_rows(alloc, lists, arena, steps),
        Joined::Lists {
            offsets,
            content: rows,
        } => {
            if lists.len() == 1 {
                return one_row(alloc, lists, &offsets, &rows, arena, steps);
            }
            joined_rows(
                alloc,
                lists.class(),
                lists.starts(),
                lists.stops(),
                lists.content(),
                &offsets,
                &rows,
                arena,
                steps,
            )
        }
    }
}

/// The lists of a list joined.
#[derive(Clone, Copy, Debug, PartialEq, Eq)]
struct JoinedLists;

impl ListOp for JoinedLists {
    ghost function = { λ f. flatten_function };

    fn refusal(&self, item: &Typ) -> Option<Refusal> {
        if has_lists_or_unknown(item) {
            None
        } else {
            Some(Refusal::Axis)
        }
    }

    fn typ(&self, alloc: Global, item: &Typ) -> Result<Typ, NoMemory> {
        match item {
            Typ::Opt(lists) => item_typ(alloc, lists),
            _ => item_typ(alloc, item),
        }
    }

    fn gives_lists(&self) -> bool {
        true
    }

    fn class(&self, _class: Option<u64>) -> Option<u64> {
        None
    }

    fn tells_index(&self) -> bool {
        false
    }

    fn counts_given(&self) -> bool {
        true
    }

    fn column<'a, L: Ledger>(
        &self,
        alloc: Global,
        lists: &Lists<'a>,
        arena: &'a Arena,
        steps: &mut Steps<L>,
    ) -> Result<Made<'a>, NoMemory> {
        if is_list_or_unknown(lists.content().typ()) {
            if !lie_over_one_another(alloc, lists, arena, steps)? {
                return plain_rows(alloc, lists, arena, steps);
            }
            if let Some(made) = shared_rows(alloc, lists, arena, steps)? {
                return Ok(made);
            }
        }
        any_rows(alloc, lists, arena, steps)
    }
}

/// The axis before an axis.
fn axis_before(axis: i64) -> i64
    requires { pos 1 ≤ℤ axis }
    ensures { result ≡ pos (nat_of axis - 1) }
{
    axis - 1
}

/// The lists at an axis joined within each list of the axis before, null as an empty one. The axis
/// is at least 1, and there the items are lists, optional lists or unknown, else `Axis`. Each list
/// that is given may have any length.
///
/// How it works, which no clause says: lists that lie in order without gaps cut their content, and
/// others gather from it.
pub fn flatten<'a, L: Ledger>(
    alloc: Global,
    x: &Datum<'a>,
    axis: i64,
    arena: &'a Arena,
    steps: &mut Steps<L>,
) -> Result<Datum<'a>, Fault>
    requires datum { IsDatum x.now }
    ensures answer { Gives datum_of fault_told result (flatten_of axis (datum_of x.now)) }
    ensures datum { IfOk result (λ made. IsDatum made) }
{
    if axis < 1 {
        return Err(Fault::Axis);
    }
    let before = axis_before(axis);
    lift_at(alloc, &JoinedLists, x, before, arena, steps)
}
