//! The rows of an array as lists, each at its place or null.
ghost use Rattle.std.specs.Prelude.{◌≡◌, true, is_some, IfOk};
ghost use Rattle.awk_types.specs.Predicates.{is_list_or_unknown};
ghost use Rattle.awk_lanes.specs.Places.{size_of};
ghost use Rattle.awk_lanes.specs.declared.kind.Kind.TheVariants as Kinds;
ghost use Rattle.awk_layout.specs.Layout.{Layout};
ghost use Rattle.awk_layout.specs.Typing.{array_type};
ghost use Rattle.awk_open.specs.Opened.{IsOpened};
ghost use Rattle.awk_open.specs.declared.opening.Opened.TheVariants as Opened;
ghost use Rattle.awk_jagged_rows.specs.RowTypes.{rows_of};
ghost use Rattle.awk_jagged_rows.specs.RowLists.{list_place, HasPlace, AreListsAt, AreRowsOf};

use awk_columns::Lists;
use awk_lanes::{Arena, Kind, Lane, LaneMaker, Steps, option_place_in};
use awk_layout::Array;
use awk_open::{Opened, opened};
use awk_types::{NoMemory, is_optional};
use std::alloc::Global;
use std::sync::ledger::Ledger;

/// Rows, each a list, or null where an index is negative.
#[derive(Drop)]
pub struct RowLists<'a> {
    /// The list of each row, where some may be null.
    pub index: Option<Lane<'a>>,
    pub starts: Lane<'a>,
    pub stops: Lane<'a>,
    pub content: Array<'a>,
}

impl<'a> RowLists<'a> {
    /// The list that row i is, or none where it is null.
    pub fn list<L: Ledger>(&self, i: u64, steps: &mut Steps<L>) -> Option<u64>
        requires { HasPlace self.now.index i }
        ensures { result ≡ list_place self.now.index i }
    {
        match &self.index {
            None => Some(i),
            Some(index) => option_place_in(index, i, steps),
        }
    }
}

/// No places.
fn none<'a>(arena: &'a Arena) -> Result<Lane<'a>, NoMemory>
    ensures kind { IfOk result (λ r. r.kind ≡ Kinds.I64) }
    ensures size { IfOk result (λ r. size_of r ≡ 0) }
{
    Ok(LaneMaker::new(Kind::I64, 0, arena)?.finish())
}

/// Lists, with an index into them.
fn indexed_lists<'a>(
    alloc: Global,
    lists: &Lists<'a>,
    index: Option<Lane<'a>>,
) -> Result<RowLists<'a>, NoMemory>
    ensures { (x : Layout) → IsOpened x (Opened.Items lists.now) →
        IfOk result (AreListsAt x index.entry) }
{
    let starts = lists.starts().copy();
    let stops = lists.stops().copy();
    let content = lists.content().copy(alloc)?;
    Ok(RowLists {
        index,
        starts,
        stops,
        content,
    })
}

/// The lists of an array of lists, or of unknown, with an index into them.
fn lists_at<'a, L: Ledger>(
    alloc: Global,
    x: &Array<'a>,
    index: Option<Lane<'a>>,
    arena: &'a Arena,
    steps: &mut Steps<L>,
) -> Result<RowLists<'a>, NoMemory>
    requires { is_list_or_unknown (array_type x.now) ≡ true }
    ensures { IfOk result (AreListsAt x.now index.entry) }
{
    match opened(alloc, x, arena, steps)? {
        Opened::Items(lists) => indexed_lists(alloc, &lists, index),
        Opened::Empty => Ok(RowLists {
            index,
            starts: none(arena)?,
            stops: none(arena)?,
            content: x.copy(alloc)?,
        }),
        _ => unreachable!(),
    }
}

/// The rows of an array of lists or of unknown, optional or not.
pub fn row_lists<'a, L: Ledger>(
    alloc: Global,
    x: &Array<'a>,
    arena: &'a Arena,
    steps: &mut Steps<L>,
) -> Result<RowLists<'a>, NoMemory>
    requires { is_some (rows_of (array_type x.now)) ≡ true }
    ensures { IfOk result (AreRowsOf x.now) }
{
    let _ = x.len();
    if !is_optional(x.typ()) {
        return lists_at(alloc, x, None, arena, steps);
    }
    match opened(alloc, x, arena, steps)? {
        Opened::Option { index, content } => lists_at(alloc, &content, Some(index), arena, steps),
        _ => unreachable!(),
    }
}
