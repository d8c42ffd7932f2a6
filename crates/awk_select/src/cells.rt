//! The numbers or truth values of an array as lanes, with its nulls.
ghost use Rattle.std.specs.Prelude.{◌≡◌, true, IfOk};
ghost use Rattle.awk_types.specs.Simple.{present};
ghost use Rattle.awk_layout.specs.Layout.{Layout, optional};
ghost use Rattle.awk_layout.specs.Typing.{array_type};
ghost use Rattle.awk_layout.specs.Valid.{IsValid};
ghost use Rattle.awk_open.specs.Opened.{IsOpened};
ghost use Rattle.awk_open.specs.declared.opening.Opened.TheVariants as Opened;
ghost use Rattle.awk_select.specs.Cells.{cell_shown, cell_value, IsCell, AreCells};
ghost use Rattle.awk_types.specs.Predicates.{is_leaf};
ghost use Rattle.awk_select.specs.declared.cells.Cells.TheVariants as Cells;

use awk_lanes::{Arena, Lane, Num, Steps, option_place_in};
use awk_layout::Array;
use awk_open::{Opened, opened};
use awk_types::NoMemory;
use std::alloc::Global;
use std::sync::ledger::Ledger;

/// The values of an array.
#[derive(Drop)]
pub enum Cells<'a> {
    /// Each is null, where there is one.
    Nulls,
    /// The numbers of a lane.
    Plain(Lane<'a>),
    /// Null where the index is negative, else the number there.
    Optional { index: Lane<'a>, lane: Lane<'a> },
}

impl<'a> Cells<'a> {
    /// The number or truth value at a place, or none for null.
    pub fn at<L: Ledger>(&self, i: u64, steps: &mut Steps<L>) -> Option<Num>
        requires { IsCell self.now i }
        ensures { cell_shown result ≡ cell_value self.now i }
    {
        match self {
            Cells::Nulls => None,
            Cells::Plain(lane) => Some(lane.at(i, steps)),
            Cells::Optional { index, lane } => number_in(index, lane, i, steps),
        }
    }
}

// The number of a lane at place i of an index, or none for null.
fn number_in<L: Ledger>(index: &Lane, lane: &Lane, i: u64, steps: &mut Steps<L>) -> Option<Num>
    requires { IsCell (Cells.Optional index.now lane.now) i }
    ensures { cell_shown result ≡ cell_value (Cells.Optional index.now lane.now) i }
{
    match option_place_in(index, i, steps) {
        Some(k) => Some(lane.at(k, steps)),
        None => None,
    }
}

/// The values of an array of numbers, of truth values or of unknown, optional or not.
pub fn cells_of<'a, L: Ledger>(
    alloc: Global,
    x: &Array<'a>,
    arena: &'a Arena,
    steps: &mut Steps<L>,
) -> Result<Cells<'a>, NoMemory>
    requires { is_leaf (present (array_type x.now)) ≡ true }
    ensures cells { IfOk result (AreCells x.now) }
{
    match opened(alloc, x, arena, steps)? {
        Opened::Empty => Ok(Cells::Nulls),
        Opened::Leaf(lane) => Ok(Cells::Plain(lane)),
        Opened::Option { index, content } => optional_cells(alloc, &index, &content, arena, steps),
        _ => unreachable!(),
    }
}

// The same, of an option.
fn optional_cells<'a, L: Ledger>(
    alloc: Global,
    index: &Lane<'a>,
    content: &Array<'a>,
    arena: &'a Arena,
    steps: &mut Steps<L>,
) -> Result<Cells<'a>, NoMemory>
    requires typ { is_leaf (array_type content.now) ≡ true }
    requires valid { IsValid (optional index.now content.now) }
    ensures cells { (x : Layout) → IsOpened x (Opened.Option index.now content.now) →
        IfOk result (AreCells x) }
{
    match opened(alloc, content, arena, steps)? {
        Opened::Empty => Ok(Cells::Nulls),
        Opened::Leaf(lane) => Ok(Cells::Optional {
            index: index.copy(),
            lane,
        }),
        _ => unreachable!(),
    }
}
