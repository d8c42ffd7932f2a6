//! Picks row by row.
ghost use Rattle.std.specs.Prelude.{◌≡◌, ◌<◌, true, IfOk};
ghost use Rattle.awk_types.specs.Datum.{arr};
ghost use Rattle.awk_types.specs.Faults.{fault_told};
ghost use Rattle.awk_types.specs.Gives.{Gives};
ghost use Rattle.awk_types.specs.ItemLimit.{item_limit};
ghost use Rattle.awk_lanes.specs.Places.{size_of};
ghost use Rattle.awk_layout.specs.Datum.{datum_of, IsDatum};
ghost use Rattle.awk_layout.specs.Typing.{array_type, array_datum};
ghost use Rattle.awk_jagged.specs.Jagged.{jagged_of, is_jagged};
ghost use Rattle.awk_jagged.specs.Judged.{picks, AreJudged};
ghost use Rattle.awk_jagged_rows.specs.Levels.{row_count, IsLevel};
ghost use Rattle.awk_jagged.specs.Outcomes.{IsOutcomeOf, IsTold, IsToldBy};
ghost use Rattle.awk_jagged_rows.specs.Rows.{lists_by, AreAlike};

use crate::leaves::{Outcome, picked_leaves};
use crate::over::put_over;
use crate::types::{is_jagged, judged};
use awk_columns::Lists;
use awk_jagged_rows::{Level, level_of, one_list, rows_of_one};
use awk_lanes::{Arena, Steps};
use awk_layout::{Array, Datum};
use awk_types::{Fault, NoMemory};
use std::alloc::Global;
use std::sync::ledger::Ledger;

/// What is told of one pair of lists.
#[derive(Clone, Copy, Debug, PartialEq, Eq)]
enum Told {
    Nothing,
    Outside,
    Uneven,
}

/// What is told of one pair of lists by what is picked of its rows.
fn told_by(outcome: &Outcome) -> Told
    ensures { IsToldBy outcome.now result }
{
    match outcome {
        Outcome::Uneven => Told::Uneven,
        Outcome::Outside => Told::Outside,
        Outcome::TooMany | Outcome::Lists { .. } => Told::Nothing,
    }
}

/// What is picked from lists by those of an index, each by the one at its place.
#[cycle(picked)]
fn picked<'a, L: Ledger>(
    alloc: Global,
    xs: &Lists<'a>,
    ws: &Lists<'a>,
    arena: &'a Arena,
    steps: &mut Steps<L>,
) -> Result<Outcome<'a>, NoMemory>
    requires pairs { size_of xs.now.starts ≡ size_of ws.now.starts }
    requires types { picks (array_type ws.now.content) (array_type xs.now.content) ≡ true }
    ensures { IfOk result (IsOutcomeOf xs.now ws.now) }
{
    let _ = xs.content();
    let index = ws.content();
    if !is_jagged(index.typ()) {
        return picked_leaves(alloc, xs, ws, arena, steps);
    }
    let level = level_of(alloc, xs, ws, arena, steps)?;
    picked_level(alloc, &level, xs, ws, arena, steps)
}

/// The same by the rows of the lists.
#[cycle(picked)]
fn picked_level<'a, L: Ledger>(
    alloc: Global,
    level: &Level<'a>,
    xs: &Lists<'a>,
    ws: &Lists<'a>,
    arena: &'a Arena,
    steps: &mut Steps<L>,
) -> Result<Outcome<'a>, NoMemory>
    requires pairs { size_of xs.now.starts ≡ size_of ws.now.starts }
    requires types { picks (array_type ws.now.content) (array_type xs.now.content) ≡ true }
    requires rows { is_jagged (array_type ws.now.content) ≡ true }
    requires level { IsLevel xs.now ws.now level.now }
    ensures { IfOk result (IsOutcomeOf xs.now ws.now) }
{
    match level {
        Level::Uneven => Ok(Outcome::Uneven),
        Level::TooMany => picked_apart(alloc, xs, ws, arena, steps),
        Level::Rows(rows) => {
            let below = picked(alloc, &rows.xs, &rows.ws, arena, steps)?;
            put_over(alloc, rows, below, steps)
        }
    }
}

/// What is told where the rows are too many together: each pair of lists is looked at alone.
#[cycle(picked)]
fn picked_apart<'a, L: Ledger>(
    alloc: Global,
    xs: &Lists<'a>,
    ws: &Lists<'a>,
    arena: &'a Arena,
    steps: &mut Steps<L>,
) -> Result<Outcome<'a>, NoMemory>
    requires pairs { size_of xs.now.starts ≡ size_of ws.now.starts }
    requires types { picks (array_type ws.now.content) (array_type xs.now.content) ≡ true }
    requires rows { is_jagged (array_type ws.now.content) ≡ true }
    requires many { AreAlike xs.now ws.now × (item_limit < row_count ws.now) }
    ensures { IfOk result (IsOutcomeOf xs.now ws.now) }
{
    let mut outside = false;
    for i in 0..ws.len() {
        match told_of(alloc, xs, ws, i, arena, steps)? {
            Told::Uneven => return Ok(Outcome::Uneven),
            Told::Outside => outside = true,
            Told::Nothing => {}
        }
    }
    if outside {
        return Ok(Outcome::Outside);
    }
    Ok(Outcome::TooMany)
}

/// What is told of the rows of the pair of lists at a place.
#[cycle(picked)]
fn told_of<'a, L: Ledger>(
    alloc: Global,
    xs: &Lists<'a>,
    ws: &Lists<'a>,
    i: u64,
    arena: &'a Arena,
    steps: &mut Steps<L>,
) -> Result<Told, NoMemory>
    requires pairs { size_of xs.now.starts ≡ size_of ws.now.starts }
    requires types { picks (array_type ws.now.content) (array_type xs.now.content) ≡ true }
    requires rows { is_jagged (array_type ws.now.content) ≡ true }
    requires within { i < size_of ws.now.starts }
    ensures { IfOk result (IsTold xs.now ws.now i) }
{
    let rows = rows_of_one(alloc, xs, ws, i, arena, steps)?;
    let outcome = picked(alloc, &rows.xs, &rows.ws, arena, steps)?;
    Ok(told_by(&outcome))
}

/// What is answered for two arrays as one pair of lists, whose types are judged.
fn answer_of<'a, L: Ledger>(
    alloc: Global,
    xs: &Lists<'a>,
    ws: &Lists<'a>,
    arena: &'a Arena,
    steps: &mut Steps<L>,
) -> Result<Array<'a>, Fault>
    requires judged { AreJudged (array_type ws.now.content) (array_type xs.now.content) }
    requires first { size_of xs.now.starts ≡ 1 }
    requires second { size_of ws.now.starts ≡ 1 }
    ensures { let x = arr (array_type xs.now.content) (lists_by xs.now 0) in
        let ix = arr (array_type ws.now.content) (lists_by ws.now 0) in
        Gives array_datum fault_told result (jagged_of x ix) }
{
    match picked(alloc, xs, ws, arena, steps)? {
        Outcome::Uneven => Err(Fault::Lengths),
        Outcome::Outside => Err(Fault::Index),
        Outcome::TooMany => Err(Fault::Size),
        Outcome::Lists { content, .. } => Ok(Array::of_node(alloc, content)?),
    }
}

fn picked_array<'a, L: Ledger>(
    alloc: Global,
    x: &Array<'a>,
    ix: &Array<'a>,
    arena: &'a Arena,
    steps: &mut Steps<L>,
) -> Result<Array<'a>, Fault>
    ensures { Gives array_datum fault_told result
        (jagged_of (array_datum x.now) (array_datum ix.now)) }
{
    if let Err(why) = judged(alloc, ix.typ(), x.typ()) {
        return Err(why);
    }
    let xs = one_list(alloc, x, arena)?;
    let ws = one_list(alloc, ix, arena)?;
    answer_of(alloc, &xs, &ws, arena, steps)
}

/// The items of each row of an array by the row of an index at its place, and so on down to the
/// masks or places inside. A place counts in its own row, from the end where it is negative.
///
/// A null row of either gives null, and the other's is not looked at. The rows are of any length,
/// optional where those of either side are, and their items where those of the index are.
///
/// Faults come in this order: a single value, an index that is not of lists, or one that does not
/// pick from the items; a type of the result that is too deep or too large; lists of the index that
/// are not as long as what they pick from, at any level where they hold lists or truth values; a
/// place that its row does not have; too many items at a level of the index.
pub fn jagged<'a, L: Ledger>(
    alloc: Global,
    x: &Datum<'a>,
    ix: &Datum<'a>,
    arena: &'a Arena,
    steps: &mut Steps<L>,
) -> Result<Datum<'a>, Fault>
    ensures answer { Gives datum_of fault_told result
        (jagged_of (datum_of x.now) (datum_of ix.now)) }
    ensures datum { IfOk result (λ made. IsDatum made) }
{
    match x {
        Datum::Arr(x) => match ix {
            Datum::Arr(ix) => Ok(Datum::Arr(picked_array(alloc, x, ix, arena, steps)?)),
            Datum::One(_) => Err(Fault::WrongType),
        },
        Datum::One(_) => Err(Fault::WrongType),
    }
}
