//! The rows of all operands.
ghost use Rattle.std.specs.Prelude.{◌≡◌, ◌<◌, ◌^◌, IfOk, length};
ghost use Rattle.std.specs.List.{AllByRecursion};
ghost use Rattle.awk_merge_operands.specs.Operands.{IndexesAll};
ghost use Rattle.awk_cartesian.specs.Sources.{rows_in, pushed, AreBoth, AreRows, IsListed};

use crate::opening::{list_place, opened};
use crate::sources::Source;
use awk_lanes::{Arena, Kind, Lane, Num, Numbers, Steps, made_lane, number};
use awk_layout::Datums;
use awk_merge_operands::Axis;
use awk_products::Sources;
use awk_types::NoMemory;
use std::alloc::Global;
use std::sync::ledger::Ledger;

/// The rows of operands, and an index of them where one may be null.
#[derive(Drop)]
pub(crate) struct Rows<'a> {
    pub(crate) sources: Sources<'a>,
    pub(crate) index: Option<Lane<'a>>,
}

/// The rows that are null by neither of two indexes, by their places, and -1 for the others.
#[derive(Drop)]
struct BothRows<'b, 'a> {
    n: u64,
    rows: &'b Option<Lane<'a>>,
    index: &'b Option<Lane<'a>>,
}

impl<'b, 'a> Numbers for BothRows<'b, 'a> {
    ghost use Rattle.std.specs.Prelude.{◌<◌, ◌^◌};
    ghost use Rattle.awk_lanes.specs.declared.kind.Kind.TheVariants as Kinds;
    ghost use Rattle.awk_merge_operands.specs.Operands.{list_place, IndexesAll};
    ghost use Rattle.awk_cartesian.specs.Spans.{place_in_both};

    ghost kind = { λ _. Kinds.I64 };

    ghost at = { λ f i. place_in_both i (list_place f.rows.now i) (list_place f.index.now i) };

    ghost size = { λ f. f.n };

    ghost IsReady = { λ f. IndexesAll f.rows.now f.n × IndexesAll f.index.now f.n
        × (f.n < 2 ^ 63) };

    fn number<L: Ledger>(&self, i: u64, steps: &mut Steps<L>) -> Num {
        match list_place(self.rows, i, steps) {
            None => Num::Int(-1),
            Some(_) => match list_place(self.index, i, steps) {
                None => Num::Int(-1),
                Some(_) => number(i),
            },
        }
    }
}

/// An index of the rows that are null by neither of two.
fn both<'a, L: Ledger>(
    n: u64,
    rows: Option<Lane<'a>>,
    index: Option<Lane<'a>>,
    arena: &'a Arena,
    steps: &mut Steps<L>,
) -> Result<Option<Lane<'a>>, NoMemory>
    requires rows { IndexesAll rows n }
    requires index { IndexesAll index n }
    requires fits { n < 2 ^ 63 }
    ensures { IfOk result (AreBoth n rows.entry index.entry) }
{
    match index {
        None => Ok(rows),
        Some(_) => {
            let source = BothRows {
                n,
                rows: &rows,
                index: &index,
            };
            Ok(Some(made_lane(Kind::I64, n, &source, arena, steps)?))
        }
    }
}

/// Rows with those of one operand more.
fn more_rows<'a, L: Ledger>(
    n: u64,
    rows: Rows<'a>,
    source: Source<'a>,
    arena: &'a Arena,
    steps: &mut Steps<L>,
) -> Result<Rows<'a>, NoMemory>
    requires rows { IndexesAll rows.index n }
    requires index { IndexesAll source.index n }
    requires fits { n < 2 ^ 63 }
    ensures sources { IfOk result (λ r. r.sources ≡ pushed rows.entry.sources source.entry) }
    ensures index { IfOk result (λ r. AreBoth n rows.entry.index source.entry.index r.index) }
{
    let index = both(n, rows.index, source.index, arena, steps)?;
    let mut sources = rows.sources;
    sources.push(source.first, source.length, source.content)?;
    Ok(Rows { sources, index })
}

/// The rows of all operands as lists.
pub(crate) fn opened_rows<'a, L: Ledger>(
    alloc: Global,
    axis: Axis,
    n: u64,
    xs: &Datums<'a>,
    arena: &'a Arena,
    steps: &mut Steps<L>,
) -> Result<Rows<'a>, NoMemory>
    requires lists { AllByRecursion (IsListed axis) xs.now }
    requires long { AllByRecursion (λ d. length (rows_in axis d) ≡ n) xs.now }
    requires fits { n < 2 ^ 63 }
    ensures { IfOk result (AreRows axis n xs.now) }
{
    let mut rows = Rows {
        sources: Sources::new(alloc),
        index: None,
    };
    for j in 0..xs.len() {
        let source = opened(alloc, axis, xs.get(j), arena, steps)?;
        rows = more_rows(n, rows, source, arena, steps)?;
    }
    Ok(rows)
}
