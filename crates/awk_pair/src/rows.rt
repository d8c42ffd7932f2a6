//! Rows of operands, paired level by level.
ghost use Rattle.std.specs.Prelude.{◌≡◌, ◌≤◌, ◌&&◌, true, false, map, IfOk};
ghost use Rattle.awk_types.specs.ItemLimit.{item_limit};
ghost use Rattle.awk_layout.specs.Typing.{array_type};
ghost use Rattle.awk_open.specs.Opened.{AreLong};
ghost use Rattle.awk_pair.specs.Outcomes.{reach_of, PairsRows};
ghost use Rattle.awk_pair_operands.specs.Paired.{takes_nulls};
ghost use Rattle.awk_pair_sides.specs.Levels.{goes_on, some_option};

use crate::outcome::Outcome;
use crate::unequal::any_unequal;
use awk_frames::Frame;
use awk_lanes::{Arena, NoMemory, Steps};
use awk_layout::Arrays;
use awk_pair_levels::{Below, rows_below};
use awk_pair_present::{PresentRows, present_rows};
use awk_pair_sides::{goes_on, some_option};
use std::alloc::Global;
use std::sync::ledger::Ledger;

/// How operands are paired.
#[derive(Clone, Copy)]
pub(crate) struct Rule {
    /// Whether no list of the first operand is stretched.
    pub(crate) keep: bool,
    /// Whether leaves are asked for.
    pub(crate) to_leaves: bool,
}

/// The same arrays.
fn copies<'a>(alloc: Global, xs: &Arrays<'a>) -> Result<Arrays<'a>, NoMemory>
    ensures { IfOk result (λ ys. ys ≡ xs.now) }
{
    let mut copies = Arrays::new(alloc);
    for i in 0..xs.len() {
        copies.push(xs.get(i).copy(alloc)?)?;
    }
    Ok(copies)
}

/// Whether nulls are taken out of rows: at each level of lists, and at leaves.
fn has_nulls(to_leaves: bool, d: u64, xs: &Arrays) -> bool
    ensures { let ts = map array_type xs.now in
        result ≡ takes_nulls (reach_of to_leaves) d ts && some_option ts }
{
    (to_leaves || goes_on(d, xs)) && some_option(xs)
}

/// Rows paired through at most d levels.
#[cycle(rows)]
pub(crate) fn pair_rows<'a, L: Ledger>(
    alloc: Global,
    rule: Rule,
    d: u64,
    n: u64,
    xs: &Arrays<'a>,
    arena: &'a Arena,
    steps: &mut Steps<L>,
) -> Result<Outcome<'a>, NoMemory>
    requires long { AreLong n xs.now }
    requires few { n ≤ item_limit }
    ensures { IfOk result (PairsRows rule.keep (reach_of rule.to_leaves) d n xs.now) }
{
    if has_nulls(rule.to_leaves, d, xs) {
        pair_present(alloc, rule, d, n, xs, arena, steps)
    } else {
        pair_bare(alloc, rule, d, n, xs, arena, steps)
    }
}

/// Rows of which some may have nulls.
#[cycle(rows)]
fn pair_present<'a, L: Ledger>(
    alloc: Global,
    rule: Rule,
    d: u64,
    n: u64,
    xs: &Arrays<'a>,
    arena: &'a Arena,
    steps: &mut Steps<L>,
) -> Result<Outcome<'a>, NoMemory>
    requires long { AreLong n xs.now }
    requires few { n ≤ item_limit }
    requires nulls { let ts = map array_type xs.now in
        takes_nulls (reach_of rule.to_leaves) d ts && some_option ts ≡ true }
    ensures { IfOk result (PairsRows rule.keep (reach_of rule.to_leaves) d n xs.now) }
{
    let PresentRows {
        index,
        count,
        arrays,
    } = present_rows(alloc, n, xs, arena, steps)?;
    match pair_bare(alloc, rule, d, count, &arrays, arena, steps)? {
        Outcome::Unequal => Ok(Outcome::Unequal),
        Outcome::TooMany => Ok(Outcome::TooMany),
        Outcome::Pairs { shape, leaves } => {
            let below = Box::new(alloc, shape)?;
            let shape = Frame::Missing { index, below };
            Ok(Outcome::Pairs { shape, leaves })
        }
    }
}

/// Rows without nulls, or of which nulls stay.
#[cycle(rows)]
fn pair_bare<'a, L: Ledger>(
    alloc: Global,
    rule: Rule,
    d: u64,
    n: u64,
    xs: &Arrays<'a>,
    arena: &'a Arena,
    steps: &mut Steps<L>,
) -> Result<Outcome<'a>, NoMemory>
    requires long { AreLong n xs.now }
    requires few { n ≤ item_limit }
    requires bare { let ts = map array_type xs.now in
        takes_nulls (reach_of rule.to_leaves) d ts && some_option ts ≡ false }
    ensures { IfOk result (PairsRows rule.keep (reach_of rule.to_leaves) d n xs.now) }
{
    if goes_on(d, xs) {
        return pair_lists(alloc, rule, d, n, xs, arena, steps);
    }
    let leaves = copies(alloc, xs)?;
    Ok(Outcome::Pairs {
        shape: Frame::Leaf(n),
        leaves,
    })
}

/// Rows of lists without nulls.
#[cycle(rows)]
fn pair_lists<'a, L: Ledger>(
    alloc: Global,
    rule: Rule,
    d: u64,
    n: u64,
    xs: &Arrays<'a>,
    arena: &'a Arena,
    steps: &mut Steps<L>,
) -> Result<Outcome<'a>, NoMemory>
    requires long { AreLong n xs.now }
    requires few { n ≤ item_limit }
    requires bare { some_option (map array_type xs.now) ≡ false }
    requires lists { goes_on d (map array_type xs.now) ≡ true }
    ensures { IfOk result (PairsRows rule.keep (reach_of rule.to_leaves) d n xs.now) }
{
    match rows_below(alloc, rule.keep, n, xs, arena, steps)? {
        Below::Unequal => Ok(Outcome::Unequal),
        Below::TooMany => {
            if any_unequal(alloc, rule.keep, d, n, xs, arena, steps)? {
                Ok(Outcome::Unequal)
            } else {
                Ok(Outcome::TooMany)
            }
        }
        Below::Rows {
            class,
            offsets,
            count,
            arrays,
        } => match pair_rows(alloc, rule, d - 1, count, &arrays, arena, steps)? {
            Outcome::Unequal => Ok(Outcome::Unequal),
            Outcome::TooMany => Ok(Outcome::TooMany),
            Outcome::Pairs { shape, leaves } => {
                let below = Box::new(alloc, shape)?;
                let shape = Frame::Items {
                    offsets,
                    regular: class,
                    below,
                };
                Ok(Outcome::Pairs { shape, leaves })
            }
        },
    }
}
