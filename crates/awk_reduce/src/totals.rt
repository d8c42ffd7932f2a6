//! Sums, products, counts and truth.
ghost use Rattle.std.specs.Prelude.{IfOk};
ghost use Rattle.awk_reduce.specs.Lists.{AreReady, AreReduced};
ghost use Rattle.awk_reduce.specs.Totals.{fold_reducer, tally_reducer};

use crate::ready::ReadyLists;
use crate::types::{leaf_of, wide};
use awk_kernels::Kernels;
use awk_lanes::{Arena, Steps};
use awk_layout::Node;
use awk_list_functions::{Made, Spoil};
use awk_numbers::{Fold, Tally, whole_of};
use awk_parts::{Parts, fold_parts, tally_parts};
use awk_types::NoMemory;
use std::sync::ledger::Ledger;

/// The sum or product of each list, or that one does not fit its type.
pub(crate) fn folds<'a, L: Ledger>(
    how: Fold,
    x: &ReadyLists<'_, 'a>,
    arena: &'a Arena,
    steps: &mut Steps<L>,
) -> Result<Made<'a>, NoMemory>
    requires { AreReady x.now }
    ensures { IfOk result (AreReduced (fold_reducer how) x.now) }
{
    let numbers = whole_of(x.lane, arena, steps)?;
    let parts = Parts {
        numbers: &numbers,
        spans: x.spans,
    };
    let prim = wide(leaf_of(x.lists.content().typ()));
    match fold_parts(how, prim, &parts, arena, steps)? {
        Some(lane) => Ok(Made::Singles(Node::numpy(lane, steps))),
        None => Ok(Made::Spoiled(Spoil::Overflow)),
    }
}

/// A count of each list, or whether some or all of its items are true or not 0.
pub(crate) fn tallies<'a, N: Kernels, L: Ledger>(
    how: Tally,
    x: &ReadyLists<'_, 'a>,
    kernels: &N,
    arena: &'a Arena,
    steps: &mut Steps<L>,
) -> Result<Made<'a>, NoMemory>
    requires { AreReady x.now }
    ensures { IfOk result (AreReduced (tally_reducer how) x.now) }
{
    let numbers = whole_of(x.lane, arena, steps)?;
    let parts = Parts {
        numbers: &numbers,
        spans: x.spans,
    };
    let lane = tally_parts(how, &parts, kernels, arena, steps)?;
    Ok(Made::Singles(Node::numpy(lane, steps)))
}
