//! Histograms of all leaves, and of each innermost list.
ghost use Rattle.std.specs.Prelude.{◌≡◌, true, IfOk, IfSome};
ghost use Rattle.awk_types.specs.Gives.{Gives};
ghost use Rattle.awk_types.specs.Faults.{fault_told};
ghost use Rattle.awk_layout.specs.Datum.{IsDatum, datum_of};
ghost use Rattle.awk_bins.specs.Edges.{are_edges};
ghost use Rattle.awk_arguments.specs.Fit.{IsGiven};
ghost use Rattle.awk_arguments.specs.Fixed.{edges_in};
ghost use Rattle.awk_arguments.specs.Operand.{only_in};
ghost use Rattle.awk_arguments.specs.OperandView.{shown_operands};
ghost use Rattle.awk_eval.specs.Eval as meaning;

use awk_arguments::{edges, only};
use awk_expr::{Extent, Fixed};
use awk_hist::hist;
use awk_lanes::{Arena, Steps};
use awk_layout::{Datum, Operands};
use awk_types::Fault;
use std::alloc::Global;
use std::sync::ledger::Ledger;

/// A histogram of all leaves, or of each innermost list.
pub(crate) fn histogram_of<'s, L: Ledger>(
    alloc: Global,
    of: Extent,
    fixed: &Fixed,
    operands: &Operands<'s>,
    arena: &'s Arena,
    steps: &mut Steps<L>,
) -> Result<Datum<'s>, Fault>
    requires edges { IsGiven (edges_in fixed.now) }
    requires operand { IsGiven (only_in (shown_operands operands.now)) }
    requires rising { IfSome (edges_in fixed.now) (λ zs. are_edges zs ≡ true) }
    ensures answer { Gives datum_of fault_told result
        (meaning.given (meaning.histogram_by (meaning.is_each of)) (edges_in fixed.now)
        (only_in (shown_operands operands.now))) }
    ensures datum { IfOk result (λ made. IsDatum made) }
{
    hist(
        alloc,
        only(operands),
        edges(fixed),
        is_each(of),
        arena,
        steps,
    )
}

fn is_each(of: Extent) -> bool
    ensures { result ≡ meaning.is_each of }
{
    match of {
        Extent::Whole => false,
        Extent::Each => true,
    }
}
