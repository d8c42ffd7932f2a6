//! The three views of fields, on arrays.
ghost use Rattle.std.specs.Prelude.{◌+◌, ◌*◌, ◌≤◌, IfOk};
ghost use Rattle.awk_types.specs.Gives.{Gives};
ghost use Rattle.awk_types.specs.Names.{AreDistinct};
ghost use Rattle.awk_types.specs.Faults.{fault_told};
ghost use Rattle.awk_layout.specs.Layout.{weight, height};
ghost use Rattle.awk_layout.specs.Typing.{array_datum};
ghost use Rattle.awk_view.specs.Choice.{field, fields, without};
ghost use Rattle.awk_view.specs.Answer.{view_answer};
ghost use Rattle.awk_view.specs.Layouts.{IsChoice};
ghost use Rattle.awk_view.specs.Asked.{choice_of};

use crate::choice::Asked;
use crate::chosen::chosen;
use crate::found::absent;
use awk_lanes::Steps;
use awk_layout::Array;
use awk_types::{Fault, Names};
use std::alloc::Global;
use std::sync::ledger::Ledger;

/// What is asked for, of an array.
fn view<'a, L: Ledger>(
    alloc: Global,
    x: &Array<'a>,
    asked: &Asked,
    steps: &mut Steps<L>,
) -> Result<Array<'a>, Fault>
    requires distinct { IsChoice (choice_of asked.now) }
    ensures answer { Gives array_datum fault_told result (view_answer (choice_of asked.now) x.now) }
    ensures cost { steps.new ≤ steps.old + 4 * weight x.now }
    ensures nodes { IfOk result (λ made. weight made ≤ weight x.now) }
    ensures height { IfOk result (λ made. height made ≤ height x.now) }
{
    let node = x.node();
    let _ = node.len(); // the node is valid, and its numbers are those of their kinds
    if let Some(name) = absent(alloc, node, asked)? {
        return Err(Fault::NoField(name));
    }
    let made = chosen(alloc, node, asked, steps)?;
    Ok(Array::new(alloc, made)?)
}

/// The field of a name, looked for through lists, options and every alternative of unions. The
/// places of a tuple have decimals as names.
///
/// `NoField` has the name, where something else than a record is met, or a record without it.
/// `Depth` or `Size` comes where the simple type of the field passes a limit. At most 4 steps are
/// taken for each node of the array, and what is given has no more nodes and is no higher.
pub fn field<'a, L: Ledger>(
    alloc: Global,
    x: &Array<'a>,
    name: &str,
    steps: &mut Steps<L>,
) -> Result<Array<'a>, Fault>
    ensures answer { Gives array_datum fault_told result (view_answer (field name.now) x.now) }
    ensures cost { steps.new ≤ steps.old + 4 * weight x.now }
    ensures nodes { IfOk result (λ made. weight made ≤ weight x.now) }
    ensures height { IfOk result (λ made. height made ≤ height x.now) }
{
    view(alloc, x, &Asked::Field(name), steps)
}

/// The records of the named fields, in the order of the names, and of tuples the tuples of them.
///
/// `NoField` has the first name that some record lacks, in the order of the names. Where there is
/// no name, and something else than a record is met, it has the empty name. Limits, steps and nodes
/// are as those of `field`.
pub fn fields<'a, L: Ledger>(
    alloc: Global,
    x: &Array<'a>,
    names: &Names,
    steps: &mut Steps<L>,
) -> Result<Array<'a>, Fault>
    requires { AreDistinct names.now }
    ensures answer { Gives array_datum fault_told result (view_answer (fields names.now) x.now) }
    ensures cost { steps.new ≤ steps.old + 4 * weight x.now }
    ensures nodes { IfOk result (λ made. weight made ≤ weight x.now) }
    ensures height { IfOk result (λ made. height made ≤ height x.now) }
{
    view(alloc, x, &Asked::Fields(names), steps)
}

/// The records without the field of a name. The later places of a tuple move up.
///
/// Faults, steps and nodes are as those of `field`.
pub fn without<'a, L: Ledger>(
    alloc: Global,
    x: &Array<'a>,
    name: &str,
    steps: &mut Steps<L>,
) -> Result<Array<'a>, Fault>
    ensures answer { Gives array_datum fault_told result (view_answer (without name.now) x.now) }
    ensures cost { steps.new ≤ steps.old + 4 * weight x.now }
    ensures nodes { IfOk result (λ made. weight made ≤ weight x.now) }
    ensures height { IfOk result (λ made. height made ≤ height x.now) }
{
    view(alloc, x, &Asked::Without(name), steps)
}
