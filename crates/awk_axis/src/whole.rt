//! A function of one list, applied to a whole array as one list.
ghost use Rattle.std.specs.Prelude.{◌≡◌, ◌<◌, None, IfOk};
ghost use Rattle.awk_types.specs.Faults.{fault_told};
ghost use Rattle.awk_types.specs.Gives.{Gives};
ghost use Rattle.awk_types.specs.Limit.{limit};
ghost use Rattle.awk_types.specs.Simple.{simple};
ghost use Rattle.awk_layout.specs.Datum.{datum_of, IsDatum};
ghost use Rattle.awk_layout.specs.Typing.{array_type, array_items};
ghost use Rattle.awk_counts.specs.Counted.{spans};
ghost use Rattle.awk_columns.specs.Lists.{AreLists};
ghost use Rattle.awk_columns.specs.Reached.{IsReached};
ghost use Rattle.awk_list_functions.specs.Lifting as spec;
ghost use Rattle.awk_list_functions.specs.ListFunction.{made_type};
ghost use Rattle.awk_axis.specs.OneList.{one_list};

use awk_columns::Lists;
use awk_lanes::{Arena, Lane, Steps, one_number};
use awk_layout::{Array, Datum, Node};
use awk_list_functions::{ListOp, Made, judged_whole, spoilt};
use awk_types::{Fault, NoMemory};
use awk_view::settled;
use std::alloc::Global;
use std::sync::ledger::Ledger;

/// The items of lists one after another.
fn span_items<'a, L: Ledger>(
    alloc: Global,
    starts: Lane<'a>,
    stops: Lane<'a>,
    content: Node<'a>,
    arena: &'a Arena,
    steps: &mut Steps<L>,
) -> Result<Array<'a>, NoMemory>
    requires limit { limit (array_type content) ≡ None }
    requires lists { AreLists None starts stops content }
    ensures { IfOk result (IsReached content.entry (spans starts.entry stops.entry)) }
{
    let content = Array::of_node(alloc, content)?;
    let lists = Lists::new(None, starts, stops, content);
    lists.items(alloc, arena, steps)
}

/// What the function gives for one list, settled.
fn given_one<'a, F: ListOp, L: Ledger>(
    alloc: Global,
    f: &F,
    x: &Array<'a>,
    lists: &Lists<'a>,
    arena: &'a Arena,
    steps: &mut Steps<L>,
) -> Result<Datum<'a>, Fault>
    requires accepted { (F.function f.now).refusal (array_type x.now) ≡ None }
    requires limit { limit (simple
        (made_type (F.function f.now).giving (array_type x.now))) ≡ None }
    requires lists { lists.now ≡ one_list x.now }
    ensures answer { Gives datum_of fault_told result
        (spec.on_whole (F.function f.now) (array_type x.now) (array_items x.now)) }
    ensures datum { IfOk result IsDatum }
{
    match f.column(alloc, lists, arena, steps)? {
        Made::Spoiled(why) => Err(spoilt(why)),
        Made::Lists { content, .. } => Ok(Datum::Arr(Array::of_node(alloc, content)?)),
        Made::Even(content) => Ok(Datum::Arr(Array::of_node(alloc, content)?)),
        Made::Spans {
            starts,
            stops,
            content,
        } => {
            let items = span_items(alloc, starts, stops, content, arena, steps)?;
            Ok(Datum::Arr(items))
        }
        Made::Singles(node) => {
            let one = Array::of_node(alloc, node)?;
            Ok(settled(alloc, &one, steps)?)
        }
    }
}

/// What the function gives for the array as one list, settled.
fn given_whole<'a, F: ListOp, L: Ledger>(
    alloc: Global,
    f: &F,
    x: &Array<'a>,
    arena: &'a Arena,
    steps: &mut Steps<L>,
) -> Result<Datum<'a>, Fault>
    requires accepted { (F.function f.now).refusal (array_type x.now) ≡ None }
    requires limit { limit (simple
        (made_type (F.function f.now).giving (array_type x.now))) ≡ None }
    ensures answer { Gives datum_of fault_told result
        (spec.on_whole (F.function f.now) (array_type x.now) (array_items x.now)) }
    ensures datum { IfOk result IsDatum }
{
    let starts = one_number(0, arena)?;
    let stops = one_number(x.len(), arena)?;
    let lists = Lists::new(None, starts, stops, x.copy(alloc)?);
    given_one(alloc, f, x, &lists, arena, steps)
}

/// The array as one list by the function, settled, or the first fault.
pub(crate) fn on_whole<'a, F: ListOp, L: Ledger>(
    alloc: Global,
    f: &F,
    x: &Array<'a>,
    arena: &'a Arena,
    steps: &mut Steps<L>,
) -> Result<Datum<'a>, Fault>
    ensures answer { Gives datum_of fault_told result
        (spec.on_whole (F.function f.now) (array_type x.now) (array_items x.now)) }
    ensures datum { IfOk result IsDatum }
{
    if let Err(why) = judged_whole(alloc, f, x.typ()) {
        return Err(why);
    }
    given_whole(alloc, f, x, arena, steps)
}
