//! The number of items of each list.
ghost use Rattle.std.specs.Prelude.{◌<◌, IfOk};
ghost use Rattle.awk_types.specs.Faults.{fault_told};
ghost use Rattle.awk_types.specs.Gives.{Gives};
ghost use Rattle.awk_lanes.specs.Places.{size_of};
ghost use Rattle.awk_layout.specs.Datum.{datum_of, IsDatum};
ghost use Rattle.awk_list_functions.specs.Made.{IsMade};
ghost use Rattle.awk_columns.specs.Lists.{span_length};
ghost use Rattle.awk_lists.specs.Num.{length_function, num_of};

use awk_axis::lift_at;
use awk_columns::{Bounds, Lists};
use awk_lanes::{Arena, Kind, Num, Numbers, Steps, made_lane, number};
use awk_layout::{Datum, Node};
use awk_list_functions::{ListOp, Made, Refusal};
use awk_types::{Fault, NoMemory, Prim, Typ};
use std::alloc::Global;
use std::sync::ledger::Ledger;

/// The lengths of lists.
#[derive(Drop)]
struct ListLengths<'b, 'r, 'a> {
    lists: &'b Bounds<'r, 'a>,
}

impl<'b, 'r, 'a> Numbers for ListLengths<'b, 'r, 'a> {
    ghost use Rattle.std.specs.Prelude.{pos};
    ghost use Rattle.awk_lanes.specs.Places.{size_of};
    ghost use Rattle.awk_lanes.specs.declared.kind.Kind.TheVariants as Kind;
    ghost use Rattle.awk_columns.specs.Lists.{span_length};

    ghost kind = { λ _. Kind.I64 };

    ghost at = { λ f i. pos (span_length f.lists.now.starts f.lists.now.stops i) };

    ghost size = { λ f. size_of f.lists.now.starts };

    fn number<L: Ledger>(&self, i: u64, _steps: &mut Steps<L>) -> Num {
        number(self.lists.length_at(i))
    }
}

/// The lengths of lists as single values.
fn lengths_of<'a, L: Ledger>(
    alloc: Global,
    lists: &Lists<'a>,
    arena: &'a Arena,
    steps: &mut Steps<L>,
) -> Result<Made<'a>, NoMemory>
    ensures { IfOk result (IsMade length_function lists.now.class lists.now.starts
        lists.now.stops lists.now.content) }
{
    let bounds = Bounds::new(alloc, lists, arena, steps)?;
    let lengths = ListLengths { lists: &bounds };
    let lengths = made_lane(Kind::I64, lists.len(), &lengths, arena, steps)?;
    Ok(Made::Singles(Node::numpy(lengths, steps)))
}

/// The number of items of a list.
#[derive(Clone, Copy, Debug, PartialEq, Eq)]
struct Length;

impl ListOp for Length {
    ghost function = { λ f. length_function };

    fn refusal(&self, _item: &Typ) -> Option<Refusal> {
        None
    }

    fn typ(&self, _alloc: Global, _item: &Typ) -> Result<Typ, NoMemory> {
        Ok(Typ::Leaf(Prim::I64))
    }

    fn gives_lists(&self) -> bool {
        false
    }

    fn class(&self, class: Option<u64>) -> Option<u64> {
        class
    }

    fn tells_index(&self) -> bool {
        false
    }

    fn counts_given(&self) -> bool {
        true
    }

    fn column<'a, L: Ledger>(
        &self,
        alloc: Global,
        lists: &Lists<'a>,
        arena: &'a Arena,
        steps: &mut Steps<L>,
    ) -> Result<Made<'a>, NoMemory> {
        lengths_of(alloc, lists, arena, steps)
    }
}

/// How many items each list at an axis has. Axis 0 of an array is the array itself.
pub fn num<'a, L: Ledger>(
    alloc: Global,
    x: &Datum<'a>,
    axis: i64,
    arena: &'a Arena,
    steps: &mut Steps<L>,
) -> Result<Datum<'a>, Fault>
    requires datum { IsDatum x.now }
    ensures answer { Gives datum_of fault_told result (num_of axis (datum_of x.now)) }
    ensures datum { IfOk result (λ made. IsDatum made) }
{
    lift_at(alloc, &Length, x, axis, arena, steps)
}
