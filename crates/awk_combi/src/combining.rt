//! Combinations of the items of lists.
ghost use Rattle.std.specs.Prelude.{◌≡◌, IfOk};
ghost use Rattle.awk_types.specs.Faults.{fault_told};
ghost use Rattle.awk_types.specs.Gives.{Gives};
ghost use Rattle.awk_layout.specs.Datum.{datum_of, IsDatum};
ghost use Rattle.awk_combi.specs.Combinations.{combinations_function, combinations_of};

use crate::tuples::{Tuples, tuples_of};
use crate::typing::tuple_typ;
use awk_axis::lift_at;
use awk_columns::Lists;
use awk_lanes::{Arena, Steps};
use awk_layout::Datum;
use awk_list_functions::{ListOp, Made, Refusal};
use awk_types::{Fault, NoMemory, Typ};
use std::alloc::Global;
use std::sync::ledger::Ledger;

impl ListOp for Tuples {
    ghost function = { λ f. combinations_function f.n f.replacement f.places };

    fn refusal(&self, _item: &Typ) -> Option<Refusal> {
        None
    }

    fn typ(&self, alloc: Global, item: &Typ) -> Result<Typ, NoMemory> {
        tuple_typ(alloc, self.places, self.n, item)
    }

    fn gives_lists(&self) -> bool {
        true
    }

    fn class(&self, _class: Option<u64>) -> Option<u64> {
        None
    }

    fn tells_index(&self) -> bool {
        false
    }

    fn column<'a, L: Ledger>(
        &self,
        alloc: Global,
        lists: &Lists<'a>,
        arena: &'a Arena,
        steps: &mut Steps<L>,
    ) -> Result<Made<'a>, NoMemory> {
        tuples_of(alloc, *self, lists, arena, steps)
    }
}

/// For each list at an axis, the tuples of n of its items, or of their places, at places that
/// increase, or with replacement do not decrease, in lexicographic order of the places. Axis 0 of
/// an array is the array itself.
pub fn combinations<'a, L: Ledger>(
    alloc: Global,
    n: u64,
    replacement: bool,
    axis: i64,
    x: &Datum<'a>,
    places: bool,
    arena: &'a Arena,
    steps: &mut Steps<L>,
) -> Result<Datum<'a>, Fault>
    requires datum { IsDatum x.now }
    ensures answer { Gives datum_of fault_told result
        (combinations_of n replacement axis places (datum_of x.now)) }
    ensures datum { IfOk result (λ made. IsDatum made) }
{
    let tuples = Tuples {
        n,
        replacement,
        places,
    };
    lift_at(alloc, &tuples, x, axis, arena, steps)
}
