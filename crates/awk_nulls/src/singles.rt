//! Each item as a list of at most one.
ghost use Rattle.std.specs.Prelude.{◌≡◌, ◌≤◌, ◌^◌, IfOk};
ghost use Rattle.awk_types.specs.Faults.{fault_told};
ghost use Rattle.awk_types.specs.Gives.{Gives};
ghost use Rattle.awk_types.specs.Simple.{present};
ghost use Rattle.awk_types.specs.View.{typ_of};
ghost use Rattle.awk_lanes.specs.Places.{size_of, IsOffsets};
ghost use Rattle.awk_layout.specs.Datum.{datum_of, IsDatum};
ghost use Rattle.awk_layout.specs.Layout.{offset_lists};
ghost use Rattle.awk_layout.specs.Valid.{len};
ghost use Rattle.awk_nulls.specs.Lanes.{AreSingles};
ghost use Rattle.awk_nulls.specs.Singletons.{singletons_function, singletons_of};

use crate::presence::present_of;
use awk_axis::lift_at;
use awk_columns::{Joined, Lists};
use awk_lanes::{Arena, Lane, Steps};
use awk_layout::{Array, Datum, Node};
use awk_list_functions::{ListOp, Made, Refusal, Spoil};
use awk_types::{Fault, NoMemory, Typ, copy_type};
use std::alloc::Global;
use std::sync::ledger::Ledger;

/// A type without its option.
pub fn present_typ(alloc: Global, t: &Typ) -> Result<Typ, NoMemory>
    ensures { IfOk result (λ u. typ_of u ≡ present (typ_of t.now)) }
{
    match t {
        Typ::Opt(inner) => copy_type(alloc, inner),
        _ => copy_type(alloc, t),
    }
}

/// The lists of content between counts.
fn lists_between<'a, L: Ledger>(
    alloc: Global,
    counts: &Lane<'a>,
    content: &Array<'a>,
    steps: &mut Steps<L>,
) -> Result<Node<'a>, NoMemory>
    requires fits { size_of counts.now ≤ 2 ^ 63 }
    requires offsets { IsOffsets counts.now (len content.now) }
    ensures { IfOk result (λ node. node ≡ offset_lists counts.now content.now) }
{
    let inner = Box::new(alloc, content.node().copy(alloc)?)?;
    Ok(Node::list_offset(counts.copy(), inner, steps))
}

/// Each item of an array as a list of at most one.
fn singles_of<'a, L: Ledger>(
    alloc: Global,
    x: &Array<'a>,
    arena: &'a Arena,
    steps: &mut Steps<L>,
) -> Result<Node<'a>, NoMemory>
    ensures { IfOk result (AreSingles x.now) }
{
    let _ = x.len();
    let items = present_of(alloc, x, arena, steps)?;
    lists_between(alloc, &items.counts, &items.content, steps)
}

/// The items of a list as lists of at most one.
#[derive(Clone, Copy, Debug, PartialEq, Eq)]
struct SingleLists;

impl ListOp for SingleLists {
    ghost function = { λ f. singletons_function };

    fn refusal(&self, _item: &Typ) -> Option<Refusal> {
        None
    }

    fn typ(&self, alloc: Global, item: &Typ) -> Result<Typ, NoMemory> {
        Ok(Typ::Var(Box::new(alloc, present_typ(alloc, item)?)?))
    }

    fn gives_lists(&self) -> bool {
        true
    }

    fn class(&self, class: Option<u64>) -> Option<u64> {
        class
    }

    fn tells_index(&self) -> bool {
        false
    }

    fn counts_given(&self) -> bool {
        true
    }

    fn column<'a, L: Ledger>(
        &self,
        alloc: Global,
        lists: &Lists<'a>,
        arena: &'a Arena,
        steps: &mut Steps<L>,
    ) -> Result<Made<'a>, NoMemory> {
        let _ = lists.content();
        match lists.joined(alloc, arena, steps)? {
            Joined::TooMany => Ok(Made::Spoiled(Spoil::Size)),
            Joined::Lists { offsets, content } => {
                let _ = content.len();
                let singles = singles_of(alloc, &content, arena, steps)?;
                Ok(Made::Lists {
                    offsets,
                    content: singles,
                })
            }
        }
    }
}

/// A list for each item of each list at an axis: without items for null, else of the item alone.
/// The lists at the axis keep their class, and those that are made may have any length.
pub fn singletons<'a, L: Ledger>(
    alloc: Global,
    x: &Datum<'a>,
    axis: i64,
    arena: &'a Arena,
    steps: &mut Steps<L>,
) -> Result<Datum<'a>, Fault>
    requires datum { IsDatum x.now }
    ensures answer { Gives datum_of fault_told result (singletons_of axis (datum_of x.now)) }
    ensures datum { IfOk result (λ made. IsDatum made) }
{
    lift_at(alloc, &SingleLists, x, axis, arena, steps)
}
