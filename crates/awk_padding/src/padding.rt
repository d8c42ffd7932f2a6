//! Lists with nulls at their end.
ghost use Rattle.std.specs.Prelude.{◌≡◌, true, IfOk};
ghost use Rattle.awk_types.specs.Faults.{fault_told};
ghost use Rattle.awk_types.specs.Gives.{Gives};
ghost use Rattle.awk_layout.specs.Datum.{datum_of, IsDatum};
ghost use Rattle.awk_list_functions.specs.Made.{IsMade};
ghost use Rattle.awk_padding.specs.PadNone.{pad_none_function, pad_none_of};

use crate::padded::{PaddedLists, Padding, padded_items};
use awk_axis::lift_at;
use awk_columns::{Bounds, Lists};
use awk_lanes::{Arena, Steps, offsets_within};
use awk_layout::Datum;
use awk_list_ends::even_total;
use awk_list_functions::{ListOp, Made, Refusal, Spoil};
use awk_types::{Fault, ITEM_LIMIT, NoMemory, Typ, copy_type};
use std::alloc::Global;
use std::sync::ledger::Ledger;

/// Lists that are cut to one size: no lane tells where each begins.
fn clipped_lists<'a, L: Ledger>(
    alloc: Global,
    padded: &PaddedLists<'_, '_, 'a>,
    arena: &'a Arena,
    steps: &mut Steps<L>,
) -> Result<Made<'a>, NoMemory>
    requires clip { padded.now.padding.clip ≡ true }
    ensures { let lists = padded.now.lists.now in
        IfOk result (IsMade (pad_none_function padded.now.padding.size true) lists.class
        lists.starts lists.stops lists.content) }
{
    let _ = padded.lists.content();
    match even_total(padded.lists.len(), padded.padding.size) {
        Some(total) => {
            let items = padded_items(alloc, padded, total, arena, steps)?;
            Ok(Made::Even(items))
        }
        None => Ok(Made::Spoiled(Spoil::Size)),
    }
}

/// Lists of any length, by their offsets.
fn longer_lists<'a, L: Ledger>(
    alloc: Global,
    padded: &PaddedLists<'_, '_, 'a>,
    arena: &'a Arena,
    steps: &mut Steps<L>,
) -> Result<Made<'a>, NoMemory>
    ensures { let lists = padded.now.lists.now in
        IfOk result (IsMade (pad_none_function padded.now.padding.size padded.now.padding.clip)
        lists.class lists.starts lists.stops lists.content) }
{
    let _ = padded.lists.content();
    let n = padded.lists.len();
    match offsets_within(ITEM_LIMIT, n, padded, arena, steps)? {
        None => Ok(Made::Spoiled(Spoil::Size)),
        Some(offsets) => {
            let content = padded_items(alloc, padded, offsets.total, arena, steps)?;
            Ok(Made::Lists {
                offsets: offsets.lane,
                content,
            })
        }
    }
}

impl ListOp for Padding {
    ghost function = { λ f. pad_none_function f.size f.clip };

    fn refusal(&self, _item: &Typ) -> Option<Refusal> {
        None
    }

    fn typ(&self, alloc: Global, item: &Typ) -> Result<Typ, NoMemory> {
        Ok(Typ::Opt(Box::new(alloc, copy_type(alloc, item)?)?))
    }

    fn gives_lists(&self) -> bool {
        true
    }

    fn class(&self, _class: Option<u64>) -> Option<u64> {
        if self.clip { Some(self.size) } else { None }
    }

    fn tells_index(&self) -> bool {
        false
    }

    fn counts_given(&self) -> bool {
        true
    }

    fn column<'a, L: Ledger>(
        &self,
        alloc: Global,
        lists: &Lists<'a>,
        arena: &'a Arena,
        steps: &mut Steps<L>,
    ) -> Result<Made<'a>, NoMemory> {
        let bounds = Bounds::new(alloc, lists, arena, steps)?;
        let padded = PaddedLists {
            padding: *self,
            lists: &bounds,
        };
        let clip = self.clip;
        if clip {
            let clipped = clipped_lists(alloc, &padded, arena, steps)?;
            return Ok(clipped);
        }
        let longer = longer_lists(alloc, &padded, arena, steps)?;
        Ok(longer)
    }
}

/// Each list at an axis with nulls at its end up to n items; where `clip`, cut to n items, and then
/// of size n. Else each list that is given may have any length.
pub fn pad_none<'a, L: Ledger>(
    alloc: Global,
    x: &Datum<'a>,
    n: u64,
    axis: i64,
    clip: bool,
    arena: &'a Arena,
    steps: &mut Steps<L>,
) -> Result<Datum<'a>, Fault>
    requires datum { IsDatum x.now }
    ensures answer { Gives datum_of fault_told result (pad_none_of n axis clip (datum_of x.now)) }
    ensures datum { IfOk result (λ made. IsDatum made) }
{
    lift_at(alloc, &Padding { size: n, clip }, x, axis, arena, steps)
}
