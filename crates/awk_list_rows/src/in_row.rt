//! Columns of lists that lie in a row: where they begin is known, and their items are cut.
ghost use Rattle.std.specs.Prelude.{◌≡◌, ◌-◌, ◌<◌, None, pos, slice_range, IfOk, IfSome, IsTrue};
ghost use Rattle.awk_types.specs.Limit.{limit};
ghost use Rattle.awk_lanes.specs.Places.{size_of, at, place_at, IsIndexKind};
ghost use Rattle.awk_lanes.specs.declared.kind.Kind.TheVariants as Kinds;
ghost use Rattle.awk_layout.specs.Layout.{offset_lists};
ghost use Rattle.awk_layout.specs.Typing.{array_type, array_items};
ghost use Rattle.awk_layout.specs.Valid.{IsValid};
ghost use Rattle.awk_list_rows.specs.InRow.{AreEnds, HoldsItems};

use awk_lanes::{Kind, Lane, NoMemory, Steps, index_at, place_in};
use awk_layout::{Array, Class, Node};
use awk_range::range;
use std::alloc::Global;
use std::sync::ledger::Ledger;

/// Whether offsets are of 64 bits and begin at 0.
fn begin_at_zero<L: Ledger>(offsets: &Lane, steps: &mut Steps<L>) -> bool
    requires kind { IsIndexKind offsets.now.kind }
    requires some { 0 < size_of offsets.now }
    ensures kind { IsTrue result → offsets.now.kind ≡ Kinds.I64 }
    ensures first { IsTrue result → at offsets.now 0 ≡ pos 0 }
{
    if offsets.kind() != Kind::I64 {
        return false;
    }
    if index_at(offsets, 0, steps) != 0 {
        return false;
    }
    true
}

/// Where the lists of a column begin: its own offsets, if they are of 64 bits and begin at 0.
pub fn own_ends<'a, L: Ledger>(x: &Array<'a>, steps: &mut Steps<L>) -> Option<Lane<'a>>
    ensures { IfSome result (AreEnds x.now) }
{
    match x.node().class() {
        Class::ListOffset { offsets, .. } => {
            if begin_at_zero(offsets, steps) {
                Some(offsets.copy())
            } else {
                None
            }
        }
        _ => None,
    }
}

/// Whether the lists of a column are known to begin at these places.
pub fn begin_at<L: Ledger>(x: &Array, ends: &Lane, steps: &mut Steps<L>) -> bool
    ensures { IsTrue result → AreEnds x.now ends.now }
{
    match own_ends(x, steps) {
        Some(own) => own.is_same(ends, steps),
        None => false,
    }
}

/// The items of lists by offsets that begin at 0.
fn items_before<'a, L: Ledger>(
    alloc: Global,
    offsets: &Lane<'a>,
    content: &Node<'a>,
    steps: &mut Steps<L>,
) -> Result<Array<'a>, NoMemory>
    requires valid { IsValid (offset_lists offsets.now content.now) }
    requires limit { limit (array_type content.now) ≡ None }
    requires first { at offsets.now 0 ≡ pos 0 }
    ensures items { let end = place_at offsets.now (size_of offsets.now - 1) in
        IfOk result (λ z. array_items z ≡ slice_range (array_items content.now) 0 end) }
    ensures typ { IfOk result (λ z. array_type z ≡ array_type content.now) }
{
    let content = Array::of_node(alloc, content.copy(alloc)?)?;
    let last = offsets.len() - 1;
    let end = place_in(offsets, last, steps);
    let items = range(alloc, &content, 0, end, steps)?;
    Ok(items)
}

/// The items of the lists of a column, where its offsets are of 64 bits and begin at 0: a part of
/// its content.
pub fn own_items<'a, L: Ledger>(
    alloc: Global,
    x: &Array<'a>,
    steps: &mut Steps<L>,
) -> Result<Option<Array<'a>>, NoMemory>
    ensures { IfOk result (λ o. IfSome o (HoldsItems x.now)) }
{
    let _ = x.typ();
    match x.node().class() {
        Class::ListOffset { offsets, content } => {
            if begin_at_zero(offsets, steps) {
                let items = items_before(alloc, offsets, content, steps)?;
                return Ok(Some(items));
            }
            Ok(None)
        }
        _ => Ok(None),
    }
}
