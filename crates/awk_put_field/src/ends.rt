//! A column of records, of which some may be null, with a column as a field of them.
ghost use Rattle.std.specs.Prelude.{◌≡◌, List, true, IfOk};
ghost use Rattle.std.specs.Simd.Lanes.{zip2};
ghost use Rattle.awk_types.specs.Parts.{is_record, names_of_fields};
ghost use Rattle.awk_types.specs.Simple.{present, is_option};
ghost use Rattle.awk_types.specs.Value.{Value};
ghost use Rattle.awk_lanes.specs.Counted.{before};
ghost use Rattle.awk_lanes.specs.Places.{size_of, IsOptionKind};
ghost use Rattle.awk_layout.specs.Typing.{array_type, array_items};
ghost use Rattle.awk_layout.specs.Valid.{len};
ghost use Rattle.awk_open.specs.Opened.{IsOpened};
ghost use Rattle.awk_open.specs.declared.opening.Opened.TheVariants.{Option as Optional};
ghost use Rattle.awk_open.specs.InOrder.{IsInOrder};
ghost use Rattle.awk_frames.specs.Shape.{index_column};
ghost use Rattle.awk_put_field.specs.Field.{field_type, field_value};
ghost use Rattle.awk_put_field.specs.There.{beside_present, there_length};

use crate::records::records_of;
use awk_columns::places_of;
use awk_gather::gather;
use awk_lanes::{Arena, Items, Lane, Lengths, NoMemory, Num, Steps, number, option_place_in};
use awk_layout::{Array, Node};
use awk_open::{Opened, in_order, open_array};
use awk_types::is_optional;
use std::alloc::Global;
use std::sync::ledger::Ledger;

/// The places where an index names an item, each as a list of one place.
#[derive(Drop)]
struct PlacesThere<'b, 'a> {
    index: &'b Lane<'a>,
}

impl<'b, 'a> Lengths for PlacesThere<'b, 'a> {
    ghost use Rattle.std.specs.Prelude.{◌<◌, ◌^◌};
    ghost use Rattle.awk_lanes.specs.Places.{size_of, IsOptionKind};
    ghost use Rattle.awk_put_field.specs.There.{there_length};

    ghost length = { λ f. there_length f.index.now };

    ghost size = { λ f. size_of f.index.now };

    ghost IsReady = { λ f. IsOptionKind f.index.now.kind × (size_of f.index.now < 2 ^ 63) };

    fn length<L: Ledger>(&self, i: u64, steps: &mut Steps<L>) -> u64 {
        if option_place_in(self.index, i, steps).is_some() {
            1
        } else {
            0
        }
    }
}

impl<'b, 'a> Items for PlacesThere<'b, 'a> {
    ghost use Rattle.std.specs.Prelude.{pos};
    ghost use Rattle.awk_lanes.specs.declared.kind.Kind.TheVariants as Kind;

    ghost kind = { λ _. Kind.I64 };

    ghost at = { λ _ i k. pos i };

    fn item<L: Ledger>(&self, i: u64, _k: u64, _steps: &mut Steps<L>) -> Num {
        number(i)
    }
}

/// The items of a column at the places where an index names an item, of which there are n.
fn items_there<'a, L: Ledger>(
    alloc: Global,
    index: &Lane<'a>,
    n: u64,
    column: &Array<'a>,
    arena: &'a Arena,
    steps: &mut Steps<L>,
) -> Result<Array<'a>, NoMemory>
    requires kind { IsOptionKind index.now.kind }
    requires count { n ≡ before (there_length index.now) (size_of index.now) }
    requires long { len column.now ≡ size_of index.now }
    ensures typ { IfOk result (λ r. array_type r ≡ array_type column.now) }
    ensures items { (vs : List Value) → index.now ≡ index_column vs →
        IfOk result (λ r. array_items r ≡ beside_present vs (array_items column.now)) }
{
    let _ = column.len();
    if n == index.len() {
        let all = column.copy(alloc)?;
        return Ok(all);
    }
    let there = PlacesThere { index };
    let places = places_of(index.len(), n, &there, arena, steps)?;
    let items = gather(alloc, column, &places, arena, steps)?;
    Ok(items)
}

/// Records, none of which is null, with a column as the field of a name.
fn present_with<'a, L: Ledger>(
    alloc: Global,
    records: &Array<'a>,
    name: &str,
    column: &Array<'a>,
    arena: &'a Arena,
    steps: &mut Steps<L>,
) -> Result<Node<'a>, NoMemory>
    requires records { is_record (array_type records.now) ≡ true }
    requires long { len column.now ≡ len records.now }
    ensures typ { let t = array_type records.now in
        IfOk result (λ y. array_type y ≡ field_type name.now t (array_type column.now)) }
    ensures items { let value = field_value name.now (names_of_fields (array_type records.now)) in
        IfOk result (λ y.
        array_items y ≡ zip2 value (array_items records.now) (array_items column.now)) }
    ensures size { IfOk result (λ y. len y ≡ len records.now) }
{
    let n = records.len();
    match open_array(alloc, records, arena, steps)? {
        Opened::Row { names, columns } => match names {
            Some(names) => records_of(alloc, &names, n, &columns, name, column, steps),
            None => unreachable!(),
        },
        _ => unreachable!(),
    }
}

/// The records that are there, under the index of their option, with a column as the field of a
/// name.
fn under_option<'a, L: Ledger>(
    alloc: Global,
    records: &Array<'a>,
    index: &Lane<'a>,
    content: &Array<'a>,
    name: &str,
    column: &Array<'a>,
    arena: &'a Arena,
    steps: &mut Steps<L>,
) -> Result<Node<'a>, NoMemory>
    requires opened { IsOpened records.now (Optional index.now content.now) }
    requires order { IsInOrder (array_items records.now) (Optional index.now content.now) }
    requires records { is_record (present (array_type records.now)) ≡ true }
    requires long { len column.now ≡ len records.now }
    ensures typ { let t = array_type records.now in
        IfOk result (λ y. array_type y ≡ field_type name.now t (array_type column.now)) }
    ensures items { let names = names_of_fields (present (array_type records.now)) in
        let value = field_value name.now names in
        IfOk result (λ y.
        array_items y ≡ zip2 value (array_items records.now) (array_items column.now)) }
    ensures size { IfOk result (λ y. len y ≡ len records.now) }
{
    let there = items_there(alloc, index, content.len(), column, arena, steps)?;
    let present = present_with(alloc, content, name, &there, arena, steps)?;
    let boxed = Box::new(alloc, present)?;
    Ok(Node::indexed_option(index.copy(), boxed, steps))
}

/// Records, of which some are null, with a column as the field of a name.
fn optional_with<'a, L: Ledger>(
    alloc: Global,
    records: &Array<'a>,
    name: &str,
    column: &Array<'a>,
    arena: &'a Arena,
    steps: &mut Steps<L>,
) -> Result<Node<'a>, NoMemory>
    requires optional { is_option (array_type records.now) ≡ true }
    requires records { is_record (present (array_type records.now)) ≡ true }
    requires long { len column.now ≡ len records.now }
    ensures typ { let t = array_type records.now in
        IfOk result (λ y. array_type y ≡ field_type name.now t (array_type column.now)) }
    ensures items { let names = names_of_fields (present (array_type records.now)) in
        let value = field_value name.now names in
        IfOk result (λ y.
        array_items y ≡ zip2 value (array_items records.now) (array_items column.now)) }
    ensures size { IfOk result (λ y. len y ≡ len records.now) }
{
    match in_order(alloc, records, arena, steps)? {
        Opened::Option { index, content } => {
            let node = under_option(alloc, records, &index, &content, name, column, arena, steps)?;
            Ok(node)
        }
        _ => unreachable!(),
    }
}

/// Records with a column as the field of a name. A null record stays null, and the column is
/// gathered only where some record is null.
pub fn with_column<'a, L: Ledger>(
    alloc: Global,
    records: &Array<'a>,
    name: &str,
    column: &Array<'a>,
    arena: &'a Arena,
    steps: &mut Steps<L>,
) -> Result<Node<'a>, NoMemory>
    requires records { is_record (present (array_type records.now)) ≡ true }
    requires long { len column.now ≡ len records.now }
    ensures typ { let t = array_type records.now in
        IfOk result (λ y. array_type y ≡ field_type name.now t (array_type column.now)) }
    ensures items { let names = names_of_fields (present (array_type records.now)) in
        let value = field_value name.now names in
        IfOk result (λ y.
        array_items y ≡ zip2 value (array_items records.now) (array_items column.now)) }
    ensures size { IfOk result (λ y. len y ≡ len records.now) }
{
    if is_optional(records.typ()) {
        optional_with(alloc, records, name, column, arena, steps)
    } else {
        present_with(alloc, records, name, column, arena, steps)
    }
}
