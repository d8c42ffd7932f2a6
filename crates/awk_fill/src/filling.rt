//! A value in the place of each null.
ghost use Rattle.std.specs.Prelude.{◌≡◌, ◌<◌, ◌^◌, true, false, pos, None, IfOk};
ghost use Rattle.awk_types.specs.DataType.{leaf, opt};
ghost use Rattle.awk_types.specs.Faults.{fault_told};
ghost use Rattle.awk_types.specs.Gives.{Gives};
ghost use Rattle.awk_types.specs.Has.{Holds};
ghost use Rattle.awk_types.specs.Simple.{is_option};
ghost use Rattle.awk_types.specs.Value.{int};
ghost use Rattle.awk_types.specs.View.{typ_of};
ghost use Rattle.awk_lanes.specs.Places.{size_of, IsOptionalIndex};
ghost use Rattle.awk_layout.specs.Datum.{datum_of, first_item, IsDatum, IsOperand};
ghost use Rattle.awk_layout.specs.Filler.{filler_of, filler_value, HasFirst};
ghost use Rattle.awk_layout.specs.Kinds.{kind_of};
ghost use Rattle.awk_layout.specs.Typing.{array_type};
ghost use Rattle.awk_layout.specs.Valid.{len};
ghost use Rattle.awk_unify.specs.Unify.{unification};
ghost use Rattle.awk_fill.specs.Filled.{IsFirst, IsPair, place_or, places_or, IsFilled};
ghost use Rattle.awk_fill.specs.Filled.{IsFilledOption, IsRefused, AreKept};
ghost use Rattle.awk_fill.specs.FillNone.{literal_refusal, filler_refusal, filler_type};
ghost use Rattle.awk_fill.specs.FillNone.{fill_none_function, fill_none_of};

use crate::numbers::filled_numbers;
use crate::parts::parts_of;
use awk_axis::lift_at;
use awk_columns::{Joined, Lists};
use awk_copies::array_in;
use awk_index::{Index, index_of};
use awk_lanes::{Arena, Kind, Lane, LaneMaker, Num, Numbers, Steps, made_lane, number};
use awk_layout::{Array, Datum, Node, Operand, kind_of, number_of};
use awk_list_ends::are_few;
use awk_list_functions::{ListOp, Made, Refusal, Spoil};
use awk_merge_columns::merge;
use awk_merge_sides::Sides;
use awk_primitives::{fits, literal_prim};
use awk_types::{Fault, NoMemory, Prim, Typ, copy_type, is_optional};
use awk_unify::{Lift, unify, unify_unlimited};
use std::alloc::{AllocError, Global};
use std::marker::Model;
use std::sync::ledger::Ledger;

/// A literal is judged only where items are optional.
fn literal_refusal(z: i128, item: &Typ) -> Option<Refusal>
    ensures { result ≡ literal_refusal z (typ_of item.now) }
{
    match item {
        Typ::Opt(present) => {
            if fits(literal_prim(present), z) {
                None
            } else {
                Some(Refusal::Overflow)
            }
        }
        _ => None,
    }
}

/// Its type beside items of a type.
fn filler_typ(alloc: Global, value: &Operand, item: &Typ) -> Result<Typ, NoMemory>
    ensures { let f = filler_of value.now in
        IfOk result (λ t. typ_of t ≡ filler_type f (typ_of item.now)) }
{
    match value {
        Operand::Literal(_) => Ok(Typ::Leaf(literal_prim(item))),
        Operand::Of(Datum::Arr(x) | Datum::One(x)) => copy_type(alloc, x.typ()),
    }
}

/// The array of one number.
fn only_number<'a, L: Ledger>(
    prim: Prim,
    z: i128,
    arena: &'a Arena,
    steps: &mut Steps<L>,
) -> Result<Array<'a>, NoMemory>
    requires { Holds prim z }
    ensures { IfOk result (IsFirst (leaf prim) (int z)) }
{
    let mut maker = LaneMaker::new(kind_of(prim), 1, arena)?;
    maker.push(number_of(prim, z));
    let node = Node::numpy(maker.finish(), steps);
    Ok(Array::with_type(node, Typ::Leaf(prim)))
}

/// An array whose first item is the value, beside items of a type.
fn value_array<'a, L: Ledger>(
    alloc: Global,
    value: &Operand,
    item: &Typ,
    arena: &'a Arena,
    steps: &mut Steps<L>,
) -> Result<Array<'a>, NoMemory>
    requires first { HasFirst value.now }
    requires accepted { filler_refusal (filler_of value.now) (opt (typ_of item.now)) ≡ None }
    ensures { let f = filler_of value.now in
        IfOk result (IsFirst (filler_type f (typ_of item.now)) (filler_value f)) }
{
    match value {
        Operand::Literal(z) => only_number(literal_prim(item), *z, arena, steps),
        Operand::Of(Datum::One(x)) => array_in(alloc, x, arena, steps),
        Operand::Of(Datum::Arr(_)) => unreachable!(),
    }
}

/// Two columns one after another, as items of the type that theirs unify to. Types are judged
/// before columns are made, so this passes no limit.
fn pair<'a, L: Ledger>(
    alloc: Global,
    x: &Array<'a>,
    y: &Array<'a>,
    arena: &'a Arena,
    steps: &mut Steps<L>,
) -> Result<Node<'a>, NoMemory>
    ensures { let u = unification (array_type x.now) (array_type y.now) in
        IfOk result (IsPair u x.now y.now) }
{
    let _ = x.len();
    let _ = y.len();
    match unify(alloc, x.typ(), y.typ()) {
        Ok(made) => {
            let mut sides = Sides::new(alloc);
            sides.push(alloc, x.copy(alloc)?, &made.left)?;
            sides.push(alloc, y.copy(alloc)?, &made.right)?;
            let node = merge(alloc, &made.typ, &sides, arena, steps)?;
            let _ = node.len();
            Ok(node)
        }
        Err(_) => Err(AllocError),
    }
}

/// Where an item of an option is, and a place of its own for null.
fn place_or(place: u64, at: Option<u64>) -> u64
    ensures { pos result ≡ place_or place at }
{
    match at {
        Some(k) => k,
        None => place,
    }
}

/// Where the items of an option are, and each null at a place of its own.
#[derive(Drop)]
struct PlacesOr<'b, 'a> {
    place: u64,
    index: &'b Index<'a>,
}

impl<'b, 'a> Numbers for PlacesOr<'b, 'a> {
    ghost use Rattle.std.specs.Prelude.{◌<◌, ◌^◌};
    ghost use Rattle.awk_lanes.specs.declared.kind.Kind.TheVariants as Kinds;
    ghost use Rattle.awk_lanes.specs.Places.{size_of, option_place_at, IsOptionalIndex};
    ghost use Rattle.awk_fill.specs.Filled.{place_or as place_or_own};

    ghost kind = { λ _. Kinds.I64 };

    ghost at = { λ f i. place_or_own f.place (option_place_at f.index.now i) };

    ghost size = { λ f. size_of f.index.now };

    ghost IsReady = { λ f. (f.place < 2 ^ 63) × IsOptionalIndex f.index.now f.place };

    fn number<L: Ledger>(&self, i: u64, _steps: &mut Steps<L>) -> Num {
        number(place_or(self.place, self.index.option_place(i)))
    }
}

/// The same as a lane.
fn places_or<'a, L: Ledger>(
    alloc: Global,
    place: u64,
    index: &Lane<'a>,
    arena: &'a Arena,
    steps: &mut Steps<L>,
) -> Result<Lane<'a>, NoMemory>
    requires fits { place < 2 ^ 63 }
    requires index { IsOptionalIndex index.now place }
    ensures { IfOk result (λ r. r ≡ places_or place index.now) }
{
    let index = index_of(alloc, index, arena, steps)?;
    let places = PlacesOr {
        place,
        index: &index,
    };
    made_lane(Kind::I64, index.len(), &places, arena, steps)
}

/// The nulls of an option as the value, which stands first behind the items that are present.
/// Numbers are filled in one pass.
fn filled_option<'a, L: Ledger>(
    alloc: Global,
    value: &Operand,
    index: &Lane<'a>,
    present: &Array<'a>,
    arena: &'a Arena,
    steps: &mut Steps<L>,
) -> Result<Node<'a>, NoMemory>
    requires first { HasFirst value.now }
    requires accepted { let f = filler_of value.now in
        filler_refusal f (opt (array_type present.now)) ≡ None }
    requires fits { size_of index.now < 2 ^ 63 }
    requires index { IsOptionalIndex index.now (len present.now) }
    requires plain { is_option (array_type present.now) ≡ false }
    ensures { IfOk result (IsFilledOption (filler_of value.now) index.now present.now) }
{
    let n = present.len();
    let own = value_array(alloc, value, present.typ(), arena, steps)?;
    let filled = filled_numbers(alloc, index, present, &own, arena, steps)?;
    if let Some(node) = filled {
        return Ok(node);
    }
    let items = Box::new(alloc, pair(alloc, present, &own, arena, steps)?)?;
    let places = places_or(alloc, n, index, arena, steps)?;
    Ok(Node::indexed(places, items, steps))
}

/// The nulls of an array as the value.
fn filled<'a, L: Ledger>(
    alloc: Global,
    value: &Operand,
    x: &Array<'a>,
    arena: &'a Arena,
    steps: &mut Steps<L>,
) -> Result<Node<'a>, NoMemory>
    requires first { HasFirst value.now }
    requires accepted { filler_refusal (filler_of value.now) (array_type x.now) ≡ None }
    ensures { IfOk result (IsFilled (filler_of value.now) x.now) }
{
    let _ = x.len();
    if !is_optional(x.typ()) {
        return x.node().copy(alloc);
    }
    let parts = parts_of(alloc, value, x, arena, steps)?;
    filled_option(alloc, value, &parts.index, &parts.content, arena, steps)
}

/// Whether lists stay as they lie: they may have any length, and none of their items is optional.
fn lie_still(lists: &Lists) -> bool
    ensures class { result ≡ true → lists.now.class ≡ None }
    ensures plain { result ≡ true → is_option (array_type lists.now.content) ≡ false }
{
    let optional = is_optional(lists.content().typ());
    if optional {
        return false;
    }
    match lists.class() {
        None => true,
        Some(_) => false,
    }
}

/// Lists that stay, whatever fills nulls: they are counted, and no item is moved.
fn kept_lists<'a, L: Ledger>(
    alloc: Global,
    lists: &Lists<'a>,
    arena: &'a Arena,
    steps: &mut Steps<L>,
) -> Result<Made<'a>, NoMemory>
    requires class { lists.now.class ≡ None }
    requires plain { is_option (array_type lists.now.content) ≡ false }
    ensures { IfOk result (AreKept lists.now.class lists.now.starts lists.now.stops
        lists.now.content) }
{
    let _ = lists.content().len();
    let few = are_few(alloc, lists, arena, steps)?;
    if few {
        let made = Made::as_they_lie(alloc, lists)?;
        return Ok(made);
    }
    Ok(Made::Spoiled(Spoil::Size))
}

/// The items of a list with the value in the place of each null.
#[derive(Drop)]
struct Filling<'o, 'b> {
    value: &'o Operand<'b>,
}

impl<'o, 'b> Model for Filling<'o, 'b> {
    ghost use Rattle.awk_layout.specs.Filler.{HasFirst};
    ghost use Rattle.awk_layout.specs.declared.datum.Operand.{Operand};
    ghost use Rattle.awk_layout.specs.DatumCode.{coded_operand};

    ghost Value = { Operand };

    ghost coded = { coded_operand };

    ghost view = { λ f. f.value.now };

    ghost invariant = { λ f. HasFirst f.value.now };
}

impl<'o, 'b> ListOp for Filling<'o, 'b> {
    ghost function = { λ f. fill_none_function (filler_of f) };

    fn refusal(&self, item: &Typ) -> Option<Refusal> {
        match self.value {
            Operand::Literal(z) => literal_refusal(*z, item),
            _ if self.value.is_filler() => None,
            _ => Some(Refusal::WrongType),
        }
    }

    fn typ(&self, alloc: Global, item: &Typ) -> Result<Typ, NoMemory> {
        match item {
            Typ::Opt(present) => {
                let own = filler_typ(alloc, self.value, present)?;
                Ok(unify_unlimited(alloc, present, &own)?.typ)
            }
            _ => copy_type(alloc, item),
        }
    }

    fn gives_lists(&self) -> bool {
        true
    }

    fn class(&self, class: Option<u64>) -> Option<u64> {
        class
    }

    fn tells_index(&self) -> bool {
        false
    }

    fn counts_given(&self) -> bool {
        true
    }

    fn column<'a, L: Ledger>(
        &self,
        alloc: Global,
        lists: &Lists<'a>,
        arena: &'a Arena,
        steps: &mut Steps<L>,
    ) -> Result<Made<'a>, NoMemory> {
        let _ = lists.content();
        if lie_still(lists) {
            let made = kept_lists(alloc, lists, arena, steps)?;
            return Ok(made);
        }
        match lists.joined(alloc, arena, steps)? {
            Joined::TooMany => Ok(Made::Spoiled(Spoil::Size)),
            Joined::Lists { offsets, content } => {
                let items = filled(alloc, self.value, &content, arena, steps)?;
                Ok(Made::Lists {
                    offsets,
                    content: items,
                })
            }
        }
    }
}

/// Two items of a single value, in columns that hold no more than these.
fn twice<'a, L: Ledger>(
    alloc: Global,
    x: &Array<'a>,
    arena: &'a Arena,
    steps: &mut Steps<L>,
) -> Result<Array<'a>, NoMemory>
    requires { 0 < len x.now }
    ensures { IfOk result (IsFirst (array_type x.now) (first_item x.now)) }
{
    let mut sides = Sides::new(alloc);
    sides.push(alloc, x.copy(alloc)?, &Lift::Same)?;
    sides.push(alloc, x.copy(alloc)?, &Lift::Same)?;
    let node = merge(alloc, x.typ(), &sides, arena, steps)?;
    Ok(Array::with_type(node, copy_type(alloc, x.typ())?))
}

/// The same to fill nulls with. A value that was picked from a long column lies in the lanes of
/// that column; it is taken out of them once, and not for each column of lists.
fn compact<'a, L: Ledger>(
    alloc: Global,
    value: &Operand<'a>,
    arena: &'a Arena,
    steps: &mut Steps<L>,
) -> Result<Operand<'a>, NoMemory>
    requires { IsOperand value.now }
    ensures filler { IfOk result (λ v. filler_of v ≡ filler_of value.now) }
    ensures first { IfOk result HasFirst }
{
    match value {
        Operand::Literal(z) => Ok(Operand::Literal(*z)),
        Operand::Of(Datum::Arr(x)) => Ok(Operand::Of(Datum::Arr(x.copy(alloc)?))),
        Operand::Of(Datum::One(x)) => Ok(Operand::Of(Datum::One(twice(alloc, x, arena, steps)?))),
    }
}

/// What is no filler is told after an axis, where no list is reached too.
#[tactic(auto, using(crate::proofs::FillLaws::refusing))]
fn refused(answer: Result<Datum, Fault>) -> Fault
    ensures { IsRefused answer.entry result }
{
    match answer {
        Err(Fault::Axis) => Fault::Axis,
        Err(Fault::NoMemory) => Fault::NoMemory,
        _ => Fault::WrongType,
    }
}

/// Each null among the items of the lists at an axis as the value, a literal or a single value that
/// is not optional. Where items are optional they become of the type that theirs without the option
/// and the value's unify to; a literal is there of the items' type where that is a whole-number
/// type, else of int64. Where no items are optional they stay, and a literal is not judged.
pub fn fill_none<'a, L: Ledger>(
    alloc: Global,
    x: &Datum<'a>,
    value: &Operand<'a>,
    axis: i64,
    arena: &'a Arena,
    steps: &mut Steps<L>,
) -> Result<Datum<'a>, Fault>
    requires datum { IsDatum x.now }
    requires operand { IsOperand value.now }
    ensures answer { Gives datum_of fault_told result
        (fill_none_of (datum_of x.now) (filler_of value.now) axis) }
    ensures datum { IfOk result (λ made. IsDatum made) }
{
    let own = compact(alloc, value, arena, steps)?;
    let answer = lift_at(alloc, &Filling { value: &own }, x, axis, arena, steps);
    if value.is_filler() {
        answer
    } else {
        Err(refused(answer))
    }
}
