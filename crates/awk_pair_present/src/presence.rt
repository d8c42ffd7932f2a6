//! Which items of operands are there, and their items at places where they are.
ghost use Rattle.std.specs.Prelude.{◌≡◌, ℕ, ◌<◌, ◌≤◌, ◌^◌, ◌≤ℤ◌, ◌&&◌, pos, true, IfOk};
ghost use Rattle.std.specs.Prelude.{IfSome};
ghost use Rattle.awk_types.specs.Simple.{is_option};
ghost use Rattle.awk_lanes.specs.Places.{size_of, at, place_at};
ghost use Rattle.awk_lanes.specs.declared.kind.Kind.TheVariants as Kind;
ghost use Rattle.awk_layout.specs.Typing.{array_type};
ghost use Rattle.awk_layout.specs.Valid.{len};
ghost use Rattle.awk_open.specs.Opened.{AreLong};
ghost use Rattle.awk_pair_present.specs.Presence.{is_there as is_there_at};
ghost use Rattle.awk_pair_present.specs.Presence.{are_there as are_there_at};
ghost use Rattle.awk_pair_present.specs.Presence.{IsPresence, ArePresences, IsAsLong, AreAsLong};
ghost use Rattle.awk_pair_present.specs.Presence.{AreKeptOf, AllKeptOf, IsTaken, AreTaken};

use crate::option_places::OptionPlaces;
use awk_gather::gather;
use awk_index::{Index, wide_index};
use awk_lanes::{Arena, Kind, Lane, NoMemory, Num, Numbers, Steps, made_lane, number, to_place};
use awk_layout::{Array, Arrays, Class};
use awk_narrow::OptionIndex;
use awk_open::{Opened, mask_index, opened};
use awk_types::is_optional;
use std::alloc::Global;
use std::sync::ledger::Ledger;

/// An operand's items by those that are there.
#[derive(Drop)]
pub(crate) enum Presence<'a> {
    /// All of them are there.
    All(Array<'a>),
    /// Null where the index is negative, else the content's item there.
    Indexed {
        index: OptionPlaces<'a>,
        content: Array<'a>,
    },
}

/// A mask of bytes over numbers by those that are there, as it lies, or none of another array.
fn masked_presence<'a, L: Ledger>(
    alloc: Global,
    x: &Array<'a>,
    steps: &mut Steps<L>,
) -> Result<Option<Presence<'a>>, NoMemory>
    ensures { IfOk result (λ o. IfSome o (IsPresence (len x.now) x.now)) }
{
    let _ = x.len();
    match x.node().class() {
        Class::ByteMasked {
            mask,
            valid_when,
            content,
        } => match content.class() {
            Class::Numpy { .. } => {
                let index = OptionPlaces::of_mask(mask_index(mask, valid_when, steps));
                let content = Array::of_node(alloc, content.copy(alloc)?)?;
                Ok(Some(Presence::Indexed { index, content }))
            }
            _ => Ok(None),
        },
        _ => Ok(None),
    }
}

/// Any option by those of its items that are there.
fn opened_presence<'a, L: Ledger>(
    alloc: Global,
    x: &Array<'a>,
    arena: &'a Arena,
    steps: &mut Steps<L>,
) -> Result<Presence<'a>, NoMemory>
    requires option { is_option (array_type x.now) ≡ true }
    ensures { IfOk result (IsPresence (len x.now) x.now) }
{
    match opened(alloc, x, arena, steps)? {
        Opened::Option { index, content } => {
            let index = OptionPlaces::of_lane(alloc, &index, arena, steps)?;
            Ok(Presence::Indexed { index, content })
        }
        _ => unreachable!(),
    }
}

/// An operand's items by those that are there.
fn presence_of<'a, L: Ledger>(
    alloc: Global,
    x: &Array<'a>,
    arena: &'a Arena,
    steps: &mut Steps<L>,
) -> Result<Presence<'a>, NoMemory>
    ensures { IfOk result (IsPresence (len x.now) x.now) }
{
    let _ = x.len();
    if !is_optional(x.typ()) {
        return Ok(Presence::All(x.copy(alloc)?));
    }
    match masked_presence(alloc, x, steps)? {
        Some(presence) => Ok(presence),
        None => opened_presence(alloc, x, arena, steps),
    }
}

/// All operands' items by those that are there.
pub(crate) fn presences_of<'a, L: Ledger>(
    alloc: Global,
    n: u64,
    xs: &Arrays<'a>,
    arena: &'a Arena,
    steps: &mut Steps<L>,
) -> Result<Vec<Presence<'a>>, NoMemory>
    requires long { AreLong n xs.now }
    ensures { IfOk result (λ r. ArePresences n xs.now r.items) }
{
    let mut presences = Vec::new(alloc);
    for i in 0..xs.len() {
        let presence = presence_of(alloc, xs.get(i), arena, steps)?;
        presences.push(presence)?;
    }
    Ok(presences)
}

/// Whether an operand's item at a place is there.
#[inline(always)]
fn is_there(presence: &Presence, n: u64, i: u64) -> bool
    requires long { IsAsLong n presence.now }
    requires within { i < n }
    ensures { result ≡ is_there_at i presence.now }
{
    match presence {
        Presence::All(_) => true,
        Presence::Indexed { index, .. } => index.place(i).is_some(),
    }
}

/// Whether both are true, without a branch.
#[inline(always)]
fn both(a: bool, b: bool) -> bool
    ensures { result ≡ (a && b) }
{
    a & b
}

/// Whether all items of a row are there. Each is asked: which of them are null has no pattern that
/// a branch could foresee.
pub(crate) fn are_there(presences: &[Presence], n: u64, i: u64) -> bool
    requires long { AreAsLong n presences.now }
    requires within { i < n }
    ensures { result ≡ are_there_at presences.now i }
{
    let mut all = true;
    for j in 0..presences.len() {
        all = both(all, is_there(&presences[j], n, i));
    }
    all
}

/// Where the items at places lie among those that are there.
#[derive(Drop)]
struct PlacesThere<'b, 'a> {
    index: &'b OptionPlaces<'a>,
    places: &'b Index<'a>,
}

impl<'b, 'a> Numbers for PlacesThere<'b, 'a> {
    ghost use Rattle.std.specs.Prelude.{◌≡◌, ℕ, ◌<◌, ◌^◌, pos, ◌≤ℤ◌};
    ghost use Rattle.awk_lanes.specs.declared.kind.Kind.TheVariants as Kind;
    ghost use Rattle.awk_lanes.specs.Places.{size_of, at, place_at};
    ghost use Rattle.awk_pair_present.specs.Presence.{AreThereAt};

    ghost kind = { λ _. Kind.I64 };

    ghost at = { λ f q. at f.index.now (place_at f.places.now q) };

    ghost size = { λ f. size_of f.places.now };

    ghost IsReady = { λ f. AreThereAt f.index.now f.places.now };

    fn number<L: Ledger>(&self, q: u64, _steps: &mut Steps<L>) -> Num {
        let i = to_place(self.places.number(q));
        match self.index.place(i) {
            Some(place) => number(place),
            None => unreachable!(),
        }
    }
}

/// An operand's items at places where they are there.
fn taken<'a, L: Ledger>(
    alloc: Global,
    presence: &Presence<'a>,
    n: u64,
    places: &Lane<'a>,
    arena: &'a Arena,
    steps: &mut Steps<L>,
) -> Result<Array<'a>, NoMemory>
    requires long { IsAsLong n presence.now }
    requires kind { places.now.kind ≡ Kind.I64 }
    requires positive { (q : ℕ) → q < size_of places.now → pos 0 ≤ℤ at places.now q }
    requires kept { AreKeptOf n presence.now places.now }
    ensures { IfOk result (IsTaken presence.now places.now) }
{
    match presence {
        Presence::All(x) => {
            let column = gather(alloc, x, places, arena, steps)?;
            Ok(column)
        }
        Presence::Indexed { index, content } => {
            let _ = content.len();
            let n = places.len();
            let seen = wide_index(places, arena, steps)?;
            let there = PlacesThere {
                index,
                places: &seen,
            };
            let lane = made_lane(Kind::I64, n, &there, arena, steps)?;
            let column = gather(alloc, content, &lane, arena, steps)?;
            Ok(column)
        }
    }
}

/// All operands' items at places where all are there.
pub(crate) fn all_taken<'a, L: Ledger>(
    alloc: Global,
    presences: &[Presence<'a>],
    n: u64,
    places: &Lane<'a>,
    arena: &'a Arena,
    steps: &mut Steps<L>,
) -> Result<Arrays<'a>, NoMemory>
    requires long { AreAsLong n presences.now }
    requires kind { places.now.kind ≡ Kind.I64 }
    requires positive { (q : ℕ) → q < size_of places.now → pos 0 ≤ℤ at places.now q }
    requires kept { AllKeptOf n presences.now places.now }
    ensures { IfOk result (AreTaken presences.now places.now) }
{
    let mut arrays = Arrays::new(alloc);
    for j in 0..presences.len() {
        let array = taken(alloc, &presences[j], n, places, arena, steps)?;
        arrays.push(array)?;
    }
    Ok(arrays)
}
