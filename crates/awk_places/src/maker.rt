//! A lane of places that is being made.
ghost use Rattle.std.specs.Prelude.{◌≡◌, ◌-◌, ◌<◌, ◌≤◌, ◌^◌, ◌++◌, ◌∷◌, [], pos, replicate, IfOk};
ghost use Rattle.std.specs.List.{range_with_len};
ghost use Rattle.std.specs.Int.{cast_unsigned, w64};
ghost use Rattle.awk_lanes.specs.Words.{column, integers, low_bytes};
ghost use Rattle.awk_lanes.specs.declared.kind.Kind.TheVariants as Kinds;

use awk_lanes::{Arena, Kind, Lane, Num, number};
use awk_types::NoMemory;
use bumpalo::collections::into_bump_slice;
use std::marker::Model;

/// Places that are put one behind another, in the bytes of a lane. A list of so many as are told
/// takes all its memory when it begins.
#[derive(Drop)]
pub(crate) struct PlaceMaker<'a> {
    groups: Vec<[u8; 8], &'a Arena>,
}

impl<'a> Model for PlaceMaker<'a> {
    ghost use Rattle.std.specs.Prelude.{ℕ, List};

    ghost Value = { List ℕ };

    ghost use Rattle.std.specs.Prelude.{map};
    ghost use Rattle.awk_places.specs.Groups.{place_in, AreGroups};

    ghost view = { λ m. map place_in m.groups.items };

    ghost invariant = { λ m. AreGroups m.groups.items };
}

/// The bytes of a place as a number of a lane.
#[inline(always)]
fn group_of(place: u64) -> [u8; 8]
    requires { place < 2 ^ 63 }
    ensures { result ≡ low_bytes 8 (cast_unsigned w64 (pos place)) }
{
    match number(place) {
        Num::Int(z) => z.to_le_bytes(),
        Num::Nat(_) | Num::Truth(_) => unreachable!(),
    }
}

impl<'a> PlaceMaker<'a> {
    /// No places yet, of so many.
    pub(crate) fn new(total: u64, arena: &'a Arena) -> Result<PlaceMaker<'a>, NoMemory>
        ensures { IfOk result (λ m. m ≡ []) }
    {
        Ok(PlaceMaker {
            groups: Vec::with_capacity(arena, total as usize)?,
        })
    }

    /// Adds a place.
    #[inline(always)]
    pub(crate) fn push(&mut self, place: u64) -> Result<(), NoMemory>
        requires { place < 2 ^ 63 }
        ensures { IfOk result (λ _. self.new ≡ self.old ++ place ∷ []) }
    {
        self.groups.push(group_of(place))?;
        Ok(())
    }

    /// The lane of the places, in their order.
    pub(crate) fn finish(self) -> Lane<'a>
        ensures { result ≡ column Kinds.I64 (integers self.entry) }
    {
        let groups = into_bump_slice(self.groups);
        Lane::new(Kind::I64, groups.as_flattened())
    }
}

/// Adds a place so many times.
pub(crate) fn put_times(made: &mut PlaceMaker, place: u64, n: u64) -> Result<(), NoMemory>
    requires { place < 2 ^ 63 }
    ensures { IfOk result (λ _. made.new ≡ made.old ++ replicate n place) }
{
    for i in 0..n {
        made.push(place)?;
    }
    Ok(())
}

/// Adds the places from a first one below an end.
pub(crate) fn put_places(made: &mut PlaceMaker, first: u64, end: u64) -> Result<(), NoMemory>
    requires { end ≤ 2 ^ 63 }
    ensures { IfOk result (λ _. made.new ≡ made.old ++ range_with_len first (end - first)) }
{
    for place in first..end {
        made.push(place)?;
    }
    Ok(())
}
