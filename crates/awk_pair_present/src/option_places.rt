//! Where the items of an option lie: by the numbers of an index, or by a mask of bytes.
ghost use Rattle.std.specs.Prelude.{◌≡◌, IfOk};
ghost use Rattle.awk_lanes.specs.Places.{IsOptionKind};

use awk_index::{Index, index_of};
use awk_lanes::{Arena, Kind, Lane, NoMemory, Steps};
use awk_narrow::{NarrowIndex, OptionIndex, narrow_index};
use awk_open::MaskIndex;
use std::alloc::Global;
use std::marker::Model;
use std::sync::ledger::Ledger;

/// How the index of an option is held: as numbers of either width, or as the mask that it stands
/// for.
#[derive(Drop)]
enum Held<'a> {
    Wide(Index<'a>),
    Narrow(NarrowIndex<'a>),
    Mask(MaskIndex<'a>),
}

/// The index of an option.
#[derive(Drop)]
pub(crate) struct OptionPlaces<'a> {
    held: Held<'a>,
}

impl<'a> Model for OptionPlaces<'a> {
    ghost use Rattle.awk_lanes.specs.Column.{Column};

    ghost Value = { Column };

    ghost use Rattle.awk_pair_present.specs.Held.{held_index};

    ghost view = { λ x. held_index x.held };
}

impl<'a> OptionPlaces<'a> {
    /// By the numbers of an index.
    fn of_wide(index: Index<'a>) -> OptionPlaces<'a>
        ensures { result ≡ index.entry }
    {
        OptionPlaces {
            held: Held::Wide(index),
        }
    }

    /// By numbers of 32 bits where they lie.
    fn of_narrow(index: NarrowIndex<'a>) -> OptionPlaces<'a>
        ensures { result ≡ index.entry }
    {
        OptionPlaces {
            held: Held::Narrow(index),
        }
    }

    /// By a lane of numbers, of which those of 32 bits are not widened.
    pub(crate) fn of_lane<L: Ledger>(
        alloc: Global,
        index: &Lane<'a>,
        arena: &'a Arena,
        steps: &mut Steps<L>,
    ) -> Result<OptionPlaces<'a>, NoMemory>
        requires { IsOptionKind index.now.kind }
        ensures { IfOk result (λ r. r ≡ index.now) }
    {
        if index.kind() == Kind::I32 {
            return Ok(OptionPlaces::of_narrow(narrow_index(index, steps)));
        }
        let index = index_of(alloc, index, arena, steps)?;
        Ok(OptionPlaces::of_wide(index))
    }

    /// By a mask.
    pub(crate) fn of_mask(mask: MaskIndex<'a>) -> OptionPlaces<'a>
        ensures { result ≡ mask.entry }
    {
        OptionPlaces {
            held: Held::Mask(mask),
        }
    }
}

impl<'a> OptionIndex for OptionPlaces<'a> {
    ghost lane = { λ x. x };

    #[inline(always)]
    fn size(&self) -> u64 {
        match &self.held {
            Held::Wide(index) => index.len(),
            Held::Narrow(index) => index.len(),
            Held::Mask(mask) => mask.size(),
        }
    }

    #[inline(always)]
    fn place(&self, i: u64) -> Option<u64> {
        match &self.held {
            Held::Wide(index) => index.option_place(i),
            Held::Narrow(index) => index.option_place(i),
            Held::Mask(mask) => mask.place(i),
        }
    }
}
