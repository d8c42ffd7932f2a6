//! Masks of bytes as indexes of options, read where they lie.
ghost use Rattle.std.specs.Prelude.{◌≡◌, ◌<◌, ◌^◌, length};
ghost use Rattle.awk_lanes.specs.Made.{lane_of};
ghost use Rattle.awk_lanes.specs.Places.{size_of, at};
ghost use Rattle.awk_lanes.specs.declared.kind.Kind.TheVariants as Kinds;
ghost use Rattle.awk_gather.specs.Peeled.{byte_index};
ghost use Rattle.awk_open.specs.Masked.{group_shows};

use awk_gather::if_shown;
use awk_lanes::{Lane, Num, Numbers, Steps, to_option_place};
use awk_narrow::OptionIndex;
use std::marker::Model;
use std::sync::ledger::Ledger;

/// A mask with a byte for each item, as the index of an option: an item that is there is at its
/// own place.
#[derive(Drop)]
pub struct MaskIndex<'a> {
    bytes: &'a [[u8; 1]],
    valid_when: bool,
}

impl<'a> Model for MaskIndex<'a> {
    ghost use Rattle.awk_lanes.specs.Column.{Column};
    ghost use Rattle.awk_open.specs.Masked.{mask_lane};

    ghost Value = { Column };

    ghost view = { λ m. mask_lane m.bytes.now m.valid_when };

    ghost use Rattle.std.specs.Prelude.{◌<◌, ◌^◌, length};

    ghost invariant = { λ m. length m.bytes.now < 2 ^ 63 };
}

/// Whether the byte of item i says that it is there.
#[inline(always)]
fn is_shown(bytes: &[[u8; 1]], valid_when: bool, i: u64) -> bool
    requires { i < length bytes.now }
    ensures { result ≡ group_shows bytes.now valid_when i }
{
    let set = i8::from_le_bytes(bytes[i as usize]) != 0;
    set == valid_when
}

impl<'a> MaskIndex<'a> {
    /// The number of item i: its place where it is there, else -1.
    #[inline(always)]
    fn place_number(&self, i: u64) -> i64
        requires { i < size_of self.now }
        ensures { result ≡ at self.now i }
    {
        if_shown(is_shown(self.bytes, self.valid_when, i), i)
    }
}

impl<'a> OptionIndex for MaskIndex<'a> {
    ghost lane = { λ x. x };

    #[inline(always)]
    fn size(&self) -> u64 {
        self.bytes.len() as u64
    }

    #[inline(always)]
    fn place(&self, i: u64) -> Option<u64> {
        to_option_place(self.place_number(i))
    }
}

/// The numbers of the index, for a lane of them.
impl<'a> Numbers for MaskIndex<'a> {
    ghost use Rattle.awk_lanes.specs.Places.{size_of, at};
    ghost use Rattle.awk_lanes.specs.declared.kind.Kind.TheVariants as Kinds;

    ghost kind = { λ _. Kinds.I64 };

    ghost at = { λ x. at x };

    ghost size = { λ x. size_of x };

    #[inline(always)]
    fn number<L: Ledger>(&self, i: u64, _steps: &mut Steps<L>) -> Num {
        Num::Int(self.place_number(i))
    }
}

/// The index that a mask of bytes stands for: no lane of it is made.
pub fn mask_index<'a, L: Ledger>(
    mask: &Lane<'a>,
    valid_when: bool,
    steps: &mut Steps<L>,
) -> MaskIndex<'a>
    requires kind { mask.now.kind ≡ Kinds.I8 }
    requires small { size_of mask.now < 2 ^ 63 }
    ensures { result ≡ lane_of Kinds.I64 (size_of mask.now) (byte_index mask.now valid_when) }
{
    let (bytes, _) = mask.narrow_bytes(steps).as_chunks::<1>();
    MaskIndex { bytes, valid_when }
}
