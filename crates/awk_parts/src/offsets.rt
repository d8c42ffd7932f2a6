//! Offsets read where they lie.
ghost use Rattle.std.specs.Prelude.{◌≡◌, ◌<◌, ◌≤ℤ◌, pos};
ghost use Rattle.awk_lanes.specs.Places.{size_of, at, place_at};

use awk_index::Index;
use awk_lanes::to_place;

/// The offset at place i, where it is not negative.
#[inline(always)]
pub fn offset_at(offsets: &Index, i: u64) -> u64
    requires within { i < size_of offsets.now }
    requires positive { pos 0 ≤ℤ at offsets.now i }
    ensures { result ≡ place_at offsets.now i }
{
    to_place(offsets.number(i))
}
