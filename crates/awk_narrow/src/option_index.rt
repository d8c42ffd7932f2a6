//! Indexes of options, of either width.
use crate::index::NarrowIndex;
use awk_index::Index;

/// An index of an option, which is negative for null.
pub trait OptionIndex {
    ghost use Rattle.std.specs.Prelude.{◌≡◌, ◌<◌};
    ghost use Rattle.awk_lanes.specs.Column.{Column};
    ghost use Rattle.awk_lanes.specs.Places.{size_of, option_place_at};

    /// Its numbers.
    ghost lane: { Self → Column };

    /// How many numbers there are.
    fn size(&self) -> u64
        ensures { result ≡ size_of (lane self.now) };

    /// The place at place i, or none where the number is negative.
    fn place(&self, i: u64) -> Option<u64>
        requires { i < size_of (lane self.now) }
        ensures { result ≡ option_place_at (lane self.now) i };
}

impl<'a> OptionIndex for Index<'a> {
    ghost lane = { λ x. x };

    #[inline(always)]
    fn size(&self) -> u64 {
        self.len()
    }

    #[inline(always)]
    fn place(&self, i: u64) -> Option<u64> {
        self.option_place(i)
    }
}

impl<'a> OptionIndex for NarrowIndex<'a> {
    ghost lane = { λ x. x };

    #[inline(always)]
    fn size(&self) -> u64 {
        self.len()
    }

    #[inline(always)]
    fn place(&self, i: u64) -> Option<u64> {
        self.option_place(i)
    }
}
