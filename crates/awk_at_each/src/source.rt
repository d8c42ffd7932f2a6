//! What stands at the places of a content.
ghost use Rattle.std.specs.Prelude.{◌≡◌};

use awk_index::Index;
use awk_lanes::{Num, number};

/// Numbers of 64 bits by the places of a content.
pub(crate) trait AtPlaces {
    ghost use Rattle.std.specs.Prelude.{◌≡◌, ◌<◌, ℕ, ℤ};
    ghost use Rattle.awk_lanes.specs.Numbers.{int_of, IsOf};
    ghost use Rattle.awk_lanes.specs.declared.kind.Kind.TheVariants as Kinds;

    /// The number at a place.
    ghost at: { Self → ℕ → ℤ };

    /// How many places there are.
    ghost size: { Self → ℕ };

    /// The number at a place.
    fn read(&self, place: u64) -> Num
        requires { place < size self.now }
        ensures number { int_of result ≡ at self.now place }
        ensures kind { IsOf Kinds.I64 result };
}

/// Each place itself.
#[derive(Clone, Copy)]
pub(crate) struct Itself;

impl AtPlaces for Itself {
    ghost use Rattle.std.specs.Prelude.{pos, ◌^◌};

    ghost at = { λ _ k. pos k };

    ghost size = { λ _. 2 ^ 63 };

    #[inline(always)]
    fn read(&self, place: u64) -> Num {
        number(place)
    }
}

impl<'a> AtPlaces for Index<'a> {
    ghost use Rattle.awk_lanes.specs.Places.{size_of, at as number_at};

    ghost at = { λ x. number_at x };

    ghost size = { λ x. size_of x };

    #[inline(always)]
    fn read(&self, place: u64) -> Num {
        Num::Int(self.number(place))
    }
}
