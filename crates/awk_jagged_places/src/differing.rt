//! Whether lists in pairs are as long.
ghost use Rattle.std.specs.Prelude.{◌≡◌};
ghost use Rattle.awk_lanes.specs.Places.{size_of};
ghost use Rattle.awk_jagged_rows.specs.Levels.{AreCompared};

use awk_columns::Bounds;

/// Whether two lists of some pair have unequal lengths.
pub fn lengths_differ(xs: &Bounds, ws: &Bounds) -> bool
    requires pairs { size_of xs.now.starts ≡ size_of ws.now.starts }
    ensures { AreCompared xs.now ws.now result }
{
    for i in 0..xs.len() {
        if xs.length_at(i) != ws.length_at(i) {
            return true;
        }
    }
    false
}
