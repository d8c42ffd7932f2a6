//! How many items a list has.
ghost use Rattle.std.specs.Prelude.{◌≡◌, ◌<◌, ◌^◌};
ghost use Rattle.awk_lanes.specs.Places.{size_of, AreSpans};
ghost use Rattle.awk_columns.specs.Lists.{span_length};

use awk_index::Index;

/// How many items the list at a place has.
#[inline(always)]
pub fn length_between(starts: &Index, stops: &Index, i: u64) -> u64
    requires within { i < size_of starts.now }
    requires spans { AreSpans starts.now stops.now 9223372036854775807 }
    ensures length { result ≡ span_length starts.now stops.now i }
    ensures fits { result < 2 ^ 63 }
{
    let start = starts.number(i);
    let stop = stops.number(i);
    if start == stop {
        0
    } else {
        (stop - start) as u64
    }
}
