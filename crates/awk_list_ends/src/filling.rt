//! Lists one after another, from the first item of their content on.
ghost use Rattle.std.specs.Prelude.{◌≡◌, ◌+◌, ◌<◌, ◌≤◌, ◌^◌};
ghost use Rattle.awk_lanes.specs.Places.{size_of, place_at};
ghost use Rattle.awk_layout.specs.Valid.{len};
ghost use Rattle.awk_columns.specs.Lists.{span_length};

use awk_columns::{Bounds, Span};

/// Where the list at a place lies; one without items lies at `place`.
#[inline(always)]
pub fn span_or(lists: &Bounds, i: u64, place: u64) -> Span
    requires within { i < size_of lists.now.starts }
    requires place { place ≤ len lists.now.content }
    requires small { place < 2 ^ 63 }
    ensures length { result.length ≡ span_length lists.now.starts lists.now.stops i }
    ensures start { 0 < result.length → result.start ≡ place_at lists.now.starts i }
    ensures within { result.start + result.length ≤ len lists.now.content }
    ensures small { result.start + result.length < 2 ^ 63 }
{
    let span = lists.span_of(i);
    if span.length == 0 {
        Span {
            start: place,
            length: 0,
        }
    } else {
        span
    }
}
