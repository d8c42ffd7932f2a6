//! Where a list lies.
ghost use Rattle.std.specs.Prelude.{◌≡◌, ◌+◌, ◌<◌, ◌≤◌, ◌^◌};
ghost use Rattle.awk_lanes.specs.Places.{size_of, place_at};
ghost use Rattle.awk_layout.specs.Valid.{len};
ghost use Rattle.awk_columns.specs.Lists.{length_of};

use crate::ends::end_at;
use awk_columns::{Lists, Span};
use awk_lanes::Steps;
use std::sync::ledger::Ledger;

/// Where list i lies. It is read once for all its items.
pub fn span_of<L: Ledger>(lists: &Lists, i: u64, steps: &mut Steps<L>) -> Span
    requires { i < size_of lists.now.starts }
    ensures start { result.start ≡ place_at lists.now.starts i }
    ensures length { result.length ≡ length_of lists.now i }
    ensures within { 0 < result.length → result.start + result.length ≤ len lists.now.content }
    ensures small { result.start + result.length < 2 ^ 63 }
{
    let _ = lists.content();
    Span {
        start: end_at(lists.starts(), i, steps),
        length: lists.length_at(i, steps),
    }
}
