//! The lists of a lane's numbers.
ghost use Rattle.std.specs.Prelude.{◌≡◌, ◌≤◌, ◌+◌, ◌-◌, ◌++◌, IsTrue, length, drop};
ghost use Rattle.awk_edge.specs.Causes.{HasCause};
ghost use Rattle.awk_edge.specs.Put.{Moves};
ghost use Rattle.awk_lanes.specs.Places.{size_of};
ghost use Rattle.awk_layout.specs.Layout.{flat};
ghost use Rattle.awk_text.specs.LayoutText.{span_text, run_text};

use crate::digits::{LONGEST, set_leaf};
use awk_edge::{Out, Sink, WriteFault};
use awk_lanes::{Lane, Steps};
use std::sync::ledger::Ledger;

/// So many numbers are put at once.
const RUN: u64 = 12;

/// The bytes of a run at most, with a comma before each number.
const ROOM: usize = 252;

/// Puts the list of a lane's numbers from place lo below place hi.
pub(crate) fn write_numbers<K: Sink, L: Ledger>(
    lane: &Lane<'_>,
    lo: u64,
    hi: u64,
    out: &mut Out,
    sink: &mut K,
    steps: &mut Steps<L>,
) -> Result<(), WriteFault>
    requires open { IsTrue out.old.is_open }
    requires ordered { lo ≤ hi }
    requires within { hi ≤ size_of lane.now }
    ensures bytes { Moves (K.written sink.old) (K.written sink.new) out.new
        (out.old.held ++ span_text (flat lane.now) lo hi) result }
    ensures flushes { K.flushes sink.new ≡ K.flushes sink.old }
    ensures cause { HasCause (K.faults sink.old) (K.faults sink.new) result }
    ensures cost { steps.new ≤ steps.old + length (span_text (flat lane.now) lo hi) }
{
    let mut room = [0; ROOM];
    let mut j = lo;
    out.put(sink, b"[")?;
    while j < hi {
        let stop = j + RUN.min(hi - j);
        let start = set_run(lane, lo, j, stop, &mut room, steps);
        out.put(sink, &room[start..])?;
        j = stop;
    }
    out.put(sink, b"]")
}

/// Sets a run of a list's numbers, from place j below a stop, at the end of a room of bytes, and
/// tells where it starts.
/// The list begins at place first.
fn set_run<L: Ledger>(
    lane: &Lane<'_>,
    first: u64,
    j: u64,
    stop: u64,
    room: &mut [u8; ROOM],
    steps: &mut Steps<L>,
) -> usize
    requires ordered { j ≤ stop }
    requires short { stop ≤ j + RUN }
    requires within { stop ≤ size_of lane.now }
    ensures text { drop result room.new ≡ run_text (flat lane.now) first j stop }
    ensures within { result ≤ ROOM }
    ensures cost { steps.new ≡ steps.old + (stop - j) }
{
    let mut start = ROOM;
    for k in (j..stop).rev() {
        start = set_leaf(lane.at(k, steps), room, start);
        if k != first {
            start -= 1;
            room[start] = b',';
        }
    }
    start
}
