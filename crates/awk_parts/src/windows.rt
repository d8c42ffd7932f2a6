//! Running sums over a window of numbers, of which the sum of a part is a difference.
ghost use Rattle.std.specs.Prelude.{◌≡◌, ◌+◌, ◌<◌, ◌≤◌, length, map, IfSome};
ghost use Rattle.awk_kernels.specs.Kernels.{total};
ghost use Rattle.awk_numbers.specs.Folds.{whole_numbers};
ghost use Rattle.awk_parts.specs.Spans.{span_count, span_part, AreSpanned};
ghost use Rattle.awk_parts.specs.Windows.{AreSums, AreRunning};

use crate::parts::{Parts, bounds_of};
use awk_cells::{Cell, number_at};
use awk_lanes::{Arena, NoMemory};

/// How many numbers a window has at most.
const MOST: u64 = 1024;

/// Sums of the numbers from a place on: sum k is that of the first k of them. There are `count`.
#[derive(Drop)]
pub(crate) struct RunningSums<'a> {
    first: u64,
    count: u64,
    sums: Vec<i64, &'a Arena>,
}

/// Writes the sum of the first k numbers at each place k, as far as each fits an i64, and tells how
/// many there are.
#[inline(always)]
fn write_sums<const W: usize, C: Cell<W>>(part: &[[u8; W]], out: &mut [i64]) -> u64
    requires { length part.now < length out.old }
    ensures length { length out.new ≡ length out.old }
    ensures most { result ≤ length part.now + 1 }
    ensures sums { AreSums (map C.number part.now) result out.new }
{
    out[0] = 0;
    let mut sum: i64 = 0;
    for i in 0..part.len() {
        let Some(next) = sum.checked_add(number_at::<W, C>(part, i)) else {
            return i as u64 + 1;
        };
        sum = next;
        out[i + 1] = next;
    }
    part.len() as u64 + 1
}

impl<'a> RunningSums<'a> {
    /// No sums yet, with room for those of a window of so many numbers.
    pub(crate) fn new(numbers: u64, arena: &'a Arena) -> Result<RunningSums<'a>, NoMemory> {
        let room = if numbers < MOST { numbers } else { MOST };
        Ok(RunningSums {
            first: 0,
            count: 0,
            sums: vec![in arena; 0i64; room as usize + 1]?,
        })
    }

    /// The sums of the numbers from place `first` on that lie below `stop`, or none where these are
    /// too many.
    #[inline(always)]
    pub(crate) fn fill<const W: usize, C: Cell<W>>(
        &mut self,
        groups: &[[u8; W]],
        first: u64,
        stop: u64,
    )
        ensures { AreRunning (map C.number groups.now) self.new }
    {
        let numbers = groups.len() as u64;
        let room = self.sums.len() as u64;
        self.first = first;
        self.count = 0;
        if first <= stop && stop <= numbers && stop - first < room {
            let part = &groups[first as usize..stop as usize];
            self.count = write_sums::<W, C>(part, self.sums.as_mut_slice());
        }
    }

    /// The sum of part i, where the window has where it begins and where it ends, and the sum fits
    /// an i64.
    #[inline(always)]
    pub(crate) fn sum_of(&self, parts: &Parts, i: u64) -> Option<i64>
        requires parts { AreSpanned (whole_numbers parts.now.numbers.now) parts.now.spans.now }
        requires within { i < span_count parts.now.spans.now }
        requires sums { AreRunning (whole_numbers parts.now.numbers.now) self.now }
        ensures { let zs = whole_numbers parts.now.numbers.now in
            IfSome result (λ z. z ≡ total (span_part zs parts.now.spans.now i)) }
    {
        let span = bounds_of(parts, i);
        if span.start < self.first || span.stop - self.first >= self.count {
            return None;
        }
        let sums = self.sums.as_slice();
        let before = sums[(span.start - self.first) as usize];
        sums[(span.stop - self.first) as usize].checked_sub(before)
    }
}
