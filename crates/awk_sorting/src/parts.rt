//! Parts of a slice of numbers brought in order where they lie.
ghost use Rattle.std.specs.Prelude.{◌≡◌, ◌≤◌, length, map};
ghost use Rattle.std.specs.List.Sorted.{IsPermutation};
ghost use Rattle.awk_sorting.specs.Order.{sort_numbers};
ghost use Rattle.awk_sorting.specs.Parts.{SortsPart, SortsParts};
ghost use Rattle.awk_parts.specs.Parts.{AreRising};

use crate::number::Number;
use awk_index::Index;
use awk_parts::offset_at;

/// Numbers brought in order, rising or falling.
fn sort_slice<N: Number>(numbers: &mut [N], up: bool)
    ensures same { IsPermutation numbers.old numbers.new }
    ensures order { map N.number numbers.new ≡ sort_numbers up (map N.number numbers.old) }
{
    N::sort(numbers);
    if !up {
        numbers.reverse();
    }
}

/// Those from a start below a stop brought in order.
fn sort_part<N: Number>(numbers: &mut [N], start: usize, stop: usize, up: bool)
    requires order { start ≤ stop }
    requires within { stop ≤ length numbers.old }
    ensures { SortsPart N.number up start stop numbers.old numbers.new }
{
    sort_slice(&mut numbers[start..stop], up);
}

/// Each of n parts of a slice brought in order, by their offsets.
pub(crate) fn sort_slice_parts<N: Number>(numbers: &mut [N], offsets: &Index, n: u64, up: bool)
    requires rising { AreRising offsets.now n (length numbers.old) }
    ensures { SortsParts N.number up offsets.now n numbers.old numbers.new }
{
    for i in 0..n {
        let start = offset_at(offsets, i) as usize;
        let stop = offset_at(offsets, i + 1) as usize;
        sort_part(numbers, start, stop, up);
    }
}

/// The same of all numbers that are at hand.
pub(crate) fn sort_parts<N: Number>(numbers: &mut Vec<N>, offsets: &Index, n: u64, up: bool)
    requires rising { AreRising offsets.now n (length numbers.old.items) }
    ensures { SortsParts N.number up offsets.now n numbers.old.items numbers.new.items }
{
    sort_slice_parts(numbers, offsets, n, up);
}
