//! The least or the greatest number from a start below a stop, with a loop for each kind.
ghost use Rattle.std.specs.Prelude.{◌≡◌, ◌-◌, ◌<◌, ◌≤◌, length, map, IfSome};
ghost use Rattle.std.specs.List.{slice_range};
ghost use Rattle.awk_cells.specs.Extremes.{number_or_zero};
ghost use Rattle.awk_lanes.specs.Numbers.{number};
ghost use Rattle.awk_lanes.specs.declared.kind.Kind.TheVariants as Kind;
ghost use Rattle.awk_numbers.specs.Folds.{first_extreme, whole_numbers};

use crate::parts::Span;
use awk_cells::{Cell, best_of, extreme_place, short_place, truth_groups};
use awk_numbers::{Extreme, Whole, extreme_of};

/// The extreme of the numbers from a start below a stop, and 0 of none.
pub(crate) fn wide_extreme(how: Extreme, groups: &[[u8; 8]], span: Span) -> i64
    requires order { span.start ≤ span.stop }
    requires within { span.stop ≤ length groups.now }
    ensures { let zs = slice_range (map (number Kind.I64) groups.now) span.start span.stop in
        result ≡ number_or_zero zs (first_extreme how zs) }
{
    let part = &groups[span.start as usize..span.stop as usize];
    if part.is_empty() {
        return 0;
    }
    best_of::<8, i64>(how, part).number
}

/// The first place of the extreme of the numbers of cells from a start below a stop, counted from
/// the start.
fn cell_place<const W: usize, C: Cell<W>>(
    how: Extreme,
    groups: &[[u8; W]],
    span: Span,
) -> Option<u64>
    requires order { span.start ≤ span.stop }
    requires within { span.stop ≤ length groups.now }
    ensures place { result ≡ first_extreme how
        (slice_range (map C.number groups.now) span.start span.stop) }
    ensures inside { IfSome result (λ k. k < span.stop - span.start) }
{
    extreme_place::<W, C>(how, &groups[span.start as usize..span.stop as usize])
}

/// The same of numbers that fit an i32.
fn short_cell_place<const W: usize, C: Cell<W>>(
    how: Extreme,
    groups: &[[u8; W]],
    span: Span,
) -> Option<u64>
    requires short { C.reach ≤ 2147483647 }
    requires order { span.start ≤ span.stop }
    requires within { span.stop ≤ length groups.now }
    requires few { span.stop - span.start ≤ 1073741824 }
    ensures place { result ≡ first_extreme how
        (slice_range (map C.number groups.now) span.start span.stop) }
    ensures inside { IfSome result (λ k. k < span.stop - span.start) }
{
    short_place::<W, C>(how, &groups[span.start as usize..span.stop as usize])
}

/// The first place of the extreme of the numbers from a start below a stop, counted from the start.
/// There is a loop for each kind, so that none asks for it.
pub(crate) fn first_place(how: Extreme, numbers: &Whole, span: Span) -> Option<u64>
    requires order { span.start ≤ span.stop }
    requires within { span.stop ≤ length (whole_numbers numbers.now) }
    requires few { span.stop - span.start ≤ 1073741824 }
    ensures place { result ≡ first_extreme how
        (slice_range (whole_numbers numbers.now) span.start span.stop) }
    ensures inside { IfSome result (λ k. k < span.stop - span.start) }
{
    match *numbers {
        Whole::Truths(bytes) => short_cell_place::<1, bool>(how, truth_groups(bytes), span),
        Whole::I8(groups) => short_cell_place::<1, i8>(how, groups, span),
        Whole::I16(groups) => short_cell_place::<2, i16>(how, groups, span),
        Whole::I32(groups) => cell_place::<4, i32>(how, groups, span),
        Whole::I64(groups) => cell_place::<8, i64>(how, groups, span),
        Whole::U8(groups) => short_cell_place::<1, u8>(how, groups, span),
        Whole::U16(groups) => short_cell_place::<2, u16>(how, groups, span),
        Whole::U32(groups) => cell_place::<4, u32>(how, groups, span),
        Whole::U64(_) => extreme_of(how, numbers, span.start, span.stop),
    }
}

/// The numbers as groups of eight bytes, if they are of i64.
#[inline(always)]
pub(crate) fn groups_in<'a>(numbers: &Whole<'a>) -> Option<&'a [[u8; 8]]>
    ensures { IfSome result
        (λ gs. whole_numbers numbers.now ≡ map (number Kind.I64) gs.now) }
{
    match *numbers {
        Whole::I64(groups) => Some(groups),
        _ => None,
    }
}
