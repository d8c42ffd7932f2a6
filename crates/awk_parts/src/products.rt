//! Products of numbers from a start below a stop, made in numbers of 64 bits where these hold them.
ghost use Rattle.std.specs.Prelude.{◌≡◌, ◌≤◌, length, map, IfSome};
ghost use Rattle.std.specs.List.{slice_range};
ghost use Rattle.awk_numbers.specs.Folds.{folded, product, whole_numbers};

use crate::parts::Span;
use awk_cells::{Cell, product_in, truth_groups};
use awk_numbers::{Fold, Whole};

/// The product of the numbers of cells from a start below a stop, if it is found in numbers of 64
/// bits.
fn cell_product<const W: usize, C: Cell<W>>(groups: &[[u8; W]], span: Span) -> Option<i64>
    requires order { span.start ≤ span.stop }
    requires within { span.stop ≤ length groups.now }
    ensures { IfSome result (λ z. z
        ≡ product (slice_range (map C.number groups.now) span.start span.stop)) }
{
    product_in::<W, C>(&groups[span.start as usize..span.stop as usize])
}

/// The product of the numbers from a start below a stop, if it is found in numbers of 64 bits.
/// There is a loop for each kind.
fn product_early(numbers: &Whole, span: Span) -> Option<i64>
    requires order { span.start ≤ span.stop }
    requires within { span.stop ≤ length (whole_numbers numbers.now) }
    ensures { IfSome result (λ z. z
        ≡ product (slice_range (whole_numbers numbers.now) span.start span.stop)) }
{
    match *numbers {
        Whole::Truths(bytes) => cell_product::<1, bool>(truth_groups(bytes), span),
        Whole::I8(groups) => cell_product::<1, i8>(groups, span),
        Whole::I16(groups) => cell_product::<2, i16>(groups, span),
        Whole::I32(groups) => cell_product::<4, i32>(groups, span),
        Whole::I64(groups) => cell_product::<8, i64>(groups, span),
        Whole::U8(groups) => cell_product::<1, u8>(groups, span),
        Whole::U16(groups) => cell_product::<2, u16>(groups, span),
        Whole::U32(groups) => cell_product::<4, u32>(groups, span),
        Whole::U64(_) => None,
    }
}

/// The product of the numbers from a start below a stop, where that is asked for and it is found in
/// numbers of 64 bits.
pub(crate) fn folded_early(how: Fold, numbers: &Whole, span: Span) -> Option<i64>
    requires order { span.start ≤ span.stop }
    requires within { span.stop ≤ length (whole_numbers numbers.now) }
    ensures { IfSome result (λ z. z
        ≡ folded how (slice_range (whole_numbers numbers.now) span.start span.stop)) }
{
    match how {
        Fold::Sum => None,
        Fold::Product => product_early(numbers, span),
    }
}
