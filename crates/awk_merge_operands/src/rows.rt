//! Columns that are taken row by row.
ghost use Rattle.std.specs.Prelude.{◌≡◌, map};
ghost use Rattle.awk_types.specs.Faults.{fault_told};
ghost use Rattle.awk_types.specs.Gives.{Gives, refused_or};
ghost use Rattle.awk_merge_operands.specs.Concatenate as spec;
ghost use Rattle.awk_merge_operands.specs.Operands.{column_in, rows_refused};

use awk_layout::Datums;
use awk_types::{Fault, ITEM_LIMIT};

/// Whether all columns have n items.
fn are_long(xs: &Datums, n: u64) -> bool
    ensures { result ≡ spec.are_long n (map column_in xs.now) }
{
    for i in 0..xs.len() {
        if xs.get(i).kept().len() != n {
            return false;
        }
    }
    true
}

/// Judges the lengths of columns that are taken row by row.
pub fn judge_rows(xs: &Datums, n: u64) -> Result<(), Fault>
    ensures { let said = rows_refused n (map column_in xs.now) in
        Gives (λ _. tt {0}) fault_told result (refused_or said (tt {0})) }
{
    if !are_long(xs, n) {
        return Err(Fault::Lengths);
    }
    if n > ITEM_LIMIT {
        return Err(Fault::Size);
    }
    Ok(())
}
