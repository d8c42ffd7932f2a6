//! The first level of a pairing, of arrays and single values.
ghost use Rattle.std.specs.Prelude.{◌≡◌, ◌==◌, ◌<◌, ◌^◌, length, pos, true, IfOk, IfSome};
ghost use Rattle.std.specs.List.{list_all, AllByRecursion};
ghost use Rattle.awk_lanes.specs.Made.{lane_of};
ghost use Rattle.awk_lanes.specs.declared.kind.Kind.TheVariants as Kind;
ghost use Rattle.awk_layout.specs.Datum.{IsOperand};
ghost use Rattle.awk_layout.specs.Single.{own_datum};
ghost use Rattle.awk_pair_operands.specs.First.{all_data, some_length, operand_lengths};
ghost use Rattle.awk_pair_operands.specs.First.{array_lengths};
ghost use Rattle.awk_pair_operands.specs.First.{first_of as first_in, IsFirst, IsColumn};
ghost use Rattle.awk_pair_operands.specs.First.{AreColumns};
ghost use Rattle.awk_pair_operands.specs.First.{IsRowColumn, AreRowColumns};
ghost use Rattle.awk_pair_operands.specs.Typed.{IsTyped};

use crate::types::is_array;
use awk_gather::gather;
use awk_lanes::{Arena, Kind, Lane, NoMemory, Num, Numbers, Steps, made_lane, number};
use awk_layout::{Array, Arrays, Datum, Operand, Operands};
use std::alloc::Global;
use std::sync::ledger::Ledger;

/// The rows that are paired first.
#[derive(Drop)]
pub enum First<'a> {
    /// Some arrays differ in length.
    Unequal,
    /// The items of the arrays, with each single value in every row, or one row of single values.
    Rows {
        single: bool,
        count: u64,
        arrays: Arrays<'a>,
    },
}

/// The array of an operand, where a single value is an array of one item.
fn column_of<'a, L: Ledger>(
    alloc: Global,
    x: &Operand<'a>,
    arena: &'a Arena,
    steps: &mut Steps<L>,
) -> Result<Array<'a>, NoMemory>
    requires { IsOperand x.now }
    ensures column { IfOk result (IsColumn (own_datum x.now)) }
    ensures typed { IfOk result (λ _. IsTyped (own_datum x.now)) }
{
    match x {
        Operand::Of(datum) => {
            let kept = datum.kept();
            let _ = kept.len(); // its items are of its type
            kept.copy(alloc)
        }
        Operand::Literal(z) => Array::of_literal(*z, arena, steps),
    }
}

/// The arrays of operands.
pub fn columns_of<'a, L: Ledger>(
    alloc: Global,
    xs: &Operands<'a>,
    arena: &'a Arena,
    steps: &mut Steps<L>,
) -> Result<Arrays<'a>, NoMemory>
    ensures columns { IfOk result (AreColumns (all_data xs.now)) }
    ensures typed { IfOk result (λ _. AllByRecursion IsTyped (all_data xs.now)) }
{
    let mut columns = Arrays::new(alloc);
    for i in 0..xs.len() {
        let column = column_of(alloc, xs.get(i), arena, steps)?;
        columns.push(column)?;
    }
    Ok(columns)
}

/// How long an operand is, if it is an array.
fn length_of(x: &Operand) -> Option<u64>
    ensures length { some_length result ≡ operand_lengths x.now }
    ensures fits { IfSome result (λ n. n < 2 ^ 63) }
{
    match x {
        Operand::Of(datum) => match datum {
            Datum::Arr(x) => Some(x.len()),
            Datum::One(_) => None,
        },
        Operand::Literal(_) => None,
    }
}

/// How long the first array is.
fn first_length(xs: &Operands) -> Option<u64>
    ensures length { result ≡ first_in (array_lengths xs.now) }
    ensures fits { IfSome result (λ n. n < 2 ^ 63) }
{
    for i in 0..xs.len() {
        match length_of(xs.get(i)) {
            Some(n) => return Some(n),
            None => {}
        }
    }
    None
}

/// Whether an operand, if it is an array, has n items.
fn is_long(x: &Operand, n: u64) -> bool
    ensures { result ≡ list_all (λ m. n == m) (operand_lengths x.now) }
{
    match length_of(x) {
        Some(m) => n == m,
        None => true,
    }
}

/// Whether all arrays have n items.
fn are_long(xs: &Operands, n: u64) -> bool
    ensures { result ≡ list_all (λ m. n == m) (array_lengths xs.now) }
{
    for i in 0..xs.len() {
        if !is_long(xs.get(i), n) {
            return false;
        }
    }
    true
}

/// The first place, again and again.
#[derive(Drop)]
struct Zeros;

impl Numbers for Zeros {
    ghost use Rattle.std.specs.Prelude.{◌^◌, pos};
    ghost use Rattle.awk_lanes.specs.declared.kind.Kind.TheVariants as Kind;

    ghost kind = { λ _. Kind.I64 };

    ghost at = { λ _ _. pos 0 };

    ghost size = { λ _. 2 ^ 63 };

    fn number<L: Ledger>(&self, _i: u64, _steps: &mut Steps<L>) -> Num {
        number(0)
    }
}

/// An operand in each of n rows: an array's items, or a single value in every row.
fn row_column<'a, L: Ledger>(
    alloc: Global,
    n: u64,
    x: &Operand,
    column: &Array<'a>,
    arena: &'a Arena,
    steps: &mut Steps<L>,
) -> Result<Array<'a>, NoMemory>
    requires column { IsColumn (own_datum x.now) column.now }
    requires long { list_all (λ m. n == m) (operand_lengths x.now) ≡ true }
    requires fits { n < 2 ^ 63 }
    ensures { IfOk result (IsRowColumn n (own_datum x.now)) }
{
    let _ = column.len();
    if is_array(x) {
        let same = column.copy(alloc)?;
        return Ok(same);
    }
    let zeros = made_lane(Kind::I64, n, &Zeros, arena, steps)?;
    let repeated = gather(alloc, column, &zeros, arena, steps)?;
    Ok(repeated)
}

/// All operands in each of n rows.
fn row_columns<'a, L: Ledger>(
    alloc: Global,
    n: u64,
    xs: &Operands,
    columns: &Arrays<'a>,
    arena: &'a Arena,
    steps: &mut Steps<L>,
) -> Result<Arrays<'a>, NoMemory>
    requires columns { AreColumns (all_data xs.now) columns.now }
    requires long { list_all (λ m. n == m) (array_lengths xs.now) ≡ true }
    requires fits { n < 2 ^ 63 }
    ensures { IfOk result (AreRowColumns n (all_data xs.now)) }
{
    let mut arrays = Arrays::new(alloc);
    for i in 0..xs.len() {
        let array = row_column(alloc, n, xs.get(i), columns.get(i), arena, steps)?;
        arrays.push(array)?;
    }
    Ok(arrays)
}

/// The rows that are paired first.
pub fn first_rows<'a, L: Ledger>(
    alloc: Global,
    xs: &Operands<'a>,
    columns: &Arrays<'a>,
    arena: &'a Arena,
    steps: &mut Steps<L>,
) -> Result<First<'a>, NoMemory>
    requires { AreColumns (all_data xs.now) columns.now }
    ensures { IfOk result (IsFirst (all_data xs.now)) }
{
    let length = first_length(xs);
    let single = length.is_none();
    let count = length.unwrap_or(1);
    if !are_long(xs, count) {
        return Ok(First::Unequal);
    }
    let arrays = row_columns(alloc, count, xs, columns, arena, steps)?;
    Ok(First::Rows {
        single,
        count,
        arrays,
    })
}
