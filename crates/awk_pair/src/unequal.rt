//! Whether lists differ in length, where some level has too many items for a column.
ghost use Rattle.std.specs.Prelude.{◌≡◌, ◌-◌, ◌<◌, ◌≤◌, map, true, false, IfOk};
ghost use Rattle.std.specs.List.{list_any, flat_map, range_with_len};
ghost use Rattle.awk_types.specs.ItemLimit.{item_limit};
ghost use Rattle.awk_layout.specs.Typing.{array_type};
ghost use Rattle.awk_open.specs.Opened.{AreLong};
ghost use Rattle.awk_pair_operands.specs.Paired.{any_uneven};
ghost use Rattle.awk_pair.specs.Unequal.{AreAlone, IsRow};
ghost use Rattle.awk_pair_sides.specs.Levels.{goes_on, some_option};
ghost use Rattle.awk_pair_sides.specs.Rows.{rows_at};
ghost use Rattle.awk_pair_levels.specs.Shares.{length_at, share_types, share_rows, is_lists};
ghost use Rattle.awk_pair_levels.specs.Shares.{AreAsLong, AreEven};

use awk_lanes::{Arena, NoMemory, Steps};
use awk_layout::Arrays;
use awk_pair_levels::{Below, Share, lead_of, opens_below, row_below, rows_below, shares_of};
use awk_pair_present::present_rows;
use awk_pair_sides::{goes_on, some_option};
use awk_range::range;
use std::alloc::Global;
use std::sync::ledger::Ledger;

/// Whether lists that are paired differ in length at some level.
#[cycle(unequal)]
pub(crate) fn any_unequal<'a, L: Ledger>(
    alloc: Global,
    keep: bool,
    d: u64,
    n: u64,
    xs: &Arrays<'a>,
    arena: &'a Arena,
    steps: &mut Steps<L>,
) -> Result<bool, NoMemory>
    requires long { AreLong n xs.now }
    requires few { n ≤ item_limit }
    ensures { let ts = map array_type xs.now in
        IfOk result (λ b. b ≡ any_uneven keep d ts (rows_at xs.now n)) }
{
    if !goes_on(d, xs) {
        return Ok(false);
    }
    if some_option(xs) {
        let rows = present_rows(alloc, n, xs, arena, steps)?;
        let among = unequal_lists(alloc, keep, d, rows.count, &rows.arrays, arena, steps)?;
        return Ok(among);
    }
    let unequal = unequal_lists(alloc, keep, d, n, xs, arena, steps)?;
    Ok(unequal)
}

/// The same of rows of lists without nulls.
#[cycle(unequal)]
fn unequal_lists<'a, L: Ledger>(
    alloc: Global,
    keep: bool,
    d: u64,
    n: u64,
    xs: &Arrays<'a>,
    arena: &'a Arena,
    steps: &mut Steps<L>,
) -> Result<bool, NoMemory>
    requires long { AreLong n xs.now }
    requires few { n ≤ item_limit }
    requires bare { some_option (map array_type xs.now) ≡ false }
    requires lists { goes_on d (map array_type xs.now) ≡ true }
    ensures { let ts = map array_type xs.now in
        IfOk result (λ b. b ≡ any_uneven keep d ts (rows_at xs.now n)) }
{
    match rows_below(alloc, keep, n, xs, arena, steps)? {
        Below::Unequal => Ok(true),
        Below::Rows { count, arrays, .. } => {
            let below = any_unequal(alloc, keep, d - 1, count, &arrays, arena, steps)?;
            Ok(below)
        }
        Below::TooMany => {
            let shares = shares_of(alloc, keep, n, xs, arena, steps)?;
            let unequal = unequal_shares(alloc, keep, d, n, &shares, arena, steps)?;
            Ok(unequal)
        }
    }
}

/// Whether there is a level below the rows below.
fn goes_below(d: u64, shares: &[Share]) -> bool
    requires { 0 < d }
    ensures { result ≡ goes_on (d - 1) (share_types shares.now) }
{
    d > 1 && opens_below(shares)
}

/// The same of the rows below, each made alone.
#[cycle(unequal)]
fn unequal_shares<'a, L: Ledger>(
    alloc: Global,
    keep: bool,
    d: u64,
    n: u64,
    shares: &[Share<'a>],
    arena: &'a Arena,
    steps: &mut Steps<L>,
) -> Result<bool, NoMemory>
    requires long { AreAsLong n shares.now }
    requires even { AreEven (length_at shares.now) n shares.now }
    requires lists { list_any is_lists shares.now ≡ true }
    requires levels { 0 < d }
    ensures { let rows = flat_map (share_rows shares.now) (range_with_len 0 n) in
        IfOk result (λ b. b ≡ any_uneven keep (d - 1) (share_types shares.now) rows) }
{
    if !goes_below(d, shares) {
        return Ok(false);
    }
    for i in 0..n {
        let unequal = unequal_row(alloc, keep, d, i, shares, arena, steps)?;
        if unequal {
            return Ok(true);
        }
    }
    Ok(false)
}

/// The same of those below row i.
#[cycle(unequal)]
fn unequal_row<'a, L: Ledger>(
    alloc: Global,
    keep: bool,
    d: u64,
    i: u64,
    shares: &[Share<'a>],
    arena: &'a Arena,
    steps: &mut Steps<L>,
) -> Result<bool, NoMemory>
    requires row { IsRow i shares.now }
    requires lists { list_any is_lists shares.now ≡ true }
    requires levels { 0 < d }
    ensures { let rows = share_rows shares.now i in
        IfOk result (λ b. b ≡ any_uneven keep (d - 1) (share_types shares.now) rows) }
{
    let lead = lead_of(shares);
    let length = lead.length_at(i, steps);
    for k in 0..length {
        let row = row_below(alloc, shares, i, k, steps)?;
        let unequal = any_unequal(alloc, keep, d - 1, 1, &row, arena, steps)?;
        if unequal {
            return Ok(true);
        }
    }
    Ok(false)
}

/// Row i alone.
fn row_alone<'a, L: Ledger>(
    alloc: Global,
    n: u64,
    xs: &Arrays<'a>,
    i: u64,
    steps: &mut Steps<L>,
) -> Result<Arrays<'a>, NoMemory>
    requires long { AreLong n xs.now }
    requires within { i < n }
    ensures { IfOk result (AreAlone i xs.now) }
{
    let mut row = Arrays::new(alloc);
    for j in 0..xs.len() {
        let x = xs.get(j);
        let _ = x.len();
        let item = range(alloc, x, i, i + 1, steps)?;
        row.push(item)?;
    }
    Ok(row)
}

/// Whether lists that are paired differ in length at some level, row by row: for more rows than a
/// column has.
pub(crate) fn any_unequal_row<'a, L: Ledger>(
    alloc: Global,
    keep: bool,
    d: u64,
    n: u64,
    xs: &Arrays<'a>,
    arena: &'a Arena,
    steps: &mut Steps<L>,
) -> Result<bool, NoMemory>
    requires long { AreLong n xs.now }
    ensures { let ts = map array_type xs.now in
        IfOk result (λ b. b ≡ any_uneven keep d ts (rows_at xs.now n)) }
{
    if !goes_on(d, xs) {
        return Ok(false);
    }
    for i in 0..n {
        let row = row_alone(alloc, n, xs, i, steps)?;
        let unequal = any_unequal(alloc, keep, d, 1, &row, arena, steps)?;
        if unequal {
            return Ok(true);
        }
    }
    Ok(false)
}
