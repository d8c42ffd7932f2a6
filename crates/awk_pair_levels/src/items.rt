//! Single rows below a level, each made alone.
ghost use Rattle.std.specs.Prelude.{◌≡◌, map, IfOk};
ghost use Rattle.awk_types.specs.View.{typ_of};
ghost use Rattle.awk_layout.specs.Typing.{array_type};
ghost use Rattle.awk_pair_sides.specs.Levels as spec;
ghost use Rattle.awk_pair_levels.specs.Shares.{share_types, share_column};
ghost use Rattle.awk_pair_levels.specs.Single.{IsInside, AllInside, IsItem, AreItems};

use crate::shares::Share;
use awk_lanes::{NoMemory, Steps, place_in};
use awk_layout::{Array, Arrays};
use awk_pair_sides::present_type;
use awk_range::range;
use awk_types::is_list;
use std::alloc::Global;
use std::sync::ledger::Ledger;

/// The column that a share's items lie in.
fn column_of<'b, 'a>(share: &'b Share<'a>) -> &'b Array<'a>
    ensures { result.now ≡ share_column share.now }
{
    match share {
        Share::Lists(lists) => lists.content(),
        Share::Items(column) => column,
    }
}

/// Whether there is a level of lists below.
pub fn opens_below(shares: &[Share]) -> bool
    ensures { result ≡ spec.opens (share_types shares.now) }
{
    for i in 0..shares.len() {
        if is_list(present_type(column_of(&shares[i]).typ())) {
            return true;
        }
    }
    false
}

/// Item k below row i, alone.
fn item_below<'a, L: Ledger>(
    alloc: Global,
    share: &Share<'a>,
    i: u64,
    k: u64,
    steps: &mut Steps<L>,
) -> Result<Array<'a>, NoMemory>
    requires inside { IsInside i k share.now }
    ensures { IfOk result (IsItem i k share.now) }
{
    match share {
        Share::Lists(lists) => {
            let content = lists.content();
            let _ = content.len();
            let place = place_in(lists.starts(), i, steps) + k;
            let item = range(alloc, content, place, place + 1, steps)?;
            Ok(item)
        }
        Share::Items(column) => {
            let _ = column.len();
            let item = range(alloc, column, i, i + 1, steps)?;
            Ok(item)
        }
    }
}

/// Row k below row i, alone.
pub fn row_below<'a, L: Ledger>(
    alloc: Global,
    shares: &[Share<'a>],
    i: u64,
    k: u64,
    steps: &mut Steps<L>,
) -> Result<Arrays<'a>, NoMemory>
    requires inside { AllInside i k shares.now }
    ensures { IfOk result (AreItems i k shares.now) }
{
    let mut row = Arrays::new(alloc);
    for j in 0..shares.len() {
        let item = item_below(alloc, &shares[j], i, k, steps)?;
        row.push(item)?;
    }
    Ok(row)
}
