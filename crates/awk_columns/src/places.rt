//! A lane of places from lists.
ghost use Rattle.std.specs.Prelude.{◌≡◌, ◌<◌, ◌≤◌, IfOk};
ghost use Rattle.awk_lanes.specs.Counted.{before, items_lane};
ghost use Rattle.awk_lanes.specs.declared.kind.Kind.TheVariants as Kind;

use awk_lanes::{Arena, IndexMaker, Items, Lane, NoMemory, Steps};
use std::sync::ledger::Ledger;

/// The numbers of all items of the first n lists, one after another, where they are of i64: several
/// times faster than `items_of`, which asks for the kind of each.
pub fn places_of<'a, S: Items, L: Ledger>(
    n: u64,
    total: u64,
    source: &S,
    arena: &'a Arena,
    steps: &mut Steps<L>,
) -> Result<Lane<'a>, NoMemory>
    requires kind { S.Items.kind source.now ≡ Kind.I64 }
    requires ready { S.Lengths.IsReady source.now }
    requires within { n ≤ S.Lengths.size source.now }
    requires total { total ≡ before (S.Lengths.length source.now) n }
    ensures { IfOk result (λ r.
        r ≡ items_lane Kind.I64 (S.Lengths.length source.now) (S.Items.at source.now) n) }
{
    let mut maker = IndexMaker::new(total, arena)?;
    for i in 0..n {
        for k in 0..source.length(i, steps) {
            maker.push(source.item(i, k, steps));
        }
    }
    Ok(maker.finish())
}
