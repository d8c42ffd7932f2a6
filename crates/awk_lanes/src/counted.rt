//! Lists one after another: their offsets, and a lane with a number for each item.
ghost use Rattle.std.specs.Prelude.{◌≡◌, ◌<◌, ◌≤◌, ◌^◌, IfOk};
ghost use Rattle.awk_lanes.specs.Numbers.{int_of, IsOf};
ghost use Rattle.awk_lanes.specs.Counted.{before, items_lane, AreOffsetsBy, AreOffsetsOf};

use crate::index_maker::IndexMaker;
use crate::kind::{Kind, Num};
use crate::lane::Lane;
use crate::maker::LaneMaker;
use crate::memory::{Arena, NoMemory};
use crate::readers::number;
use crate::steps::Steps;
use std::sync::ledger::Ledger;

/// Lists by their places, each with a length.
pub trait Lengths {
    ghost use Rattle.std.specs.Prelude.{ℕ};

    /// How many items a list has.
    ghost length: { Self → ℕ → ℕ };

    /// How many lists may be asked for.
    ghost size: { Self → ℕ };

    /// What the lengths rest on.
    ghost IsReady: { Self → Type 0 } = { λ _. Unit {0} };

    /// How many items list i has.
    fn length<L: Ledger>(&self, i: u64, steps: &mut Steps<L>) -> u64
        requires ready { IsReady self.now }
        requires within { i < size self.now }
        ensures length { result ≡ length self.now i };
}

/// Lists with a number for each item.
pub trait Items: Lengths {
    ghost use Rattle.std.specs.Prelude.{ℕ, ℤ};
    ghost use Rattle.awk_lanes.specs.declared.kind.Kind.{Kind};

    /// The kind of the numbers.
    ghost kind: { Self → Kind };

    /// The number of an item of a list.
    ghost at: { Self → ℕ → ℕ → ℤ };

    /// The number of item k of list i.
    fn item<L: Ledger>(&self, i: u64, k: u64, steps: &mut Steps<L>) -> Num
        requires ready { Self.IsReady self.now }
        requires within { i < Self.size self.now }
        requires item { k < Self.length self.now i }
        ensures number { int_of result ≡ at self.now i k }
        ensures kind { IsOf (kind self.now) result };
}

/// Offsets of lists one after another, and how many items there are.
#[derive(Drop)]
pub struct Offsets<'a> {
    pub lane: Lane<'a>,
    pub total: u64,
}

/// The offsets of the first n lists, or none where they have more items than the limit.
/// The memory is taken before the limit is judged.
pub fn offsets_within<'a, S: Lengths, L: Ledger>(
    limit: u64,
    n: u64,
    source: &S,
    arena: &'a Arena,
    steps: &mut Steps<L>,
) -> Result<Option<Offsets<'a>>, NoMemory>
    requires ready { S.IsReady source.now }
    requires within { n ≤ S.size source.now }
    requires fits { n < 2 ^ 63 }
    requires small { limit < 2 ^ 63 }
    ensures { IfOk result (AreOffsetsBy limit (S.length source.now) n) }
{
    let mut maker = IndexMaker::new(n + 1, arena)?;
    maker.push(number(0));
    let mut total = 0;
    for i in 0..n {
        let length = source.length(i, steps);
        if length > limit - total {
            return Ok(None);
        }
        total += length;
        maker.push(number(total));
    }
    Ok(Some(Offsets {
        lane: maker.finish(),
        total,
    }))
}

/// The offsets of the first n lists, where an i64 holds how many items they have.
pub fn offsets_of<'a, S: Lengths, L: Ledger>(
    n: u64,
    source: &S,
    arena: &'a Arena,
    steps: &mut Steps<L>,
) -> Result<Offsets<'a>, NoMemory>
    requires ready { S.IsReady source.now }
    requires within { n ≤ S.size source.now }
    requires fits { n < 2 ^ 63 }
    requires small { before (S.length source.now) n < 2 ^ 63 }
    ensures { IfOk result (AreOffsetsOf (S.length source.now) n) }
{
    match offsets_within(i64::MAX as u64, n, source, arena, steps)? {
        Some(offsets) => Ok(offsets),
        None => unreachable!(),
    }
}

/// The numbers of all items of the first n lists, one after another.
pub fn items_of<'a, S: Items, L: Ledger>(
    kind: Kind,
    n: u64,
    total: u64,
    source: &S,
    arena: &'a Arena,
    steps: &mut Steps<L>,
) -> Result<Lane<'a>, NoMemory>
    requires kind { S.Items.kind source.now ≡ kind }
    requires ready { S.Lengths.IsReady source.now }
    requires within { n ≤ S.Lengths.size source.now }
    requires total { total ≡ before (S.Lengths.length source.now) n }
    ensures { IfOk result (λ r.
        r ≡ items_lane kind (S.Lengths.length source.now) (S.Items.at source.now) n) }
{
    let mut maker = LaneMaker::new(kind, total, arena)?;
    for i in 0..n {
        for k in 0..source.length(i, steps) {
            maker.push(source.item(i, k, steps));
        }
    }
    Ok(maker.finish())
}
