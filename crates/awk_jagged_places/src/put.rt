//! Lanes whose numbers are put list by list, unless an item is refused.
ghost use Rattle.std.specs.Prelude.{◌≡◌, ◌<◌, ◌≤◌, length, IfOk};
ghost use Rattle.awk_lanes.specs.Counted.{before};
ghost use Rattle.awk_jagged_places.specs.Put.{IsPutOr};

use awk_lanes::{Arena, IndexMaker, Lane, NoMemory, Steps};
use std::sync::ledger::Ledger;

/// Lists of numbers, of which each is put at once, unless an item of it is refused.
pub trait NumberLists {
    ghost use Rattle.std.specs.Prelude.{◌≡◌, ◌<◌, ℕ, ℤ, Bool, false, List};
    ghost use Rattle.awk_lanes.specs.declared.kind.Kind.TheVariants as Kinds;
    ghost use Rattle.awk_select.specs.Kept.{Puts};
    ghost use Rattle.awk_jagged_places.specs.Put.{HasRoom};

    /// The numbers of a list.
    ghost numbers: { Self → ℕ → List ℤ };

    /// Some item of a list is refused, or none.
    ghost IsTested: { Self → ℕ → Bool → Type 0 };

    /// How many lists may be asked for.
    ghost size: { Self → ℕ };

    /// What the numbers rest on.
    ghost IsReady: { Self → Type 0 } = { λ _. Unit {0} };

    /// Puts the numbers of list i, or tells that an item of it is refused.
    fn put_list<L: Ledger>(&self, i: u64, maker: &mut IndexMaker, steps: &mut Steps<L>) -> bool
        requires ready { IsReady self.now }
        requires list { i < size self.now }
        requires kind { maker.old.kind ≡ Kinds.I64 }
        requires room { HasRoom (numbers self.now i) maker.old }
        ensures tested { IsTested self.now i result }
        ensures put { result ≡ false → Puts (numbers self.now i) maker.old maker.new };
}

/// The numbers of the first n lists, so many together, or none where an item of them is refused.
pub fn put_lane<'a, S: NumberLists, L: Ledger>(
    n: u64,
    total: u64,
    source: &S,
    arena: &'a Arena,
    steps: &mut Steps<L>,
) -> Result<Option<Lane<'a>>, NoMemory>
    requires ready { S.IsReady source.now }
    requires within { n ≤ S.size source.now }
    requires total { total ≡ before (λ i. length (S.numbers source.now i)) n }
    ensures { IfOk result (IsPutOr (S.IsTested source.now) (S.numbers source.now) n) }
{
    let mut maker = IndexMaker::new(total, arena)?;
    for i in 0..n {
        if source.put_list(i, &mut maker, steps) {
            return Ok(None);
        }
    }
    Ok(Some(maker.finish()))
}
