//! Types put into the alternatives of a union.
ghost use Rattle.std.specs.Prelude.{◌≡◌, ◌++◌, IfOk, OnOk};
ghost use Rattle.awk_types.specs.View.{typs_of};
ghost use Rattle.awk_unify.specs.Carries.{kept_each};
ghost use Rattle.awk_unify.specs.Merge as spec;
ghost use Rattle.awk_unify.specs.View.{lifts_of, placed_of, placed_all_of};

use crate::after::{each_after, each_then};
use crate::lift::{Lift, Lifts};
use crate::places::Places;
use awk_types::{NoMemory, Typs};
use std::alloc::Global;

/// Alternatives into which a type was put: how those that were there are kept, and where and how
/// its values go.
#[derive(Debug, Drop)]
pub(crate) struct Placed {
    pub(crate) typs: Typs,
    pub(crate) kept: Lifts,
    pub(crate) tag: u64,
    pub(crate) put: Lift,
}

/// Alternatives into which several types were put, one after another.
#[derive(Debug, Drop)]
pub(crate) struct PlacedAll {
    pub(crate) typs: Typs,
    pub(crate) kept: Lifts,
    pub(crate) tags: Places,
    pub(crate) puts: Lifts,
}

/// Puts so many lifts that keep the value at the end.
#[tactic(auto, using(crate::proofs::Afters::kept_laws))]
pub(crate) fn push_same(made: &mut Lifts, n: usize) -> Result<(), NoMemory>
    ensures { OnOk result (lifts_of made.new ≡ lifts_of made.old ++ kept_each n) }
{
    for i in 0..n {
        made.push(Lift::Same)?;
    }
    Ok(())
}

/// As many lifts that keep the value as are asked for.
pub(crate) fn all_same(alloc: Global, n: usize) -> Result<Lifts, NoMemory>
    ensures { IfOk result (λ fs. lifts_of fs ≡ kept_each n) }
{
    let mut made = Lifts::new(alloc);
    push_same(&mut made, n)?;
    Ok(made)
}

impl PlacedAll {
    /// Alternatives into which nothing is put yet.
    #[tactic(auto, using(crate::proofs::Afters::kept_laws))]
    pub(crate) fn start(alloc: Global, typs: Typs) -> Result<PlacedAll, NoMemory>
        ensures { IfOk result (λ p. placed_all_of p ≡ spec.start (typs_of typs)) }
    {
        let kept = all_same(alloc, typs.len())?;
        Ok(PlacedAll {
            typs,
            kept,
            tags: Places::new(alloc),
            puts: Lifts::new(alloc),
        })
    }

    /// One more is put in.
    pub(crate) fn further(self, alloc: Global, placed: Placed) -> Result<PlacedAll, NoMemory>
        ensures { let both = spec.further (placed_all_of self) (placed_of placed) in
            IfOk result (λ p. placed_all_of p ≡ both) }
    {
        let PlacedAll {
            kept,
            tags,
            puts,
            ..
        } = self;
        let kept_now = each_then(alloc, &kept, &placed.kept)?;
        let mut puts_now = each_after(alloc, &placed.kept, &tags, &puts)?;
        let mut tags_now = tags;
        tags_now.push(placed.tag)?;
        puts_now.push(placed.put)?;
        Ok(PlacedAll {
            typs: placed.typs,
            kept: kept_now,
            tags: tags_now,
            puts: puts_now,
        })
    }
}
