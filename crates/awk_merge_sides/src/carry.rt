//! How the parts of a value are carried where it is.
ghost use Rattle.std.specs.Prelude.{◌≡◌, IfOk};
ghost use Rattle.awk_unify.specs.Carries.{carry_at};
ghost use Rattle.awk_unify.specs.View.{lift_of, lifts_of};
ghost use Rattle.awk_merge_sides.specs.Lifts.{items_carry, part_carry};
ghost use Rattle.awk_merge_sides.specs.Lifts.{alternative_tag, alternative_carry};

use awk_types::NoMemory;
use awk_unify::{Lift, Lifts, copy_lift};
use std::alloc::Global;

/// The lift at a place; beyond the last one the value stays.
#[tactic(auto, using(awk_unify::proofs::Afters::afters_laws))]
fn lift_at(alloc: Global, lifts: &Lifts, k: u64) -> Result<Lift, NoMemory>
    ensures { IfOk result (λ f. lift_of f ≡ carry_at (lifts_of lifts.now) k) }
{
    if k < lifts.len() as u64 {
        copy_lift(alloc, lifts.get(k as usize))
    } else {
        Ok(Lift::Same)
    }
}

/// How the items of a list are carried.
pub fn items_lift(alloc: Global, f: &Lift) -> Result<Lift, NoMemory>
    ensures { IfOk result (λ g. lift_of g ≡ items_carry (lift_of f.now)) }
{
    match f {
        Lift::Items(item) => copy_lift(alloc, item),
        _ => Ok(Lift::Same),
    }
}

/// How a part of a row is carried.
pub fn part_lift(alloc: Global, f: &Lift, k: u64) -> Result<Lift, NoMemory>
    ensures { IfOk result (λ g. lift_of g ≡ part_carry (lift_of f.now) k) }
{
    match f {
        Lift::Parts { parts, .. } => lift_at(alloc, parts, k),
        _ => Ok(Lift::Same),
    }
}

/// The tag that an alternative gets.
pub fn alternative_tag(f: &Lift, k: u64) -> u64
    ensures { result ≡ alternative_tag (lift_of f.now) k }
{
    match f {
        Lift::Alternatives { tags, .. } => tags.at(k),
        _ => k,
    }
}

/// How the values of an alternative are carried.
pub fn alternative_lift(alloc: Global, f: &Lift, k: u64) -> Result<Lift, NoMemory>
    ensures { IfOk result (λ g. lift_of g ≡ alternative_carry (lift_of f.now) k) }
{
    match f {
        Lift::Alternatives { parts, .. } => lift_at(alloc, parts, k),
        _ => Ok(Lift::Same),
    }
}
