//! One lift after another.
ghost use Rattle.std.specs.Prelude.{◌≡◌, ◌<◌, [], ◌∷◌, length, IfOk};
ghost use Rattle.awk_unify.specs.After.{after as then};
ghost use Rattle.awk_unify.specs.Carry.{carry, no_carries, tag_at, to_alternatives};
ghost use Rattle.awk_unify.specs.Carries.{carry_at, each_then as then_each, put_after};
ghost use Rattle.awk_unify.specs.View.{lift_of, lifts_of};

use crate::lift::{Lift, Lifts, copy_lift};
use crate::places::Places;
use awk_types::NoMemory;
use std::alloc::Global;

/// What f does, and then g.
#[cycle(after)]
#[tactic(auto, using(crate::proofs::Afters::afters_laws))]
pub fn after(alloc: Global, g: &Lift, f: &Lift) -> Result<Lift, NoMemory>
    ensures { IfOk result (λ h. lift_of h ≡ then (lift_of g.now) (lift_of f.now)) }
{
    match g {
        Lift::Same => copy_lift(alloc, f),
        Lift::Items(last) => match f {
            Lift::Same => copy_lift(alloc, g),
            Lift::Items(first) => Ok(Lift::Items(Box::new(alloc, after(alloc, last, first)?)?)),
            _ => copy_lift(alloc, f),
        },
        Lift::Parts { parts: lasts, .. } => match f {
            Lift::Same => copy_lift(alloc, g),
            Lift::Parts { places, parts } => {
                let places_made = places.copy(alloc)?;
                Ok(Lift::Parts {
                    places: places_made,
                    parts: each_after(alloc, lasts, places, parts)?,
                })
            }
            _ => copy_lift(alloc, f),
        },
        Lift::Alternatives { tags, parts: lasts } => match f {
            Lift::Same => copy_lift(alloc, g),
            Lift::Alternatives {
                tags: first_tags,
                parts,
            } => {
                let tags_made = tags.at_each(alloc, first_tags)?;
                Ok(Lift::Alternatives {
                    tags: tags_made,
                    parts: each_after(alloc, lasts, first_tags, parts)?,
                })
            }
            Lift::Items(_) => first_after(alloc, tags, lasts, f),
            Lift::Parts { .. } => first_after(alloc, tags, lasts, f),
        },
    }
}

/// What f does, and then to the first alternative.
#[cycle(after)]
#[tactic(auto, using(crate::proofs::Afters::afters_laws))]
fn first_after(alloc: Global, tags: &Places, gs: &Lifts, f: &Lift) -> Result<Lift, NoMemory>
    ensures { let first = then (carry_at (lifts_of gs.now) 0) (lift_of f.now) in
        let made = to_alternatives (tag_at tags.now 0 ∷ []) (carry first no_carries) in
        IfOk result (λ h. lift_of h ≡ made) }
{
    let mut tags_made = Places::new(alloc);
    tags_made.push(tags.at(0))?;
    let mut parts = Lifts::new(alloc);
    parts.push(after_at(alloc, gs, 0, f)?)?;
    Ok(Lift::Alternatives {
        tags: tags_made,
        parts,
    })
}

/// What f does, and then the lift at a place; beyond the last one f alone.
#[cycle(after)]
#[tactic(auto, using(crate::proofs::Afters::afters_laws))]
pub(crate) fn after_at(alloc: Global, gs: &Lifts, k: u64, f: &Lift) -> Result<Lift, NoMemory>
    ensures { IfOk result (λ h. lift_of h ≡ then (carry_at (lifts_of gs.now) k) (lift_of f.now)) }
{
    if k < gs.len() as u64 {
        after(alloc, gs.get(k as usize), f)
    } else {
        copy_lift(alloc, f)
    }
}

/// Each lift, and then the one of its place.
#[cycle(after)]
#[tactic(auto, using(crate::proofs::Afters::afters_laws))]
pub(crate) fn each_after(
    alloc: Global,
    gs: &Lifts,
    ks: &Places,
    fs: &Lifts,
) -> Result<Lifts, NoMemory>
    ensures { let made = put_after (lifts_of gs.now) ks.now (lifts_of fs.now) in
        IfOk result (λ hs. lifts_of hs ≡ made) }
{
    let mut made = Lifts::new(alloc);
    for i in 0..ks.len().min(fs.len()) {
        made.push(after_at(alloc, gs, ks.get(i), fs.get(i))?)?;
    }
    Ok(made)
}

/// Each lift, and then the other one at its place.
#[tactic(auto, using(crate::proofs::Afters::afters_laws))]
pub(crate) fn each_then(alloc: Global, fs: &Lifts, gs: &Lifts) -> Result<Lifts, NoMemory>
    ensures { IfOk result (λ hs. lifts_of hs ≡ then_each (lifts_of fs.now) (lifts_of gs.now)) }
{
    let mut made = Lifts::new(alloc);
    for i in 0..fs.len().min(gs.len()) {
        made.push(after(alloc, gs.get(i), fs.get(i))?)?;
    }
    Ok(made)
}
