//! The type that several types unify to, from the left.
ghost use Rattle.std.specs.Prelude.{◌≡◌, ◌↔◌, ◌++◌, ◌∷◌, [], List, Some, None, map, option_map};
ghost use Rattle.std.specs.Prelude.{IfOk, IsTrue};
ghost use Rattle.awk_types.specs.DataType.{types_from};
ghost use Rattle.awk_types.specs.Gives.{Gives};
ghost use Rattle.awk_types.specs.Limit.{limit, limit_told};
ghost use Rattle.awk_types.specs.Simple.{AreSimple};
ghost use Rattle.awk_types.specs.View.{typ_of, typs_of};
ghost use Rattle.awk_unify.specs.After.{after as then};
ghost use Rattle.awk_unify.specs.Carry.{Carry, keep};
ghost use Rattle.awk_unify.specs.UnifyList.{UnifiesAll, one_further, unification_list, within_list};
ghost use Rattle.awk_unify.specs.View.{IsIdle, all_of, lift_of, lifts_of, so_far_of};

use crate::after::after;
use crate::lift::{Lift, Lifts, same_lift, same_lifts};
use crate::unified::Unified;
use crate::unifying::unified;
use awk_types::{NoMemory, Typ, TypeFault, Typs, simple_of};
use std::alloc::Global;

/// The type that several types unify to, and how the values of each become values of it.
#[derive(Debug, Drop)]
pub struct UnifiedAll {
    pub typ: Typ,
    pub lifts: Lifts,
}

/// Each lift, and then another one.
fn each_before(alloc: Global, g: &Lift, fs: &Lifts) -> Result<Lifts, NoMemory>
    ensures { let made = map (then (lift_of g.now)) (lifts_of fs.now) in
        IfOk result (λ hs. lifts_of hs ≡ made) }
{
    let mut made = Lifts::new(alloc);
    for i in 0..fs.len() {
        made.push(after(alloc, g, fs.get(i))?)?;
    }
    Ok(made)
}

/// Whether a lift keeps each value.
fn is_keep(f: &Lift) -> bool
    ensures { IsTrue result ↔ (lift_of f.now ≡ keep) }
{
    matches!(f, Lift::Same)
}

/// Whether what f does, and then g, is f.
fn leaves(alloc: Global, g: &Lift, f: &Lift) -> Result<bool, NoMemory>
    ensures { let f = lift_of f.now in
        IfOk result (λ b. IsTrue b ↔ (then (lift_of g.now) f ≡ f)) }
{
    let again = after(alloc, g, f)?;
    Ok(same_lift(&again, f))
}

/// Whether a lift leaves each of these so.
fn leaves_all(alloc: Global, g: &Lift, fs: &Lifts) -> Result<bool, NoMemory>
    ensures { let fs = lifts_of fs.now in
        IfOk result (λ b. IsTrue b ↔ (map (then (lift_of g.now)) fs ≡ fs)) }
{
    let again = each_before(alloc, g, fs)?;
    Ok(same_lifts(&again, fs))
}

/// Lifts, and one that leaves each of them, if one is known. Types that come by turns give the same
/// lift again and again, and it is put after each lift once.
#[derive(Debug, Drop)]
pub(crate) struct Kept {
    pub lifts: Lifts,
    pub idle: Option<Lift>,
}

/// Whether this is the lift that is known.
fn is_idle(idle: &Option<Lift>, g: &Lift) -> bool
    ensures { IsTrue result ↔ (option_map lift_of idle.now ≡ Some (lift_of g.now)) }
{
    match idle {
        Some(known) => same_lift(known, g),
        None => false,
    }
}

/// Each lift, and then another one.
fn all_before(alloc: Global, g: Lift, kept: Kept) -> Result<Kept, NoMemory>
    requires { IsIdle kept.idle (lifts_of kept.lifts) }
    ensures made { let made = map (then (lift_of g)) (lifts_of kept.lifts) in
        IfOk result (λ k. lifts_of k.lifts ≡ made) }
    ensures idle { IfOk result (λ k. IsIdle k.idle (lifts_of k.lifts)) }
{
    if is_keep(&g) {
        return Ok(kept);
    }
    if is_idle(&kept.idle, &g) {
        return Ok(kept);
    }
    let lifts = each_before(alloc, &g, &kept.lifts)?;
    if leaves_all(alloc, &g, &lifts)? {
        let idle = Some(g);
        return Ok(Kept { lifts, idle });
    }
    Ok(Kept { lifts, idle: None })
}

/// The lift that leaves each of some, if it leaves one more.
fn idle_still(alloc: Global, idle: Option<Lift>, f: &Lift) -> Result<Option<Lift>, NoMemory>
    ensures { (fs : List Carry) → IsIdle idle fs →
        IfOk result (λ still. IsIdle still (fs ++ lift_of f.now ∷ [])) }
{
    let g = match idle {
        Some(g) => g,
        None => return Ok(None),
    };
    if leaves(alloc, &g, f)? {
        return Ok(Some(g));
    }
    Ok(None)
}

/// One lift more.
fn one_more(alloc: Global, kept: Kept, f: Lift) -> Result<Kept, NoMemory>
    requires { IsIdle kept.idle (lifts_of kept.lifts) }
    ensures made { IfOk result (λ k. lifts_of k.lifts ≡ lifts_of kept.lifts ++ lift_of f ∷ []) }
    ensures idle { IfOk result (λ k. IsIdle k.idle (lifts_of k.lifts)) }
{
    let idle = idle_still(alloc, kept.idle, &f)?;
    let mut lifts = kept.lifts;
    lifts.push(f)?;
    Ok(Kept { lifts, idle })
}

/// What the types so far unify to.
#[derive(Debug, Drop)]
pub(crate) struct SoFar {
    pub typ: Typ,
    pub kept: Kept,
}

/// One type more.
fn further(alloc: Global, so_far: SoFar, t: &Typ) -> Result<SoFar, NoMemory>
    requires { IsIdle so_far.kept.idle (lifts_of so_far.kept.lifts) }
    ensures made { let made = one_further (so_far_of so_far) (typ_of t.now) in
        IfOk result (λ s. so_far_of s ≡ made) }
    ensures idle { IfOk result (λ s. IsIdle s.kept.idle (lifts_of s.kept.lifts)) }
{
    let Unified { typ, left, right } = unified(alloc, &so_far.typ, t)?;
    let kept = all_before(alloc, left, so_far.kept)?;
    let kept = one_more(alloc, kept, right)?;
    Ok(SoFar { typ, kept })
}

/// What several types unify to, whatever its size.
fn from_left(alloc: Global, ts: &Typs) -> Result<UnifiedAll, NoMemory>
    ensures { IfOk result (λ u. all_of u ≡ unification_list (typs_of ts.now)) }
{
    let kept = Kept {
        lifts: Lifts::new(alloc),
        idle: None,
    };
    let mut made = SoFar {
        typ: Typ::Unknown,
        kept,
    };
    for i in 0..ts.len() {
        made = further(alloc, made, ts.get(i))?;
    }
    Ok(UnifiedAll {
        typ: made.typ,
        lifts: made.kept.lifts,
    })
}

/// The type that simple types unify to from the left, and how the values of each are carried into
/// it. The limits are judged on the last type alone.
pub fn unify_all(alloc: Global, ts: &Typs) -> Result<UnifiedAll, TypeFault>
    requires { AreSimple (types_from (typs_of ts.now)) }
    ensures gives { let said = within_list (unification_list (typs_of ts.now)) in
        Gives all_of limit_told result said }
    ensures within_limits { IfOk result (λ u. limit (typ_of u.typ) ≡ None) }
    ensures laws { IfOk result (λ u. UnifiesAll (typs_of ts.now) (all_of u)) }
{
    let UnifiedAll { typ, lifts } = from_left(alloc, ts)?;
    let typ = simple_of(alloc, typ)?;
    Ok(UnifiedAll { typ, lifts })
}
