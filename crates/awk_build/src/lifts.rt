//! How the items of several arrays are carried into what all their types unify to from the left,
//! each lift made once.
ghost use Rattle.std.specs.Prelude.{◌≡◌, map, reverse, IfOk};
ghost use Rattle.std.specs.List.{AllByRecursion};
ghost use Rattle.awk_types.specs.DataType.{unknown};
ghost use Rattle.awk_types.specs.View.{typ_of};
ghost use Rattle.awk_layout.specs.Array.{IsArrayType};
ghost use Rattle.awk_layout.specs.Typing.{array_type};
ghost use Rattle.awk_unify.specs.View.{lifts_of, unified_of};
ghost use Rattle.awk_build.specs.Joined.{joined_type};
ghost use Rattle.awk_build.specs.Suffix.{carriers, steps_from};

use awk_layout::Arrays;
use awk_types::{NoMemory, Typ, copy_type};
use awk_unify::{Lift, Lifts, Unified, lift_after, unify_unlimited};
use std::alloc::Global;

/// Each step of unifying types from the left, and the type at the end.
#[derive(Drop)]
pub(crate) struct Unifications {
    pub steps: Vec<Unified>,
    pub typ: Typ,
}

/// The steps of unifying the types of arrays from the left.
pub(crate) fn steps_of(alloc: Global, xs: &Arrays) -> Result<Unifications, NoMemory>
    ensures steps { let ts = map array_type xs.now in
        IfOk result (λ u. map unified_of u.steps.items ≡ steps_from unknown ts) }
    ensures typ { IfOk result (λ u. typ_of u.typ ≡ joined_type xs.now) }
    ensures lawful { IfOk result (λ u. AllByRecursion IsArrayType (map array_type xs.now)) }
{
    let mut steps = Vec::new(alloc);
    let mut typ = Typ::Unknown;
    for i in 0..xs.len() {
        let step = unify_unlimited(alloc, &typ, xs.get(i).typ())?;
        typ = copy_type(alloc, &step.typ)?;
        steps.push(step)?;
    }
    Ok(Unifications { steps, typ })
}

/// How the values of each type are carried into the last one, the last type first.
pub(crate) fn lifts_back(alloc: Global, steps: &[Unified]) -> Result<Lifts, NoMemory>
    ensures { let made = carriers (map unified_of steps.now) in
        IfOk result (λ fs. lifts_of fs ≡ reverse made.each) }
{
    let n = steps.len();
    let mut so_far = Lift::Same;
    let mut lifts = Lifts::new(alloc);
    for k in 0..n {
        let step = &steps[n - 1 - k];
        lifts.push(lift_after(alloc, &so_far, &step.right)?)?;
        so_far = lift_after(alloc, &so_far, &step.left)?;
    }
    Ok(lifts)
}
