//! Arrays joined one after another.
ghost use Rattle.std.specs.Prelude.{◌≡◌, [], length, reverse, IfOk};
ghost use Rattle.awk_types.specs.Limit.{limit};
ghost use Rattle.std.specs.Prelude.{None};
ghost use Rattle.awk_layout.specs.Typing.{array_type, array_items};
ghost use Rattle.awk_merge_sides.specs.Sides.{sides_of, IsCounted};
ghost use Rattle.awk_unify.specs.View.{lifts_of};
ghost use Rattle.awk_build.specs.Joined.{joined_type, joined_items, sides_from};

use crate::lifts::{Unifications, lifts_back, steps_of};
use awk_lanes::{Arena, Steps};
use awk_layout::{Array, Arrays};
use awk_merge_columns::merge;
use awk_merge_sides::Sides;
use awk_types::NoMemory;
use awk_unify::Lifts;
use std::alloc::Global;
use std::sync::ledger::Ledger;

/// Arrays as columns, each with its lift: that of the last array is the first.
fn columns<'a>(alloc: Global, xs: &Arrays<'a>, lifts: &Lifts) -> Result<Sides<'a>, NoMemory>
    requires { length (lifts_of lifts.now) ≡ length xs.now }
    ensures sides { IfOk result (λ s.
        sides_of s ≡ sides_from [] (reverse (lifts_of lifts.now)) xs.now) }
    ensures counted { IfOk result IsCounted }
{
    let n = xs.len();
    let mut sides = Sides::new(alloc);
    for i in 0..n {
        let column = xs.get(i).copy(alloc)?;
        sides.push(alloc, column, lifts.get(n - 1 - i))?;
    }
    Ok(sides)
}

/// The items of all arrays, one array after another, as one array of the type that theirs unify to
/// from the left.
pub(crate) fn joined<'a, L: Ledger>(
    alloc: Global,
    xs: &Arrays<'a>,
    arena: &'a Arena,
    steps: &mut Steps<L>,
) -> Result<Array<'a>, NoMemory>
    requires { limit (joined_type xs.now) ≡ None }
    ensures typ { IfOk result (λ x. array_type x ≡ joined_type xs.now) }
    ensures items { IfOk result (λ x. array_items x ≡ joined_items xs.now) }
{
    let Unifications { steps: each, typ } = steps_of(alloc, xs)?;
    let lifts = lifts_back(alloc, &each)?;
    let sides = columns(alloc, xs, &lifts)?;
    let node = merge(alloc, &typ, &sides, arena, steps)?;
    Ok(Array::with_type(node, typ))
}
