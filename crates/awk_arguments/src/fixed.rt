//! The arguments of a call that are no expressions.
ghost use Rattle.std.specs.Prelude.{◌≡◌, ◌≢◌, ◌<◌, pos, Some, option_map};
ghost use Rattle.awk_arguments.specs.Fit.{IsGiven};
ghost use Rattle.awk_arguments.specs.Fixed as given;
ghost use Rattle.awk_arguments.specs.SteppedView.{stepped_view};

use awk_expr::{Fixed, FixedArg};
use awk_types::{Name, Names, Wholes};

/// The bounds of a range, where its step is 1.
pub fn bounds(fixed: &Fixed) -> Option<(&FixedArg, &FixedArg)>
    ensures { option_map (λ b. (b.0.now, b.1.now)) result ≡ given.bounds_in fixed.now }
{
    let n = fixed.len();
    if n == 2 || n == 3 && is_one(fixed.get(2)) {
        return Some((fixed.get(0), fixed.get(1)));
    }
    None
}

fn is_one(step: &FixedArg) -> bool
    ensures { result ≡ given.is_one step.now }
{
    match step {
        FixedArg::Place(z) => *z == 1,
        _ => false,
    }
}

/// A range with a step.
#[derive(Clone, Copy)]
pub struct Stepped {
    pub lo: Option<i64>,
    pub hi: Option<i64>,
    pub step: i64,
}

/// The bounds and the step of a range. The step is not 0.
pub fn with_step(fixed: &Fixed) -> Stepped
    requires { IsGiven (given.stepped_in fixed.now) }
    ensures stepped { given.stepped_in fixed.now ≡ Some (stepped_view result) }
    ensures step { result.step ≢ pos 0 }
{
    match fixed.get(2) {
        FixedArg::Place(step) => Stepped {
            lo: bound_of(fixed.get(0)),
            hi: bound_of(fixed.get(1)),
            step: *step,
        },
        _ => unreachable!(),
    }
}

/// A bound, where it is given.
pub fn bound_of(arg: &FixedArg) -> Option<i64>
    ensures { result ≡ given.bound_in arg.now }
{
    match arg {
        FixedArg::Place(z) => Some(*z),
        _ => None,
    }
}

/// A place, an axis or a number, alone.
pub fn place(fixed: &Fixed) -> i64
    requires { IsGiven (given.place_in fixed.now) }
    ensures { given.place_in fixed.now ≡ Some result }
{
    match fixed.get(0) {
        FixedArg::Place(z) => *z,
        _ => unreachable!(),
    }
}

/// A name alone.
pub fn text(fixed: &Fixed) -> &Name
    requires { IsGiven (given.text_in fixed.now) }
    ensures { given.text_in fixed.now ≡ Some result.now }
{
    match fixed.get(0) {
        FixedArg::Text(name) => name,
        _ => unreachable!(),
    }
}

/// Names alone.
pub fn texts(fixed: &Fixed) -> &Names
    requires { IsGiven (given.texts_in fixed.now) }
    ensures { given.texts_in fixed.now ≡ Some result.now }
{
    match fixed.get(0) {
        FixedArg::Texts(names) => names,
        _ => unreachable!(),
    }
}

/// A truth value alone.
pub fn truth(fixed: &Fixed) -> bool
    requires { IsGiven (given.truth_in fixed.now) }
    ensures { given.truth_in fixed.now ≡ Some result }
{
    match fixed.get(0) {
        FixedArg::Truth(b) => *b,
        _ => unreachable!(),
    }
}

/// Edges alone.
pub fn edges(fixed: &Fixed) -> &Wholes
    requires { IsGiven (given.edges_in fixed.now) }
    ensures { given.edges_in fixed.now ≡ Some result.now }
{
    match fixed.get(0) {
        FixedArg::Wholes(edges) => edges,
        _ => unreachable!(),
    }
}

/// How many items lists are padded to, at which axis, and whether they are cut.
pub fn padding(fixed: &Fixed) -> (u64, i64, bool)
    requires { IsGiven (given.padding_in fixed.now) }
    ensures { given.padding_in fixed.now ≡ Some result }
{
    match (fixed.get(0), fixed.get(1), fixed.get(2)) {
        (FixedArg::Count(n), FixedArg::Place(axis), FixedArg::Truth(clip)) => (*n, *axis, *clip),
        _ => unreachable!(),
    }
}

/// How many places a tuple has, whether they may repeat, and at which axis lists are taken.
pub fn tuples(fixed: &Fixed) -> (u64, bool, i64)
    requires { IsGiven (given.tuples_in fixed.now) }
    ensures { given.tuples_in fixed.now ≡ Some result }
{
    match (fixed.get(0), fixed.get(1), fixed.get(2)) {
        (FixedArg::Count(n), FixedArg::Truth(replacement), FixedArg::Place(axis)) => {
            (*n, *replacement, *axis)
        }
        _ => unreachable!(),
    }
}

/// A depth of at least 1 alone.
pub fn depth(fixed: &Fixed) -> u64
    requires { IsGiven (given.depth_in fixed.now) }
    ensures depth { given.depth_in fixed.now ≡ Some result }
    ensures some { 0 < result }
{
    some_depth(fixed.get(0))
}

// A depth of at least 1.
fn some_depth(arg: &FixedArg) -> u64
    requires { IsGiven (given.depth_of arg.now) }
    ensures depth { given.depth_of arg.now ≡ Some result }
    ensures some { 0 < result }
{
    match arg {
        FixedArg::Count(depth) => *depth,
        _ => unreachable!(),
    }
}

/// A depth of at least 1, and names.
pub fn named(fixed: &Fixed) -> (u64, &Names)
    requires { IsGiven (given.named_in fixed.now) }
    ensures named { given.named_in fixed.now ≡ Some (result.0, result.1.now) }
    ensures some { 0 < result.0 }
{
    match fixed.get(1) {
        FixedArg::Texts(names) => (some_depth(fixed.get(0)), names),
        _ => unreachable!(),
    }
}
