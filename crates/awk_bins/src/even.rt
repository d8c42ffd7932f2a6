//! Edges that lie a step apart.
ghost use Rattle.std.specs.Prelude.{◌≡◌, ◌+ℤ◌, pos, map, true, IfSome};
ghost use Rattle.awk_bins.specs.Even.{AreEven, AreSteps};

use crate::number::Number;

/// A number below edges by a step, and the step by which each edge is above the one before.
#[derive(Drop)]
pub(crate) struct Even<N: Number> {
    pub base: N,
    pub step: u64,
}

/// Whether each number from the second on is a step above the one before.
fn are_apart<N: Number>(near: &[N], step: u64) -> bool
    ensures { result ≡ true → AreSteps step (map N.number near.now) }
{
    for i in 1..near.len() {
        if near[i].above(&near[i - 1]) != step {
            return false;
        }
    }
    true
}

/// The number that is a step below another, if it is one of these numbers.
fn step_below<N: Number>(number: &N, step: u64) -> Option<N>
    ensures { IfSome result (λ n. N.number number.now ≡ N.number n +ℤ pos step) }
{
    N::exact(number.wide() - i128::from(step))
}

/// The step of edges that lie a step apart, with its base, or none where they do not, or where the
/// base is none of the numbers.
pub(crate) fn even_edges<N: Number>(near: &[N]) -> Option<Even<N>>
    ensures { IfSome result (λ e. AreEven (N.number e.base) e.step (map N.number near.now)) }
{
    if near.len() < 2 {
        return None;
    }
    let step = near[1].above(&near[0]);
    let base = step_below(&near[0], step)?;
    if step > 0 && are_apart(near, step) {
        Some(Even { base, step })
    } else {
        None
    }
}
