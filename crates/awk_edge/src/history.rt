//! What was noted, for proofs alone.
ghost use Rattle.std.specs.Prelude.{◌≡◌, List, [], ◌∷◌, ◌++◌};
ghost use Rattle.std.specs.Borrow.{ftrue};

use std::marker::{Model, PhantomData};

/// The values that were noted, in order. It takes no memory, and its calls do nothing when the
/// program runs: only clauses read it.
#[derive(Drop)]
pub struct History<A> {
    of: PhantomData<A>,
    pub ghost items: { List A },
}

impl<A> Model for History<A> {
    ghost also_owns = { λ _. ftrue };
}

impl<A> History<A> {
    /// The history of which nothing was noted.
    pub fn new() -> History<A>
        ensures { result.items ≡ [] }
    {
        History { of: PhantomData }
    }

    /// The history with one value more.
    pub fn with(&self, value: &A) -> History<A>
        ensures { result.items ≡ self.now.items ++ value.now ∷ [] }
    {
        History { of: PhantomData }
    }
}
