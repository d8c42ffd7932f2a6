//! Which lists a function is applied to.
ghost use Rattle.std.specs.Prelude.{◌≡◌};
ghost use Rattle.awk_types.specs.View.{typ_of};
ghost use Rattle.awk_list_functions.specs.Reach.{here, inner, passes_rows};

use awk_types::{Typ, is_leaf};

/// Which lists a function is applied to.
#[derive(Clone, Copy, Debug, PartialEq, Eq)]
pub enum Reach {
    /// Each list at an axis. Axis 0 is the lists directly inside.
    Axis(u64),
    /// Each list whose items, options dropped, are leaves.
    Innermost,
}

impl Reach {
    /// Whether a list of these items is one of the lists.
    pub fn is_here(self, item: &Typ) -> bool
        ensures { result ≡ here self (typ_of item.now) }
    {
        match self {
            Reach::Axis(k) => k == 0,
            Reach::Innermost => match item {
                Typ::Opt(present) => is_leaf(present),
                _ => is_leaf(item),
            },
        }
    }

    /// The same, from inside a list.
    pub fn inner(self) -> Reach
        ensures { result ≡ inner self }
    {
        match self {
            Reach::Axis(k) => Reach::Axis(k.saturating_sub(1)),
            Reach::Innermost => Reach::Innermost,
        }
    }

    /// Whether rows and unions are gone through.
    pub fn passes_rows(self) -> bool
        ensures { result ≡ passes_rows self }
    {
        matches!(self, Reach::Axis(_))
    }
}
