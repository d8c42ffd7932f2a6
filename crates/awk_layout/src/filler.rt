//! What fills nulls.
ghost use Rattle.std.specs.Prelude.{◌≡◌};
ghost use Rattle.awk_layout.specs.Filler.{filler_of, is_filler};

use crate::datum::{Datum, Operand};
use awk_types::is_optional;

impl<'a> Operand<'a> {
    /// Whether nulls may be filled with it.
    pub fn is_filler(&self) -> bool
        ensures { result ≡ is_filler (filler_of self.now) }
    {
        match self {
            Operand::Literal(_) => true,
            Operand::Of(Datum::Arr(_)) => false,
            Operand::Of(Datum::One(x)) => !is_optional(x.typ()),
        }
    }
}
