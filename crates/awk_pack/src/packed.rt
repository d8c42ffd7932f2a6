//! Packed arrays, and why an array has no packed form.
use awk_form::Form;
use awk_lanes::ByteLanes;
use std::alloc::{AllocError, AllocFailed};

/// A form, a length, and the lanes of the form's buffers in their order: nodes in pre-order, and
/// at a union its tags before its index.
#[derive(Drop)]
pub struct Packed<'a> {
    pub form: Form,
    pub length: u64,
    pub lanes: ByteLanes<'a>,
}

/// Why an array is not packed.
#[derive(Clone, Copy, Debug, PartialEq, Eq)]
pub enum PackFault {
    /// A column has more than 1,073,741,824 items.
    Size,
    /// Memory is wanting.
    NoMemory,
}

impl From<AllocError> for PackFault {
    ghost use Rattle.std.specs.Prelude.{◌≡◌};
    ghost use Rattle.awk_pack.specs.declared.packed.PackFault.TheVariants.{NoMemory};

    ghost from_gives = { λ _ e. e ≡ NoMemory };

    fn from(_e: AllocError) -> PackFault {
        PackFault::NoMemory
    }
}

impl<T: Drop> From<AllocFailed<T>> for PackFault {
    ghost use Rattle.std.specs.Prelude.{◌≡◌};
    ghost use Rattle.awk_pack.specs.declared.packed.PackFault.TheVariants.{NoMemory};

    ghost from_gives = { λ _ e. e ≡ NoMemory };

    fn from(_e: AllocFailed<T>) -> PackFault {
        PackFault::NoMemory
    }
}
