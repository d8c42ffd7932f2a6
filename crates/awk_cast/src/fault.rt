//! Why an array is not cast.
use awk_types::Fault;
use std::alloc::{AllocError, AllocFailed};

/// Why an array is not cast.
#[derive(Clone, Copy, Debug, PartialEq, Eq)]
pub enum CastFault {
    /// Lists hold more than 1,073,741,824 items together.
    Size,
    /// The primitive does not hold a number.
    Overflow,
    /// Memory is wanting.
    NoMemory,
}

impl From<AllocError> for CastFault {
    ghost use Rattle.std.specs.Prelude.{◌≡◌};
    ghost use Rattle.awk_cast.specs.declared.fault.CastFault.TheVariants.{NoMemory};

    ghost from_gives = { λ _ e. e ≡ NoMemory };

    fn from(_e: AllocError) -> CastFault {
        CastFault::NoMemory
    }
}

impl<T: Drop> From<AllocFailed<T>> for CastFault {
    ghost use Rattle.std.specs.Prelude.{◌≡◌};
    ghost use Rattle.awk_cast.specs.declared.fault.CastFault.TheVariants.{NoMemory};

    ghost from_gives = { λ _ e. e ≡ NoMemory };

    fn from(_e: AllocFailed<T>) -> CastFault {
        CastFault::NoMemory
    }
}

impl From<CastFault> for Fault {
    ghost use Rattle.std.specs.Prelude.{◌≡◌};
    ghost use Rattle.awk_cast.specs.Casting.{fault_of};

    ghost from_gives = { λ refused fault. fault ≡ fault_of refused };

    fn from(refused: CastFault) -> Fault {
        match refused {
            CastFault::Size => Fault::Size,
            CastFault::Overflow => Fault::Overflow,
            CastFault::NoMemory => Fault::NoMemory,
        }
    }
}
