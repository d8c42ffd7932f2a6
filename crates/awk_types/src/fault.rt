//! Faults of operations.
use crate::limit::TypeFault;
use crate::name::Name;
use std::alloc::{AllocError, AllocFailed};

/// Why an operation gives no result.
#[derive(Debug, Drop)]
pub enum Fault {
    /// A variable is not bound.
    Unbound(Name),
    /// A type has no such field.
    NoField(Name),
    /// A type has no list at the axis.
    Axis,
    /// A type is not one that the operation takes.
    WrongType,
    /// An exact result or a literal does not fit its type.
    Overflow,
    /// A divisor is 0.
    Zero,
    /// A type is too deep.
    Depth,
    /// A type has too many nodes or alternatives, or a column too many items.
    Size,
    /// Lengths that must agree differ.
    Lengths,
    /// A place is out of range.
    Index,
    /// Memory is wanting.
    NoMemory,
}

impl From<AllocError> for Fault {
    ghost use Rattle.std.specs.Prelude.{◌≡◌};
    ghost use Rattle.awk_types.specs.declared.fault.Fault.TheVariants.{NoMemory};

    ghost from_gives = { λ _ e. e ≡ NoMemory };

    fn from(_e: AllocError) -> Fault {
        Fault::NoMemory
    }
}

impl<T: Drop> From<AllocFailed<T>> for Fault {
    ghost use Rattle.std.specs.Prelude.{◌≡◌};
    ghost use Rattle.awk_types.specs.declared.fault.Fault.TheVariants.{NoMemory};

    ghost from_gives = { λ _ e. e ≡ NoMemory };

    fn from(_e: AllocFailed<T>) -> Fault {
        Fault::NoMemory
    }
}

impl From<TypeFault> for Fault {
    ghost use Rattle.std.specs.Prelude.{◌≡◌};
    ghost use Rattle.awk_types.specs.Faults.{fault_of};

    ghost from_gives = { λ refused fault. fault ≡ fault_of refused };

    fn from(refused: TypeFault) -> Fault {
        match refused {
            TypeFault::Depth => Fault::Depth,
            TypeFault::Size => Fault::Size,
            TypeFault::NoMemory => Fault::NoMemory,
        }
    }
}
