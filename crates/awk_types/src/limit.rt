//! Limits of types and of columns.
use std::alloc::{AllocError, AllocFailed};

/// The most items of a column.
pub const ITEM_LIMIT: u64 = 1_073_741_824;

/// Why a type is refused.
#[derive(Clone, Copy, Debug, PartialEq, Eq)]
pub enum TypeFault {
    /// It is deeper than 60.
    Depth,
    /// It has over 65,536 nodes, or a union of over 127 alternatives.
    Size,
    /// Memory is wanting.
    NoMemory,
}

impl From<AllocError> for TypeFault {
    ghost use Rattle.std.specs.Prelude.{◌≡◌};
    ghost use Rattle.awk_types.specs.declared.limit.TypeFault.TheVariants.{NoMemory};

    ghost from_gives = { λ _ e. e ≡ NoMemory };

    fn from(_e: AllocError) -> TypeFault {
        TypeFault::NoMemory
    }
}

impl<T: Drop> From<AllocFailed<T>> for TypeFault {
    ghost use Rattle.std.specs.Prelude.{◌≡◌};
    ghost use Rattle.awk_types.specs.declared.limit.TypeFault.TheVariants.{NoMemory};

    ghost from_gives = { λ _ e. e ≡ NoMemory };

    fn from(_e: AllocFailed<T>) -> TypeFault {
        TypeFault::NoMemory
    }
}
