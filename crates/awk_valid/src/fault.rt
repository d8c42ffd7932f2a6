//! Why a container does not load.
ghost use Rattle.std.specs.Prelude.{◌≡◌, Err};
ghost use Rattle.awk_types.specs.Gives.{Told};
ghost use Rattle.awk_lanes.specs.Column.{Column};
ghost use Rattle.awk_valid.specs.Broken.{buffer};
ghost use Rattle.awk_valid.specs.Loading.{told, fault_of};
ghost use Rattle.awk_valid.specs.declared.fault.LoadFault.TheVariants.{NoMemory};

use awk_types::{Name, TypeFault};
use std::alloc::{AllocError, AllocFailed, Global};

/// What is wrong with a buffer: its key is not there, its text is not the standard, padded base64
/// of any bytes, or it has fewer bytes than its node needs.
#[derive(Clone, Copy, Debug, PartialEq, Eq)]
pub enum BufferFault {
    Absent,
    Base64,
    Short,
}

/// The rule of a class that a place breaks.
#[derive(Clone, Copy, Debug, PartialEq, Eq)]
pub enum Rule {
    /// An EmptyArray has items.
    Empty,
    /// A list stops before it starts.
    Order,
    /// A list that is not empty starts below 0.
    Start,
    /// An index is negative where no item may be missing.
    Negative,
    /// A tag names no alternative.
    Tag,
}

/// Why a form does not load.
#[derive(Debug, Drop)]
pub enum LoadFault {
    /// The buffer under a key.
    Buffer { key: Name, why: BufferFault },
    /// A place of a node, which is told by its number in pre-order.
    Invalid { node: u64, rule: Rule, place: u64 },
    /// The type is too deep.
    Depth,
    /// The type has too many nodes or alternatives, or a node has too many items.
    Size,
    NoMemory,
}

impl From<AllocError> for LoadFault {
    ghost from_gives = { λ _ fault. fault ≡ NoMemory };

    fn from(_error: AllocError) -> LoadFault {
        LoadFault::NoMemory
    }
}

impl<T: Drop> From<AllocFailed<T>> for LoadFault {
    ghost from_gives = { λ _ fault. fault ≡ NoMemory };

    fn from(_failed: AllocFailed<T>) -> LoadFault {
        LoadFault::NoMemory
    }
}

impl From<TypeFault> for LoadFault {
    ghost from_gives = { λ fault e. e ≡ fault_of fault };

    fn from(fault: TypeFault) -> LoadFault {
        match fault {
            TypeFault::Depth => LoadFault::Depth,
            TypeFault::Size => LoadFault::Size,
            TypeFault::NoMemory => LoadFault::NoMemory,
        }
    }
}

/// The fault of the buffer under a key, or want of memory.
pub(crate) fn buffer_fault(alloc: Global, key: &str, why: BufferFault) -> LoadFault
    ensures { Told {Y = Column} (told result) (Err (buffer key.now why)) }
{
    match Name::new(alloc, key) {
        Ok(key) => LoadFault::Buffer { key, why },
        Err(_) => LoadFault::NoMemory,
    }
}
