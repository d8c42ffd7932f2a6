//! Why a fetch is refused.
ghost use Rattle.std.specs.Prelude.{◌≡◌};
ghost use Rattle.awk_store.specs.declared.fault.StoreFault.TheVariants.{NoMemory};

use std::alloc::AllocError;

/// What is wrong with a buffer: its key is not there, or its text is not the standard, padded
/// base64 of any bytes.
#[derive(Clone, Copy, Debug, PartialEq, Eq)]
pub enum BufferWhy {
    Absent,
    Base64,
}

/// Why a fetch gives no bytes.
#[derive(Clone, Copy, Debug, PartialEq, Eq)]
pub enum StoreFault {
    Bad(BufferWhy),
    NoMemory,
}

impl From<AllocError> for StoreFault {
    ghost from_gives = { λ _ fault. fault ≡ NoMemory };

    fn from(_error: AllocError) -> StoreFault {
        StoreFault::NoMemory
    }
}
