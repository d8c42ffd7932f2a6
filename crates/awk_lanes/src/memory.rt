//! Where lanes are made, and what is answered where there is no room.
use bumpalo::Bump;
use std::alloc::AllocError;

/// The arena that lanes are made in. They live as long as it does.
pub type Arena = Bump;

/// Want of memory.
pub type NoMemory = AllocError;
