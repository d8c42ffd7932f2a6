//! What the lines of a session change.

use awk_eval::Env;
use awk_lanes::Arena;
use awk_query::Reading;
use bumpalo::Bump;
use std::alloc::Global;

/// An arena that is emptied keeps no less than 32 MiB for the next line: of less than that the
/// allocator has some that was used before.
const LEAST_KEPT: usize = 33_554_432;

/// It keeps no more than 256 MiB.
const MOST_KEPT: usize = 268_435_456;

/// The variables of a session, and how its next line is read.
#[derive(Drop)]
pub struct SessionState<'a> {
    pub env: Env<'a>,
    pub reading: Reading,
}

/// What memory is asked of, and where the buffers lie of what lines bind, and of what a line only
/// shows.
#[derive(Drop)]
pub struct Arenas<'a, 'b> {
    pub alloc: Global,
    pub kept: &'a Arena,
    pub scratch: &'b Arena,
}

/// Gives up what lies in an arena. Its last chunk, which is its greatest, stays for the next line,
/// unless that is too little or too much, so that much memory is not asked for anew at each line.
pub fn empty_arena(alloc: Global, arena: &mut Arena) {
    if arena.reset().is_ok() {
        let kept = arena.allocated_bytes();
        if LEAST_KEPT <= kept && kept <= MOST_KEPT {
            return;
        }
    }
    *arena = Bump::new(alloc);
}
