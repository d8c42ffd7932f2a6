//! Operations on nulls, arrays under a mask, and nulls filled by a value, handed out together.
//!
//! It has no code of its own: `drop_none`, `firsts`, `is_none`, `pad_none`, `singletons`,
//! `put_mask` and `fill_none` are those of the four crates below it.
#![tactic(auto)]

pub use awk_fill::fill_none;
pub use awk_mask::put_mask;
pub use awk_nulls::{drop_none, firsts, is_none, singletons};
pub use awk_padding::pad_none;
