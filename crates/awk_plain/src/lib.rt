//! Plain JSON values: their types, and the faults of those that make no array.
//!
//! A whole number is of int64, a truth value of bool, null an option of nothing known, an object a
//! record with its members in the order of their names, and a list a list of what its items' types
//! unify to from the left. `plain_type` is that type, or the first fault; `standing_type` is the
//! type of a list whose values are all of it as they stand.
#![tactic(auto)]

mod faults;
mod judged;
mod standing;
mod suits;
mod types;

pub use faults::plain_type;
pub use standing::standing_type;
pub use suits::all_suit;
