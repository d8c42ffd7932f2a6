//! One level of a pairing: what operands give to it, and the rows below.
//!
//! `rows_below` pairs the lists of rows, where what is no list stands at every place and lists of
//! size 1 are stretched. `shares_of` and `Share` show what each operand gives, and `row_below`
//! makes one row of it alone.
#![tactic(auto)]

mod alike;
mod below;
mod items;
mod shares;

pub use alike::lead_of;
pub use below::{Below, rows_below};
pub use items::{opens_below, row_below};
pub use shares::{Share, shares_of};
