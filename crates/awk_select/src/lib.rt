//! Picks: the item at a place, ranges of any step, and the items that a mask or an index names.
//!
//! The calls are `at`, `step_range`, `mask` and `take`; `is_mask` and `bound_up` are what the
//! evaluation asks of a mask's type and of the bounds of a range; `place_in` is the place that a
//! number names. `Cells` and `cells_of` are the values of a mask or an index, `Values` those in the
//! form in which they lie (`Truths`, `Sparse`); `place_named` and `mark_of` tell what one of them
//! gives, and a `Sieve` makes a lane of what is kept. Picks row by row stand on these too.
#![tactic(auto)]

mod cells;
mod indexes;
mod marks;
mod masks;
mod picked;
mod place;
mod places;
mod ranges;
mod sieve;
mod values;

pub use cells::{Cells, cells_of};
pub use indexes::take;
pub use marks::{Mark, mark_of, one_if};
pub use masks::{is_mask, mask};
pub use place::at;
pub use places::{Named, bound_up, place_in, place_named};
pub use ranges::step_range;
pub use sieve::{Sieve, put_if};
pub use values::{Sparse, Truths, Values, truths_of};
