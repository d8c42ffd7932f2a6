//! Types that several types unify to, and how values are carried into them.
//!
//! `unify` joins two types and `unify_all` several from the left, within the limits of a type;
//! `unify_unlimited` leaves the limits to its caller. A `Lift` tells how the values of one of the
//! types become values of the joined one, and `lift_after` what two do one after another.
#![tactic(auto)]

mod after;
mod alternatives;
mod fields;
mod joining;
mod lift;
mod parts;
mod placed;
mod places;
mod predicates;
mod several;
mod unified;
mod unifying;

pub use after::after as lift_after;
pub use fields::field_names;
pub use lift::{Lift, Lifts, copy_lift};
pub use places::Places;
pub use several::{UnifiedAll, unify_all};
pub use unified::Unified;
pub use unifying::{unified as unify_unlimited, unify};
