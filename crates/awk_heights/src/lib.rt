//! Arrays that are no higher than their types ask for.
//!
//! `lower` gives a datum as it stands where it is no higher than twice the depth of its type, and
//! else builds it again level by level: options lie over what is no option, alternatives are
//! neither options nor unions, and no index lies over another.
#![tactic(auto)]

mod higher;
mod level;
mod low;
mod nodes;
mod sized;

pub use low::lower;
