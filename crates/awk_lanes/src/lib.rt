//! Lanes: little-endian numbers in bytes, each read for one counted step (`Steps`).
//!
//! `Lane` is read by `at` and in ranges; `index_at`, `place_in`, `option_place_in`, `tag_in` and
//! `is_set` read what a number stands for, and `wide_at` a number of i64. A lane is made by
//! `LaneMaker`, number by number, by `IndexMaker` where all are places and by `GroupMaker` where all
//! are of another kind that is known (a loop over any of these takes a `NumberMaker`), by
//! `made_lane` from a rule of `Numbers`, by `marked_lanes` from one of `MarkedNumbers`, together with
//! a mask of those that are there, by `offsets_of`, `offsets_within` and `items_of` from lengths, or
//! by `lane_of_numbers` and `lane_of_nats` from a slice. `one_number` and `one_offsets` are the
//! lanes of one list.
//! `run_lane` and `ordinals` are lanes of places in order, which lie in no bytes where they are
//! many: `Lane::bulk` makes their bytes where they are wanted. `Lane::held` tells the two apart, as
//! a `ByteLane`, which lies in bytes, and a `Run`, which is told by its bounds.
#![tactic(auto)]

mod byte_lane;
mod bytes;
mod counted;
mod group_maker;
mod in_order;
mod index_maker;
mod kind;
mod lane;
mod lanes;
mod made;
mod maker;
mod marked;
mod memory;
mod readers;
mod run;
mod single;
mod steps;
mod words;

pub use byte_lane::ByteLane;
pub use counted::{Items, Lengths, Offsets, items_of, offsets_of, offsets_within};
pub use group_maker::{GroupMaker, NumberType};
pub use in_order::{ordinals, run_lane};
pub use index_maker::IndexMaker;
pub use kind::{Kind, Num};
pub use lane::{Held, Lane};
pub use lanes::{ByteLanes, Lanes};
pub use made::{Numbers, made_lane};
pub use maker::{LaneMaker, NumberMaker};
pub use marked::{Marked, MarkedNumbers, marked_lanes};
pub use memory::{Arena, NoMemory};
pub use readers::{
    index_at, is_set, number, option_place_in, place_in, tag_in, to_option_place, to_place, wide_at,
};
pub use run::Run;
pub use single::{one_number, one_offsets};
pub use steps::Steps;
pub use words::{lane_of_nats, lane_of_numbers};
