//! Types and values of nested, jagged columns, with their definitions, and the faults of
//! operations.
//!
//! A type is simplified by `simple_of`, `opt_of` and `uni_of`, within the limits that `TypeFault`
//! tells; `same` compares, `depth`, `nodes` and `levels` measure, `copy_type` copies. The
//! predicates on types (`is_leaf`, `is_list`, ...) and the small lists `Names`, `Typs`, `Fields`
//! and `Wholes` stand here for all crates above.
#![tactic(auto)]

mod copy;
mod equality;
mod fault;
mod level;
mod limit;
mod measure;
mod name;
mod numbers;
mod predicates;
mod primitive;
mod simplify;
mod typ;
mod whole;

pub use copy::copy_type;
pub use equality::same;
pub use fault::Fault;
pub use level::{levels, turned_axis};
pub use limit::{ITEM_LIMIT, TypeFault};
pub use measure::{depth, nodes};
pub use name::{Name, Names, NoMemory, copy_names};
pub use numbers::is_numbers;
pub use predicates::{
    are_leaves, is_leaf, is_list, is_list_or_unknown, is_optional, is_sized, is_union, is_unknown,
};
pub use primitive::Primitive as Prim;
pub use simplify::{opt_of, simple_of, uni_of};
pub use typ::{Field, Fields, Typ, Typs};
pub use whole::Wholes;
