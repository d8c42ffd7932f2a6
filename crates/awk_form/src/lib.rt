//! Forms: read from JSON, with their first break, their types and their texts.
//!
//! `read_form` gives the form of a JSON tree or its first break, and `read_typed_form` its simple
//! type too; `type_of_form` is that type, within the limits; `write_form` puts the text of a form,
//! and `write_names` that of a list of names.
#![tactic(auto)]

mod class;
mod dims;
mod fault;
mod form;
mod keys;
mod kind;
mod names;
mod node;
mod read;
mod typing;
mod write;

pub use dims::Dims;
pub use fault::{FormFault, FormWhy};
pub use form::{Form, Forms, Shape};
pub use kind::IndexKind;
pub use read::{read_form, read_typed_form};
pub use typing::{TypedForm, type_of_form};
pub use write::{write_form, write_names};
