//! Why a form is refused.

use crate::form::Form;
use awk_types::TypeFault;
use std::alloc::{AllocError, AllocFailed};

/// The cause against a node of a form.
#[derive(Clone, Copy, Debug, PartialEq, Eq)]
pub enum FormWhy {
    /// It is no object, or its class is none of the twelve.
    Class,
    /// A key is absent or its value is not of the JSON type, or there are not as many fields as
    /// contents.
    Key,
    /// The kind of an index, of tags or of a mask is not allowed there.
    Kind,
    /// The primitive is none of the nine.
    Primitive,
    /// The parameters are no object, or they say `__array__`.
    Parameter,
    /// A field name comes twice.
    Repeated,
    /// A union has no alternative, or more than 127.
    Alternatives,
    /// The form key is no text, or there is none where the class has buffers.
    FormKey,
}

/// Why a form is refused.
#[derive(Clone, Copy, Debug, PartialEq, Eq)]
pub enum FormFault {
    /// The first break: a node by its number in pre-order, and the cause against it.
    Bad { node: u64, why: FormWhy },
    /// The type nests too deep.
    Depth,
    /// The type has too many nodes, or a union of too many alternatives.
    Size,
    NoMemory,
}

impl From<AllocError> for FormFault {
    ghost use Rattle.std.specs.Prelude.{◌≡◌};
    ghost use Rattle.awk_form.specs.declared.fault.FormFault.TheVariants.{NoMemory};

    ghost from_gives = { λ _ e. e ≡ NoMemory };

    fn from(_e: AllocError) -> FormFault {
        FormFault::NoMemory
    }
}

impl From<AllocFailed<Form>> for FormFault {
    ghost use Rattle.std.specs.Prelude.{◌≡◌};
    ghost use Rattle.awk_form.specs.declared.fault.FormFault.TheVariants.{NoMemory};

    ghost from_gives = { λ _ e. e ≡ NoMemory };

    fn from(_e: AllocFailed<Form>) -> FormFault {
        FormFault::NoMemory
    }
}

impl From<TypeFault> for FormFault {
    ghost use Rattle.std.specs.Prelude.{◌≡◌};
    ghost use Rattle.awk_form.specs.Told.{fault_of};

    ghost from_gives = { λ fault e. e ≡ fault_of fault };

    fn from(fault: TypeFault) -> FormFault {
        match fault {
            TypeFault::Depth => FormFault::Depth,
            TypeFault::Size => FormFault::Size,
            TypeFault::NoMemory => FormFault::NoMemory,
        }
    }
}

/// Why a node is refused whose number is not told.
#[derive(Clone, Copy, Debug, PartialEq, Eq)]
pub enum NodeFault {
    Why(FormWhy),
    NoMemory,
}

impl From<FormWhy> for NodeFault {
    ghost use Rattle.std.specs.Prelude.{◌≡◌};
    ghost use Rattle.awk_form.specs.declared.fault.NodeFault.TheVariants.{Why};

    ghost from_gives = { λ why e. e ≡ Why why };

    fn from(why: FormWhy) -> NodeFault {
        NodeFault::Why(why)
    }
}

impl From<AllocError> for NodeFault {
    ghost use Rattle.std.specs.Prelude.{◌≡◌};
    ghost use Rattle.awk_form.specs.declared.fault.NodeFault.TheVariants.{NoMemory};

    ghost from_gives = { λ _ e. e ≡ NoMemory };

    fn from(_e: AllocError) -> NodeFault {
        NodeFault::NoMemory
    }
}
