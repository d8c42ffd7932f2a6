//! The twelve classes of nodes.
ghost use Rattle.std.specs.Prelude.{◌≡◌};
ghost use Rattle.awk_form.specs.Tables.{meaning, classes};
ghost use Rattle.awk_form.specs.Node.{has_buffers as needs_key};

/// The class of a node.
#[derive(Clone, Copy, Debug, PartialEq, Eq)]
pub enum Class {
    Empty,
    Numpy,
    Regular,
    List,
    ListOffset,
    Row,
    Indexed,
    IndexedOption,
    ByteMasked,
    BitMasked,
    Unmasked,
    Union,
}

/// The class of this name.
pub fn class_named(text: &str) -> Option<Class>
    ensures { result ≡ meaning classes text.now }
{
    match text {
        "EmptyArray" => Some(Class::Empty),
        "NumpyArray" => Some(Class::Numpy),
        "RegularArray" => Some(Class::Regular),
        "ListArray" => Some(Class::List),
        "ListOffsetArray" => Some(Class::ListOffset),
        "RecordArray" => Some(Class::Row),
        "IndexedArray" => Some(Class::Indexed),
        "IndexedOptionArray" => Some(Class::IndexedOption),
        "ByteMaskedArray" => Some(Class::ByteMasked),
        "BitMaskedArray" => Some(Class::BitMasked),
        "UnmaskedArray" => Some(Class::Unmasked),
        "UnionArray" => Some(Class::Union),
        _ => None,
    }
}

/// Whether a node of the class has buffers, and so needs a key.
pub fn has_buffers(class: Class) -> bool
    ensures { result ≡ needs_key class }
{
    match class {
        Class::Empty | Class::Regular | Class::Row | Class::Unmasked => false,
        _ => true,
    }
}
