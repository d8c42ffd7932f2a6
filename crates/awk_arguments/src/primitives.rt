//! Leaf types by their names.
ghost use Rattle.std.specs.Prelude.{◌≡◌, Some};
ghost use Rattle.awk_arguments.specs.Fit.{IsGiven};
ghost use Rattle.awk_arguments.specs.Primitives as given;

use crate::fixed::text;
use awk_expr::Fixed;
use awk_types::Prim;

/// The leaf type of a name.
fn primitive_named(name: &str) -> Option<Prim>
    ensures { result ≡ given.primitive_named name.now }
{
    match name {
        "bool" => Some(Prim::Bool),
        "int8" => Some(Prim::I8),
        "int16" => Some(Prim::I16),
        "int32" => Some(Prim::I32),
        "int64" => Some(Prim::I64),
        "uint8" => Some(Prim::U8),
        "uint16" => Some(Prim::U16),
        "uint32" => Some(Prim::U32),
        "uint64" => Some(Prim::U64),
        _ => None,
    }
}

/// The leaf type that a name, alone, names.
pub fn primitive(fixed: &Fixed) -> Prim
    requires { IsGiven (given.primitive_in fixed.now) }
    ensures { given.primitive_in fixed.now ≡ Some result }
{
    match primitive_named(text(fixed).as_str()) {
        Some(primitive) => primitive,
        None => unreachable!(),
    }
}
