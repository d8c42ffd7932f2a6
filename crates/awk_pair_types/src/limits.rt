//! The type of a node, or the limit that it passes.
ghost use Rattle.std.specs.Prelude.{IfOk};
ghost use Rattle.awk_types.specs.Faults.{fault_told, limit_refused};
ghost use Rattle.awk_types.specs.Gives.{Gives, refused_or};
ghost use Rattle.awk_types.specs.View.{typ_of};
ghost use Rattle.awk_layout.specs.Array.{IsArrayType};
ghost use Rattle.awk_layout.specs.Typing.{array_type};

use awk_layout::{Array, Node};
use awk_types::{Fault, Typ};
use std::alloc::Global;

/// The simple type of a node, or the limit that it passes.
pub fn typ_within<'a>(alloc: Global, node: Node<'a>) -> Result<Typ, Fault>
    ensures answer { let t = array_type node.entry in
        Gives typ_of fault_told result (refused_or (limit_refused t) t) }
    ensures lawful { IfOk result (λ t. IsArrayType (typ_of t)) }
{
    let array = Array::new(alloc, node)?;
    let (_, typ) = array.into_parts();
    Ok(typ)
}
