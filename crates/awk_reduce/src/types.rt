//! What types reducers take, and what they give.
ghost use Rattle.std.specs.Prelude.{◌≡◌, IfOk};
ghost use Rattle.awk_types.specs.View.{typ_of};
ghost use Rattle.awk_present.specs.Numbers as numbers;
ghost use Rattle.awk_reduce.specs.Reducers as spec;

use crate::reducer::Reducer;
use awk_types::{NoMemory, Prim, Typ};
use std::alloc::Global;

/// The leaf of a type, its option dropped.
pub(crate) fn leaf_of(t: &Typ) -> Prim
    ensures { result ≡ numbers.leaf_of (typ_of t.now) }
{
    match t {
        Typ::Leaf(prim) => *prim,
        Typ::Opt(inner) => match &**inner {
            Typ::Leaf(prim) => *prim,
            _ => Prim::I64,
        },
        _ => Prim::I64,
    }
}

/// The primitive of sums and products.
pub(crate) fn wide(prim: Prim) -> Prim
    ensures { result ≡ spec.wide prim }
{
    match prim {
        Prim::U8 | Prim::U16 | Prim::U32 | Prim::U64 => Prim::U64,
        _ => Prim::I64,
    }
}

/// The type of what a list of items is reduced to.
pub(crate) fn reduced_typ(alloc: Global, how: Reducer, item: &Typ) -> Result<Typ, NoMemory>
    ensures { IfOk result (λ t. typ_of t ≡ spec.reduced_type how (typ_of item.now)) }
{
    match how {
        Reducer::Sum | Reducer::Prod => Ok(Typ::Leaf(wide(leaf_of(item)))),
        Reducer::Min | Reducer::Max => Ok(Typ::Opt(Box::new(alloc, Typ::Leaf(leaf_of(item)))?)),
        Reducer::Argmin | Reducer::Argmax => Ok(Typ::Opt(Box::new(alloc, Typ::Leaf(Prim::I64))?)),
        Reducer::Any | Reducer::All => Ok(Typ::Leaf(Prim::Bool)),
        Reducer::Count | Reducer::CountNonzero => Ok(Typ::Leaf(Prim::I64)),
    }
}
