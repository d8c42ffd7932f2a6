//! The types of nodes, before they are simplified.
ghost use Rattle.std.specs.Prelude.{◌≡◌, map, IfOk};
ghost use Rattle.awk_types.specs.IsType.{IsType};
ghost use Rattle.awk_types.specs.View.{typ_of, typs_of};
ghost use Rattle.awk_layout.specs.Kinds.{primitive_of, kind_of};
ghost use Rattle.awk_layout.specs.Typing.{layout_type};

use crate::node::class::Class;
use crate::node::{Node, Nodes};
use awk_lanes::Kind;
use awk_types::{Fields, NoMemory, Prim, Typ, Typs};
use std::alloc::Global;

/// The primitive that numbers of a kind are of.
pub fn prim_of(kind: Kind) -> Prim
    ensures { result ≡ primitive_of kind }
{
    match kind {
        Kind::Bool => Prim::Bool,
        Kind::I8 => Prim::I8,
        Kind::I16 => Prim::I16,
        Kind::I32 => Prim::I32,
        Kind::I64 => Prim::I64,
        Kind::U8 => Prim::U8,
        Kind::U16 => Prim::U16,
        Kind::U32 => Prim::U32,
        Kind::U64 => Prim::U64,
    }
}

/// The kind that numbers of a primitive have.
pub fn kind_of(prim: Prim) -> Kind
    ensures { result ≡ kind_of prim }
{
    match prim {
        Prim::Bool => Kind::Bool,
        Prim::I8 => Kind::I8,
        Prim::I16 => Kind::I16,
        Prim::I32 => Kind::I32,
        Prim::I64 => Kind::I64,
        Prim::U8 => Kind::U8,
        Prim::U16 => Kind::U16,
        Prim::U32 => Kind::U32,
        Prim::U64 => Kind::U64,
    }
}

/// The type of a node.
#[cycle(typing)]
#[tactic(auto, using(crate::proofs::ContentTypes::contents))]
pub(crate) fn type_of(alloc: Global, x: &Node) -> Result<Typ, NoMemory>
    ensures typ { IfOk result (λ t. typ_of t ≡ layout_type x.now) }
    ensures is_type { IsType (layout_type x.now) }
{
    match x.class() {
        Class::Empty => Ok(Typ::Unknown),
        Class::Numpy { lane } => Ok(Typ::Leaf(prim_of(lane.kind()))),
        Class::Regular { size, content } => Ok(Typ::Reg(size, boxed_type(alloc, content)?)),
        Class::List { content, .. } | Class::ListOffset { content, .. } => {
            Ok(Typ::Var(boxed_type(alloc, content)?))
        }
        Class::Row {
            names: Some(names),
            contents,
        } => Ok(Typ::Rec(Fields::named(alloc, names, types_of(alloc, contents)?)?)),
        Class::Row {
            names: None,
            contents,
        } => Ok(Typ::Tup(types_of(alloc, contents)?)),
        Class::Indexed { content, .. } => type_of(alloc, content),
        Class::IndexedOption { content, .. }
        | Class::ByteMasked { content, .. }
        | Class::BitMasked { content, .. }
        | Class::Unmasked { content } => Ok(Typ::Opt(boxed_type(alloc, content)?)),
        Class::Union { contents, .. } => Ok(Typ::Uni(types_of(alloc, contents)?)),
    }
}

/// The type of a node, in a box.
#[cycle(typing)]
#[tactic(auto, using(crate::proofs::ContentTypes::contents))]
fn boxed_type(alloc: Global, x: &Node) -> Result<Box<Typ>, NoMemory>
    ensures { IfOk result (λ t. typ_of t.value ≡ layout_type x.now) }
{
    Ok(Box::new(alloc, type_of(alloc, x)?)?)
}

/// The types of nodes, in order.
#[cycle(typing)]
#[tactic(auto, using(crate::proofs::ContentTypes::contents))]
fn types_of(alloc: Global, contents: &Nodes) -> Result<Typs, NoMemory>
    ensures { IfOk result (λ ts. typs_of ts ≡ map layout_type contents.now) }
{
    let mut made = Typs::new(alloc);
    for i in 0..contents.len() {
        made.push(type_of(alloc, contents.get(i))?)?;
    }
    Ok(made)
}
