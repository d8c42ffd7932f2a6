//! Types as trees.
ghost use Rattle.std.specs.Prelude.{◌≡◌, ◌<◌, [], ◌∷◌, ◌++◌, length, map, IfOk, OnErr, OnOk};
ghost use Rattle.std.specs.Prelude.{slice_get};
ghost use Rattle.awk_types.specs.View.{Below, FieldBelow, names_of, typ_of, field_of, fields_of};
ghost use Rattle.awk_types.specs.View.{typs_of};

use crate::name::{Name, Names, NoMemory};
use crate::primitive::Primitive;
use std::alloc::Global;

/// A type: of one value, and of the items of a list.
#[cycle(typ)]
#[derive(Debug, Drop)]
pub enum Typ {
    /// The type without values.
    Unknown,
    /// Whole numbers, or truth values.
    Leaf(Primitive),
    /// Lists of any length.
    Var(Box<Typ>),
    /// Lists of this length.
    Reg(u64, Box<Typ>),
    /// Records with named fields.
    Rec(Fields),
    /// Records without names.
    Tup(Typs),
    /// Null, or a value of the type.
    Opt(Box<Typ>),
    /// A value of one of the types.
    Uni(Typs),
}

/// A field of a record.
#[cycle(typ)]
#[derive(Debug, Drop)]
pub struct Field {
    pub name: Name,
    pub typ: Typ,
}

/// The fields of a record, in order.
#[cycle(typ)]
#[derive(Debug, Drop)]
pub struct Fields {
    pub(crate) items: Vec<Field>,
}

/// Types in order.
#[cycle(typ)]
#[derive(Debug, Drop)]
pub struct Typs {
    pub(crate) items: Vec<Typ>,
}

impl Typs {
    /// No types.
    pub fn new(alloc: Global) -> Typs
        ensures { typs_of result ≡ [] }
    {
        Typs {
            items: Vec::new(alloc),
        }
    }

    /// Puts a type at the end.
    pub fn push(&mut self, item: Typ) -> Result<(), NoMemory>
        ensures ok { OnOk result (typs_of self.new ≡ typs_of self.old ++ typ_of item ∷ []) }
        ensures err { OnErr result (typs_of self.new ≡ typs_of self.old) }
    {
        self.items.push(item)?;
        Ok(())
    }

    /// How many types there are.
    pub fn len(&self) -> usize
        ensures { result ≡ length (typs_of self.now) }
    {
        self.items.len()
    }

    /// The type at a place.
    #[tactic(auto, using(crate::proofs::Views::typs_get))]
    pub fn get(&self, i: usize) -> &Typ
        requires { i < length (typs_of self.now) }
        ensures item { slice_get (typs_of self.now) i ≡ Some (typ_of result.now) }
        ensures below { Below result.now self.now }
    {
        &self.items[i]
    }
}

impl Fields {
    /// No fields.
    pub fn new(alloc: Global) -> Fields
        ensures { fields_of result ≡ [] }
    {
        Fields {
            items: Vec::new(alloc),
        }
    }

    /// The fields with these names, each beside the type at its place.
    pub fn named(alloc: Global, names: &Names, types: Typs) -> Result<Fields, NoMemory>
        requires { length names.now ≡ length (typs_of types) }
        ensures names { IfOk result (λ fields. names_of (fields_of fields) ≡ names.now) }
        ensures types { let given = typs_of types in
            IfOk result (λ fields. map (λ f. f.typ) (fields_of fields) ≡ given) }
    {
        let mut made = Fields::new(alloc);
        for typ in types.items {
            let name = names.get(made.len()).copy(alloc)?;
            made.push(Field { name, typ })?;
        }
        Ok(made)
    }

    /// Puts a field at the end.
    pub fn push(&mut self, item: Field) -> Result<(), NoMemory>
        ensures ok { OnOk result (fields_of self.new ≡ fields_of self.old ++ field_of item ∷ []) }
        ensures err { OnErr result (fields_of self.new ≡ fields_of self.old) }
    {
        self.items.push(item)?;
        Ok(())
    }

    /// How many fields there are.
    pub fn len(&self) -> usize
        ensures { result ≡ length (fields_of self.now) }
    {
        self.items.len()
    }

    /// The field at a place.
    #[tactic(auto, using(crate::proofs::Views::fields_get))]
    pub fn get(&self, i: usize) -> &Field
        requires { i < length (fields_of self.now) }
        ensures item { slice_get (fields_of self.now) i ≡ Some (field_of result.now) }
        ensures below { FieldBelow result.now self.now }
    {
        &self.items[i]
    }
}
