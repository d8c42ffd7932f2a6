//! Copies of types.
ghost use Rattle.std.specs.Prelude.{◌≡◌, IfOk};
ghost use Rattle.awk_types.specs.View.{typ_of, fields_of, typs_of};

use crate::name::NoMemory;
use crate::typ::{Field, Fields, Typ, Typs};
use std::alloc::Global;

/// An equal type.
#[cycle(copy)]
pub fn copy_type(alloc: Global, t: &Typ) -> Result<Typ, NoMemory>
    ensures { IfOk result (λ c. typ_of c ≡ typ_of t.now) }
{
    match t {
        Typ::Unknown => Ok(Typ::Unknown),
        Typ::Leaf(p) => Ok(Typ::Leaf(*p)),
        Typ::Var(item) => Ok(Typ::Var(Box::new(alloc, copy_type(alloc, item)?)?)),
        Typ::Reg(n, item) => Ok(Typ::Reg(*n, Box::new(alloc, copy_type(alloc, item)?)?)),
        Typ::Rec(fields) => Ok(Typ::Rec(fields.copy(alloc)?)),
        Typ::Tup(parts) => Ok(Typ::Tup(parts.copy(alloc)?)),
        Typ::Opt(item) => Ok(Typ::Opt(Box::new(alloc, copy_type(alloc, item)?)?)),
        Typ::Uni(alternatives) => Ok(Typ::Uni(alternatives.copy(alloc)?)),
    }
}

impl Typs {
    /// Equal types.
    #[cycle(copy)]
    pub fn copy(&self, alloc: Global) -> Result<Typs, NoMemory>
        ensures { IfOk result (λ c. typs_of c ≡ typs_of self.now) }
    {
        let mut made = Typs::new(alloc);
        for t in &self.items {
            made.push(copy_type(alloc, t)?)?;
        }
        Ok(made)
    }
}

impl Fields {
    /// Equal fields.
    #[cycle(copy)]
    pub fn copy(&self, alloc: Global) -> Result<Fields, NoMemory>
        ensures { IfOk result (λ c. fields_of c ≡ fields_of self.now) }
    {
        let mut made = Fields::new(alloc);
        for field in &self.items {
            let name = field.name.copy(alloc)?;
            let typ = copy_type(alloc, &field.typ)?;
            made.push(Field { name, typ })?;
        }
        Ok(made)
    }
}
