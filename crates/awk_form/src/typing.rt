//! The types of forms.
ghost use Rattle.std.specs.Prelude.{◌≡◌, length, map, IfOk};
ghost use Rattle.awk_types.specs.DataType.{leaf, types_from, row_type};
ghost use Rattle.awk_types.specs.Gives.{Gives};
ghost use Rattle.awk_types.specs.Limit.{limit_told, within};
ghost use Rattle.awk_types.specs.Simple.{simple};
ghost use Rattle.awk_types.specs.View.{typ_of, typs_of, names_of, fields_of};
ghost use Rattle.awk_form.specs.FormType.{type_of, shaped};
ghost use Rattle.awk_form.specs.Lawful.{IsLawful, AreLawful, AreNamesOf};
ghost use Rattle.awk_form.specs.FormTree.{forms_from};
ghost use Rattle.awk_form.specs.View.{form_of, forms_of};

use crate::dims::Dims;
use crate::form::{Form, Forms, Shape};
use awk_types::{Fields, Names, NoMemory, Prim, Typ, TypeFault, Typs, simple_of};
use std::alloc::Global;

/// A form with the simple type of its items.
#[derive(Debug, Drop)]
pub struct TypedForm {
    pub form: Form,
    pub typ: Typ,
}

/// The simple type of the items of a form.
pub fn type_of_form(alloc: Global, form: &Form) -> Result<Typ, TypeFault>
    requires { IsLawful (form_of form.now) }
    ensures { Gives typ_of limit_told result (within (simple (type_of (form_of form.now)))) }
{
    simple_of(alloc, item_type(alloc, form)?)
}

/// The type of the items of a form, as it is written.
#[cycle(item_type)]
fn item_type(alloc: Global, form: &Form) -> Result<Typ, NoMemory>
    requires { IsLawful (form_of form.now) }
    ensures { IfOk result (λ t. typ_of t ≡ type_of (form_of form.now)) }
{
    match &form.shape {
        Shape::Empty => Ok(Typ::Unknown),
        Shape::Numpy { prim, inner } => shaped_type(alloc, inner, *prim),
        Shape::Regular { size, content } => Ok(Typ::Reg(
            *size,
            Box::new(alloc, item_type(alloc, content)?)?,
        )),
        Shape::List { content, .. } => Ok(Typ::Var(Box::new(alloc, item_type(alloc, content)?)?)),
        Shape::ListOffset { content, .. } => Ok(Typ::Var(Box::new(
            alloc,
            item_type(alloc, content)?,
        )?)),
        Shape::Row { names, contents } => row(alloc, names, contents),
        Shape::Indexed { content, .. } => item_type(alloc, content),
        Shape::IndexedOption { content, .. } => Ok(Typ::Opt(Box::new(
            alloc,
            item_type(alloc, content)?,
        )?)),
        Shape::ByteMasked { content, .. } => Ok(Typ::Opt(Box::new(
            alloc,
            item_type(alloc, content)?,
        )?)),
        Shape::BitMasked { content, .. } => Ok(Typ::Opt(Box::new(
            alloc,
            item_type(alloc, content)?,
        )?)),
        Shape::Unmasked { content } => Ok(Typ::Opt(Box::new(alloc, item_type(alloc, content)?)?)),
        Shape::Union { contents, .. } => Ok(Typ::Uni(item_types(alloc, contents)?)),
    }
}

/// The type of a record, or of a tuple where there are no names.
#[cycle(item_type)]
fn row(alloc: Global, names: &Option<Names>, contents: &Forms) -> Result<Typ, NoMemory>
    requires names { AreNamesOf (forms_from (forms_of contents.now)) names.now }
    requires lawful { AreLawful (forms_from (forms_of contents.now)) }
    ensures { IfOk result (λ t. typ_of t
        ≡ row_type names.now (types_from (map type_of (forms_of contents.now)))) }
{
    match names {
        None => Ok(Typ::Tup(item_types(alloc, contents)?)),
        Some(names) => Ok(Typ::Rec(Fields::named(alloc, names, item_types(alloc, contents)?)?)),
    }
}

/// The types of the items of forms.
#[cycle(item_type)]
fn item_types(alloc: Global, forms: &Forms) -> Result<Typs, NoMemory>
    requires { AreLawful (forms_from (forms_of forms.now)) }
    ensures { IfOk result (λ ts. typs_of ts ≡ map type_of (forms_of forms.now)) }
{
    let mut types = Typs::new(alloc);
    for form in &forms.items {
        types.push(item_type(alloc, form)?)?;
    }
    Ok(types)
}

/// The regular lists of an inner shape.
fn shaped_type(alloc: Global, inner: &Dims, prim: Prim) -> Result<Typ, NoMemory>
    ensures { IfOk result (λ t. typ_of t ≡ shaped inner.now (leaf prim)) }
{
    let mut typ = Typ::Leaf(prim);
    for i in (0..inner.len()).rev() {
        typ = Typ::Reg(*inner.get(i), Box::new(alloc, typ)?);
    }
    Ok(typ)
}
