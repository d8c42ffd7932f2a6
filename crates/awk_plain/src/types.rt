//! The types of plain values, and the first limit that one of them passes.
ghost use Rattle.std.specs.Prelude.{◌≡◌};
ghost use Rattle.awk_types.specs.DataType.{unknown};
ghost use Rattle.awk_types.specs.Gives.{Gives, refused_or};
ghost use Rattle.awk_types.specs.Limit.{limit_told, within};
ghost use Rattle.awk_types.specs.Simple.{IsSimple};
ghost use Rattle.awk_types.specs.View.{typ_of, fields_of};
ghost use Rattle.serde_json.specs.View.{view, items_view, members_view};
ghost use Rattle.awk_plain.specs.Plain as spec;
ghost use Rattle.awk_plain.specs.Plain.{first_limit, items_made, members_made, types_made};
ghost use Rattle.awk_plain.specs.Types.{fields_in};

use crate::suits::suits;
use awk_types::{Field, Fields, Name, Prim, Typ, TypeFault, simple_of};
use awk_unify::unify;
use serde_json::{Map, Value};
use std::alloc::Global;

/// A simple type, or the limit that it passes.
pub(crate) fn judged_type(alloc: Global, t: Typ) -> Result<Typ, TypeFault>
    requires { IsSimple (typ_of t) }
    ensures { Gives typ_of limit_told result (within (typ_of t)) }
{
    simple_of(alloc, t)
}

/// The type of a value, or the limit that the first type passes that is made.
#[cycle(typ)]
pub(crate) fn type_of(alloc: Global, value: &Value) -> Result<Typ, TypeFault>
    ensures { let d = view value.now in
        Gives typ_of limit_told result
        (refused_or (first_limit (types_made d)) (spec.plain_type d)) }
{
    match value {
        Value::Null => Ok(Typ::Opt(Box::new(alloc, Typ::Unknown)?)),
        Value::Bool(_) => Ok(Typ::Leaf(Prim::Bool)),
        Value::Number(_) => Ok(Typ::Leaf(Prim::I64)),
        Value::String(_) => Ok(Typ::Unknown),
        Value::Array(items) => {
            let item = items_type(alloc, items)?;
            judged_type(alloc, Typ::Var(Box::new(alloc, item)?))
        }
        Value::Object(members) => {
            let fields = member_types(alloc, members)?;
            judged_type(alloc, Typ::Rec(fields))
        }
    }
}

/// The type that those of all items unify to from the left.
#[cycle(typ)]
pub(crate) fn items_type(alloc: Global, items: &Vec<Value>) -> Result<Typ, TypeFault>
    ensures { let ds = items_view items.now.items in
        Gives typ_of limit_told result
        (refused_or (first_limit (items_made unknown ds)) (spec.items_type unknown ds)) }
{
    let mut typ = Typ::Unknown;
    for item in items {
        if suits(&typ, item) {
            continue;
        }
        let one = type_of(alloc, item)?;
        typ = unify(alloc, &typ, &one)?.typ;
    }
    Ok(typ)
}

/// The fields of a record of members.
#[cycle(typ)]
fn member_types(alloc: Global, members: &Map<String, Value>) -> Result<Fields, TypeFault>
    ensures { let ms = members_view members.now.entries in
        Gives fields_of limit_told result
        (refused_or (first_limit (members_made ms)) (fields_in ms)) }
{
    let mut fields = Fields::new(alloc);
    for (key, member) in members.iter() {
        let typ = type_of(alloc, member)?;
        let name = Name::new(alloc, key.as_str())?;
        fields.push(Field { name, typ })?;
    }
    Ok(fields)
}
