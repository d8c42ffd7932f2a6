//! Whether values are of a type as they stand.
ghost use Rattle.std.specs.Prelude.{◌≡◌, ◌≤◌, ◌&&◌, string_bytes, true};
ghost use Rattle.awk_types.specs.Has.{Holds};
ghost use Rattle.awk_types.specs.Simple as simple;
ghost use Rattle.awk_types.specs.View.{typ_of, field_of, fields_of};
ghost use Rattle.awk_types.specs.declared.primitive.Primitive.TheVariants as Prims;
ghost use Rattle.awk_types.specs.declared.typ.Typ.{size-Typ};
ghost use Rattle.serde_json.specs.View.{view, number_view, items_view, members_view};
ghost use Rattle.awk_plain.specs.IsPlain.{ArePlain, HavePlain, IsPlain};
ghost use Rattle.awk_plain.specs.Plain.{number_in, names_in};
ghost use Rattle.awk_plain.specs.Suits as spec;
ghost use Rattle.awk_types.specs.Names.{AreDistinct, same_name};

use awk_types::{Field, Fields, Prim, Typ, is_optional};
use serde_json::{Map, Number, Value};

/// Whether a number is a whole one that fits int64.
fn is_int64(number: &Number) -> bool
    ensures value { result ≡ spec.is_int64 (number_view number.now) }
    ensures held { result ≡ true → Holds Prims.I64 (number_in (number_view number.now)) }
{
    match number.as_i64() {
        Some(_) => true,
        None => false,
    }
}

/// A type without its option.
fn present(typ: &Typ) -> &Typ
    ensures item { typ_of result.now ≡ simple.present (typ_of typ.now) }
    ensures within { size-Typ result.now ≤ size-Typ typ.now }
{
    match typ {
        Typ::Opt(t) => t,
        _ => typ,
    }
}

/// Whether a type is that of a primitive.
fn is_of(prim: Prim, typ: &Typ) -> bool
    ensures { result ≡ spec.is_of prim (typ_of typ.now) }
{
    match typ {
        Typ::Leaf(p) => *p == prim,
        _ => false,
    }
}

/// Whether a value is of a type as it stands: none in it is carried.
#[cycle(suit)]
pub fn suits(typ: &Typ, value: &Value) -> bool
    ensures value { result ≡ spec.suits (typ_of typ.now) (view value.now) }
    ensures plain { result ≡ true → IsPlain (view value.now) }
{
    match value {
        Value::Null => is_optional(typ),
        Value::Bool(_) => is_of(Prim::Bool, present(typ)),
        Value::Number(number) => is_of(Prim::I64, present(typ)) && is_int64(number),
        Value::String(_) => false,
        Value::Array(items) => match present(typ) {
            Typ::Var(item) => all_suit(item, items),
            _ => false,
        },
        Value::Object(members) => match present(typ) {
            Typ::Rec(fields) => members_suit(fields, members),
            _ => false,
        },
    }
}

/// Whether all items are of a type as they stand.
#[cycle(suit)]
pub fn all_suit(typ: &Typ, items: &Vec<Value>) -> bool
    ensures value { result ≡ spec.all_suit (typ_of typ.now) (items_view items.now.items) }
    ensures plain { result ≡ true → ArePlain (items_view items.now.items) }
{
    for item in items {
        if !suits(typ, item) {
            return false;
        }
    }
    true
}

/// Whether members have the names of fields, and each is of its type as it stands.
#[cycle(suit)]
fn members_suit(fields: &Fields, members: &Map<String, Value>) -> bool
    ensures value { result
        ≡ spec.fields_suit (fields_of fields.now) (members_view members.now.entries) }
    ensures plain { let ms = members_view members.now.entries in
        result ≡ true → AreDistinct (names_in ms) × HavePlain ms }
{
    let mut i = 0;
    for (key, member) in members.iter() {
        if i == fields.len() {
            return false;
        }
        if !member_suits(fields.get(i), key, member) {
            return false;
        }
        i += 1;
    }
    i == fields.len()
}

/// Whether a member has the name of a field, and is of its type as it stands.
#[cycle(suit)]
fn member_suits(field: &Field, key: &String, member: &Value) -> bool
    ensures value { let f = field_of field.now in
        result ≡ (same_name f.name (string_bytes key.now) && spec.suits f.typ (view member.now)) }
    ensures plain { result ≡ true → IsPlain (view member.now) }
{
    field.name.as_str() == key.as_str() && suits(&field.typ, member)
}
