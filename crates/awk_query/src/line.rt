//! Lines of a session, read from their bytes.
ghost use Rattle.std.specs.Prelude.{◌≡◌, ◌≢◌, List, ℕ, IfOk, option_map, is_some, Some};
ghost use Rattle.std.specs.BTreeMap.{values};
ghost use Rattle.std.specs.List.{list_all};
ghost use Rattle.awk_types.specs.Gives.{Gives};
ghost use Rattle.serde_json.specs.Find.{get_member, as_str};
ghost use Rattle.serde_json.specs.View.{view, members_view};
ghost use Rattle.awk_expr.specs.Reading.{expr_said};
ghost use Rattle.awk_expr.specs.Told.{unread_told, Reads};
ghost use Rattle.awk_query.specs.AllowedLine.{IsAllowedLine};
ghost use Rattle.awk_query.specs.Line as lines;
ghost use Rattle.awk_query.specs.Line.{line_said, json_said, line_of, if_version_2, ordered_in};
ghost use Rattle.awk_query.specs.Line.{load_with, texts_in, raw_in, pair_in, bind_in, values_in};
ghost use Rattle.awk_query.specs.Line.{alone_in, first_in, session_from, single_in, names_from};
ghost use Rattle.awk_query.specs.Line.{name_at, text_at, count_at, texts_at, order_at, order_of};
ghost use Rattle.awk_query.specs.Line.{if_list, show, type_of, pack};
ghost use Rattle.awk_query.specs.LineView.{line_view};

use crate::parts::parts;
use crate::reading::{RawParts, Reading};
use awk_expr::{Expr, QueryFault, read_expr};
use awk_types::Name;
use serde_json::{Map, Value};
use std::alloc::Global;

/// A line of a session.
#[derive(Drop)]
pub enum Line {
    /// Binds a name to what a form, a length and the texts of buffers by their keys load. `big`
    /// says that the most significant byte of a number comes first.
    Load {
        name: Name,
        form: Value,
        length: u64,
        big: bool,
        buffers: Map<String, Value>,
    },
    /// The same, where the bytes of the buffers follow the line.
    LoadRaw {
        name: Name,
        form: Value,
        length: u64,
        big: bool,
        parts: RawParts,
    },
    /// Begins version 2 of the session.
    Session,
    /// Binds a name to what an expression evaluates to.
    Let {
        name: Name,
        be: Expr,
    },
    /// Binds a name to the array of a JSON list.
    Values {
        name: Name,
        from: Value,
    },
    /// Prints the value of an expression.
    Show(Expr),
    /// Prints the type of an expression.
    TypeOf(Expr),
    /// Prints the packed buffers of an expression.
    Pack(Expr),
    /// Lists the bound names.
    Names,
}

/// The line that bytes are, by how it is read where it stands: `Json` where they are no JSON text,
/// `Query` where its value is no line.
pub fn read_line(alloc: Global, bytes: &[u8], reading: Reading) -> Result<Line, QueryFault>
    ensures line { Gives line_view unread_told result (line_said reading bytes.now) }
    ensures allowed { IfOk result (λ line. IsAllowedLine (line_view line)) }
{
    let value = parse(alloc, bytes)?;
    line_in(alloc, value, reading)
}

// The value that `serde_json` reads.
fn parse(alloc: Global, bytes: &[u8]) -> Result<Value, QueryFault>
    ensures { Gives view unread_told result (json_said bytes.now) }
{
    match Value::from_slice(alloc, bytes) {
        Ok(value) => Ok(value),
        Err(fault) => {
            if fault.is_memory() {
                return Err(QueryFault::NoMemory);
            }
            Err(QueryFault::Json)
        }
    }
}

// The line that a value is.
fn line_in(alloc: Global, value: Value, reading: Reading) -> Result<Line, QueryFault>
    ensures { Reads line_view result (line_of reading (view value)) }
{
    let Value::Object(members) = value else {
        return Err(QueryFault::Query);
    };
    let count = members.len();
    if count == 5 {
        return line_of_two(alloc, members, reading);
    }
    if count == 4 {
        return load_line(alloc, members, false);
    }
    if count == 2 {
        return pair_line(alloc, members);
    }
    if count == 1 {
        return alone_line(alloc, &members, reading);
    }
    Err(QueryFault::Query)
}

// A load line that says its order of bytes, where version 2 is read.
fn line_of_two(
    alloc: Global,
    members: Map<String, Value>,
    reading: Reading,
) -> Result<Line, QueryFault>
    ensures { let ms = members_view members.entries in
        Reads line_view result (if_version_2 reading (ordered_in ms)) }
{
    match reading {
        Reading::Two => ordered_line(alloc, members),
        _ => Err(QueryFault::Query),
    }
}

fn ordered_line(alloc: Global, members: Map<String, Value>) -> Result<Line, QueryFault>
    ensures { Reads line_view result (ordered_in (members_view members.entries)) }
{
    let Some(big) = order_in(&members, "byteorder") else {
        return Err(QueryFault::Query);
    };
    if member(&members, "buffers").is_some() {
        return load_line(alloc, members, big);
    }
    raw_line(alloc, members, big)
}

fn load_line(alloc: Global, members: Map<String, Value>, big: bool) -> Result<Line, QueryFault>
    ensures { let ms = members_view members.entries in
        Reads line_view result (load_with (Some big) (texts_in ms) ms) }
{
    let mut members = members;
    let name = name_in(alloc, &members, "load")?;
    let Some(length) = count_in(&members, "length") else {
        return Err(QueryFault::Query);
    };
    let Some(form) = take(&mut members, "form") else {
        return Err(QueryFault::Query);
    };
    let Some(buffers) = take_texts(&mut members, "buffers") else {
        return Err(QueryFault::Query);
    };
    Ok(Line::Load {
        name,
        form,
        length,
        big,
        buffers,
    })
}

fn raw_line(alloc: Global, members: Map<String, Value>, big: bool) -> Result<Line, QueryFault>
    ensures { let ms = members_view members.entries in
        Reads line_view result (load_with (Some big) (raw_in ms) ms) }
{
    let mut members = members;
    let name = name_in(alloc, &members, "load")?;
    let Some(length) = count_in(&members, "length") else {
        return Err(QueryFault::Query);
    };
    let Some(form) = take(&mut members, "form") else {
        return Err(QueryFault::Query);
    };
    let parts = parts_at(alloc, &members, "raw")?;
    Ok(Line::LoadRaw {
        name,
        form,
        length,
        big,
        parts,
    })
}

// A line of two members.
fn pair_line(alloc: Global, members: Map<String, Value>) -> Result<Line, QueryFault>
    ensures { Reads line_view result (pair_in (members_view members.entries)) }
{
    if member(&members, "values").is_some() {
        return values_line(alloc, members);
    }
    let_line(alloc, &members)
}

fn let_line(alloc: Global, members: &Map<String, Value>) -> Result<Line, QueryFault>
    ensures { Reads line_view result (bind_in (members_view members.now.entries)) }
{
    let name = name_in(alloc, members, "let")?;
    let Some(value) = member(members, "be") else {
        return Err(QueryFault::Query);
    };
    let be = read_expr(alloc, value)?;
    Ok(Line::Let { name, be })
}

fn values_line(alloc: Global, members: Map<String, Value>) -> Result<Line, QueryFault>
    ensures { Reads line_view result (values_in (members_view members.entries)) }
{
    let mut members = members;
    let name = name_in(alloc, &members, "values")?;
    let Some(from) = take(&mut members, "from") else {
        return Err(QueryFault::Query);
    };
    if !is_list(&from) {
        return Err(QueryFault::Query);
    }
    Ok(Line::Values { name, from })
}

// A line of one member, by how it is read.
fn alone_line(
    alloc: Global,
    members: &Map<String, Value>,
    reading: Reading,
) -> Result<Line, QueryFault>
    ensures { Reads line_view result (alone_in reading (members_view members.now.entries)) }
{
    match reading {
        Reading::First => first_line(alloc, members),
        _ => single_line(alloc, members),
    }
}

fn first_line(alloc: Global, members: &Map<String, Value>) -> Result<Line, QueryFault>
    ensures { Reads line_view result (first_in (members_view members.now.entries)) }
{
    match member(members, "session") {
        Some(value) => session_line(value),
        None => single_line(alloc, members),
    }
}

fn session_line(value: &Value) -> Result<Line, QueryFault>
    ensures { Reads line_view result (session_from (view value.now)) }
{
    match value.as_u64() {
        Some(2) => Ok(Line::Session),
        _ => Err(QueryFault::Query),
    }
}

// A line of one member, by its key.
fn single_line(alloc: Global, members: &Map<String, Value>) -> Result<Line, QueryFault>
    ensures { Reads line_view result (single_in (members_view members.now.entries)) }
{
    if let Some(value) = member(members, "show") {
        return show_line(alloc, value);
    }
    if let Some(value) = member(members, "type") {
        return type_line(alloc, value);
    }
    if let Some(value) = member(members, "pack") {
        return pack_line(alloc, value);
    }
    if let Some(value) = member(members, "names") {
        return names_line(value);
    }
    Err(QueryFault::Query)
}

fn show_line(alloc: Global, value: &Value) -> Result<Line, QueryFault>
    ensures { Reads line_view result (option_map show (expr_said (view value.now))) }
{
    Ok(Line::Show(read_expr(alloc, value)?))
}

fn type_line(alloc: Global, value: &Value) -> Result<Line, QueryFault>
    ensures { Reads line_view result (option_map type_of (expr_said (view value.now))) }
{
    Ok(Line::TypeOf(read_expr(alloc, value)?))
}

fn pack_line(alloc: Global, value: &Value) -> Result<Line, QueryFault>
    ensures { Reads line_view result (option_map pack (expr_said (view value.now))) }
{
    Ok(Line::Pack(read_expr(alloc, value)?))
}

fn names_line(value: &Value) -> Result<Line, QueryFault>
    ensures { Reads line_view result (names_from (view value.now)) }
{
    if value.is_null() {
        return Ok(Line::Names);
    }
    Err(QueryFault::Query)
}

fn member<'v>(members: &'v Map<String, Value>, key: &str) -> Option<&'v Value>
    ensures { option_map (λ v. view v.now) result
        ≡ get_member key.now (members_view members.now.entries) }
{
    members.get(key)
}

// Takes the value of a key out. Those of other keys stay.
fn take(members: &mut Map<String, Value>, key: &str) -> Option<Value>
    ensures value { option_map view result
        ≡ get_member key.now (members_view members.old.entries) }
    ensures others { (other : List ℕ) → other ≢ key.now
        → get_member other (members_view members.new.entries)
        ≡ get_member other (members_view members.old.entries) }
{
    members.remove(key)
}

// Takes out the object of a key, if its members are all texts.
fn take_texts(members: &mut Map<String, Value>, key: &str) -> Option<Map<String, Value>>
    ensures { option_map (λ texts. members_view texts.entries) result
        ≡ texts_at key.now (members_view members.old.entries) }
{
    let Value::Object(texts) = take(members, key)? else {
        return None;
    };
    if all_texts(&texts) {
        return Some(texts);
    }
    None
}

// The text under a key, if it is not empty.
fn name_in(alloc: Global, members: &Map<String, Value>, key: &str) -> Result<Name, QueryFault>
    ensures { Reads (λ name. name) result (name_at key.now (members_view members.now.entries)) }
{
    let Some(name) = text_in(members, key) else {
        return Err(QueryFault::Query);
    };
    if name.is_empty() {
        return Err(QueryFault::Query);
    }
    Ok(Name::new(alloc, name)?)
}

fn text_in<'v>(members: &'v Map<String, Value>, key: &str) -> Option<&'v str>
    ensures { option_map (λ text. text.now) result
        ≡ text_at key.now (members_view members.now.entries) }
{
    member(members, key)?.as_str()
}

fn count_in(members: &Map<String, Value>, key: &str) -> Option<u64>
    ensures { result ≡ count_at key.now (members_view members.now.entries) }
{
    member(members, key)?.as_u64()
}

fn all_texts(members: &Map<String, Value>) -> bool
    ensures { result ≡ list_all (λ value. is_some (as_str (view value))) (values members.now) }
{
    members.values().all(|value| value.is_string())
}

// Whether the most significant byte comes first, by the text under a key.
fn order_in(members: &Map<String, Value>, key: &str) -> Option<bool>
    ensures { result ≡ order_at key.now (members_view members.now.entries) }
{
    order(text_in(members, key)?)
}

fn order(text: &str) -> Option<bool>
    ensures { result ≡ order_of text.now }
{
    if text == "<" {
        return Some(false);
    }
    if text == ">" {
        return Some(true);
    }
    None
}

// The buffers that a list under a key names, no key twice.
fn parts_at(alloc: Global, members: &Map<String, Value>, key: &str) -> Result<RawParts, QueryFault>
    ensures { Reads (λ made. made) result
        (lines.parts_at key.now (members_view members.now.entries)) }
{
    match member(members, key) {
        Some(value) => parts(alloc, value),
        None => Err(QueryFault::Query),
    }
}

fn is_list(value: &Value) -> bool
    ensures { result ≡ is_some (if_list (view value.now)) }
{
    match value {
        Value::Array(_) => true,
        _ => false,
    }
}
