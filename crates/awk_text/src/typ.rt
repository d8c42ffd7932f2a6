//! The texts of types.
ghost use Rattle.std.specs.Prelude.{◌≡◌, ◌++◌, IsTrue, codes};
ghost use Rattle.awk_edge.specs.Causes.{HasCause};
ghost use Rattle.awk_edge.specs.Put.{Moves};
ghost use Rattle.awk_types.specs.DataType.{types_from};
ghost use Rattle.awk_types.specs.View.{typ_of, typs_of, field_of, fields_of, names_of, types_of};
ghost use Rattle.awk_layout.specs.Datum.{datum_of};
ghost use Rattle.awk_form.specs.FormText.{primitive_text};
ghost use Rattle.awk_text.specs.TypeText.{type_text, type_texts, size_text};
ghost use Rattle.awk_text.specs.TypeText.{enclosed, field_type_texts, named_type_text};
ghost use Rattle.awk_text.specs.TypeText.{name_text, is_word as word, is_bare as bare};
ghost use Rattle.awk_text.specs.TypeText.{option_opening as opening};
ghost use Rattle.awk_text.specs.TypeText.{option_close as close, datum_type_text};

use awk_edge::{Out, Sink, WriteFault};
use awk_json::{write_number, write_separator, write_text};
use awk_layout::Datum;
use awk_types::{Field, Fields, Name, Prim, Typ, Typs, is_list};

/// Puts the type of a datum: that of an array behind its length, that of a single value alone.
pub fn write_type<K: Sink>(x: &Datum<'_>, out: &mut Out, sink: &mut K) -> Result<(), WriteFault>
    requires open { IsTrue out.old.is_open }
    ensures bytes { Moves (K.written sink.old) (K.written sink.new) out.new
        (out.old.held ++ datum_type_text (datum_of x.now)) result }
    ensures flushes { K.flushes sink.new ≡ K.flushes sink.old }
    ensures cause { HasCause (K.faults sink.old) (K.faults sink.new) result }
{
    match x {
        Datum::Arr(array) => {
            write_size(array.len(), out, sink)?;
            write_typ(array.typ(), out, sink)
        }
        Datum::One(array) => write_typ(array.typ(), out, sink),
    }
}

/// Puts the text of a type.
#[cycle(typ)]
fn write_typ<K: Sink>(typ: &Typ, out: &mut Out, sink: &mut K) -> Result<(), WriteFault>
    requires open { IsTrue out.old.is_open }
    ensures bytes { Moves (K.written sink.old) (K.written sink.new) out.new
        (out.old.held ++ type_text (typ_of typ.now)) result }
    ensures flushes { K.flushes sink.new ≡ K.flushes sink.old }
    ensures cause { HasCause (K.faults sink.old) (K.faults sink.new) result }
{
    match typ {
        Typ::Unknown => out.put(sink, b"unknown"),
        Typ::Leaf(prim) => out.put(sink, primitive_name(*prim)),
        Typ::Var(item) => {
            out.put(sink, b"var * ")?;
            write_typ(item, out, sink)
        }
        Typ::Reg(size, item) => {
            write_size(*size, out, sink)?;
            write_typ(item, out, sink)
        }
        Typ::Rec(fields) => write_fields(fields, out, sink),
        Typ::Tup(parts) => write_types(parts, b"(", b")", out, sink),
        Typ::Opt(item) => {
            out.put(sink, option_opening(item))?;
            write_typ(item, out, sink)?;
            out.put(sink, option_close(item))
        }
        Typ::Uni(alternatives) => write_types(alternatives, b"union[", b"]", out, sink),
    }
}

/// Puts types between two brackets.
#[cycle(typ)]
fn write_types<K: Sink>(
    types: &Typs,
    opening: &[u8],
    close: &[u8],
    out: &mut Out,
    sink: &mut K,
) -> Result<(), WriteFault>
    requires open { IsTrue out.old.is_open }
    ensures bytes { Moves (K.written sink.old) (K.written sink.new) out.new
        (out.old.held
        ++ enclosed opening.now (type_texts (types_from (typs_of types.now))) close.now) result }
    ensures flushes { K.flushes sink.new ≡ K.flushes sink.old }
    ensures cause { HasCause (K.faults sink.old) (K.faults sink.new) result }
{
    out.put(sink, opening)?;
    for k in 0..types.len() {
        write_separator(out, sink, b", ", k == 0)?;
        write_typ(types.get(k), out, sink)?;
    }
    out.put(sink, close)
}

/// Puts the fields of a record, in braces.
#[cycle(typ)]
fn write_fields<K: Sink>(fields: &Fields, out: &mut Out, sink: &mut K) -> Result<(), WriteFault>
    requires open { IsTrue out.old.is_open }
    ensures bytes { let named = fields_of fields.now in
        let texts = field_type_texts (names_of named) (type_texts (types_of named)) in
        Moves (K.written sink.old) (K.written sink.new) out.new
        (out.old.held ++ enclosed (codes "{") texts (codes "}")) result }
    ensures flushes { K.flushes sink.new ≡ K.flushes sink.old }
    ensures cause { HasCause (K.faults sink.old) (K.faults sink.new) result }
{
    out.put(sink, b"{")?;
    for k in 0..fields.len() {
        write_separator(out, sink, b", ", k == 0)?;
        write_field_type(fields.get(k), out, sink)?;
    }
    out.put(sink, b"}")
}

/// Puts a field: its name and its type.
#[cycle(typ)]
fn write_field_type<K: Sink>(field: &Field, out: &mut Out, sink: &mut K) -> Result<(), WriteFault>
    requires open { IsTrue out.old.is_open }
    ensures bytes { Moves (K.written sink.old) (K.written sink.new) out.new
        (out.old.held ++ named_type_text (field_of field.now)) result }
    ensures flushes { K.flushes sink.new ≡ K.flushes sink.old }
    ensures cause { HasCause (K.faults sink.old) (K.faults sink.new) result }
{
    write_field_name(&field.name, out, sink)?;
    out.put(sink, b": ")?;
    write_typ(&field.typ, out, sink)
}

/// Puts the name of a field, in quotes where it may not stand bare.
fn write_field_name<K: Sink>(name: &Name, out: &mut Out, sink: &mut K) -> Result<(), WriteFault>
    requires open { IsTrue out.old.is_open }
    ensures bytes { Moves (K.written sink.old) (K.written sink.new) out.new
        (out.old.held ++ name_text name.now) result }
    ensures flushes { K.flushes sink.new ≡ K.flushes sink.old }
    ensures cause { HasCause (K.faults sink.old) (K.faults sink.new) result }
{
    let text = name.as_str();
    if is_bare(text.as_bytes()) {
        out.put(sink, text.as_bytes())
    } else {
        write_text(out, sink, text)
    }
}

/// Puts the length of a list, before the type of its items.
fn write_size<K: Sink>(size: u64, out: &mut Out, sink: &mut K) -> Result<(), WriteFault>
    requires open { IsTrue out.old.is_open }
    ensures bytes { Moves (K.written sink.old) (K.written sink.new) out.new
        (out.old.held ++ size_text size) result }
    ensures flushes { K.flushes sink.new ≡ K.flushes sink.old }
    ensures cause { HasCause (K.faults sink.old) (K.faults sink.new) result }
{
    write_number(out, sink, size)?;
    out.put(sink, b" * ")
}

/// Whether a name stands as it is: letters, digits and `_`, beginning with no digit.
fn is_bare(name: &[u8]) -> bool
    ensures { result ≡ bare name.now }
{
    if name.is_empty() {
        return false;
    }
    !name[0].is_ascii_digit() && name.iter().all(|byte| is_word(*byte))
}

fn is_word(byte: u8) -> bool
    ensures { result ≡ word byte }
{
    byte.is_ascii_alphanumeric() || byte == b'_'
}

/// What stands before the type of an option's values.
fn option_opening(typ: &Typ) -> &'static [u8]
    ensures { result.now ≡ opening (typ_of typ.now) }
{
    if is_list(typ) { b"option[" } else { b"?" }
}

/// What stands behind the type of an option's values.
fn option_close(typ: &Typ) -> &'static [u8]
    ensures { result.now ≡ close (typ_of typ.now) }
{
    if is_list(typ) { b"]" } else { b"" }
}

fn primitive_name(prim: Prim) -> &'static [u8]
    ensures { result.now ≡ primitive_text prim }
{
    match prim {
        Prim::Bool => b"bool",
        Prim::I8 => b"int8",
        Prim::I16 => b"int16",
        Prim::I32 => b"int32",
        Prim::I64 => b"int64",
        Prim::U8 => b"uint8",
        Prim::U16 => b"uint16",
        Prim::U32 => b"uint32",
        Prim::U64 => b"uint64",
    }
}
