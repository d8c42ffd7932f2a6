//! The texts of forms.
ghost use Rattle.std.specs.Prelude.{◌≡◌, ◌++◌, IsTrue, Option, codes, decimal, map};
ghost use Rattle.awk_edge.specs.Causes.{HasCause};
ghost use Rattle.awk_edge.specs.Put.{Moves};
ghost use Rattle.awk_json.specs.Text.{quoted, list_text, truth_text};
ghost use Rattle.awk_types.specs.DataType.{Name as Key};
ghost use Rattle.awk_form.specs.FormText.{kind_text, primitive_text, fields_text, key_text, member};
ghost use Rattle.awk_form.specs.FormText.{word, class_text, class_member, members_text, end_text};
ghost use Rattle.awk_form.specs.FormText.{contents_text, form_text};
ghost use Rattle.awk_form.specs.View.{form_of, forms_of, keyed};

use crate::dims::Dims;
use crate::form::{Form, Forms, Shape};
use crate::kind::IndexKind;
use awk_edge::{Out, Sink, WriteFault};
use awk_json::{write_comma, write_number, write_pieces, write_text};
use awk_types::{Name, Names, Prim};

/// Puts the text of a form: the class, its keys in order, empty parameters and the form key.
#[cycle(write)]
pub fn write_form<K: Sink>(form: &Form, out: &mut Out, sink: &mut K) -> Result<(), WriteFault>
    requires open { IsTrue out.old.is_open }
    ensures bytes { Moves (K.written sink.old) (K.written sink.new) out.new
        (out.old.held ++ form_text (form_of form.now)) result }
    ensures flushes { K.flushes sink.new ≡ K.flushes sink.old }
    ensures cause { HasCause (K.faults sink.old) (K.faults sink.new) result }
{
    write_class(form, out, sink)?;
    write_members(form, out, sink)?;
    write_contents(&form.shape, out, sink)?;
    write_end(&form.key, out, sink)
}

/// Puts the contents of a node, under their key.
#[cycle(write)]
fn write_contents<K: Sink>(shape: &Shape, out: &mut Out, sink: &mut K) -> Result<(), WriteFault>
    requires open { IsTrue out.old.is_open }
    ensures bytes { (key : Option Key) →
        Moves (K.written sink.old) (K.written sink.new) out.new
        (out.old.held ++ contents_text (keyed shape.now key)) result }
    ensures flushes { K.flushes sink.new ≡ K.flushes sink.old }
    ensures cause { HasCause (K.faults sink.old) (K.faults sink.new) result }
{
    match shape {
        Shape::Empty | Shape::Numpy { .. } => Ok(()),
        Shape::Regular { content, .. }
        | Shape::List { content, .. }
        | Shape::ListOffset { content, .. }
        | Shape::Indexed { content, .. }
        | Shape::IndexedOption { content, .. }
        | Shape::ByteMasked { content, .. }
        | Shape::BitMasked { content, .. }
        | Shape::Unmasked { content } => {
            out.put(sink, b",\"content\":")?;
            write_form(content, out, sink)
        }
        Shape::Row { contents, .. } | Shape::Union { contents, .. } => {
            out.put(sink, b",\"contents\":")?;
            write_forms(contents, out, sink)
        }
    }
}

/// Puts the list of the texts of forms.
#[cycle(write)]
fn write_forms<K: Sink>(forms: &Forms, out: &mut Out, sink: &mut K) -> Result<(), WriteFault>
    requires open { IsTrue out.old.is_open }
    ensures bytes { Moves (K.written sink.old) (K.written sink.new) out.new
        (out.old.held ++ list_text (map form_text (forms_of forms.now))) result }
    ensures flushes { K.flushes sink.new ≡ K.flushes sink.old }
    ensures cause { HasCause (K.faults sink.old) (K.faults sink.new) result }
{
    let mut is_first = true;
    out.put(sink, b"[")?;
    for form in &forms.items {
        write_comma(out, sink, is_first)?;
        write_form(form, out, sink)?;
        is_first = false;
    }
    out.put(sink, b"]")
}

/// Puts the object's start and the class.
fn write_class<K: Sink>(form: &Form, out: &mut Out, sink: &mut K) -> Result<(), WriteFault>
    requires open { IsTrue out.old.is_open }
    ensures bytes { Moves (K.written sink.old) (K.written sink.new) out.new
        (out.old.held ++ class_member (class_text (form_of form.now))) result }
    ensures flushes { K.flushes sink.new ≡ K.flushes sink.old }
    ensures cause { HasCause (K.faults sink.old) (K.faults sink.new) result }
{
    write_pieces(out, sink, &["{\"class\":\"", class_name(form), "\""])
}

fn class_name(form: &Form) -> &'static str
    ensures { result.now ≡ class_text (form_of form.now) }
{
    match &form.shape {
        Shape::Empty => "EmptyArray",
        Shape::Numpy { .. } => "NumpyArray",
        Shape::Regular { .. } => "RegularArray",
        Shape::List { .. } => "ListArray",
        Shape::ListOffset { .. } => "ListOffsetArray",
        Shape::Row { .. } => "RecordArray",
        Shape::Indexed { .. } => "IndexedArray",
        Shape::IndexedOption { .. } => "IndexedOptionArray",
        Shape::ByteMasked { .. } => "ByteMaskedArray",
        Shape::BitMasked { .. } => "BitMaskedArray",
        Shape::Unmasked { .. } => "UnmaskedArray",
        Shape::Union { .. } => "UnionArray",
    }
}

/// Puts the keys of a class that come before its contents.
fn write_members<K: Sink>(form: &Form, out: &mut Out, sink: &mut K) -> Result<(), WriteFault>
    requires open { IsTrue out.old.is_open }
    ensures bytes { Moves (K.written sink.old) (K.written sink.new) out.new
        (out.old.held ++ members_text (form_of form.now)) result }
    ensures flushes { K.flushes sink.new ≡ K.flushes sink.old }
    ensures cause { HasCause (K.faults sink.old) (K.faults sink.new) result }
{
    match &form.shape {
        Shape::Empty | Shape::Unmasked { .. } => Ok(()),
        Shape::Numpy { prim, inner } => write_numpy(*prim, inner, out, sink),
        Shape::Regular { size, .. } => write_regular(*size, out, sink),
        Shape::List { starts, stops, .. } => write_list(*starts, *stops, out, sink),
        Shape::ListOffset { offsets, .. } => write_kind("offsets", *offsets, out, sink),
        Shape::Row { names, .. } => write_row(names, out, sink),
        Shape::Indexed { index, .. } | Shape::IndexedOption { index, .. } => {
            write_kind("index", *index, out, sink)
        }
        Shape::ByteMasked { valid_when, .. } => write_byte_masked(*valid_when, out, sink),
        Shape::BitMasked {
            valid_when,
            lsb_order,
            ..
        } => write_bit_masked(*valid_when, *lsb_order, out, sink),
        Shape::Union { index, .. } => write_union(*index, out, sink),
    }
}

fn write_numpy<K: Sink>(
    prim: Prim,
    inner: &Dims,
    out: &mut Out,
    sink: &mut K,
) -> Result<(), WriteFault>
    requires open { IsTrue out.old.is_open }
    ensures bytes { Moves (K.written sink.old) (K.written sink.new) out.new
        (out.old.held ++ (member (codes "primitive") (word (primitive_text prim)) ++
        member (codes "inner_shape") (list_text (map decimal inner.now)))) result }
    ensures flushes { K.flushes sink.new ≡ K.flushes sink.old }
    ensures cause { HasCause (K.faults sink.old) (K.faults sink.new) result }
{
    write_word("primitive", primitive_name(prim), out, sink)?;
    out.put(sink, b",\"inner_shape\":")?;
    write_numbers(inner, out, sink)
}

fn write_regular<K: Sink>(size: u64, out: &mut Out, sink: &mut K) -> Result<(), WriteFault>
    requires open { IsTrue out.old.is_open }
    ensures bytes { Moves (K.written sink.old) (K.written sink.new) out.new
        (out.old.held ++ member (codes "size") (decimal size)) result }
    ensures flushes { K.flushes sink.new ≡ K.flushes sink.old }
    ensures cause { HasCause (K.faults sink.old) (K.faults sink.new) result }
{
    out.put(sink, b",\"size\":")?;
    write_number(out, sink, size)
}

fn write_list<K: Sink>(
    starts: IndexKind,
    stops: IndexKind,
    out: &mut Out,
    sink: &mut K,
) -> Result<(), WriteFault>
    requires open { IsTrue out.old.is_open }
    ensures bytes { Moves (K.written sink.old) (K.written sink.new) out.new
        (out.old.held ++ (member (codes "starts") (word (kind_text starts)) ++
        member (codes "stops") (word (kind_text stops)))) result }
    ensures flushes { K.flushes sink.new ≡ K.flushes sink.old }
    ensures cause { HasCause (K.faults sink.old) (K.faults sink.new) result }
{
    write_kind("starts", starts, out, sink)?;
    write_kind("stops", stops, out, sink)
}

fn write_row<K: Sink>(names: &Option<Names>, out: &mut Out, sink: &mut K) -> Result<(), WriteFault>
    requires open { IsTrue out.old.is_open }
    ensures bytes { Moves (K.written sink.old) (K.written sink.new) out.new
        (out.old.held ++ member (codes "fields") (fields_text names.now)) result }
    ensures flushes { K.flushes sink.new ≡ K.flushes sink.old }
    ensures cause { HasCause (K.faults sink.old) (K.faults sink.new) result }
{
    out.put(sink, b",\"fields\":")?;
    write_fields(names, out, sink)
}

/// Puts the list of field names, or null for a tuple.
fn write_fields<K: Sink>(
    names: &Option<Names>,
    out: &mut Out,
    sink: &mut K,
) -> Result<(), WriteFault>
    requires open { IsTrue out.old.is_open }
    ensures bytes { Moves (K.written sink.old) (K.written sink.new) out.new
        (out.old.held ++ fields_text names.now) result }
    ensures flushes { K.flushes sink.new ≡ K.flushes sink.old }
    ensures cause { HasCause (K.faults sink.old) (K.faults sink.new) result }
{
    match names {
        None => out.put(sink, b"null"),
        Some(names) => write_names(names, out, sink),
    }
}

fn write_byte_masked<K: Sink>(
    valid_when: bool,
    out: &mut Out,
    sink: &mut K,
) -> Result<(), WriteFault>
    requires open { IsTrue out.old.is_open }
    ensures bytes { Moves (K.written sink.old) (K.written sink.new) out.new
        (out.old.held ++ (member (codes "mask") (word (codes "i8")) ++
        member (codes "valid_when") (truth_text valid_when))) result }
    ensures flushes { K.flushes sink.new ≡ K.flushes sink.old }
    ensures cause { HasCause (K.faults sink.old) (K.faults sink.new) result }
{
    write_word("mask", "i8", out, sink)?;
    write_truth("valid_when", valid_when, out, sink)
}

fn write_bit_masked<K: Sink>(
    valid_when: bool,
    lsb_order: bool,
    out: &mut Out,
    sink: &mut K,
) -> Result<(), WriteFault>
    requires open { IsTrue out.old.is_open }
    ensures bytes { Moves (K.written sink.old) (K.written sink.new) out.new
        (out.old.held ++ (member (codes "mask") (word (codes "u8")) ++
        (member (codes "valid_when") (truth_text valid_when) ++
        member (codes "lsb_order") (truth_text lsb_order)))) result }
    ensures flushes { K.flushes sink.new ≡ K.flushes sink.old }
    ensures cause { HasCause (K.faults sink.old) (K.faults sink.new) result }
{
    write_word("mask", "u8", out, sink)?;
    write_truth("valid_when", valid_when, out, sink)?;
    write_truth("lsb_order", lsb_order, out, sink)
}

fn write_union<K: Sink>(index: IndexKind, out: &mut Out, sink: &mut K) -> Result<(), WriteFault>
    requires open { IsTrue out.old.is_open }
    ensures bytes { Moves (K.written sink.old) (K.written sink.new) out.new
        (out.old.held ++ (member (codes "tags") (word (codes "i8")) ++
        member (codes "index") (word (kind_text index)))) result }
    ensures flushes { K.flushes sink.new ≡ K.flushes sink.old }
    ensures cause { HasCause (K.faults sink.old) (K.faults sink.new) result }
{
    write_word("tags", "i8", out, sink)?;
    write_kind("index", index, out, sink)
}

/// Puts empty parameters and the form key, and ends the object.
fn write_end<K: Sink>(key: &Option<Name>, out: &mut Out, sink: &mut K) -> Result<(), WriteFault>
    requires open { IsTrue out.old.is_open }
    ensures bytes { Moves (K.written sink.old) (K.written sink.new) out.new
        (out.old.held ++ end_text key.now) result }
    ensures flushes { K.flushes sink.new ≡ K.flushes sink.old }
    ensures cause { HasCause (K.faults sink.old) (K.faults sink.new) result }
{
    out.put(sink, b",\"parameters\":{},\"form_key\":")?;
    write_key(key, out, sink)?;
    out.put(sink, b"}")
}

fn write_key<K: Sink>(key: &Option<Name>, out: &mut Out, sink: &mut K) -> Result<(), WriteFault>
    requires open { IsTrue out.old.is_open }
    ensures bytes { Moves (K.written sink.old) (K.written sink.new) out.new
        (out.old.held ++ key_text key.now) result }
    ensures flushes { K.flushes sink.new ≡ K.flushes sink.old }
    ensures cause { HasCause (K.faults sink.old) (K.faults sink.new) result }
{
    match key {
        None => out.put(sink, b"null"),
        Some(key) => write_text(out, sink, key.as_str()),
    }
}

/// Puts a list of names.
pub fn write_names<K: Sink>(names: &Names, out: &mut Out, sink: &mut K) -> Result<(), WriteFault>
    requires open { IsTrue out.old.is_open }
    ensures bytes { Moves (K.written sink.old) (K.written sink.new) out.new
        (out.old.held ++ list_text (map quoted names.now)) result }
    ensures flushes { K.flushes sink.new ≡ K.flushes sink.old }
    ensures cause { HasCause (K.faults sink.old) (K.faults sink.new) result }
{
    let mut is_first = true;
    out.put(sink, b"[")?;
    for i in 0..names.len() {
        write_comma(out, sink, is_first)?;
        write_text(out, sink, names.get(i).as_str())?;
        is_first = false;
    }
    out.put(sink, b"]")
}

fn write_numbers<K: Sink>(numbers: &Dims, out: &mut Out, sink: &mut K) -> Result<(), WriteFault>
    requires open { IsTrue out.old.is_open }
    ensures bytes { Moves (K.written sink.old) (K.written sink.new) out.new
        (out.old.held ++ list_text (map decimal numbers.now)) result }
    ensures flushes { K.flushes sink.new ≡ K.flushes sink.old }
    ensures cause { HasCause (K.faults sink.old) (K.faults sink.new) result }
{
    let mut is_first = true;
    out.put(sink, b"[")?;
    for n in &numbers.items {
        write_comma(out, sink, is_first)?;
        write_number(out, sink, *n)?;
        is_first = false;
    }
    out.put(sink, b"]")
}

/// Puts a key and the kind of an index.
fn write_kind<K: Sink>(
    name: &str,
    kind: IndexKind,
    out: &mut Out,
    sink: &mut K,
) -> Result<(), WriteFault>
    requires open { IsTrue out.old.is_open }
    ensures bytes { Moves (K.written sink.old) (K.written sink.new) out.new
        (out.old.held ++ member name.now (word (kind_text kind))) result }
    ensures flushes { K.flushes sink.new ≡ K.flushes sink.old }
    ensures cause { HasCause (K.faults sink.old) (K.faults sink.new) result }
{
    write_word(name, kind_name(kind), out, sink)
}

/// Puts a key and a truth value.
fn write_truth<K: Sink>(name: &str, b: bool, out: &mut Out, sink: &mut K) -> Result<(), WriteFault>
    requires open { IsTrue out.old.is_open }
    ensures bytes { Moves (K.written sink.old) (K.written sink.new) out.new
        (out.old.held ++ member name.now (truth_text b)) result }
    ensures flushes { K.flushes sink.new ≡ K.flushes sink.old }
    ensures cause { HasCause (K.faults sink.old) (K.faults sink.new) result }
{
    write_value(name, truth_name(b), out, sink)
}

/// Puts a key and a text that needs no escape.
fn write_word<K: Sink>(
    name: &str,
    text: &str,
    out: &mut Out,
    sink: &mut K,
) -> Result<(), WriteFault>
    requires open { IsTrue out.old.is_open }
    ensures bytes { Moves (K.written sink.old) (K.written sink.new) out.new
        (out.old.held ++ member name.now (word text.now)) result }
    ensures flushes { K.flushes sink.new ≡ K.flushes sink.old }
    ensures cause { HasCause (K.faults sink.old) (K.faults sink.new) result }
{
    write_pieces(out, sink, &[",\"", name, "\":\"", text, "\""])
}

/// Puts a key and a value, as it stands.
fn write_value<K: Sink>(
    name: &str,
    text: &str,
    out: &mut Out,
    sink: &mut K,
) -> Result<(), WriteFault>
    requires open { IsTrue out.old.is_open }
    ensures bytes { Moves (K.written sink.old) (K.written sink.new) out.new
        (out.old.held ++ member name.now text.now) result }
    ensures flushes { K.flushes sink.new ≡ K.flushes sink.old }
    ensures cause { HasCause (K.faults sink.old) (K.faults sink.new) result }
{
    write_pieces(out, sink, &[",\"", name, "\":", text])
}

fn kind_name(kind: IndexKind) -> &'static str
    ensures { result.now ≡ kind_text kind }
{
    match kind {
        IndexKind::I32 => "i32",
        IndexKind::U32 => "u32",
        IndexKind::I64 => "i64",
    }
}

fn primitive_name(prim: Prim) -> &'static str
    ensures { result.now ≡ primitive_text prim }
{
    match prim {
        Prim::Bool => "bool",
        Prim::I8 => "int8",
        Prim::I16 => "int16",
        Prim::I32 => "int32",
        Prim::I64 => "int64",
        Prim::U8 => "uint8",
        Prim::U16 => "uint16",
        Prim::U32 => "uint32",
        Prim::U64 => "uint64",
    }
}

fn truth_name(b: bool) -> &'static str
    ensures { result.now ≡ truth_text b }
{
    if b { "true" } else { "false" }
}
