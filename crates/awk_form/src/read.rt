//! Forms, read from JSON.
ghost use Rattle.std.specs.Prelude.{◌≡◌, ◌+◌, [], ◌∷◌, Option, map, length, IfOk, OnOk};
ghost use Rattle.awk_types.specs.DataType.{Name};
ghost use Rattle.awk_types.specs.Gives.{Gives, refused_or};
ghost use Rattle.awk_types.specs.View.{typ_of};
ghost use Rattle.serde_json.specs.View.{view};
ghost use Rattle.awk_form.specs.Told.{refusal_told};
ghost use Rattle.awk_form.specs.FormType.{HasType};
ghost use Rattle.awk_form.specs.NodeView.{head_of};
ghost use Rattle.awk_form.specs.Reading.{nodes_of, nodes_of_all, nodes_below, first_break_from};
ghost use Rattle.awk_form.specs.Reading.{form_with, form_of as form_said, reading};
ghost use Rattle.awk_form.specs.Lawful.{IsLawful};
ghost use Rattle.awk_form.specs.View.{form_of, forms_of, keyed};

use crate::fault::{FormFault, NodeFault};
use crate::form::{Form, Forms, Shape};
use crate::node::{Head, read_node};
use crate::typing::{TypedForm, type_of_form};
use serde_json::Value;
use std::alloc::Global;

/// The form that a JSON value is.
pub fn read_form(alloc: Global, json: &Value) -> Result<Form, FormFault>
    ensures gives { Gives form_of refusal_told result (reading (view json.now)) }
    ensures lawful { IfOk result (λ form. IsLawful (form_of form)) }
{
    let typed = read_typed_form(alloc, json)?;
    Ok(typed.form)
}

/// The form that a JSON value is, with the type that its limits are judged by.
pub fn read_typed_form(alloc: Global, json: &Value) -> Result<TypedForm, FormFault>
    ensures gives { Gives (λ typed. form_of typed.form) refusal_told result
        (reading (view json.now)) }
    ensures lawful { IfOk result (λ typed. IsLawful (form_of typed.form)) }
    ensures typ { IfOk result (λ typed. HasType (form_of typed.form) (typ_of typed.typ)) }
{
    let mut reader = Reader { alloc, next: 0 };
    let form = reader.form(json)?;
    let typ = type_of_form(alloc, &form)?;
    Ok(TypedForm { form, typ })
}

/// Reads the nodes of a form in pre-order.
#[derive(Drop)]
struct Reader {
    alloc: Global,
    /// The number of the node that comes next.
    next: u64,
}

impl Reader {
    /// The form of a node and of what is below it.
    #[cycle(read)]
    fn form(&mut self, json: &Value) -> Result<Form, FormFault>
        ensures gives { Gives form_of refusal_told result
            (refused_or (first_break_from self.old.next (nodes_of (view json.now)))
            (form_said (view json.now))) }
        ensures next { OnOk result
            (self.new.next ≡ self.old.next + length (nodes_of (view json.now))) }
    {
        let number = self.next;
        // There are fewer nodes than 2^64 in any memory.
        self.next = number.checked_add(1).ok_or(FormFault::NoMemory)?;
        match read_node(self.alloc, json) {
            Ok(node) => Ok(Form {
                key: node.key,
                shape: self.shape(node.head)?,
            }),
            Err(NodeFault::Why(why)) => Err(FormFault::Bad { node: number, why }),
            Err(NodeFault::NoMemory) => Err(FormFault::NoMemory),
        }
    }

    /// A node without its key, and what is below it.
    #[cycle(read)]
    fn shape(&mut self, head: Head<'_>) -> Result<Shape, FormFault>
        ensures gives { (key : Option Name) →
            Gives (λ shape. keyed shape key) refusal_told result
            (refused_or (first_break_from self.old.next (nodes_below (head_of head.entry)))
            (form_with form_said key (head_of head.entry))) }
        ensures next { OnOk result
            (self.new.next ≡ self.old.next + length (nodes_below (head_of head.entry))) }
    {
        match head {
            Head::Empty => Ok(Shape::Empty),
            Head::Numpy { prim, inner } => Ok(Shape::Numpy { prim, inner }),
            Head::Regular { size, content } => Ok(Shape::Regular {
                size,
                content: self.content(content)?,
            }),
            Head::List {
                starts,
                stops,
                content,
            } => Ok(Shape::List {
                starts,
                stops,
                content: self.content(content)?,
            }),
            Head::ListOffset { offsets, content } => Ok(Shape::ListOffset {
                offsets,
                content: self.content(content)?,
            }),
            Head::Row { names, contents } => Ok(Shape::Row {
                names,
                contents: self.contents(contents)?,
            }),
            Head::Indexed { index, content } => Ok(Shape::Indexed {
                index,
                content: self.content(content)?,
            }),
            Head::IndexedOption { index, content } => Ok(Shape::IndexedOption {
                index,
                content: self.content(content)?,
            }),
            Head::ByteMasked {
                valid_when,
                content,
            } => Ok(Shape::ByteMasked {
                valid_when,
                content: self.content(content)?,
            }),
            Head::BitMasked {
                valid_when,
                lsb_order,
                content,
            } => Ok(Shape::BitMasked {
                valid_when,
                lsb_order,
                content: self.content(content)?,
            }),
            Head::Unmasked { content } => Ok(Shape::Unmasked {
                content: self.content(content)?,
            }),
            Head::Union { index, contents } => Ok(Shape::Union {
                index,
                contents: self.contents(contents)?,
            }),
        }
    }

    /// The form of a content.
    #[cycle(read)]
    fn content(&mut self, json: &Value) -> Result<Box<Form>, FormFault>
        ensures gives { Gives (λ form. form_of form.value) refusal_told result
            (refused_or (first_break_from self.old.next (nodes_of_all (view json.now ∷ [])))
            (form_said (view json.now))) }
        ensures next { OnOk result
            (self.new.next ≡ self.old.next + length (nodes_of_all (view json.now ∷ []))) }
    {
        let form = self.form(json)?;
        Ok(Box::new(self.alloc, form)?)
    }

    /// The forms of contents.
    #[cycle(read)]
    fn contents(&mut self, contents: &[Value]) -> Result<Forms, FormFault>
        ensures gives { Gives forms_of refusal_told result
            (refused_or (first_break_from self.old.next (nodes_of_all (map view contents.now)))
            (map form_said (map view contents.now))) }
        ensures next { OnOk result
            (self.new.next ≡ self.old.next + length (nodes_of_all (map view contents.now))) }
    {
        let mut forms = Forms::new(self.alloc);
        for json in contents {
            forms.push(self.form(json)?)?;
        }
        Ok(forms)
    }
}
