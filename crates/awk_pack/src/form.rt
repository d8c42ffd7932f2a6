//! The packed form of a type.
ghost use Rattle.std.specs.Prelude.{◌≡◌, ◌+◌, ◌<◌, ◌^◌, [], Some, None, map, IfOk};
ghost use Rattle.awk_types.specs.DataType.{nodes};
ghost use Rattle.awk_types.specs.View.{typ_of, typs_of, fields_of, names_of as fields_names};
ghost use Rattle.awk_form.specs.FormTree as tree;
ghost use Rattle.awk_form.specs.FormTree.{forms_from};
ghost use Rattle.awk_form.specs.View.{form_of, forms_of};
ghost use Rattle.awk_form.specs.declared.kind.IndexKind.TheVariants.{I64};
ghost use Rattle.awk_pack.specs.PackedForm.{node_key, packed_form as packed, all_nodes, form_each};

use awk_form::{Dims, Form, Forms, IndexKind, Shape};
use awk_types::{Fields, Name, Names, NoMemory, Prim, Typ, Typs};
use std::alloc::Global;

/// The packed form of a type.
pub(crate) fn packed_form(alloc: Global, t: &Typ) -> Result<Form, NoMemory>
    requires { nodes (typ_of t.now) < 2 ^ 64 }
    ensures { IfOk result (λ form. form_of form ≡ packed 0 (typ_of t.now)) }
{
    let mut maker = FormMaker { alloc, next: 0 };
    maker.form(t)
}

/// The names of fields.
fn names_of(alloc: Global, fields: &Fields) -> Result<Names, NoMemory>
    ensures { IfOk result (λ names. names ≡ fields_names (fields_of fields.now)) }
{
    let mut names = Names::new(alloc);
    for i in 0..fields.len() {
        names.push(fields.get(i).name.copy(alloc)?)?;
    }
    Ok(names)
}

/// Makes forms, whose nodes are numbered in pre-order.
#[derive(Drop)]
struct FormMaker {
    alloc: Global,
    /// The number of the next node.
    next: u64,
}

impl FormMaker {
    /// The key of the next node.
    fn key(&mut self) -> Result<Name, NoMemory>
        requires room { self.old.next + 1 < 2 ^ 64 }
        ensures key { IfOk result (λ key. key ≡ node_key self.old.next) }
        ensures next { self.new.next ≡ self.old.next + 1 }
    {
        let number = self.next;
        self.next += 1;
        let text = format!(in self.alloc; "node{number}")?;
        Name::new(self.alloc, &text)
    }

    /// The form of a type.
    #[cycle(form)]
    fn form(&mut self, t: &Typ) -> Result<Form, NoMemory>
        requires room { self.old.next + nodes (typ_of t.now) < 2 ^ 64 }
        ensures form { IfOk result (λ form. form_of form ≡ packed self.old.next (typ_of t.now)) }
        ensures next { IfOk result (λ form. self.new.next ≡ self.old.next + nodes (typ_of t.now)) }
    {
        let key = self.key()?;
        match t {
            Typ::Unknown => Ok(empty_form(key)),
            Typ::Leaf(prim) => Ok(leaf_form(self.alloc, key, *prim)),
            Typ::Var(item) => list_form(self.alloc, key, self.form(item)?),
            Typ::Reg(size, item) => regular_form(self.alloc, key, *size, self.form(item)?),
            Typ::Rec(fields) => record_form(self.alloc, key, fields, self.fields(fields)?),
            Typ::Tup(parts) => Ok(tuple_form(key, self.contents(parts)?)),
            Typ::Opt(item) => option_form(self.alloc, key, self.form(item)?),
            Typ::Uni(alternatives) => Ok(union_form(key, self.contents(alternatives)?)),
        }
    }

    /// The forms of types in order.
    #[cycle(form)]
    fn contents(&mut self, ts: &Typs) -> Result<Forms, NoMemory>
        requires room { self.old.next + all_nodes (typs_of ts.now) < 2 ^ 64 }
        ensures forms { IfOk result (λ fs. forms_of fs ≡ form_each self.old.next (typs_of ts.now)) }
        ensures next { let n = all_nodes (typs_of ts.now) in
            IfOk result (λ fs. self.new.next ≡ self.old.next + n) }
    {
        let mut forms = Forms::new(self.alloc);
        for i in 0..ts.len() {
            forms.push(self.form(ts.get(i))?)?;
        }
        Ok(forms)
    }

    /// The forms of the types of fields.
    #[cycle(form)]
    fn fields(&mut self, fields: &Fields) -> Result<Forms, NoMemory>
        requires room { let ts = map (λ f. f.typ) (fields_of fields.now) in
            self.old.next + all_nodes ts < 2 ^ 64 }
        ensures forms { let ts = map (λ f. f.typ) (fields_of fields.now) in
            IfOk result (λ fs. forms_of fs ≡ form_each self.old.next ts) }
        ensures next { let n = all_nodes (map (λ f. f.typ) (fields_of fields.now)) in
            IfOk result (λ fs. self.new.next ≡ self.old.next + n) }
    {
        let mut forms = Forms::new(self.alloc);
        for i in 0..fields.len() {
            forms.push(self.form(&fields.get(i).typ)?)?;
        }
        Ok(forms)
    }
}

fn empty_form(key: Name) -> Form
    ensures { form_of result ≡ tree.empty (Some key) }
{
    Form {
        key: Some(key),
        shape: Shape::Empty,
    }
}

fn leaf_form(alloc: Global, key: Name, prim: Prim) -> Form
    ensures { form_of result ≡ tree.numpy (Some key) prim [] }
{
    Form {
        key: Some(key),
        shape: Shape::Numpy {
            prim,
            inner: Dims::new(alloc),
        },
    }
}

fn list_form(alloc: Global, key: Name, content: Form) -> Result<Form, NoMemory>
    ensures { let form_of_lists = tree.list_offset (Some key) I64 (form_of content) in
        IfOk result (λ form. form_of form ≡ form_of_lists) }
{
    Ok(Form {
        key: Some(key),
        shape: Shape::ListOffset {
            offsets: IndexKind::I64,
            content: Box::new(alloc, content)?,
        },
    })
}

fn regular_form(alloc: Global, key: Name, size: u64, content: Form) -> Result<Form, NoMemory>
    ensures { IfOk result (λ form. form_of form ≡ tree.regular (Some key) size (form_of content)) }
{
    Ok(Form {
        key: Some(key),
        shape: Shape::Regular {
            size,
            content: Box::new(alloc, content)?,
        },
    })
}

fn option_form(alloc: Global, key: Name, content: Form) -> Result<Form, NoMemory>
    ensures { let form_of_option = tree.indexed_option (Some key) I64 (form_of content) in
        IfOk result (λ form. form_of form ≡ form_of_option) }
{
    Ok(Form {
        key: Some(key),
        shape: Shape::IndexedOption {
            index: IndexKind::I64,
            content: Box::new(alloc, content)?,
        },
    })
}

fn record_form(alloc: Global, key: Name, fields: &Fields, contents: Forms) -> Result<Form, NoMemory>
    ensures { let names = Some (fields_names (fields_of fields.now)) in
        let forms = forms_from (forms_of contents) in
        IfOk result (λ form. form_of form ≡ tree.row (Some key) names forms) }
{
    Ok(Form {
        key: Some(key),
        shape: Shape::Row {
            names: Some(names_of(alloc, fields)?),
            contents,
        },
    })
}

fn tuple_form(key: Name, contents: Forms) -> Form
    ensures { form_of result ≡ tree.row (Some key) None (forms_from (forms_of contents)) }
{
    Form {
        key: Some(key),
        shape: Shape::Row {
            names: None,
            contents,
        },
    }
}

fn union_form(key: Name, contents: Forms) -> Form
    ensures { form_of result ≡ tree.union (Some key) I64 (forms_from (forms_of contents)) }
{
    Form {
        key: Some(key),
        shape: Shape::Union {
            index: IndexKind::I64,
            contents,
        },
    }
}
