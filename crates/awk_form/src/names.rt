//! The field names of a record.
ghost use Rattle.std.specs.Prelude.{◌≡◌};
ghost use Rattle.awk_types.specs.Gives.{Gives};
ghost use Rattle.serde_json.specs.View.{view, items_view};
ghost use Rattle.awk_form.specs.Told.{why_told};
ghost use Rattle.awk_form.specs.Node.{present_or, texts_of, fields_at as fields_said};
ghost use Rattle.awk_form.specs.declared.fault.FormWhy.TheVariants.{Key};

use crate::fault::{FormWhy, NodeFault};
use awk_types::{Name, Names};
use serde_json::Value;
use std::alloc::Global;

/// The field names of a node, or none for a tuple.
pub fn fields_at(alloc: Global, json: &Value) -> Result<Option<Names>, NodeFault>
    ensures { Gives (λ names. names) why_told result (fields_said (view json.now)) }
{
    match json.get("fields") {
        None => Err(FormWhy::Key.into()),
        Some(Value::Null) => Ok(None),
        Some(fields) => {
            let names = texts(alloc, fields.as_array().ok_or(FormWhy::Key)?)?;
            if names.are_distinct(alloc)? {
                Ok(Some(names))
            } else {
                Err(FormWhy::Repeated.into())
            }
        }
    }
}

/// The texts of a list, if each item is one.
fn texts(alloc: Global, items: &Vec<Value>) -> Result<Names, NodeFault>
    ensures { Gives (λ names. names) why_told result
        (present_or Key (texts_of (items_view items.now.items))) }
{
    let mut names = Names::new(alloc);
    for item in items {
        names.push(Name::new(alloc, item.as_str().ok_or(FormWhy::Key)?)?)?;
    }
    Ok(names)
}
