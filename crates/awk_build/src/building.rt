//! The array of a JSON list.
ghost use Rattle.std.specs.Prelude.{◌≡◌, IfOk, IfSome, None, true};
ghost use Rattle.awk_types.specs.DataType.{var};
ghost use Rattle.awk_types.specs.Faults.{fault_told};
ghost use Rattle.awk_types.specs.Gives.{Gives};
ghost use Rattle.awk_types.specs.View.{typ_of};
ghost use Rattle.awk_layout.specs.Typing.{array_datum};
ghost use Rattle.awk_plain.specs.Plain as spec;
ghost use Rattle.awk_plain.specs.Plain.{plain_fault};
ghost use Rattle.awk_plain.specs.Suits.{is_of_lists};
ghost use Rattle.awk_build.specs.Built.{IsArrayOfItems};
ghost use Rattle.serde_json.specs.Data.{array};
ghost use Rattle.serde_json.specs.View.{view, items_view};

use crate::values::items_array;
use awk_lanes::{Arena, Steps};
use awk_layout::Array;
use awk_plain::{plain_type, standing_type};
use awk_plain_columns::{has_columns, suited_array};
use awk_types::{Fault, NoMemory, Typ};
use serde_json::Value;
use std::alloc::Global;
use std::sync::ledger::Ledger;

/// The array of a list, whose items are exactly its plain values.
///
/// `WrongType` tells a text or a number that is no whole one, anywhere; else `Overflow` a whole
/// number that does not fit int64; else `Depth` or `Size` the limit that the first type passes that
/// is made.
pub fn from_values<'a, L: Ledger>(
    alloc: Global,
    v: &Value,
    arena: &'a Arena,
    steps: &mut Steps<L>,
) -> Result<Array<'a>, Fault>
    requires { spec.is_list (view v.now) ≡ true }
    ensures { Gives array_datum fault_told result (spec.from_values (view v.now)) }
{
    match v {
        Value::Array(items) => {
            if let Some(array) = standing_array(alloc, items, arena, steps)? {
                return Ok(array);
            }
            let _typ = plain_type(alloc, v)?;
            Ok(items_array(alloc, items, arena, steps)?)
        }
        _ => unreachable!(),
    }
}

/// The type of the items of lists of a type.
fn item_type(typ: &Typ) -> &Typ
    requires { is_of_lists (typ_of typ.now) ≡ true }
    ensures { typ_of typ.now ≡ var (typ_of result.now) }
{
    match typ {
        Typ::Var(item) => item,
        _ => unreachable!(),
    }
}

/// The array of a list, as columns, if all in it is of its type as it stands and that has columns.
fn standing_array<'a, L: Ledger>(
    alloc: Global,
    items: &Vec<Value>,
    arena: &'a Arena,
    steps: &mut Steps<L>,
) -> Result<Option<Array<'a>>, NoMemory>
    ensures free { let d = array (items_view items.now.items) in
        IfOk result (λ o. IfSome o (λ x. plain_fault d ≡ None)) }
    ensures items { IfOk result (λ o. IfSome o (IsArrayOfItems (items_view items.now.items))) }
{
    let Some(list) = standing_type(alloc, items)? else {
        return Ok(None);
    };
    let item = item_type(&list);
    if !has_columns(item) {
        return Ok(None);
    }
    Ok(Some(suited_array(alloc, item, items, arena, steps)?))
}
