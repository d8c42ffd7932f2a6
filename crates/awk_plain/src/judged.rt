//! Values that make no array, whatever their types.
ghost use Rattle.std.specs.Prelude.{◌≡◌, true, IfErr};
ghost use Rattle.awk_types.specs.Gives.{Gives, refused_or};
ghost use Rattle.awk_types.specs.Faults.{fault_told};
ghost use Rattle.serde_json.specs.View.{view, number_view, items_view, members_view};
ghost use Rattle.awk_plain.specs.Judged as spec;
ghost use Rattle.awk_plain.specs.Plain.{items_pass, members_pass};

use awk_types::Fault;
use serde_json::{Map, Number, Value};

/// What is asked of each number and text of a value.
#[derive(Clone, Copy, Debug, PartialEq, Eq)]
pub enum Test {
    /// That a number is a whole one, and that there is no text.
    Whole,
    /// That a whole number fits int64.
    Fits,
}

fn number_passes(test: Test, number: &Number) -> bool
    ensures { result ≡ spec.number_passes test (number_view number.now) }
{
    match test {
        Test::Whole => !number.is_f64(),
        Test::Fits => number.is_i64() || number.is_f64(),
    }
}

fn text_passes(test: Test) -> bool
    ensures { result ≡ spec.text_passes test }
{
    match test {
        Test::Whole => false,
        Test::Fits => true,
    }
}

/// Whether all numbers and texts of a value pass.
#[cycle(pass)]
fn passes(test: Test, value: &Value) -> bool
    ensures { result ≡ spec.passes test (view value.now) }
{
    match value {
        Value::Null | Value::Bool(_) => true,
        Value::Number(number) => number_passes(test, number),
        Value::String(_) => text_passes(test),
        Value::Array(items) => each_passes(test, items),
        Value::Object(members) => members_pass(test, members),
    }
}

#[cycle(pass)]
fn each_passes(test: Test, items: &Vec<Value>) -> bool
    ensures { result ≡ items_pass (spec.number_passes test) (spec.text_passes test)
        (items_view items.now.items) }
{
    for item in items {
        if !passes(test, item) {
            return false;
        }
    }
    true
}

#[cycle(pass)]
fn members_pass(test: Test, members: &Map<String, Value>) -> bool
    ensures { result ≡ members_pass (spec.number_passes test) (spec.text_passes test)
        (members_view members.now.entries) }
{
    for (key, member) in members.iter() {
        if !passes(test, member) {
            return false;
        }
    }
    true
}

/// The fault of a text or of a number that is no whole one, and else of a whole number that does
/// not fit int64.
pub fn judged(value: &Value) -> Result<(), Fault>
    ensures { Gives (λ _. tt {0}) fault_told result
        (refused_or (spec.value_fault (view value.now)) (tt {0})) }
{
    if !passes(Test::Whole, value) {
        return Err(Fault::WrongType);
    }
    if !passes(Test::Fits, value) {
        return Err(Fault::Overflow);
    }
    Ok(())
}
