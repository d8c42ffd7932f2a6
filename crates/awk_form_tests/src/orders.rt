// Bytes that were added by key, loaded in both byte orders and packed.
ghost use Rattle.std.specs.Prelude.{◌≡◌, ◌<◌};
ghost use Rattle.awk_form.specs.Lawful.{IsLawful};
ghost use Rattle.awk_form.specs.View.{form_of};

use awk_form::{Form, read_form};
use awk_kernels::Plain;
use awk_lanes::{Arena, Steps};
use awk_pack::pack;
use awk_store::Store;
use awk_valid::load;
use serde_json::Value;
use std::alloc::Global;
use std::marker::Brand;
use std::process::Abort;
use std::sync::ledger::{Blank, Ledger};
use std::test::Fail;

const FORM: &str = r#"{"class":"NumpyArray","primitive":"int16","form_key":"d"}"#;

// The numbers 5, -1 and 258 of int16, least or most significant byte first. The last byte of the
// second is not needed.
const LITTLE: [u8; 6] = [5, 0, 255, 255, 2, 1];

const BIG: [u8; 7] = [0, 5, 255, 255, 1, 2, 9];

fn try_order<L: Ledger>(
    rt: &impl Abort,
    alloc: Global,
    form: &Form,
    big: bool,
    bytes: &[u8],
    steps: &mut Steps<L>,
) -> Result<(), Fail>
    requires lawful { IsLawful (form_of form.now) }
{
    let arena = Arena::new(alloc);
    let mut store = Store::empty(alloc, &arena);
    store.add("d-data", bytes)?;
    let array = load(alloc, form, 3, big, &mut store, &Plain, &arena, steps)?;
    let packed = pack(alloc, &array, &arena, steps)?;
    assert!(rt; packed.lanes.len() == 1);
    let lane = packed.lanes.get(0);
    assert!(rt; lane.bulk(steps) == LITTLE.as_slice());
    Ok(())
}

fn try_orders<L: Ledger>(rt: &impl Abort, host: &HostRuntime, blank: Blank) -> Result<(), Fail>
    requires name { blank.name ≡ L.name }
    requires parts { blank.parts ≡ L.parts }
    requires some { 0 < blank.parts }
{
    let alloc = host.alloc();
    let steps = &mut Steps::<L>::new(host, blank);
    let form = read_form(alloc, &Value::from_str(alloc, FORM)?)?;
    try_order(rt, alloc, &form, false, &LITTLE, steps)?;
    try_order(rt, alloc, &form, true, &BIG, steps)?;
    Ok(())
}

#[test]
fn bytes_are_loaded_in_both_orders(rt: HostRuntime) -> Result<(), Fail> {
    try_orders::<Brand>(&rt, &rt, Blank::new(1))
}
