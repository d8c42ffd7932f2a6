// An array packed, loaded from a store that has its buffers, and packed again.
ghost use Rattle.std.specs.Prelude.{◌≡◌, ◌<◌};

use awk_kernels::Plain;
use awk_lanes::{Arena, Kind, Lane, Steps};
use awk_layout::{Array, Node};
use awk_pack::Packed;
use awk_readback::there_and_back;
use awk_store::Store;
use awk_types::{Prim, Typ};
use serde_json::Value;
use std::marker::Brand;
use std::process::Abort;
use std::sync::ledger::{Blank, Ledger};
use std::test::Fail;

// The numbers 1 and -1 of int8.
const BYTES: [u8; 2] = [1, 255];

fn try_packed<L: Ledger>(rt: &impl Abort, packed: &Packed, steps: &mut Steps<L>) {
    assert!(rt; packed.length == 2 && packed.lanes.len() == 1);
    let lane = packed.lanes.get(0);
    assert!(rt; lane.kind() == Kind::I8 && lane.bulk(steps) == BYTES.as_slice());
}

fn try_back<L: Ledger>(rt: &impl Abort, host: &HostRuntime, blank: Blank) -> Result<(), Fail>
    requires name { blank.name ≡ L.name }
    requires parts { blank.parts ≡ L.parts }
    requires some { 0 < blank.parts }
{
    let alloc = host.alloc();
    let steps = &mut Steps::<L>::new(host, blank);
    let json = Value::from_str(alloc, r#"{"node0-data":"Af8="}"#)?;
    let buffers = json.as_object().expect(rt, "an object");
    let arena = Arena::new(alloc);
    let mut store = Store::new(alloc, buffers, &arena);
    let node = Node::numpy(Lane::new(Kind::I8, &BYTES), steps);
    let array = Array::with_type(node, Typ::Leaf(Prim::I8));
    let back = there_and_back(alloc, &array, &mut store, &Plain, &arena, steps)?;
    try_packed(rt, &back.first, steps);
    try_packed(rt, &back.again, steps);
    assert!(rt; back.array.len() == 2 && matches!(back.array.typ(), Typ::Leaf(Prim::I8)));
    Ok(())
}

#[test]
fn an_array_comes_back(rt: HostRuntime) -> Result<(), Fail> {
    try_back::<Brand>(&rt, &rt, Blank::new(1))
}
