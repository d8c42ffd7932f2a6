// What counts steps: lanes that are made, cut and read, bits that are cut, and buffers that are
// fetched twice, also where a long text is decoded into a room.
ghost use Rattle.std.specs.Prelude.{◌≡◌, ◌<◌, IfOk};
ghost use Rattle.serde_json.specs.View.{members_view};
ghost use Rattle.awk_store.specs.Buffers.{HoldsTexts};

use awk_bits::Bits;
use awk_lanes::{Arena, Kind, Lane, LaneMaker, Lanes, NoMemory, Steps};
use awk_store::{BufferWhy, Room, Store, StoreFault};
use serde_json::{Map, Value};
use std::alloc::Global;
use std::marker::Brand;
use std::process::Abort;
use std::sync::ledger::{Blank, Ledger};
use std::test::Fail;

/// A kind, the bytes of three numbers of it, and the bytes that are made of the last two.
#[derive(Drop)]
struct Sample {
    kind: Kind,
    bytes: &'static [u8],
    made: &'static [u8],
}

const SAMPLES: [Sample; 9] = [
    Sample {
        kind: Kind::Bool,
        bytes: &[0, 2, 0],
        made: &[1, 0],
    },
    Sample {
        kind: Kind::I8,
        bytes: &[255, 128, 127],
        made: &[128, 127],
    },
    Sample {
        kind: Kind::I16,
        bytes: &[254, 255, 0, 128, 52, 18],
        made: &[0, 128, 52, 18],
    },
    Sample {
        kind: Kind::I32,
        bytes: &[255, 255, 255, 255, 0, 0, 0, 128, 120, 86, 52, 18],
        made: &[0, 0, 0, 128, 120, 86, 52, 18],
    },
    Sample {
        kind: Kind::I64,
        bytes: &[
            254, 255, 255, 255, 255, 255, 255, 255, 0, 0, 0, 0, 0, 0, 0, 128, 8, 7, 6, 5, 4, 3, 2,
            1,
        ],
        made: &[0, 0, 0, 0, 0, 0, 0, 128, 8, 7, 6, 5, 4, 3, 2, 1],
    },
    Sample {
        kind: Kind::U8,
        bytes: &[255, 128, 127],
        made: &[128, 127],
    },
    Sample {
        kind: Kind::U16,
        bytes: &[254, 255, 0, 128, 52, 18],
        made: &[0, 128, 52, 18],
    },
    Sample {
        kind: Kind::U32,
        bytes: &[255, 255, 255, 255, 0, 0, 0, 128, 120, 86, 52, 18],
        made: &[0, 0, 0, 128, 120, 86, 52, 18],
    },
    Sample {
        kind: Kind::U64,
        bytes: &[
            254, 255, 255, 255, 255, 255, 255, 255, 0, 0, 0, 0, 0, 0, 0, 128, 8, 7, 6, 5, 4, 3, 2,
            1,
        ],
        made: &[0, 0, 0, 0, 0, 0, 0, 128, 8, 7, 6, 5, 4, 3, 2, 1],
    },
];

/// Cuts the lane of the sample's bytes, and makes a lane of the numbers that are left.
fn try_sample<L: Ledger>(
    rt: &impl Abort,
    arena: &Arena,
    sample: &Sample,
    steps: &mut Steps<L>,
) -> Result<Lane<'static>, NoMemory> {
    assert!(rt; sample.bytes.len() % sample.kind.width() == 0);
    let lane = Lane::new(sample.kind, sample.bytes);
    assert!(rt; lane.len() == 3);
    let tail = lane.cut(1, 3, steps);
    assert!(rt; tail.len() == 2);
    let mut maker = LaneMaker::new(sample.kind, 2, arena)?;
    maker.push(tail.at(0, steps));
    maker.push(tail.at(1, steps));
    assert!(rt; maker.made() == 2);
    let made = maker.finish();
    let bytes = made.bulk(arena, steps)?;
    assert!(rt; bytes == sample.made);
    Ok(tail)
}

fn try_lanes<L: Ledger>(
    rt: &impl Abort,
    alloc: Global,
    samples: &[Sample],
    steps: &mut Steps<L>,
) -> Result<(), NoMemory> {
    let arena = Arena::new(alloc);
    let mut lanes = Lanes::new(alloc);
    for sample in samples {
        lanes.push(try_sample(rt, &arena, sample, steps)?)?;
    }
    assert!(rt; lanes.len() == samples.len());
    assert!(rt; LaneMaker::new(Kind::I64, u64::MAX, &arena).is_err());
    Ok(())
}

fn try_bits<L: Ledger>(rt: &impl Abort, steps: &mut Steps<L>) {
    let bits = Bits::new(&[0x42, 0xA0], 3, 13, false)
        .cut(3, 7, steps)
        .copy();
    assert!(rt; bits.len() == 4);
    assert!(rt; bits.at(0, steps) && !bits.at(1, steps) && bits.at(2, steps) && !bits.at(3, steps));
}

/// Each key is answered the same whether it was fetched before or not.
fn try_keys<L: Ledger>(rt: &impl Abort, store: &mut Store, steps: &mut Steps<L>) {
    for _ in 0..2 {
        assert!(rt; store.fetch("a", steps) == Ok([0].as_slice()));
        assert!(rt; store.fetch("b", steps) == Err(StoreFault::Bad(BufferWhy::Base64)));
    }
}

fn try_store<L: Ledger>(
    rt: &impl Abort,
    alloc: Global,
    steps: &mut Steps<L>,
) -> serde_json::Result<()> {
    let json = Value::from_str(alloc, r#"{"a":"AA==","b":"AAA"}"#)?;
    let buffers = json.as_object().expect(rt, "an object");
    let arena = Arena::new(alloc);
    let mut store = Store::new(alloc, buffers, &arena);
    try_keys(rt, &mut store, steps);
    Ok(())
}

/// An object of one text.
fn one_text(alloc: Global, text: String) -> Result<Map<String, Value>, NoMemory>
    ensures { IfOk result (λ buffers. HoldsTexts (members_view buffers.entries)) }
{
    let mut buffers = Map::new(alloc);
    let key = format!(in alloc; "long")?;
    drop(buffers.insert(key, Value::String(text))?);
    Ok(buffers)
}

/// A long text is decoded into memory that is given up.
fn try_room<L: Ledger>(rt: &impl Abort, alloc: Global, steps: &mut Steps<L>) -> Result<(), Fail> {
    let bytes = [1, 2, 3].repeat(alloc, 16_384)?;
    let buffers = one_text(alloc, "AQID".repeat(alloc, 16_384)?)?;
    let mut place = Vec::new(alloc);
    let room = Room {
        memory: "line".repeat(alloc, 16_384)?.into_bytes(),
        place: &mut place,
    };
    let arena = Arena::new(alloc);
    let mut store = Store::with_room(alloc, &buffers, Some(room), &arena);
    for _ in 0..2 {
        assert!(rt; store.fetch("long", steps) == Ok(bytes.as_slice()));
        assert!(rt; store.fetch("b", steps) == Err(StoreFault::Bad(BufferWhy::Absent)));
    }
    Ok(())
}

/// Bytes that were added are fetched as they are.
fn try_added<L: Ledger>(
    rt: &impl Abort,
    alloc: Global,
    steps: &mut Steps<L>,
) -> Result<(), NoMemory> {
    let arena = Arena::new(alloc);
    let bytes = [7, 255];
    let mut store = Store::empty(alloc, &arena);
    store.add("a", &bytes)?;
    for _ in 0..2 {
        assert!(rt; store.fetch("a", steps) == Ok(bytes.as_slice()));
        assert!(rt; store.fetch("b", steps) == Err(StoreFault::Bad(BufferWhy::Absent)));
    }
    Ok(())
}

fn try_counted<L: Ledger>(rt: &impl Abort, host: &HostRuntime, blank: Blank) -> Result<(), Fail>
    requires name { blank.name ≡ L.name }
    requires parts { blank.parts ≡ L.parts }
    requires some { 0 < blank.parts }
{
    let steps = &mut Steps::<L>::new(host, blank);
    try_lanes(rt, host.alloc(), &SAMPLES, steps)?;
    try_bits(rt, steps);
    try_store(rt, host.alloc(), steps)?;
    try_room(rt, host.alloc(), steps)?;
    try_added(rt, host.alloc(), steps)?;
    Ok(())
}

#[test]
fn lanes_bits_and_buffers_are_read_and_made(rt: HostRuntime) -> Result<(), Fail> {
    try_counted::<Brand>(&rt, &rt, Blank::new(1))
}
