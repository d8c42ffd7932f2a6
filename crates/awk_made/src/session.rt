//! The text of the made session.
ghost use Rattle.std.specs.Prelude.{◌≡◌, ◌≤◌, IfOk};
ghost use Rattle.awk_made.specs.Session as meaning;

use crate::NoMemory;
use crate::draws::draw_events;
use base64::engine::general_purpose::STANDARD;
use itoa::Buffer;
use std::alloc::Global;

const LOAD_HEAD: &str = "{\"load\":\"muons\",\"form\":{\"class\":\"ListOffsetArray\",\
    \"offsets\":\"i64\",\"content\":{\"class\":\"RecordArray\",\"fields\":[\"pt\",\"charge\"],\
    \"contents\":[{\"class\":\"NumpyArray\",\"primitive\":\"int64\",\"inner_shape\":[],\
    \"parameters\":{},\"form_key\":\"node2\"},{\"class\":\"NumpyArray\",\"primitive\":\"int8\",\
    \"inner_shape\":[],\"parameters\":{},\"form_key\":\"node3\"}],\"parameters\":{},\
    \"form_key\":\"node1\"},\"parameters\":{},\"form_key\":\"node0\"},\"length\":";

// The end of the load line, and the lines behind it.
const LATER: &str = "\"}}\n\
    {\"let\":\"pairs\",\"be\":[\"combinations\",2,false,1,\"muons\"]}\n\
    {\"let\":\"opposite\",\"be\":[\"pick\",\"pairs\",[\"ne\",\
    [\"field\",[\"field\",\"pairs\",\"0\"],\"charge\"],\
    [\"field\",[\"field\",\"pairs\",\"1\"],\"charge\"]]]}\n\
    {\"let\":\"total\",\"be\":[\"add\",[\"field\",[\"field\",\"opposite\",\"0\"],\"pt\"],\
    [\"field\",[\"field\",\"opposite\",\"1\"],\"pt\"]]}\n\
    {\"type\":\"total\"}\n\
    {\"show\":[\"sum\",[\"num\",\"opposite\",1]]}\n\
    {\"show\":[\"sum\",[\"sum\",\"total\"]]}\n\
    {\"show\":[\"max\",[\"max\",\"total\"]]}\n";

/// The text of the session of a seed and so many events: a load line of their muons, and seven
/// lines about them.
///
/// It is made in one pass over the events, and holds the bytes of their columns beside the text
/// until the text is whole.
#[tactic(auto, unfolding(crate::specs::Session::session_of))]
pub fn session_of(alloc: Global, seed: u32, events: u32) -> Result<Vec<u8>, NoMemory>
    requires seed { (1 ≤ seed) × (seed ≤ 2147483646) }
    requires events { events ≤ 1000000 }
    ensures { IfOk result (λ text. text.items ≡ meaning.session_of seed events) }
{
    let made = draw_events(alloc, u64::from(seed), u64::from(events))?;
    let mut text = String::new(alloc);
    text.push_str(LOAD_HEAD)?;
    text.push_str(Buffer::new().format(events))?;
    text.push_str(",\"buffers\":{\"node0-offsets\":\"")?;
    STANDARD.encode_string(&made.offsets, &mut text)?;
    text.push_str("\",\"node2-data\":\"")?;
    STANDARD.encode_string(&made.pts, &mut text)?;
    text.push_str("\",\"node3-data\":\"")?;
    STANDARD.encode_string(&made.charges, &mut text)?;
    text.push_str(LATER)?;
    Ok(text.into_bytes())
}
