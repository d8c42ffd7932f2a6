//! The texts of faults.
ghost use Rattle.std.specs.Prelude.{◌≡◌, ◌≢◌, ◌++◌, IsTrue, codes};
ghost use Rattle.awk_edge.specs.Causes.{HasCause};
ghost use Rattle.awk_edge.specs.Put.{Moves};
ghost use Rattle.awk_json.specs.Text.{quoted};
ghost use Rattle.awk_text.specs.FaultText.{fault_text};

use awk_edge::{Out, Sink, WriteFault};
use awk_json::write_text;
use awk_types::{Fault, Name};

/// Puts the answer to a fault, without the line's end.
pub fn write_fault<K: Sink>(fault: &Fault, out: &mut Out, sink: &mut K) -> Result<(), WriteFault>
    requires open { IsTrue out.old.is_open }
    requires told { fault.now ≢ Fault.NoMemory }
    ensures bytes { Moves (K.written sink.old) (K.written sink.new) out.new
        (out.old.held ++ fault_text fault.now) result }
    ensures flushes { K.flushes sink.new ≡ K.flushes sink.old }
    ensures cause { HasCause (K.faults sink.old) (K.faults sink.new) result }
{
    match fault {
        Fault::Unbound(name) => write_named(b"{\"fault\":\"name\",\"name\":", name, out, sink),
        Fault::NoField(field) => write_named(b"{\"fault\":\"field\",\"field\":", field, out, sink),
        Fault::Axis => out.put(sink, b"{\"fault\":\"axis\"}"),
        Fault::WrongType => out.put(sink, b"{\"fault\":\"type\"}"),
        Fault::Overflow => out.put(sink, b"{\"fault\":\"overflow\"}"),
        Fault::Zero => out.put(sink, b"{\"fault\":\"zero\"}"),
        Fault::Depth => out.put(sink, b"{\"fault\":\"depth\"}"),
        Fault::Size => out.put(sink, b"{\"fault\":\"size\"}"),
        Fault::Lengths => out.put(sink, b"{\"fault\":\"lengths\"}"),
        Fault::Index => out.put(sink, b"{\"fault\":\"index\"}"),
        Fault::NoMemory => unreachable!(),
    }
}

/// Puts a name, as a JSON text, as the last member of an object.
fn write_named<K: Sink>(
    head: &[u8],
    name: &Name,
    out: &mut Out,
    sink: &mut K,
) -> Result<(), WriteFault>
    requires open { IsTrue out.old.is_open }
    ensures bytes { Moves (K.written sink.old) (K.written sink.new) out.new
        (out.old.held ++ (head.now ++ quoted name.now ++ codes "}")) result }
    ensures flushes { K.flushes sink.new ≡ K.flushes sink.old }
    ensures cause { HasCause (K.faults sink.old) (K.faults sink.new) result }
{
    out.put(sink, head)?;
    write_text(out, sink, name.as_str())?;
    out.put(sink, b"}")
}
