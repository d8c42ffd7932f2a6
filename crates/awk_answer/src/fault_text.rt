//! The texts of the faults that answer a line.
ghost use Rattle.std.specs.Prelude.{◌≡◌, ◌≢◌, ◌∷◌, [], ◌++◌, IsTrue, codes};
ghost use Rattle.awk_edge.specs.Causes.{HasCause};
ghost use Rattle.awk_edge.specs.Put.{Moves};
ghost use Rattle.awk_text.specs.FaultText.{fault_text as evaluation_text};
ghost use Rattle.awk_answer.specs.AnswerView.{IsTold};
ghost use Rattle.awk_answer.specs.FaultText.{fault_text, why_text, buffer_text, rule_text};
ghost use Rattle.awk_answer.specs.declared.fault.AnswerFault.TheVariants.{Invalid};

use crate::fault::AnswerFault;
use crate::pieces::{write_numbered, write_quoted_between};
use awk_edge::{Out, Sink, WriteFault};
use awk_form::FormWhy;
use awk_types::Fault;
use awk_valid::{BufferFault, Rule};

/// Puts the text of a fault, with its line end.
pub fn write_fault<K: Sink>(
    fault: &AnswerFault,
    out: &mut Out,
    sink: &mut K,
) -> Result<(), WriteFault>
    requires open { IsTrue out.old.is_open }
    requires told { IsTold fault.now }
    ensures bytes { Moves (K.written sink.old) (K.written sink.new) out.new
        (out.old.held ++ (fault_text fault.now ++ 10 ∷ [])) result }
    ensures flushes { K.flushes sink.new ≡ K.flushes sink.old }
    ensures cause { HasCause (K.faults sink.old) (K.faults sink.new) result }
{
    match fault {
        AnswerFault::Json => out.put(sink, b"{\"fault\":\"json\"}\n"),
        AnswerFault::Query => out.put(sink, b"{\"fault\":\"query\"}\n"),
        AnswerFault::Form { node, why } => {
            let head = b"{\"fault\":\"form\",\"node\":";
            write_numbered(head, *node, why_member(*why), out, sink)
        }
        AnswerFault::Buffer { key, why } => {
            let head = b"{\"fault\":\"buffer\",\"key\":";
            write_quoted_between(
                head,
                key.as_str().as_bytes(),
                buffer_member(*why),
                out,
                sink,
            )
        }
        AnswerFault::Cut { key } => {
            let head = b"{\"fault\":\"buffer\",\"key\":";
            let tail = b",\"why\":\"cut\"}\n";
            write_quoted_between(head, key.as_str().as_bytes(), tail, out, sink)
        }
        AnswerFault::Invalid { node, rule, place } => {
            write_invalid(*node, *rule, *place, out, sink)
        }
        AnswerFault::Evaluation(fault) => write_evaluation(fault, out, sink),
    }
}

// Puts the text of a fault of evaluation, with its line end.
fn write_evaluation<K: Sink>(fault: &Fault, out: &mut Out, sink: &mut K) -> Result<(), WriteFault>
    requires open { IsTrue out.old.is_open }
    requires told { fault.now ≢ Fault.NoMemory }
    ensures bytes { Moves (K.written sink.old) (K.written sink.new) out.new
        (out.old.held ++ (evaluation_text fault.now ++ 10 ∷ [])) result }
    ensures flushes { K.flushes sink.new ≡ K.flushes sink.old }
    ensures cause { HasCause (K.faults sink.old) (K.faults sink.new) result }
{
    awk_text::write_fault(fault, out, sink)?;
    out.put(sink, b"\n")
}

// Puts the rule that a place of a node breaks, as a whole answer.
fn write_invalid<K: Sink>(
    node: u64,
    rule: Rule,
    place: u64,
    out: &mut Out,
    sink: &mut K,
) -> Result<(), WriteFault>
    requires open { IsTrue out.old.is_open }
    ensures bytes { Moves (K.written sink.old) (K.written sink.new) out.new
        (out.old.held ++ (fault_text (Invalid node rule place) ++ 10 ∷ [])) result }
    ensures flushes { K.flushes sink.new ≡ K.flushes sink.old }
    ensures cause { HasCause (K.faults sink.old) (K.faults sink.new) result }
{
    let head = b"{\"fault\":\"invalid\",\"node\":";
    write_numbered(head, node, rule_member(rule), out, sink)?;
    write_numbered(b",\"place\":", place, b"}\n", out, sink)
}

// The member that tells the cause against a node of a form, with the line's end.
fn why_member(why: FormWhy) -> &'static [u8]
    ensures { result.now ≡ codes ",\"why\":\"" ++ why_text why ++ (34 ∷ 125 ∷ 10 ∷ []) }
{
    match why {
        FormWhy::Class => b",\"why\":\"class\"}\n",
        FormWhy::Key => b",\"why\":\"key\"}\n",
        FormWhy::Kind => b",\"why\":\"kind\"}\n",
        FormWhy::Primitive => b",\"why\":\"primitive\"}\n",
        FormWhy::Parameter => b",\"why\":\"parameter\"}\n",
        FormWhy::Repeated => b",\"why\":\"repeated\"}\n",
        FormWhy::Alternatives => b",\"why\":\"alternatives\"}\n",
        FormWhy::FormKey => b",\"why\":\"form_key\"}\n",
    }
}

// The member that tells the cause against a buffer, with the line's end.
fn buffer_member(why: BufferFault) -> &'static [u8]
    ensures { result.now ≡ codes ",\"why\":\"" ++ buffer_text why ++ (34 ∷ 125 ∷ 10 ∷ []) }
{
    match why {
        BufferFault::Absent => b",\"why\":\"absent\"}\n",
        BufferFault::Base64 => b",\"why\":\"base64\"}\n",
        BufferFault::Short => b",\"why\":\"short\"}\n",
    }
}

// The member that tells the rule that a place breaks.
fn rule_member(rule: Rule) -> &'static [u8]
    ensures { result.now ≡ codes ",\"rule\":\"" ++ rule_text rule ++ codes "\"" }
{
    match rule {
        Rule::Empty => b",\"rule\":\"empty\"",
        Rule::Order => b",\"rule\":\"order\"",
        Rule::Start => b",\"rule\":\"start\"",
        Rule::Negative => b",\"rule\":\"negative\"",
        Rule::Tag => b",\"rule\":\"tag\"",
    }
}
