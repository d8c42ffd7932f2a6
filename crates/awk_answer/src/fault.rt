//! The faults that answer a line.

use awk_form::{FormFault, FormWhy};
use awk_types::{Fault, Name};
use awk_valid::{BufferFault, LoadFault, Rule};

/// A fault that answers a line.
#[derive(Drop)]
pub enum AnswerFault {
    /// The line is no JSON.
    Json,
    /// The line is JSON, and no line of a session.
    Query,
    /// The first break of the form: a node by its number in pre-order, and the cause against it.
    Form { node: u64, why: FormWhy },
    /// The buffer of a key, and the cause against it.
    Buffer { key: Name, why: BufferFault },
    /// The first key of a raw load whose bytes are not all there.
    Cut { key: Name },
    /// A place of a node, which is told by its number in pre-order, and the rule that it breaks.
    Invalid { node: u64, rule: Rule, place: u64 },
    /// A variable is not bound, a limit is passed, or an operation has no result. It is never want
    /// of memory.
    Evaluation(Fault),
}

/// A fault to tell, or want of memory.
#[derive(Drop)]
pub enum Refused {
    Told(AnswerFault),
    NoMemory,
}

impl From<FormFault> for Refused {
    ghost use Rattle.std.specs.Prelude.{◌≡◌, option_map};
    ghost use Rattle.awk_form.specs.Told.{refusal_told};
    ghost use Rattle.awk_answer.specs.Told.{refused_told};
    ghost use Rattle.awk_answer.specs.Refusals.{form_fault};

    ghost from_gives = { λ fault refused.
        refused_told refused ≡ option_map form_fault (refusal_told fault) };

    fn from(fault: FormFault) -> Refused {
        match fault {
            FormFault::Bad { node, why } => Refused::Told(AnswerFault::Form { node, why }),
            FormFault::Depth => Refused::Told(AnswerFault::Evaluation(Fault::Depth)),
            FormFault::Size => Refused::Told(AnswerFault::Evaluation(Fault::Size)),
            FormFault::NoMemory => Refused::NoMemory,
        }
    }
}

impl From<LoadFault> for Refused {
    ghost use Rattle.std.specs.Prelude.{◌≡◌, option_map};
    ghost use Rattle.awk_valid.specs.Loading.{told};
    ghost use Rattle.awk_answer.specs.Told.{refused_told};
    ghost use Rattle.awk_answer.specs.Refusals.{walk_fault};

    ghost from_gives = { λ fault refused.
        refused_told refused ≡ option_map walk_fault (told fault) };

    fn from(fault: LoadFault) -> Refused {
        match fault {
            LoadFault::Buffer { key, why } => Refused::Told(AnswerFault::Buffer { key, why }),
            LoadFault::Invalid { node, rule, place } => {
                Refused::Told(AnswerFault::Invalid { node, rule, place })
            }
            LoadFault::Depth => Refused::Told(AnswerFault::Evaluation(Fault::Depth)),
            LoadFault::Size => Refused::Told(AnswerFault::Evaluation(Fault::Size)),
            LoadFault::NoMemory => Refused::NoMemory,
        }
    }
}
