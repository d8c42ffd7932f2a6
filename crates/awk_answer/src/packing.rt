//! The packed buffers of a datum, as an answer.
ghost use Rattle.std.specs.Prelude.{◌≡◌, IfOk};
ghost use Rattle.awk_layout.specs.Datum.{datum_of};
ghost use Rattle.awk_answer.specs.AnswerView.{answer_view, IsAnswer};
ghost use Rattle.awk_answer.specs.Shown.{pack_shown};

use crate::answer::Answer;
use crate::fault::AnswerFault;
use awk_lanes::{Arena, Steps};
use awk_layout::Datum;
use awk_pack::{PackFault, pack};
use awk_types::Fault;
use std::alloc::{AllocError, Global};
use std::sync::ledger::Ledger;

/// The packed buffers of an array. A single value has none.
pub fn packed<'v, 's, L: Ledger>(
    alloc: Global,
    datum: &Datum<'s>,
    arena: &'s Arena,
    steps: &mut Steps<L>,
) -> Result<Answer<'v, 's>, AllocError>
    ensures shown { IfOk result (λ answer. answer_view answer ≡ pack_shown (datum_of datum.now)) }
    ensures answer { IfOk result IsAnswer }
{
    let Datum::Arr(array) = datum else {
        return Ok(Answer::Fault(AnswerFault::Evaluation(Fault::WrongType)));
    };
    match pack(alloc, array, arena, steps) {
        Ok(p) => Ok(Answer::Packed(p)),
        Err(PackFault::Size) => Ok(Answer::Fault(AnswerFault::Evaluation(Fault::Size))),
        Err(PackFault::NoMemory) => Err(AllocError),
    }
}
