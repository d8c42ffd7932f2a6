//! What types tell, before anything is made.
ghost use Rattle.std.specs.Prelude.{◌≡◌, Some, option_map};
ghost use Rattle.awk_types.specs.Faults.{fault_told, limit_fault};
ghost use Rattle.awk_types.specs.Limit.{limit, limit_told};
ghost use Rattle.awk_types.specs.Simple.{simple};
ghost use Rattle.awk_types.specs.View.{typ_of};
ghost use Rattle.awk_list_functions.specs.Faults.{IsJudged};
ghost use Rattle.awk_list_functions.specs.Lift as spec;
ghost use Rattle.awk_list_functions.specs.Lifting.{refusal_fault, spoil_fault};
ghost use Rattle.awk_list_functions.specs.ListFunction.{made_type};

use crate::causes::{Refusal, Spoil};
use crate::function::ListOp;
use crate::place::Reach;
use crate::types::{lifted_type, refusal_at};
use awk_types::{Fault, NoMemory, Typ, TypeFault, simple_of};
use std::alloc::Global;

/// The fault of a refusal.
pub(crate) fn refused(why: Refusal) -> Fault
    ensures { fault_told result ≡ Some (refusal_fault why) }
{
    match why {
        Refusal::Axis => Fault::Axis,
        Refusal::WrongType => Fault::WrongType,
        Refusal::Overflow => Fault::Overflow,
    }
}

/// The fault of values that are refused.
pub fn spoilt(why: Spoil) -> Fault
    ensures { fault_told result ≡ Some (spoil_fault why) }
{
    match why {
        Spoil::Index => Fault::Index,
        Spoil::Size => Fault::Size,
        Spoil::Overflow => Fault::Overflow,
    }
}

/// The fault of a limit, or want of memory.
fn limited(why: TypeFault) -> Fault
    ensures { fault_told result ≡ option_map limit_fault (limit_told why) }
{
    match why {
        TypeFault::Depth => Fault::Depth,
        TypeFault::Size => Fault::Size,
        TypeFault::NoMemory => Fault::NoMemory,
    }
}

/// What types tell of the lists inside: why the type is refused, or the limit that the given type
/// passes.
#[tactic(auto, using(crate::proofs::JudgedTypes::judging))]
pub fn judged<F: ListOp>(alloc: Global, f: &F, k: Reach, t: &Typ) -> Result<(), Fault>
    ensures { let giving = (F.function f.now).giving in
        let refusal = spec.refusal_at (F.function f.now) k (typ_of t.now) in
        IsJudged refusal (limit (simple (spec.lifted_type giving k (typ_of t.now)))) result }
{
    if let Some(why) = refusal_at(f, k, t) {
        return Err(refused(why));
    }
    let given = lifted_type(alloc, f, k, t)?;
    match simple_of(alloc, given) {
        Ok(_) => Ok(()),
        Err(why) => Err(limited(why)),
    }
}

/// The same of a whole array as one list.
#[tactic(auto, using(crate::proofs::JudgedTypes::judging))]
pub fn judged_whole<F: ListOp>(alloc: Global, f: &F, t: &Typ) -> Result<(), Fault>
    ensures { let giving = (F.function f.now).giving in
        let refusal = (F.function f.now).refusal (typ_of t.now) in
        IsJudged refusal (limit (simple (made_type giving (typ_of t.now)))) result }
{
    if let Some(why) = f.refusal(t) {
        return Err(refused(why));
    }
    let given = f.typ(alloc, t)?;
    match simple_of(alloc, given) {
        Ok(_) => Ok(()),
        Err(why) => Err(limited(why)),
    }
}
