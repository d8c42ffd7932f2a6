//! The type of a value, or the first fault of a value that makes no array.
ghost use Rattle.std.specs.Prelude.{◌≡◌};
ghost use Rattle.awk_types.specs.Faults.{fault_told};
ghost use Rattle.awk_types.specs.Gives.{Gives, refused_or};
ghost use Rattle.awk_types.specs.View.{typ_of};
ghost use Rattle.awk_plain.specs.Plain as spec;
ghost use Rattle.awk_plain.specs.Plain.{plain_fault};
ghost use Rattle.serde_json.specs.View.{view};

use crate::judged::judged;
use crate::types::type_of;
use awk_types::{Fault, Typ};
use serde_json::Value;
use std::alloc::Global;

/// The type of a value, or the first fault.
///
/// `WrongType` tells a text or a number that is no whole one, anywhere; else `Overflow` a whole
/// number that does not fit int64; else `Depth` or `Size` the limit that the first type passes that
/// is made.
pub fn plain_type(alloc: Global, v: &Value) -> Result<Typ, Fault>
    ensures { Gives typ_of fault_told result
        (refused_or (plain_fault (view v.now)) (spec.plain_type (view v.now))) }
{
    judged(v)?;
    Ok(type_of(alloc, v)?)
}
