//! Numbers as those of a primitive.
ghost use Rattle.awk_parts.specs.Fits.{IsFitting};

use awk_lanes::Num;
use awk_layout::number_of;
use awk_primitives::fits;
use awk_types::Prim;

/// A number as one of a primitive, if the primitive holds it.
#[tactic(auto, using(awk_primitives::proofs::RangeLaws::fits_holds))]
pub(crate) fn fitting(prim: Prim, z: i128) -> Option<Num>
    ensures { IsFitting prim z result }
{
    if fits(prim, z) {
        Some(number_of(prim, z))
    } else {
        None
    }
}
