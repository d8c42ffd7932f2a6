//! Lanes of one number, and of the offsets of one list.
ghost use Rattle.std.specs.Prelude.{◌≡◌, ◌<◌, ◌^◌, ◌∷◌, [], pos, IfOk};
ghost use Rattle.awk_lanes.specs.declared.kind.Kind.TheVariants as Kinds;

use crate::kind::Kind;
use crate::lane::Lane;
use crate::maker::LaneMaker;
use crate::memory::{Arena, NoMemory};
use crate::readers::number;

/// A lane of one number.
pub fn one_number<'a>(n: u64, arena: &'a Arena) -> Result<Lane<'a>, NoMemory>
    requires { n < 2 ^ 63 }
    ensures { IfOk result (λ r. r ≡ record { kind = Kinds.I64; items = pos n ∷ [] }) }
{
    let mut maker = LaneMaker::new(Kind::I64, 1, arena)?;
    maker.push(number(n));
    Ok(maker.finish())
}

/// The offsets of one list of n items.
pub fn one_offsets<'a>(n: u64, arena: &'a Arena) -> Result<Lane<'a>, NoMemory>
    requires { n < 2 ^ 63 }
    ensures { IfOk result (λ r. r ≡ record { kind = Kinds.I64; items = pos 0 ∷ pos n ∷ [] }) }
{
    let mut maker = LaneMaker::new(Kind::I64, 2, arena)?;
    maker.push(number(0));
    maker.push(number(n));
    Ok(maker.finish())
}
