//! The items of arrays at places.
ghost use Rattle.std.specs.Prelude.{◌≡◌, ◌+◌, ◌*◌, ◌≤◌, true, IfOk};
ghost use Rattle.awk_types.specs.Faults.{fault_told};
ghost use Rattle.awk_types.specs.Gives.{Gives};
ghost use Rattle.awk_lanes.specs.Places.{size_of, IsIndex, IsOptionalIndex};
ghost use Rattle.awk_lanes.specs.declared.kind.Kind.TheVariants as Kind;
ghost use Rattle.awk_layout.specs.Layout.{indexed, is_rows, held, weight};
ghost use Rattle.awk_layout.specs.Typing.{array_datum};
ghost use Rattle.awk_layout.specs.Valid.{len};
ghost use Rattle.awk_gather.specs.Arrays.{IsGathered, IsGatheredOpt, picked_or_null, index_over};

use crate::composing::option_over;
use crate::pick::gather_outer;
use awk_lanes::{Arena, Lane, Steps};
use awk_layout::Array;
use awk_types::{Fault, NoMemory};
use std::alloc::Global;
use std::sync::ledger::Ledger;

/// The items of an array at places, in the order of the places, which may repeat.
///
/// The places become an index over records, in 32 bits where there are at most 2^32 of them. No
/// other array is put behind a further index.
///
/// How it works, which no clause says: numbers, starts and stops, masks and indexes are moved, and
/// contents stay, but for that of a regular array, which is gathered.
pub fn gather<'a, L: Ledger>(
    alloc: Global,
    x: &Array<'a>,
    places: &Lane<'a>,
    arena: &'a Arena,
    steps: &mut Steps<L>,
) -> Result<Array<'a>, NoMemory>
    requires kind { places.now.kind ≡ Kind.I64 }
    requires places { IsIndex places.now (len x.now) }
    ensures gathered { IfOk result (IsGathered x.now places.now) }
    ensures held { IfOk result (λ r. held r ≤ held x.now) }
    ensures nodes { IfOk result (λ r. weight r ≤ weight x.now + 1) }
    ensures rows { is_rows x.now ≡ true →
        IfOk result (λ r. r ≡ indexed (index_over (len x.now) places.now) x.now) }
    ensures cost { is_rows x.now ≡ true →
        steps.new ≤ steps.old + (4 * weight x.now + 2 * size_of places.now) }
{
    let _ = x.typ();
    let node = gather_outer(alloc, x.node(), places, arena, steps)?;
    Array::of_node(alloc, node)
}

/// The items of an array at places, and null at each negative number. The type is the option of the
/// array's, or `Depth` or `Size` tells the limit that it passes.
pub fn gather_opt<'a, L: Ledger>(
    alloc: Global,
    x: &Array<'a>,
    places: &Lane<'a>,
    arena: &'a Arena,
    steps: &mut Steps<L>,
) -> Result<Array<'a>, Fault>
    requires kind { places.now.kind ≡ Kind.I64 }
    requires places { IsOptionalIndex places.now (len x.now) }
    ensures answer { Gives array_datum fault_told result (picked_or_null x.now places.now) }
    ensures gathered { IfOk result (IsGatheredOpt x.now places.now) }
    ensures held { IfOk result (λ r. held r ≤ held x.now + 1) }
{
    let _ = x.typ();
    let node = option_over(alloc, x.node(), places, arena, steps)?;
    Ok(Array::new(alloc, node)?)
}
