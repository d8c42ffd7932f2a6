//! Options over numbers of 64 bits, filled in one pass.
ghost use Rattle.std.specs.Prelude.{◌≡◌, ◌<◌, ◌^◌, IfOk, IfSome};
ghost use Rattle.awk_lanes.specs.Places.{size_of, IsOptionalIndex};
ghost use Rattle.awk_lanes.specs.declared.kind.Kind.TheVariants as Kinds;
ghost use Rattle.awk_layout.specs.Filler.{Filler, filler_value};
ghost use Rattle.awk_layout.specs.Typing.{array_type};
ghost use Rattle.awk_layout.specs.Valid.{len};
ghost use Rattle.awk_fill.specs.Filled.{filled_lane, IsFirst, IsFilledOption};
ghost use Rattle.awk_fill.specs.FillNone.{filler_type};

use awk_index::{Index, index_of};
use awk_lanes::{Arena, Kind, Lane, Num, Numbers, Steps, made_lane};
use awk_layout::{Array, Node, wide_numbers};
use awk_narrow::{OptionIndex, narrow_index};
use awk_types::NoMemory;
use std::alloc::Global;
use std::sync::ledger::Ledger;

/// The numbers that the index of an option names, and another number for each null.
#[derive(Drop)]
struct FilledNumbers<'b, 'a, I: OptionIndex> {
    index: &'b I,
    numbers: &'b Index<'a>,
    filler: i64,
}

impl<'b, 'a, I: OptionIndex> Numbers for FilledNumbers<'b, 'a, I> {
    ghost use Rattle.awk_lanes.specs.Places.{size_of, option_place_at, IsOptionalIndex};
    ghost use Rattle.awk_lanes.specs.declared.kind.Kind.TheVariants as Kinds;
    ghost use Rattle.awk_fill.specs.Filled.{number_or};

    ghost kind = { λ _. Kinds.I64 };

    ghost at = { λ f i. number_or f.filler f.numbers.now
        (option_place_at (I.lane f.index.now) i) };

    ghost size = { λ f. size_of (I.lane f.index.now) };

    ghost IsReady = { λ f. IsOptionalIndex (I.lane f.index.now) (size_of f.numbers.now) };

    fn number<L: Ledger>(&self, i: u64, _steps: &mut Steps<L>) -> Num {
        match self.index.place(i) {
            Some(place) => Num::Int(self.numbers.number(place)),
            None => Num::Int(self.filler),
        }
    }
}

/// These as a lane, by an index whose numbers are seen at once.
fn filled_by<'a, I: OptionIndex, L: Ledger>(
    index: &I,
    numbers: &Index<'a>,
    filler: i64,
    arena: &'a Arena,
    steps: &mut Steps<L>,
) -> Result<Lane<'a>, NoMemory>
    requires index { IsOptionalIndex (I.lane index.now) (size_of numbers.now) }
    ensures { IfOk result (λ r. r ≡ filled_lane filler numbers.now (I.lane index.now)) }
{
    let filled = FilledNumbers {
        index,
        numbers,
        filler,
    };
    made_lane(Kind::I64, index.size(), &filled, arena, steps)
}

/// The same by a lane of an index.
fn filled_lane<'a, L: Ledger>(
    alloc: Global,
    index: &Lane<'a>,
    numbers: &Index<'a>,
    filler: i64,
    arena: &'a Arena,
    steps: &mut Steps<L>,
) -> Result<Lane<'a>, NoMemory>
    requires index { IsOptionalIndex index.now (size_of numbers.now) }
    ensures { IfOk result (λ r. r ≡ filled_lane filler numbers.now index.now) }
{
    if index.kind() == Kind::I32 {
        let index = narrow_index(index, steps);
        return filled_by(&index, numbers, filler, arena, steps);
    }
    let index = index_of(alloc, index, arena, steps)?;
    filled_by(&index, numbers, filler, arena, steps)
}

/// The nulls of an option as the first item of an array, where what is present and this array are
/// lanes of numbers of 64 bits with a sign.
pub(crate) fn filled_numbers<'a, L: Ledger>(
    alloc: Global,
    index: &Lane<'a>,
    present: &Array<'a>,
    own: &Array<'a>,
    arena: &'a Arena,
    steps: &mut Steps<L>,
) -> Result<Option<Node<'a>>, NoMemory>
    requires fits { size_of index.now < 2 ^ 63 }
    requires index { IsOptionalIndex index.now (len present.now) }
    requires some { 0 < len own.now }
    ensures { (f : Filler) →
        IsFirst (filler_type f (array_type present.now)) (filler_value f) own.now →
        IfOk result (λ r. IfSome r (IsFilledOption f index.now present.now)) }
{
    match wide_numbers(present, steps) {
        Some(numbers) => match wide_numbers(own, steps) {
            Some(fillers) => {
                let filler = fillers.number(0);
                let lane = filled_lane(alloc, index, &numbers, filler, arena, steps)?;
                Ok(Some(Node::numpy(lane, steps)))
            }
            None => Ok(None),
        },
        None => Ok(None),
    }
}
