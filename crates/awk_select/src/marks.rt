//! What a value of a mask gives.
ghost use Rattle.std.specs.Prelude.{◌≡◌, ◌<◌, ◌^◌, map, if◌then◌else◌};
ghost use Rattle.awk_lanes.specs.Numbers.{int_of, IsOf};
ghost use Rattle.awk_lanes.specs.declared.kind.Kind.TheVariants as Kinds;
ghost use Rattle.awk_select.specs.Cells.{cell_shown, place_number};
ghost use Rattle.awk_select.specs.Kept.{kept};
ghost use Rattle.awk_select.specs.Picks.{mask_place};

use awk_lanes::{Num, number};

/// What a value of a mask gives: a number, if it is kept.
#[derive(Clone, Copy)]
pub struct Mark {
    pub keep: bool,
    pub number: Num,
}

/// What a value of a mask gives: the place that stands beside it where it is true, and -1 where it
/// is null.
#[inline(always)]
pub fn mark_of(value: Option<Num>, beside: u64) -> Mark
    requires { beside < 2 ^ 63 }
    ensures kind { IsOf Kinds.I64 result.number }
    ensures numbers { kept result.keep (int_of result.number)
        ≡ map place_number (mask_place beside (cell_shown value)) }
{
    match value {
        None => Mark {
            keep: true,
            number: Num::Int(-1),
        },
        Some(Num::Truth(true)) => Mark {
            keep: true,
            number: number(beside),
        },
        Some(_) => Mark {
            keep: false,
            number: number(beside),
        },
    }
}

/// 1 for true, else 0.
#[inline(always)]
pub fn one_if(keep: bool) -> u64
    ensures { result ≡ if keep then 1 else 0 }
{
    if keep { 1 } else { 0 }
}
