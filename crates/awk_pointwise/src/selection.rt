//! Choices where no place is null: of two lanes of one kind from where they lie, else block by
//! block.
ghost use Rattle.std.specs.Prelude.{◌≡◌, length, map, Ok, IfOk, IfSome};
ghost use Rattle.std.specs.List.{AllByRecursion};
ghost use Rattle.awk_types.specs.Faults.{fault_told};
ghost use Rattle.awk_types.specs.Gives.{Gives};
ghost use Rattle.awk_types.specs.declared.primitive.Primitive.TheVariants as prims;
ghost use Rattle.awk_lanes.specs.Places.{size_of};
ghost use Rattle.awk_lanes.specs.Words.{column};
ghost use Rattle.awk_lanes.specs.declared.kind.Kind.TheVariants as Kind;
ghost use Rattle.awk_kernels.specs.Kernels.{chosen};
ghost use Rattle.awk_layout.specs.Kinds.{kind_of};
ghost use Rattle.awk_leaves.specs.Values.{all_values, chosen_values};
ghost use Rattle.awk_pointwise.specs.Choice.{chosen_items};
ghost use Rattle.awk_pointwise.specs.Numbers.{word_numbers};
ghost use Rattle.awk_pointwise.specs.Selection.{IsSelection, IsMask, IsWhole, AreWhole};
ghost use Rattle.awk_pointwise.specs.Selection.{IsLaneOf, AreLanesOf};
ghost use Rattle.awk_pointwise.specs.Sides.{lane_values, side_values, IsLeafNumber};

use crate::blocks::{Blocks, lane_by_blocks};
use crate::choice::Chosen;
use crate::optional::Optional;
use crate::see::see_part;
use crate::sides::Side;
use crate::words::{Words, ints, nats};
use awk_index::byte_numbers;
use awk_kernels::Kernels;
use awk_lane_pairs::chosen_lane;
use awk_lanes::{
    Arena, Kind, Lane, NoMemory, Num, Numbers, Steps, lane_of_nats, lane_of_numbers, made_lane,
};
use awk_layout::kind_of;
use awk_types::{Fault, Prim};
use std::alloc::Global;
use std::sync::ledger::Ledger;

/// A condition and two sides of which no place is null.
#[derive(Clone, Copy)]
pub(crate) struct Whole<'s, 'b, 'a> {
    pub(crate) mask: &'s Lane<'a>,
    pub(crate) x: &'s Side<'b, 'a>,
    pub(crate) y: &'s Side<'b, 'a>,
}

fn select_ints<N: Kernels>(
    alloc: Global,
    mask: &[u8],
    a: &[i64],
    b: &[i64],
    kernels: &N,
) -> Result<Vec<i64>, NoMemory>
    requires first { length a.now ≡ length mask.now }
    requires second { length b.now ≡ length mask.now }
    ensures { IfOk result (λ v. v.items ≡ chosen mask.now a.now b.now) }
{
    let mut out = vec![in alloc; 0i64; mask.len()]?;
    kernels.select_i64(mask, a, b, &mut out);
    Ok(out)
}

fn select_nats<N: Kernels>(
    alloc: Global,
    mask: &[u8],
    a: &[u64],
    b: &[u64],
    kernels: &N,
) -> Result<Vec<u64>, NoMemory>
    requires first { length a.now ≡ length mask.now }
    requires second { length b.now ≡ length mask.now }
    ensures { IfOk result (λ v. v.items ≡ chosen mask.now a.now b.now) }
{
    let mut out = vec![in alloc; 0u64; mask.len()]?;
    kernels.select_u64(mask, a, b, &mut out);
    Ok(out)
}

/// What a mask chooses of numbers that all fit an i64.
fn selected_ints<'a, N: Kernels>(
    alloc: Global,
    prim: Prim,
    mask: &[u8],
    sides: (Words, Words),
    kernels: &N,
    arena: &'a Arena,
) -> Result<Lane<'a>, NoMemory>
    requires other { prim ≡ prims.U64 → ⊥ }
    requires a { AllByRecursion (IsLeafNumber prim) (word_numbers sides.0) }
    requires b { AllByRecursion (IsLeafNumber prim) (word_numbers sides.1) }
    requires first { length (word_numbers sides.0) ≡ length mask.now }
    requires second { length (word_numbers sides.1) ≡ length mask.now }
    ensures { IfOk result (λ r. r ≡ column (kind_of prim)
        (chosen mask.now (word_numbers sides.0) (word_numbers sides.1))) }
{
    let a = ints(alloc, sides.0)?;
    let b = ints(alloc, sides.1)?;
    let numbers = select_ints(alloc, mask, &a, &b, kernels)?;
    lane_of_numbers(kind_of(prim), &numbers, arena)
}

/// What a mask chooses of numbers of uint64.
fn selected_nats<'a, N: Kernels>(
    alloc: Global,
    mask: &[u8],
    sides: (Words, Words),
    kernels: &N,
    arena: &'a Arena,
) -> Result<Lane<'a>, NoMemory>
    requires a { AllByRecursion (IsLeafNumber prims.U64) (word_numbers sides.0) }
    requires b { AllByRecursion (IsLeafNumber prims.U64) (word_numbers sides.1) }
    requires first { length (word_numbers sides.0) ≡ length mask.now }
    requires second { length (word_numbers sides.1) ≡ length mask.now }
    ensures { IfOk result (λ r. r ≡ column Kind.U64
        (chosen mask.now (word_numbers sides.0) (word_numbers sides.1))) }
{
    let a = nats(alloc, sides.0)?;
    let b = nats(alloc, sides.1)?;
    let numbers = select_nats(alloc, mask, &a, &b, kernels)?;
    lane_of_nats(Kind::U64, &numbers, arena)
}

/// What a mask chooses of numbers of a primitive.
fn selected<'a, N: Kernels>(
    alloc: Global,
    prim: Prim,
    mask: &[u8],
    sides: (Words, Words),
    kernels: &N,
    arena: &'a Arena,
) -> Result<Lane<'a>, NoMemory>
    requires a { AllByRecursion (IsLeafNumber prim) (word_numbers sides.0) }
    requires b { AllByRecursion (IsLeafNumber prim) (word_numbers sides.1) }
    requires first { length (word_numbers sides.0) ≡ length mask.now }
    requires second { length (word_numbers sides.1) ≡ length mask.now }
    ensures { IfOk result (λ r. r ≡ column (kind_of prim)
        (chosen mask.now (word_numbers sides.0) (word_numbers sides.1))) }
{
    match prim {
        Prim::U64 => selected_nats(alloc, mask, sides, kernels, arena),
        _ => selected_ints(alloc, prim, mask, sides, kernels, arena),
    }
}

/// A choice between two sides of n places by a lane of truth values, in the primitive of both.
#[derive(Drop)]
struct Selection<'s, 'b, 'a, N: Kernels> {
    alloc: Global,
    prim: Prim,
    mask: &'s Lane<'a>,
    x: &'s Side<'b, 'a>,
    y: &'s Side<'b, 'a>,
    n: u64,
    kernels: &'s N,
}

impl<'s, 'b, 'a, N: Kernels> Blocks for Selection<'s, 'b, 'a, N> {
    ghost kind = { λ s. kind_of s.prim };

    ghost results = { λ s. map (λ v. Ok v) (chosen_values (lane_values s.mask.now)
        (side_values s.n s.x.now) (side_values s.n s.y.now)) };

    ghost IsReady = { λ s. IsSelection s.prim s.n s.mask.now s.x.now s.y.now };

    fn block<'r, L: Ledger>(
        &self,
        lo: u64,
        hi: u64,
        arena: &'r Arena,
        steps: &mut Steps<L>,
    ) -> Result<Lane<'r>, Fault> {
        let mask = self.mask.cut(lo, hi, steps);
        let bytes = byte_numbers(&mask, steps);
        let a = see_part(self.alloc, self.x, lo, hi, steps)?;
        let b = see_part(self.alloc, self.y, lo, hi, steps)?;
        let lane = selected(self.alloc, self.prim, bytes, (a, b), self.kernels, arena)?;
        Ok(lane)
    }
}

/// Two lanes between which is chosen.
#[derive(Clone, Copy)]
struct Both<'s, 'a> {
    x: &'s Lane<'a>,
    y: &'s Lane<'a>,
}

/// The lane of a side, if it is of a kind.
fn lane_of<'s, 'b, 'a>(side: &'s Side<'b, 'a>, kind: Kind) -> Option<&'s Lane<'a>>
    ensures { IfSome result (λ lane. IsLaneOf kind side.now lane.now) }
{
    match side {
        Side::Column(lane) => {
            if lane.kind() == kind {
                Some(lane)
            } else {
                None
            }
        }
        _ => None,
    }
}

/// The lanes of both sides, if they are of a kind.
fn lanes_of<'s, 'b, 'a>(whole: Whole<'s, 'b, 'a>, kind: Kind) -> Option<Both<'s, 'a>>
    ensures { IfSome result (AreLanesOf kind whole.entry.x.now whole.entry.y.now) }
{
    let x = lane_of(whole.x, kind)?;
    let y = lane_of(whole.y, kind)?;
    Some(Both { x, y })
}

/// The numbers that a lane of truth values chooses of two lanes of one kind.
fn chosen_of_lanes<'a, L: Ledger>(
    mask: &Lane,
    x: &Lane,
    y: &Lane,
    arena: &'a Arena,
    steps: &mut Steps<L>,
) -> Result<Lane<'a>, NoMemory>
    requires mask { mask.now.kind ≡ Kind.Bool }
    requires kinds { y.now.kind ≡ x.now.kind }
    requires first { size_of x.now ≡ size_of mask.now }
    requires second { size_of y.now ≡ size_of mask.now }
    ensures values { IfOk result (λ r. lane_values r
        ≡ chosen_values (lane_values mask.now) (lane_values x.now) (lane_values y.now)) }
    ensures kind { IfOk result (λ r. r.kind ≡ x.now.kind) }
{
    let bytes = byte_numbers(mask, steps);
    chosen_lane(bytes, x, y, arena, steps)
}

/// What a lane of truth values chooses of two sides, as a lane.
fn chosen_of_sides<'a, N: Kernels, L: Ledger>(
    alloc: Global,
    prim: Prim,
    whole: Whole,
    n: u64,
    kernels: &N,
    arena: &'a Arena,
    steps: &mut Steps<L>,
) -> Result<Lane<'a>, Fault>
    requires { IsSelection prim n whole.mask.now whole.x.now whole.y.now }
    ensures answer { Gives lane_values fault_told result (all_values (map (λ v. Ok v)
        (chosen_values (lane_values whole.entry.mask.now) (side_values n whole.entry.x.now)
        (side_values n whole.entry.y.now)))) }
    ensures kind { IfOk result (λ r. r.kind ≡ kind_of prim) }
{
    let kind = kind_of(prim);
    match lanes_of(whole, kind) {
        Some(both) => {
            let lane = chosen_of_lanes(whole.mask, both.x, both.y, arena, steps)?;
            Ok(lane)
        }
        None => {
            let selection = Selection {
                alloc,
                prim,
                mask: whole.mask,
                x: whole.x,
                y: whole.y,
                n,
                kernels,
            };
            lane_by_blocks(alloc, kind, n, &selection, arena, steps)
        }
    }
}

/// A mask under which nothing is null.
#[derive(Drop)]
struct NoNulls {
    n: u64,
}

impl Numbers for NoNulls {
    ghost use Rattle.std.specs.Prelude.{pos};
    ghost use Rattle.awk_lanes.specs.declared.kind.Kind.TheVariants as Kind;

    ghost kind = { λ _. Kind.I8 };

    ghost at = { λ _ _. pos 0 };

    ghost size = { λ s. s.n };

    fn number<L: Ledger>(&self, _i: u64, _steps: &mut Steps<L>) -> Num {
        Num::Int(0)
    }
}

/// What a lane of truth values chooses of two sides.
pub(crate) fn whole_choice<'a, N: Kernels, L: Ledger>(
    alloc: Global,
    prim: Prim,
    whole: Whole,
    n: u64,
    kernels: &N,
    arena: &'a Arena,
    steps: &mut Steps<L>,
) -> Result<Chosen<'a>, Fault>
    requires { IsSelection prim n whole.mask.now whole.x.now whole.y.now }
    ensures answer { Gives chosen_items fault_told result (Ok (chosen_values
        (lane_values whole.entry.mask.now) (side_values n whole.entry.x.now)
        (side_values n whole.entry.y.now))) }
    ensures kind { IfOk result (λ r. r.lane.kind ≡ kind_of prim) }
    ensures size { IfOk result (λ r. size_of r.lane ≡ n) }
    ensures nulls { IfOk result (λ r. size_of r.nulls ≡ n) }
    ensures mask { IfOk result (λ r. r.nulls.kind ≡ Kind.I8) }
{
    let lane = chosen_of_sides(alloc, prim, whole, n, kernels, arena, steps)?;
    let nulls = made_lane(Kind::I8, n, &NoNulls { n }, arena, steps)?;
    Ok(Chosen { nulls, lane })
}

fn whole_of<'s, 'b, 'a>(optional: &'s Optional<'b, 'a>) -> Option<&'s Side<'b, 'a>>
    ensures { IfSome result (λ side. IsWhole optional.now side.now) }
{
    match optional {
        Optional::Whole(side) => Some(side),
        _ => None,
    }
}

fn mask_of<'s, 'b, 'a>(side: &'s Side<'b, 'a>) -> Option<&'s Lane<'a>>
    ensures { IfSome result (λ mask. IsMask side.now mask.now) }
{
    match side {
        Side::Column(lane) => match lane.kind() {
            Kind::Bool => Some(lane),
            _ => None,
        },
        _ => None,
    }
}

/// A condition and two sides, where no place of them is null.
pub(crate) fn whole_parts<'s, 'b, 'a>(
    condition: &'s Optional<'b, 'a>,
    x: &'s Optional<'b, 'a>,
    y: &'s Optional<'b, 'a>,
) -> Option<Whole<'s, 'b, 'a>>
    ensures { IfSome result (AreWhole condition.now x.now y.now) }
{
    let condition = whole_of(condition)?;
    let mask = mask_of(condition)?;
    let x = whole_of(x)?;
    let y = whole_of(y)?;
    Some(Whole { mask, x, y })
}
