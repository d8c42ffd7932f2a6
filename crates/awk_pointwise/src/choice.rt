//! Choices between two sides by a third.
ghost use Rattle.std.specs.Prelude.{◌≡◌, ◌<◌, Ok, IfOk};
ghost use Rattle.awk_types.specs.Faults.{fault_told};
ghost use Rattle.awk_types.specs.Gives.{Gives};
ghost use Rattle.awk_types.specs.Parts.{option_number};
ghost use Rattle.awk_types.specs.declared.primitive.Primitive.{Primitive};
ghost use Rattle.awk_lanes.specs.Numbers.{int_of, IsOf};
ghost use Rattle.awk_lanes.specs.Places.{size_of};
ghost use Rattle.awk_lanes.specs.declared.kind.Kind.TheVariants as Kind;
ghost use Rattle.awk_layout.specs.Kinds.{kind_of};
ghost use Rattle.awk_leaves.specs.Table.{choice_judged};
ghost use Rattle.awk_leaves.specs.Values.{choice_values, chosen_values};
ghost use Rattle.awk_pointwise.specs.Choice.{chosen_items, chosen_value, HasPlaces};
ghost use Rattle.awk_pointwise.specs.Optional.{optional_type, optional_values, IsOptional};
ghost use Rattle.awk_pointwise.specs.Optional.{AreKnown};
ghost use Rattle.awk_pointwise.specs.Sides.{IsLeafNumber};

use crate::optional::{Optional, know, optional_number};
use crate::selection::{whole_choice, whole_parts};
use awk_kernels::Kernels;
use awk_lanes::{Arena, Kind, Lane, NoMemory, Num, Numbers, Steps, made_lane};
use awk_layout::kind_of;
use awk_leaves::choice_prim;
use awk_types::{Fault, Prim};
use std::alloc::Global;
use std::sync::ledger::Ledger;

/// The numbers that were chosen, and where there is none.
#[derive(Drop)]
pub struct Chosen<'a> {
    /// 1 where it is null, else 0: a mask of bytes.
    pub nulls: Lane<'a>,
    pub lane: Lane<'a>,
}

/// A condition, and the sides between which it chooses.
#[derive(Clone, Copy)]
struct Choice<'s, 'b, 'a> {
    condition: &'s Optional<'b, 'a>,
    x: &'s Optional<'b, 'a>,
    y: &'s Optional<'b, 'a>,
}

/// The number that is chosen at place i, or none where it is null.
fn chosen_number<L: Ledger>(choice: &Choice, i: u64, steps: &mut Steps<L>) -> Option<i128>
    requires { HasPlaces i choice.now }
    ensures { result ≡ option_number (chosen_value choice.now i) }
{
    match optional_number(choice.condition, i, steps) {
        None => None,
        Some(truth) => {
            if truth == 0 {
                optional_number(choice.y, i, steps)
            } else {
                optional_number(choice.x, i, steps)
            }
        }
    }
}

/// A number as it lies in a lane of the primitive.
fn num_in(prim: Prim, z: i128) -> Num
    requires { IsLeafNumber prim z }
    ensures number { int_of result ≡ z }
    ensures kind { IsOf (kind_of prim) result }
{
    match prim {
        Prim::Bool => Num::Truth(z != 0),
        Prim::I8 | Prim::I16 | Prim::I32 | Prim::I64 => Num::Int(z as i64),
        Prim::U8 | Prim::U16 | Prim::U32 | Prim::U64 => Num::Nat(z as u64),
    }
}

/// The numbers that are chosen, and 0 where there is none.
#[derive(Drop)]
struct ChosenNumbers<'s, 'b, 'a> {
    choice: Choice<'s, 'b, 'a>,
    prim: Prim,
    n: u64,
}

impl<'s, 'b, 'a> Numbers for ChosenNumbers<'s, 'b, 'a> {
    ghost use Rattle.awk_types.specs.Parts.{number_of};
    ghost use Rattle.awk_pointwise.specs.Choice.{AreChosen};

    ghost kind = { λ s. kind_of s.prim };

    ghost at = { λ s i. number_of (chosen_value s.choice i) };

    ghost size = { λ s. s.n };

    ghost IsReady = { λ s. AreChosen s.n s.prim s.choice };

    fn number<L: Ledger>(&self, i: u64, steps: &mut Steps<L>) -> Num {
        match chosen_number(&self.choice, i, steps) {
            Some(z) => num_in(self.prim, z),
            None => num_in(self.prim, 0),
        }
    }
}

/// 1 where nothing is chosen, else 0.
#[derive(Drop)]
struct ChosenNulls<'s, 'b, 'a> {
    choice: Choice<'s, 'b, 'a>,
    n: u64,
}

impl<'s, 'b, 'a> Numbers for ChosenNulls<'s, 'b, 'a> {
    ghost use Rattle.awk_lanes.specs.declared.kind.Kind.TheVariants as Kind;
    ghost use Rattle.awk_pointwise.specs.Choice.{null_number, AreWithin};

    ghost kind = { λ _. Kind.I8 };

    ghost at = { λ s i. null_number (chosen_value s.choice i) };

    ghost size = { λ s. s.n };

    ghost IsReady = { λ s. AreWithin s.n s.choice };

    fn number<L: Ledger>(&self, i: u64, steps: &mut Steps<L>) -> Num {
        match chosen_number(&self.choice, i, steps) {
            Some(_) => Num::Int(0),
            None => Num::Int(1),
        }
    }
}

/// The same, of sides of which some places may be null.
fn optional_choice<'a, L: Ledger>(
    prim: Prim,
    choice: &Choice,
    n: u64,
    arena: &'a Arena,
    steps: &mut Steps<L>,
) -> Result<Chosen<'a>, NoMemory>
    requires condition { IsOptional n choice.now.condition.now }
    requires first { IsOptional n choice.now.x.now }
    requires second { IsOptional n choice.now.y.now }
    requires first_known { AreKnown choice.now.x.now }
    requires second_known { AreKnown choice.now.y.now }
    requires judged { choice_judged (optional_type choice.now.condition.now)
        (optional_type choice.now.x.now) (optional_type choice.now.y.now) ≡ Ok prim }
    ensures items { IfOk result (λ r. chosen_items r ≡ chosen_values
        (optional_values n choice.now.condition.now) (optional_values n choice.now.x.now)
        (optional_values n choice.now.y.now)) }
    ensures kind { IfOk result (λ r. r.lane.kind ≡ kind_of prim) }
    ensures size { IfOk result (λ r. size_of r.lane ≡ n) }
    ensures nulls { IfOk result (λ r. size_of r.nulls ≡ n) }
    ensures mask { IfOk result (λ r. r.nulls.kind ≡ Kind.I8) }
{
    let choice = *choice;
    let lane = made_lane(
        kind_of(prim),
        n,
        &ChosenNumbers { choice, prim, n },
        arena,
        steps,
    )?;
    let nulls = made_lane(Kind::I8, n, &ChosenNulls { choice, n }, arena, steps)?;
    Ok(Chosen { nulls, lane })
}

/// What a condition chooses at each of n places: x's item where it is true, y's where it is not,
/// and null where it is null.
pub fn choice_leaves<'a, N: Kernels, L: Ledger>(
    alloc: Global,
    condition: &Optional,
    sides: (&Optional, &Optional),
    n: u64,
    kernels: &N,
    arena: &'a Arena,
    steps: &mut Steps<L>,
) -> Result<Chosen<'a>, Fault>
    requires condition { IsOptional n condition.now }
    requires first { IsOptional n sides.0.now }
    requires second { IsOptional n sides.1.now }
    ensures answer { Gives chosen_items fault_told result (choice_values
        (optional_type condition.now) (optional_type sides.entry.0.now)
        (optional_type sides.entry.1.now) (optional_values n condition.now)
        (optional_values n sides.entry.0.now) (optional_values n sides.entry.1.now)) }
    ensures kind { (p : Primitive) → choice_judged (optional_type condition.now)
        (optional_type sides.entry.0.now) (optional_type sides.entry.1.now) ≡ Ok p
        → IfOk result (λ r. r.lane.kind ≡ kind_of p) }
    ensures size { IfOk result (λ r. size_of r.lane ≡ n) }
    ensures nulls { IfOk result (λ r. size_of r.nulls ≡ n) }
    ensures mask { IfOk result (λ r. r.nulls.kind ≡ Kind.I8) }
{
    let (x, y) = sides;
    let prim = choice_prim(condition.leaf_type(), x.leaf_type(), y.leaf_type())?;
    know(x);
    know(y);
    match whole_parts(condition, x, y) {
        Some(whole) => whole_choice(alloc, prim, whole, n, kernels, arena, steps),
        None => {
            let choice = Choice { condition, x, y };
            Ok(optional_choice(prim, &choice, n, arena, steps)?)
        }
    }
}
