//! Numbers and truth values as one lane.
ghost use Rattle.std.specs.Prelude.{◌≡◌, map, true, IfOk};
ghost use Rattle.serde_json.specs.View.{view, number_view};
ghost use Rattle.awk_types.specs.DataType.{leaf};
ghost use Rattle.awk_lanes.specs.Numbers.{IsOf, int_of};
ghost use Rattle.awk_layout.specs.Kinds as kinds;
ghost use Rattle.awk_plain.specs.Plain.{fits, is_whole, number_in};
ghost use Rattle.awk_plain_columns.specs.Suited.{AllSuit, IsColumnOf, Suits, lane_number};

use awk_lanes::{Arena, Num, Numbers, Steps, made_lane};
use awk_layout::{Node, kind_of};
use awk_types::{NoMemory, Prim};
use serde_json::{Number, Value};
use std::sync::ledger::Ledger;

/// Values of a leaf, by their places.
#[derive(Drop)]
struct Leaves<'s, 'v> {
    prim: Prim,
    values: &'s [&'v Value],
}

impl<'s, 'v> Numbers for Leaves<'s, 'v> {
    ghost use Rattle.std.specs.Prelude.{get_or, length, map};
    ghost use Rattle.serde_json.specs.Data.{null};
    ghost use Rattle.serde_json.specs.View.{view};
    ghost use Rattle.awk_types.specs.DataType.{leaf};
    ghost use Rattle.awk_layout.specs.Kinds as kinds;
    ghost use Rattle.awk_plain_columns.specs.Suited.{AllSuit, lane_number};

    ghost kind = { λ f. kinds.kind_of f.prim };

    ghost at = { λ f i. lane_number (get_or (map (λ v. view v.now) f.values.now) i null) };

    ghost size = { λ f. length f.values.now };

    ghost IsReady = { λ f. AllSuit (leaf f.prim) (map (λ v. view v.now) f.values.now) };

    fn number<L: Ledger>(&self, i: u64, _steps: &mut Steps<L>) -> Num {
        leaf_number(self.prim, self.values[i as usize])
    }
}

/// A whole number that fits int64.
fn whole_number(n: &Number) -> i64
    requires whole { is_whole (number_view n.now) ≡ true }
    requires fits { fits (number_view n.now) ≡ true }
    ensures { result ≡ number_in (number_view n.now) }
{
    match n.as_i64() {
        Some(z) => z,
        None => unreachable!(),
    }
}

/// The number that a value of a leaf has in a lane.
fn leaf_number(prim: Prim, value: &Value) -> Num
    requires { Suits (leaf prim) (view value.now) }
    ensures number { int_of result ≡ lane_number (view value.now) }
    ensures kind { IsOf (kinds.kind_of prim) result }
{
    match value {
        Value::Bool(b) => Num::Truth(*b),
        Value::Number(n) => Num::Int(whole_number(n)),
        _ => unreachable!(),
    }
}

/// The column of values of a leaf.
pub(crate) fn leaf_column<'a, 'v, L: Ledger>(
    prim: Prim,
    values: &[&'v Value],
    arena: &'a Arena,
    steps: &mut Steps<L>,
) -> Result<Node<'a>, NoMemory>
    requires { AllSuit (leaf prim) (map (λ v. view v.now) values.now) }
    ensures { IfOk result (IsColumnOf (leaf prim) (map (λ v. view v.now) values.now)) }
{
    let source = Leaves { prim, values };
    let lane = made_lane(kind_of(prim), values.len() as u64, &source, arena, steps)?;
    Ok(Node::numpy(lane, steps))
}
