//! Rows of several operands' items, over the lists and nulls that the operands share.
ghost use Rattle.std.specs.Prelude.{◌≡◌, ◌<◌, ◌-◌, false, length, map, option_map, Some, IfOk};
ghost use Rattle.std.specs.Prelude.{if◌then◌else◌};
ghost use Rattle.awk_types.specs.Faults.{fault_told, limit_refused};
ghost use Rattle.awk_types.specs.Gives.{Gives, refused_or};
ghost use Rattle.awk_types.specs.View.{typ_of};
ghost use Rattle.awk_layout.specs.Array.{IsArrayType};
ghost use Rattle.awk_layout.specs.Datum.{datum_of, IsDatum};
ghost use Rattle.awk_layout.specs.Typing.{array_type, array_items};
ghost use Rattle.awk_layout.specs.Valid.{AreNames};
ghost use Rattle.awk_pair_operands.specs.Answer.{single_or_fault};
ghost use Rattle.awk_pair_operands.specs.First.{all_data};
ghost use Rattle.awk_zip.specs.Zip.{zip_of, zip_type, zip_values};

use crate::counted::is_large;
use crate::data::operands_of;
use crate::rows::row_node;
use awk_frames::framed;
use awk_lanes::{Arena, Steps};
use awk_layout::{Array, Datum, Datums, Node, Operands};
use awk_pair::pair;
use awk_pair_operands::datum_from;
use awk_pair_types::{pair_types, typ_within};
use awk_types::{Fault, Names, Typ};
use std::alloc::Global;
use std::sync::ledger::Ledger;

/// What operands are zipped to: one node, of which a single value has one item.
#[derive(Drop)]
struct Zipped<'a> {
    single: bool,
    node: Node<'a>,
}

/// The type of what operands are zipped to, or the limit that it passes.
fn zip_typ<'a, L: Ledger>(
    alloc: Global,
    depth: u64,
    names: Option<&Names>,
    xs: &Operands<'a>,
    arena: &'a Arena,
    steps: &mut Steps<L>,
) -> Result<Typ, Fault>
    requires some { 0 < length xs.now }
    requires names { AreNames (option_map (λ names. names.now) names) (length xs.now) }
    ensures answer { let named = option_map (λ names. names.now) names.entry in
        let t = zip_type depth named (all_data xs.now) in
        Gives typ_of fault_told result (refused_or (limit_refused t) t) }
    ensures lawful { IfOk result (λ t. IsArrayType (typ_of t)) }
{
    let none = pair_types(alloc, false, xs, Some(depth), arena, steps)?;
    let rows = row_node(alloc, names, 0, &none.leaves, steps)?;
    let node = framed(alloc, &none.shape, rows, steps)?;
    typ_within(alloc, node)
}

/// Operands zipped, where lists of no level inside their items are counted.
fn zip_pairs<'a, L: Ledger>(
    alloc: Global,
    depth: u64,
    names: Option<&Names>,
    xs: &Operands<'a>,
    arena: &'a Arena,
    steps: &mut Steps<L>,
) -> Result<Zipped<'a>, Fault>
    requires some { 0 < length xs.now }
    requires names { AreNames (option_map (λ names. names.now) names) (length xs.now) }
    ensures answer { let said = single_or_fault false (Some depth) (all_data xs.now) in
        Gives (λ z. z.single) fault_told result said }
    ensures items { IfOk result (λ z. array_items z.node ≡ zip_values depth (all_data xs.now)) }
    ensures typ { let named = option_map (λ names. names.now) names.entry in
        IfOk result (λ z. array_type z.node ≡ zip_type depth named (all_data xs.now)) }
{
    let paired = pair(alloc, xs, Some(depth), arena, steps)?;
    let n = paired.leaves.get(0).len();
    let rows = row_node(alloc, names, n, &paired.leaves, steps)?;
    let node = framed(alloc, &paired.shape, rows, steps)?;
    Ok(Zipped {
        single: paired.single,
        node,
    })
}

/// At how many levels of lists those inside a datum are counted: the array itself is one.
fn levels_inside(depth: u64, single: bool) -> u64
    requires { 0 < depth }
    ensures { result ≡ (if single then depth else depth - 1) }
{
    if single { depth } else { depth - 1 }
}

/// Operands zipped.
fn zip_operands<'a, L: Ledger>(
    alloc: Global,
    depth: u64,
    names: Option<&Names>,
    xs: &Operands<'a>,
    arena: &'a Arena,
    steps: &mut Steps<L>,
) -> Result<Datum<'a>, Fault>
    requires some { 0 < length xs.now }
    requires names { AreNames (option_map (λ names. names.now) names) (length xs.now) }
    requires depth { 0 < depth }
    ensures answer { let named = option_map (λ names. names.now) names.entry in
        Gives datum_of fault_told result (zip_of depth named (all_data xs.now)) }
    ensures datum { IfOk result (λ made. IsDatum made) }
{
    let typ = zip_typ(alloc, depth, names, xs, arena, steps)?;
    let Zipped { single, node } = zip_pairs(alloc, depth, names, xs, arena, steps)?;
    let made = Array::within_limits(node, typ);
    let levels = levels_inside(depth, single);
    if is_large(alloc, levels, &made, arena, steps)? {
        return Err(Fault::Size);
    }
    Ok(datum_from(single, made))
}

/// Rows of the items of data that are paired through at most `depth` levels: records with these
/// names, or tuples where there are none. The items stand in the rows as they are.
///
/// Faults come in this order: `Depth` and `Size` of the result's type; `Lengths` where lists of
/// some level that are not stretched are unequally long; and `Size` where the result's lists of
/// one of the first `depth` axes, those inside the rows too, have more than 1,073,741,824 items
/// together.
///
/// How it works, which no clause says: the columns of the rows are those of the pairing, which
/// borrow the contents of data whose items are in order.
pub fn zip<'a, L: Ledger>(
    alloc: Global,
    depth: u64,
    names: Option<&Names>,
    xs: &Datums<'a>,
    arena: &'a Arena,
    steps: &mut Steps<L>,
) -> Result<Datum<'a>, Fault>
    requires some { 0 < length xs.now }
    requires names { AreNames (option_map (λ names. names.now) names) (length xs.now) }
    requires depth { 0 < depth }
    ensures answer { let named = option_map (λ names. names.now) names.entry in
        Gives datum_of fault_told result (zip_of depth named (map datum_of xs.now)) }
    ensures datum { IfOk result (λ made. IsDatum made) }
{
    let operands = operands_of(alloc, xs)?;
    zip_operands(alloc, depth, names, &operands, arena, steps)
}
