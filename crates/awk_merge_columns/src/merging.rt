//! Columns of several types merged into one.
ghost use Rattle.std.specs.Prelude.{◌≡◌, IfOk};
ghost use Rattle.awk_types.specs.DataType.{opt, reg, types_from, uni, var};
ghost use Rattle.awk_types.specs.Parts.{IsRowType};
ghost use Rattle.awk_types.specs.View.{typ_of, typs_of};
ghost use Rattle.awk_layout.specs.Array.{IsArrayType};
ghost use Rattle.awk_merge_sides.specs.Groups.{groups_of, AreArrayTypes, AreCounted};
ghost use Rattle.awk_merge_sides.specs.Groups.{AreGroups, AreMerged};
ghost use Rattle.awk_merge_columns.specs.PartTypes.{part_types};
ghost use Rattle.awk_merge_sides.specs.Sides.{sides_of, AreSides, IsCounted, IsMerged};

use crate::nodes::{list_node, nothing, only, option_node, regular_node, row_node};
use crate::parts::part_type;
use awk_lanes::{Arena, Steps};
use awk_layout::{Node, Nodes};
use awk_merge_lists::{list_level, numbers, regular_level};
use awk_merge_rows::{present_level, row_level, union_level};
use awk_merge_sides::{Groups, Sides};
use awk_types::{NoMemory, Typ, Typs};
use std::alloc::Global;
use std::sync::ledger::Ledger;

/// One column of a type, with the items of all columns one after another, each carried as the lift
/// of its column says. The type is one that arrays have, and each lift makes values of it of the
/// values of its column's type, as the lifts of `unify` and `unify_all` do.
#[cycle(merge)]
pub fn merge<'a, L: Ledger>(
    alloc: Global,
    t: &Typ,
    sides: &Sides<'a>,
    arena: &'a Arena,
    steps: &mut Steps<L>,
) -> Result<Node<'a>, NoMemory>
    requires lawful { IsArrayType (typ_of t.now) }
    requires sides { AreSides (typ_of t.now) (sides_of sides.now) }
    requires counted { IsCounted sides.now }
    ensures { IfOk result (IsMerged (typ_of t.now) (sides_of sides.now)) }
{
    if let Some(node) = only(alloc, t, sides)? {
        return Ok(node);
    }
    match t {
        Typ::Unknown => Ok(nothing(sides, steps)),
        Typ::Leaf(prim) => numbers(alloc, *prim, sides, arena, steps),
        Typ::Opt(present) => merge_options(alloc, present, sides, arena, steps),
        Typ::Var(item) => merge_lists(alloc, item, sides, arena, steps),
        Typ::Reg(size, item) => merge_regular(alloc, *size, item, sides, arena, steps),
        Typ::Rec(_) | Typ::Tup(_) => merge_rows(alloc, t, sides, arena, steps),
        Typ::Uni(alternatives) => merge_unions(alloc, t, alternatives, sides, arena, steps),
    }
}

/// Columns of an option.
#[cycle(merge)]
fn merge_options<'a, L: Ledger>(
    alloc: Global,
    present: &Typ,
    sides: &Sides<'a>,
    arena: &'a Arena,
    steps: &mut Steps<L>,
) -> Result<Node<'a>, NoMemory>
    requires lawful { IsArrayType (opt (typ_of present.now)) }
    requires sides { AreSides (opt (typ_of present.now)) (sides_of sides.now) }
    requires counted { IsCounted sides.now }
    ensures { IfOk result (IsMerged (opt (typ_of present.now)) (sides_of sides.now)) }
{
    let level = present_level(alloc, sides, arena, steps)?;
    let content = merge(alloc, present, &level.sides, arena, steps)?;
    option_node(alloc, level.index, content, steps)
}

/// Columns of lists of any length.
#[cycle(merge)]
fn merge_lists<'a, L: Ledger>(
    alloc: Global,
    item: &Typ,
    sides: &Sides<'a>,
    arena: &'a Arena,
    steps: &mut Steps<L>,
) -> Result<Node<'a>, NoMemory>
    requires lawful { IsArrayType (var (typ_of item.now)) }
    requires sides { AreSides (var (typ_of item.now)) (sides_of sides.now) }
    requires counted { IsCounted sides.now }
    ensures { IfOk result (IsMerged (var (typ_of item.now)) (sides_of sides.now)) }
{
    let level = list_level(alloc, sides, arena, steps)?;
    let content = merge(alloc, item, &level.sides, arena, steps)?;
    list_node(alloc, level.starts, level.stops, content, steps)
}

/// Columns of lists of one length.
#[cycle(merge)]
fn merge_regular<'a, L: Ledger>(
    alloc: Global,
    size: u64,
    item: &Typ,
    sides: &Sides<'a>,
    arena: &'a Arena,
    steps: &mut Steps<L>,
) -> Result<Node<'a>, NoMemory>
    requires lawful { IsArrayType (reg size (typ_of item.now)) }
    requires sides { AreSides (reg size (typ_of item.now)) (sides_of sides.now) }
    requires counted { IsCounted sides.now }
    ensures { IfOk result (IsMerged (reg size (typ_of item.now)) (sides_of sides.now)) }
{
    let items = regular_level(alloc, sides, arena, steps)?;
    let content = merge(alloc, item, &items, arena, steps)?;
    regular_node(alloc, size, sides.total(), content, steps)
}

/// Columns of records or tuples.
#[cycle(merge)]
fn merge_rows<'a, L: Ledger>(
    alloc: Global,
    t: &Typ,
    sides: &Sides<'a>,
    arena: &'a Arena,
    steps: &mut Steps<L>,
) -> Result<Node<'a>, NoMemory>
    requires row { IsRowType (typ_of t.now) }
    requires lawful { IsArrayType (typ_of t.now) }
    requires sides { AreSides (typ_of t.now) (sides_of sides.now) }
    requires counted { IsCounted sides.now }
    ensures { IfOk result (IsMerged (typ_of t.now) (sides_of sides.now)) }
{
    let groups = row_level(alloc, t, sides, arena, steps)?;
    let nodes = merge_each(alloc, t, &groups, arena, steps)?;
    row_node(alloc, t, sides.total(), nodes, steps)
}

/// Columns of unions, which have these alternatives.
#[cycle(merge)]
fn merge_unions<'a, L: Ledger>(
    alloc: Global,
    t: &Typ,
    alternatives: &Typs,
    sides: &Sides<'a>,
    arena: &'a Arena,
    steps: &mut Steps<L>,
) -> Result<Node<'a>, NoMemory>
    requires typ { typ_of t.now ≡ uni (types_from (typs_of alternatives.now)) }
    requires lawful { IsArrayType (typ_of t.now) }
    requires sides { AreSides (typ_of t.now) (sides_of sides.now) }
    requires counted { IsCounted sides.now }
    ensures { IfOk result (IsMerged (typ_of t.now) (sides_of sides.now)) }
{
    let level = union_level(alloc, alternatives, sides, arena, steps)?;
    let nodes = merge_each(alloc, t, &level.groups, arena, steps)?;
    Ok(Node::union(level.tags, level.index, nodes, steps))
}

/// One column for each part or alternative.
#[cycle(merge)]
fn merge_each<'a, L: Ledger>(
    alloc: Global,
    t: &Typ,
    groups: &Groups<'a>,
    arena: &'a Arena,
    steps: &mut Steps<L>,
) -> Result<Nodes<'a>, NoMemory>
    requires lawful { AreArrayTypes (part_types (typ_of t.now)) }
    requires groups { AreGroups (part_types (typ_of t.now)) (groups_of groups.now) }
    requires counted { AreCounted groups.now }
    ensures { IfOk result (AreMerged (part_types (typ_of t.now)) (groups_of groups.now)) }
{
    let mut nodes = Nodes::new(alloc);
    for j in 0..groups.len() {
        let node = merge(alloc, part_type(t, j), groups.get(j), arena, steps)?;
        nodes.push(node)?;
    }
    Ok(nodes)
}
