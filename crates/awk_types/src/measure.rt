//! The depth of a type, its nodes, and the width of its unions.
ghost use Rattle.std.specs.Prelude.{◌≡◌, ◌+◌, ◌-◌, ◌^◌, ◌<◌, min, sum};
ghost use Rattle.awk_types.specs.DataType.{greatest, depth as depth_of, depths, nodes as nodes_of};
ghost use Rattle.awk_types.specs.DataType.{nodes_each, types_from};
ghost use Rattle.awk_types.specs.Limit.{width as width_of, widths};
ghost use Rattle.awk_types.specs.View.{types_of, typ_of, fields_of, typs_of};

use crate::typ::{Fields, Typ, Typs};

/// The number of type nodes on the longest path, or the greatest u64 where it is greater.
#[cycle(depth)]
pub fn depth(t: &Typ) -> u64
    ensures { result ≡ min (depth_of (typ_of t.now)) u64.MAX }
{
    match t {
        Typ::Unknown => 1,
        Typ::Leaf(_) => 1,
        Typ::Var(item) => depth(item).saturating_add(1),
        Typ::Reg(_, item) => depth(item).saturating_add(1),
        Typ::Rec(fields) => depth_of_fields(fields).saturating_add(1),
        Typ::Tup(parts) => depth_of_typs(parts).saturating_add(1),
        Typ::Opt(item) => depth(item).saturating_add(1),
        Typ::Uni(alternatives) => depth_of_typs(alternatives).saturating_add(1),
    }
}

#[cycle(depth)]
fn depth_of_typs(ts: &Typs) -> u64
    ensures { result ≡ min (greatest (depths (types_from (typs_of ts.now)))) u64.MAX }
{
    let mut deepest = 0;
    for t in &ts.items {
        deepest = deepest.max(depth(t));
    }
    deepest
}

#[cycle(depth)]
fn depth_of_fields(fields: &Fields) -> u64
    ensures { result ≡ min (greatest (depths (types_of (fields_of fields.now)))) u64.MAX }
{
    let mut deepest = 0;
    for field in &fields.items {
        deepest = deepest.max(depth(&field.typ));
    }
    deepest
}

/// The number of type nodes, or the greatest u64 where it is greater.
#[cycle(nodes)]
pub fn nodes(t: &Typ) -> u64
    ensures { result ≡ min (nodes_of (typ_of t.now)) u64.MAX }
{
    match t {
        Typ::Unknown => 1,
        Typ::Leaf(_) => 1,
        Typ::Var(item) => nodes(item).saturating_add(1),
        Typ::Reg(_, item) => nodes(item).saturating_add(1),
        Typ::Rec(fields) => nodes_of_fields(fields).saturating_add(1),
        Typ::Tup(parts) => nodes_of_typs(parts).saturating_add(1),
        Typ::Opt(item) => nodes(item).saturating_add(1),
        Typ::Uni(alternatives) => nodes_of_typs(alternatives).saturating_add(1),
    }
}

#[cycle(nodes)]
fn nodes_of_typs(ts: &Typs) -> u64
    ensures { result ≡ min (sum (nodes_each (types_from (typs_of ts.now)))) u64.MAX }
{
    let mut count: u64 = 0;
    for t in &ts.items {
        count = count.saturating_add(nodes(t));
    }
    count
}

#[cycle(nodes)]
fn nodes_of_fields(fields: &Fields) -> u64
    ensures { result ≡ min (sum (nodes_each (types_of (fields_of fields.now)))) u64.MAX }
{
    let mut count: u64 = 0;
    for field in &fields.items {
        count = count.saturating_add(nodes(&field.typ));
    }
    count
}

/// The most alternatives of a union in the type, or 0.
#[cycle(width)]
pub(crate) fn width(t: &Typ) -> usize
    ensures { result ≡ width_of (typ_of t.now) }
{
    match t {
        Typ::Unknown => 0,
        Typ::Leaf(_) => 0,
        Typ::Var(item) => width(item),
        Typ::Reg(_, item) => width(item),
        Typ::Rec(fields) => width_of_fields(fields),
        Typ::Tup(parts) => width_of_typs(parts),
        Typ::Opt(item) => width(item),
        Typ::Uni(alternatives) => alternatives.len().max(width_of_typs(alternatives)),
    }
}

#[cycle(width)]
fn width_of_typs(ts: &Typs) -> usize
    ensures { result ≡ greatest (widths (types_from (typs_of ts.now))) }
{
    let mut widest = 0;
    for t in &ts.items {
        widest = widest.max(width(t));
    }
    widest
}

#[cycle(width)]
fn width_of_fields(fields: &Fields) -> usize
    ensures { result ≡ greatest (widths (types_of (fields_of fields.now))) }
{
    let mut widest = 0;
    for field in &fields.items {
        widest = widest.max(width(&field.typ));
    }
    widest
}
