//! A function of one list, applied to each list of an array at an axis.
ghost use Rattle.std.specs.Prelude.{◌≡◌, ◌<◌, ◌^◌, Some, None, false, map, IfOk};
ghost use Rattle.awk_types.specs.DataType.{types_from};
ghost use Rattle.awk_types.specs.ItemLimit.{item_limit};
ghost use Rattle.awk_layout.specs.Typing.{array_type};
ghost use Rattle.awk_layout.specs.Layout.{lists as spanned};
ghost use Rattle.awk_layout.specs.Valid.{len, IsValid};
ghost use Rattle.awk_list_functions.specs.Lift as spec;
ghost use Rattle.awk_list_functions.specs.declared.place.Reach.TheVariants as Reach;
ghost use Rattle.awk_open.specs.Opens.{OpensLists, OpensOption, OpensRow, OpensUnion, OpensNothing};
ghost use Rattle.awk_columns.specs.Joined.{total};
ghost use Rattle.awk_list_functions.specs.Causes.{first_spoil};
ghost use Rattle.awk_list_functions.specs.Reach.{here};
ghost use Rattle.awk_axis.specs.Taken.{told, IsTaken};
ghost use Rattle.awk_list_functions.specs.declared.causes.Spoil.TheVariants as Spoil;
ghost use Rattle.awk_columns.specs.ListNode.{list_layout};
ghost use Rattle.awk_list_functions.specs.Made.{IsSizedWithin, even_offsets};
ghost use Rattle.awk_axis.specs.Mapped.{IsAtAxis, IsLifted, AreLifted};

use crate::over::over_content;
use awk_columns::{Joined, Lists, list_node};
use awk_lanes::{Arena, Kind, Lane, LaneMaker, NoMemory, Num, Steps};
use awk_layout::{Array, Arrays, Node, Nodes};
use awk_list_functions::{ListOp, MOST_LISTS, Made, Reach, Spoil, first_of, sooner_spoil};
use awk_open::{Opened, open_array};
use awk_types::Names;
use std::alloc::Global;
use std::sync::ledger::Ledger;

/// What is made of one array.
#[derive(Drop)]
pub enum Mapped<'a> {
    Spoiled(Spoil),
    Column(Node<'a>),
}

/// What is made of arrays, one after another.
#[derive(Drop)]
pub enum AllMapped<'a> {
    Spoiled(Spoil),
    Columns(Nodes<'a>),
}

/// Lists of one size over their content.
fn even_node<'a, L: Ledger>(
    alloc: Global,
    class: Option<u64>,
    n: u64,
    content: Node<'a>,
    steps: &mut Steps<L>,
) -> Result<Node<'a>, NoMemory>
    requires fits { n < 2 ^ 63 }
    requires sized { IsSizedWithin class n (len content) }
    ensures { IfOk result (λ y. y ≡ list_layout class n (even_offsets class n) content.entry) }
{
    let content = Box::new(alloc, content)?;
    match class {
        Some(size) => Ok(Node::regular(size, n, content, steps)),
        None => unreachable!(),
    }
}

/// Lists of any length, where they lie in their content.
pub(crate) fn span_node<'a, L: Ledger>(
    alloc: Global,
    starts: Lane<'a>,
    stops: Lane<'a>,
    content: Node<'a>,
    steps: &mut Steps<L>,
) -> Result<Node<'a>, NoMemory>
    requires { IsValid (spanned starts stops content) }
    ensures { IfOk result (λ y. y ≡ spanned starts.entry stops.entry content.entry) }
{
    let content = Box::new(alloc, content)?;
    Ok(Node::list(starts, stops, content, steps))
}

/// What the function makes of a column of lists, as one node.
pub(crate) fn at_axis<'a, F: ListOp, L: Ledger>(
    alloc: Global,
    f: &F,
    lists: &Lists<'a>,
    arena: &'a Arena,
    steps: &mut Steps<L>,
) -> Result<Mapped<'a>, NoMemory>
    requires accepted { (F.function f.now).refusal (array_type lists.now.content) ≡ None }
    ensures { IfOk result (IsAtAxis (F.function f.now) lists.now.class lists.now.starts
        lists.now.stops lists.now.content) }
{
    match f.column(alloc, lists, arena, steps)? {
        Made::Spoiled(why) => Ok(Mapped::Spoiled(why)),
        Made::Singles(node) => Ok(Mapped::Column(node)),
        Made::Lists { offsets, content } => {
            let class = f.class(lists.class());
            let node = list_node(alloc, class, lists.len(), offsets, content, steps)?;
            Ok(Mapped::Column(node))
        }
        Made::Even(content) => {
            let class = f.class(lists.class());
            let node = even_node(alloc, class, lists.len(), content, steps)?;
            Ok(Mapped::Column(node))
        }
        Made::Spans {
            starts,
            stops,
            content,
        } => {
            let node = span_node(alloc, starts, stops, content, steps)?;
            Ok(Mapped::Column(node))
        }
    }
}

/// An array without items, whose type is that of k lists of any length around what is given for
/// lists of unknown.
fn below_unknown<'a, F: ListOp, L: Ledger>(
    alloc: Global,
    f: &F,
    k: u64,
    x: &Array<'a>,
    arena: &'a Arena,
    steps: &mut Steps<L>,
) -> Result<Mapped<'a>, NoMemory>
    requires accepted { (F.function f.now).refusal (array_type x.now) ≡ None }
    requires nothing { OpensNothing x.now }
    ensures { IfOk result (IsLifted (F.function f.now) (Reach.Axis k) x.now) }
{
    let none = LaneMaker::new(Kind::I64, 0, arena)?.finish();
    let above = k.min(MOST_LISTS);
    let _ = x.len();
    let lists = Lists::new(None, none.copy(), none, x.copy(alloc)?);
    match at_axis(alloc, f, &lists, arena, steps)? {
        Mapped::Spoiled(why) => Ok(Mapped::Spoiled(why)),
        Mapped::Column(node) => {
            let mut made = node;
            for i in 0..above {
                let mut offsets = LaneMaker::new(Kind::I64, 1, arena)?;
                offsets.push(Num::Int(0));
                made = Node::list_offset(offsets.finish(), Box::new(alloc, made)?, steps);
            }
            Ok(Mapped::Column(made))
        }
    }
}

/// The array, each list that is reached by the function.
#[cycle(lifted)]
#[tactic(none)]
pub fn lifted<'a, F: ListOp, L: Ledger>(
    alloc: Global,
    f: &F,
    k: Reach,
    x: &Array<'a>,
    arena: &'a Arena,
    steps: &mut Steps<L>,
) -> Result<Mapped<'a>, NoMemory>
    requires { spec.refusal_at (F.function f.now) k (array_type x.now) ≡ None }
    ensures { IfOk result (IsLifted (F.function f.now) k x.now) }
{
    match open_array(alloc, x, arena, steps)? {
        Opened::Empty => match k {
            Reach::Axis(k) => below_unknown(alloc, f, k, x, arena, steps),
            Reach::Innermost => unreachable!(),
        },
        Opened::Leaf(_) => unreachable!(),
        Opened::Items(lists) => lifted_lists(alloc, f, k, x, &lists, arena, steps),
        Opened::Row { names, columns } => {
            lifted_row(alloc, f, k, x, names, columns, arena, steps)
        }
        Opened::Option { index, content } => {
            lifted_option(alloc, f, k, x, &index, &content, arena, steps)
        }
        Opened::Union {
            tags,
            index,
            contents,
        } => lifted_union(alloc, f, k, x, &tags, &index, &contents, arena, steps),
    }
}

/// The same of lists: their items at the next axis, or each list itself.
#[cycle(lifted)]
#[tactic(none)]
fn lifted_lists<'a, F: ListOp, L: Ledger>(
    alloc: Global,
    f: &F,
    k: Reach,
    x: &Array<'a>,
    lists: &Lists<'a>,
    arena: &'a Arena,
    steps: &mut Steps<L>,
) -> Result<Mapped<'a>, NoMemory>
    requires accepted { spec.refusal_at (F.function f.now) k (array_type x.now) ≡ None }
    requires opens { OpensLists lists.now.class lists.now.starts lists.now.stops
        lists.now.content x.now }
    ensures { IfOk result (IsLifted (F.function f.now) k x.now) }
{
    if k.is_here(lists.content().typ()) {
        return at_axis(alloc, f, lists, arena, steps);
    }
    if let Some(made) = over_content(alloc, f, k, lists, arena, steps)? {
        return Ok(made);
    }
    match lists.joined(alloc, arena, steps)? {
        Joined::TooMany => lifted_many(alloc, f, k, x, lists, arena, steps),
        Joined::Lists { offsets, content } => {
            match lifted(alloc, f, k.inner(), &content, arena, steps)? {
                Mapped::Spoiled(why) => Ok(Mapped::Spoiled(why)),
                Mapped::Column(node) => {
                    let n = lists.len();
                    let node = list_node(alloc, lists.class(), n, offsets, node, steps)?;
                    Ok(Mapped::Column(node))
                }
            }
        }
    }
}

/// What is told of lists that have too many items together: what is told inside where that comes
/// before a size.
fn told_of_many(inside: Mapped) -> Spoil
    ensures { Some result ≡ first_spoil (Some Spoil.Size) (told inside.entry) }
{
    match inside {
        Mapped::Spoiled(why) => first_of(Some(Spoil::Size), why),
        Mapped::Column(_) => Spoil::Size,
    }
}

/// The same of lists above the axis that have too many items together. These are looked at where
/// they may be refused for a place, which is told before their size.
#[cycle(lifted)]
#[tactic(none)]
fn lifted_many<'a, F: ListOp, L: Ledger>(
    alloc: Global,
    f: &F,
    k: Reach,
    x: &Array<'a>,
    lists: &Lists<'a>,
    arena: &'a Arena,
    steps: &mut Steps<L>,
) -> Result<Mapped<'a>, NoMemory>
    requires accepted { spec.refusal_at (F.function f.now) k (array_type x.now) ≡ None }
    requires opens { OpensLists lists.now.class lists.now.starts lists.now.stops
        lists.now.content x.now }
    requires above { here k (array_type lists.now.content) ≡ false }
    requires many { item_limit < total lists.now.starts lists.now.stops lists.now.content }
    ensures { IfOk result (IsLifted (F.function f.now) k x.now) }
{
    if f.tells_index() {
        let content = lists.items(alloc, arena, steps)?;
        let inside = lifted(alloc, f, k.inner(), &content, arena, steps)?;
        Ok(Mapped::Spoiled(told_of_many(inside)))
    } else {
        Ok(Mapped::Spoiled(Spoil::Size))
    }
}

/// The same of an option.
#[cycle(lifted)]
#[tactic(none)]
fn lifted_option<'a, F: ListOp, L: Ledger>(
    alloc: Global,
    f: &F,
    k: Reach,
    x: &Array<'a>,
    index: &Lane<'a>,
    content: &Array<'a>,
    arena: &'a Arena,
    steps: &mut Steps<L>,
) -> Result<Mapped<'a>, NoMemory>
    requires accepted { spec.refusal_at (F.function f.now) k (array_type x.now) ≡ None }
    requires opens { OpensOption index.now content.now x.now }
    ensures { IfOk result (IsLifted (F.function f.now) k x.now) }
{
    match lifted(alloc, f, k, content, arena, steps)? {
        Mapped::Spoiled(why) => Ok(Mapped::Spoiled(why)),
        Mapped::Column(node) => {
            let node = Box::new(alloc, node)?;
            Ok(Mapped::Column(Node::indexed_option(index.copy(), node, steps)))
        }
    }
}

/// The same of rows.
#[cycle(lifted)]
#[tactic(none)]
fn lifted_row<'a, F: ListOp, L: Ledger>(
    alloc: Global,
    f: &F,
    k: Reach,
    x: &Array<'a>,
    names: Option<Names>,
    columns: Arrays<'a>,
    arena: &'a Arena,
    steps: &mut Steps<L>,
) -> Result<Mapped<'a>, NoMemory>
    requires accepted { spec.refusal_at (F.function f.now) k (array_type x.now) ≡ None }
    requires opens { OpensRow names columns x.now }
    ensures { IfOk result (IsLifted (F.function f.now) k x.now) }
{
    match lifted_all(alloc, f, k, &columns, arena, steps)? {
        AllMapped::Spoiled(why) => Ok(Mapped::Spoiled(why)),
        AllMapped::Columns(nodes) => Ok(Mapped::Column(Node::row(names, x.len(), nodes, steps))),
    }
}

/// The same of a union.
#[cycle(lifted)]
#[tactic(none)]
fn lifted_union<'a, F: ListOp, L: Ledger>(
    alloc: Global,
    f: &F,
    k: Reach,
    x: &Array<'a>,
    tags: &Lane<'a>,
    index: &Lane<'a>,
    contents: &Arrays<'a>,
    arena: &'a Arena,
    steps: &mut Steps<L>,
) -> Result<Mapped<'a>, NoMemory>
    requires accepted { spec.refusal_at (F.function f.now) k (array_type x.now) ≡ None }
    requires opens { OpensUnion tags.now index.now contents.now x.now }
    ensures { IfOk result (IsLifted (F.function f.now) k x.now) }
{
    match lifted_all(alloc, f, k, contents, arena, steps)? {
        AllMapped::Spoiled(why) => Ok(Mapped::Spoiled(why)),
        AllMapped::Columns(nodes) => {
            let node = Node::union(tags.copy(), index.copy(), nodes, steps);
            Ok(Mapped::Column(node))
        }
    }
}

/// One more array: of several refusals the one that is told first is told.
fn taken<'a>(
    first: Option<Spoil>,
    nodes: &mut Nodes<'a>,
    made: Mapped<'a>,
) -> Result<Option<Spoil>, NoMemory>
    ensures { IfOk result (λ next. IsTaken first nodes.old made.entry next nodes.new) }
{
    match made {
        Mapped::Spoiled(why) => Ok(sooner_spoil(first, Some(why))),
        Mapped::Column(node) => {
            nodes.push(node)?;
            Ok(first)
        }
    }
}

/// The same of arrays, one after another.
#[cycle(lifted)]
#[tactic(auto, using(crate::proofs::ArrayKinds::all))]
fn lifted_all<'a, F: ListOp, L: Ledger>(
    alloc: Global,
    f: &F,
    k: Reach,
    xs: &Arrays<'a>,
    arena: &'a Arena,
    steps: &mut Steps<L>,
) -> Result<AllMapped<'a>, NoMemory>
    requires accepted { let types = types_from (map array_type xs.now) in
        spec.refusal_among (F.function f.now) k types ≡ None }
    ensures { IfOk result (AreLifted (F.function f.now) k xs.now) }
{
    let mut first = None;
    let mut nodes = Nodes::new(alloc);
    for i in 0..xs.len() {
        let made = lifted(alloc, f, k, xs.get(i), arena, steps)?;
        first = taken(first, &mut nodes, made)?;
    }
    match first {
        Some(why) => Ok(AllMapped::Spoiled(why)),
        None => Ok(AllMapped::Columns(nodes)),
    }
}
