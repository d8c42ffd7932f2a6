//! Lists above an axis that lie over one another. Joined they would be many times as many as what
//! lies there, so the function is applied where they lie, and its lists are counted.
ghost use Rattle.std.specs.Prelude.{◌≡◌, ◌≤◌, true, false, None, IfOk, IfSome};
ghost use Rattle.awk_types.specs.ItemLimit.{item_limit};
ghost use Rattle.awk_lanes.specs.Places.{size_of};
ghost use Rattle.awk_layout.specs.Typing.{array_type};
ghost use Rattle.awk_layout.specs.Layout.{lists as spanned};
ghost use Rattle.awk_layout.specs.Valid.{len, IsValid};
ghost use Rattle.awk_columns.specs.Joined.{total};
ghost use Rattle.awk_columns.specs.Lists.{span_length};
ghost use Rattle.awk_list_functions.specs.Counted.{CountsGiven};
ghost use Rattle.awk_list_functions.specs.Lift.{refusal_at};
ghost use Rattle.awk_list_functions.specs.ListFunction.{NeverIndex};
ghost use Rattle.awk_list_functions.specs.Reach.{here, inner as below};
ghost use Rattle.awk_list_ends.specs.Inside.{total_inside};
ghost use Rattle.awk_open.specs.Opens.{OpensLists};
ghost use Rattle.awk_axis.specs.Over.{IsOver, IsColumnOf, IsCount, IsLaid, items_reached};

use crate::lift::{Mapped, at_axis, span_node};
use awk_columns::Lists;
use awk_lanes::{Arena, NoMemory, Steps};
use awk_layout::{Array, Node};
use awk_list_ends::{Inside, are_few, items_inside, lie_over_one_another};
use awk_list_functions::{ListOp, Reach, Spoil};
use awk_open::{Opened, open_array};
use awk_types::{ITEM_LIMIT, TypeFault, is_list};
use std::alloc::{AllocError, Global};
use std::sync::ledger::Ledger;

/// Whether a number of items is more than a column may have.
#[derive(Clone, Copy)]
enum Count {
    Few,
    Many,
    Unknown,
}

/// The array of a node, unless its type passes a limit.
fn array_of<'a>(alloc: Global, node: &Node<'a>) -> Result<Option<Array<'a>>, NoMemory>
    ensures { IfOk result (λ found. IfSome found (λ array. array ≡ node.now)) }
{
    match Array::new(alloc, node.copy(alloc)?) {
        Ok(array) => Ok(Some(array)),
        Err(TypeFault::NoMemory) => Err(AllocError),
        Err(TypeFault::Depth | TypeFault::Size) => Ok(None),
    }
}

/// How many items the lists inside lists have together, each as often as it is reached.
fn count_inside<'a, L: Ledger>(
    alloc: Global,
    lists: &Lists<'a>,
    inner: &Lists<'a>,
    arena: &'a Arena,
    steps: &mut Steps<L>,
) -> Result<Count, NoMemory>
    requires within { len lists.now.content ≤ size_of inner.now.starts }
    ensures { let m = span_length inner.now.starts inner.now.stops in
        IfOk result (IsCount (total_inside m lists.now.starts lists.now.stops)) }
{
    match items_inside(alloc, lists, inner, arena, steps)? {
        None => Ok(Count::Unknown),
        Some(inside) => match inside.reached {
            None => Ok(Count::Many),
            Some(_) => Ok(Count::Few),
        },
    }
}

/// How many items the lists of an array have together, each as often as `lists` reach it.
fn count_reached<'a, L: Ledger>(
    alloc: Global,
    lists: &Lists<'a>,
    array: &Array<'a>,
    arena: &'a Arena,
    steps: &mut Steps<L>,
) -> Result<Count, NoMemory>
    requires same { len array.now ≡ len lists.now.content }
    ensures { let s = lists.now.starts in let t = lists.now.stops in
        IfOk result (IsCount (items_reached s t array.now)) }
{
    let _ = lists.content();
    match open_array(alloc, array, arena, steps)? {
        Opened::Items(inner) => count_inside(alloc, lists, &inner, arena, steps),
        _ => Ok(Count::Unknown),
    }
}

/// The same of the lists of a node.
fn count_node<'a, L: Ledger>(
    alloc: Global,
    lists: &Lists<'a>,
    node: &Node<'a>,
    arena: &'a Arena,
    steps: &mut Steps<L>,
) -> Result<Count, NoMemory>
    requires same { len node.now ≡ len lists.now.content }
    ensures { let s = lists.now.starts in let t = lists.now.stops in
        IfOk result (IsCount (items_reached s t node.now)) }
{
    match array_of(alloc, node)? {
        Some(array) => count_reached(alloc, lists, &array, arena, steps),
        None => Ok(Count::Unknown),
    }
}

/// Lists over what is given for the items of their content.
fn lists_over<'a, L: Ledger>(
    alloc: Global,
    lists: &Lists<'a>,
    node: Node<'a>,
    steps: &mut Steps<L>,
) -> Result<Option<Mapped<'a>>, NoMemory>
    requires valid { IsValid (spanned lists.now.starts lists.now.stops node) }
    ensures { let s = lists.now.starts in let t = lists.now.stops in
        IfOk result (IsColumnOf (spanned s t node.entry)) }
{
    let node = span_node(
        alloc,
        lists.starts().copy(),
        lists.stops().copy(),
        node,
        steps,
    )?;
    Ok(Some(Mapped::Column(node)))
}

/// The same, unless lists are given that have too many items, or no one knows how many.
fn laid_over<'a, F: ListOp, L: Ledger>(
    alloc: Global,
    f: &F,
    lists: &Lists<'a>,
    node: Node<'a>,
    arena: &'a Arena,
    steps: &mut Steps<L>,
) -> Result<Option<Mapped<'a>>, NoMemory>
    requires valid { IsValid (spanned lists.now.starts lists.now.stops node) }
    requires same { len node ≡ len lists.now.content }
    ensures { let giving = (F.function f.now).giving in
        IfOk result (IsLaid giving lists.now.starts lists.now.stops node.entry) }
{
    if !f.gives_lists() {
        return lists_over(alloc, lists, node, steps);
    }
    match count_node(alloc, lists, &node, arena, steps)? {
        Count::Few => lists_over(alloc, lists, node, steps),
        Count::Many => Ok(Some(Mapped::Spoiled(Spoil::Size))),
        Count::Unknown => Ok(None),
    }
}

/// Whether the lists inside have more items than a column may have, and these are told before any
/// place.
fn refuses_inside<F: ListOp>(f: &F, inside: &Inside) -> bool
    ensures never { result ≡ true → NeverIndex (F.function f.now) }
    ensures many { result ≡ true → inside.now.reached ≡ None }
{
    if f.tells_index() {
        return false;
    }
    inside.reached.is_none()
}

/// Whether the function can be applied to the lists inside where they lie: they are refused for
/// what is given alone, and what lies there is no more than what is reached.
fn lets_lie<F: ListOp>(f: &F, lists: &Lists, inside: &Inside) -> bool
    ensures counts { result ≡ true → CountsGiven (F.function f.now) }
    ensures class { result ≡ true → lists.now.class ≡ None }
{
    if lists.class().is_some() {
        return false;
    }
    if inside.stored > inside.reached.unwrap_or(ITEM_LIMIT) {
        return false;
    }
    f.counts_given()
}

/// Lists above the axis over lists at the axis.
fn over_here<'a, F: ListOp, L: Ledger>(
    alloc: Global,
    f: &F,
    k: Reach,
    lists: &Lists<'a>,
    inner: &Lists<'a>,
    arena: &'a Arena,
    steps: &mut Steps<L>,
) -> Result<Option<Mapped<'a>>, NoMemory>
    requires accepted { (F.function f.now).refusal (array_type inner.now.content) ≡ None }
    requires counts { CountsGiven (F.function f.now) }
    requires class { lists.now.class ≡ None }
    requires few { total lists.now.starts lists.now.stops lists.now.content ≤ item_limit }
    requires opens { OpensLists inner.now.class inner.now.starts inner.now.stops
        inner.now.content lists.now.content }
    requires above { here k (array_type lists.now.content) ≡ false }
    requires here { here (below k) (array_type inner.now.content) ≡ true }
    ensures { IfOk result (IsOver (F.function f.now) k lists.now) }
{
    let _ = lists.content();
    match at_axis(alloc, f, inner, arena, steps)? {
        Mapped::Spoiled(_) => Ok(None),
        Mapped::Column(node) => laid_over(alloc, f, lists, node, arena, steps),
    }
}

/// Lists above the axis over lists.
fn over_lists<'a, F: ListOp, L: Ledger>(
    alloc: Global,
    f: &F,
    k: Reach,
    lists: &Lists<'a>,
    inner: &Lists<'a>,
    arena: &'a Arena,
    steps: &mut Steps<L>,
) -> Result<Option<Mapped<'a>>, NoMemory>
    requires accepted { let t = array_type lists.now.content in
        refusal_at (F.function f.now) (below k) t ≡ None }
    requires few { total lists.now.starts lists.now.stops lists.now.content ≤ item_limit }
    requires opens { OpensLists inner.now.class inner.now.starts inner.now.stops
        inner.now.content lists.now.content }
    requires above { here k (array_type lists.now.content) ≡ false }
    ensures { IfOk result (IsOver (F.function f.now) k lists.now) }
{
    match items_inside(alloc, lists, inner, arena, steps)? {
        None => Ok(None),
        Some(inside) => {
            if k.inner().is_here(inner.content().typ()) {
                if !lets_lie(f, lists, &inside) {
                    return Ok(None);
                }
                return over_here(alloc, f, k, lists, inner, arena, steps);
            }
            if refuses_inside(f, &inside) {
                return Ok(Some(Mapped::Spoiled(Spoil::Size)));
            }
            Ok(None)
        }
    }
}

/// What is made of lists above the axis that lie over one another, if that is known without
/// joining them.
pub(crate) fn over_content<'a, F: ListOp, L: Ledger>(
    alloc: Global,
    f: &F,
    k: Reach,
    lists: &Lists<'a>,
    arena: &'a Arena,
    steps: &mut Steps<L>,
) -> Result<Option<Mapped<'a>>, NoMemory>
    requires accepted { let t = array_type lists.now.content in
        refusal_at (F.function f.now) (below k) t ≡ None }
    requires above { here k (array_type lists.now.content) ≡ false }
    ensures { IfOk result (IsOver (F.function f.now) k lists.now) }
{
    if !is_list(lists.content().typ()) {
        return Ok(None);
    }
    if !lie_over_one_another(alloc, lists, arena, steps)? {
        return Ok(None);
    }
    if !are_few(alloc, lists, arena, steps)? {
        return Ok(None);
    }
    match open_array(alloc, lists.content(), arena, steps)? {
        Opened::Items(inner) => over_lists(alloc, f, k, lists, &inner, arena, steps),
        _ => Ok(None),
    }
}
