//! Arrays of numbers, lists and rows that are opened as they lie.
ghost use Rattle.std.specs.Prelude.{◌≡◌, None, IfOk, IfSome, IsTrue, option_map};
ghost use Rattle.awk_types.specs.Limit.{limit};
ghost use Rattle.awk_layout.specs.Layout.{layouts_from, lists, offset_lists, rows};
ghost use Rattle.awk_layout.specs.Layout.{regular as regular_lists};
ghost use Rattle.awk_layout.specs.Typing.{array_type};
ghost use Rattle.awk_layout.specs.Valid.{IsValid};
ghost use Rattle.awk_open.specs.Opened.{IsOpened, AreLong, AreWithin};

use crate::opening::Opened;
use awk_columns::Lists;
use awk_lanes::{Arena, Lane, Lengths, Steps, offsets_of};
use awk_layout::{Array, Arrays, Class, Node, Nodes};
use awk_types::{Names, NoMemory, copy_names};
use std::alloc::Global;
use std::sync::ledger::Ledger;

fn whole_lists<'a>(
    alloc: Global,
    starts: &Lane<'a>,
    stops: &Lane<'a>,
    content: &Node<'a>,
) -> Result<Opened<'a>, NoMemory>
    requires valid { IsValid (lists starts.now stops.now content.now) }
    requires limit { limit (array_type content.now) ≡ None }
    ensures opened { IfOk result (IsOpened (lists starts.now stops.now content.now)) }
{
    let content = Array::of_node(alloc, content.copy(alloc)?)?;
    Ok(Opened::Items(Lists::new(None, starts.copy(), stops.copy(), content)))
}

/// The offsets but the last are starts, and those but the first are stops.
fn whole_offsets<'a, L: Ledger>(
    alloc: Global,
    offsets: &Lane<'a>,
    content: &Node<'a>,
    steps: &mut Steps<L>,
) -> Result<Opened<'a>, NoMemory>
    requires valid { IsValid (offset_lists offsets.now content.now) }
    requires limit { limit (array_type content.now) ≡ None }
    ensures opened { IfOk result (IsOpened (offset_lists offsets.now content.now)) }
{
    let content = Array::of_node(alloc, content.copy(alloc)?)?;
    let n = offsets.len();
    let starts = offsets.cut(0, n - 1, steps);
    let stops = offsets.cut(1, n, steps);
    Ok(Opened::Items(Lists::in_row(None, starts, stops, content)))
}

/// Lists of one size.
#[derive(Drop)]
struct EvenLists {
    length: u64,
    count: u64,
}

impl Lengths for EvenLists {
    ghost length = { λ f i. f.length };

    ghost size = { λ f. f.count };

    fn length<L: Ledger>(&self, _i: u64, _steps: &mut Steps<L>) -> u64 {
        self.length
    }
}

/// Lists of one size: where they begin and where they end is one lane of offsets.
fn whole_regular<'a, L: Ledger>(
    alloc: Global,
    size: u64,
    n: u64,
    content: &Node<'a>,
    arena: &'a Arena,
    steps: &mut Steps<L>,
) -> Result<Opened<'a>, NoMemory>
    requires valid { IsValid (regular_lists size n content.now) }
    requires limit { limit (array_type content.now) ≡ None }
    ensures opened { IfOk result (IsOpened (regular_lists size n content.now)) }
{
    let content = Array::of_node(alloc, content.copy(alloc)?)?;
    let even = EvenLists {
        length: size,
        count: n,
    };
    let offsets = offsets_of(n, &even, arena, steps)?;
    let starts = offsets.lane.cut(0, n, steps);
    let stops = offsets.lane.cut(1, n + 1, steps);
    Ok(Opened::Items(Lists::in_row(Some(size), starts, stops, content)))
}

/// Whether each of these has n items.
#[tactic(auto, using(crate::proofs::WholeLanes::whole))]
fn are_long(xs: &Nodes, n: u64) -> bool
    ensures { IsTrue result → AreLong n xs.now }
{
    for i in 0..xs.len() {
        if xs.get(i).len() != n {
            return false;
        }
    }
    true
}

/// The arrays of nodes.
#[tactic(auto, using(crate::proofs::WholeLanes::whole, awk_layout::proofs::ContentTypes::contents))]
fn arrays_of<'a>(alloc: Global, xs: &Nodes<'a>) -> Result<Arrays<'a>, NoMemory>
    requires limits { AreWithin xs.now }
    ensures { IfOk result (λ ys. ys ≡ xs.now) }
{
    let mut arrays = Arrays::new(alloc);
    for i in 0..xs.len() {
        let array = Array::of_node(alloc, xs.get(i).copy(alloc)?)?;
        arrays.push(array)?;
    }
    Ok(arrays)
}

/// Rows, if each column has an item for each and no more: no column is moved.
#[tactic(auto, using(crate::proofs::WholeLanes::whole))]
fn whole_rows<'a>(
    alloc: Global,
    names: Option<&Names>,
    n: u64,
    contents: &Nodes<'a>,
) -> Result<Option<Opened<'a>>, NoMemory>
    requires valid { let fields = option_map (λ m. m.now) names in
        IsValid (rows fields n (layouts_from contents.now)) }
    requires limits { AreWithin contents.now }
    ensures opened { let fields = option_map (λ m. m.now) names.entry in
        let x = rows fields n (layouts_from contents.now) in
        IfOk result (λ o. IfSome o (IsOpened x)) }
{
    if are_long(contents, n) {
        let names = copy_names(alloc, names)?;
        let columns = arrays_of(alloc, contents)?;
        return Ok(Some(Opened::Row { names, columns }));
    }
    Ok(None)
}

/// The outermost kind of an array whose lanes are the kind's already.
#[tactic(auto, using(crate::proofs::WholeLanes::whole))]
pub fn opened_whole<'a, L: Ledger>(
    alloc: Global,
    x: &Array<'a>,
    arena: &'a Arena,
    steps: &mut Steps<L>,
) -> Result<Option<Opened<'a>>, NoMemory>
    ensures opened { IfOk result (λ o. IfSome o (IsOpened x.now)) }
{
    let _ = x.typ();
    match x.node().class() {
        Class::Numpy { lane } => Ok(Some(Opened::Leaf(lane.copy()))),
        Class::List {
            starts,
            stops,
            content,
        } => Ok(Some(whole_lists(alloc, starts, stops, content)?)),
        Class::ListOffset { offsets, content } => {
            Ok(Some(whole_offsets(alloc, offsets, content, steps)?))
        }
        Class::Regular { size, content } => {
            let n = x.len();
            Ok(Some(whole_regular(alloc, size, n, content, arena, steps)?))
        }
        Class::Row { names, contents } => whole_rows(alloc, names, x.len(), contents),
        _ => Ok(None),
    }
}
