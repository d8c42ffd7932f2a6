//! Ranges: the items from one place below another, over the same bytes.
ghost use Rattle.std.specs.Prelude.{◌≡◌, ◌+◌, ◌-◌, ◌*◌, ◌<◌, ◌≤◌, ◌^◌, length, slice_range, IfOk};
ghost use Rattle.awk_layout.specs.Layout.{Layout, layouts_from, weight, weights, height, flat};
ghost use Rattle.awk_layout.specs.Layout.{lists, offset_lists, indexed as indexed_places};
ghost use Rattle.awk_layout.specs.Layout.{optional as optional_places};
ghost use Rattle.awk_layout.specs.Layout.{byte_masked as masked_by_bytes};
ghost use Rattle.awk_layout.specs.Layout.{bit_masked as masked_by_bits, union as united};
ghost use Rattle.awk_layout.specs.Typing.{array_type, array_items};
ghost use Rattle.awk_layout.specs.Valid.{len, IsValid, IsByteMask, AllReach};
ghost use Rattle.awk_lanes.specs.Places.{size_of};
ghost use Rattle.awk_range.specs.Range.{IsPart, AreParts};

use awk_bits::Bits;
use awk_lanes::{Lane, Steps};
use awk_layout::{Array, Class, Node, Nodes};
use awk_types::{NoMemory, copy_names, copy_type};
use std::alloc::Global;
use std::sync::ledger::Ledger;

/// The items from place `lo` below place `hi`. At most four steps are taken for each node.
///
/// How it works, which no clause says: lanes and bits are cut, over the same bytes.
pub fn range<'a, L: Ledger>(
    alloc: Global,
    x: &Array<'a>,
    lo: u64,
    hi: u64,
    steps: &mut Steps<L>,
) -> Result<Array<'a>, NoMemory>
    requires order { lo ≤ hi }
    requires within { hi ≤ len x.now }
    ensures items { IfOk result (λ r. array_items r ≡ slice_range (array_items x.now) lo hi) }
    ensures typ { IfOk result (λ r. array_type r ≡ array_type x.now) }
    ensures cost { steps.new ≤ steps.old + 4 * weight x.now }
    ensures nodes { IfOk result (λ r. weight r ≤ weight x.now) }
    ensures height { IfOk result (λ r. height r ≤ height x.now) }
{
    let node = part(alloc, x.node(), lo, hi, steps)?;
    let typ = copy_type(alloc, x.typ())?;
    Ok(Array::with_type(node, typ))
}

// The items of a node from one place below another.
#[cycle(part)]
#[tactic(auto, using(crate::proofs::RangeParts::range_laws))]
fn part<'a, L: Ledger>(
    alloc: Global,
    x: &Node<'a>,
    lo: u64,
    hi: u64,
    steps: &mut Steps<L>,
) -> Result<Node<'a>, NoMemory>
    requires order { lo ≤ hi }
    requires within { hi ≤ len x.now }
    ensures part { IfOk result (IsPart x.now lo hi) }
    ensures cost { steps.new ≤ steps.old + 4 * weight x.now }
{
    match x.class() {
        Class::Empty => Ok(Node::empty(steps)),
        Class::Numpy { lane } => Ok(Node::numpy(lane.cut(lo, hi, steps), steps)),
        Class::Regular { size, content } => {
            let content = part(alloc, content, lo * size, hi * size, steps)?;
            let content = Box::new(alloc, content)?;
            Ok(Node::regular(size, hi - lo, content, steps))
        }
        Class::List {
            starts,
            stops,
            content,
        } => lists_between(alloc, starts, stops, content, lo, hi, steps),
        Class::ListOffset { offsets, content } => {
            offset_lists_between(alloc, offsets, content, lo, hi, steps)
        }
        Class::Row { names, contents } => {
            let names = copy_names(alloc, names)?;
            let contents = parts(alloc, contents, lo, hi, steps)?;
            Ok(Node::row(names, hi - lo, contents, steps))
        }
        Class::Indexed { index, content } => indexed(alloc, index, content, lo, hi, steps),
        Class::IndexedOption { index, content } => {
            indexed_option(alloc, index, content, lo, hi, steps)
        }
        Class::ByteMasked {
            mask,
            valid_when,
            content,
        } => {
            let content = Box::new(alloc, part(alloc, content, lo, hi, steps)?)?;
            Ok(byte_masked(mask, valid_when, content, lo, hi, steps))
        }
        Class::BitMasked {
            mask,
            valid_when,
            content,
        } => {
            let content = Box::new(alloc, part(alloc, content, lo, hi, steps)?)?;
            Ok(bit_masked(mask, valid_when, content, lo, hi, steps))
        }
        Class::Unmasked { content } => {
            let content = Box::new(alloc, part(alloc, content, lo, hi, steps)?)?;
            Ok(Node::unmasked(content, hi - lo, steps))
        }
        Class::Union {
            tags,
            index,
            contents,
        } => union(alloc, tags, index, contents, lo, hi, steps),
    }
}

// That part of each of these.
#[cycle(part)]
#[tactic(auto, using(crate::proofs::RangeParts::range_laws))]
fn parts<'a, L: Ledger>(
    alloc: Global,
    xs: &Nodes<'a>,
    lo: u64,
    hi: u64,
    steps: &mut Steps<L>,
) -> Result<Nodes<'a>, NoMemory>
    requires order { lo ≤ hi }
    requires within { AllReach hi (layouts_from xs.now) }
    ensures parts { IfOk result (AreParts xs.now lo hi) }
    ensures cost { steps.new ≤ steps.old + 4 * weights (layouts_from xs.now) }
{
    let mut parts = Nodes::new(alloc);
    for i in 0..xs.len() {
        let part = part(alloc, xs.get(i), lo, hi, steps)?;
        parts.push(part)?;
    }
    Ok(parts)
}

// The classes whose content stays as it is: their lanes are cut.

fn lists_between<'a, L: Ledger>(
    alloc: Global,
    starts: &Lane<'a>,
    stops: &Lane<'a>,
    content: &Node<'a>,
    lo: u64,
    hi: u64,
    steps: &mut Steps<L>,
) -> Result<Node<'a>, NoMemory>
    requires valid { IsValid (lists starts.now stops.now content.now) }
    requires order { lo ≤ hi }
    requires within { hi ≤ size_of starts.now }
    ensures part { IfOk result (IsPart (lists starts.now stops.now content.now) lo hi) }
    ensures cost { steps.new ≤ steps.old + 3 }
{
    let content = Box::new(alloc, content.copy(alloc)?)?;
    let starts = starts.cut(lo, hi, steps);
    let stops = stops.cut(lo, hi, steps);
    Ok(Node::list(starts, stops, content, steps))
}

fn offset_lists_between<'a, L: Ledger>(
    alloc: Global,
    offsets: &Lane<'a>,
    content: &Node<'a>,
    lo: u64,
    hi: u64,
    steps: &mut Steps<L>,
) -> Result<Node<'a>, NoMemory>
    requires valid { IsValid (offset_lists offsets.now content.now) }
    requires order { lo ≤ hi }
    requires within { hi < size_of offsets.now }
    ensures part { IfOk result (IsPart (offset_lists offsets.now content.now) lo hi) }
    ensures cost { steps.new ≤ steps.old + 2 }
{
    let content = Box::new(alloc, content.copy(alloc)?)?;
    let offsets = offsets.cut(lo, hi + 1, steps);
    Ok(Node::list_offset(offsets, content, steps))
}

fn indexed<'a, L: Ledger>(
    alloc: Global,
    index: &Lane<'a>,
    content: &Node<'a>,
    lo: u64,
    hi: u64,
    steps: &mut Steps<L>,
) -> Result<Node<'a>, NoMemory>
    requires valid { IsValid (indexed_places index.now content.now) }
    requires order { lo ≤ hi }
    requires within { hi ≤ size_of index.now }
    ensures part { IfOk result (IsPart (indexed_places index.now content.now) lo hi) }
    ensures cost { steps.new ≤ steps.old + 2 }
{
    let content = Box::new(alloc, content.copy(alloc)?)?;
    let index = index.cut(lo, hi, steps);
    Ok(Node::indexed(index, content, steps))
}

fn indexed_option<'a, L: Ledger>(
    alloc: Global,
    index: &Lane<'a>,
    content: &Node<'a>,
    lo: u64,
    hi: u64,
    steps: &mut Steps<L>,
) -> Result<Node<'a>, NoMemory>
    requires valid { IsValid (optional_places index.now content.now) }
    requires order { lo ≤ hi }
    requires within { hi ≤ size_of index.now }
    ensures part { IfOk result (IsPart (optional_places index.now content.now) lo hi) }
    ensures cost { steps.new ≤ steps.old + 2 }
{
    let content = Box::new(alloc, content.copy(alloc)?)?;
    let index = index.cut(lo, hi, steps);
    Ok(Node::indexed_option(index, content, steps))
}

fn union<'a, L: Ledger>(
    alloc: Global,
    tags: &Lane<'a>,
    index: &Lane<'a>,
    contents: &Nodes<'a>,
    lo: u64,
    hi: u64,
    steps: &mut Steps<L>,
) -> Result<Node<'a>, NoMemory>
    requires valid { IsValid (united tags.now index.now (layouts_from contents.now)) }
    requires order { lo ≤ hi }
    requires within { hi ≤ size_of tags.now }
    ensures part { IfOk result
        (IsPart (united tags.now index.now (layouts_from contents.now)) lo hi) }
    ensures cost { steps.new ≤ steps.old + 3 }
{
    let contents = contents.copy(alloc)?;
    let tags = tags.cut(lo, hi, steps);
    let index = index.cut(lo, hi, steps);
    Ok(Node::union(tags, index, contents, steps))
}

// The masks, over the same part of their content.

fn byte_masked<'a, L: Ledger>(
    mask: &Lane<'a>,
    valid_when: bool,
    content: Box<Node<'a>>,
    lo: u64,
    hi: u64,
    steps: &mut Steps<L>,
) -> Node<'a>
    requires order { lo ≤ hi }
    requires within { hi ≤ size_of mask.now }
    requires length { size_of mask.now < 2 ^ 63 }
    requires mask { IsByteMask mask.now (size_of mask.now) }
    requires reach { hi - lo ≤ len content.value }
    ensures part { (x : Layout) → IsPart x lo hi content.entry.value →
        IsPart (masked_by_bytes mask.now valid_when x) lo hi result }
    ensures cost { steps.new ≤ steps.old + 2 }
{
    let mask = mask.cut(lo, hi, steps);
    Node::byte_masked(mask, valid_when, content, steps)
}

fn bit_masked<'a, L: Ledger>(
    mask: &Bits<'a>,
    valid_when: bool,
    content: Box<Node<'a>>,
    lo: u64,
    hi: u64,
    steps: &mut Steps<L>,
) -> Node<'a>
    requires order { lo ≤ hi }
    requires within { hi ≤ length mask.now }
    requires length { length mask.now < 2 ^ 63 }
    requires reach { hi - lo ≤ len content.value }
    ensures part { (x : Layout) → IsPart x lo hi content.entry.value →
        IsPart (masked_by_bits mask.now valid_when x) lo hi result }
    ensures cost { steps.new ≤ steps.old + 2 }
{
    let bits = mask.cut(lo, hi, steps);
    Node::bit_masked(bits, valid_when, content, steps)
}
