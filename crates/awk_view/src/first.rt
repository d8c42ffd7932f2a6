//! The first items of a node: its lanes are cut, and its contents stay.
ghost use Rattle.std.specs.Prelude.{◌≡◌, ◌+◌, ◌<◌, ◌≤◌, length, IfOk};
ghost use Rattle.awk_lanes.specs.Places.{size_of};
ghost use Rattle.awk_layout.specs.Layout.{flat, lists, offset_lists, indexed, optional};
ghost use Rattle.awk_layout.specs.Layout.{byte_masked, bit_masked, union, layouts_from};
ghost use Rattle.awk_layout.specs.Valid.{len, IsValid};
ghost use Rattle.awk_view.specs.Layouts.{first_items};

use awk_bits::Bits;
use awk_lanes::{Lane, Steps};
use awk_layout::{Class, Node, Nodes};
use awk_types::{NoMemory, copy_names};
use std::alloc::Global;
use std::sync::ledger::Ledger;

/// The node in a box of its own.
fn boxed<'a>(alloc: Global, x: &Node<'a>) -> Result<Box<Node<'a>>, NoMemory>
    ensures { IfOk result (λ copied. copied.value ≡ x.now) }
{
    Ok(Box::new(alloc, x.copy(alloc)?)?)
}

#[tactic(auto, using(crate::proofs::FirstItems::firsts))]
fn first_numbers<'a, L: Ledger>(lane: &Lane<'a>, n: u64, steps: &mut Steps<L>) -> Node<'a>
    requires valid { IsValid (flat lane.now) }
    requires within { n ≤ size_of lane.now }
    ensures node { result ≡ first_items n (flat lane.now) }
    ensures cost { steps.new ≤ steps.old + 2 }
{
    Node::numpy(lane.cut(0, n, steps), steps)
}

#[tactic(auto, using(crate::proofs::FirstItems::firsts))]
fn first_lists<'a, L: Ledger>(
    alloc: Global,
    starts: &Lane<'a>,
    stops: &Lane<'a>,
    content: &Node<'a>,
    n: u64,
    steps: &mut Steps<L>,
) -> Result<Node<'a>, NoMemory>
    requires valid { IsValid (lists starts.now stops.now content.now) }
    requires within { n ≤ size_of starts.now }
    ensures node { IfOk result (λ made.
        made ≡ first_items n (lists starts.now stops.now content.now)) }
    ensures cost { steps.new ≤ steps.old + 3 }
{
    let content = boxed(alloc, content)?;
    let starts = starts.cut(0, n, steps);
    let stops = stops.cut(0, n, steps);
    Ok(Node::list(starts, stops, content, steps))
}

#[tactic(auto, using(crate::proofs::FirstItems::firsts))]
fn first_offsets<'a, L: Ledger>(
    alloc: Global,
    offsets: &Lane<'a>,
    content: &Node<'a>,
    n: u64,
    steps: &mut Steps<L>,
) -> Result<Node<'a>, NoMemory>
    requires valid { IsValid (offset_lists offsets.now content.now) }
    requires within { n < size_of offsets.now }
    ensures node { IfOk result (λ made.
        made ≡ first_items n (offset_lists offsets.now content.now)) }
    ensures cost { steps.new ≤ steps.old + 2 }
{
    let content = boxed(alloc, content)?;
    let offsets = offsets.cut(0, n + 1, steps);
    Ok(Node::list_offset(offsets, content, steps))
}

#[tactic(auto, using(crate::proofs::FirstItems::firsts))]
fn first_indexed<'a, L: Ledger>(
    alloc: Global,
    index: &Lane<'a>,
    content: &Node<'a>,
    n: u64,
    steps: &mut Steps<L>,
) -> Result<Node<'a>, NoMemory>
    requires valid { IsValid (indexed index.now content.now) }
    requires within { n ≤ size_of index.now }
    ensures node { IfOk result (λ made.
        made ≡ first_items n (indexed index.now content.now)) }
    ensures cost { steps.new ≤ steps.old + 2 }
{
    let content = boxed(alloc, content)?;
    let index = index.cut(0, n, steps);
    Ok(Node::indexed(index, content, steps))
}

#[tactic(auto, using(crate::proofs::FirstItems::firsts))]
fn first_optional<'a, L: Ledger>(
    alloc: Global,
    index: &Lane<'a>,
    content: &Node<'a>,
    n: u64,
    steps: &mut Steps<L>,
) -> Result<Node<'a>, NoMemory>
    requires valid { IsValid (optional index.now content.now) }
    requires within { n ≤ size_of index.now }
    ensures node { IfOk result (λ made.
        made ≡ first_items n (optional index.now content.now)) }
    ensures cost { steps.new ≤ steps.old + 2 }
{
    let content = boxed(alloc, content)?;
    let index = index.cut(0, n, steps);
    Ok(Node::indexed_option(index, content, steps))
}

#[tactic(auto, using(crate::proofs::FirstItems::firsts))]
fn first_masked<'a, L: Ledger>(
    alloc: Global,
    mask: &Lane<'a>,
    valid_when: bool,
    content: &Node<'a>,
    n: u64,
    steps: &mut Steps<L>,
) -> Result<Node<'a>, NoMemory>
    requires valid { IsValid (byte_masked mask.now valid_when content.now) }
    requires within { n ≤ size_of mask.now }
    ensures node { IfOk result (λ made.
        made ≡ first_items n (byte_masked mask.now valid_when content.now)) }
    ensures cost { steps.new ≤ steps.old + 2 }
{
    let content = boxed(alloc, content)?;
    let mask = mask.cut(0, n, steps);
    Ok(Node::byte_masked(mask, valid_when, content, steps))
}

#[tactic(auto, using(crate::proofs::FirstItems::firsts))]
fn first_bits<'a, L: Ledger>(
    alloc: Global,
    mask: &Bits<'a>,
    valid_when: bool,
    content: &Node<'a>,
    n: u64,
    steps: &mut Steps<L>,
) -> Result<Node<'a>, NoMemory>
    requires valid { IsValid (bit_masked mask.now valid_when content.now) }
    requires within { n ≤ length mask.now }
    ensures node { IfOk result (λ made.
        made ≡ first_items n (bit_masked mask.now valid_when content.now)) }
    ensures cost { steps.new ≤ steps.old + 2 }
{
    let content = boxed(alloc, content)?;
    let mask = mask.cut(0, n, steps);
    Ok(Node::bit_masked(mask, valid_when, content, steps))
}

#[tactic(auto, using(crate::proofs::FirstItems::firsts))]
fn first_of_union<'a, L: Ledger>(
    alloc: Global,
    tags: &Lane<'a>,
    index: &Lane<'a>,
    contents: &Nodes<'a>,
    n: u64,
    steps: &mut Steps<L>,
) -> Result<Node<'a>, NoMemory>
    requires valid { IsValid (union tags.now index.now (layouts_from contents.now)) }
    requires within { n ≤ size_of tags.now }
    ensures node { IfOk result (λ made.
        made ≡ first_items n (union tags.now index.now (layouts_from contents.now))) }
    ensures cost { steps.new ≤ steps.old + 3 }
{
    let contents = contents.copy(alloc)?;
    let tags = tags.cut(0, n, steps);
    let index = index.cut(0, n, steps);
    Ok(Node::union(tags, index, contents, steps))
}

/// The first n items. Contents are shared as they are, longer than needed or not.
#[tactic(auto, using(crate::proofs::FirstItems::firsts))]
pub(crate) fn first_items<'a, L: Ledger>(
    alloc: Global,
    x: &Node<'a>,
    n: u64,
    steps: &mut Steps<L>,
) -> Result<Node<'a>, NoMemory>
    requires { n ≤ len x.now }
    ensures node { IfOk result (λ made. made ≡ first_items n x.now) }
    ensures cost { steps.new ≤ steps.old + 3 }
{
    match x.class() {
        Class::Empty => Ok(Node::empty(steps)),
        Class::Numpy { lane } => Ok(first_numbers(lane, n, steps)),
        Class::Regular { size, content } => {
            Ok(Node::regular(size, n, boxed(alloc, content)?, steps))
        }
        Class::List {
            starts,
            stops,
            content,
        } => first_lists(alloc, starts, stops, content, n, steps),
        Class::ListOffset { offsets, content } => first_offsets(alloc, offsets, content, n, steps),
        Class::Row { names, contents } => {
            let names = copy_names(alloc, names)?;
            Ok(Node::row(names, n, contents.copy(alloc)?, steps))
        }
        Class::Indexed { index, content } => first_indexed(alloc, index, content, n, steps),
        Class::IndexedOption { index, content } => first_optional(alloc, index, content, n, steps),
        Class::ByteMasked {
            mask,
            valid_when,
            content,
        } => first_masked(alloc, mask, valid_when, content, n, steps),
        Class::BitMasked {
            mask,
            valid_when,
            content,
        } => first_bits(alloc, mask, valid_when, content, n, steps),
        Class::Unmasked { content } => Ok(Node::unmasked(boxed(alloc, content)?, n, steps)),
        Class::Union {
            tags,
            index,
            contents,
        } => first_of_union(alloc, tags, index, contents, n, steps),
    }
}
