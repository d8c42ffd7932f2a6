//! Copies for a shorter life, over the same bytes: nodes and names are copied, and lanes are lent.
ghost use Rattle.std.specs.Prelude.{◌≡◌, ◌+◌, ◌≤◌, IfOk};
ghost use Rattle.awk_layout.specs.Layout.{weight, weights, layouts_from};

use awk_bits::Bits;
use awk_lanes::{Lane, Steps};
use awk_layout::{Array, Class, Node, Nodes};
use awk_types::{NoMemory, copy_names, copy_type};
use std::alloc::Global;
use std::sync::ledger::Ledger;

/// The same array. It takes at most a step for each node.
pub fn shared_array<'s, 'a: 's, L: Ledger>(
    alloc: Global,
    x: &Array<'a>,
    steps: &mut Steps<L>,
) -> Result<Array<'s>, NoMemory>
    ensures same { IfOk result (λ made. made ≡ x.now) }
    ensures cost { steps.new ≤ steps.old + weight x.now }
{
    let node = shared(alloc, x.node(), steps)?;
    let typ = copy_type(alloc, x.typ())?;
    Ok(Array::with_type(node, typ))
}

// The same node.
#[cycle(shared)]
fn shared<'s, 'a: 's, L: Ledger>(
    alloc: Global,
    x: &Node<'a>,
    steps: &mut Steps<L>,
) -> Result<Node<'s>, NoMemory>
    ensures same { IfOk result (λ made. made ≡ x.now) }
    ensures cost { steps.new ≤ steps.old + weight x.now }
{
    match x.class() {
        Class::Empty => Ok(Node::empty(steps)),
        Class::Numpy { lane } => Ok(Node::numpy(lent(lane), steps)),
        Class::Regular { size, content } => {
            let content = boxed(alloc, content, steps)?;
            Ok(Node::regular(size, x.len(), content, steps))
        }
        Class::List {
            starts,
            stops,
            content,
        } => {
            let content = boxed(alloc, content, steps)?;
            Ok(Node::list(lent(starts), lent(stops), content, steps))
        }
        Class::ListOffset { offsets, content } => {
            let content = boxed(alloc, content, steps)?;
            Ok(Node::list_offset(lent(offsets), content, steps))
        }
        Class::Row { names, contents } => {
            let names = copy_names(alloc, names)?;
            let contents = shared_all(alloc, contents, steps)?;
            Ok(Node::row(names, x.len(), contents, steps))
        }
        Class::Indexed { index, content } => {
            let content = boxed(alloc, content, steps)?;
            Ok(Node::indexed(lent(index), content, steps))
        }
        Class::IndexedOption { index, content } => {
            let content = boxed(alloc, content, steps)?;
            Ok(Node::indexed_option(lent(index), content, steps))
        }
        Class::ByteMasked {
            mask,
            valid_when,
            content,
        } => {
            let content = boxed(alloc, content, steps)?;
            Ok(Node::byte_masked(lent(mask), valid_when, content, steps))
        }
        Class::BitMasked {
            mask,
            valid_when,
            content,
        } => {
            let content = boxed(alloc, content, steps)?;
            Ok(Node::bit_masked(lent_bits(mask), valid_when, content, steps))
        }
        Class::Unmasked { content } => {
            let content = boxed(alloc, content, steps)?;
            Ok(Node::unmasked(content, x.len(), steps))
        }
        Class::Union {
            tags,
            index,
            contents,
        } => {
            let contents = shared_all(alloc, contents, steps)?;
            Ok(Node::union(lent(tags), lent(index), contents, steps))
        }
    }
}

// The same node in a box.
#[cycle(shared)]
fn boxed<'s, 'a: 's, L: Ledger>(
    alloc: Global,
    x: &Node<'a>,
    steps: &mut Steps<L>,
) -> Result<Box<Node<'s>>, NoMemory>
    ensures same { IfOk result (λ made. made.value ≡ x.now) }
    ensures cost { steps.new ≤ steps.old + weight x.now }
{
    Ok(Box::new(alloc, shared(alloc, x, steps)?)?)
}

// The same nodes.
#[cycle(shared)]
fn shared_all<'s, 'a: 's, L: Ledger>(
    alloc: Global,
    xs: &Nodes<'a>,
    steps: &mut Steps<L>,
) -> Result<Nodes<'s>, NoMemory>
    ensures same { IfOk result (λ made. made ≡ xs.now) }
    ensures cost { steps.new ≤ steps.old + weights (layouts_from xs.now) }
{
    let mut made = Nodes::new(alloc);
    for i in 0..xs.len() {
        made.push(shared(alloc, xs.get(i), steps)?)?;
    }
    Ok(made)
}

// A lane for a shorter life, over the same bytes.
fn lent<'s, 'a: 's>(lane: &Lane<'a>) -> Lane<'s>
    ensures { result ≡ lane.now }
{
    let copied = lane.copy();
    shorter(copied)
}

fn shorter<'s, 'a: 's>(lane: Lane<'a>) -> Lane<'s>
    ensures { result ≡ lane.entry }
{
    lane
}

// The same of bits.
fn lent_bits<'s, 'a: 's>(bits: &Bits<'a>) -> Bits<'s>
    ensures { result ≡ bits.now }
{
    let copied = bits.copy();
    shorter_bits(copied)
}

fn shorter_bits<'s, 'a: 's>(bits: Bits<'a>) -> Bits<'s>
    ensures { result ≡ bits.entry }
{
    bits
}
