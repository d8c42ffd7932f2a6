//! Items that are all alike because none has a byte: a copy of them is another length.
ghost use Rattle.std.specs.Prelude.{◌≡◌, ◌*◌, ◌<◌, ◌^◌, IfOk, IfSome};
ghost use Rattle.awk_lanes.specs.Places.{size_of};
ghost use Rattle.awk_layout.specs.Layout.{regular};
ghost use Rattle.awk_gather.specs.Alike.{AreCopies, AreAllCopies};
ghost use Rattle.awk_gather.specs.Picked.{IsPicked};

use awk_lanes::{Lane, NoMemory, Steps};
use awk_layout::{Class, Node, Nodes};
use awk_types::copy_names;
use std::alloc::{AllocError, Global};
use std::sync::ledger::Ledger;

/// How many items n lists of one size have.
fn items_within(n: u64, size: u64) -> Result<u64, NoMemory>
    ensures { IfOk result (λ r. (r ≡ n * size) × (r < 2 ^ 63)) }
{
    match n.checked_mul(size) {
        Some(count) if count < 1 << 63 => Ok(count),
        _ => Err(AllocError),
    }
}

/// As many items, each as the items of a node that has no bytes, so that all of them are alike:
/// records without fields, and lists of one size, optional items and records of such. Nothing where
/// the items may differ.
#[cycle(copies)]
fn copies<'a, L: Ledger>(
    alloc: Global,
    x: &Node<'a>,
    n: u64,
    steps: &mut Steps<L>,
) -> Result<Option<Node<'a>>, NoMemory>
    requires small { n < 2 ^ 63 }
    ensures copies { IfOk result (λ r. IfSome r (AreCopies x.now n)) }
{
    if n == 0 {
        return Ok(Some(x.copy(alloc)?));
    }
    match x.class() {
        Class::Row { names, contents } => {
            let Some(contents) = copies_of_all(alloc, contents, n, steps)? else {
                return Ok(None);
            };
            let names = copy_names(alloc, names)?;
            Ok(Some(Node::row(names, n, contents, steps)))
        }
        Class::Regular { size, content } => {
            let count = items_within(n, size)?;
            let Some(part) = copies(alloc, content, count, steps)? else {
                return Ok(None);
            };
            let part = Box::new(alloc, part)?;
            Ok(Some(Node::regular(size, n, part, steps)))
        }
        Class::Unmasked { content } => {
            let Some(part) = copies(alloc, content, n, steps)? else {
                return Ok(None);
            };
            let part = Box::new(alloc, part)?;
            Ok(Some(Node::unmasked(part, n, steps)))
        }
        _ => Ok(None),
    }
}

/// As many items of each of these, or nothing where the items of one may differ.
#[cycle(copies)]
fn copies_of_all<'a, L: Ledger>(
    alloc: Global,
    xs: &Nodes<'a>,
    n: u64,
    steps: &mut Steps<L>,
) -> Result<Option<Nodes<'a>>, NoMemory>
    requires small { n < 2 ^ 63 }
    ensures copies { IfOk result (λ r. IfSome r (AreAllCopies xs.now n)) }
{
    let mut made = Nodes::new(alloc);
    for i in 0..xs.len() {
        let Some(part) = copies(alloc, xs.get(i), n, steps)? else {
            return Ok(None);
        };
        made.push(part)?;
    }
    Ok(Some(made))
}

/// The lists at places, where lists have no items or their items are all alike. Nothing where the
/// items may differ.
pub fn pick_alike<'a, L: Ledger>(
    alloc: Global,
    size: u64,
    n: u64,
    content: &Node<'a>,
    places: &Lane<'a>,
    steps: &mut Steps<L>,
) -> Result<Option<Node<'a>>, NoMemory>
    requires small { size_of places.now < 2 ^ 63 }
    ensures node { IfOk result (λ r. IfSome r (IsPicked (regular size n content.now) places.now)) }
{
    let count = items_within(places.len(), size)?;
    let Some(part) = copies(alloc, content, count, steps)? else {
        return Ok(None);
    };
    let part = Box::new(alloc, part)?;
    Ok(Some(Node::regular(size, places.len(), part, steps)))
}
