//! The node of a form of numbers: a lane, in the regular lists of its inner shape.
ghost use Rattle.std.specs.Prelude.{◌≡◌, ℕ, ◌+◌, ◌-◌, ◌*◌, ◌≤◌, length, drop, None, IfOk};
ghost use Rattle.awk_types.specs.Gives.{Gives, refused_or};
ghost use Rattle.awk_types.specs.ItemLimit.{item_limit};
ghost use Rattle.awk_lanes.specs.Places.{size_of};
ghost use Rattle.awk_layout.specs.Layout.{flat};
ghost use Rattle.awk_store.specs.Buffers.{held_len};
ghost use Rattle.awk_form.specs.FormTree.{numpy};
ghost use Rattle.awk_layout.specs.Kinds.{kind_of};
ghost use Rattle.awk_valid.specs.Container.{container_of};
ghost use Rattle.awk_valid.specs.Broken.{size_break, shape_break, node_break};
ghost use Rattle.awk_valid.specs.Loaded.{shaped, layout_of};
ghost use Rattle.awk_valid.specs.Loading.{told};
ghost use Rattle.awk_valid.specs.Needs.{product};

use crate::buffers::judged_size;
use crate::fault::LoadFault;
use crate::keys::buffer_key;
use crate::lanes::{Reader, lane_at};
use awk_form::Dims;
use awk_lanes::{Lane, Steps};
use awk_layout::{Node, kind_of};
use awk_store::Store;
use awk_types::{Name, NoMemory, Prim};
use std::alloc::Global;
use std::sync::ledger::Ledger;

/// How many items n lists of one size have.
pub(crate) fn items_of(n: u64, size: u64) -> Result<u64, LoadFault>
    ensures { Gives (λ items. items) told result (refused_or (size_break (n * size)) (n * size)) }
{
    match n.checked_mul(size) {
        Some(items) => match judged_size(items) {
            Ok(()) => Ok(items),
            Err(fault) => Err(fault),
        },
        // Such a product is above each u64.
        None => Err(LoadFault::Size),
    }
}

/// How many numbers n items of an inner shape have: n, n times the first inner number, and so on
/// are judged.
fn judged_shape(inner: &Dims, n: u64) -> Result<u64, LoadFault>
    ensures answer { Gives (λ items. items) told result (refused_or (shape_break n inner.now) (n *
        product inner.now)) }
    ensures few { IfOk result (λ items. items ≤ item_limit) }
{
    judged_size(n)?;
    let mut items = n;
    for i in 0..inner.len() {
        items = items_of(items, *inner.get(i))?;
    }
    Ok(items)
}

/// n items of the inner shape from a place on, over all their numbers.
fn shaped_node<'a, L: Ledger>(
    alloc: Global,
    inner: &Dims,
    place: usize,
    n: u64,
    lane: Lane<'a>,
    steps: &mut Steps<L>,
) -> Result<Node<'a>, NoMemory>
    requires place { place ≤ length inner.now }
    requires few { shape_break n (drop place inner.now) ≡ None }
    requires numbers { size_of lane ≡ n * product (drop place inner.now) }
    ensures node { IfOk result (λ node. node ≡ shaped (drop place inner.now) n (flat lane.entry)) }
    ensures cost { steps.new ≤ steps.old + (length inner.now - place) + 1 }
{
    if place == inner.len() {
        return Ok(Node::numpy(lane, steps));
    }
    let size = *inner.get(place);
    let content = shaped_node(alloc, inner, place + 1, n * size, lane, steps)?;
    Ok(Node::regular(size, n, Box::new(alloc, content)?, steps))
}

/// n items of an inner shape, with the numbers of the buffer under the form key.
pub(crate) fn numbers_node<'a, L: Ledger>(
    reader: &Reader<'a>,
    store: &mut Store<'_, 'a>,
    key: &Option<Name>,
    prim: Prim,
    inner: &Dims,
    n: u64,
    steps: &mut Steps<L>,
) -> Result<Node<'a>, LoadFault>
    // The number of the node is told by no break of such a node.
    ensures answer { (node : ℕ) → Gives (λ x. x) told result (refused_or
        (node_break (numpy key.now prim inner.now) node n
        (container_of reader.now.big store.old.held))
        (layout_of (numpy key.now prim inner.now) n (container_of reader.now.big store.old.held))) }
    ensures held { store.new.held ≡ store.old.held }
    ensures cost { steps.new ≤ steps.old + held_len store.old.held + length inner.now + 1 }
{
    let items = judged_shape(inner, n)?;
    let key = buffer_key(reader.alloc, key, "data")?;
    let lane = lane_at(reader, store, &key, kind_of(prim), items, steps)?;
    Ok(shaped_node(reader.alloc, inner, 0, n, lane, steps)?)
}
