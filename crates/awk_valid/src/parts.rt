//! What a node holds beside its contents, judged, and the lengths that its contents need.
ghost use Rattle.std.specs.Prelude.{◌≡◌, ℕ, ◌+◌, ◌*◌, ◌≤◌, ◌∷◌, [], Bool, List, Option, length};
ghost use Rattle.std.specs.Prelude.{IfOk};
ghost use Rattle.awk_types.specs.DataType.{Name};
ghost use Rattle.awk_types.specs.Gives.{Gives};
ghost use Rattle.awk_store.specs.Buffers.{held_len};
ghost use Rattle.awk_form.specs.FormTree as tree;
ghost use Rattle.awk_form.specs.FormTree.{FormTree, FormTrees, forms_from};
ghost use Rattle.awk_form.specs.Lawful.{count, IsLawful};
ghost use Rattle.awk_form.specs.View.{form_of};
ghost use Rattle.awk_form.specs.Measures.{inner_shape};
ghost use Rattle.awk_valid.specs.Loading.{told};
ghost use Rattle.awk_valid.specs.declared.own.Own.{Own};
ghost use Rattle.awk_valid.specs.Walked.{Given, given, GivesOwn, own_said};

use crate::buffers::{index_lane, int8_lane, judged_size, mask_bits};
use crate::fault::{LoadFault, Rule};
use crate::lanes::Reader;
use crate::lengths::{judged_index, judged_lists, judged_offsets, judged_union, optional_length};
use crate::numbers::{items_of, numbers_node};
use crate::own::{One, Own};
use awk_form::{Dims, Form, IndexKind, Shape};
use awk_kernels::Kernels;
use awk_lanes::Steps;
use awk_layout::Node;
use awk_store::Store;
use awk_types::{Name, Names, NoMemory, Prim};
use std::alloc::Global;
use std::sync::ledger::Ledger;

/// What stays the same from node to node.
#[derive(Drop)]
pub(crate) struct Walk<'w, 'a, N> {
    pub reader: &'w Reader<'a>,
    pub kernels: &'w N,
}

/// A node, by its number in pre-order, and how many items it has.
#[derive(Clone, Copy)]
pub(crate) struct Spot {
    pub node: u64,
    pub n: u64,
}

/// The lengths of one content.
fn one_length(alloc: Global, length: u64) -> Result<Vec<u64>, NoMemory>
    ensures { IfOk result (λ lengths. lengths.items ≡ length ∷ []) }
{
    Ok(vec![in alloc; length; 1]?)
}

/// An EmptyArray, which has no items.
fn empty<'a, L: Ledger>(
    alloc: Global,
    spot: Spot,
    steps: &mut Steps<L>,
) -> Result<(Own<'a>, Vec<u64>), LoadFault>
    ensures answer { (key : Option Name) (g : Given) → GivesOwn (tree.empty key) spot.node
        spot.n g result }
    ensures cost { steps.new ≤ steps.old + 1 }
{
    judged_size(spot.n)?;
    if spot.n > 0 {
        return Err(LoadFault::Invalid {
            node: spot.node,
            rule: Rule::Empty,
            place: 0,
        });
    }
    Ok((Own::Whole(Node::empty(steps)), Vec::new(alloc)))
}

/// A RegularArray.
fn regular<'a>(alloc: Global, size: u64, spot: Spot) -> Result<(Own<'a>, Vec<u64>), LoadFault>
    ensures { (key : Option Name) (f : FormTree) (g : Given) → GivesOwn (tree.regular key size
        f) spot.node spot.n g result }
{
    judged_size(spot.n)?;
    let lengths = one_length(alloc, items_of(spot.n, size)?)?;
    Ok((Own::Over(One::Regular(size)), lengths))
}

/// The starts and stops of lists.
fn list<'a, N: Kernels, L: Ledger>(
    walk: &Walk<'_, 'a, N>,
    key: &Option<Name>,
    start_kind: IndexKind,
    stop_kind: IndexKind,
    spot: Spot,
    store: &mut Store<'_, 'a>,
    steps: &mut Steps<L>,
) -> Result<(Own<'a>, Vec<u64>), LoadFault>
    ensures answer { (f : FormTree) → GivesOwn (tree.list key.now start_kind stop_kind f) spot.node
        spot.n (given walk.now.reader.now.big store.old.held) result }
    ensures held { store.new.held ≡ store.old.held }
    ensures cost { steps.new ≤ steps.old + 4 * held_len store.old.held }
{
    judged_size(spot.n)?;
    let starts = index_lane(walk.reader, store, key, "starts", start_kind, spot.n, steps)?;
    let stops = index_lane(walk.reader, store, key, "stops", stop_kind, spot.n, steps)?;
    let length = judged_lists(
        walk.reader.alloc,
        walk.kernels,
        spot.node,
        &starts,
        &stops,
        steps,
    )?;
    let lengths = one_length(walk.reader.alloc, length)?;
    Ok((Own::Over(One::Lists(starts, stops)), lengths))
}

/// The offsets of lists.
fn list_offset<'a, N: Kernels, L: Ledger>(
    walk: &Walk<'_, 'a, N>,
    key: &Option<Name>,
    kind: IndexKind,
    spot: Spot,
    store: &mut Store<'_, 'a>,
    steps: &mut Steps<L>,
) -> Result<(Own<'a>, Vec<u64>), LoadFault>
    ensures answer { (f : FormTree) → GivesOwn (tree.list_offset key.now kind f) spot.node spot.n
        (given walk.now.reader.now.big store.old.held) result }
    ensures held { store.new.held ≡ store.old.held }
    ensures cost { steps.new ≤ steps.old + 4 * held_len store.old.held }
{
    judged_size(spot.n)?;
    let offsets = index_lane(walk.reader, store, key, "offsets", kind, spot.n + 1, steps)?;
    let length = judged_offsets(walk.reader.alloc, walk.kernels, spot.node, &offsets, steps)?;
    let lengths = one_length(walk.reader.alloc, length)?;
    Ok((Own::Over(One::OffsetLists(offsets)), lengths))
}

/// The names of a record, and the length of each of its contents.
fn row<'a>(
    alloc: Global,
    names: &Option<Names>,
    contents: usize,
    spot: Spot,
) -> Result<(Own<'a>, Vec<u64>), LoadFault>
    ensures { (key : Option Name) (fs : FormTrees) (g : Given) → count fs ≡ contents → GivesOwn
        (tree.row key names.now fs) spot.node spot.n g result }
{
    judged_size(spot.n)?;
    let lengths = vec![in alloc; spot.n; contents]?;
    Ok((Own::Rows(copied(alloc, names)?), lengths))
}

/// The same names, where there are any.
fn copied(alloc: Global, names: &Option<Names>) -> Result<Option<Names>, NoMemory>
    ensures { IfOk result (λ copied. copied ≡ names.now) }
{
    match names {
        None => Ok(None),
        Some(names) => Ok(Some(names.copy(alloc)?)),
    }
}

/// The index of items, none of which is missing.
fn indexed<'a, N: Kernels, L: Ledger>(
    walk: &Walk<'_, 'a, N>,
    key: &Option<Name>,
    kind: IndexKind,
    spot: Spot,
    store: &mut Store<'_, 'a>,
    steps: &mut Steps<L>,
) -> Result<(Own<'a>, Vec<u64>), LoadFault>
    ensures answer { (f : FormTree) → GivesOwn (tree.indexed key.now kind f) spot.node spot.n
        (given walk.now.reader.now.big store.old.held) result }
    ensures held { store.new.held ≡ store.old.held }
    ensures cost { steps.new ≤ steps.old + 4 * held_len store.old.held }
{
    judged_size(spot.n)?;
    let index = index_lane(walk.reader, store, key, "index", kind, spot.n, steps)?;
    let length = judged_index(walk.reader.alloc, walk.kernels, spot.node, &index, steps)?;
    let lengths = one_length(walk.reader.alloc, length)?;
    Ok((Own::Over(One::Indexed(index)), lengths))
}

/// The index of items, of which any may be missing.
fn indexed_option<'a, N: Kernels, L: Ledger>(
    walk: &Walk<'_, 'a, N>,
    key: &Option<Name>,
    kind: IndexKind,
    spot: Spot,
    store: &mut Store<'_, 'a>,
    steps: &mut Steps<L>,
) -> Result<(Own<'a>, Vec<u64>), LoadFault>
    ensures answer { (f : FormTree) → GivesOwn (tree.indexed_option key.now kind f) spot.node
        spot.n (given walk.now.reader.now.big store.old.held) result }
    ensures held { store.new.held ≡ store.old.held }
    ensures cost { steps.new ≤ steps.old + 4 * held_len store.old.held }
{
    judged_size(spot.n)?;
    let index = index_lane(walk.reader, store, key, "index", kind, spot.n, steps)?;
    let length = optional_length(walk.reader.alloc, walk.kernels, &index, steps)?;
    let lengths = one_length(walk.reader.alloc, length)?;
    Ok((Own::Over(One::Optional(index)), lengths))
}

/// The bytes of a mask.
fn byte_masked<'a, L: Ledger>(
    reader: &Reader<'a>,
    key: &Option<Name>,
    valid_when: bool,
    spot: Spot,
    store: &mut Store<'_, 'a>,
    steps: &mut Steps<L>,
) -> Result<(Own<'a>, Vec<u64>), LoadFault>
    ensures answer { (f : FormTree) → GivesOwn (tree.byte_masked key.now valid_when f) spot.node
        spot.n (given reader.now.big store.old.held) result }
    ensures held { store.new.held ≡ store.old.held }
    ensures cost { steps.new ≤ steps.old + held_len store.old.held }
{
    judged_size(spot.n)?;
    let mask = int8_lane(reader, store, key, "mask", spot.n, steps)?;
    let lengths = one_length(reader.alloc, spot.n)?;
    Ok((Own::Over(One::ByteMasked(mask, valid_when)), lengths))
}

/// The bits of a mask.
fn bit_masked<'a, L: Ledger>(
    reader: &Reader<'a>,
    key: &Option<Name>,
    valid_when: bool,
    lsb_order: bool,
    spot: Spot,
    store: &mut Store<'_, 'a>,
    steps: &mut Steps<L>,
) -> Result<(Own<'a>, Vec<u64>), LoadFault>
    ensures answer { (f : FormTree) → GivesOwn (tree.bit_masked key.now valid_when lsb_order f)
        spot.node spot.n (given reader.now.big store.old.held) result }
    ensures held { store.new.held ≡ store.old.held }
    ensures cost { steps.new ≤ steps.old + held_len store.old.held }
{
    judged_size(spot.n)?;
    let mask = mask_bits(reader, store, key, "mask", lsb_order, spot.n, steps)?;
    let lengths = one_length(reader.alloc, spot.n)?;
    Ok((Own::Over(One::BitMasked(mask, valid_when)), lengths))
}

/// An UnmaskedArray.
fn unmasked<'a>(alloc: Global, spot: Spot) -> Result<(Own<'a>, Vec<u64>), LoadFault>
    ensures { (key : Option Name) (f : FormTree) (g : Given) → GivesOwn (tree.unmasked key f)
        spot.node spot.n g result }
{
    judged_size(spot.n)?;
    let lengths = one_length(alloc, spot.n)?;
    Ok((Own::Over(One::Unmasked), lengths))
}

/// The tags and the index of items, and how many items each alternative needs.
fn union<'a, L: Ledger>(
    reader: &Reader<'a>,
    key: &Option<Name>,
    kind: IndexKind,
    alternatives: u64,
    spot: Spot,
    store: &mut Store<'_, 'a>,
    steps: &mut Steps<L>,
) -> Result<(Own<'a>, Vec<u64>), LoadFault>
    requires few { alternatives ≤ 127 }
    ensures answer { (fs : FormTrees) → count fs ≡ alternatives → GivesOwn (tree.union key.now kind
        fs) spot.node spot.n (given reader.now.big store.old.held) result }
    ensures held { store.new.held ≡ store.old.held }
    ensures cost { steps.new ≤ steps.old + 4 * held_len store.old.held }
{
    judged_size(spot.n)?;
    let tags = int8_lane(reader, store, key, "tags", spot.n, steps)?;
    let index = index_lane(reader, store, key, "index", kind, spot.n, steps)?;
    let lengths = judged_union(reader.alloc, spot.node, alternatives, &tags, &index, steps)?;
    Ok((Own::Union(tags, index), lengths))
}

/// A NumpyArray.
fn numbers<'a, L: Ledger>(
    reader: &Reader<'a>,
    key: &Option<Name>,
    prim: Prim,
    inner: &Dims,
    n: u64,
    store: &mut Store<'_, 'a>,
    steps: &mut Steps<L>,
) -> Result<(Own<'a>, Vec<u64>), LoadFault>
    ensures answer { (node : ℕ) → GivesOwn (tree.numpy key.now prim inner.now) node n
        (given reader.now.big store.old.held) result }
    ensures held { store.new.held ≡ store.old.held }
    ensures cost { steps.new ≤ steps.old + held_len store.old.held + length inner.now + 1 }
{
    let node = numbers_node(reader, store, key, prim, inner, n, steps)?;
    Ok((Own::Whole(node), Vec::new(reader.alloc)))
}

/// What a node of a form holds beside its contents, and the lengths of those.
pub(crate) fn own_part<'a, N: Kernels, L: Ledger>(
    walk: &Walk<'_, 'a, N>,
    form: &Form,
    spot: Spot,
    store: &mut Store<'_, 'a>,
    steps: &mut Steps<L>,
) -> Result<(Own<'a>, Vec<u64>), LoadFault>
    requires lawful { IsLawful (form_of form.now) }
    ensures answer { Gives {Y = Own × List ℕ} (λ x. (x.0, x.1.items)) told result (own_said
        (form_of form.now) spot.node spot.n (given walk.now.reader.now.big store.old.held)) }
    ensures held { store.new.held ≡ store.old.held }
    ensures cost { steps.new ≤ steps.old + 4 * held_len store.old.held + length (inner_shape
        (form_of form.now)) + 1 }
{
    let reader = walk.reader;
    let key = &form.key;
    match &form.shape {
        Shape::Empty => empty(reader.alloc, spot, steps),
        Shape::Numpy { prim, inner } => numbers(reader, key, *prim, inner, spot.n, store, steps),
        Shape::Regular { size, .. } => regular(reader.alloc, *size, spot),
        Shape::List { starts, stops, .. } => list(walk, key, *starts, *stops, spot, store, steps),
        Shape::ListOffset { offsets, .. } => list_offset(walk, key, *offsets, spot, store, steps),
        Shape::Row { names, contents } => row(reader.alloc, names, contents.len(), spot),
        Shape::Indexed { index, .. } => indexed(walk, key, *index, spot, store, steps),
        Shape::IndexedOption { index, .. } => indexed_option(walk, key, *index, spot, store, steps),
        Shape::ByteMasked { valid_when, .. } => {
            byte_masked(reader, key, *valid_when, spot, store, steps)
        }
        Shape::BitMasked {
            valid_when,
            lsb_order,
            ..
        } => bit_masked(reader, key, *valid_when, *lsb_order, spot, store, steps),
        Shape::Unmasked { .. } => unmasked(reader.alloc, spot),
        Shape::Union { index, contents } => {
            union(
                reader,
                key,
                *index,
                contents.len() as u64,
                spot,
                store,
                steps,
            )
        }
    }
}
