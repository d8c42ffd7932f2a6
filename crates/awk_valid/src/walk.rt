//! The walk over a form: the node that it gives, or its first break.
ghost use Rattle.std.specs.Prelude.{◌≡◌, ◌+◌, ◌<◌, ◌≤◌, Some, OnOk, slice_get};
ghost use Rattle.awk_types.specs.Gives.{Gives};
ghost use Rattle.awk_form.specs.FormTree.{form_list};
ghost use Rattle.awk_form.specs.Lawful.{count, IsLawful};
ghost use Rattle.awk_form.specs.View.{form_of};
ghost use Rattle.awk_form.specs.declared.form.Form.{size-Form};
ghost use Rattle.awk_form.specs.Measures.{nodes};
ghost use Rattle.awk_valid.specs.Loading.{told};
ghost use Rattle.awk_form.specs.FormTree.{contents_of};
ghost use Rattle.awk_form.specs.Measures as extent;
ghost use Rattle.awk_valid.specs.Walked.{given, node_said, budget};

use crate::fault::LoadFault;
use crate::own::over;
use crate::parts::{Spot, Walk, own_part};
use awk_form::{Form, Shape};
use awk_kernels::Kernels;
use awk_lanes::Steps;
use awk_layout::Node;
use awk_store::Store;
use std::alloc::Global;
use std::sync::ledger::Ledger;

/// The content of a form at a place.
fn content_at(form: &Form, place: usize) -> &Form
    requires within { place < count (contents_of (form_of form.now)) }
    ensures item { slice_get (form_list (contents_of (form_of form.now))) place ≡ Some (form_of
        result.now) }
    ensures below { size-Form result.now < size-Form form.now }
{
    match &form.shape {
        // These have none.
        Shape::Empty | Shape::Numpy { .. } => form,
        Shape::Regular { content, .. }
        | Shape::List { content, .. }
        | Shape::ListOffset { content, .. }
        | Shape::Indexed { content, .. }
        | Shape::IndexedOption { content, .. }
        | Shape::ByteMasked { content, .. }
        | Shape::BitMasked { content, .. }
        | Shape::Unmasked { content } => content,
        Shape::Row { contents, .. } => contents.get(place),
        Shape::Union { contents, .. } => contents.get(place),
    }
}

/// The node of n items that a form gives: its own part, then its contents in order, then the node
/// over them.
pub(crate) fn node<'a, N: Kernels, L: Ledger>(
    walk: &Walk<'_, 'a, N>,
    form: &Form,
    n: u64,
    next: &mut u64,
    store: &mut Store<'_, 'a>,
    steps: &mut Steps<L>,
) -> Result<Node<'a>, LoadFault>
    requires lawful { IsLawful (form_of form.now) }
    ensures answer { Gives (λ x. x) told result (node_said (form_of form.now) next.old n
        (given walk.now.reader.now.big store.old.held)) }
    ensures next { OnOk result (next.new ≡ next.old + nodes (form_of form.now)) }
    ensures held { store.new.held ≡ store.old.held }
    ensures cost { steps.new ≤ steps.old + budget (extent.width (form_of form.now))
        (given walk.now.reader.now.big store.old.held) }
{
    let spot = Spot { node: *next, n };
    // There are fewer nodes than 2^64 in any memory.
    *next = spot.node.checked_add(1).ok_or(LoadFault::NoMemory)?;
    let (own, lengths) = own_part(walk, form, spot, store, steps)?;
    let mut contents = Vec::new(walk.reader.alloc);
    for i in 0..lengths.len() {
        let content = node(walk, content_at(form, i), lengths[i], next, store, steps)?;
        contents.push(content)?;
    }
    Ok(over(walk.reader.alloc, n, own, contents, steps)?)
}
