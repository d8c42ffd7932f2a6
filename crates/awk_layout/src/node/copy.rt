//! Copies of nodes: nodes and names are copied, and lanes lie over the same bytes.
ghost use Rattle.std.specs.Prelude.{◌≡◌, IfOk};

use crate::node::{Inner, Node, Nodes};
use awk_types::{NoMemory, copy_names};
use std::alloc::Global;

impl<'a> Node<'a> {
    /// The same node over the same bytes. It takes no step.
    #[cycle(copy)]
    pub fn copy(&self, alloc: Global) -> Result<Node<'a>, NoMemory>
        ensures { IfOk result (λ copied. copied ≡ self.now) }
    {
        let inner = match &self.inner {
            Inner::Empty => Inner::Empty,
            Inner::Numpy(lane) => Inner::Numpy(lane.copy()),
            Inner::Regular(size, n, content) => {
                Inner::Regular(*size, *n, content.boxed_copy(alloc)?)
            }
            Inner::List(starts, stops, content) => {
                Inner::List(starts.copy(), stops.copy(), content.boxed_copy(alloc)?)
            }
            Inner::ListOffset(offsets, content) => {
                Inner::ListOffset(offsets.copy(), content.boxed_copy(alloc)?)
            }
            Inner::Row(names, n, contents) => {
                Inner::Row(
                    copy_names(alloc, names.as_ref())?,
                    *n,
                    contents.copy(alloc)?,
                )
            }
            Inner::Indexed(index, content) => {
                Inner::Indexed(index.copy(), content.boxed_copy(alloc)?)
            }
            Inner::IndexedOption(index, content) => {
                Inner::IndexedOption(index.copy(), content.boxed_copy(alloc)?)
            }
            Inner::ByteMasked(mask, valid_when, content) => {
                Inner::ByteMasked(mask.copy(), *valid_when, content.boxed_copy(alloc)?)
            }
            Inner::BitMasked(mask, valid_when, content) => {
                Inner::BitMasked(mask.copy(), *valid_when, content.boxed_copy(alloc)?)
            }
            Inner::Unmasked(n, content) => Inner::Unmasked(*n, content.boxed_copy(alloc)?),
            Inner::Union(tags, index, contents) => {
                Inner::Union(tags.copy(), index.copy(), contents.copy(alloc)?)
            }
        };
        Ok(Node { inner })
    }

    /// A copy in a box of its own.
    #[cycle(copy)]
    fn boxed_copy(&self, alloc: Global) -> Result<Box<Node<'a>>, NoMemory>
        ensures { IfOk result (λ copied. copied.value ≡ self.now) }
    {
        Ok(Box::new(alloc, self.copy(alloc)?)?)
    }
}

impl<'a> Nodes<'a> {
    /// The same nodes over the same bytes. It takes no step.
    #[cycle(copy)]
    pub fn copy(&self, alloc: Global) -> Result<Nodes<'a>, NoMemory>
        ensures { IfOk result (λ copied. copied ≡ self.now) }
    {
        let mut nodes = Vec::new(alloc);
        let mut i = 0;
        while i < self.nodes.len() {
            nodes.push(self.nodes[i].copy(alloc)?)?;
            i += 1;
        }
        Ok(Nodes { nodes })
    }
}
