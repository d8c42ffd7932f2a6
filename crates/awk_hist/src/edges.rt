//! Edges as a list.
ghost use Rattle.std.specs.Prelude.{◌≡◌, IfOk};

use awk_types::{NoMemory, Wholes};
use std::alloc::Global;

/// The numbers of edges.
pub(crate) fn edge_list(alloc: Global, edges: &Wholes) -> Result<Vec<i128>, NoMemory>
    ensures { IfOk result (λ v. v.items ≡ edges.now) }
{
    let mut made = Vec::new(alloc);
    for i in 0..edges.len() {
        made.push(*edges.get(i))?;
    }
    Ok(made)
}
