//! Histograms as rows.
ghost use Rattle.std.specs.Prelude.{◌≡◌, ◌*◌, ◌<◌, ◌^◌, ◌++◌, ◌∷◌, [], true, IfOk, OnOk};
ghost use Rattle.awk_lanes.specs.Counted.{offsets_by};
ghost use Rattle.awk_lanes.specs.Places.{size_of};
ghost use Rattle.awk_layout.specs.Layout.{flat, offset_lists};
ghost use Rattle.awk_layout.specs.Typing.{array_items};
ghost use Rattle.awk_list_functions.specs.Made.{IsColumn};
ghost use Rattle.awk_present.specs.Present.{list_at};
ghost use Rattle.awk_bins.specs.Bins.{intervals};
ghost use Rattle.awk_bins.specs.Edges.{are_edges};
ghost use Rattle.awk_hist.specs.Bins as spec;
ghost use Rattle.awk_hist.specs.Lists.{AreItems};
ghost use Rattle.awk_hist.specs.Rows.{bins_fields, bins_layout, AreOfSizes};

use crate::lists::ItemLists;
use crate::nulls::null_lane;
use crate::types::bin_names;
use awk_bins::{Binned, bins_of};
use awk_lanes::{Arena, Lane, Lengths, Steps, offsets_of};
use awk_layout::{Node, Nodes};
use awk_present::present_of;
use awk_types::NoMemory;
use std::alloc::Global;
use std::sync::ledger::Ledger;

/// Lists of one length.
#[derive(Drop)]
struct Even {
    length: u64,
    count: u64,
}

impl Lengths for Even {
    ghost length = { λ f i. f.length };

    ghost size = { λ f. f.count };

    fn length<L: Ledger>(&self, _i: u64, _steps: &mut Steps<L>) -> u64 {
        self.length
    }
}

/// As many counts for each of n lists, as lists.
fn counts_node<'a, L: Ledger>(
    alloc: Global,
    counts: &Lane<'a>,
    n: u64,
    length: u64,
    arena: &'a Arena,
    steps: &mut Steps<L>,
) -> Result<Node<'a>, NoMemory>
    requires size { size_of counts.now ≡ n * length }
    requires few { n * length < 2 ^ 63 }
    requires fits { n < 2 ^ 63 }
    ensures { IfOk result (λ y.
        y ≡ offset_lists (offsets_by (λ i. length) n) (flat counts.now)) }
{
    let even = Even { length, count: n };
    let offsets = offsets_of(n, &even, arena, steps)?.lane;
    let content = Box::new(alloc, Node::numpy(counts.copy(), steps))?;
    Ok(Node::list_offset(offsets, content, steps))
}

/// Puts the fields of histograms behind others.
fn push_fields<'a, L: Ledger>(
    nodes: &mut Nodes<'a>,
    counts: Node<'a>,
    binned: &Binned<'a>,
    nulls: &Lane<'a>,
    steps: &mut Steps<L>,
) -> Result<(), NoMemory>
    requires under { size_of binned.now.under < 2 ^ 63 }
    requires over { size_of binned.now.over < 2 ^ 63 }
    requires nulls { size_of nulls.now < 2 ^ 63 }
    ensures { OnOk result (nodes.new ≡ nodes.old ++ counts.entry ∷ flat binned.now.under
        ∷ flat binned.now.over ∷ flat nulls.now ∷ []) }
{
    nodes.push(counts)?;
    nodes.push(Node::numpy(binned.under.copy(), steps))?;
    nodes.push(Node::numpy(binned.over.copy(), steps))?;
    nodes.push(Node::numpy(nulls.copy(), steps))?;
    Ok(())
}

/// The fields of n histograms.
fn field_nodes<'a, L: Ledger>(
    alloc: Global,
    binned: &Binned<'a>,
    nulls: &Lane<'a>,
    n: u64,
    length: u64,
    arena: &'a Arena,
    steps: &mut Steps<L>,
) -> Result<Nodes<'a>, NoMemory>
    requires sizes { AreOfSizes binned.now nulls.now n length }
    ensures { IfOk result (λ ys. ys ≡ bins_fields n length binned.now nulls.now) }
{
    let counts = counts_node(alloc, &binned.counts, n, length, arena, steps)?;
    let mut nodes = Nodes::new(alloc);
    push_fields(&mut nodes, counts, binned, nulls, steps)?;
    Ok(nodes)
}

/// The rows of n histograms.
fn row_node<'a, L: Ledger>(
    alloc: Global,
    binned: &Binned<'a>,
    nulls: &Lane<'a>,
    n: u64,
    length: u64,
    arena: &'a Arena,
    steps: &mut Steps<L>,
) -> Result<Node<'a>, NoMemory>
    requires sizes { AreOfSizes binned.now nulls.now n length }
    ensures { IfOk result (λ y. y ≡ bins_layout n length binned.now nulls.now) }
{
    let names = bin_names(alloc)?;
    let nodes = field_nodes(alloc, binned, nulls, n, length, arena, steps)?;
    Ok(Node::row(Some(names), n, nodes, steps))
}

/// The histograms of lists whose items lie one after another, each with more nulls.
pub(crate) fn bins_node<'a, L: Ledger>(
    alloc: Global,
    x: &ItemLists<'_, 'a>,
    more: u64,
    edges: &[i128],
    arena: &'a Arena,
    steps: &mut Steps<L>,
) -> Result<Node<'a>, NoMemory>
    requires items { AreItems x.now.items.now x.now.offsets.now x.now.count }
    requires edges { are_edges edges.now ≡ true }
    requires few { x.now.count * intervals edges.now < 2 ^ 63 }
    requires nulls { more < 2 ^ 40 }
    ensures { let lists = list_at (array_items x.now.items.now) x.now.offsets.now in
        IfOk result (IsColumn spec.bins_type (λ i. spec.bins_and more edges.now (lists i))
        x.now.count) }
{
    let present = present_of(alloc, x.items, x.offsets, x.count, arena, steps)?;
    let nulls = null_lane(x.offsets, &present.offsets, more, x.count, arena, steps)?;
    let binned = bins_of(
        alloc,
        &present.lane,
        &present.offsets,
        x.count,
        edges,
        arena,
        steps,
    )?;
    let length = edges.len() as u64 - 1;
    let node = row_node(alloc, &binned, &nulls, x.count, length, arena, steps)?;
    let _ = node.len();
    Ok(node)
}
