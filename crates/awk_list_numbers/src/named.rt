//! The numbers that the index of an option names, moved at once.
ghost use Rattle.std.specs.Prelude.{◌≡◌, ◌<◌, ◌^◌, length, IfOk};
ghost use Rattle.awk_lanes.specs.Places.{size_of, IsOptionalIndex};
ghost use Rattle.awk_layout.specs.Layout.{flat};
ghost use Rattle.awk_counts.specs.Counted.{first_of, numbers_at, present_at};

use crate::moved::{Places, list_numbers};
use awk_counts::count_present;
use awk_lanes::{Arena, Lane, Lengths, Steps};
use awk_layout::{Array, Class, Node};
use awk_narrow::OptionIndex;
use awk_types::NoMemory;
use std::alloc::Global;
use std::sync::ledger::Ledger;

/// The places that the index of an option names, each as a list of one place.
#[derive(Drop)]
struct NamedPlaces<'b, P: OptionIndex> {
    index: &'b P,
}

impl<'b, P: OptionIndex> Lengths for NamedPlaces<'b, P> {
    ghost use Rattle.std.specs.Prelude.{length};
    ghost use Rattle.awk_lanes.specs.Places.{size_of};
    ghost use Rattle.awk_counts.specs.Counted.{present_at};

    ghost length = { λ f i. length (present_at (P.lane f.index.now) i) };

    ghost size = { λ f. size_of (P.lane f.index.now) };

    fn length<L: Ledger>(&self, i: u64, _steps: &mut Steps<L>) -> u64 {
        match self.index.place(i) {
            Some(_) => 1,
            None => 0,
        }
    }
}

impl<'b, P: OptionIndex> Places for NamedPlaces<'b, P> {
    ghost use Rattle.awk_lanes.specs.Places.{place_at};

    ghost place = { λ f i k. place_at (P.lane f.index.now) i };

    fn place<L: Ledger>(&self, i: u64, _k: u64, _steps: &mut Steps<L>) -> u64 {
        match self.index.place(i) {
            Some(place) => place,
            None => 0,
        }
    }
}

/// The numbers of a lane that the index of an option names, in its order, of which there are
/// `total`.
pub fn all_named<'a, P: OptionIndex, L: Ledger>(
    alloc: Global,
    index: &P,
    total: u64,
    lane: &Lane,
    arena: &'a Arena,
    steps: &mut Steps<L>,
) -> Result<Array<'a>, NoMemory>
    requires index { IsOptionalIndex (P.lane index.now) (size_of lane.now) }
    requires small { size_of (P.lane index.now) < 2 ^ 63 }
    requires total { let named = P.lane index.now in
        total ≡ length (first_of (present_at named) (size_of named)) }
    ensures { let named = P.lane index.now in
        let places = first_of (present_at named) (size_of named) in
        IfOk result (λ r. r ≡ flat (numbers_at lane.now places)) }
{
    let n = index.size();
    let named = NamedPlaces { index };
    let numbers = list_numbers(lane, n, total, &named, arena, steps)?;
    let array = Array::of_node(alloc, Node::numpy(numbers, steps))?;
    Ok(array)
}

/// The same, counted first.
pub fn named_numbers<'a, P: OptionIndex, L: Ledger>(
    alloc: Global,
    index: &P,
    lane: &Lane,
    arena: &'a Arena,
    steps: &mut Steps<L>,
) -> Result<Array<'a>, NoMemory>
    requires index { IsOptionalIndex (P.lane index.now) (size_of lane.now) }
    requires small { size_of (P.lane index.now) < 2 ^ 63 }
    ensures { let named = P.lane index.now in
        let places = first_of (present_at named) (size_of named) in
        IfOk result (λ r. r ≡ flat (numbers_at lane.now places)) }
{
    let total = count_present(index);
    all_named(alloc, index, total, lane, arena, steps)
}

/// Whether a node is of numbers.
fn is_numpy(node: &Node) -> bool {
    match node.class() {
        Class::Numpy { .. } => true,
        _ => false,
    }
}

/// Whether an array is an option over numbers, behind an index or a mask of bytes. No clause says
/// so: it is asked only to choose the quicker of two ways.
pub fn has_numbers(x: &Array) -> bool {
    match x.node().class() {
        Class::IndexedOption { content, .. } | Class::ByteMasked { content, .. } => {
            is_numpy(content)
        }
        _ => false,
    }
}
