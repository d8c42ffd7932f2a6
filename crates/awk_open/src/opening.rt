//! The outermost kind of an array.
ghost use Rattle.std.specs.Prelude.{◌≡◌, ◌+◌, ◌*◌, ◌-◌, ◌<◌, ◌≤◌, ◌^◌, None, IfOk, option_map};
ghost use Rattle.std.specs.Prelude.{false};
ghost use Rattle.awk_types.specs.Limit.{limit};
ghost use Rattle.awk_types.specs.Simple.{is_union, present};
ghost use Rattle.awk_lanes.specs.Places.{size_of, IsIndex};
ghost use Rattle.awk_lanes.specs.declared.kind.Kind.TheVariants as Kind;
ghost use Rattle.awk_layout.specs.Layout.{layouts_from, flat, lists, offset_lists};
ghost use Rattle.awk_layout.specs.Layout.{regular as regular_lists, rows};
ghost use Rattle.awk_layout.specs.Typing.{array_type};
ghost use Rattle.awk_layout.specs.Valid.{len, IsValid};
ghost use Rattle.awk_gather_lanes.specs.Lanes.{picked, multiples, AreBlocks};
ghost use Rattle.awk_open.specs.Opened.{IsOpened, IsOpenedAt, ArePicked, AreAllPlaces, AreWithin};
ghost use Rattle.awk_spread.specs.Plain.{IsPlain};

use crate::whole_index::peel_whole;
use awk_columns::Lists;
use awk_gather::{Peeled, gather_node};
use awk_gather_lanes::{gather_lane, next_lane};
use awk_index::{Index, wide_index};
use awk_lanes::{Arena, Kind, Lane, Num, Numbers, Steps, made_lane, number, to_place};
use awk_layout::{Array, Arrays, Class, Node, Nodes};
use awk_types::{Names, NoMemory, copy_names, is_optional};
use std::alloc::Global;
use std::sync::ledger::Ledger;

/// The outermost kind of an array, with the array's lanes and the arrays of its parts.
#[derive(Drop)]
pub enum Opened<'a> {
    /// No items.
    Empty,
    /// Numbers or truth values.
    Leaf(Lane<'a>),
    /// Lists of one class.
    Items(Lists<'a>),
    /// The rows of the columns' items. A tuple has no names.
    Row {
        names: Option<Names>,
        columns: Arrays<'a>,
    },
    /// Null where the index is negative, else the content's item there.
    Option {
        index: Lane<'a>,
        content: Array<'a>,
    },
    /// The item at the index of the content that the tag names.
    Union {
        tags: Lane<'a>,
        index: Lane<'a>,
        contents: Arrays<'a>,
    },
}

/// So many places past the multiples of places.
#[derive(Drop)]
struct Multiples<'a> {
    size: u64,
    distance: u64,
    places: Index<'a>,
}

impl<'a> Numbers for Multiples<'a> {
    ghost use Rattle.std.specs.Prelude.{◌+◌, ◌*◌, ◌-◌, ◌≤◌, ◌^◌, pos};
    ghost use Rattle.awk_lanes.specs.Places.{size_of, place_at};
    ghost use Rattle.awk_lanes.specs.declared.kind.Kind.TheVariants as Kind;
    ghost use Rattle.awk_gather_lanes.specs.Lanes.{AreBlocks};

    ghost kind = { λ _. Kind.I64 };

    ghost at = { λ m i. pos (place_at m.places i * m.size + m.distance) };

    ghost size = { λ m. size_of m.places };

    ghost IsReady = { λ m. (m.distance ≤ m.size) × AreBlocks (2 ^ 63 - 1) m.size m.places };

    fn number<L: Ledger>(&self, i: u64, _steps: &mut Steps<L>) -> Num {
        let place = to_place(self.places.number(i));
        number(multiple(place, self.size, self.distance))
    }
}

/// The lane of them.
fn multiple_lane<'a, L: Ledger>(
    size: u64,
    distance: u64,
    places: &Lane<'a>,
    arena: &'a Arena,
    steps: &mut Steps<L>,
) -> Result<Lane<'a>, NoMemory>
    requires kind { places.now.kind ≡ Kind.I64 }
    requires distance { distance ≤ size }
    requires blocks { AreBlocks (2 ^ 63 - 1) size places.now }
    ensures lane { IfOk result (λ r. r ≡ multiples size distance places.now) }
{
    let n = places.len();
    let places = wide_index(places, arena, steps)?;
    let source = Multiples {
        size,
        distance,
        places,
    };
    made_lane(Kind::I64, n, &source, arena, steps)
}

fn multiple(place: u64, size: u64, distance: u64) -> u64
    requires distance { distance ≤ size }
    requires fits { place * size + size < 2 ^ 63 }
    ensures { result ≡ place * size + distance }
{
    place * size + distance
}

fn open_leaf<'a, L: Ledger>(
    lane: &Lane<'a>,
    places: &Lane<'a>,
    arena: &'a Arena,
    steps: &mut Steps<L>,
) -> Result<Opened<'a>, NoMemory>
    requires small { size_of places.now < 2 ^ 63 }
    requires places { IsIndex places.now (size_of lane.now) }
    ensures opened { IfOk result (IsOpenedAt (flat lane.now) places.now) }
{
    let lane = gather_lane(lane, places, arena, steps)?;
    Ok(Opened::Leaf(lane))
}

fn open_lists<'a, L: Ledger>(
    alloc: Global,
    starts: &Lane<'a>,
    stops: &Lane<'a>,
    content: &Node<'a>,
    places: &Lane<'a>,
    arena: &'a Arena,
    steps: &mut Steps<L>,
) -> Result<Opened<'a>, NoMemory>
    requires valid { IsValid (lists starts.now stops.now content.now) }
    requires limit { limit (array_type content.now) ≡ None }
    requires small { size_of places.now < 2 ^ 63 }
    requires places { IsIndex places.now (size_of starts.now) }
    ensures opened { IfOk result (IsOpenedAt (lists starts.now stops.now content.now) places.now) }
{
    let content = Array::of_node(alloc, content.copy(alloc)?)?;
    let starts = gather_lane(starts, places, arena, steps)?;
    let stops = gather_lane(stops, places, arena, steps)?;
    Ok(Opened::Items(Lists::new(None, starts, stops, content)))
}

fn open_offsets<'a, L: Ledger>(
    alloc: Global,
    offsets: &Lane<'a>,
    content: &Node<'a>,
    places: &Lane<'a>,
    arena: &'a Arena,
    steps: &mut Steps<L>,
) -> Result<Opened<'a>, NoMemory>
    requires valid { IsValid (offset_lists offsets.now content.now) }
    requires limit { limit (array_type content.now) ≡ None }
    requires small { size_of places.now < 2 ^ 63 }
    requires places { IsIndex places.now (size_of offsets.now - 1) }
    ensures opened { IfOk result (IsOpenedAt (offset_lists offsets.now content.now) places.now) }
{
    let content = Array::of_node(alloc, content.copy(alloc)?)?;
    let starts = gather_before(offsets, places, arena, steps)?;
    let stops = next_lane(offsets, places, arena, steps)?;
    Ok(Opened::Items(Lists::new(None, starts, stops, content)))
}

fn open_regular<'a, L: Ledger>(
    alloc: Global,
    size: u64,
    n: u64,
    content: &Node<'a>,
    places: &Lane<'a>,
    arena: &'a Arena,
    steps: &mut Steps<L>,
) -> Result<Opened<'a>, NoMemory>
    requires valid { IsValid (regular_lists size n content.now) }
    requires limit { limit (array_type content.now) ≡ None }
    requires kind { places.now.kind ≡ Kind.I64 }
    requires small { size_of places.now < 2 ^ 63 }
    requires places { IsIndex places.now n }
    ensures opened { IfOk result (IsOpenedAt (regular_lists size n content.now) places.now) }
{
    let content = Array::of_node(alloc, content.copy(alloc)?)?;
    let starts = multiple_lane(size, 0, places, arena, steps)?;
    let stops = multiple_lane(size, size, places, arena, steps)?;
    Ok(Opened::Items(Lists::new(Some(size), starts, stops, content)))
}

/// The numbers of a lane of offsets at places.
#[tactic(auto, using(awk_gather_lanes::proofs::PickedLanes::places_le))]
fn gather_before<'a, L: Ledger>(
    offsets: &Lane<'a>,
    places: &Lane<'a>,
    arena: &'a Arena,
    steps: &mut Steps<L>,
) -> Result<Lane<'a>, NoMemory>
    requires places { IsIndex places.now (size_of offsets.now - 1) }
    ensures lane { IfOk result (λ r. r ≡ picked offsets.now places.now) }
{
    gather_lane(offsets, places, arena, steps)
}

/// The items of each of these nodes at places.
fn gather_all<'a, L: Ledger>(
    alloc: Global,
    xs: &Nodes<'a>,
    places: &Lane<'a>,
    arena: &'a Arena,
    steps: &mut Steps<L>,
) -> Result<Arrays<'a>, NoMemory>
    requires kind { places.now.kind ≡ Kind.I64 }
    requires places { AreAllPlaces places.now xs.now }
    requires limits { AreWithin xs.now }
    ensures columns { IfOk result (ArePicked xs.now places.now) }
{
    let mut columns = Arrays::new(alloc);
    let mut i = 0;
    while i < xs.len() {
        let part = gather_node(alloc, xs.get(i), places, arena, steps)?;
        let column = Array::of_node(alloc, part)?;
        let _ = column.len();
        columns.push(column)?;
        i += 1;
    }
    Ok(columns)
}

fn open_rows<'a, L: Ledger>(
    alloc: Global,
    names: Option<&Names>,
    n: u64,
    contents: &Nodes<'a>,
    places: &Lane<'a>,
    arena: &'a Arena,
    steps: &mut Steps<L>,
) -> Result<Opened<'a>, NoMemory>
    requires valid { IsValid (rows (option_map (λ m. m.now) names) n (layouts_from contents.now)) }
    requires limits { AreWithin contents.now }
    requires kind { places.now.kind ≡ Kind.I64 }
    requires small { size_of places.now < 2 ^ 63 }
    requires places { IsIndex places.now n }
    ensures opened { let fields = option_map (λ m. m.now) names.entry in
        IfOk result (IsOpenedAt (rows fields n (layouts_from contents.now)) places.now) }
{
    let names = copy_names(alloc, names)?;
    let columns = gather_all(alloc, contents, places, arena, steps)?;
    Ok(Opened::Row { names, columns })
}

/// The items at places of a node that is neither an option nor an index nor a union.
#[tactic(auto, using(crate::proofs::OpenedArrays::plain))]
fn open_plain<'a, L: Ledger>(
    alloc: Global,
    x: &Node<'a>,
    places: &Lane<'a>,
    arena: &'a Arena,
    steps: &mut Steps<L>,
) -> Result<Opened<'a>, NoMemory>
    requires plain { IsPlain x.now }
    requires limit { limit (array_type x.now) ≡ None }
    requires kind { places.now.kind ≡ Kind.I64 }
    requires small { size_of places.now < 2 ^ 63 }
    requires places { IsIndex places.now (len x.now) }
    ensures opened { IfOk result (IsOpenedAt x.now places.now) }
{
    match x.class() {
        Class::Empty => Ok(Opened::Empty),
        Class::Numpy { lane } => open_leaf(lane, places, arena, steps),
        Class::List {
            starts,
            stops,
            content,
        } => open_lists(alloc, starts, stops, content, places, arena, steps),
        Class::ListOffset { offsets, content } => {
            open_offsets(alloc, offsets, content, places, arena, steps)
        }
        Class::Regular { size, content } => {
            open_regular(alloc, size, x.len(), content, places, arena, steps)
        }
        Class::Row { names, contents } => {
            open_rows(alloc, names, x.len(), contents, places, arena, steps)
        }
        _ => unreachable!(),
    }
}

/// The outermost kind of an array whose type is no union and no option of one.
pub fn open_peeled<'a, L: Ledger>(
    alloc: Global,
    x: &Array<'a>,
    arena: &'a Arena,
    steps: &mut Steps<L>,
) -> Result<Opened<'a>, NoMemory>
    requires { is_union (present (array_type x.now)) ≡ false }
    ensures opened { IfOk result (IsOpened x.now) }
{
    let _ = x.len();
    let Peeled { index, content } = peel_whole(alloc, x.node(), arena, steps)?;
    if is_optional(x.typ()) {
        let _ = content.len();
        let content = Array::of_node(alloc, content)?;
        Ok(Opened::Option { index, content })
    } else {
        open_plain(alloc, &content, &index, arena, steps)
    }
}
