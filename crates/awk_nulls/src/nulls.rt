//! Whether items are null.
ghost use Rattle.std.specs.Prelude.{◌≡◌, true, false, IfOk};
ghost use Rattle.awk_types.specs.Faults.{fault_told};
ghost use Rattle.awk_types.specs.Gives.{Gives};
ghost use Rattle.awk_types.specs.Simple.{is_option};
ghost use Rattle.awk_lanes.specs.Numbers.{int_of, IsOf};
ghost use Rattle.awk_lanes.specs.Places.{IsOptionKind};
ghost use Rattle.awk_lanes.specs.declared.kind.Kind.TheVariants as Kinds;
ghost use Rattle.awk_layout.specs.Datum.{datum_of, IsDatum};
ghost use Rattle.awk_layout.specs.Typing.{array_type};
ghost use Rattle.awk_list_functions.specs.Made.{IsMade, IsSized};
ghost use Rattle.awk_nulls.specs.IsNone.{is_none_function, is_none_of};
ghost use Rattle.awk_nulls.specs.Lanes.{null_number, nulls_lane, falses_lane, AreNulls};

use crate::presence::has_options;
use awk_axis::lift_at;
use awk_columns::{Joined, Lists};
use awk_index::index_of;
use awk_lanes::{Arena, Kind, Lane, Num, Numbers, Steps, made_lane, offsets_within};
use awk_layout::{Array, Datum, Node};
use awk_list_ends::are_few;
use awk_list_functions::{ListOp, Made, Refusal, Spoil};
use awk_narrow::{OptionIndex, narrow_index};
use awk_open::{Opened, opened};
use awk_types::{Fault, ITEM_LIMIT, NoMemory, Prim, Typ, is_optional};
use std::alloc::Global;
use std::sync::ledger::Ledger;

/// A truth value of a lane: whether there is no place.
fn null_number(place: Option<u64>) -> Num
    ensures number { int_of result ≡ null_number place }
    ensures kind { IsOf Kinds.Bool result }
{
    match place {
        None => Num::Truth(true),
        Some(_) => Num::Truth(false),
    }
}

/// Whether each item of an option is null.
#[derive(Drop)]
struct NullNumbers<'b, I: OptionIndex> {
    index: &'b I,
}

impl<'b, I: OptionIndex> Numbers for NullNumbers<'b, I> {
    ghost use Rattle.awk_lanes.specs.Places.{size_of, option_place_at};
    ghost use Rattle.awk_lanes.specs.declared.kind.Kind.TheVariants as Kinds;
    ghost use Rattle.awk_nulls.specs.Lanes.{null_number};

    ghost kind = { λ _. Kinds.Bool };

    ghost at = { λ f i. null_number (option_place_at (I.lane f.index.now) i) };

    ghost size = { λ f. size_of (I.lane f.index.now) };

    fn number<L: Ledger>(&self, i: u64, _steps: &mut Steps<L>) -> Num {
        null_number(self.index.place(i))
    }
}

/// The same as a lane, by an index whose numbers are seen at once.
fn nulls_by<'a, I: OptionIndex, L: Ledger>(
    index: &I,
    arena: &'a Arena,
    steps: &mut Steps<L>,
) -> Result<Lane<'a>, NoMemory>
    ensures { IfOk result (λ r. r ≡ nulls_lane (I.lane index.now)) }
{
    made_lane(
        Kind::Bool,
        index.size(),
        &NullNumbers { index },
        arena,
        steps,
    )
}

/// The same by a lane of an index. One of 32 bits is read where it lies.
fn nulls<'a, L: Ledger>(
    alloc: Global,
    index: &Lane<'a>,
    arena: &'a Arena,
    steps: &mut Steps<L>,
) -> Result<Lane<'a>, NoMemory>
    requires kind { IsOptionKind index.now.kind }
    ensures { IfOk result (λ r. r ≡ nulls_lane index.now) }
{
    if index.kind() == Kind::I32 {
        let index = narrow_index(index, steps);
        return nulls_by(&index, arena, steps);
    }
    let index = index_of(alloc, index, arena, steps)?;
    nulls_by(&index, arena, steps)
}

/// False at each place.
#[derive(Drop)]
struct NoNulls {
    n: u64,
}

impl Numbers for NoNulls {
    ghost use Rattle.std.specs.Prelude.{pos};
    ghost use Rattle.awk_lanes.specs.declared.kind.Kind.TheVariants as Kinds;

    ghost kind = { λ _. Kinds.Bool };

    ghost at = { λ _ i. pos 0 };

    ghost size = { λ f. f.n };

    fn number<L: Ledger>(&self, _i: u64, _steps: &mut Steps<L>) -> Num {
        Num::Truth(false)
    }
}

/// False, n times.
fn falses<'a, L: Ledger>(
    n: u64,
    arena: &'a Arena,
    steps: &mut Steps<L>,
) -> Result<Lane<'a>, NoMemory>
    ensures { IfOk result (λ r. r ≡ falses_lane n) }
{
    made_lane(Kind::Bool, n, &NoNulls { n }, arena, steps)
}

/// Whether each item of an array is null.
fn nulls_of<'a, L: Ledger>(
    alloc: Global,
    x: &Array<'a>,
    arena: &'a Arena,
    steps: &mut Steps<L>,
) -> Result<Lane<'a>, NoMemory>
    ensures { IfOk result (AreNulls x.now) }
{
    let n = x.len();
    if !is_optional(x.typ()) {
        return falses(n, arena, steps);
    }
    match opened(alloc, x, arena, steps)? {
        Opened::Option {
            index,
            content: _content,
        } => nulls(alloc, &index, arena, steps),
        _ => unreachable!(),
    }
}

/// False for each item of lists whose items are of a type that is no option. They are counted, and
/// none is looked at.
fn none_null<'a, L: Ledger>(
    lists: &Lists<'a>,
    arena: &'a Arena,
    steps: &mut Steps<L>,
) -> Result<Made<'a>, NoMemory>
    requires plain { is_option (array_type lists.now.content) ≡ false }
    ensures { IfOk result (IsMade is_none_function lists.now.class lists.now.starts
        lists.now.stops lists.now.content) }
{
    let n = lists.len();
    let _ = lists.content();
    match offsets_within(ITEM_LIMIT, n, lists, arena, steps)? {
        None => Ok(Made::Spoiled(Spoil::Size)),
        Some(offsets) => {
            let nulls = falses(offsets.total, arena, steps)?;
            Ok(Made::Lists {
                offsets: offsets.lane,
                content: Node::numpy(nulls, steps),
            })
        }
    }
}

/// Whether lists are of a sized class.
fn are_sized(lists: &Lists) -> bool
    ensures { result ≡ true → IsSized lists.now.class }
{
    match lists.class() {
        None => false,
        Some(_) => true,
    }
}

/// Whether each item of lists of one size is null: no lane tells where these begin.
fn even_nulls<'a, L: Ledger>(
    alloc: Global,
    lists: &Lists<'a>,
    arena: &'a Arena,
    steps: &mut Steps<L>,
) -> Result<Made<'a>, NoMemory>
    requires sized { IsSized lists.now.class }
    ensures { IfOk result (IsMade is_none_function lists.now.class lists.now.starts
        lists.now.stops lists.now.content) }
{
    let _ = lists.content();
    let few = are_few(alloc, lists, arena, steps)?;
    if few {
        let items = lists.items(alloc, arena, steps)?;
        let _ = items.len();
        let nulls = nulls_of(alloc, &items, arena, steps)?;
        return Ok(Made::Even(Node::numpy(nulls, steps)));
    }
    Ok(Made::Spoiled(Spoil::Size))
}

/// Whether the items of a list are null.
#[derive(Clone, Copy, Debug, PartialEq, Eq)]
struct NullTests;

impl ListOp for NullTests {
    ghost function = { λ f. is_none_function };

    fn refusal(&self, _item: &Typ) -> Option<Refusal> {
        None
    }

    fn typ(&self, _alloc: Global, _item: &Typ) -> Result<Typ, NoMemory> {
        Ok(Typ::Leaf(Prim::Bool))
    }

    fn gives_lists(&self) -> bool {
        true
    }

    fn class(&self, class: Option<u64>) -> Option<u64> {
        class
    }

    fn tells_index(&self) -> bool {
        false
    }

    fn counts_given(&self) -> bool {
        true
    }

    fn column<'a, L: Ledger>(
        &self,
        alloc: Global,
        lists: &Lists<'a>,
        arena: &'a Arena,
        steps: &mut Steps<L>,
    ) -> Result<Made<'a>, NoMemory> {
        let _ = lists.content();
        if !has_options(lists) {
            return none_null(lists, arena, steps);
        }
        if are_sized(lists) {
            return even_nulls(alloc, lists, arena, steps);
        }
        match lists.joined(alloc, arena, steps)? {
            Joined::TooMany => Ok(Made::Spoiled(Spoil::Size)),
            Joined::Lists { offsets, content } => {
                let _ = content.len();
                let nulls = nulls_of(alloc, &content, arena, steps)?;
                Ok(Made::Lists {
                    offsets,
                    content: Node::numpy(nulls, steps),
                })
            }
        }
    }
}

/// Whether each item of each list at an axis is null. Lists keep their class.
pub fn is_none<'a, L: Ledger>(
    alloc: Global,
    x: &Datum<'a>,
    axis: i64,
    arena: &'a Arena,
    steps: &mut Steps<L>,
) -> Result<Datum<'a>, Fault>
    requires datum { IsDatum x.now }
    ensures answer { Gives datum_of fault_told result (is_none_of axis (datum_of x.now)) }
    ensures datum { IfOk result (λ made. IsDatum made) }
{
    lift_at(alloc, &NullTests, x, axis, arena, steps)
}
