//! Columns of unions, or of one alternative of a union: tags, an index, and the columns of each
//! alternative.
ghost use Rattle.std.specs.Prelude.{◌≡◌, ◌+◌, ◌<◌, ◌≤◌, ◌^◌, pos, false, IfOk, OnOk, length};
ghost use Rattle.awk_types.specs.DataType.{uni, types_from};
ghost use Rattle.awk_types.specs.Simple.{is_union};
ghost use Rattle.awk_types.specs.View.{typs_of};
ghost use Rattle.awk_lanes.specs.Making.{with_item};
ghost use Rattle.awk_lanes.specs.Numbers.{int_of, IsOf};
ghost use Rattle.awk_lanes.specs.Places.{size_of};
ghost use Rattle.awk_lanes.specs.declared.kind.Kind.TheVariants as Kind;
ghost use Rattle.awk_layout.specs.Array.{IsArrayType};
ghost use Rattle.awk_layout.specs.Typing.{array_type};
ghost use Rattle.awk_layout.specs.Valid.{len};
ghost use Rattle.awk_open.specs.Opens.{OpensUnion};
ghost use Rattle.awk_unify.specs.View.{lift_of};
ghost use Rattle.awk_merge_sides.specs.Groups.{groups_of, with_side_at, AreCounted};
ghost use Rattle.awk_merge_rows.specs.UnionLevels.{IsUnionLevel};
ghost use Rattle.awk_merge_sides.specs.Lifts.{alternative_tag};
ghost use Rattle.awk_merge_sides.specs.Sides.{side_of, sides_of, AreSides, IsCounted};
ghost use Rattle.awk_merge_rows.specs.Tagged.{target_in as target_in_groups, with_alternative};
ghost use Rattle.awk_merge_rows.specs.Tagged.{with_alternatives, targets_of, item_tag, item_place};
ghost use Rattle.awk_merge_rows.specs.Tagged.{AreTargeted, IsReady, with_numbers, PutsSide};

use awk_lanes::{Arena, Kind, Lane, LaneMaker, Num, Steps, number, place_in, tag_in};
use awk_layout::{Array, Arrays};
use awk_merge_sides::{Groups, Side, Sides, alternative_lift, alternative_tag};
use awk_open::{Opened, open_array};
use awk_types::{NoMemory, Typs};
use awk_unify::Lift;
use std::alloc::Global;
use std::sync::ledger::Ledger;

/// Of which alternative each item is and where it lies among the items of that, and the columns of
/// each alternative.
#[derive(Drop)]
pub struct UnionLevel<'a> {
    pub tags: Lane<'a>,
    pub index: Lane<'a>,
    pub groups: Groups<'a>,
}

/// The tags and the places that are made.
#[derive(Drop)]
struct Tagged<'a> {
    tags: LaneMaker<'a>,
    index: LaneMaker<'a>,
}

/// Where the items of a column go: to which tag, behind how many.
#[derive(Drop)]
struct Target {
    tag: u64,
    base: u64,
}

/// A tag as a number of a lane.
fn tag_number(tag: u64) -> Num
    requires { tag < 128 }
    ensures number { int_of result ≡ pos tag }
    ensures kind { IsOf Kind.I8 result }
{
    Num::Int(tag as i64)
}

impl<'a> Tagged<'a> {
    /// An item more.
    fn push(&mut self, target: &Target, place: u64)
        requires ready { IsReady 1 self.old }
        requires tag { target.now.tag < 128 }
        requires place { target.now.base + place < 2 ^ 63 }
        ensures tags { self.new.tags ≡ with_item self.old.tags (pos target.now.tag) }
        ensures index { let at = pos (target.now.base + place) in
            self.new.index ≡ with_item self.old.index at }
    {
        self.tags.push(tag_number(target.tag));
        self.index.push(number(target.base + place));
    }
}

/// Where the items of a further column of a group go. Beyond the last group none are put.
fn target_in(groups: &Groups, tag: u64) -> Target
    requires counted { AreCounted groups.now }
    ensures { result ≡ target_in_groups tag (groups_of groups.now) }
{
    if tag < groups.len() as u64 {
        let base = groups.get(tag as usize).total();
        Target { tag, base }
    } else {
        Target { tag: 0, base: 0 }
    }
}

/// Puts a column in the group of its tag, if there is one.
fn put_column<'a>(
    alloc: Global,
    tag: u64,
    column: &Array<'a>,
    lift: &Lift,
    groups: &mut Groups<'a>,
) -> Result<(), NoMemory>
    requires counted { AreCounted groups.old }
    ensures groups { let old = groups_of groups.old in
        OnOk result (groups_of groups.new ≡ with_side_at tag old column.now (lift_of lift.now)) }
    ensures counted { OnOk result (AreCounted groups.new) }
{
    if tag >= groups.len() as u64 {
        return Ok(());
    }
    groups.push(alloc, tag as usize, column.copy(alloc)?, lift)
}

/// The column of an alternative, and where its items go.
fn put_alternative<'a>(
    alloc: Global,
    side: &Side<'a>,
    k: u64,
    column: &Array<'a>,
    groups: &mut Groups<'a>,
) -> Result<Target, NoMemory>
    requires counted { AreCounted groups.old }
    ensures groups { let f = lift_of side.now.lift in
        let made = with_alternative f k column.now (groups_of groups.old) in
        OnOk result (groups_of groups.new ≡ made) }
    ensures counted { OnOk result (AreCounted groups.new) }
    ensures target { let tag = alternative_tag (lift_of side.now.lift) k in
        IfOk result (λ t. t ≡ target_in_groups tag (groups_of groups.old)) }
{
    let tag = alternative_tag(&side.lift, k);
    let target = target_in(groups, tag);
    let lift = alternative_lift(alloc, &side.lift, k)?;
    put_column(alloc, tag, column, &lift, groups)?;
    Ok(target)
}

/// The columns of the alternatives of one column, and where the items of each go.
fn put_alternatives<'a>(
    alloc: Global,
    side: &Side<'a>,
    contents: &Arrays<'a>,
    groups: &mut Groups<'a>,
) -> Result<Vec<Target>, NoMemory>
    requires counted { AreCounted groups.old }
    ensures groups { let f = lift_of side.now.lift in
        let made = with_alternatives f 0 contents.now (groups_of groups.old) in
        OnOk result (groups_of groups.new ≡ made) }
    ensures counted { OnOk result (AreCounted groups.new) }
    ensures targets { let f = lift_of side.now.lift in
        let targets = targets_of f 0 contents.now (groups_of groups.old) in
        IfOk result (λ v. v.items ≡ targets) }
{
    let mut targets = Vec::new(alloc);
    for k in 0..contents.len() {
        targets.push(put_alternative(alloc, side, k as u64, contents.get(k), groups)?)?;
    }
    Ok(targets)
}

/// The items of one column.
fn put_items<L: Ledger>(
    tags: &Lane,
    index: &Lane,
    targets: &[Target],
    made: &mut Tagged,
    steps: &mut Steps<L>,
)
    requires targeted { AreTargeted tags.now index.now targets.now }
    requires ready { IsReady (size_of tags.now) made.old }
    ensures tags { let f = item_tag tags.now targets.now in
        made.new.tags ≡ with_numbers made.old.tags (size_of tags.now) f }
    ensures index { let f = item_place tags.now index.now targets.now in
        made.new.index ≡ with_numbers made.old.index (size_of tags.now) f }
{
    for i in 0..tags.len() {
        let k = tag_in(tags, i, steps);
        made.push(&targets[k as usize], place_in(index, i, steps));
    }
}

/// So many items of one target, in order.
fn put_run(target: &Target, n: u64, made: &mut Tagged)
    requires tag { target.now.tag < 128 }
    requires fits { target.now.base + n ≤ 2 ^ 63 }
    requires ready { IsReady n made.old }
    ensures tags { made.new.tags ≡ with_numbers made.old.tags n (λ i. target.now.tag) }
    ensures index { made.new.index ≡ with_numbers made.old.index n (λ i. target.now.base + i) }
{
    for i in 0..n {
        made.push(target, i);
    }
}

/// The items of a column that is no union. They are of one alternative.
fn put_whole<'a>(
    alloc: Global,
    side: &Side<'a>,
    groups: &mut Groups<'a>,
    made: &mut Tagged<'a>,
) -> Result<(), NoMemory>
    requires single { is_union (array_type side.now.column) ≡ false }
    requires few { length (groups_of groups.old) ≤ 127 }
    requires counted { AreCounted groups.old }
    requires ready { IsReady (len side.now.column) made.old }
    ensures { let puts = PutsSide (side_of side.now) in
        OnOk result (puts groups.old made.old groups.new made.new) }
{
    let target = put_alternative(alloc, side, 0, &side.column, groups)?;
    put_run(&target, side.column.len(), made);
    Ok(())
}

/// The items of a column that is a union, opened.
fn put_union<'a, L: Ledger>(
    alloc: Global,
    side: &Side<'a>,
    tags: &Lane,
    index: &Lane,
    contents: &Arrays<'a>,
    groups: &mut Groups<'a>,
    made: &mut Tagged<'a>,
    steps: &mut Steps<L>,
) -> Result<(), NoMemory>
    requires opens { OpensUnion tags.now index.now contents.now side.now.column }
    requires few { length (groups_of groups.old) ≤ 127 }
    requires counted { AreCounted groups.old }
    requires ready { IsReady (len side.now.column) made.old }
    ensures { let puts = PutsSide (side_of side.now) in
        OnOk result (puts groups.old made.old groups.new made.new) }
{
    let _ = side.column.len();
    let targets = put_alternatives(alloc, side, contents, groups)?;
    put_items(tags, index, &targets, made, steps);
    Ok(())
}

/// One column more.
fn put_side<'a, L: Ledger>(
    alloc: Global,
    side: &Side<'a>,
    groups: &mut Groups<'a>,
    made: &mut Tagged<'a>,
    arena: &'a Arena,
    steps: &mut Steps<L>,
) -> Result<(), NoMemory>
    requires few { length (groups_of groups.old) ≤ 127 }
    requires counted { AreCounted groups.old }
    requires ready { IsReady (len side.now.column) made.old }
    ensures { let puts = PutsSide (side_of side.now) in
        OnOk result (puts groups.old made.old groups.new made.new) }
{
    match open_array(alloc, &side.column, arena, steps)? {
        Opened::Union {
            tags,
            index,
            contents,
        } => put_union(alloc, side, &tags, &index, &contents, groups, made, steps),
        _ => put_whole(alloc, side, groups, made),
    }
}

/// The items of all columns as those of a union of these alternatives.
pub fn union_level<'a, L: Ledger>(
    alloc: Global,
    alternatives: &Typs,
    sides: &Sides<'a>,
    arena: &'a Arena,
    steps: &mut Steps<L>,
) -> Result<UnionLevel<'a>, NoMemory>
    requires lawful { IsArrayType (uni (types_from (typs_of alternatives.now))) }
    requires sides { AreSides (uni (types_from (typs_of alternatives.now))) (sides_of sides.now) }
    requires counted { IsCounted sides.now }
    ensures { IfOk result (IsUnionLevel (typs_of alternatives.now) (sides_of sides.now)) }
{
    let mut groups = Groups::new(alloc, alternatives.len())?;
    let mut made = Tagged {
        tags: LaneMaker::new(Kind::I8, sides.total(), arena)?,
        index: LaneMaker::new(Kind::I64, sides.total(), arena)?,
    };
    for i in 0..sides.len() {
        put_side(alloc, sides.get(i), &mut groups, &mut made, arena, steps)?;
    }
    let Tagged { tags, index } = made;
    Ok(UnionLevel {
        tags: tags.finish(),
        index: index.finish(),
        groups,
    })
}
