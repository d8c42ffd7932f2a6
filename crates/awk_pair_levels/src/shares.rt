//! What operands give to a level of lists.
ghost use Rattle.std.specs.Prelude.{◌≡◌, ◌&&◌, [], map, true, false, Some, IfOk};
ghost use Rattle.awk_types.specs.Predicates.{is_list_or_unknown};
ghost use Rattle.awk_types.specs.View.{typ_of};
ghost use Rattle.awk_lanes.specs.Places.{size_of};
ghost use Rattle.awk_lanes.specs.declared.kind.Kind.TheVariants as Kind;
ghost use Rattle.awk_layout.specs.Typing.{array_type};
ghost use Rattle.awk_layout.specs.Valid.{len};
ghost use Rattle.awk_open.specs.Opened.{AreLong};
ghost use Rattle.awk_pair_sides.specs.Levels as spec;
ghost use Rattle.awk_pair_sides.specs.Levels.{listed, stretched, role, unless, kept_at};
ghost use Rattle.awk_pair_levels.specs.Shares.{AreListsOf, AreItemsOf, IsShare, AreShares};
ghost use Rattle.awk_pair_levels.specs.Shares.{IsNext, HasOnes};
ghost use Rattle.awk_pair_levels.specs.declared.shares.Share.TheVariants as share;

use awk_columns::Lists;
use awk_lanes::{Arena, Kind, Lane, LaneMaker, NoMemory, Steps};
use awk_layout::{Array, Arrays};
use awk_list_rows::items_in;
use awk_open::{Opened, open_array};
use awk_pair_sides::{is_single, stretches};
use awk_types::{Typ, is_list_or_unknown};
use std::alloc::Global;
use std::sync::ledger::Ledger;

/// What an operand gives to all rows of a level.
#[derive(Drop)]
pub enum Share<'a> {
    /// Its lists, whose items are paired.
    Lists(Lists<'a>),
    /// One item a row, which stands at every place.
    Items(Array<'a>),
}

/// No numbers.
pub(crate) fn no_places<'a>(arena: &'a Arena) -> Result<Lane<'a>, NoMemory>
    ensures { IfOk result (λ r. r ≡ record { kind = Kind.I64; items = [] }) }
{
    let maker = LaneMaker::new(Kind::I64, 0, arena)?;
    Ok(maker.finish())
}

/// The lists of a column of lists, or none where it is of unknown.
fn lists_of<'a, L: Ledger>(
    alloc: Global,
    x: &Array<'a>,
    arena: &'a Arena,
    steps: &mut Steps<L>,
) -> Result<Lists<'a>, NoMemory>
    requires { is_list_or_unknown (array_type x.now) ≡ true }
    ensures lists { IfOk result (AreListsOf (len x.now) x.now) }
    ensures class { IfOk result (λ l. role false (array_type x.now) ≡ listed l.class) }
{
    match open_array(alloc, x, arena, steps)? {
        Opened::Items(lists) => Ok(lists),
        Opened::Empty => {
            let starts = no_places(arena)?;
            let stops = no_places(arena)?;
            Ok(Lists::new(None, starts, stops, x.copy(alloc)?))
        }
        _ => unreachable!(),
    }
}

/// The items of lists that have one each.
fn one_each<'a, L: Ledger>(
    alloc: Global,
    lists: &Lists<'a>,
    arena: &'a Arena,
    steps: &mut Steps<L>,
) -> Result<Array<'a>, NoMemory>
    requires { lists.now.class ≡ Some 1 }
    ensures ones { IfOk result (λ _. HasOnes lists.now) }
    ensures items { let l = lists.now in
        IfOk result (IsNext (λ _. 1) (size_of l.starts) (share.Lists l)) }
{
    let _ = lists.content();
    let items = items_in(alloc, lists.len(), lists, arena, steps)?;
    Ok(items)
}

/// The items of a column of lists of size 1.
fn single_items<'a, L: Ledger>(
    alloc: Global,
    x: &Array<'a>,
    arena: &'a Arena,
    steps: &mut Steps<L>,
) -> Result<Array<'a>, NoMemory>
    requires { spec.is_single (array_type x.now) ≡ true }
    ensures { IfOk result (AreItemsOf (len x.now) stretched x.now) }
{
    let lists = lists_of(alloc, x, arena, steps)?;
    let items = one_each(alloc, &lists, arena, steps)?;
    Ok(items)
}

/// Whether a type is of lists of size 1 that are stretched.
fn is_stretched_type(stretch: bool, t: &Typ) -> bool
    ensures { result ≡ stretch && spec.is_single (typ_of t.now) }
{
    stretch && is_single(t)
}

/// What an operand without nulls gives, where lists of size 1 are stretched or not.
fn share_of<'a, L: Ledger>(
    alloc: Global,
    stretch: bool,
    x: &Array<'a>,
    arena: &'a Arena,
    steps: &mut Steps<L>,
) -> Result<Share<'a>, NoMemory>
    ensures { IfOk result (IsShare (len x.now) (role stretch (array_type x.now)) x.now) }
{
    if is_stretched_type(stretch, x.typ()) {
        let items = single_items(alloc, x, arena, steps)?;
        return Ok(Share::Items(items));
    }
    if is_list_or_unknown(x.typ()) {
        let lists = lists_of(alloc, x, arena, steps)?;
        return Ok(Share::Lists(lists));
    }
    let column = x.copy(alloc)?;
    Ok(Share::Items(column))
}

/// Whether lists of size 1 of the operand at a place are stretched, if some are.
fn is_stretched(some: bool, keep: bool, i: usize) -> bool
    ensures { result ≡ unless (kept_at i keep) some }
{
    some && !(keep && i == 0)
}

/// What operands without nulls give. Where `keep` is true no list of the first one is stretched.
pub fn shares_of<'a, L: Ledger>(
    alloc: Global,
    keep: bool,
    n: u64,
    xs: &Arrays<'a>,
    arena: &'a Arena,
    steps: &mut Steps<L>,
) -> Result<Vec<Share<'a>>, NoMemory>
    requires long { AreLong n xs.now }
    ensures { let s = spec.stretches (map array_type xs.now) in
        IfOk result (λ r. AreShares n keep s xs.now r.items) }
{
    let some = stretches(xs);
    let mut shares = Vec::new(alloc);
    for i in 0..xs.len() {
        let x = xs.get(i);
        let _ = x.len();
        let stretch = is_stretched(some, keep, i);
        let share = share_of(alloc, stretch, x, arena, steps)?;
        shares.push(share)?;
    }
    Ok(shares)
}
