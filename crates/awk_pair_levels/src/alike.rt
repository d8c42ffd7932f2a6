//! Whether the lists of a level are equally long.
ghost use Rattle.std.specs.Prelude.{◌≡◌, ◌==◌, length, slice_get, true, Some, IfSome};
ghost use Rattle.std.specs.List.{list_any, list_all, flat_map, range_with_len};
ghost use Rattle.awk_lanes.specs.Counted.{offsets_by};
ghost use Rattle.awk_lanes.specs.Places.{size_of};
ghost use Rattle.awk_pair_sides.specs.Levels.{common_class};
ghost use Rattle.awk_columns.specs.Lists.{length_of};
ghost use Rattle.awk_pair_levels.specs.Shares.{is_lists, is_alike as is_alike_to, share_class};
ghost use Rattle.awk_pair_levels.specs.Shares.{class_list, is_flat as is_flat_column};
ghost use Rattle.awk_pair_levels.specs.Shares.{is_plain as is_plain_share, IsAsLong, AreAsLong};
ghost use Rattle.awk_pair_levels.specs.Shares.{IsAmong};
ghost use Rattle.awk_pair_levels.specs.InRow.{IsOf, AreOf};
ghost use Rattle.awk_pair_levels.specs.declared.shares.Share.TheVariants as given;

use crate::shares::Share;
use awk_columns::Lists;
use awk_lanes::{Lane, Steps};
use awk_layout::{Array, Arrays, Class};
use awk_list_rows::{are_same, begin_at};
use std::sync::ledger::Ledger;

/// Lists by which those of a level are judged, and the place of the operand that gives them.
#[derive(Drop)]
pub(crate) struct Lead<'b, 'a> {
    pub(crate) place: usize,
    pub(crate) lists: &'b Lists<'a>,
}

/// The first operand that gives lists.
pub(crate) fn lead_in<'b, 'a>(shares: &'b [Share<'a>]) -> Lead<'b, 'a>
    requires { list_any is_lists shares.now ≡ true }
    ensures { slice_get shares.now result.place ≡ Some (given.Lists result.lists.now) }
{
    for i in 0..shares.len() {
        match &shares[i] {
            Share::Lists(lists) => return Lead { place: i, lists },
            Share::Items(_) => {}
        }
    }
    unreachable!()
}

/// The lists of the first operand that gives lists.
pub fn lead_of<'b, 'a>(shares: &'b [Share<'a>]) -> &'b Lists<'a>
    requires { list_any is_lists shares.now ≡ true }
    ensures { IsAmong result.now shares.now }
{
    lead_in(shares).lists
}

/// Whether lists are as long as others, place by place.
fn are_equal<L: Ledger>(lead: &Lists, lists: &Lists, steps: &mut Steps<L>) -> bool
    requires { size_of lists.now.starts ≡ size_of lead.now.starts }
    ensures { let all = list_all (λ i. length_of lists.now i == length_of lead.now i) in
        result ≡ all (range_with_len 0 (size_of lead.now.starts)) }
{
    for i in 0..lead.len() {
        if lists.length_at(i, steps) != lead.length_at(i, steps) {
            return false;
        }
    }
    true
}

/// The same, which needs no look at a place where the lanes are the same.
fn is_as_long<L: Ledger>(lead: &Lists, lists: &Lists, steps: &mut Steps<L>) -> bool
    requires { size_of lists.now.starts ≡ size_of lead.now.starts }
    ensures { let all = list_all (λ i. length_of lists.now i == length_of lead.now i) in
        result ≡ all (range_with_len 0 (size_of lead.now.starts)) }
{
    if are_same(lead, lists, steps) {
        return true;
    }
    are_equal(lead, lists, steps)
}

/// The same, which compares ends where the lists of an operand lie in a row.
fn is_even<L: Ledger>(
    lead: &Lists,
    ends: &Option<Lane>,
    x: &Array,
    lists: &Lists,
    steps: &mut Steps<L>,
) -> bool
    requires size { size_of lists.now.starts ≡ size_of lead.now.starts }
    requires ends { IfSome ends.now (λ o.
        o ≡ offsets_by (length_of lead.now) (size_of lead.now.starts)) }
    requires of { IsOf x.now (given.Lists lists.now) }
    ensures { let all = list_all (λ i. length_of lists.now i == length_of lead.now i) in
        result ≡ all (range_with_len 0 (size_of lead.now.starts)) }
{
    if let Some(ends) = ends {
        if begin_at(x, ends, steps) {
            return true;
        }
    }
    is_as_long(lead, lists, steps)
}

/// The same of what the operand at a place gives, if it gives lists. Those of the lead are its own.
fn is_alike<L: Ledger>(
    lead: &Lead,
    ends: &Option<Lane>,
    i: usize,
    x: &Array,
    share: &Share,
    steps: &mut Steps<L>,
) -> bool
    requires lead { i ≡ lead.now.place → share.now ≡ given.Lists lead.now.lists.now }
    requires ends { let l = lead.now.lists.now in
        IfSome ends.now (λ o. o ≡ offsets_by (length_of l) (size_of l.starts)) }
    requires long { IsAsLong (size_of lead.now.lists.now.starts) share.now }
    requires of { IsOf x.now share.now }
    ensures { let l = lead.now.lists.now in
        result ≡ is_alike_to (length_of l) (size_of l.starts) share.now }
{
    if i == lead.place {
        return true;
    }
    match share {
        Share::Lists(lists) => is_even(lead.lists, ends, x, lists, steps),
        Share::Items(_) => true,
    }
}

/// Whether the lists of all operands that give lists are as long as these, whose ends are given
/// where they lie in a row.
pub(crate) fn are_alike<L: Ledger>(
    lead: &Lead,
    ends: &Option<Lane>,
    xs: &Arrays,
    shares: &[Share],
    steps: &mut Steps<L>,
) -> bool
    requires lead { slice_get shares.now lead.now.place ≡ Some (given.Lists lead.now.lists.now) }
    requires ends { let l = lead.now.lists.now in
        IfSome ends.now (λ o. o ≡ offsets_by (length_of l) (size_of l.starts)) }
    requires long { AreAsLong (size_of lead.now.lists.now.starts) shares.now }
    requires same { length xs.now ≡ length shares.now }
    requires of { AreOf xs.now shares.now }
    ensures { let l = lead.now.lists.now in
        result ≡ list_all (is_alike_to (length_of l) (size_of l.starts)) shares.now }
{
    for i in 0..shares.len() {
        if !is_alike(lead, ends, i, xs.get(i), &shares[i], steps) {
            return false;
        }
    }
    true
}

/// Whether a column is of numbers.
pub(crate) fn is_flat(x: &Array) -> bool
    ensures { result ≡ is_flat_column x.now }
{
    match x.node().class() {
        Class::Numpy { .. } => true,
        _ => false,
    }
}

/// Whether what an operand gives to the rows below is made without places.
fn is_plain(share: &Share) -> bool
    ensures { result ≡ is_plain_share share.now }
{
    match share {
        Share::Lists(_) => true,
        Share::Items(column) => is_flat(column),
    }
}

/// The same of all operands.
pub(crate) fn all_plain(shares: &[Share]) -> bool
    ensures { result ≡ list_all is_plain_share shares.now }
{
    for i in 0..shares.len() {
        if !is_plain(&shares[i]) {
            return false;
        }
    }
    true
}

/// The class of lists, and none of what gives no lists.
fn class_of(share: &Share) -> Option<Option<u64>>
    ensures { class_list result ≡ share_class share.now }
{
    match share {
        Share::Lists(lists) => Some(lists.class()),
        Share::Items(_) => None,
    }
}

/// One size, where all lists of a level are of that size.
pub(crate) fn level_class(shares: &[Share]) -> Option<u64>
    ensures { result ≡ common_class (flat_map share_class shares.now) }
{
    let mut class = None;
    for i in 0..shares.len() {
        match class_of(&shares[i]) {
            None => {}
            Some(None) => return None,
            Some(Some(n)) => match class {
                None => class = Some(n),
                Some(m) => {
                    if n != m {
                        return None;
                    }
                }
            },
        }
    }
    class
}
