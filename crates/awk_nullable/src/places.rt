//! Where the numbers of items lie, of which some may be null.
ghost use Rattle.std.specs.Prelude.{◌≡◌, ◌+◌, ◌-◌, ◌<◌, ◌≤◌, ◌^◌, true, cond, length, map, []};
ghost use Rattle.std.specs.Prelude.{get_or};
ghost use Rattle.std.specs.List.{count_by};
ghost use Rattle.std.specs.Option.{is_some};
ghost use Rattle.awk_lanes.specs.Numbers.{number as number_of, is_nonzero};
ghost use Rattle.awk_lanes.specs.Places.{size_of, option_place_at};
ghost use Rattle.awk_lanes.specs.declared.kind.Kind.TheVariants as Kind;
ghost use Rattle.awk_layout.specs.Item.{agrees as agrees_of};
ghost use Rattle.awk_nullable.specs.Masks.{if_shown};
ghost use Rattle.awk_nullable.specs.Numbers.{present_count};

use crate::cells::Cells;
use awk_bits::Bits;
use awk_cells::nonzero_in;
use awk_index::Index;
use awk_lanes::Steps;
use awk_narrow::{NarrowIndex, OptionIndex};
use std::sync::ledger::Ledger;

/// Where the numbers of items lie.
pub trait Places {
    ghost use Rattle.std.specs.Prelude.{ℕ, ◌+◌, ◌≤◌, ◌^◌, Option};
    ghost use Rattle.awk_nullable.specs.Numbers.{AreItems, AreAhead, present_count};

    /// The place of an item's number, or none where the item is null.
    ghost at: { Self → ℕ → Option ℕ };

    /// A place for an item, be that null or not: that of its number, if it has one.
    ghost ahead: { Self → ℕ → ℕ };

    /// How many items there are.
    ghost size: { Self → ℕ };

    /// Whether most items are null, as some of them tell. Where none tells, it is not said.
    fn is_sparse(&self) -> bool {
        false
    }

    /// Whether numbers lie elsewhere than their items, so that each is better read once than twice.
    fn is_apart(&self) -> bool {
        false
    }

    /// The place of the number of item i.
    fn place<L: Ledger>(&self, i: u64, steps: &mut Steps<L>) -> Option<u64>
        requires { i < size self.now }
        ensures { result ≡ at self.now i };

    /// A place for item i, which can be told before the item is asked whether it is null.
    fn ahead(&self, i: u64) -> u64
        requires { i < size self.now }
        ensures { result ≡ ahead self.now i };

    /// Whether item i is not null.
    fn shows<L: Ledger>(&self, i: u64, steps: &mut Steps<L>) -> bool
        requires { i < size self.now }
        ensures { at self.now i ≡ if_shown result (ahead self.now i) };

    /// Whether there is a number at the place of each of so many items from a first one on, be
    /// they null or not.
    fn reaches<C: Cells>(&self, cells: &C, first: u64, count: u64) -> bool
        requires { AreItems (at self.now) (size self.now) (C.lane cells.now) first count }
        ensures { result ≡ true → AreAhead (ahead self.now) first count
            (size_of (C.lane cells.now)) };

    /// How many of so many items from a first one on are not null. Each is asked, where many are
    /// not told of at once.
    fn present<L: Ledger>(&self, first: u64, count: u64, steps: &mut Steps<L>) -> u64
        requires within { 0 < count → first + count ≤ size self.now }
        requires small { first + count < 2 ^ 63 }
        requires few { count ≤ 1073741824 }
        ensures { result ≡ present_count (at self.now) first count }
    {
        let mut present: u64 = 0;
        for i in 0..count {
            present += one_if_there(self.place(first + i, steps));
        }
        present
    }
}

/// 1 for an item that is there, else 0.
#[inline(always)]
fn one_if_there(place: Option<u64>) -> u64
    ensures one { result ≡ cond (is_some place) 1 0 }
    ensures small { result ≤ 1 }
{
    match place {
        Some(_) => 1,
        None => 0,
    }
}

/// Whether a byte or bit says that an item is there.
#[inline(always)]
fn agrees(valid_when: bool, set: bool) -> bool
    ensures { result ≡ agrees_of valid_when set }
{
    if valid_when { set } else { !set }
}

/// The place of an item, if that is there.
#[inline(always)]
fn shown(shows: bool, i: u64) -> Option<u64>
    ensures { result ≡ if_shown shows i }
{
    if shows { Some(i) } else { None }
}

/// How many of 64 items of an index are not null: of the first 64,000 each thousandth.
fn present_of_64<I: OptionIndex>(index: &I) -> u64
    requires { 64000 ≤ size_of (I.lane index.now) }
{
    let mut present: u64 = 0;
    for i in 0..64u64 {
        present += one_if_there(index.place(i * 1000));
    }
    present
}

/// Whether most items of an index are null, as 64 of them tell.
fn is_sparse_index<I: OptionIndex>(index: &I) -> bool {
    if index.size() < 64000 {
        return false;
    }
    present_of_64(index) < 4
}

/// By the numbers of an index, negative for a null. For a null any place will do.
impl<'a> Places for Index<'a> {
    ghost use Rattle.std.specs.Option.{unwrap_or};
    ghost use Rattle.awk_lanes.specs.Places.{size_of, option_place_at};

    ghost at = { λ x. option_place_at x };

    ghost ahead = { λ x i. unwrap_or (option_place_at x i) 0 };

    ghost size = { λ x. size_of x };

    fn is_sparse(&self) -> bool {
        is_sparse_index(self)
    }

    #[inline(always)]
    fn is_apart(&self) -> bool {
        true
    }

    #[inline(always)]
    fn place<L: Ledger>(&self, i: u64, _steps: &mut Steps<L>) -> Option<u64> {
        self.option_place(i)
    }

    #[inline(always)]
    fn ahead(&self, i: u64) -> u64 {
        self.option_place(i).unwrap_or(0)
    }

    #[inline(always)]
    fn shows<L: Ledger>(&self, i: u64, _steps: &mut Steps<L>) -> bool {
        self.option_place(i).is_some()
    }

    #[inline(always)]
    fn reaches<C: Cells>(&self, cells: &C, _first: u64, _count: u64) -> bool {
        cells.len() > 0
    }
}

/// How many of so many items from a first one on are not null, counted in 32 bits as they lie.
#[inline(always)]
fn narrow_present(index: &NarrowIndex, first: u64, count: u64) -> u32
    requires within { 0 < count → first + count ≤ size_of index.now }
    requires small { first + count < 2 ^ 63 }
    requires few { count ≤ 1073741824 }
    ensures { result ≡ present_count (option_place_at index.now) first count }
{
    let mut present: u32 = 0;
    for i in 0..count {
        present += one_if_there(index.option_place(first + i)) as u32;
    }
    present
}

/// The same by numbers of 32 bits.
impl<'a> Places for NarrowIndex<'a> {
    ghost use Rattle.std.specs.Option.{unwrap_or};
    ghost use Rattle.awk_lanes.specs.Places.{size_of, option_place_at};

    ghost at = { λ x. option_place_at x };

    ghost ahead = { λ x i. unwrap_or (option_place_at x i) 0 };

    ghost size = { λ x. size_of x };

    fn is_sparse(&self) -> bool {
        is_sparse_index(self)
    }

    #[inline(always)]
    fn is_apart(&self) -> bool {
        true
    }

    #[inline(always)]
    fn place<L: Ledger>(&self, i: u64, _steps: &mut Steps<L>) -> Option<u64> {
        self.option_place(i)
    }

    #[inline(always)]
    fn ahead(&self, i: u64) -> u64 {
        self.option_place(i).unwrap_or(0)
    }

    #[inline(always)]
    fn shows<L: Ledger>(&self, i: u64, _steps: &mut Steps<L>) -> bool {
        self.option_place(i).is_some()
    }

    #[inline(always)]
    fn reaches<C: Cells>(&self, cells: &C, _first: u64, _count: u64) -> bool {
        cells.len() > 0
    }

    #[inline(always)]
    fn present<L: Ledger>(&self, first: u64, count: u64, _steps: &mut Steps<L>) -> u64 {
        u64::from(narrow_present(self, first, count))
    }
}

/// A mask with a byte for each item.
#[derive(Drop)]
pub struct ByteMask<'a> {
    pub bytes: &'a [[u8; 1]],
    pub valid_when: bool,
}

/// Whether the byte of item i says that it is there.
#[inline(always)]
fn byte_shows(mask: &ByteMask, i: u64) -> bool
    requires { i < length mask.now.bytes.now }
    ensures { result ≡ agrees_of mask.now.valid_when
        (is_nonzero (number_of Kind.I8 (get_or mask.now.bytes.now i []))) }
{
    let set = i8::from_le_bytes(mask.bytes[i as usize]) != 0;
    agrees(mask.valid_when, set)
}

/// How many bytes of a mask are not 0, counted in blocks.
#[inline(always)]
fn set_in(groups: &[[u8; 1]]) -> u64
    requires few { length groups.now ≤ 1073741824 }
    ensures { result ≡ count_by is_nonzero (map (number_of Kind.I8) groups.now) }
{
    nonzero_in::<1, i8>(groups)
}

/// How many of so many bytes say that an item is there, by how many are not 0.
#[inline(always)]
fn agreeing(valid_when: bool, set: u64, count: u64) -> u64
    requires { set ≤ count }
    ensures { result ≡ cond valid_when set (count - set) }
{
    if valid_when { set } else { count - set }
}

impl<'a> Places for ByteMask<'a> {
    ghost use Rattle.std.specs.Prelude.{length};
    ghost use Rattle.awk_nullable.specs.Masks.{byte_place};

    ghost at = { λ m. byte_place m.bytes.now m.valid_when };

    ghost ahead = { λ _ i. i };

    ghost size = { λ m. length m.bytes.now };

    #[inline(always)]
    fn place<L: Ledger>(&self, i: u64, _steps: &mut Steps<L>) -> Option<u64> {
        shown(byte_shows(self, i), i)
    }

    #[inline(always)]
    fn ahead(&self, i: u64) -> u64 {
        i
    }

    #[inline(always)]
    fn shows<L: Ledger>(&self, i: u64, _steps: &mut Steps<L>) -> bool {
        byte_shows(self, i)
    }

    #[inline(always)]
    fn reaches<C: Cells>(&self, cells: &C, first: u64, count: u64) -> bool {
        first + count <= cells.len()
    }

    #[inline(always)]
    fn present<L: Ledger>(&self, first: u64, count: u64, _steps: &mut Steps<L>) -> u64 {
        if count == 0 {
            return 0;
        }
        let part = &self.bytes[first as usize..(first + count) as usize];
        agreeing(self.valid_when, set_in(part), count)
    }
}

/// A mask with a bit for each item.
#[derive(Drop)]
pub struct BitMask<'a> {
    pub bits: Bits<'a>,
    pub valid_when: bool,
}

impl<'a> Places for BitMask<'a> {
    ghost use Rattle.std.specs.Prelude.{length};
    ghost use Rattle.awk_nullable.specs.Masks.{bit_place};

    ghost at = { λ m. bit_place m.bits m.valid_when };

    ghost ahead = { λ _ i. i };

    ghost size = { λ m. length m.bits };

    #[inline(always)]
    fn place<L: Ledger>(&self, i: u64, steps: &mut Steps<L>) -> Option<u64> {
        shown(agrees(self.valid_when, self.bits.at(i, steps)), i)
    }

    #[inline(always)]
    fn ahead(&self, i: u64) -> u64 {
        i
    }

    #[inline(always)]
    fn shows<L: Ledger>(&self, i: u64, steps: &mut Steps<L>) -> bool {
        agrees(self.valid_when, self.bits.at(i, steps))
    }

    #[inline(always)]
    fn reaches<C: Cells>(&self, cells: &C, first: u64, count: u64) -> bool {
        first + count <= cells.len()
    }
}

/// So many items, none of which is null.
#[derive(Drop)]
pub struct Every {
    pub count: u64,
}

impl Places for Every {
    ghost use Rattle.std.specs.Prelude.{Some};

    ghost at = { λ _ i. Some i };

    ghost ahead = { λ _ i. i };

    ghost size = { λ m. m.count };

    #[inline(always)]
    fn place<L: Ledger>(&self, i: u64, _steps: &mut Steps<L>) -> Option<u64> {
        Some(i)
    }

    #[inline(always)]
    fn ahead(&self, i: u64) -> u64 {
        i
    }

    #[inline(always)]
    fn shows<L: Ledger>(&self, _i: u64, _steps: &mut Steps<L>) -> bool {
        true
    }

    #[inline(always)]
    fn reaches<C: Cells>(&self, cells: &C, first: u64, count: u64) -> bool {
        first + count <= cells.len()
    }

    #[inline(always)]
    fn present<L: Ledger>(&self, _first: u64, count: u64, _steps: &mut Steps<L>) -> u64 {
        count
    }
}
