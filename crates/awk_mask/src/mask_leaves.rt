//! An array where a mask of single truth values is over it.
ghost use Rattle.std.specs.Prelude.{◌≡◌, ◌<◌, ◌^◌, pos, true, false, length, IfOk};
ghost use Rattle.awk_types.specs.Simple.{is_option};
ghost use Rattle.awk_lanes.specs.Numbers.{int_of, is_nonzero, IsOf};
ghost use Rattle.awk_lanes.specs.Places.{size_of, at, IsOptionalIndex};
ghost use Rattle.awk_lanes.specs.declared.kind.Kind.TheVariants as Kinds;
ghost use Rattle.awk_layout.specs.Item.{agrees};
ghost use Rattle.awk_layout.specs.Typing.{array_type};
ghost use Rattle.awk_layout.specs.Valid.{len};
ghost use Rattle.awk_gather.specs.Peeled.{if_shown, IsBare};
ghost use Rattle.awk_mask_pairs.specs.MaskTypes.{is_bare, is_innermost};
ghost use Rattle.awk_mask.specs.MaskLeaves.{kept_lane, kept_place, there_place, truths_in};
ghost use Rattle.awk_mask.specs.MaskLeaves.{AreKept, AreTruths, IsLow, IsMasked};

use awk_gather::option_over;
use awk_index::{Index, byte_numbers, index_of};
use awk_lanes::{Arena, Kind, Lane, LaneMaker, Num, Numbers, Steps, made_lane, number};
use awk_layout::{Array, Class, Node};
use awk_open::{Opened, opened};
use awk_types::{NoMemory, is_optional};
use std::alloc::Global;
use std::sync::ledger::Ledger;

/// The truth values of a mask without nulls, of which there are none where it is of unknown.
fn truths_of<'a, L: Ledger>(
    alloc: Global,
    m: &Array<'a>,
    arena: &'a Arena,
    steps: &mut Steps<L>,
) -> Result<Lane<'a>, NoMemory>
    requires mask { is_bare (array_type m.now) ≡ true }
    ensures { IfOk result (AreTruths m.now) }
{
    let _ = m.len();
    match opened(alloc, m, arena, steps)? {
        Opened::Empty => Ok(LaneMaker::new(Kind::Bool, 0, arena)?.finish()),
        Opened::Leaf(lane) => Ok(lane),
        _ => unreachable!(),
    }
}

/// A place, or -1 as that of null.
fn place_if(shown: bool, place: u64) -> Num
    requires fits { place < 2 ^ 63 }
    ensures number { int_of result ≡ if_shown shown place }
    ensures kind { IsOf Kinds.I64 result }
{
    if shown { number(place) } else { Num::Int(-1) }
}

/// Whether the byte of a truth value is the one that is kept.
#[inline(always)]
fn is_kept(byte: u8, keep: bool) -> bool
    ensures { result ≡ agrees keep (is_nonzero (pos byte)) }
{
    if keep { byte != 0 } else { byte == 0 }
}

/// A place where the byte of truth value k is the one that is kept, else -1.
#[inline(always)]
fn kept_at(bytes: &[u8], keep: bool, k: u64, place: u64) -> Num
    requires within { k < length bytes.now }
    requires fits { place < 2 ^ 63 }
    ensures number { let shown = agrees keep (is_nonzero (at (truths_in bytes.now) k)) in
        int_of result ≡ if_shown shown place }
    ensures kind { IsOf Kinds.I64 result }
{
    let shown = is_kept(bytes[k as usize], keep);
    place_if(shown, place)
}

/// The places of the truth values that are kept, by their bytes.
#[derive(Drop)]
struct Kept<'b> {
    bytes: &'b [u8],
    keep: bool,
}

impl<'b> Numbers for Kept<'b> {
    ghost use Rattle.std.specs.Prelude.{◌<◌, ◌^◌, length};
    ghost use Rattle.awk_lanes.specs.declared.kind.Kind.TheVariants as Kinds;
    ghost use Rattle.awk_mask.specs.MaskLeaves.{kept_place, truths_in};

    ghost kind = { λ _. Kinds.I64 };

    ghost at = { λ f. kept_place (truths_in f.bytes.now) f.keep };

    ghost size = { λ f. length f.bytes.now };

    ghost IsReady = { λ f. length f.bytes.now < 2 ^ 63 };

    #[inline(always)]
    fn number<L: Ledger>(&self, i: u64, _steps: &mut Steps<L>) -> Num {
        kept_at(self.bytes, self.keep, i, i)
    }
}

/// The bytes of truth values where they lie.
fn truth_bytes<'a, L: Ledger>(truths: &Lane<'a>, steps: &mut Steps<L>) -> &'a [u8]
    requires { truths.now.kind ≡ Kinds.Bool }
    ensures { truths_in result.now ≡ truths.now }
{
    byte_numbers(truths, steps)
}

/// Truth values as an index: each place whose value is the one that is kept, and -1 elsewhere.
fn kept_places<'a, L: Ledger>(
    truths: &Lane,
    keep: bool,
    arena: &'a Arena,
    steps: &mut Steps<L>,
) -> Result<Lane<'a>, NoMemory>
    requires kind { truths.now.kind ≡ Kinds.Bool }
    requires fits { size_of truths.now < 2 ^ 63 }
    ensures { IfOk result (λ r. r ≡ kept_lane truths.now keep) }
{
    let bytes = truth_bytes(truths, steps);
    let kept = Kept { bytes, keep };
    made_lane(Kind::I64, bytes.len() as u64, &kept, arena, steps)
}

/// A place of an index where the truth value that it names is the one that is kept, else -1.
#[inline(always)]
#[tactic(auto, using(crate::proofs::MaskLeaves::there))]
fn there_at(index: &Index, bytes: &[u8], keep: bool, i: u64) -> Num
    requires within { i < size_of index.now }
    requires index { IsOptionalIndex index.now (length bytes.now) }
    requires fits { i < 2 ^ 63 }
    ensures number { int_of result ≡ there_place index.now (truths_in bytes.now) keep i }
    ensures kind { IsOf Kinds.I64 result }
{
    match index.option_place(i) {
        None => Num::Int(-1),
        Some(k) => kept_at(bytes, keep, k, i),
    }
}

/// The places of the truth values that are kept, by an index in which some are null.
#[derive(Drop)]
struct KeptThere<'b, 'a> {
    index: &'b Index<'a>,
    bytes: &'b [u8],
    keep: bool,
}

impl<'b, 'a> Numbers for KeptThere<'b, 'a> {
    ghost use Rattle.std.specs.Prelude.{◌<◌, ◌^◌, length};
    ghost use Rattle.awk_lanes.specs.Places.{size_of, IsOptionalIndex};
    ghost use Rattle.awk_lanes.specs.declared.kind.Kind.TheVariants as Kinds;
    ghost use Rattle.awk_mask.specs.MaskLeaves.{there_place, truths_in};

    ghost kind = { λ _. Kinds.I64 };

    ghost at = { λ f. there_place f.index.now (truths_in f.bytes.now) f.keep };

    ghost size = { λ f. size_of f.index.now };

    ghost IsReady = { λ f. IsOptionalIndex f.index.now (length f.bytes.now)
        × (size_of f.index.now < 2 ^ 63) };

    #[inline(always)]
    fn number<L: Ledger>(&self, i: u64, _steps: &mut Steps<L>) -> Num {
        there_at(self.index, self.bytes, self.keep, i)
    }
}

/// The places of a mask with nulls whose truth value is the one that is kept, and -1 elsewhere.
fn places_there<'a, L: Ledger>(
    alloc: Global,
    m: &Array<'a>,
    keep: bool,
    arena: &'a Arena,
    steps: &mut Steps<L>,
) -> Result<Lane<'a>, NoMemory>
    requires mask { is_innermost (array_type m.now) ≡ true }
    requires option { is_option (array_type m.now) ≡ true }
    ensures { IfOk result (AreKept m.now keep) }
{
    match opened(alloc, m, arena, steps)? {
        Opened::Option { index, content } => {
            let truths = truths_of(alloc, &content, arena, steps)?;
            let bytes = truth_bytes(&truths, steps);
            let there = index_of(alloc, &index, arena, steps)?;
            let kept = KeptThere {
                index: &there,
                bytes,
                keep,
            };
            let places = made_lane(Kind::I64, there.len(), &kept, arena, steps)?;
            Ok(places)
        }
        _ => unreachable!(),
    }
}

/// The places of a mask whose truth value is the one that is kept, and -1 elsewhere.
fn mask_places<'a, L: Ledger>(
    alloc: Global,
    m: &Array<'a>,
    keep: bool,
    arena: &'a Arena,
    steps: &mut Steps<L>,
) -> Result<Lane<'a>, NoMemory>
    requires mask { is_innermost (array_type m.now) ≡ true }
    ensures { IfOk result (AreKept m.now keep) }
{
    if is_optional(m.typ()) {
        return places_there(alloc, m, keep, arena, steps);
    }
    let truths = truths_of(alloc, m, arena, steps)?;
    let places = kept_places(&truths, keep, arena, steps)?;
    Ok(places)
}

/// Items where a mask is the one that is kept, by an index.
fn masked_places<'a, L: Ledger>(
    alloc: Global,
    x: &Array<'a>,
    m: &Array<'a>,
    keep: bool,
    arena: &'a Arena,
    steps: &mut Steps<L>,
) -> Result<Node<'a>, NoMemory>
    requires mask { is_innermost (array_type m.now) ≡ true }
    requires lengths { len m.now ≡ len x.now }
    ensures items { IfOk result (IsMasked x.now m.now keep) }
    ensures low { IfOk result IsLow }
{
    let _ = x.len();
    let places = mask_places(alloc, m, keep, arena, steps)?;
    let node = option_over(alloc, x.node(), &places, arena, steps)?;
    let _ = node.len();
    Ok(node)
}

/// Whether an array is a lane of numbers, and a mask over it has no nulls.
fn lies_plain(x: &Array, m: &Array) -> bool
    ensures { result ≡ true → (is_option (array_type m.now) ≡ false) × IsBare x.now }
{
    if is_optional(m.typ()) {
        return false;
    }
    match x.node().class() {
        Class::Numpy { .. } => true,
        _ => false,
    }
}

/// Items where a mask without nulls is the one that is kept: its bytes as they lie are their mask.
fn masked_bytes<'a, L: Ledger>(
    alloc: Global,
    x: &Array<'a>,
    m: &Array<'a>,
    keep: bool,
    arena: &'a Arena,
    steps: &mut Steps<L>,
) -> Result<Node<'a>, NoMemory>
    requires mask { is_bare (array_type m.now) ≡ true }
    requires items { IsBare x.now }
    requires lengths { len m.now ≡ len x.now }
    ensures items { IfOk result (IsMasked x.now m.now keep) }
    ensures low { IfOk result IsLow }
{
    let _ = x.len();
    let truths = truths_of(alloc, m, arena, steps)?;
    let mask = Lane::new(Kind::I8, truth_bytes(&truths, steps));
    let content = Box::new(alloc, x.node().copy(alloc)?)?;
    let node = Node::byte_masked(mask, keep, content, steps);
    let _ = node.len();
    Ok(node)
}

/// The items of an array where a mask of single truth values, of which some may be null, is the one
/// that is kept. Over numbers the mask lies as it is; else an index is made, composed with those
/// below it.
pub fn masked_items<'a, L: Ledger>(
    alloc: Global,
    x: &Array<'a>,
    m: &Array<'a>,
    keep: bool,
    arena: &'a Arena,
    steps: &mut Steps<L>,
) -> Result<Node<'a>, NoMemory>
    requires mask { is_innermost (array_type m.now) ≡ true }
    requires lengths { len m.now ≡ len x.now }
    ensures items { IfOk result (IsMasked x.now m.now keep) }
    ensures low { IfOk result IsLow }
{
    if lies_plain(x, m) {
        return masked_bytes(alloc, x, m, keep, arena, steps);
    }
    masked_places(alloc, x, m, keep, arena, steps)
}
