//! Choices between two lanes of one kind, by the groups of bytes that their numbers lie in.
ghost use Rattle.std.specs.Prelude.{◌≡◌, ◌<◌, ◌≤◌, ◌==◌, cond, length, IfOk};
ghost use Rattle.awk_lanes.specs.Numbers.{width};
ghost use Rattle.awk_lanes.specs.Places.{size_of};
ghost use Rattle.awk_lanes.specs.Words.{column};
ghost use Rattle.awk_kernels.specs.Kernels.{chosen};
ghost use Rattle.awk_lane_pairs.specs.Groups.{chosen_items};

use awk_lanes::{Arena, Kind, Lane, NoMemory, Steps};
use bumpalo::collections::into_bump_slice;
use std::sync::ledger::Ledger;

/// The second group where the byte is 0, else the first. Both are at hand when the byte is tested,
/// so that a compiler chooses between many at once.
#[inline(always)]
fn group_by<const W: usize>(byte: u8, first: [u8; W], second: [u8; W]) -> [u8; W]
    ensures { result ≡ cond (byte == 0) second.entry first.entry }
{
    if byte == 0 { second } else { first }
}

/// The groups that a mask chooses.
fn chosen_groups<'a, const W: usize>(
    mask: &[u8],
    first: &[[u8; W]],
    second: &[[u8; W]],
    arena: &'a Arena,
) -> Result<&'a [[u8; W]], NoMemory>
    requires first { length first.now ≡ length mask.now }
    requires second { length second.now ≡ length mask.now }
    ensures { IfOk result (λ r. r.now ≡ chosen_items mask.now first.now second.now) }
{
    let mut groups = Vec::with_capacity(arena, mask.len())?;
    for i in 0..mask.len() {
        groups.push_reserved(group_by(mask[i], first[i], second[i]));
    }
    Ok(into_bump_slice(groups))
}

/// The numbers of W bytes that a mask chooses.
fn chosen_numbers<'a, const W: usize, L: Ledger>(
    mask: &[u8],
    first: &Lane,
    second: &Lane,
    arena: &'a Arena,
    steps: &mut Steps<L>,
) -> Result<Lane<'a>, NoMemory>
    requires width { width first.now.kind ≡ W }
    requires some { 0 < W }
    requires small { W ≤ 8 }
    requires kinds { second.now.kind ≡ first.now.kind }
    requires first { size_of first.now ≡ length mask.now }
    requires second { size_of second.now ≡ length mask.now }
    ensures { IfOk result (λ r. r ≡ column first.now.kind
        (chosen mask.now first.now.items second.now.items)) }
{
    let ones = first.bulk(arena, steps)?;
    let (a, _) = ones.as_chunks::<W>();
    let others = second.bulk(arena, steps)?;
    let (b, _) = others.as_chunks::<W>();
    let groups = chosen_groups(mask, a, b, arena)?;
    Ok(Lane::new(first.kind(), groups.as_flattened()))
}

/// The numbers that a mask chooses of two lanes of one kind, each as the bytes that it lies in.
pub fn chosen_lane<'a, L: Ledger>(
    mask: &[u8],
    first: &Lane,
    second: &Lane,
    arena: &'a Arena,
    steps: &mut Steps<L>,
) -> Result<Lane<'a>, NoMemory>
    requires kinds { second.now.kind ≡ first.now.kind }
    requires first { size_of first.now ≡ length mask.now }
    requires second { size_of second.now ≡ length mask.now }
    ensures { IfOk result (λ r. r ≡ column first.now.kind
        (chosen mask.now first.now.items second.now.items)) }
{
    match first.kind() {
        Kind::Bool | Kind::I8 | Kind::U8 => {
            chosen_numbers::<1, L>(mask, first, second, arena, steps)
        }
        Kind::I16 | Kind::U16 => chosen_numbers::<2, L>(mask, first, second, arena, steps),
        Kind::I32 | Kind::U32 => chosen_numbers::<4, L>(mask, first, second, arena, steps),
        Kind::I64 | Kind::U64 => chosen_numbers::<8, L>(mask, first, second, arena, steps),
    }
}
