//! How many numbers are not 0, and how many bytes, counted in blocks.
ghost use Rattle.std.specs.Prelude.{◌≡◌, ◌==◌, ◌≤◌, ◌+◌, cond, length, map, not};
ghost use Rattle.std.specs.List.{sum_by, count_by, flat_map};
ghost use Rattle.awk_kernels.specs.Kernels.{count_true};
ghost use Rattle.awk_lanes.specs.Numbers.{is_nonzero};

use crate::blocks::has_blocks;
use crate::cells::Cell;
use crate::truths::is_zero_at;

/// 1 for a byte that is not 0, else 0.
#[inline(always)]
fn one_if_set(byte: u8) -> u8
    ensures one { result ≡ cond (not (byte == 0)) 1 0 }
    ensures small { result ≤ 1 }
{
    if byte == 0 { 0 } else { 1 }
}

/// How many bytes of a block are not 0. It has so few that a byte holds their number.
#[inline(always)]
fn block_count<const N: usize>(block: &[u8; N]) -> u8
    requires small { N ≤ 255 }
    ensures count { result ≡ count_true block.now }
    ensures few { result ≤ 255 }
{
    let mut count: u8 = 0;
    for i in 0..N {
        count += one_if_set(block[i]);
    }
    count
}

/// How many bytes of blocks are not 0.
#[inline(always)]
fn blocks_count<const N: usize>(blocks: &[[u8; N]]) -> u64
    requires small { N ≤ 255 }
    requires few { length blocks.now ≤ 1073741824 }
    ensures { result ≡ sum_by count_true blocks.now }
{
    let mut count: u64 = 0;
    for i in 0..blocks.len() {
        count += u64::from(block_count::<N>(&blocks[i]));
    }
    count
}

/// How many bytes are not 0, each in a block of its own.
#[inline(always)]
fn count_few(bytes: &[u8]) -> u64
    requires few { length bytes.now ≤ 1073741824 }
    ensures { result ≡ count_true bytes.now }
{
    blocks_count::<1>(bytes.as_chunks::<1>().0)
}

/// How many bytes are not 0, in blocks of eight as far as they go.
#[inline(always)]
fn count_short(bytes: &[u8]) -> u64
    requires few { length bytes.now ≤ 1073741824 }
    ensures { result ≡ count_true bytes.now }
{
    let (blocks, rest) = bytes.as_chunks::<8>();
    blocks_count::<8>(blocks) + count_few(rest)
}

/// How many bytes are not 0, in blocks of 64 as far as they go.
#[inline(always)]
pub fn count_set(bytes: &[u8]) -> u64
    requires few { length bytes.now ≤ 1073741824 }
    ensures { result ≡ count_true bytes.now }
{
    let (blocks, rest) = bytes.as_chunks::<64>();
    blocks_count::<64>(blocks) + count_short(rest)
}

/// A count in so many bits that vectors of the numbers that are counted hold it as they lie.
pub(crate) trait Count {
    ghost use Rattle.std.specs.Prelude.{◌≡◌, ◌+◌, ◌≤◌, ℕ, cond};

    /// How many it is.
    ghost count: { Self → ℕ };

    /// None.
    fn none() -> Self
        ensures { count result ≡ 0 };

    /// One more where it is told so.
    fn with(old: Self, told: bool) -> Self
        requires few { count old ≤ 1073741824 }
        ensures { count result ≡ count old + cond told 1 0 };
}

impl Count for u32 {
    ghost count = { λ n. n };

    #[inline(always)]
    fn none() -> u32 {
        0
    }

    #[inline(always)]
    fn with(old: u32, told: bool) -> u32 {
        old + if told { 1 } else { 0 }
    }
}

impl Count for u64 {
    ghost count = { λ n. n };

    #[inline(always)]
    fn none() -> u64 {
        0
    }

    #[inline(always)]
    fn with(old: u64, told: bool) -> u64 {
        old + if told { 1 } else { 0 }
    }
}

/// How many numbers are 0, one after another.
#[inline(always)]
fn zeros_in<const W: usize, C: Cell<W>, N: Count>(groups: &[[u8; W]]) -> N
    requires few { length groups.now ≤ 1073741824 }
    ensures { N.count result + count_by is_nonzero (map C.number groups.now) ≡ length groups.now }
{
    let mut zeros = N::none();
    for i in 0..groups.len() {
        zeros = N::with(zeros, is_zero_at::<W, C>(groups, i));
    }
    zeros
}

/// How many numbers of blocks are 0.
#[inline(always)]
fn zeros_in_blocks<const W: usize, C: Cell<W>>(blocks: &[[[u8; W]; 8]]) -> u32
    requires few { length blocks.now ≤ 134217728 }
    ensures { let gs = flat_map (λ b. b) blocks.now in
        result + count_by is_nonzero (map C.number gs) ≡ length gs }
{
    let mut zeros: u32 = 0;
    for i in 0..blocks.len() {
        zeros += zeros_in::<W, C, u32>(&blocks[i]);
    }
    zeros
}

/// How many numbers are 0, in blocks of eight as far as they go where that pays.
#[inline(always)]
fn zeros_in_all<const W: usize, C: Cell<W>>(groups: &[[u8; W]]) -> u32
    requires few { length groups.now ≤ 1073741824 }
    ensures { result + count_by is_nonzero (map C.number groups.now) ≡ length groups.now }
{
    if !has_blocks::<W>(groups.len()) {
        return zeros_in::<W, C, u32>(groups);
    }
    let (blocks, rest) = groups.as_chunks::<8>();
    zeros_in_blocks::<W, C>(blocks) + zeros_in::<W, C, u32>(rest)
}

/// How many numbers are not 0: all but those that are 0, which are counted in 64 bits where they have
/// as many.
#[inline(always)]
pub fn nonzero_in<const W: usize, C: Cell<W>>(groups: &[[u8; W]]) -> u64
    requires few { length groups.now ≤ 1073741824 }
    ensures { result ≡ count_by is_nonzero (map C.number groups.now) }
{
    let count = groups.len() as u64;
    if W == 8 {
        return count - zeros_in::<W, C, u64>(groups);
    }
    count - u64::from(zeros_in_all::<W, C>(groups))
}
