//! All numbers of a lane at once, as the kernels take them.
ghost use Rattle.std.specs.Prelude.{◌≡◌, ◌≢◌, ◌+◌, ◌/◌, map, length, IfOk};
ghost use Rattle.std.specs.Simd.{first_chunks};
ghost use Rattle.awk_lanes.specs.Numbers.{width, number};
ghost use Rattle.awk_lanes.specs.Places.{size_of};
ghost use Rattle.awk_lanes.specs.Words.{integers, unsigned, HasNats, IsByteKind};
ghost use Rattle.awk_lanes.specs.declared.kind.Kind.TheVariants as Kind;

use crate::cells::{naturals, widened};
use awk_lanes::{ByteLane, Held, Kind, Lane, NoMemory, Steps};
use std::alloc::Global;
use std::sync::ledger::Ledger;

/// The lane's numbers, in one pass. Those of each kind but `U64` fit an i64. A truth value is given
/// as its byte.
pub fn numbers_of<L: Ledger>(
    alloc: Global,
    lane: &Lane,
    steps: &mut Steps<L>,
) -> Result<Vec<i64>, NoMemory>
    requires { lane.now.kind ≢ Kind.U64 }
    ensures numbers { IfOk result (λ v. v.items ≡ lane.now.items) }
    ensures cost { steps.new ≡ steps.old + size_of lane.now }
{
    match lane.held() {
        Held::Bytes(bytes) => numbers_by_bytes(alloc, bytes, steps),
        Held::Run(places) => places.numbers(alloc, steps),
    }
}

/// Those of a lane in bytes.
fn numbers_by_bytes<L: Ledger>(
    alloc: Global,
    lane: &ByteLane,
    steps: &mut Steps<L>,
) -> Result<Vec<i64>, NoMemory>
    requires { lane.now.kind ≢ Kind.U64 }
    ensures numbers { IfOk result (λ v. v.items ≡ lane.now.items) }
    ensures cost { steps.new ≡ steps.old + size_of lane.now }
{
    numbers_in(alloc, lane.kind(), lane.bulk(steps))
}

/// The number of each group of as many bytes as the kind takes.
fn numbers_in(alloc: Global, kind: Kind, bytes: &[u8]) -> Result<Vec<i64>, NoMemory>
    requires { kind ≢ Kind.U64 }
    ensures { let n = length bytes.now / width kind in
        IfOk result (λ v. v.items ≡ map (number kind) (first_chunks (width kind) n bytes.now)) }
{
    let (ones, _) = bytes.as_chunks::<1>();
    let (twos, _) = bytes.as_chunks::<2>();
    let (fours, _) = bytes.as_chunks::<4>();
    let (eights, _) = bytes.as_chunks::<8>();
    match kind {
        Kind::Bool | Kind::U8 => widened::<1, u8>(alloc, ones),
        Kind::I8 => widened::<1, i8>(alloc, ones),
        Kind::I16 => widened::<2, i16>(alloc, twos),
        Kind::I32 => widened::<4, i32>(alloc, fours),
        Kind::I64 => widened::<8, i64>(alloc, eights),
        Kind::U16 => widened::<2, u16>(alloc, twos),
        Kind::U32 => widened::<4, u32>(alloc, fours),
        Kind::U64 => unreachable!(),
    }
}

/// The lane's numbers where none is negative, in one pass. A truth value is given as its byte.
pub fn nats_of<L: Ledger>(
    alloc: Global,
    lane: &Lane,
    steps: &mut Steps<L>,
) -> Result<Vec<u64>, NoMemory>
    requires { HasNats lane.now.kind lane.now.items }
    ensures numbers { IfOk result (λ v. integers v.items ≡ lane.now.items) }
    ensures cost { steps.new ≡ steps.old + size_of lane.now }
{
    match lane.held() {
        Held::Bytes(bytes) => nats_by_bytes(alloc, bytes, steps),
        Held::Run(places) => places.nats(alloc, steps),
    }
}

/// Those of a lane in bytes.
fn nats_by_bytes<L: Ledger>(
    alloc: Global,
    lane: &ByteLane,
    steps: &mut Steps<L>,
) -> Result<Vec<u64>, NoMemory>
    requires { HasNats lane.now.kind lane.now.items }
    ensures numbers { IfOk result (λ v. integers v.items ≡ lane.now.items) }
    ensures cost { steps.new ≡ steps.old + size_of lane.now }
{
    nats_in(alloc, lane.kind(), lane.bulk(steps))
}

/// The number of each group of as many bytes as the kind takes, unsigned.
fn nats_in(alloc: Global, kind: Kind, bytes: &[u8]) -> Result<Vec<u64>, NoMemory>
    ensures { let n = length bytes.now / width kind in
        IfOk result (λ v. v.items ≡ map (unsigned kind) (first_chunks (width kind) n bytes.now)) }
{
    let (ones, _) = bytes.as_chunks::<1>();
    let (twos, _) = bytes.as_chunks::<2>();
    let (fours, _) = bytes.as_chunks::<4>();
    let (eights, _) = bytes.as_chunks::<8>();
    match kind {
        Kind::Bool | Kind::I8 | Kind::U8 => naturals::<1, u8>(alloc, ones),
        Kind::I16 | Kind::U16 => naturals::<2, u16>(alloc, twos),
        Kind::I32 | Kind::U32 => naturals::<4, u32>(alloc, fours),
        Kind::I64 | Kind::U64 => naturals::<8, u64>(alloc, eights),
    }
}

/// The numbers of a lane of one byte a number, as they lie there.
pub fn byte_numbers<'a, L: Ledger>(lane: &Lane<'a>, steps: &mut Steps<L>) -> &'a [u8]
    requires { IsByteKind lane.now.kind }
    ensures numbers { integers result.now ≡ lane.now.items }
    ensures cost { steps.new ≡ steps.old + size_of lane.now }
{
    lane.narrow_bytes(steps)
}
