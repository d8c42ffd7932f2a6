//! The numbers of a lane, each exact.
ghost use Rattle.std.specs.Prelude.{◌≡◌, ◌-◌, ◌≤◌, length, IfOk};
ghost use Rattle.std.specs.List.{slice_range};
ghost use Rattle.awk_numbers.specs.Folds.{whole_numbers, lane_numbers};

use crate::row::{Cells, Row};
use awk_lanes::{Arena, Kind, Lane, NoMemory, Steps};
use std::sync::ledger::Ledger;

/// Numbers as they lie in a lane, of which none needs more than 64 bits.
#[derive(Clone, Copy)]
pub enum Whole<'a> {
    /// Truth values, each as its byte.
    Truths(&'a [u8]),
    I8(&'a [[u8; 1]]),
    I16(&'a [[u8; 2]]),
    I32(&'a [[u8; 4]]),
    I64(&'a [[u8; 8]]),
    U8(&'a [[u8; 1]]),
    U16(&'a [[u8; 2]]),
    U32(&'a [[u8; 4]]),
    U64(&'a [[u8; 8]]),
}

/// What one pass over numbers tells of them.
pub(crate) trait Pass {
    ghost use Rattle.std.specs.Prelude.{ℤ, List};

    type Told;

    /// What is told of numbers.
    ghost tells: { Self → List ℤ → Self.Told → Type 0 };

    /// What is told of the numbers of a row.
    fn over<R: Row>(&self, row: &R) -> Self::Told
        requires few { length (R.numbers row.now) ≤ 1073741824 }
        ensures { tells self.now (R.numbers row.now) result };
}

/// The numbers of a lane, where they lie; a truth value counts as 0 or 1.
pub fn whole_of<'a: 'b, 'b, L: Ledger>(
    lane: &Lane<'a>,
    arena: &'b Arena,
    steps: &mut Steps<L>,
) -> Result<Whole<'b>, NoMemory>
    ensures numbers { IfOk result (λ r. whole_numbers r ≡ lane_numbers lane.now) }
{
    let bytes = lane.bulk(arena, steps)?;
    match lane.kind() {
        Kind::Bool => Ok(Whole::Truths(bytes)),
        Kind::I8 => Ok(Whole::I8(bytes.as_chunks::<1>().0)),
        Kind::I16 => Ok(Whole::I16(bytes.as_chunks::<2>().0)),
        Kind::I32 => Ok(Whole::I32(bytes.as_chunks::<4>().0)),
        Kind::I64 => Ok(Whole::I64(bytes.as_chunks::<8>().0)),
        Kind::U8 => Ok(Whole::U8(bytes.as_chunks::<1>().0)),
        Kind::U16 => Ok(Whole::U16(bytes.as_chunks::<2>().0)),
        Kind::U32 => Ok(Whole::U32(bytes.as_chunks::<4>().0)),
        Kind::U64 => Ok(Whole::U64(bytes.as_chunks::<8>().0)),
    }
}

impl<'a> Whole<'a> {
    /// What a pass tells of the numbers from a start below a stop.
    pub(crate) fn told<P: Pass>(&self, pass: &P, start: u64, stop: u64) -> P::Told
        requires order { start ≤ stop }
        requires within { stop ≤ length (whole_numbers self.now) }
        requires few { stop - start ≤ 1073741824 }
        ensures { P.tells pass.now (slice_range (whole_numbers self.now) start stop) result }
    {
        let part = start as usize..stop as usize;
        match self {
            Whole::Truths(bytes) => {
                pass.over(&Cells::<1, bool>::new(bytes[part].as_chunks::<1>().0))
            }
            Whole::I8(groups) => pass.over(&Cells::<1, i8>::new(&groups[part])),
            Whole::I16(groups) => pass.over(&Cells::<2, i16>::new(&groups[part])),
            Whole::I32(groups) => pass.over(&Cells::<4, i32>::new(&groups[part])),
            Whole::I64(groups) => pass.over(&Cells::<8, i64>::new(&groups[part])),
            Whole::U8(groups) => pass.over(&Cells::<1, u8>::new(&groups[part])),
            Whole::U16(groups) => pass.over(&Cells::<2, u16>::new(&groups[part])),
            Whole::U32(groups) => pass.over(&Cells::<4, u32>::new(&groups[part])),
            Whole::U64(groups) => pass.over(&Cells::<8, u64>::new(&groups[part])),
        }
    }
}
