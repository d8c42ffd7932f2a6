//! Makes a lane in an arena, a number at a time.
ghost use Rattle.std.specs.Prelude.{◌≡◌, ◌+◌, ◌*◌, ◌^◌, ◌<◌, ◌≤◌, ◌++◌, [], length, vec_len};
ghost use Rattle.std.specs.Prelude.{vec_capacity, IfOk};
ghost use Rattle.awk_lanes.specs.Numbers.{width, int_of, bytes_of, IsOf};
ghost use Rattle.awk_lanes.specs.Making.{with_item};

use crate::kind::{Kind, Num};
use crate::lane::Lane;
use crate::memory::{Arena, NoMemory};
use bumpalo::collections::into_bump_slice;
use std::alloc::AllocError;
use std::marker::Model;

/// Appends the bytes of a number, for which there is room.
#[inline(always)]
fn put<'a>(kind: Kind, x: Num, bytes: &mut Vec<u8, &'a Arena>)
    requires room { vec_len bytes.old + width kind ≤ vec_capacity bytes.old }
    requires kind { IsOf kind x }
    ensures items { bytes.new.items ≡ bytes.old.items ++ bytes_of kind (int_of x) }
    ensures len { vec_len bytes.new ≡ vec_len bytes.old + width kind }
    ensures capacity { vec_capacity bytes.old ≤ vec_capacity bytes.new }
{
    // There is room, so none of these fails.
    let _ = match (kind, x) {
        (Kind::Bool, Num::Truth(b)) => bytes.extend_from_slice(&[u8::from(b)]),
        (Kind::I8, Num::Int(z)) => bytes.extend_from_slice(&(z as i8).to_le_bytes()),
        (Kind::I16, Num::Int(z)) => bytes.extend_from_slice(&(z as i16).to_le_bytes()),
        (Kind::I32, Num::Int(z)) => bytes.extend_from_slice(&(z as i32).to_le_bytes()),
        (Kind::I64, Num::Int(z)) => bytes.extend_from_slice(&z.to_le_bytes()),
        (Kind::U8, Num::Nat(n)) => bytes.extend_from_slice(&(n as u8).to_le_bytes()),
        (Kind::U16, Num::Nat(n)) => bytes.extend_from_slice(&(n as u16).to_le_bytes()),
        (Kind::U32, Num::Nat(n)) => bytes.extend_from_slice(&(n as u32).to_le_bytes()),
        (Kind::U64, Num::Nat(n)) => bytes.extend_from_slice(&n.to_le_bytes()),
        _ => unreachable!(),
    };
}

/// What makes a lane, number by number.
pub trait NumberMaker {
    ghost use Rattle.std.specs.Prelude.{◌≡◌, ◌<◌, length};
    ghost use Rattle.awk_lanes.specs.Making.{Making, with_item};
    ghost use Rattle.awk_lanes.specs.Numbers.{int_of, IsOf};
    ghost use Rattle.awk_lanes.specs.declared.kind.Kind.{Kind};

    /// What is made so far.
    ghost making: { Self → Making };

    /// The kind of the numbers.
    ghost kind: { Self → Kind };

    /// Puts a number of the kind behind those so far.
    fn put(&mut self, x: Num)
        requires room { length (making self.old).items < (making self.old).room }
        requires kind { IsOf (kind self.old) x }
        ensures number { making self.new ≡ with_item (making self.old) (int_of x) }
        ensures kind { kind self.new ≡ kind self.old };
}

/// A lane that is being made. All its memory is taken when the making begins.
#[derive(Drop)]
pub struct LaneMaker<'a> {
    kind: Kind,
    room: u64,
    made: u64,
    bytes: Vec<u8, &'a Arena>,
}

impl<'a> Model for LaneMaker<'a> {
    ghost use Rattle.awk_lanes.specs.Making.{Making};

    ghost Value = { Making };

    ghost use Rattle.std.specs.Prelude.{◌≡◌, ◌*◌, ◌≤◌, length, vec_len, vec_capacity};
    ghost use Rattle.awk_lanes.specs.Numbers.{width, numbers};

    ghost view = { λ m. record {
      kind = m.kind;
      room = m.room;
      items = numbers m.kind m.made m.bytes.items;
    } };

    ghost invariant = { λ m. (m.made * width m.kind ≡ length m.bytes.items)
        × (vec_len m.bytes ≡ length m.bytes.items)
        × (m.room * width m.kind ≤ vec_capacity m.bytes) };
}

impl<'a> LaneMaker<'a> {
    /// Begins a lane of n numbers. Where their bytes are more than a u64 can count, it answers want
    /// of memory.
    pub fn new(kind: Kind, n: u64, arena: &'a Arena) -> Result<LaneMaker<'a>, NoMemory>
        ensures begun { IfOk result (λ m. m ≡ record { kind = kind; room = n; items = [] }) }
        ensures fits { IfOk result (λ _. n * width kind < 2 ^ 64) }
    {
        let size = n.checked_mul(kind.width() as u64).ok_or(AllocError)?;
        let bytes = Vec::with_capacity(arena, size as usize)?;
        Ok(LaneMaker {
            kind,
            room: n,
            made: 0,
            bytes,
        })
    }

    /// Adds a number of the lane's kind.
    #[inline(always)]
    pub fn push(&mut self, x: Num)
        requires room { length self.old.items < self.old.room }
        requires kind { IsOf self.old.kind x }
        ensures { self.new ≡ with_item self.old (int_of x) }
    {
        put(self.kind, x, &mut self.bytes);
        self.made += 1;
    }

    /// How many numbers there are so far.
    pub fn made(&self) -> u64
        ensures { result ≡ length self.now.items }
    {
        self.made
    }

    /// The lane of the numbers pushed, in their order, where all n are there.
    pub fn finish(self) -> Lane<'a>
        requires { length self.items ≡ self.room }
        ensures kind { result.kind ≡ self.entry.kind }
        ensures items { result.items ≡ self.entry.items }
    {
        Lane::whole(self.kind, self.made, into_bump_slice(self.bytes))
    }
}

impl<'a> NumberMaker for LaneMaker<'a> {
    ghost making = { λ m. m };

    ghost kind = { λ m. m.kind };

    #[inline(always)]
    fn put(&mut self, x: Num) {
        self.push(x);
    }
}
