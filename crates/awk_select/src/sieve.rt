//! A lane that is being made of numbers, of which some are kept.
ghost use Rattle.std.specs.Prelude.{◌≡◌, ◌+◌, ◌<◌, ◌++◌, [], length, vec_len, vec_capacity, IfOk};
ghost use Rattle.std.specs.Int.{cast_unsigned, w64};
ghost use Rattle.awk_lanes.specs.Numbers.{int_of, IsOf};
ghost use Rattle.awk_lanes.specs.Words.{low_bytes};
ghost use Rattle.awk_lanes.specs.declared.kind.Kind.TheVariants as Kinds;
ghost use Rattle.awk_select.specs.Kept.{kept, Puts};

use awk_lanes::{Arena, Kind, Lane, NoMemory, Num};
use bumpalo::collections::into_bump_slice;
use std::marker::Model;

/// A lane of i64 that is being made. Each number is written behind those that stand, and the next
/// one over it where it is not kept: what is written hangs on no number.
#[derive(Drop)]
pub struct Sieve<'a> {
    groups: Vec<[u8; 8], &'a Arena>,
}

impl<'a> Model for Sieve<'a> {
    ghost use Rattle.awk_lanes.specs.Making.{Making};

    ghost Value = { Making };

    ghost use Rattle.std.specs.Prelude.{◌≡◌, map, length, vec_len, vec_capacity};
    ghost use Rattle.awk_lanes.specs.Numbers.{number};
    ghost use Rattle.awk_lanes.specs.declared.kind.Kind.TheVariants.{I64};
    ghost use Rattle.awk_select.specs.Kept.{AreGroups};

    ghost view = { λ m. record {
      kind = I64;
      room = vec_capacity m.groups;
      items = map (number I64) m.groups.items;
    } };

    ghost invariant = { λ m. (vec_len m.groups ≡ length m.groups.items)
        × AreGroups m.groups.items };
}

/// The bytes of a number of 64 bits.
#[inline(always)]
fn group_of(x: Num) -> [u8; 8]
    requires { IsOf Kinds.I64 x }
    ensures { result ≡ low_bytes 8 (cast_unsigned w64 (int_of x)) }
{
    match x {
        Num::Int(z) => z.to_le_bytes(),
        Num::Nat(_) | Num::Truth(_) => unreachable!(),
    }
}

/// Adds a group, and takes it away again where it is not kept.
#[inline(always)]
pub fn put_if<const W: usize>(groups: &mut Vec<[u8; W], &Arena>, keep: bool, group: [u8; W])
    requires { vec_len groups.old < vec_capacity groups.old }
    ensures items { groups.new.items ≡ groups.old.items ++ kept keep group.entry }
    ensures len { vec_len groups.new ≡ vec_len groups.old + length (kept keep group.entry) }
    ensures capacity { vec_capacity groups.new ≡ vec_capacity groups.old }
{
    groups.push_reserved(group);
    if keep {
        return;
    }
    let _ = groups.pop();
}

impl<'a> Sieve<'a> {
    /// No numbers, with room for so many. One more is written than is kept.
    pub fn new(room: u64, arena: &'a Arena) -> Result<Sieve<'a>, NoMemory>
        ensures { IfOk result (λ m. m ≡ record { kind = Kinds.I64; room = room; items = [] }) }
    {
        Ok(Sieve {
            groups: Vec::with_capacity(arena, room as usize)?,
        })
    }

    /// Adds a number where it is kept.
    #[inline(always)]
    pub fn push_if(&mut self, keep: bool, x: Num)
        requires room { length self.old.items < self.old.room }
        requires kind { IsOf Kinds.I64 x }
        ensures { Puts (kept keep (int_of x)) self.old self.new }
    {
        put_if(&mut self.groups, keep, group_of(x));
    }

    /// The lane of the numbers that are kept, in their order.
    pub fn finish(self) -> Lane<'a>
        ensures { result ≡ record { kind = Kinds.I64; items = self.entry.items } }
    {
        let groups = into_bump_slice(self.groups);
        Lane::new(Kind::I64, groups.as_flattened())
    }
}
