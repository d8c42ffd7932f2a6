//! A lane of places that is being made.
ghost use Rattle.std.specs.Prelude.{◌≡◌, ◌<◌, length, [], IfOk};
ghost use Rattle.awk_lanes.specs.Making.{with_item};
ghost use Rattle.awk_lanes.specs.Numbers.{int_of, IsOf};
ghost use Rattle.awk_lanes.specs.declared.kind.Kind.TheVariants as Kinds;

use crate::kind::{Kind, Num};
use crate::lane::Lane;
use crate::maker::NumberMaker;
use crate::memory::{Arena, NoMemory};
use bumpalo::collections::into_bump_slice;
use std::marker::Model;

/// A lane of i64 that is being made. All its memory is taken when the making begins.
#[derive(Drop)]
pub struct IndexMaker<'a> {
    groups: Vec<[u8; 8], &'a Arena>,
}

impl<'a> Model for IndexMaker<'a> {
    ghost use Rattle.awk_lanes.specs.Making.{Making};

    ghost Value = { Making };

    ghost use Rattle.std.specs.Prelude.{◌≡◌, map, length, vec_len, vec_capacity};
    ghost use Rattle.awk_lanes.specs.Numbers.{number};
    ghost use Rattle.awk_lanes.specs.Ranges.{AreNumbers};
    ghost use Rattle.awk_lanes.specs.Words.{column};
    ghost use Rattle.awk_lanes.specs.declared.kind.Kind.TheVariants.{I64};
    ghost use Rattle.awk_lanes.specs.Groups.{groups_of};

    ghost view = { λ m. record {
      kind = I64;
      room = vec_capacity m.groups;
      items = map (number I64) m.groups.items;
    } };

    ghost invariant = { λ m. (vec_len m.groups ≡ length m.groups.items)
        × (m.groups.items ≡ groups_of (map (number I64) m.groups.items))
        × AreNumbers (column I64 (map (number I64) m.groups.items)) };
}

impl<'a> IndexMaker<'a> {
    /// Begins a lane of n numbers.
    pub fn new(n: u64, arena: &'a Arena) -> Result<IndexMaker<'a>, NoMemory>
        ensures { IfOk result (λ m. m ≡ record { kind = Kinds.I64; room = n; items = [] }) }
    {
        Ok(IndexMaker {
            groups: Vec::with_capacity(arena, n as usize)?,
        })
    }

    /// Adds a number of 64 bits.
    #[inline(always)]
    pub fn push(&mut self, x: Num)
        requires room { length self.old.items < self.old.room }
        requires kind { IsOf Kinds.I64 x }
        ensures { self.new ≡ with_item self.old (int_of x) }
    {
        match x {
            Num::Int(z) => self.groups.push_reserved(z.to_le_bytes()),
            Num::Nat(_) | Num::Truth(_) => unreachable!(),
        }
    }

    /// The lane of the numbers pushed, in their order.
    pub fn finish(self) -> Lane<'a>
        ensures { result ≡ record { kind = Kinds.I64; items = self.entry.items } }
    {
        let groups = into_bump_slice(self.groups);
        Lane::new(Kind::I64, groups.as_flattened())
    }
}

impl<'a> NumberMaker for IndexMaker<'a> {
    ghost making = { λ m. m };

    ghost kind = { λ _. Kinds.I64 };

    #[inline(always)]
    fn put(&mut self, x: Num) {
        self.push(x);
    }
}
