//! A lane of one kind of numbers that is being made, in groups of bytes.
ghost use Rattle.std.specs.Prelude.{◌≡◌, ◌<◌, ◌≤◌, length, [], IfOk};
ghost use Rattle.awk_lanes.specs.Making.{with_item};
ghost use Rattle.awk_lanes.specs.Numbers.{width, int_of, IsOf};

use crate::kind::{Kind, Num};
use crate::lane::Lane;
use crate::maker::NumberMaker;
use crate::memory::{Arena, NoMemory};
use crate::words::{Word, first_bytes};
use bumpalo::collections::into_bump_slice;
use std::marker::{Model, PhantomData};

/// A type of numbers that stands for their kind.
pub trait NumberType {
    ghost use Rattle.awk_lanes.specs.declared.kind.Kind.{Kind};

    /// The kind.
    ghost kind: { Kind };

    /// The kind.
    fn kind() -> Kind
        ensures { result ≡ kind };
}

impl NumberType for i32 {
    ghost use Rattle.awk_lanes.specs.declared.kind.Kind.TheVariants as Kinds;

    ghost kind = { Kinds.I32 };

    #[inline(always)]
    fn kind() -> Kind {
        Kind::I32
    }
}

impl NumberType for u64 {
    ghost use Rattle.awk_lanes.specs.declared.kind.Kind.TheVariants as Kinds;

    ghost kind = { Kinds.U64 };

    #[inline(always)]
    fn kind() -> Kind {
        Kind::U64
    }
}

/// A lane of numbers of W bytes that is being made. All its memory is taken when the making begins.
/// No number is asked for its kind, which the type tells.
#[derive(Drop)]
pub struct GroupMaker<'a, const W: usize, T: NumberType> {
    groups: Vec<[u8; W], &'a Arena>,
    kind: PhantomData<T>,
}

impl<'a, const W: usize, T: NumberType> Model for GroupMaker<'a, W, T> {
    ghost use Rattle.awk_lanes.specs.Making.{Making};

    ghost Value = { Making };

    ghost use Rattle.std.specs.Prelude.{◌≡◌, ◌<◌, ◌≤◌, map, length, vec_len, vec_capacity};
    ghost use Rattle.awk_lanes.specs.Numbers.{number, width};
    ghost use Rattle.awk_lanes.specs.Ranges.{AreNumbers};
    ghost use Rattle.awk_lanes.specs.Words.{column};
    ghost use Rattle.awk_lanes.specs.Groups.{groups_by};

    ghost view = { λ m. record {
      kind = T.kind;
      room = vec_capacity m.groups;
      items = map (number T.kind) m.groups.items;
    } };

    ghost invariant = { λ m. (width T.kind ≡ W)
        × (vec_len m.groups ≡ length m.groups.items)
        × (m.groups.items ≡ groups_by (width T.kind) (map (number T.kind) m.groups.items))
        × AreNumbers (column T.kind (map (number T.kind) m.groups.items)) };
}

impl<'a, const W: usize, T: NumberType> GroupMaker<'a, W, T> {
    /// Begins a lane of n numbers.
    pub fn new(n: u64, arena: &'a Arena) -> Result<GroupMaker<'a, W, T>, NoMemory>
        requires { width T.kind ≡ W }
        ensures { IfOk result (λ m. m ≡ record { kind = T.kind; room = n; items = [] }) }
    {
        Ok(GroupMaker {
            groups: Vec::with_capacity(arena, n as usize)?,
            kind: PhantomData,
        })
    }

    /// Adds a number of the kind.
    #[inline(always)]
    pub fn push(&mut self, x: Num)
        requires room { length self.old.items < self.old.room }
        requires kind { IsOf T.kind x }
        ensures { self.new ≡ with_item self.old (int_of x) }
    {
        self.groups.push_reserved(first_bytes::<W>(x.bytes()));
    }

    /// The lane of the numbers pushed, in their order.
    pub fn finish(self) -> Lane<'a>
        ensures { result ≡ record { kind = T.kind; items = self.entry.items } }
    {
        let groups = into_bump_slice(self.groups);
        Lane::new(T::kind(), groups.as_flattened())
    }
}

impl<'a, const W: usize, T: NumberType> NumberMaker for GroupMaker<'a, W, T> {
    ghost making = { λ m. m };

    ghost kind = { λ _. T.kind };

    #[inline(always)]
    fn put(&mut self, x: Num) {
        self.push(x);
    }
}
