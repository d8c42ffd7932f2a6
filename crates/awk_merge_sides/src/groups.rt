//! Columns in groups, one for each part of a row or alternative of a union.
ghost use Rattle.std.specs.Prelude.{◌≡◌, ◌<◌, [], IfOk, OnOk, OnErr, length, map, replicate, Some};
ghost use Rattle.std.specs.Prelude.{slice_get};
ghost use Rattle.std.specs.List.{AllByRecursion};
ghost use Rattle.awk_unify.specs.View.{lift_of};
ghost use Rattle.awk_merge_sides.specs.Sides.{sides_of, IsCounted};
ghost use Rattle.awk_merge_sides.specs.Groups.{groups_of, with_side_at, AreCounted};

use crate::sides::Sides;
use awk_layout::Array;
use awk_types::NoMemory;
use awk_unify::Lift;
use std::alloc::Global;

/// Groups of columns, in order.
#[derive(Drop)]
pub struct Groups<'a> {
    groups: Vec<Sides<'a>>,
}

impl<'a> Groups<'a> {
    /// So many groups without columns.
    pub fn new(alloc: Global, n: usize) -> Result<Groups<'a>, NoMemory>
        ensures groups { IfOk result (λ g. groups_of g ≡ replicate n []) }
        ensures counted { IfOk result AreCounted }
    {
        let mut groups = Vec::new(alloc);
        for _i in 0..n {
            groups.push(Sides::new(alloc))?;
        }
        Ok(Groups { groups })
    }

    /// Puts a column at the end of a group, unless it has no items.
    pub fn push(
        &mut self,
        alloc: Global,
        j: usize,
        column: Array<'a>,
        lift: &Lift,
    ) -> Result<(), NoMemory>
        requires within { j < length (groups_of self.old) }
        requires counted { AreCounted self.old }
        ensures groups { let old = groups_of self.old in
            OnOk result (groups_of self.new ≡ with_side_at j old column.entry (lift_of lift.now)) }
        ensures counted { OnOk result (AreCounted self.new) }
        ensures err { OnErr result (groups_of self.new ≡ groups_of self.old) }
    {
        self.groups[j].push(alloc, column, lift)
    }

    /// How many groups there are.
    pub fn len(&self) -> usize
        ensures { result ≡ length (groups_of self.now) }
    {
        self.groups.len()
    }

    /// The group at a place.
    pub fn get(&self, j: usize) -> &Sides<'a>
        requires within { j < length (groups_of self.now) }
        requires counted { AreCounted self.now }
        ensures group { slice_get (groups_of self.now) j ≡ Some (sides_of result.now) }
        ensures counted { IsCounted result.now }
    {
        &self.groups[j]
    }
}
