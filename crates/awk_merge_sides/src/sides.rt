//! Columns whose values become values of one type.
ghost use Rattle.std.specs.Prelude.{◌≡◌, ◌<◌, [], Some, IfOk, OnOk, OnErr, length, slice_get};
ghost use Rattle.awk_unify.specs.View.{lift_of};
ghost use Rattle.awk_merge_sides.specs.Sides.{side_of, sides_of, with_side, IsCounted};

use awk_layout::Array;
use awk_types::NoMemory;
use awk_unify::{Lift, copy_lift};
use std::alloc::{AllocError, Global};

/// A column, and how its values become values of another type.
#[derive(Drop)]
pub struct Side<'a> {
    pub column: Array<'a>,
    pub lift: Lift,
}

/// Columns in order, each with how its values become values of one type. A column without items is
/// left out, so each has an item.
#[derive(Drop)]
pub struct Sides<'a> {
    sides: Vec<Side<'a>>,
    /// How many items they have together.
    total: u64,
}

impl<'a> Sides<'a> {
    /// No columns.
    pub fn new(alloc: Global) -> Sides<'a>
        ensures none { sides_of result ≡ [] }
        ensures counted { IsCounted result }
    {
        Sides {
            sides: Vec::new(alloc),
            total: 0,
        }
    }

    /// Puts a column at the end, unless it has no items. No memory holds 2^63 items.
    pub fn push(&mut self, alloc: Global, column: Array<'a>, lift: &Lift) -> Result<(), NoMemory>
        requires counted { IsCounted self.old }
        ensures sides { OnOk result
            (sides_of self.new ≡ with_side (sides_of self.old) column.entry (lift_of lift.now)) }
        ensures counted { OnOk result (IsCounted self.new) }
        ensures err { OnErr result (sides_of self.new ≡ sides_of self.old) }
        ensures total { OnErr result (self.new.total ≡ self.old.total) }
    {
        let n = column.len();
        if n == 0 {
            return Ok(());
        }
        let total = self.total + n;
        if total > i64::MAX as u64 {
            return Err(AllocError);
        }
        let lift = copy_lift(alloc, lift)?;
        self.sides.push(Side { column, lift })?;
        self.total = total;
        Ok(())
    }

    /// How many columns there are.
    pub fn len(&self) -> usize
        ensures { result ≡ length (sides_of self.now) }
    {
        self.sides.len()
    }

    /// How many items they have together.
    pub fn total(&self) -> u64
        ensures { result ≡ self.now.total }
    {
        self.total
    }

    /// The column at a place.
    pub fn get(&self, i: usize) -> &Side<'a>
        requires { i < length (sides_of self.now) }
        ensures { slice_get (sides_of self.now) i ≡ Some (side_of result.now) }
    {
        &self.sides[i]
    }
}
