//! The arguments of a call that are no expressions.
ghost use Rattle.std.specs.Prelude.{◌≡◌, ◌<◌, ◌++◌, ◌∷◌, [], length, slice_get, Some, OnOk, OnErr};

use awk_types::{Name, Names, NoMemory, Wholes};
use std::alloc::Global;
use std::marker::Model;

/// An argument of a call that is no expression.
#[derive(Debug, Drop)]
pub enum FixedArg {
    /// A place, an axis, a bound or a step.
    Place(i64),
    /// A number of items, of places or of levels.
    Count(u64),
    /// A bound that is null.
    Missing,
    /// A truth value.
    Truth(bool),
    /// A name, or a primitive.
    Text(Name),
    /// Names, none of which comes twice.
    Texts(Names),
    /// Edges: at least two numbers, each greater than the one before.
    Wholes(Wholes),
}

/// Such arguments in order.
#[derive(Debug, Drop)]
pub struct Fixed {
    args: Vec<FixedArg>,
}

impl Model for Fixed {
    ghost use Rattle.std.specs.Prelude.{List};
    ghost use Rattle.std.specs.Coded.{coded_list};
    ghost use Rattle.awk_expr.specs.declared.fixed.FixedArg.{FixedArg};
    ghost use Rattle.awk_expr.specs.FixedCode.{coded_fixed};

    ghost Value = { List FixedArg };

    ghost coded = { coded_list coded_fixed };

    ghost view = { λ a. a.args.items };
}

impl Fixed {
    /// No arguments.
    pub fn new(alloc: Global) -> Fixed
        ensures { result ≡ [] }
    {
        Fixed {
            args: Vec::new(alloc),
        }
    }

    /// Puts an argument at the end.
    pub fn push(&mut self, item: FixedArg) -> Result<(), NoMemory>
        ensures ok { OnOk result (self.new ≡ self.old ++ item ∷ []) }
        ensures err { OnErr result (self.new ≡ self.old) }
    {
        self.args.push(item)?;
        Ok(())
    }

    /// How many there are.
    pub fn len(&self) -> usize
        ensures { result ≡ length self.now }
    {
        self.args.len()
    }

    /// The argument at a place.
    pub fn get(&self, i: usize) -> &FixedArg
        requires { i < length self.now }
        ensures { slice_get self.now i ≡ Some result.now }
    {
        &self.args[i]
    }
}
