//! The variables that lines have bound.
ghost use Rattle.std.specs.Prelude.{◌≡◌, ◌<◌, [], length, slice_get, Some, IfSome, OnOk, OnErr};
ghost use Rattle.std.specs.Prelude.{option_map};
ghost use Rattle.awk_layout.specs.Datum.{IsDatum};
ghost use Rattle.awk_eval.specs.Bindings.{look_up, bind, names};

use awk_layout::Datum;
use awk_types::{Name, NoMemory};
use indexmap::IndexMap;
use std::alloc::Global;
use std::marker::Model;

/// The variables of a session, in the order of first binding.
#[derive(Drop)]
pub struct Env<'a> {
    variables: IndexMap<String, Datum<'a>>,
}

impl<'a> Model for Env<'a> {
    ghost use Rattle.awk_eval.specs.Variables.{Variables, coded_variables};

    ghost Value = { Variables };

    ghost coded = { coded_variables };

    ghost use Rattle.std.specs.List.{AllByRecursion};
    ghost use Rattle.awk_eval.specs.Entries.{variables_of, HoldsDatum};

    ghost view = { λ e. variables_of e.variables.entries };

    ghost invariant = { λ e. AllByRecursion HoldsDatum (variables_of e.variables.entries) };
}

impl<'a> Env<'a> {
    /// No variables.
    pub fn new(alloc: Global) -> Env<'a>
        ensures { result ≡ [] }
    {
        Env {
            variables: IndexMap::new(alloc),
        }
    }

    /// Binds a name. One that is bound already keeps its place, and a new one goes last. After want
    /// of memory the variables are as before, and the name and the datum are dropped.
    pub fn bind(&mut self, name: Name, x: Datum<'a>) -> Result<(), NoMemory>
        requires { IsDatum x }
        ensures ok { OnOk result (self.new ≡ bind name x.entry self.old) }
        ensures err { OnErr result (self.new ≡ self.old) }
    {
        let_go(self.variables.insert(name.into_string(), x)?);
        Ok(())
    }

    /// What a name is bound to.
    pub fn get(&self, name: &str) -> Option<&Datum<'a>>
        ensures found { option_map (λ x. x.now) result ≡ look_up name.now self.now }
        ensures datum { IfSome result (λ x. IsDatum x.now) }
    {
        self.variables.get(name)
    }

    /// How many names are bound.
    pub fn len(&self) -> usize
        ensures { result ≡ length self.now }
    {
        self.variables.len()
    }

    /// The name at a place.
    pub fn name_at(&self, i: usize) -> &str
        requires { i < length self.now }
        ensures { slice_get (names self.now) i ≡ Some result.now }
    {
        match self.variables.get_index(i) {
            Some((name, _)) => name.as_str(),
            None => unreachable!(),
        }
    }
}

// Drops what a name was bound to before.
fn let_go(_before: Option<Datum<'_>>) {}
