//! The places of many names, found by a map and not by a walk over them.
#![tactic(auto)]

ghost use Rattle.std.specs.Prelude.{◌≡◌, is_some, IfOk, IfSome};
ghost use Rattle.awk_types.specs.Names.{are_distinct};
ghost use Rattle.awk_types.specs.View.{names_of, fields_of};
ghost use Rattle.awk_name_places.specs.Places.{place_in};

use awk_types::{Fields, Names, NoMemory};
use indexmap::IndexSet;
use std::alloc::Global;
use std::marker::Model;

/// Names in order, no name twice.
#[derive(Drop)]
pub struct NamePlaces<'t> {
    names: IndexSet<&'t str>,
}

impl<'t> Model for NamePlaces<'t> {
    ghost use Rattle.std.specs.Prelude.{List, ℕ, map};

    ghost Value = { List (List ℕ) };

    ghost view = { λ s. map (λ k. k.now) s.names.keys };
}

impl<'t> NamePlaces<'t> {
    /// The names; none exactly where one comes twice.
    pub fn of_names(alloc: Global, names: &'t Names) -> Result<Option<NamePlaces<'t>>, NoMemory>
        ensures names { IfOk result (λ found. IfSome found (λ places. places ≡ names.now)) }
        ensures distinct { IfOk result (λ found. is_some found ≡ are_distinct names.now) }
    {
        let mut set = IndexSet::new(alloc);
        for i in 0..names.len() {
            if !set.insert(names.get(i).as_str())? {
                return Ok(None);
            }
        }
        Ok(Some(NamePlaces { names: set }))
    }

    /// The names of fields; none exactly where one comes twice.
    pub fn of_fields(alloc: Global, fields: &'t Fields) -> Result<Option<NamePlaces<'t>>, NoMemory>
        ensures names { IfOk result (λ found. IfSome found (λ places.
            places ≡ names_of (fields_of fields.now))) }
        ensures distinct { IfOk result (λ found.
            is_some found ≡ are_distinct (names_of (fields_of fields.now))) }
    {
        let mut names = IndexSet::new(alloc);
        for i in 0..fields.len() {
            if !names.insert(fields.get(i).name.as_str())? {
                return Ok(None);
            }
        }
        Ok(Some(NamePlaces { names }))
    }

    /// The place of a name, or the number of names where it is not there.
    pub fn place(&self, name: &str) -> usize
        ensures { result ≡ place_in self.now name.now }
    {
        match self.names.get_index_of(name) {
            Some(place) => place,
            None => self.names.len(),
        }
    }
}
