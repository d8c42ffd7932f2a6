//! Names of fields.
ghost use Rattle.std.specs.Prelude.{◌≡◌, ◌<◌, [], ◌∷◌, ◌++◌, length, option_map, string_bytes};
ghost use Rattle.std.specs.Prelude.{IfOk, OnErr, OnOk, slice_get};
ghost use Rattle.awk_types.specs.Names.{is_among};
ghost use Rattle.awk_types.specs.Names as said;

use std::alloc::{AllocError, Global};
use std::collections::BTreeSet;
use std::marker::Model;

/// Want of memory.
pub type NoMemory = AllocError;

/// A name of a field, which is any text.
#[derive(Debug, Drop)]
pub struct Name {
    text: String,
}

impl Model for Name {
    ghost use Rattle.std.specs.Prelude.{List, ℕ, string_bytes};

    ghost Value = { List ℕ };

    ghost view = { λ a. string_bytes a.text };
}

impl Name {
    /// The name with this text.
    pub fn new(alloc: Global, text: &str) -> Result<Name, NoMemory>
        ensures { IfOk result (λ name. name ≡ text.now) }
    {
        Ok(Name {
            text: String::from_str(alloc, text)?,
        })
    }

    /// The name's text.
    pub fn as_str(&self) -> &str
        ensures { result.now ≡ self.now }
    {
        &self.text
    }

    /// The name's text, which the caller owns.
    pub fn into_string(self) -> String
        ensures { string_bytes result ≡ self }
    {
        self.text
    }

    /// An equal name.
    pub fn copy(&self, alloc: Global) -> Result<Name, NoMemory>
        ensures { IfOk result (λ name. name ≡ self.now) }
    {
        Name::new(alloc, &self.text)
    }
}

/// Names in order.
#[derive(Debug, Drop)]
pub struct Names {
    items: Vec<Name>,
}

impl Model for Names {
    ghost use Rattle.std.specs.Prelude.{List, ℕ};

    ghost Value = { List (List ℕ) };

    ghost view = { λ a. a.items.items };
}

impl Names {
    /// No names.
    pub fn new(alloc: Global) -> Names
        ensures { result ≡ [] }
    {
        Names {
            items: Vec::new(alloc),
        }
    }

    /// Puts a name at the end.
    pub fn push(&mut self, item: Name) -> Result<(), NoMemory>
        ensures ok { OnOk result (self.new ≡ self.old ++ item ∷ []) }
        ensures err { OnErr result (self.new ≡ self.old) }
    {
        self.items.push(item)?;
        Ok(())
    }

    /// How many names there are.
    pub fn len(&self) -> usize
        ensures { result ≡ length self.now }
    {
        self.items.len()
    }

    /// The name at a place.
    pub fn get(&self, i: usize) -> &Name
        requires { i < length self.now }
        ensures { slice_get self.now i ≡ Some result.now }
    {
        &self.items[i]
    }

    /// Whether a text is one of the names.
    pub fn contains(&self, text: &str) -> bool
        ensures { result ≡ is_among text.now self.now }
    {
        for item in &self.items {
            if item.as_str() == text {
                return true;
            }
        }
        false
    }

    /// Whether no name comes twice. The names are not copied.
    pub fn are_distinct(&self, alloc: Global) -> Result<bool, NoMemory>
        ensures { IfOk result (λ b. b ≡ said.are_distinct self.now) }
    {
        let mut seen: BTreeSet<&str> = BTreeSet::new(alloc);
        for i in 0..self.len() {
            if !seen.insert(self.get(i).as_str())? {
                return Ok(false);
            }
        }
        Ok(true)
    }

    /// Equal names.
    pub fn copy(&self, alloc: Global) -> Result<Names, NoMemory>
        ensures { IfOk result (λ names. names ≡ self.now) }
    {
        let mut items = Vec::new(alloc);
        for item in &self.items {
            items.push(item.copy(alloc)?)?;
        }
        Ok(Names { items })
    }
}

/// Equal names, where there are names.
pub fn copy_names(alloc: Global, names: Option<&Names>) -> Result<Option<Names>, NoMemory>
    ensures { IfOk result (λ made. made ≡ option_map (λ names. names.now) names.entry) }
{
    match names {
        Some(names) => Ok(Some(names.copy(alloc)?)),
        None => Ok(None),
    }
}
