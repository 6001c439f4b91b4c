//! Words in order, each once, found by what they are.
ghost use Rattle.std.specs.Prelude.{◌≡◌, ◌<◌, ◌∷◌, ◌++◌, [], Some, not, length, position, slice_get, if◌then◌else◌, IfOk, OnErr};
ghost use Rattle.std.specs.List.{list_any};
ghost use Rattle.site_names.specs.Meeting.{same_word};

use conf_syntax::Name;
use indexmap::IndexSet;
use std::alloc::{AllocError, Global};
use std::marker::Model;

/// Words in order, each once.
#[derive(Drop)]
pub struct Names {
    set: IndexSet<Name>,
}

impl Model for Names {
    ghost use Rattle.std.specs.Prelude.{List, ℕ};

    ghost Value = { List (List ℕ) };

    ghost view = { λ names. names.set.keys };
}

impl Names {
    /// No words.
    pub fn new(alloc: Global) -> Self
        ensures { result ≡ [] }
    {
        Names {
            set: IndexSet::new(alloc),
        }
    }

    /// Adds a word behind the others, where it is none of them; whether it was added.
    pub fn insert(&mut self, alloc: Global, word: &[u8]) -> Result<bool, AllocError>
        ensures words { IfOk result (λ new. self.new ≡ (if list_any (same_word word.now) self.old
            then self.old else self.old ++ word.now ∷ [])) }
        ensures new { IfOk result (λ new. new ≡ not (list_any (same_word word.now) self.old)) }
        ensures refused { OnErr result (self.new ≡ self.old) }
    {
        let name = Name::of(alloc, word)?;
        Ok(self.set.insert(name)?)
    }

    /// How many there are.
    pub fn len(&self) -> usize
        ensures { result ≡ length self.now }
    {
        self.set.len()
    }

    /// The place of a word among them.
    pub fn place_of(&self, alloc: Global, word: &[u8]) -> Result<Option<usize>, AllocError>
        ensures { IfOk result (λ place. place ≡ position (same_word word.now) self.now) }
    {
        let name = Name::of(alloc, word)?;
        Ok(self.set.get_index_of(&name))
    }

    /// The word at a place.
    pub fn get(&self, place: usize) -> &[u8]
        requires { place < length self.now }
        ensures { slice_get self.now place ≡ Some result.now }
    {
        match self.set.get_index(place) {
            Some(name) => name.as_bytes(),
            None => b"",
        }
    }
}
