//! A text for each of many names.
ghost use Rattle.std.specs.Prelude.{◌≡◌, [], ℕ, List, Some, option_map, if◌then◌else◌, IfOk, OnOk};
ghost use Rattle.site_names.specs.Meeting.{same_word};
ghost use Rattle.site_texts.specs.Pairs.{under};

use conf_syntax::Name;
use indexmap::IndexMap;
use std::alloc::{AllocError, Global};
use std::marker::Model;

/// Texts that are found by names.
pub struct Texts<'a> {
    stored: IndexMap<Name, &'a [u8]>,
}

impl<'a> Drop for Texts<'a> {
    fn drop(self) {
        let Texts { stored: _ } = self;
    }
}

impl<'a> Model for Texts<'a> {
    ghost use Rattle.std.specs.Prelude.{List, map};
    ghost use Rattle.site_texts.specs.Pairs.{NamedText};
    ghost use Rattle.site_texts.specs.Entries.{entry_seen};

    ghost Value = { List NamedText };

    ghost view = { λ texts. map entry_seen texts.stored.entries };
}

impl<'a> Texts<'a> {
    /// No texts.
    pub fn new(alloc: Global) -> Self
        ensures { result ≡ [] }
    {
        Texts {
            stored: IndexMap::new(alloc),
        }
    }

    /// Puts a text under a name, in place of what stood there.
    pub fn put(&mut self, alloc: Global, name: &[u8], text: &'a [u8]) -> Result<(), AllocError>
        ensures { OnOk result ((q : List ℕ) → under q self.new
            ≡ (if same_word name.now q then Some text.entry.now else under q self.old)) }
    {
        let key = Name::of(alloc, name)?;
        self.stored.insert(key, text)?;
        Ok(())
    }

    /// What stands under a name.
    pub fn get(&self, alloc: Global, name: &[u8]) -> Result<Option<&'a [u8]>, AllocError>
        ensures { IfOk result (λ text. option_map (λ t. t.now) text ≡ under name.now self.now) }
    {
        let key = Name::of(alloc, name)?;
        Ok(self.stored.get(&key).copied())
    }
}
