//! Lists of paths.
ghost use Rattle.std.specs.Prelude.{◌≡◌};

use conf_syntax::PathText;
use std::marker::Model;

/// Paths of objects, in order.
#[derive(Debug)]
pub struct Paths {
    items: Vec<PathText>,
}

impl Drop for Paths {
    fn drop(self) {
        let Paths { items: _ } = self;
    }
}

impl Model for Paths {
    ghost use Rattle.std.specs.Prelude.{List, ℕ};

    ghost Value = { List (List ℕ) };

    ghost view = { λ list. list.items.items };
}

impl Paths {
    /// The list of these paths.
    pub fn of(items: Vec<PathText>) -> Self
        ensures items { result ≡ items.items }
    {
        Paths { items }
    }

    /// The paths, in order.
    pub fn items(&self) -> &[PathText]
        ensures items { result.now ≡ self.now }
    {
        &self.items
    }
}
