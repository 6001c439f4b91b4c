//! Names of files.
ghost use Rattle.std.specs.Prelude.{◌≡◌, string_bytes};

use std::marker::Model;

/// The name of a file, as it stands among the words.
#[derive(Debug)]
pub struct FileName {
    name: String,
}

impl Drop for FileName {
    fn drop(self) {
        let FileName { name: _ } = self;
    }
}

impl Model for FileName {
    ghost use Rattle.std.specs.Prelude.{List, ℕ, string_bytes};

    ghost Value = { List ℕ };

    ghost view = { λ file. string_bytes file.name };
}

impl FileName {
    /// The file of this name.
    pub fn of(name: String) -> Self
        ensures bytes { result ≡ string_bytes name }
    {
        FileName { name }
    }

    /// The name.
    pub fn as_str(&self) -> &str
        ensures bytes { result.now ≡ self.now }
    {
        self.name.as_str()
    }
}
