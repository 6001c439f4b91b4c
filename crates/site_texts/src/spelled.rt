//! The word of a name as text.
ghost use Rattle.std.specs.Prelude.{◌≡◌, string_bytes, IfOk};
ghost use Rattle.site_names.specs.Words.{word_of};

use site_names::word_of;
use std::alloc::{AllocError, Global};

/// The word of a name, as a string: it is ASCII.
pub fn word_text(alloc: Global, name: &[u8]) -> Result<String, AllocError>
    ensures { IfOk result (λ text. string_bytes text ≡ word_of name.now) }
{
    let word = word_of(alloc, name)?;
    let text = String::from_utf8_lossy(alloc, &word)?;
    Ok(text)
}
