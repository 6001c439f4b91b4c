//! Lines made of pieces.
ghost use Rattle.std.specs.Prelude.{◌≡◌, ◌++◌, IfOk, OnOk, map};
ghost use Rattle.site_model.specs.Lines.{joined, values_word, nines};

use site_names::word_with;
use std::alloc::{AllocError, Global};

/// No text is made longer once it has more bytes than these: no model has so many.
const MOST_BYTES: usize = 16_777_216;

/// Adds pieces behind a text.
///
/// # Errors
///
/// Want of memory, and a text that is longer than `MOST_BYTES`.
pub(crate) fn push_all(text: &mut Vec<u8>, pieces: &[&[u8]]) -> Result<(), AllocError>
    ensures { OnOk result (text.new.items
        ≡ text.old.items ++ joined (map (λ p. p.now) pieces.now)) }
{
    if text.len() > MOST_BYTES {
        return Err(AllocError);
    }
    for piece in pieces {
        text.extend_from_slice(piece)?;
    }
    Ok(())
}

/// The name of the enumeration of a label's values.
pub(crate) fn values_word(alloc: Global, column: &[u8]) -> Result<Vec<u8>, AllocError>
    ensures { IfOk result (λ word. word.items ≡ values_word column.now) }
{
    word_with(alloc, column, b"s")
}

/// The greatest number of so many digits.
pub(crate) fn nines(alloc: Global, digits: usize) -> Result<Vec<u8>, AllocError>
    ensures { IfOk result (λ text. text.items ≡ nines digits) }
{
    vec![in alloc; b'9'; digits]
}
