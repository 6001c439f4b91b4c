//! What stands in a cell.
ghost use Rattle.std.specs.Prelude.{◌≡◌, ◌==◌, IfOk, map};
ghost use Rattle.std.specs.Char.{is_ascii_digit};
ghost use Rattle.std.specs.List.{list_all, slice_split};
ghost use Rattle.site_tables.specs.Cells.{is_plain, is_name, is_amount};

use std::alloc::{AllocError, Global};

/// Whether a byte is no control byte.
fn is_plain(byte: u8) -> bool
    ensures { result ≡ is_plain byte }
{
    byte >= 32 && byte != 127
}

/// Whether no byte is a control byte.
fn are_plain(text: &[u8]) -> bool
    ensures { result ≡ list_all is_plain text.now }
{
    for byte in text {
        if !is_plain(*byte) {
            return false;
        }
    }
    true
}

/// Whether all bytes are digits.
fn are_digits(text: &[u8]) -> bool
    ensures { result ≡ list_all is_ascii_digit text.now }
{
    for byte in text {
        if !byte.is_ascii_digit() {
            return false;
        }
    }
    true
}

/// Whether a text can be a name: it isn't empty, and has no control byte.
pub fn is_name(text: &[u8]) -> bool
    ensures { result ≡ is_name text.now }
{
    !text.is_empty() && are_plain(text)
}

/// Whether a text is a whole number, of one to nine digits.
pub fn is_amount(text: &[u8]) -> bool
    ensures { result ≡ is_amount text.now }
{
    !text.is_empty() && text.len() <= 9 && are_digits(text)
}

/// The parts of a text between bars.
pub fn parts(alloc: Global, text: &[u8]) -> Result<Vec<&[u8]>, AllocError>
    ensures { IfOk result (λ parts. map (λ p. p.now) parts.items
        ≡ slice_split (λ b. b == 124) text.now) }
{
    text.split(|byte| *byte == b'|').collect(alloc)
}
