//! Texts of configurations: how they are read.
ghost use Rattle.std.specs.Prelude.{◌≡◌, Some, IsSome, IfOk, IfErr, option_map};
ghost use Rattle.serde_json.specs.Find.{as_object};
ghost use Rattle.serde_json.specs.View.{view};
ghost use Rattle.view_leaves.specs.Reading.{first_line, json_of, text_json, IsRefused};

use serde_json::Value;
use std::alloc::{AllocError, Global};

/// Why a text is refused.
#[derive(Clone, Copy, Debug, PartialEq, Eq)]
pub enum TextError {
    /// It is no JSON text.
    NotJson,
    /// It is no object.
    NotObject,
    /// There was no memory.
    Memory,
}

/// A text's first line, without the line feed that ends it.
fn first_line(bytes: &[u8]) -> &[u8]
    ensures { result.now ≡ first_line bytes.now }
{
    for (i, byte) in bytes.iter().enumerate() {
        if *byte == b'\n' {
            return &bytes[..i];
        }
    }
    bytes
}

/// The JSON value that bytes are, if they are one.
fn json_of(alloc: Global, bytes: &[u8]) -> Result<Option<Value>, AllocError>
    ensures { IfOk result (λ found. option_map view found ≡ json_of bytes.now) }
{
    match Value::from_slice(alloc, bytes) {
        Ok(value) => Ok(Some(value)),
        Err(error) if error.is_memory() => Err(AllocError),
        Err(_) => Ok(None),
    }
}

/// The value of a text: that of its first line, where it is JSON, or else that of the whole.
fn text_json(alloc: Global, bytes: &[u8]) -> Result<Option<Value>, AllocError>
    ensures { IfOk result (λ found. option_map view found ≡ text_json bytes.now) }
{
    match json_of(alloc, first_line(bytes))? {
        Some(value) => Ok(Some(value)),
        None => json_of(alloc, bytes),
    }
}

/// Reads the text of a configuration. Lines behind the first are passed over where the first is
/// JSON.
///
/// # Errors
///
/// `NotJson` where neither the first line nor the whole is JSON; `NotObject` where the value is no
/// object; `Memory` where there is none left.
pub fn read_text(alloc: Global, bytes: &[u8]) -> Result<Value, TextError>
    ensures value { IfOk result (λ value. text_json bytes.now ≡ Some (view value)) }
    ensures object { IfOk result (λ value. IsSome (as_object (view value))) }
    ensures refused { IfErr result (IsRefused bytes.now) }
{
    match text_json(alloc, bytes) {
        Ok(Some(value)) if value.is_object() => Ok(value),
        Ok(Some(_)) => Err(TextError::NotObject),
        Ok(None) => Err(TextError::NotJson),
        Err(_) => Err(TextError::Memory),
    }
}
