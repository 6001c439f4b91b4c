//! Former texts: how they are read.
ghost use Rattle.std.specs.Prelude.{◌≡◌, Some, IsSome, IfOk, IfErr};
ghost use Rattle.serde_json.specs.Find.{as_object};
ghost use Rattle.config_json.specs.Reading.{json_of, value_read, IsRefused};

use serde_json::Value;
use std::alloc::Global;

/// A JSON value that was read from a former text. Clauses see it as that value, by `json_of`.
pub struct ConfigText {
    pub(crate) value: Value,
}

impl Drop for ConfigText {
    fn drop(self) {
        let ConfigText { value: _ } = self;
    }
}

/// Why a former text is refused.
#[derive(Clone, Copy, Debug, PartialEq, Eq)]
pub enum FormerError {
    /// It is no JSON text.
    NotJson,
    /// It is no object.
    NotObject,
    /// There was no memory.
    Memory,
}

/// Reads a former text.
///
/// # Errors
///
/// `NotJson` where `serde_json` reads no value, as for bytes that aren't UTF-8; `NotObject` where
/// the value is no object; `Memory` where there is none left.
pub fn read_config(alloc: Global, bytes: &[u8]) -> Result<ConfigText, FormerError>
    ensures value { IfOk result (λ former. value_read bytes.now ≡ Some (json_of former)) }
    ensures object { IfOk result (λ former. IsSome (as_object (json_of former))) }
    ensures refused { IfErr result (IsRefused bytes.now) }
{
    let value = match Value::from_slice(alloc, bytes) {
        Ok(value) => value,
        Err(error) if error.is_memory() => return Err(FormerError::Memory),
        Err(_) => return Err(FormerError::NotJson),
    };
    if !value.is_object() {
        return Err(FormerError::NotObject);
    }
    Ok(ConfigText { value })
}
