//! How the values of leaves are spelled.
ghost use Rattle.std.specs.Prelude.{◌≡◌, ◌++◌, [], false, codes, if◌then◌else◌, OnOk};
ghost use Rattle.serde_json.specs.View.{view, items_view};
ghost use Rattle.view_leaves.specs.Spelling.{item_text, words_text, value_text, is_fraction};

use crate::spelling::push_word;
use serde_json::Value;
use std::alloc::{AllocError, Global};

/// Writes a member of a set, behind a comma where it isn't the first.
fn push_item(text: &mut Vec<u8>, later: bool, item: &Value) -> Result<(), AllocError>
    ensures { OnOk result (text.new.items ≡ text.old.items
        ++ ((if later then codes ", " else []) ++ item_text (view item.now))) }
{
    if later {
        text.extend_from_slice(b", ")?;
    }
    match item {
        Value::String(word) => push_word(text, word),
        _ => Ok(()),
    }
}

/// Writes the members of a set.
fn push_words(text: &mut Vec<u8>, items: &[Value]) -> Result<(), AllocError>
    ensures { OnOk result (text.new.items ≡ text.old.items
        ++ words_text false (items_view items.now)) }
{
    let mut later = false;
    for item in items {
        push_item(text, later, item)?;
        later = true;
    }
    Ok(())
}

/// Writes the value of a leaf. A number with a fraction or an exponent is written as JSON writes
/// it; the contract says nothing of its digits.
pub fn push_value(alloc: Global, text: &mut Vec<u8>, value: &Value) -> Result<(), AllocError>
    ensures { OnOk result (is_fraction (view value.now) ≡ false → text.new.items
        ≡ text.old.items ++ value_text (view value.now)) }
{
    match value {
        Value::Null => text.extend_from_slice(b"null"),
        Value::Bool(true) => text.extend_from_slice(b"true"),
        Value::Bool(false) => text.extend_from_slice(b"false"),
        Value::Number(_) => text.extend_from_slice(value.to_string(alloc)?.as_bytes()),
        Value::String(word) => push_word(text, word),
        Value::Array(items) => {
            text.push(b'[')?;
            push_words(text, items)?;
            text.push(b']')?;
            Ok(())
        }
        Value::Object(_) => text.extend_from_slice(b"{}"),
    }
}
