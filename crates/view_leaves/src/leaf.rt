//! Leaves, and which values are leaves.
ghost use Rattle.std.specs.Prelude.{◌≡◌, string_bytes};
ghost use Rattle.serde_json.specs.View.{items_view, members_view};
ghost use Rattle.view_leaves.specs.Leaves.{all_words, is_class, has_parts};

use crate::path::Step;
use serde_json::{Map, Value};

/// A leaf of a configuration: where it stands, and its value.
#[derive(Drop)]
pub struct Leaf<'a> {
    /// The steps from the whole to the leaf.
    pub path: Vec<Step<'a>>,
    /// Its value: no object with parts, and no array but one of strings.
    pub value: &'a Value,
}

/// Whether each of the values is a string.
pub(crate) fn all_words(items: &[Value]) -> bool
    ensures { result ≡ all_words (items_view items.now) }
{
    for item in items {
        if !item.is_string() {
            return false;
        }
    }
    true
}

/// Whether a key is the one that tells an object's class.
pub(crate) fn is_class(key: &String) -> bool
    ensures { result ≡ is_class (string_bytes key.now) }
{
    key.as_str() == "class"
}

/// Whether an object has a key other than `class`.
pub(crate) fn has_parts(members: &Map<String, Value>) -> bool
    ensures { result ≡ has_parts (members_view members.now.entries) }
{
    for (key, _member) in members.iter() {
        if !is_class(key) {
            return true;
        }
    }
    false
}
