//! What a user may name: attributes, parts and objects.
ghost use Rattle.std.specs.Prelude.{◌≡◌, map, IfOk};
ghost use Rattle.std.specs.List.{list_all, list_any};
ghost use Rattle.serde_json.specs.View.{view};
ghost use Rattle.view_leaves.specs.Views.{leaves_seen, step_seen};
ghost use Rattle.view_picture.specs.Named.{has_attribute, is_among, are_parts, is_object, is_object_named, has_object};
ghost use Rattle.view_picture.specs.Views.{paths_seen};

use crate::lookup::value_at;
use crate::mentions::guest_by;
use crate::ways::parts;
use serde_json::Value;
use std::alloc::{AllocError, Global};
use view_leaves::{Leaf, Step, push_path};

/// Whether some leaf is an attribute of this name.
pub fn has_attribute(leaves: &[Leaf<'_>], attribute: &str) -> bool
    ensures { result ≡ has_attribute attribute.now (leaves_seen leaves.now) }
{
    for leaf in leaves {
        if guest_by(&leaf.path, attribute).is_some() {
            return true;
        }
    }
    false
}

/// Whether a word is the path of one of these parts.
fn is_among(alloc: Global, parts: &[&[Step<'_>]], word: &str) -> Result<bool, AllocError>
    ensures { IfOk result (λ is. is ≡ is_among (paths_seen parts.now) word.now) }
{
    let mut text = Vec::new(alloc);
    for part in parts {
        text.clear();
        push_path(&mut text, part)?;
        if text.as_slice() == word.as_bytes() {
            return Ok(true);
        }
    }
    Ok(false)
}

/// Whether each of the words is the path of one of these parts.
fn are_among(alloc: Global, parts: &[&[Step<'_>]], words: &[&str]) -> Result<bool, AllocError>
    ensures { IfOk result (λ are. are
        ≡ list_all (is_among (paths_seen parts.now)) (map (λ w. w.now) words.now)) }
{
    for word in words {
        if !is_among(alloc, parts, word)? {
            return Ok(false);
        }
    }
    Ok(true)
}

/// Whether each of the words is the path of a part.
pub fn are_parts(alloc: Global, leaves: &[Leaf<'_>], words: &[&str]) -> Result<bool, AllocError>
    ensures { IfOk result (λ are. are
        ≡ are_parts (leaves_seen leaves.now) (map (λ w. w.now) words.now)) }
{
    if words.is_empty() {
        return Ok(true);
    }
    let are = are_among(alloc, &parts(alloc, leaves)?, words)?;
    Ok(are)
}

/// Whether an object stands at a path.
fn is_object(whole: &Value, path: &[Step<'_>]) -> bool
    ensures { result ≡ is_object (view whole.now) (map step_seen path.now) }
{
    match value_at(whole, path) {
        None => false,
        Some(value) => value.is_object(),
    }
}

/// Whether a word is the path of an object among these parts.
fn has_object_among(
    alloc: Global,
    whole: &Value,
    parts: &[&[Step<'_>]],
    word: &str,
) -> Result<bool, AllocError>
    ensures { IfOk result (λ has. has
        ≡ list_any (is_object_named (view whole.now) word.now) (paths_seen parts.now)) }
{
    let mut text = Vec::new(alloc);
    for part in parts {
        text.clear();
        push_path(&mut text, part)?;
        if text.as_slice() == word.as_bytes() && is_object(whole, part) {
            return Ok(true);
        }
    }
    Ok(false)
}

/// Whether a word is the path of an object.
pub fn has_object(
    alloc: Global,
    whole: &Value,
    leaves: &[Leaf<'_>],
    word: &str,
) -> Result<bool, AllocError>
    ensures { IfOk result (λ has. has
        ≡ has_object (view whole.now) (leaves_seen leaves.now) word.now) }
{
    let has = has_object_among(alloc, whole, &parts(alloc, leaves)?, word)?;
    Ok(has)
}
