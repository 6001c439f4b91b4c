//! Reference sets, as the words of an array.
ghost use Rattle.std.specs.Prelude.{◌≡◌, [], map, IfOk, OnOk};
ghost use Rattle.serde_json.specs.View.{view, items_view};
ghost use Rattle.view_plan.specs.Words.{words_of, with_value, has_word, lacking};

use serde_json::Value;
use std::alloc::{AllocError, Global};
use std::collections::BTreeSet;

/// Takes in the word that a value is.
fn take_in<'a>(words: &mut BTreeSet<&'a str>, value: &'a Value) -> Result<(), AllocError>
    ensures { OnOk result (map (λ k. k.now) words.new.keys
        ≡ with_value (map (λ k. k.now) words.old.keys) (view value.now)) }
{
    match value {
        Value::String(word) => {
            words.insert(word.as_str())?;
            Ok(())
        }
        _ => Ok(()),
    }
}

/// The words of an array, each once, in order of their bytes.
pub(crate) fn words_of<'a>(
    alloc: Global,
    items: &'a [Value],
) -> Result<BTreeSet<&'a str>, AllocError>
    ensures { IfOk result (λ set. map (λ k. k.now) set.keys ≡ words_of [] (items_view items.now)) }
{
    let mut words = BTreeSet::new(alloc);
    for item in items {
        take_in(&mut words, item)?;
    }
    Ok(words)
}

/// Whether a word is one of a set.
fn has_word(words: &BTreeSet<&str>, word: &str) -> bool
    ensures { result ≡ has_word (map (λ k. k.now) words.now.keys) word.now }
{
    words.contains(word)
}

/// The words of a set that another one lacks, in order.
pub(crate) fn lacking<'a>(
    alloc: Global,
    words: &BTreeSet<&'a str>,
    other: &BTreeSet<&str>,
) -> Result<Vec<&'a str>, AllocError>
    ensures { IfOk result (λ list. map (λ k. k.now) list.items
        ≡ lacking (map (λ k. k.now) words.now.keys) (map (λ k. k.now) other.now.keys)) }
{
    let mut list = Vec::new(alloc);
    for word in words.iter() {
        if !has_word(other, word) {
            list.push(*word)?;
        }
    }
    Ok(list)
}
