//! Which leaves refer to which words.
ghost use Rattle.std.specs.Prelude.{◌≡◌, ℕ, List, [], map, option_map, if◌then◌else◌, IfOk, OnOk};
ghost use Rattle.std.specs.Borrow.{Bor};
ghost use Rattle.serde_json.specs.View.{view, items_view};
ghost use Rattle.view_leaves.specs.Views.{step_seen, leaf_seen, leaves_seen};
ghost use Rattle.view_picture.specs.Mentions.{owner, is_named, is_same, has_item, has_word, refers, numbered};
ghost use Rattle.view_picture.specs.Mentioned.{mention_seen, mentioned, with_mention, is_noted, is_one, guest_by};

use indexmap::IndexMap;
use serde_json::Value;
use std::alloc::{AllocError, Global};
use view_leaves::{Leaf, Step};

/// That a leaf refers to a word: the leaf's number, and who has it.
#[derive(Clone, Copy)]
pub(crate) struct Mention<'l, 'a> {
    pub number: usize,
    pub guest: &'l [Step<'a>],
}

/// The mentions of each word.
pub(crate) type Mentions<'l, 'a> = IndexMap<&'a [u8], Vec<Mention<'l, 'a>>>;

/// Who has the leaf of this path, where its attribute has this name.
pub fn guest_by<'l, 'a>(path: &'l [Step<'a>], attribute: &str) -> Option<&'l [Step<'a>]>
    ensures { option_map (λ p. map step_seen p.now) result
        ≡ guest_by attribute.now (map step_seen path.now) }
{
    match path.split_last() {
        Some((Step::Key(key), owner)) => {
            if *key != attribute {
                None
            } else if owner.is_empty() {
                Some(path)
            } else {
                Some(owner)
            }
        }
        Some((Step::Index(_), _)) => None,
        None => None,
    }
}

/// Takes the mentions of a word out.
fn take_out<'l, 'a>(
    alloc: Global,
    mentions: &mut Mentions<'l, 'a>,
    word: &'a [u8],
) -> Vec<Mention<'l, 'a>>
    ensures taken { map mention_seen result.items ≡ mentioned mentions.old.entries word.entry }
    ensures left { (w : Bor (List ℕ)) → mentioned mentions.new.entries w
        ≡ (if is_one word.now w.now then [] else mentioned mentions.old.entries w) }
{
    match mentions.swap_remove(word) {
        Some(list) => list,
        None => Vec::new(alloc),
    }
}

/// Whether the last of these mentions is by the leaf of this number.
fn is_noted(list: &[Mention<'_, '_>], number: usize) -> bool
    ensures { result ≡ is_noted (map mention_seen list.now) number }
{
    match list.split_last() {
        Some((last, _)) => last.number == number,
        None => false,
    }
}

/// A word's mentions with this one, unless the last is of the same leaf.
fn with_mention<'l, 'a>(
    list: Vec<Mention<'l, 'a>>,
    mention: Mention<'l, 'a>,
) -> Result<Vec<Mention<'l, 'a>>, AllocError>
    ensures { IfOk result (λ made. map mention_seen made.items
        ≡ with_mention (map mention_seen list.entry.items) (mention_seen mention.entry)) }
{
    let mut list = list;
    if !is_noted(&list, mention.number) {
        list.push(mention)?;
    }
    Ok(list)
}

/// Notes that a leaf refers to a word, once.
fn note<'l, 'a>(
    alloc: Global,
    mentions: &mut Mentions<'l, 'a>,
    word: &'a [u8],
    mention: Mention<'l, 'a>,
) -> Result<(), AllocError>
    ensures { OnOk result ((w : Bor (List ℕ)) → mentioned mentions.new.entries w
        ≡ (if is_one word.now w.now
        then with_mention (mentioned mentions.old.entries w) (mention_seen mention.entry)
        else mentioned mentions.old.entries w)) }
{
    let list = take_out(alloc, mentions, word);
    let list = with_mention(list, mention)?;
    mentions.insert(word, list)?;
    Ok(())
}

/// Notes that a leaf refers to a value of a set, where that is a word.
fn note_item<'l, 'a>(
    alloc: Global,
    mentions: &mut Mentions<'l, 'a>,
    item: &'a Value,
    mention: Mention<'l, 'a>,
) -> Result<(), AllocError>
    ensures { OnOk result ((w : Bor (List ℕ)) → mentioned mentions.new.entries w
        ≡ (if is_same w.now (view item.now)
        then with_mention (mentioned mentions.old.entries w) (mention_seen mention.entry)
        else mentioned mentions.old.entries w)) }
{
    match item {
        Value::String(word) => note(alloc, mentions, word.as_bytes(), mention),
        _ => Ok(()),
    }
}

/// Notes that a leaf refers to the words of a set.
fn note_items<'l, 'a>(
    alloc: Global,
    mentions: &mut Mentions<'l, 'a>,
    items: &'a [Value],
    mention: Mention<'l, 'a>,
) -> Result<(), AllocError>
    ensures { OnOk result ((w : Bor (List ℕ)) → mentioned mentions.new.entries w
        ≡ (if has_item w.now (items_view items.now)
        then with_mention (mentioned mentions.old.entries w) (mention_seen mention.entry)
        else mentioned mentions.old.entries w)) }
{
    for item in items {
        note_item(alloc, mentions, item, mention)?;
    }
    Ok(())
}

/// Notes to what a leaf of this value refers.
fn note_value<'l, 'a>(
    alloc: Global,
    mentions: &mut Mentions<'l, 'a>,
    value: &'a Value,
    mention: Mention<'l, 'a>,
) -> Result<(), AllocError>
    ensures { OnOk result ((w : Bor (List ℕ)) → mentioned mentions.new.entries w
        ≡ (if has_word w.now (view value.now)
        then with_mention (mentioned mentions.old.entries w) (mention_seen mention.entry)
        else mentioned mentions.old.entries w)) }
{
    match value {
        Value::Array(items) => note_items(alloc, mentions, items, mention),
        _ => note_item(alloc, mentions, value, mention),
    }
}

/// Notes to what a leaf refers, where its attribute has this name.
fn note_leaf<'l, 'a>(
    alloc: Global,
    mentions: &mut Mentions<'l, 'a>,
    attribute: &str,
    number: usize,
    leaf: &'l Leaf<'a>,
) -> Result<(), AllocError>
    ensures { OnOk result ((w : Bor (List ℕ)) → mentioned mentions.new.entries w
        ≡ (if refers attribute.now w.now (leaf_seen leaf.now)
        then with_mention (mentioned mentions.old.entries w) (number, owner (leaf_seen leaf.now).0)
        else mentioned mentions.old.entries w)) }
{
    match guest_by(&leaf.path, attribute) {
        Some(guest) => note_value(alloc, mentions, leaf.value, Mention { number, guest }),
        None => Ok(()),
    }
}

/// The mentions of each word, by the leaves of attributes of this name.
pub(crate) fn mentions_of<'l, 'a>(
    alloc: Global,
    attribute: &str,
    leaves: &'l [Leaf<'a>],
) -> Result<Mentions<'l, 'a>, AllocError>
    ensures { IfOk result (λ ms. (w : Bor (List ℕ)) → mentioned ms.entries w
        ≡ numbered attribute.now w.now 0 (leaves_seen leaves.now)) }
{
    let mut mentions = IndexMap::new(alloc);
    for (number, leaf) in leaves.iter().enumerate() {
        note_leaf(alloc, &mut mentions, attribute, number, leaf)?;
    }
    Ok(mentions)
}
