//! Rules by which texts of models are written.
//!
//! A rule is a line: what it writes, where it may be used, and the words that it writes. What
//! stands around a place is a row of letters; the second word of a rule is `-`, or the letters that
//! must be there and, behind `!`, those that must not. A word that begins with `$` is written by a
//! rule for what it names; letters behind `+` are added for it.
use std::alloc::{AllocError, Global};

/// A rule.
#[derive(Drop)]
pub(crate) struct Rule<'a> {
    /// What it writes.
    pub(crate) head: &'a str,
    /// Where it may be used.
    pub(crate) need: &'a str,
    /// The words.
    pub(crate) words: Vec<&'a str>,
}

/// The rule of a line; None where it is none.
fn rule_of(alloc: Global, line: &str) -> Result<Option<Rule<'_>>, AllocError> {
    let mut words = Vec::new(alloc);
    for word in line.split(' ') {
        if !word.is_empty() {
            words.push(word)?;
        }
    }
    if words.len() < 2 || line.starts_with('#') {
        return Ok(None);
    }
    let head = words.remove(0);
    let need = words.remove(0);
    Ok(Some(Rule { head, need, words }))
}

/// The rules of a text.
pub(crate) fn rules_of(alloc: Global, text: &[u8]) -> Result<Vec<Rule<'_>>, AllocError> {
    let mut rules = Vec::new(alloc);
    for line in str::from_utf8(text).unwrap_or("").split('\n') {
        if let Some(rule) = rule_of(alloc, line)? {
            rules.push(rule)?;
        }
    }
    Ok(rules)
}

/// Whether all of these letters stand in a row of letters, or none of them does.
fn are_there(letters: &str, row: &str, wanted: bool) -> bool {
    for letter in letters.chars() {
        if letter != '-' && row.contains(letter) != wanted {
            return false;
        }
    }
    true
}

/// Whether a word names what a rule writes.
pub(crate) fn is_named(word: &str) -> bool {
    word.starts_with('$')
}

/// Whether a rule writes all of its words itself.
fn is_plain(rule: &Rule<'_>) -> bool {
    for word in &rule.words {
        if is_named(word) {
            return false;
        }
    }
    true
}

/// How deep within rules a rule is used.
#[derive(Clone, Copy, PartialEq, Eq)]
pub(crate) enum Place {
    /// Near the first one: words that name something are wanted.
    Top,
    /// Further in.
    Inside,
    /// At the end: no word may name anything.
    End,
}

/// Whether a rule may be used there.
fn suits(rule: &Rule<'_>, place: Place) -> bool {
    match place {
        Place::Top => !is_plain(rule),
        Place::Inside => true,
        Place::End => is_plain(rule),
    }
}

/// Whether a rule may be used for what is named, with these letters around it.
pub(crate) fn fits(rule: &Rule<'_>, name: &str, row: &str, place: Place) -> bool {
    let (wanted, unwanted) = rule.need.split_once('!').unwrap_or((rule.need, ""));
    rule.head == name
        && are_there(wanted, row, true)
        && are_there(unwanted, row, false)
        && suits(rule, place)
}
