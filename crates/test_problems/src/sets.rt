//! Sets of integers and clauses as texts: `2..3,5` is a set, `empty` the empty one, and
//! `0:2..3 4:1` a clause of two literals.
use crate::words::{Unread, number, variable};
use signed_clause::{Clause, IntSet};
use std::alloc::{AllocError, Global};

/// The ends of a range.
fn ends(text: &str) -> Result<(i64, i64), Unread> {
    match text.split_once("..") {
        Some((low, high)) => Ok((number(low)?, number(high)?)),
        None => {
            let value = number(text)?;
            Ok((value, value))
        }
    }
}

/// The set of a text.
///
/// # Errors
/// `Form` where it is none, or a range has no value; want of memory.
pub fn set_of(alloc: Global, text: &str) -> Result<IntSet, Unread> {
    let mut set = IntSet::empty(alloc);
    if text == "empty" {
        return Ok(set);
    }
    for range in text.split(',') {
        let (low, high) = ends(range)?;
        if low > high {
            return Err(Unread::Form);
        }
        set = set.join(&IntSet::range(alloc, low, high))?;
    }
    Ok(set)
}

/// The sets of words.
///
/// # Errors
/// As of one set.
pub fn sets_of(alloc: Global, words: &[&str]) -> Result<Vec<IntSet>, Unread> {
    let mut sets = Vec::new(alloc);
    for word in words {
        sets.push(set_of(alloc, word)?)?;
    }
    Ok(sets)
}

/// The literal of a word.
fn literal(alloc: Global, word: &str) -> Result<(u32, IntSet), Unread> {
    match word.split_once(':') {
        Some((x, set)) => Ok((variable(x)?, set_of(alloc, set)?)),
        None => Err(Unread::Form),
    }
}

/// The literals of words, which need not be those of a clause.
///
/// # Errors
/// `Form` where they are none; want of memory.
pub fn literals_of(alloc: Global, words: &[&str]) -> Result<Vec<(u32, IntSet)>, Unread> {
    let mut literals = Vec::new(alloc);
    for word in words {
        literals.push(literal(alloc, word)?)?;
    }
    Ok(literals)
}

/// The clause of words.
///
/// # Errors
/// `Form` where they are none, or their literals aren't those of a clause; want of memory.
pub fn clause_of(alloc: Global, words: &[&str]) -> Result<Clause, Unread> {
    match Clause::of(literals_of(alloc, words)?) {
        Ok(clause) => Ok(clause),
        Err(_) => Err(Unread::Form),
    }
}

/// Adds a range to a text.
fn push_range(alloc: Global, text: &mut String, range: (i64, i64)) -> Result<(), AllocError> {
    let (low, high) = range;
    if low == high {
        text.push_str(&format!(in alloc; "{low}")?)
    } else {
        text.push_str(&format!(in alloc; "{low}..{high}")?)
    }
}

/// The text of a set.
///
/// # Errors
/// Want of memory.
pub fn set_text(alloc: Global, set: &IntSet) -> Result<String, AllocError> {
    if set.is_empty() {
        return String::from_str(alloc, "empty");
    }
    let mut text = String::new(alloc);
    for range in set.ranges() {
        if !text.is_empty() {
            text.push(',')?;
        }
        push_range(alloc, &mut text, *range)?;
    }
    Ok(text)
}

/// The text of sets, separated by spaces.
///
/// # Errors
/// Want of memory.
pub fn sets_text(alloc: Global, sets: &[IntSet]) -> Result<String, AllocError> {
    let mut text = String::new(alloc);
    for set in sets {
        if !text.is_empty() {
            text.push(' ')?;
        }
        text.push_str(&set_text(alloc, set)?)?;
    }
    Ok(text)
}

/// The text of a clause; that of the empty one is empty.
///
/// # Errors
/// Want of memory.
pub fn clause_text(alloc: Global, clause: &Clause) -> Result<String, AllocError> {
    let mut text = String::new(alloc);
    for literal in clause.literals() {
        if !text.is_empty() {
            text.push(' ')?;
        }
        let x = literal.0;
        let set = set_text(alloc, &literal.1)?;
        text.push_str(&format!(in alloc; "{x}:{set}")?)?;
    }
    Ok(text)
}
