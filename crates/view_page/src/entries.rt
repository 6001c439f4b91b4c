//! The lines of the text that a session prints, and what each is.
ghost use Rattle.std.specs.Prelude.{◌≡◌, ◌≤◌, ◌<◌, ◌+◌, ◌-◌, ◌==◌, ◌++◌, ◌∷◌, ℕ, [], Some, drop, length, map, slice_index_or, take, IfErr, IfOk, OnOk};
ghost use Rattle.view_page.specs.Entries.{begins_object, is_none, entry_of, AreEntries, IsNoEntry, HasNone, HasNoEntry};
ghost use Rattle.view_page.specs.EntryViews.{entry_seen, entries_seen};
ghost use Rattle.view_page.specs.Turns.{lines_left, HasTurned};

use crate::page::PageError;
use serde_json::Value;
use std::alloc::{AllocError, Global};
use view_leaves::{TextError, read_text};

/// What a line is.
#[derive(Drop)]
pub enum Entry<'a> {
    /// A configuration, which answers an event.
    Shown(Value),
    /// That none exists, which answers an event.
    Missing,
    /// What is said beside an answer.
    Said(&'a [u8]),
}

/// Whether a line begins as a configuration does.
fn begins_object(line: &[u8]) -> bool
    ensures { result ≡ begins_object line.now }
{
    line.starts_with(b"{")
}

/// Whether a line says that no configuration exists.
fn is_none(line: &[u8]) -> bool
    ensures { result ≡ is_none line.now }
{
    line == b"none exists".as_slice()
}

/// What a line is.
fn entry_of(alloc: Global, line: &[u8]) -> Result<Entry<'_>, PageError>
    ensures entry { IfOk result (λ entry. entry_of line.now ≡ Some (entry_seen entry)) }
    ensures refused { IfErr result (IsNoEntry line.now) }
{
    if begins_object(line) {
        match read_text(alloc, line) {
            Ok(value) => Ok(Entry::Shown(value)),
            Err(TextError::NotJson) => Err(PageError::NotJson),
            Err(TextError::NotObject) => Err(PageError::NotJson),
            Err(TextError::Memory) => Err(PageError::Memory),
        }
    } else if is_none(line) {
        Ok(Entry::Missing)
    } else {
        Ok(Entry::Said(line))
    }
}

/// Adds what the line from one place to another is.
fn push_entry<'a>(
    alloc: Global,
    entries: &mut Vec<Entry<'a>>,
    text: &'a [u8],
    start: usize,
    end: usize,
) -> Result<(), PageError>
    requires begun { start ≤ end }
    requires within { end ≤ length text.now }
    ensures entry { OnOk result (map Some (entries_seen entries.new.items)
        ≡ map Some (entries_seen entries.old.items)
        ++ entry_of (take (end - start) (drop start text.now)) ∷ []) }
    ensures refused { IfErr result (IsNoEntry (take (end - start) (drop start text.now))) }
{
    let entry = match entry_of(alloc, &text[start..end]) {
        Ok(entry) => entry,
        Err(error) => return Err(error),
    };
    match entries.push(entry) {
        Ok(()) => Ok(()),
        Err(_) => Err(PageError::Memory),
    }
}

/// Whether a byte of a text is a line feed.
fn is_feed(text: &[u8], i: usize) -> bool
    requires { i < length text.now }
    ensures feed { (d : ℕ) → result ≡ (slice_index_or text.now i d == 10) }
{
    text[i] == b'\n'
}

/// Adds what a line is that began at a place, where the next byte ends it, and gives the place at
/// which the line behind that byte began.
fn turn<'a>(
    alloc: Global,
    entries: &mut Vec<Entry<'a>>,
    text: &'a [u8],
    start: usize,
    i: usize,
) -> Result<usize, PageError>
    requires begun { start ≤ i }
    requires within { i < length text.now }
    ensures begun { IfOk result (λ next. next ≤ i + 1) }
    ensures entries { IfOk result (λ next. HasTurned text.now
        (map Some (entries_seen entries.old.items)) (map Some (entries_seen entries.new.items))
        start next i) }
    ensures refused { IfErr result (HasNone (lines_left text.now start i)) }
{
    let feed = is_feed(text, i);
    if !feed {
        return Ok(start);
    }
    match push_entry(alloc, entries, text, start, i) {
        Ok(()) => Ok(i + 1),
        Err(error) => Err(error),
    }
}

/// Adds what a last line is, where one began at a place.
#[tactic(auto, using(crate::proofs::LineLaws::no_line_left, crate::proofs::LineLaws::found_last, crate::proofs::LineLaws::last_refused))]
fn push_last<'a>(
    alloc: Global,
    entries: &mut Vec<Entry<'a>>,
    text: &'a [u8],
    start: usize,
) -> Result<(), PageError>
    requires begun { start ≤ length text.now }
    ensures entries { OnOk result (map Some (entries_seen entries.new.items)
        ≡ map Some (entries_seen entries.old.items)
        ++ map entry_of (lines_left text.now start (length text.now))) }
    ensures refused { IfErr result (HasNone (lines_left text.now start (length text.now))) }
{
    if start == text.len() {
        return Ok(());
    }
    match push_entry(alloc, entries, text, start, text.len()) {
        Ok(()) => Ok(()),
        Err(error) => Err(error),
    }
}

/// What each line of a text is, in order. A last line that no line feed ends is one too.
///
/// # Errors
///
/// `NotJson` where a line begins as a configuration and is none.
#[tactic(auto, using(crate::proofs::LineLaws::none_left))]
pub fn entries_of(alloc: Global, text: &[u8]) -> Result<Vec<Entry<'_>>, PageError>
    ensures entries { IfOk result (λ entries. AreEntries text.now (entries_seen entries.items)) }
    ensures refused { IfErr result (HasNoEntry text.now) }
{
    let mut entries = Vec::new(alloc);
    let mut start = 0;
    for i in 0..text.len() {
        start = match turn(alloc, &mut entries, text, start, i) {
            Ok(next) => next,
            Err(error) => return Err(error),
        };
    }
    match push_last(alloc, &mut entries, text, start) {
        Ok(()) => Ok(entries),
        Err(error) => Err(error),
    }
}
