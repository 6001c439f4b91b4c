//! What texts of cases give, and what comes as a text.
use signed_clause::{Clause, IntSet};
use std::alloc::{AllocError, Global};
use test_case_files::words_of;
use test_problems::{Unread, clause_text, set_text};

/// The words before and behind the bar of a text.
pub(crate) fn two_lists(alloc: Global, text: &[u8]) -> Result<(Vec<&str>, Vec<&str>), Unread> {
    let Some((left, right)) = str::from_utf8(text).unwrap_or("").split_once('|') else {
        return Err(Unread::Form);
    };
    let left = words_of(alloc, left.as_bytes())?;
    let right = words_of(alloc, right.as_bytes())?;
    Ok((left, right))
}

/// A literal as a text.
pub(crate) fn literal_text(alloc: Global, x: u32, set: &IntSet) -> Result<String, AllocError> {
    let set = set_text(alloc, set)?;
    format!(in alloc; "{x}:{set}")
}

/// What a propagator says, as a text.
pub(crate) fn said_text(alloc: Global, said: &Option<Clause>) -> Result<String, AllocError> {
    match said {
        Some(clause) => clause_text(alloc, clause),
        None => String::from_str(alloc, "nothing"),
    }
}

/// What came, or that the text is unread.
pub(crate) fn answer_of(alloc: Global, told: Result<String, Unread>) -> Result<String, AllocError> {
    match told {
        Ok(text) => Ok(text),
        Err(Unread::Form) => String::from_str(alloc, "unread"),
        Err(Unread::Memory) => Err(AllocError),
    }
}
