//! Words and numbers of a text that are separated by spaces.
use std::alloc::{AllocError, Global};

/// The words of a text; none where it is no UTF-8.
///
/// # Errors
/// Want of memory.
pub fn words_of(alloc: Global, text: &[u8]) -> Result<Vec<&str>, AllocError> {
    let mut words = Vec::new(alloc);
    for word in str::from_utf8(text).unwrap_or("").split(' ') {
        if !word.is_empty() {
            words.push(word)?;
        }
    }
    Ok(words)
}

/// The numbers of a text. Words that are none are passed over.
///
/// # Errors
/// Want of memory.
pub fn numbers_of(alloc: Global, text: &[u8]) -> Result<Vec<i64>, AllocError> {
    let mut numbers = Vec::new(alloc);
    for word in str::from_utf8(text).unwrap_or("").split(' ') {
        if let Ok(number) = word.parse::<i64>() {
            numbers.push(number)?;
        }
    }
    Ok(numbers)
}

/// The number that the word at an index is; the greatest one where there is none.
pub fn number_at(words: &[&str], k: usize) -> u32 {
    match words.get(k) {
        Some(word) => word.parse::<u32>().unwrap_or(u32::MAX),
        None => u32::MAX,
    }
}

/// Adds a word to a text, behind a space where it isn't the first one.
///
/// # Errors
/// Want of memory.
pub fn push_word(text: &mut String, word: &str) -> Result<(), AllocError> {
    if !text.is_empty() {
        text.push(' ')?;
    }
    text.push_str(word)
}
