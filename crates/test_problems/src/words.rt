//! Numbers of words, and why a text is unread.
use std::alloc::{AllocError, AllocFailed};

/// Why a text is unread.
#[derive(Clone, Copy, Debug, PartialEq, Eq)]
pub enum Unread {
    /// It isn't written as it should be.
    Form,
    /// Want of memory.
    Memory,
}

impl From<AllocError> for Unread {
    fn from(_: AllocError) -> Unread {
        Unread::Memory
    }
}

impl<T: Drop> From<AllocFailed<T>> for Unread {
    fn from(_: AllocFailed<T>) -> Unread {
        Unread::Memory
    }
}

/// The number that a text is.
///
/// # Errors
/// `Form` where it is none of 64 bits with a sign.
pub fn number(text: &str) -> Result<i64, Unread> {
    match text.parse::<i64>() {
        Ok(number) => Ok(number),
        Err(_) => Err(Unread::Form),
    }
}

/// The variable that a text is the number of.
///
/// # Errors
/// `Form` where it is no number of 32 bits.
pub fn variable(text: &str) -> Result<u32, Unread> {
    match text.parse::<u32>() {
        Ok(number) => Ok(number),
        Err(_) => Err(Unread::Form),
    }
}
