//! Which words stand on the command line: `times`, for times in place of counts, and words that
//! pick what is printed.
use std::{env, io};

/// Whether times are asked for.
///
/// # Errors
/// Words that can't be read.
pub fn is_timed(rt: &HostRuntime) -> io::Result<bool> {
    Ok(env::args(rt)?.skip(1).any(|word| word.as_str() == "times"))
}

/// Whether some word picks what is printed.
///
/// # Errors
/// Words that can't be read.
pub fn has_picks(rt: &HostRuntime) -> io::Result<bool> {
    Ok(env::args(rt)?.skip(1).any(|word| word.as_str() != "times"))
}

/// Whether one of the words is the first part of the name, or none picks what is printed.
///
/// # Errors
/// Words that can't be read.
pub fn is_picked(rt: &HostRuntime, name: &str) -> io::Result<bool> {
    if !has_picks(rt)? {
        return Ok(true);
    }
    Ok(
        env::args(rt)?
            .skip(1)
            .any(|word| name.starts_with(word.as_str())),
    )
}
