//! Cases in a text.
//!
//! A line is a word and, behind a space, a text. `given TEXT` says what the cases behind it are
//! about, up to the next such line, and `more TEXT` adds to that. `gives TEXT` ends a case: it says
//! what must come, and several such lines that one of theirs must. A line with any other word
//! begins a case: the word says what is asked, and the text of what. Empty lines, and lines whose
//! word is `#`, are remarks. In a text `\n`, `\r`, `\t`, `\\` and, with two small hexadecimal
//! digits, `\xHH` stand for one byte each.
use std::alloc::{AllocError, Global};

/// One case.
#[derive(Drop)]
pub struct Case<'a> {
    /// The number of the line on which it begins.
    pub line: u64,
    /// What it is about.
    pub given: Vec<u8>,
    /// What is asked.
    pub ask: &'a str,
    /// Of what.
    pub text: Vec<u8>,
    /// What may come; nothing where the file doesn't say.
    pub wanted: Vec<Vec<u8>>,
}

/// How far an escape is read.
#[derive(Clone, Copy)]
enum Escape {
    /// There is none.
    None,
    /// Its backslash.
    Open,
    /// Its `x` too.
    Digits,
    /// Its first digit too.
    Second(u8),
}

/// The number that a hexadecimal digit stands for; 0 where it is none.
fn digit(byte: u8) -> u8 {
    match byte {
        b'0'..=b'9' => byte.saturating_sub(b'0'),
        b'a'..=b'f' => byte.saturating_sub(b'a').saturating_add(10),
        _ => 0,
    }
}

/// The byte that stands for itself, or for another one, behind a backslash.
fn named(byte: u8) -> u8 {
    match byte {
        b'n' => b'\n',
        b'r' => b'\r',
        b't' => b'\t',
        _ => byte,
    }
}

/// What comes behind the escape and the byte: the next escape, or a byte.
fn step(escape: Escape, byte: u8) -> (Escape, Option<u8>) {
    match escape {
        Escape::None if byte == b'\\' => (Escape::Open, None),
        Escape::None => (Escape::None, Some(byte)),
        Escape::Open if byte == b'x' => (Escape::Digits, None),
        Escape::Open => (Escape::None, Some(named(byte))),
        Escape::Digits => (Escape::Second(digit(byte)), None),
        Escape::Second(high) => {
            let value = high.saturating_mul(16).saturating_add(digit(byte));
            (Escape::None, Some(value))
        }
    }
}

/// The text without escapes.
fn unescaped(alloc: Global, text: &[u8]) -> Result<Vec<u8>, AllocError> {
    let mut bytes = Vec::new(alloc);
    let mut escape = Escape::None;
    for byte in text {
        let (next, value) = step(escape, *byte);
        escape = next;
        if let Some(value) = value {
            bytes.push(value)?;
        }
    }
    Ok(bytes)
}

/// The word of a line, and the text behind it.
fn word_and_text(line: &[u8]) -> (&str, &[u8]) {
    let (word, text) = match line.iter().position(|byte| *byte == b' ') {
        Some(at) => (&line[..at], &line[at + 1..]),
        None => (line, &line[line.len()..]),
    };
    (str::from_utf8(word).unwrap_or("?"), text)
}

/// The cases that were read, and what those to come are about.
#[derive(Drop)]
struct Reading<'a> {
    cases: Vec<Case<'a>>,
    given: Vec<u8>,
}

/// Begins a case.
fn begin<'a>(
    alloc: Global,
    reading: &mut Reading<'a>,
    line: u64,
    ask: &'a str,
    text: Vec<u8>,
) -> Result<(), AllocError> {
    let given = reading.given.as_slice().to_vec(alloc)?;
    reading.cases.push(Case {
        line,
        given,
        ask,
        text,
        wanted: Vec::new(alloc),
    })?;
    Ok(())
}

/// Takes a line.
fn take<'a>(
    alloc: Global,
    reading: &mut Reading<'a>,
    number: u64,
    line: &'a [u8],
) -> Result<(), AllocError> {
    let (word, behind) = word_and_text(line);
    let text = unescaped(alloc, behind)?;
    match word {
        "" | "#" => {}
        "given" => reading.given = text,
        "more" => reading.given.extend_from_slice(&text)?,
        "gives" => {
            if let Some(case) = reading.cases.last_mut() {
                case.wanted.push(text)?;
            }
        }
        _ => begin(alloc, reading, number, word, text)?,
    }
    Ok(())
}

/// The cases of a text, in order.
///
/// # Errors
/// Want of memory.
pub fn cases_of(alloc: Global, text: &[u8]) -> Result<Vec<Case<'_>>, AllocError> {
    let mut reading = Reading {
        cases: Vec::new(alloc),
        given: Vec::new(alloc),
    };
    let mut number = 0_u64;
    for line in text.split(|byte| *byte == b'\n') {
        number = number.saturating_add(1);
        take(alloc, &mut reading, number, line)?;
    }
    Ok(reading.cases)
}
