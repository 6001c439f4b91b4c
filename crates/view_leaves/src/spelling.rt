//! How paths and values are spelled.
ghost use Rattle.std.specs.Prelude.{◌≡◌, ◌++◌, ◌∷◌, ◌<◌, [], false, OnOk, map, length, string_bytes};
ghost use Rattle.std.specs.List.{flat_map, list_all};
ghost use Rattle.view_leaves.specs.Spelling.{hex_digit, escaped_byte, quoted, is_letter, is_name_byte, is_plain_key, key_text, step_text, path_text, is_path_byte, is_literal, is_plain_word, word_text, first_text};
ghost use Rattle.view_leaves.specs.Paths.{index};
ghost use Rattle.view_leaves.specs.Views.{step_seen};

use crate::path::Step;
use std::alloc::AllocError;

/// The digit of a number below 16.
fn hex_digit(n: u8) -> u8
    requires { n < 16 }
    ensures { result ≡ hex_digit n }
{
    if n < 10 { n + 48 } else { n + 87 }
}

/// Writes a byte of a quoted text.
fn push_escaped(text: &mut Vec<u8>, byte: u8) -> Result<(), AllocError>
    ensures { OnOk result (text.new.items ≡ text.old.items ++ escaped_byte byte) }
{
    if byte == b'"' || byte == b'\\' {
        Ok(text.extend_from_slice(&[b'\\', byte])?)
    } else if 32 <= byte && byte <= 126 {
        Ok(text.push(byte)?)
    } else {
        let digits = [b'\\', b'x', hex_digit(byte / 16), hex_digit(byte % 16)];
        Ok(text.extend_from_slice(&digits)?)
    }
}

/// Writes the bytes of a quoted text.
fn push_all_escaped(text: &mut Vec<u8>, bytes: &[u8]) -> Result<(), AllocError>
    ensures { OnOk result (text.new.items ≡ text.old.items ++ flat_map escaped_byte bytes.now) }
{
    for byte in bytes {
        push_escaped(text, *byte)?;
    }
    Ok(())
}

/// Writes bytes in quotes.
fn push_quoted(text: &mut Vec<u8>, bytes: &[u8]) -> Result<(), AllocError>
    ensures { OnOk result (text.new.items ≡ text.old.items ++ quoted bytes.now) }
{
    text.push(b'"')?;
    push_all_escaped(text, bytes)?;
    text.push(b'"')?;
    Ok(())
}

/// Whether a byte is a letter or `_`.
fn is_letter(byte: u8) -> bool
    ensures { result ≡ is_letter byte }
{
    (65 <= byte && byte <= 90) || (97 <= byte && byte <= 122) || byte == 95
}

/// Whether a byte is a letter, a digit or `_`.
fn is_name_byte(byte: u8) -> bool
    ensures { result ≡ is_name_byte byte }
{
    is_letter(byte) || (48 <= byte && byte <= 57)
}

/// Whether a byte is one of a path.
fn is_path_byte(byte: u8) -> bool
    ensures { result ≡ is_path_byte byte }
{
    is_name_byte(byte) || byte == b'.' || byte == b'[' || byte == b']'
}

/// Whether each byte is a letter, a digit or `_`.
fn are_name_bytes(bytes: &[u8]) -> bool
    ensures { result ≡ list_all is_name_byte bytes.now }
{
    bytes.iter().all(|byte| is_name_byte(*byte))
}

/// Whether each byte is one of a path.
fn are_path_bytes(bytes: &[u8]) -> bool
    ensures { result ≡ list_all is_path_byte bytes.now }
{
    bytes.iter().all(|byte| is_path_byte(*byte))
}

/// Whether a string is a word of JSON that is no string.
fn is_literal(word: &str) -> bool
    ensures { result ≡ is_literal word.now }
{
    word == "true" || word == "false" || word == "null"
}

/// Whether a key is spelled as it is.
fn is_plain_key(key: &[u8]) -> bool
    ensures { result ≡ is_plain_key key.now }
{
    match key {
        [] => false,
        [_, ..] => are_name_bytes(key),
    }
}

/// Whether a string is spelled without quotes.
fn is_plain_word(word: &str) -> bool
    ensures { result ≡ is_plain_word word.now }
{
    match word.as_bytes() {
        [] => false,
        [first, more @ ..] => { is_letter(*first) && are_path_bytes(more) && !is_literal(word) }
    }
}

/// Writes a key.
fn push_key(text: &mut Vec<u8>, key: &[u8]) -> Result<(), AllocError>
    ensures { OnOk result (text.new.items ≡ text.old.items ++ key_text key.now) }
{
    if is_plain_key(key) {
        Ok(text.extend_from_slice(key)?)
    } else {
        push_quoted(text, key)
    }
}

/// Writes a number in brackets.
fn push_index(text: &mut Vec<u8>, number: u64) -> Result<(), AllocError>
    ensures { OnOk result (text.new.items ≡ text.old.items ++ step_text (index number)) }
{
    let mut digits = itoa::Buffer::new();
    text.push(b'[')?;
    text.extend_from_slice(digits.format(number).as_bytes())?;
    text.push(b']')?;
    Ok(())
}

/// Writes a step behind another one.
fn push_step(text: &mut Vec<u8>, step: Step<'_>) -> Result<(), AllocError>
    ensures { OnOk result (text.new.items ≡ text.old.items ++ step_text (step_seen step.entry)) }
{
    match step {
        Step::Index(number) => push_index(text, number),
        Step::Key(key) => {
            text.push(b'.')?;
            push_key(text, key.as_bytes())
        }
    }
}

/// Writes a path's first step.
fn push_first(text: &mut Vec<u8>, step: Step<'_>) -> Result<(), AllocError>
    ensures { OnOk result (text.new.items ≡ text.old.items ++ first_text (step_seen step.entry)) }
{
    match step {
        Step::Index(number) => push_index(text, number),
        Step::Key(key) => push_key(text, key.as_bytes()),
    }
}

/// Writes the steps behind a path's first.
fn push_steps(text: &mut Vec<u8>, steps: &[Step<'_>]) -> Result<(), AllocError>
    ensures { OnOk result (text.new.items ≡ text.old.items
        ++ flat_map step_text (map step_seen steps.now)) }
{
    for step in steps {
        push_step(text, *step)?;
    }
    Ok(())
}

/// Writes a path.
pub fn push_path(text: &mut Vec<u8>, path: &[Step<'_>]) -> Result<(), AllocError>
    ensures { OnOk result (text.new.items ≡ text.old.items ++ path_text (map step_seen path.now)) }
{
    match path {
        [] => Ok(()),
        [first, more @ ..] => {
            push_first(text, *first)?;
            push_steps(text, more)
        }
    }
}

/// Writes a word of a configuration, as the path of an object or the name of a value.
pub fn push_word(text: &mut Vec<u8>, word: &str) -> Result<(), AllocError>
    ensures { OnOk result (text.new.items ≡ text.old.items ++ word_text word.now) }
{
    if is_plain_word(word) {
        Ok(text.extend_from_slice(word.as_bytes())?)
    } else {
        push_quoted(text, word.as_bytes())
    }
}
