//! Tokens of texts, and the refusals of texts that have none. `tokens TEXT` asks for the tokens,
//! each with its place; `mebibyte BYTE` asks how many tokens a text of the greatest size has that
//! is one byte again and again.
ghost use Rattle.std.specs.Prelude.{◌≤◌, length};
ghost use Rattle.model_limits.specs.Limits.{model_bytes};

use conf_parse::lex;
use conf_syntax::{Placed, Token};
use std::alloc::{AllocError, Global};
use test_case_files::{Case, Subject, push_word};

/// What is asked of the lexer.
#[derive(Drop)]
pub(crate) struct Tokens;

/// A token in words.
fn word_of(alloc: Global, token: &Token) -> Result<String, AllocError> {
    match token {
        Token::Word(name) => {
            let name = String::from_utf8_lossy(alloc, name.as_bytes())?;
            format!(in alloc; "'{name}'")
        }
        Token::Number(value) => format!(in alloc; "{value}"),
        Token::Key(key) => format!(in alloc; "{key:?}"),
        Token::Mark(mark) => format!(in alloc; "{mark:?}"),
    }
}

/// Tokens in words, with their places.
fn words_of(alloc: Global, tokens: &[Placed]) -> Result<String, AllocError> {
    let mut shown = String::new(alloc);
    for placed in tokens {
        let word = word_of(alloc, &placed.token)?;
        let at = placed.at;
        push_word(&mut shown, &format!(in alloc; "{word}@{at}")?)?;
    }
    Ok(shown)
}

/// The tokens of a text in words, or why it has none.
fn shown(alloc: Global, text: &[u8]) -> Result<String, AllocError>
    requires { length text.now ≤ model_bytes }
{
    match lex(alloc, text) {
        Ok(tokens) => words_of(alloc, &tokens),
        Err(error) => format!(in alloc; "{error:?}"),
    }
}

/// How many tokens a mebibyte of the byte has, or why it has none.
fn count_in_mebibyte(alloc: Global, byte: u8) -> Result<String, AllocError> {
    let text = vec![in alloc; byte; 1_048_576]?;
    match lex(alloc, &text) {
        Ok(tokens) => {
            let count = tokens.len();
            format!(in alloc; "{count}")
        }
        Err(error) => format!(in alloc; "{error:?}"),
    }
}

impl Subject for Tokens {
    fn answer(&mut self, alloc: Global, case: &Case<'_>) -> Result<String, AllocError> {
        let text = case.text.as_slice();
        if case.ask == "tokens" && text.len() < 100 {
            return shown(alloc, text);
        }
        match text {
            [byte] if case.ask == "mebibyte" => count_in_mebibyte(alloc, *byte),
            _ => String::from_str(alloc, "what?"),
        }
    }
}
