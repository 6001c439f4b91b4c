//! What cases ask of the checker. A case is about a problem by its name, and lines that come first.
//!
//! - `lines LINE;..`: the kind of verdict and the first and the last value, or the number of the
//!   line that is refused.
//! - `trims LINE;..`: what is left of lines that are accepted.
//! - `two TEXT|TEXT`: the verdict of a text that comes in two pieces, or the line that is refused.
//! - `pieces TEXT|TEXT`: what is said of each piece, and then at the end.
//! - `cuts TEXT`: at how many of its bytes a text is cut as it should be, and `bytes TEXT` the
//!   verdict where it comes byte by byte.
//! - `file LIMIT|TEXT`: what is said of a file with that text, of which so many bytes are read.
ghost use Rattle.ground_form.specs.WellMade.{IsWellMade};

use crate::cut::{answer_by_bytes, answer_in_two, answers_in_two, count_cut_right};
use crate::file::answer_to_file;
use crate::problems::problem;
use ground_form::Ground;
use log_check::{CheckError, Verdict, check, trim};
use log_form::Line;
use proof_log::{LineError, lines_text, read_line};
use std::alloc::{AllocError, Global};
use test_case_files::{Case, Subject};

/// What is asked of the checker.
#[derive(Drop)]
pub(crate) struct Checked;

/// The lines of a text, separated by semicolons.
fn lines_of(alloc: Global, text: &str) -> Result<Vec<Line>, LineError> {
    let mut lines = Vec::new(alloc);
    for line in text.split(';') {
        if !line.is_empty() {
            lines.push(read_line(alloc, line.as_bytes())?)?;
        }
    }
    Ok(lines)
}

/// A verdict with the first and the last of its values.
fn verdict_text(alloc: Global, verdict: &Verdict) -> Result<String, AllocError> {
    let kind = verdict.kind();
    let values = verdict.values().unwrap_or(&[]);
    match (values.first(), values.last()) {
        (Some(first), Some(last)) => format!(in alloc; "{kind:?} {first} {last}"),
        _ => format!(in alloc; "{kind:?}"),
    }
}

/// What the checker says of lines.
fn answer_to(alloc: Global, g: &Ground, lines: &[Line]) -> Result<String, AllocError>
    requires { IsWellMade g.now }
{
    match check(alloc, g, lines) {
        Ok(verdict) => verdict_text(alloc, &verdict),
        Err(error) => format!(in alloc; "{error:?}"),
    }
}

/// Lines, separated by semicolons.
fn lines_again(alloc: Global, lines: &[Line]) -> Result<String, AllocError> {
    let bytes = lines_text(alloc, lines)?;
    let text = String::from_utf8_lossy(alloc, &bytes)?;
    let mut joined = String::new(alloc);
    for line in text.split('\n') {
        if !joined.is_empty() && !line.is_empty() {
            joined.push(';')?;
        }
        joined.push_str(line)?;
    }
    Ok(joined)
}

/// What is left of lines that are accepted.
fn trimmed(alloc: Global, g: &Ground, lines: &[Line]) -> Result<String, AllocError>
    requires { IsWellMade g.now }
{
    if check(alloc, g, lines).is_err() {
        return String::from_str(alloc, "refused");
    }
    match trim(alloc, g, lines) {
        Ok(kept) => lines_again(alloc, kept.items()),
        Err(_) => String::from_str(alloc, "not trimmed"),
    }
}

/// What is asked of lines.
fn told_of_lines(
    alloc: Global,
    g: &Ground,
    ask: &str,
    first: &str,
    text: &str,
) -> Result<String, AllocError>
    requires { IsWellMade g.now }
{
    let all = format!(in alloc; "{first};{text}")?;
    let Ok(lines) = lines_of(alloc, &all) else {
        return String::from_str(alloc, "no lines");
    };
    match ask {
        "lines" => answer_to(alloc, g, &lines),
        _ => trimmed(alloc, g, &lines),
    }
}

/// What is asked of a text in two pieces.
fn told_of_two(
    alloc: Global,
    g: &Ground,
    ask: &str,
    one: &[u8],
    other: &[u8],
) -> Result<String, AllocError>
    requires { IsWellMade g.now }
{
    if one.len() >= 400 || other.len() >= 400 {
        return String::from_str(alloc, "too long");
    }
    match ask {
        "two" => {
            let answer = answer_in_two(alloc, g, one, other);
            format!(in alloc; "{answer:?}")
        }
        _ => {
            let answers = answers_in_two(alloc, g, one, other);
            format!(in alloc; "{answers:?}")
        }
    }
}

/// What is asked of a text that is cut.
fn told_of_text(alloc: Global, g: &Ground, ask: &str, text: &[u8]) -> Result<String, AllocError>
    requires { IsWellMade g.now }
{
    if text.len() >= 900 {
        return String::from_str(alloc, "too long");
    }
    match ask {
        "cuts" => {
            let count = count_cut_right(alloc, g, text);
            format!(in alloc; "{count}")
        }
        _ => {
            let answer = answer_by_bytes(alloc, g, text);
            format!(in alloc; "{answer:?}")
        }
    }
}

/// What is asked of a file up to a limit.
fn told_of_file(alloc: Global, g: &Ground, limit: &str, text: &[u8]) -> Result<String, AllocError>
    requires { IsWellMade g.now }
{
    match limit.parse::<u64>() {
        Ok(bytes) => {
            let answer = answer_to_file(alloc, g, text, bytes);
            format!(in alloc; "{answer:?}")
        }
        Err(_) => String::from_str(alloc, "no limit"),
    }
}

/// What is asked.
fn told(alloc: Global, g: &Ground, first: &str, ask: &str, text: &str) -> Result<String, AllocError>
    requires { IsWellMade g.now }
{
    match ask {
        "lines" | "trims" => told_of_lines(alloc, g, ask, first, text),
        "two" | "pieces" => match text.split_once('|') {
            Some((one, other)) => told_of_two(alloc, g, ask, one.as_bytes(), other.as_bytes()),
            None => String::from_str(alloc, "one piece"),
        },
        "file" => match text.split_once('|') {
            Some((limit, log)) => told_of_file(alloc, g, limit, log.as_bytes()),
            None => String::from_str(alloc, "no limit"),
        },
        _ => told_of_text(alloc, g, ask, text.as_bytes()),
    }
}

impl Subject for Checked {
    fn answer(&mut self, alloc: Global, case: &Case<'_>) -> Result<String, AllocError> {
        let given = str::from_utf8(&case.given).unwrap_or("");
        let text = str::from_utf8(&case.text).unwrap_or("");
        let (name, first) = given.split_once(' ').unwrap_or((given, ""));
        match problem(alloc, name)? {
            Some(g) => told(alloc, &g, first, case.ask, text),
            None => String::from_str(alloc, "no problem"),
        }
    }
}
