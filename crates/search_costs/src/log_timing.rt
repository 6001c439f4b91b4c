//! What the checker says of a log, and how long it takes.
ghost use Rattle.ground_form.specs.WellMade.{IsWellMade};

use crate::logs::Log;
use ground_form::Ground;
use log_check::{CheckError, Checker, Verdict, VerdictKind, check};
use log_form::Line;
use proof_log::{ended_line, read_line};
use std::alloc::{AllocError, Global};
use std::rt::Runtime;
use test_clock::{Clock, per_second};

/// The lines of a text.
fn lines_of(alloc: Global, text: &[u8]) -> Result<Vec<Line>, AllocError> {
    let mut lines = Vec::new(alloc);
    let mut left = text;
    while let Some((part, behind)) = ended_line(left) {
        let Ok(line) = read_line(alloc, part) else {
            return Err(AllocError);
        };
        lines.push(line)?;
        left = behind;
    }
    Ok(lines)
}

/// What is said of a text that is fed as one piece.
fn fed(alloc: Global, g: &Ground, text: &[u8]) -> Result<Verdict, CheckError>
    requires { IsWellMade g.now }
{
    let mut checker = Checker::new(alloc, g)?;
    checker.feed(text)?;
    checker.finish()
}

/// What is said, as a word.
fn said(verdict: &Result<Verdict, CheckError>) -> &'static str {
    match verdict {
        Ok(verdict) => match verdict.kind() {
            VerdictKind::Best => "Best",
            VerdictKind::NoSolution => "NoSolution",
            VerdictKind::Open => "Open",
        },
        Err(CheckError::Rejected(_)) => "Rejected",
        Err(CheckError::Memory) => "Memory",
    }
}

/// What is said of the log's lines, and of its text.
pub(crate) fn answers(
    alloc: Global,
    g: &Ground,
    log: &Log,
) -> Result<(&'static str, &'static str), AllocError>
    requires { IsWellMade g.now }
{
    let text = log.text.as_slice();
    let lines = lines_of(alloc, text)?;
    let checked = check(alloc, g, lines.as_slice());
    Ok((said(&checked), said(&fed(alloc, g, text))))
}

/// How many nanoseconds the lines take; the greatest number where they are refused.
fn check_time<R: Runtime>(rt: &R, alloc: Global, g: &Ground, lines: &[Line]) -> u128
    requires { IsWellMade g.now }
{
    let clock = Clock::start(rt);
    let verdict = check(alloc, g, lines);
    let spent = clock.passed(rt);
    if verdict.is_ok() { spent } else { u128::MAX }
}

/// How many nanoseconds the text takes; the greatest number where it is refused.
fn feed_time<R: Runtime>(rt: &R, alloc: Global, g: &Ground, text: &[u8]) -> u128
    requires { IsWellMade g.now }
{
    let clock = Clock::start(rt);
    let verdict = fed(alloc, g, text);
    let spent = clock.passed(rt);
    if verdict.is_ok() { spent } else { u128::MAX }
}

/// How many lines a second `check` and `feed` take, each in the best of seven rounds.
pub(crate) fn speeds<R: Runtime>(
    rt: &R,
    alloc: Global,
    g: &Ground,
    log: &Log,
) -> Result<(u128, u128), AllocError>
    requires { IsWellMade g.now }
{
    let text = log.text.as_slice();
    let lines = lines_of(alloc, text)?;
    let mut best = u128::MAX;
    let mut best_fed = u128::MAX;
    for _ in 0..7u32 {
        best = best.min(check_time(rt, alloc, g, lines.as_slice()));
        best_fed = best_fed.min(feed_time(rt, alloc, g, text));
    }
    Ok((
        per_second(lines.len(), best),
        per_second(lines.len(), best_fed),
    ))
}
