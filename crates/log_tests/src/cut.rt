//! What the checker says of texts that come in pieces.
ghost use Rattle.std.specs.Prelude.{◌+◌, ◌<◌, length};
ghost use Rattle.ground_form.specs.WellMade.{IsWellMade};

use ground_form::Ground;
use log_check::{CheckError, Checker, VerdictKind};
use std::alloc::Global;

/// What the checker says of a text that comes in two pieces.
pub(crate) fn answer_in_two(
    alloc: Global,
    g: &Ground,
    first: &[u8],
    second: &[u8],
) -> Result<VerdictKind, CheckError>
    requires well_made { IsWellMade g.now }
    requires few { length first.now + length second.now < 1000 }
{
    let mut checker = Checker::new(alloc, g)?;
    checker.feed(first)?;
    checker.feed(second)?;
    let verdict = checker.finish()?;
    Ok(verdict.kind())
}

/// What it says of a text that comes byte by byte.
pub(crate) fn answer_by_bytes(
    alloc: Global,
    g: &Ground,
    text: &[u8],
) -> Result<VerdictKind, CheckError>
    requires well_made { IsWellMade g.now }
    requires few { length text.now < 1000 }
{
    let mut checker = Checker::new(alloc, g)?;
    for k in 0..text.len() {
        checker.feed(&text[k..k + 1])?;
    }
    let verdict = checker.finish()?;
    Ok(verdict.kind())
}

/// What it says of two pieces, one after the other, and then at the end.
pub(crate) fn answers_in_two(
    alloc: Global,
    g: &Ground,
    first: &[u8],
    second: &[u8],
) -> [Result<(), CheckError>; 3]
    requires well_made { IsWellMade g.now }
    requires few { length first.now + length second.now < 1000 }
{
    let Ok(mut checker) = Checker::new(alloc, g) else {
        return [Err(CheckError::Memory); 3];
    };
    let one = checker.feed(first);
    let other = checker.feed(second);
    match checker.finish() {
        Ok(_) => [one, other, Ok(())],
        Err(e) => [one, other, Err(e)],
    }
}

/// Whether a text that ends behind so many bytes is refused at its last line, where that isn't
/// whole, and else left open; and whether the whole text is found best where it is cut there.
fn is_cut_right(alloc: Global, g: &Ground, first: &[u8], second: &[u8], line: u64) -> bool
    requires well_made { IsWellMade g.now }
    requires few { length first.now + length second.now < 1000 }
{
    let cut_off = match first.last() {
        Some(byte) if *byte != b'\n' => Err(CheckError::Rejected(line)),
        _ => Ok(VerdictKind::Open),
    };
    answer_in_two(alloc, g, first, b"") == cut_off
        && answer_in_two(alloc, g, first, second) == Ok(VerdictKind::Best)
}

/// At how many of its bytes a text is cut as it should be.
pub(crate) fn count_cut_right(alloc: Global, g: &Ground, text: &[u8]) -> usize
    requires well_made { IsWellMade g.now }
    requires few { length text.now < 1000 }
{
    let mut line = 1u64;
    let mut count = 0usize;
    for cut in 0..text.len() {
        if is_cut_right(alloc, g, &text[..cut], &text[cut..], line) {
            count = count.saturating_add(1);
        }
        if text[cut] == b'\n' {
            line = line.saturating_add(1);
        }
    }
    count
}
