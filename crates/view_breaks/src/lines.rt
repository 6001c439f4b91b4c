//! The line of a model's text on which a place stands.
ghost use Rattle.std.specs.Prelude.{◌≡◌, ◌++◌, ◌≤◌, OnOk, drop};
ghost use Rattle.view_breaks.specs.Lines.{ends_line, line_number, line_rest, shown, source_text};

use std::alloc::AllocError;

/// How many bytes of a line are shown.
const MOST_SHOWN: usize = 100;

/// A place of a text, and the number of its line.
#[derive(Clone, Copy)]
pub(crate) struct Spot {
    pub at: u32,
    pub line: u64,
}

/// Whether a byte ends a line.
fn ends_line(byte: u8) -> bool
    ensures { result ≡ ends_line byte }
{
    byte == b'\n' || byte == b'\r'
}

/// What is shown for a byte.
fn shown(byte: u8) -> u8
    ensures { result ≡ shown byte }
{
    if byte == b'\t' {
        b' '
    } else if byte >= 32 && byte <= 126 {
        byte
    } else {
        b'?'
    }
}

/// A place that isn't before this one, and the number of its line.
fn further(text: &[u8], spot: Spot, place: u32) -> Spot
    requires behind { spot.at ≤ place }
    requires line { spot.line ≡ line_number text.now spot.at }
    ensures at { result.at ≡ place }
    ensures line { result.line ≡ line_number text.now place }
{
    let mut line = spot.line;
    for at in spot.at..place {
        if text.get(at as usize) == Some(&b'\n') {
            line += 1;
        }
    }
    Spot { at: place, line }
}

/// A place, and the number of its line, counted from a place where that is known.
pub(crate) fn spot_of(text: &[u8], spot: Spot, place: u32) -> Spot
    requires line { spot.line ≡ line_number text.now spot.at }
    ensures at { result.at ≡ place }
    ensures line { result.line ≡ line_number text.now place }
{
    if place < spot.at {
        further(text, Spot { at: 0, line: 1 }, place)
    } else {
        further(text, spot, place)
    }
}

/// The text from a place on.
fn rest_of(text: &[u8], place: u32) -> &[u8]
    ensures { result.now ≡ drop place text.now }
{
    if place as usize <= text.len() {
        &text[place as usize..]
    } else {
        &[]
    }
}

/// Adds these bytes up to the end of their line, or so many of them and two dots.
fn push_rest(out: &mut Vec<u8>, bytes: &[u8], most: usize) -> Result<(), AllocError>
    ensures { OnOk result (out.new.items ≡ out.old.items ++ line_rest most bytes.now) }
{
    let mut left = most;
    for byte in bytes {
        if ends_line(*byte) {
            return Ok(());
        }
        if left == 0 {
            return out.extend_from_slice(b" ..");
        }
        out.push(shown(*byte))?;
        left -= 1;
    }
    Ok(())
}

/// Adds what stands on its line from a place on.
pub(crate) fn push_source(out: &mut Vec<u8>, text: &[u8], place: u32) -> Result<(), AllocError>
    ensures { OnOk result (out.new.items ≡ out.old.items ++ source_text text.now place) }
{
    push_rest(out, rest_of(text, place), MOST_SHOWN)
}
