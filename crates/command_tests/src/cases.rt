//! Cases in a text: what a run is given, and what must come of it.
//!
//! A line `model TEXT` begins a case. Behind it `config TEXT` makes it a `verify` of that
//! configuration, and `former TEXT` a `reconfigure` from that one, where `failed WORD ..` says what
//! failed; else it is a `solve`. Each `prints TEXT` is a line that is printed. Where lines are
//! `shows TEXT`, they are those that are printed behind the first one, which may be any. `ends
//! TEXT` is the status, its number and behind a space its line where it has one. Any other line is
//! a remark.
use std::alloc::{AllocError, Global};

/// One case. The texts are parts of the file's.
#[derive(Drop)]
pub struct Case<'a> {
    /// The number of the line on which it begins.
    pub line: u64,
    /// The model.
    pub model: &'a [u8],
    /// The configuration that is verified, where one is.
    pub config: Option<&'a [u8]>,
    /// The former configuration of a repair, where it is one.
    pub former: Option<&'a [u8]>,
    /// What failed: words that are separated by spaces.
    pub failed: &'a [u8],
    /// What is printed, each line with its LF.
    pub printed: Vec<u8>,
    /// What is printed behind the first line, each line with its LF; nothing where `printed` says
    /// what is printed.
    pub shown: Vec<u8>,
    /// The status: its number, and its line where it has one.
    pub status: &'a [u8],
}

/// Adds a line.
fn add_line(lines: &mut Vec<u8>, line: &[u8]) -> Result<(), AllocError> {
    lines.extend_from_slice(line)?;
    lines.push(b'\n')?;
    Ok(())
}

/// Adds what a line says of what the run is given.
fn extend_given<'a>(case: &mut Case<'a>, line: &'a [u8]) {
    if let Some(text) = line.strip_prefix(b"config ") {
        case.config = Some(text);
    } else if let Some(text) = line.strip_prefix(b"former ") {
        case.former = Some(text);
    } else if let Some(text) = line.strip_prefix(b"failed ") {
        case.failed = text;
    }
}

/// Adds what a line says of what comes of the run.
fn extend_wanted<'a>(case: &mut Case<'a>, line: &'a [u8]) -> Result<(), AllocError> {
    if let Some(text) = line.strip_prefix(b"prints ") {
        add_line(&mut case.printed, text)?;
    } else if let Some(text) = line.strip_prefix(b"shows ") {
        add_line(&mut case.shown, text)?;
    } else if let Some(text) = line.strip_prefix(b"ends ") {
        case.status = text;
    }
    Ok(())
}

/// The cases of a text, in order.
pub fn cases_of(alloc: Global, text: &[u8]) -> Result<Vec<Case<'_>>, AllocError> {
    let mut cases = Vec::new(alloc);
    let mut number = 0_u64;
    for line in text.split(|byte| *byte == b'\n') {
        number = number.saturating_add(1);
        if let Some(model) = line.strip_prefix(b"model ") {
            cases.push(Case {
                line: number,
                model,
                config: None,
                former: None,
                failed: b"",
                printed: Vec::new(alloc),
                shown: Vec::new(alloc),
                status: b"",
            })?;
        } else if let Some(case) = cases.last_mut() {
            extend_given(case, line);
            extend_wanted(case, line)?;
        }
    }
    Ok(cases)
}
