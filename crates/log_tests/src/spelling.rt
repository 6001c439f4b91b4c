//! What cases ask of the format of logs: `line TEXT` whether a text is read as a line that is
//! written as it is, `journal` the text and the count of a journal of two lines, with that of one
//! line alone; and of clauses by number what `numbering` and `packing` say.
use crate::numbering::{found, owned_twice};
use crate::packing::read_back;
use log_form::{Line, Lines};
use proof_log::{Journal, line_text, lines_text, read_line};
use std::alloc::{AllocError, Global};
use test_case_files::{Case, Subject};

/// What is asked of the format.
#[derive(Drop)]
pub(crate) struct Spelling;

/// Whether the bytes are read as a line that is written as they are.
fn read_again(alloc: Global, bytes: &[u8]) -> Result<String, AllocError> {
    match read_line(alloc, bytes) {
        Ok(line) => {
            let text = line_text(alloc, &line)?;
            String::from_utf8_lossy(alloc, &text)
        }
        Err(error) => format!(in alloc; "{error:?}"),
    }
}

/// A journal of two lines: its text, how many lines it has, whether it has a problem; and the text
/// of one line.
fn journal(alloc: Global) -> Result<String, AllocError> {
    let mut journal = Journal::new(alloc);
    journal.push(Line::Use(3))?;
    journal.push(Line::Empty(0))?;
    let text = String::from_utf8_lossy(alloc, &journal.text()?)?;
    let (count, none) = (journal.lines().len(), journal.ground().is_none());
    let one = one_line(alloc)?;
    format!(in alloc; "{text:?} {count} {none} {one:?}")
}

/// The text of one line.
fn one_line(alloc: Global) -> Result<String, AllocError> {
    let lines = Lines::of(vec![in alloc; Line::Use(3)]?);
    String::from_utf8_lossy(alloc, &lines_text(alloc, lines.items())?)
}

impl Subject for Spelling {
    fn answer(&mut self, alloc: Global, case: &Case<'_>) -> Result<String, AllocError> {
        match case.ask {
            "line" => read_again(alloc, &case.text),
            "journal" => journal(alloc),
            "owned" => owned_twice(alloc),
            "packed" => read_back(alloc, &case.text),
            _ => found(alloc),
        }
    }
}
