//! Runs of the command on cases.
ghost use Rattle.std.specs.Prelude.{IsTrue, List, ℕ};

use crate::cases::Case;
use branch_choice::Chooser;
use confsolve_run::{Status, line_of, run};
use desk_io::{Desk, SteadyDesk};
use proof_log::Journal;
use rule_law::Kit;
use std::alloc::{AllocError, Global};
use test_case_files::words_of;

/// What runs search with.
#[derive(Drop)]
pub(crate) struct Parts {
    pub(crate) kit: Kit,
    pub(crate) choosers: [Chooser; 3],
}

impl Parts {
    /// The status of a run, with a journal of its own.
    pub(crate) fn run<D: Desk>(&mut self, alloc: Global, words: &[String], desk: &mut D) -> Status
        requires read { (name : List ℕ) → IsTrue (D.may_read desk.old name) }
        requires write { (name : List ℕ) → IsTrue (D.may_write desk.old name) }
    {
        let mut journal = Journal::new(alloc);
        run(
            alloc,
            words,
            desk,
            &mut self.kit,
            &self.choosers,
            &mut journal,
        )
    }
}

/// The words of a command.
fn words(alloc: Global, texts: &[&str]) -> Result<Vec<String>, AllocError> {
    texts
        .iter()
        .map(|text| String::from_str(alloc, text))
        .try_collect(alloc)
}

/// The words of a repair, of which these ones are what failed.
fn repair_words(alloc: Global, failed: &[u8]) -> Result<Vec<String>, AllocError> {
    let mut all = words(alloc, &["reconfigure", "m.conf", "f.json"])?;
    for word in words_of(alloc, failed)? {
        all.push(String::from_str(alloc, word)?)?;
    }
    Ok(all)
}

/// What a run printed, and its status: the number, and the line where it has one.
#[derive(Drop)]
pub(crate) struct Outcome {
    pub(crate) printed: Vec<u8>,
    pub(crate) status: String,
}

/// The number of the status, and behind a space its line where it has one.
pub(crate) fn status_text(alloc: Global, status: &Status) -> Result<String, AllocError> {
    let number = status.number();
    let line = line_of(alloc, status)?;
    if line.is_empty() {
        return format!(in alloc; "{number}");
    }
    let line = String::from_utf8_lossy(alloc, &line)?;
    format!(in alloc; "{number} {line}")
}

/// What comes of a case.
pub(crate) fn run_case(
    alloc: Global,
    parts: &mut Parts,
    case: &Case<'_>,
) -> Result<Outcome, AllocError> {
    let model = String::from_str(alloc, "m.conf")?;
    let mut files = vec![in alloc; (model, case.model.to_vec(alloc)?)]?;
    let words = if let Some(former) = case.former {
        files.push((String::from_str(alloc, "f.json")?, former.to_vec(alloc)?))?;
        repair_words(alloc, case.failed)?
    } else if let Some(config) = case.config {
        files.push((String::from_str(alloc, "c.json")?, config.to_vec(alloc)?))?;
        words(alloc, &["verify", "m.conf", "c.json"])?
    } else {
        words(alloc, &["solve", "m.conf"])?
    };
    let mut desk = SteadyDesk::new(alloc, files);
    let status = parts.run(alloc, &words, &mut desk);
    Ok(Outcome {
        printed: desk.printed().to_vec(alloc)?,
        status: status_text(alloc, &status)?,
    })
}

/// What stands behind the first line.
pub(crate) fn behind_first_line(text: &[u8]) -> &[u8] {
    match text.iter().position(|byte| *byte == b'\n') {
        Some(at) => &text[at + 1..],
        None => &text[text.len()..],
    }
}
