//! Tests of `confsolve-view`: the cases of its plans, pictures and steps. The program runs those of
//! `data/plan.cases`, `data/lists.cases`, `data/picture.cases` and `data/steps.cases`, and prints
//! how many came out as they say.
//!
//! - `given TEXT` and `more TEXT`: the text of the former configuration.
//! - `plan TEXT`: a plan to this text: what is printed, the status's number, and its line.
//! - `lists WORDS TEXT`: a plan to this text, by these words.
//! - `picture WORDS`: a picture of it, by these words.
//! - `steps WORDS TEXT`: the steps from it to this text, by these words.
//! - `words TEXT`: a run of these words where there are no files.
//! - `fails N`: a plan from the text to itself where the call of the desk with that number fails,
//!   and each handles 4 bytes.
//! - `spaces N`: a plan from the text to itself with so many spaces behind it.
#![tactic(auto)]

ghost use Rattle.std.specs.Prelude.{IsTrue, List, ℕ};

use desk_io::{MemoryDesk, StoredFile};
use std::alloc::{AllocError, Global};
use std::process::ExitCode;
use test_case_files::{Case, Subject, numbers_of, run_file, words_of};
use view_run::run;

/// The runs that cases ask for.
#[derive(Drop)]
struct Runs;

/// A file.
fn file(alloc: Global, name: &str, bytes: &[u8]) -> Result<StoredFile, AllocError> {
    Ok((String::from_str(alloc, name)?, bytes.to_vec(alloc)?))
}

/// Words of their own.
fn owned(alloc: Global, words: &[&str]) -> Result<Vec<String>, AllocError> {
    let mut list = Vec::new(alloc);
    for word in words {
        list.push(String::from_str(alloc, word)?)?;
    }
    Ok(list)
}

/// What a run prints, the number of its status, and its line where it has one.
fn ran(alloc: Global, words: &[String], desk: MemoryDesk) -> Result<String, AllocError> {
    let mut desk = desk;
    let status = run(alloc, words, &mut desk);
    let printed = String::from_utf8_lossy(alloc, desk.printed())?;
    let number = status.number();
    let line = status.line();
    if line.is_empty() {
        format!(in alloc; "{printed}{number}")
    } else {
        format!(in alloc; "{printed}{number} {line}")
    }
}

/// A plan over files in memory, of which these calls fail.
fn planned(
    alloc: Global,
    former: &[u8],
    new: &[u8],
    failing: Vec<u64>,
    step: u32,
) -> Result<String, AllocError> {
    let words = owned(alloc, &["plan", "former", "new"])?;
    let files = vec![in alloc; file(alloc, "former", former)?, file(alloc, "new", new)?]?;
    let desk = MemoryDesk::new(alloc, files, failing);
    ran(
        alloc,
        &words,
        if step > 0 { desk.with_step(step) } else { desk },
    )
}

/// A picture of a file in memory, by these words behind the file's.
fn pictured(alloc: Global, config: &[u8], more: &[u8]) -> Result<String, AllocError> {
    let mut words = owned(alloc, &["picture", "config"])?;
    for word in words_of(alloc, more)? {
        words.push(String::from_str(alloc, word)?)?;
    }
    let files = vec![in alloc; file(alloc, "config", config)?]?;
    ran(
        alloc,
        &words,
        MemoryDesk::new(alloc, files, Vec::new(alloc)),
    )
}

/// Words, and the text of a configuration behind them.
fn parted(text: &[u8]) -> (&[u8], &[u8]) {
    match text.iter().position(|byte| *byte == b'{') {
        Some(at) => text.split_at(at),
        None => (text, b""),
    }
}

/// A plan or the steps from one text to another, by words before the second.
fn compared(
    alloc: Global,
    command: &str,
    former: &[u8],
    text: &[u8],
) -> Result<String, AllocError> {
    let (more, new) = parted(text);
    let mut words = owned(alloc, &[command, "former", "new"])?;
    for word in words_of(alloc, more)? {
        words.push(String::from_str(alloc, word)?)?;
    }
    let files = vec![in alloc; file(alloc, "former", former)?, file(alloc, "new", new)?]?;
    ran(
        alloc,
        &words,
        MemoryDesk::new(alloc, files, Vec::new(alloc)),
    )
}

/// The text with so many spaces behind it.
fn spaced(alloc: Global, text: &[u8], count: i64) -> Result<Vec<u8>, AllocError> {
    let mut bytes = text.to_vec(alloc)?;
    for _space in 0..count {
        bytes.push(b' ')?;
    }
    Ok(bytes)
}

impl Subject for Runs {
    fn answer(&mut self, alloc: Global, case: &Case<'_>) -> Result<String, AllocError> {
        let numbers = numbers_of(alloc, &case.text)?;
        match case.ask {
            "plan" => planned(alloc, &case.given, &case.text, Vec::new(alloc), 0),
            "picture" => pictured(alloc, &case.given, &case.text),
            "lists" => compared(alloc, "plan", &case.given, &case.text),
            "steps" => compared(alloc, "steps", &case.given, &case.text),
            "words" => {
                let words = owned(alloc, &words_of(alloc, &case.text)?)?;
                let desk = MemoryDesk::new(alloc, Vec::new(alloc), Vec::new(alloc));
                ran(alloc, &words, desk)
            }
            "fails" => {
                let mut failing = Vec::new(alloc);
                for number in &numbers {
                    if let Ok(call) = u64::try_from(*number) {
                        failing.push(call)?;
                    }
                }
                planned(alloc, &case.given, &case.given, failing, 4)
            }
            "spaces" => {
                let count = numbers.first().copied().unwrap_or(0);
                let new = spaced(alloc, &case.given, count)?;
                planned(alloc, &case.given, &new, Vec::new(alloc), 0)
            }
            _ => String::from_str(alloc, "unknown"),
        }
    }
}

fn main(rt: HostRuntime) -> ExitCode {
    for file in ["plan.cases", "lists.cases", "picture.cases", "steps.cases"] {
        if run_file(&rt, file, &mut Runs).is_err() {
            return ExitCode::from(12);
        }
    }
    ExitCode::from(0)
}
