//! Tests of `confsolve-view breaks` and `page`. The program runs the cases of `data/breaks.cases` and
//! `data/page.cases`, and prints how many came out as they say.
//!
//! - `given TEXT` and `more TEXT`: the text of the model, or of what a session printed.
//! - `breaks TEXT`: what this configuration breaks of it: what is printed, the status's number, and
//!   its line.
//! - `page WORDS TEXT`: the page of it behind this former configuration, by these words.
//! - `words TEXT`: a run of these words where there are no files.
//! - `fails N`: what the text breaks of itself where the call of the desk with that number fails, and
//!   each handles 4 bytes.
#![tactic(auto)]

use desk_io::{MemoryDesk, StoredFile};
use std::alloc::{AllocError, Global};
use std::process::ExitCode;
use test_case_files::{Case, Subject, numbers_of, run_file, words_of};
use view_reports::run;

/// The runs that cases ask for.
#[derive(Drop)]
struct Runs;

/// A file.
fn file(alloc: Global, name: &str, bytes: &[u8]) -> Result<StoredFile, AllocError> {
    Ok((String::from_str(alloc, name)?, bytes.to_vec(alloc)?))
}

/// Words of their own.
fn owned(alloc: Global, words: &[&str]) -> Result<Vec<String>, AllocError> {
    let mut list = Vec::new(alloc);
    for word in words {
        list.push(String::from_str(alloc, word)?)?;
    }
    Ok(list)
}

/// What a run prints, the number of its status, and its line where it has one.
fn ran(alloc: Global, words: &[String], desk: MemoryDesk) -> Result<String, AllocError> {
    let mut desk = desk;
    let status = run(alloc, words, &mut desk);
    let printed = String::from_utf8_lossy(alloc, desk.printed())?;
    let number = status.number();
    let bytes = status.line(alloc)?;
    let line = String::from_utf8_lossy(alloc, &bytes)?;
    if line.is_empty() {
        format!(in alloc; "{printed}{number}")
    } else {
        format!(in alloc; "{printed}{number} {line}")
    }
}

/// What a configuration breaks of a model, over files in memory, of which these calls fail.
fn broken(
    alloc: Global,
    model: &[u8],
    config: &[u8],
    failing: Vec<u64>,
    step: u32,
) -> Result<String, AllocError> {
    let words = owned(alloc, &["breaks", "model", "config"])?;
    let files = vec![in alloc;
        file(alloc, "model", model)?,
        file(alloc, "config", config)?,
    ]?;
    let desk = MemoryDesk::new(alloc, files, failing);
    ran(
        alloc,
        &words,
        if step > 0 { desk.with_step(step) } else { desk },
    )
}

/// Words, and the text of a configuration behind them.
fn parted(text: &[u8]) -> (&[u8], &[u8]) {
    match text.iter().position(|byte| *byte == b'{') {
        Some(at) => text.split_at(at),
        None => (text, b""),
    }
}

/// The page of answers behind a former configuration, by words before it.
fn paged(alloc: Global, answers: &[u8], text: &[u8]) -> Result<String, AllocError> {
    let (more, former) = parted(text);
    let mut words = owned(alloc, &["page", "former", "answers"])?;
    for word in words_of(alloc, more)? {
        words.push(String::from_str(alloc, word)?)?;
    }
    let files = vec![in alloc;
        file(alloc, "former", former)?,
        file(alloc, "answers", answers)?,
    ]?;
    ran(
        alloc,
        &words,
        MemoryDesk::new(alloc, files, Vec::new(alloc)),
    )
}

impl Subject for Runs {
    fn answer(&mut self, alloc: Global, case: &Case<'_>) -> Result<String, AllocError> {
        match case.ask {
            "breaks" => broken(alloc, &case.given, &case.text, Vec::new(alloc), 0),
            "page" => paged(alloc, &case.given, &case.text),
            "words" => {
                let words = owned(alloc, &words_of(alloc, &case.text)?)?;
                let desk = MemoryDesk::new(alloc, Vec::new(alloc), Vec::new(alloc));
                ran(alloc, &words, desk)
            }
            "fails" => {
                let mut failing = Vec::new(alloc);
                for number in &numbers_of(alloc, &case.text)? {
                    if let Ok(call) = u64::try_from(*number) {
                        failing.push(call)?;
                    }
                }
                broken(alloc, &case.given, &case.given, failing, 4)
            }
            _ => String::from_str(alloc, "unknown"),
        }
    }
}

fn main(rt: HostRuntime) -> ExitCode {
    for file in ["breaks.cases", "page.cases"] {
        if run_file(&rt, file, &mut Runs).is_err() {
            return ExitCode::from(12);
        }
    }
    ExitCode::from(0)
}
