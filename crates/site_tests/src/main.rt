//! Tests of `confsolve-site`: the cases of its models, former texts and tables. The program runs
//! those of `data/model.cases`, `data/faults.cases` and `data/tasks.cases`, and prints how many came
//! out as they say.
//!
//! - `given TEXT` and `more TEXT`: the table of the hosts.
//! - `model TEXT`: the model of it and of these services: what is printed, the status's number, and
//!   its line.
//! - `fewest TEXT`: the same, with as few hosts in use as can be.
//! - `words TEXT`: a run of these words where there are no files.
//! - `run TEXT`: a run of these words where the given text is four files, each behind a byte 30 but
//!   the first: `hosts`, `services`, `state` and `beside`.
//! - `fails N`: a model of the hosts and of a table that has their header alone, where the call of
//!   the desk with that number fails, and each handles 16 bytes.
//! - `lines N`: the same with so many empty lines behind the hosts.
//! - `rows N`: the hosts, and so many services of one name.
//! - `names N`: the hosts, and so many services of different names.
//! - `long N`: the hosts, and a service whose name has so many letters.
#![tactic(auto)]

ghost use Rattle.std.specs.Prelude.{IsTrue, List, ℕ};

use desk_io::{MemoryDesk, StoredFile};
use site_run::run;
use std::alloc::{AllocError, Global};
use std::process::ExitCode;
use test_case_files::{Case, Subject, numbers_of, run_file, words_of};

/// The runs that cases ask for.
#[derive(Drop)]
struct Runs;

/// A file.
fn file(alloc: Global, name: &str, bytes: &[u8]) -> Result<StoredFile, AllocError> {
    Ok((String::from_str(alloc, name)?, bytes.to_vec(alloc)?))
}

/// Words of their own.
fn owned(alloc: Global, words: &[&str]) -> Result<Vec<String>, AllocError> {
    let mut list = Vec::new(alloc);
    for word in words {
        list.push(String::from_str(alloc, word)?)?;
    }
    Ok(list)
}

/// What a run prints, the number of its status, and its line where it has one.
fn ran(alloc: Global, words: &[String], desk: MemoryDesk) -> Result<String, AllocError> {
    let mut desk = desk;
    let status = run(alloc, words, &mut desk);
    let printed = String::from_utf8_lossy(alloc, desk.printed())?;
    let number = status.number();
    let line = status.line(alloc)?;
    if line.is_empty() {
        return format!(in alloc; "{printed}{number}");
    }
    let told = String::from_utf8_lossy(alloc, &line)?;
    format!(in alloc; "{printed}{number} {told}")
}

/// The model of two tables in memory, by these words behind them.
fn modelled(
    alloc: Global,
    hosts: &[u8],
    services: &[u8],
    more: &[&str],
) -> Result<String, AllocError> {
    let mut words = owned(alloc, &["model", "hosts", "services"])?;
    for word in more {
        words.push(String::from_str(alloc, word)?)?;
    }
    let files = vec![in alloc;
        file(alloc, "hosts", hosts)?,
        file(alloc, "services", services)?,
    ]?;
    ran(
        alloc,
        &words,
        MemoryDesk::new(alloc, files, Vec::new(alloc)),
    )
}

/// The files that a given text is, named by what stands in them.
fn files_of(alloc: Global, text: &[u8]) -> Result<Vec<StoredFile>, AllocError> {
    let mut files = Vec::new(alloc);
    for (place, bytes) in text.split(|byte| *byte == 30).enumerate() {
        let name = match place {
            0 => "hosts",
            1 => "services",
            2 => "state",
            _ => "beside",
        };
        files.push(file(alloc, name, bytes)?)?;
    }
    Ok(files)
}

/// A run of words over the files that a given text is.
fn ran_over(alloc: Global, text: &[u8], words: &[&str]) -> Result<String, AllocError> {
    let words = owned(alloc, words)?;
    let files = files_of(alloc, text)?;
    ran(
        alloc,
        &words,
        MemoryDesk::new(alloc, files, Vec::new(alloc)),
    )
}

/// The first line of a text.
fn first_line(text: &[u8]) -> &[u8] {
    match text.iter().position(|byte| *byte == b'\n') {
        Some(at) => &text[..at],
        None => text,
    }
}

/// The model of the hosts and of no services, over a desk of which these calls fail.
fn failed(alloc: Global, hosts: &[u8], failing: Vec<u64>) -> Result<String, AllocError> {
    let words = owned(alloc, &["model", "hosts", "services"])?;
    let services = file(alloc, "services", first_line(hosts))?;
    let files = vec![in alloc; file(alloc, "hosts", hosts)?, services]?;
    ran(
        alloc,
        &words,
        MemoryDesk::new(alloc, files, failing).with_step(16),
    )
}

/// A text, and another one so many times behind it.
fn repeated(alloc: Global, text: &[u8], more: &[u8], count: i64) -> Result<Vec<u8>, AllocError> {
    let mut bytes = text.to_vec(alloc)?;
    for _time in 0..count {
        bytes.extend_from_slice(more)?;
    }
    Ok(bytes)
}

/// A table of so many services.
fn numbered(alloc: Global, count: i64) -> Result<Vec<u8>, AllocError> {
    let mut text = String::from_str(alloc, "name\n")?;
    for number in 0..count {
        text.push_str(format!(in alloc; "s{number}\n")?.as_str())?;
    }
    Ok(text.into_bytes())
}

/// The services that a case asks for by a number.
fn services_by(alloc: Global, ask: &str, count: i64) -> Result<Vec<u8>, AllocError> {
    match ask {
        "rows" => repeated(alloc, b"name\n", b"s1\n", count),
        "names" => numbered(alloc, count),
        _ => repeated(alloc, b"name\n", b"x", count),
    }
}

impl Subject for Runs {
    fn answer(&mut self, alloc: Global, case: &Case<'_>) -> Result<String, AllocError> {
        let numbers = numbers_of(alloc, &case.text)?;
        let count = numbers.first().copied().unwrap_or(0);
        match case.ask {
            "model" => modelled(alloc, &case.given, &case.text, &[]),
            "fewest" => modelled(alloc, &case.given, &case.text, &["--goal", "fewest"]),
            "words" => {
                let words = owned(alloc, &words_of(alloc, &case.text)?)?;
                let desk = MemoryDesk::new(alloc, Vec::new(alloc), Vec::new(alloc));
                ran(alloc, &words, desk)
            }
            "run" => ran_over(alloc, &case.given, &words_of(alloc, &case.text)?),
            "fails" => {
                let mut failing = Vec::new(alloc);
                for number in &numbers {
                    if let Ok(call) = u64::try_from(*number) {
                        failing.push(call)?;
                    }
                }
                failed(alloc, &case.given, failing)
            }
            "lines" => {
                let hosts = repeated(alloc, &case.given, b"\n", count)?;
                modelled(alloc, &hosts, first_line(&case.given), &[])
            }
            "rows" | "names" | "long" => {
                let services = services_by(alloc, case.ask, count)?;
                modelled(alloc, &case.given, &services, &[])
            }
            _ => String::from_str(alloc, "unknown"),
        }
    }
}

fn main(rt: HostRuntime) -> ExitCode {
    for file in ["model.cases", "faults.cases", "tasks.cases"] {
        if run_file(&rt, file, &mut Runs).is_err() {
            return ExitCode::from(12);
        }
    }
    ExitCode::from(0)
}
