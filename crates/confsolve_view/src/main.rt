//! The program `confsolve-view`: words, real files, standard output, exit status. It collects the
//! words behind its name, does what they ask for over real files and standard output, writes the
//! line of a status that has one on standard error, and ends with the status's number.
#![tactic(auto)]

use desk_io::RealDesk;
use std::alloc::AllocError;
use std::io::ErrorKind;
use std::process::ExitCode;
use std::{env, io};
use view_reports::is_report;
use view_run::{Status, run};

/// The words behind the program's name. A word that isn't UTF-8 is an error.
fn collected(rt: &HostRuntime) -> io::Result<Vec<String>> {
    Ok(env::args(rt)?.skip(1).collect(rt.alloc())?)
}

/// The words behind the program's name, or the status where they can't be had.
fn words_of(rt: &HostRuntime) -> Result<Vec<String>, Status> {
    match collected(rt) {
        Ok(words) => Ok(words),
        Err(e) if e.kind() == ErrorKind::OutOfMemory => Err(Status::Memory),
        Err(_) => Err(Status::Usage),
    }
}

/// Runs the words over real files.
fn run_words(rt: &HostRuntime, words: &[String]) -> Result<Status, AllocError> {
    let mut desk = RealDesk::new(rt.clone()?);
    Ok(run(rt.alloc(), words, &mut desk))
}

/// Writes the line of a status, where it has one, and gives its number.
fn told(rt: &HostRuntime, status: Status) -> u8 {
    let line = status.line();
    if !line.is_empty() {
        let _ = eprintln!(rt; "{line}");
    }
    status.number()
}

/// Does the words of a report over real files, and writes its line likewise.
fn report(rt: &HostRuntime, words: &[String]) -> Result<u8, AllocError> {
    let mut desk = RealDesk::new(rt.clone()?);
    let status = view_reports::run(rt.alloc(), words, &mut desk);
    let line = status.line(rt.alloc())?;
    if !line.is_empty() {
        let text = String::from_utf8_lossy(rt.alloc(), &line)?;
        let _ = eprintln!(rt; "{text}");
    }
    Ok(status.number())
}

/// The number of the status of what the words behind the program's name ask for.
fn number_of(rt: &HostRuntime) -> Result<u8, Status> {
    let words = words_of(rt)?;
    if is_report(&words) {
        return Ok(report(rt, &words)?);
    }
    let status = run_words(rt, &words)?;
    Ok(told(rt, status))
}

fn main(rt: HostRuntime) -> ExitCode {
    let number = match number_of(&rt) {
        Ok(number) => number,
        Err(status) => told(&rt, status),
    };
    ExitCode::from(number)
}
