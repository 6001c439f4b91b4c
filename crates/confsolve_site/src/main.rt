//! The program `confsolve-site`: words, real files, standard output, exit status. It collects the
//! words behind its name, does what they ask for over real files and standard output, writes the
//! line of a status that has one on standard error, and ends with the status's number.
#![tactic(auto)]

use desk_io::RealDesk;
use site_run::{Status, run};
use std::alloc::AllocError;
use std::io::ErrorKind;
use std::process::ExitCode;
use std::{env, io};

/// The words behind the program's name. A word that isn't UTF-8 is an error.
fn collected(rt: &HostRuntime) -> io::Result<Vec<String>> {
    Ok(env::args(rt)?.skip(1).collect(rt.alloc())?)
}

/// The words behind the program's name, or the status where they can't be had.
fn words_of(rt: &HostRuntime) -> Result<Vec<String>, Status> {
    match collected(rt) {
        Ok(words) => Ok(words),
        Err(e) if e.kind() == ErrorKind::OutOfMemory => Err(Status::Memory),
        Err(_) => Err(Status::Usage),
    }
}

/// Runs the words over real files.
fn run_words(rt: &HostRuntime, words: &[String]) -> Result<Status, AllocError> {
    let mut desk = RealDesk::new(rt.clone()?);
    Ok(run(rt.alloc(), words, &mut desk))
}

/// The status of what the words behind the program's name ask for.
fn status_of(rt: &HostRuntime) -> Result<Status, Status> {
    let words = words_of(rt)?;
    Ok(run_words(rt, &words)?)
}

/// Writes the line of the status on standard error, where it has one.
fn tell(rt: &HostRuntime, status: &Status) -> Result<(), AllocError> {
    let line = status.line(rt.alloc())?;
    if !line.is_empty() {
        let text = String::from_utf8_lossy(rt.alloc(), &line)?;
        let _ = eprintln!(rt; "{text}");
    }
    Ok(())
}

fn main(rt: HostRuntime) -> ExitCode {
    let status = match status_of(&rt) {
        Ok(status) | Err(status) => status,
    };
    let _ = tell(&rt, &status);
    ExitCode::from(status.number())
}
