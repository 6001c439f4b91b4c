//! Tests of logs: numbered clauses, how lines are spelled, what the checker says. The program runs
//! the cases of the files in `data`, and prints of each file how many came out as they say.
//!
//! - `problems`: the problems that logs are about.
//! - `checked`: what the checker says. `cut`: that where a text is cut changes no answer. `file`: a
//!   log in a file, up to a limit.
//! - `spelling`: lines and their texts. `numbering`: clauses by number. `packing`: packed ones.
#![tactic(auto)]

mod checked;
mod cut;
mod file;
mod numbering;
mod packing;
mod problems;
mod spelling;

use checked::Checked;
use spelling::Spelling;
use std::alloc::AllocError;
use std::process::ExitCode;
use test_case_files::run_file;

/// Runs all files.
fn run_files(rt: &HostRuntime) -> Result<(), AllocError> {
    run_file(rt, "spelling.cases", &mut Spelling)?;
    run_file(rt, "checked.cases", &mut Checked)?;
    run_file(rt, "chains.cases", &mut Checked)
}

fn main(rt: HostRuntime) -> ExitCode {
    match run_files(&rt) {
        Ok(()) => ExitCode::from(0),
        Err(_) => ExitCode::from(12),
    }
}
