//! Tests of the engine's base and of the propagators, of what no clause says. The program runs the
//! cases of the files in `data`, and prints of each file how many came out as they say.
//!
//! - `given`: what texts of cases give, and what comes as a text.
//! - `sets`: sets of integers against lists of numbers.
//! - `clauses`: sets, clauses, and clauses cut to the domains. `running`: running clauses and
//!   handles of clauses.
//! - `meaning`: what the kinds of constraints mean. `rules`: when boxes refute a constraint, when
//!   it is quiet there, and what it justifies. `bounds`: whether this may be asked.
//! - `building`: problems that are built call by call.
//! - `kits`: kits of propagators.
//! - `asking`: the propagators, most of them over a table of boxes: one is asked until it has
//!   nothing more to say, and what is left has to be what plain probing leaves. `harness`: how one
//!   is asked, and compared with plain probing. `tables`: the boxes of a table, and in how many of
//!   them one does what it should. `points`: the points at which a constraint is true.
#![tactic(auto)]

mod asking;
mod bounds;
mod building;
mod clauses;
mod given;
mod harness;
mod kits;
mod meaning;
mod points;
mod rules;
mod running;
mod sets;
mod tables;

use asking::Propagators;
use building::Building;
use clauses::Clauses;
use kits::Kits;
use meaning::Meaning;
use rules::Rules;
use running::Running;
use std::alloc::AllocError;
use std::process::ExitCode;
use test_case_files::run_file;

/// Runs all files.
fn run_files(rt: &HostRuntime) -> Result<(), AllocError> {
    run_file(rt, "clauses.cases", &mut Clauses)?;
    run_file(rt, "running.cases", &mut Running::new(rt.alloc())?)?;
    run_file(rt, "meaning.cases", &mut Meaning)?;
    run_file(rt, "rules.cases", &mut Rules)?;
    run_file(rt, "building.cases", &mut Building)?;
    run_file(rt, "kits.cases", &mut Kits)?;
    let mut propagators = Propagators::new(rt.alloc());
    run_file(rt, "sums.cases", &mut propagators)?;
    run_file(rt, "flags.cases", &mut propagators)?;
    run_file(rt, "choices.cases", &mut propagators)?;
    run_file(rt, "packings.cases", &mut propagators)
}

fn main(rt: HostRuntime) -> ExitCode {
    match run_files(&rt) {
        Ok(()) => ExitCode::from(0),
        Err(_) => ExitCode::from(12),
    }
}
