//! Tests of grounding: a model and its ground problem at every configuration. Both say the same
//! there. The program runs the cases of the files in `data`, and prints of each file how many came
//! out as they say.
//!
//! - `models`: models that are given, and what is made of them.
//! - `series`: many models that are written by rules. `rules`: the rules of `data/models.rules`,
//!   and where each may be used. `writing`: a text by rules.
//! - `comparing`: a model and its ground problem. `configurations`: every configuration of a model.
//!   `extension`: the values of all variables. `stating`: whether constraints are true there.
#![tactic(auto)]

mod comparing;
mod configurations;
mod extension;
mod models;
mod rules;
mod series;
mod stating;
mod writing;

use models::Models;
use series::Series;
use std::alloc::AllocError;
use std::fs;
use std::process::ExitCode;
use test_case_files::run_file;

/// Runs all files.
fn run_files(rt: &HostRuntime) -> Result<(), AllocError> {
    run_file(rt, "models.cases", &mut Models)?;
    let Ok(rules) = fs::read(rt, "models.rules") else {
        return Ok(());
    };
    run_file(rt, "series.cases", &mut Series::new(rules))
}

fn main(rt: HostRuntime) -> ExitCode {
    match run_files(&rt) {
        Ok(()) => ExitCode::from(0),
        Err(_) => ExitCode::from(12),
    }
}
