//! Tests of the language: texts, typed models, objects, values, limits and JSON. The program runs
//! the cases of the files in `data`, and prints of each file how many came out as they say.
#![tactic(auto)]

mod declarations;
mod json;
mod judged;
mod objects;
mod parts;
mod paths;
mod tokens;
mod trees;
mod weights;

use declarations::Declarations;
use json::Json;
use judged::Judged;
use objects::ObjectsOfTexts;
use parts::Parts;
use paths::Paths;
use std::alloc::AllocError;
use std::process::ExitCode;
use test_case_files::run_file;
use tokens::Tokens;
use trees::Trees;
use weights::Weights;

/// Runs all files.
fn run_files(rt: &HostRuntime) -> Result<(), AllocError> {
    run_file(rt, "tokens.cases", &mut Tokens)?;
    run_file(rt, "trees.cases", &mut Trees)?;
    run_file(rt, "declarations.cases", &mut Declarations)?;
    run_file(rt, "parts.cases", &mut Parts)?;
    run_file(rt, "objects.cases", &mut ObjectsOfTexts)?;
    run_file(rt, "paths.cases", &mut Paths)?;
    run_file(rt, "weights.cases", &mut Weights)?;
    run_file(rt, "judged.cases", &mut Judged)?;
    run_file(rt, "texts.cases", &mut Json)?;
    run_file(rt, "hints.cases", &mut Json)?;
    run_file(rt, "former.cases", &mut Json)
}

fn main(rt: HostRuntime) -> ExitCode {
    match run_files(&rt) {
        Ok(()) => ExitCode::from(0),
        Err(_) => ExitCode::from(12),
    }
}
