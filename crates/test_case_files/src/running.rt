//! Cases that are run.
use crate::cases::{Case, cases_of};
use std::alloc::{AllocError, Global};
use std::fs;

/// What the cases of a file are about.
pub trait Subject {
    /// What comes of a case.
    ///
    /// # Errors
    /// Want of memory.
    fn answer(&mut self, alloc: Global, case: &Case<'_>) -> Result<String, AllocError>;
}

/// Whether what came is what may come.
fn is_as_said(case: &Case<'_>, came: &[u8]) -> bool {
    for wanted in &case.wanted {
        if wanted.as_slice() == came {
            return true;
        }
    }
    false
}

/// Runs the cases of a file, and prints how many there are and how many came out as they say. What
/// came of another one is printed with the number of its line.
///
/// # Errors
/// Want of memory.
pub fn run_file<S: Subject>(
    rt: &HostRuntime,
    file: &str,
    subject: &mut S,
) -> Result<(), AllocError> {
    let alloc = rt.alloc();
    let Ok(text) = fs::read(rt, file) else {
        let _ = println!(rt; "{file}: can't be read");
        return Ok(());
    };
    let cases = cases_of(alloc, &text)?;
    let mut right = 0_u64;
    for case in &cases {
        let came = subject.answer(alloc, case)?;
        if is_as_said(case, came.as_bytes()) {
            right = right.saturating_add(1);
        } else {
            let line = case.line;
            let _ = println!(rt; "{file}:{line}: gives {came}");
        }
    }
    let count = cases.len();
    let _ = println!(rt; "{file}: {right} of {count} as they say");
    Ok(())
}
