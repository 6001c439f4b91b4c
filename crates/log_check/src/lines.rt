//! The checker of lines in memory.
ghost use Rattle.std.specs.Prelude.{◌≡◌, true, IfOk, IfErr, OnOk};
ghost use Rattle.ground_form.specs.WellMade.{IsWellMade};
ghost use Rattle.log_form.specs.Acceptance.{accepted};
ghost use Rattle.log_check.specs.Soundness.{Means, FoundSolves};
ghost use Rattle.log_check.specs.Verdicts.{ending};
ghost use Rattle.log_check.specs.Kinds.{shown_of};
ghost use Rattle.log_check.specs.Refusals.{IsRefusedAs};
ghost use Rattle.log_check.specs.declared.lines.CheckError.TheVariants.{Memory};

use crate::progress::Progress;
use crate::verdict::Verdict;
use ground_form::Ground;
use log_form::Line;
use std::alloc::{AllocError, AllocFailed, Global};

/// Why lines are refused.
#[derive(Clone, Copy, Debug, PartialEq, Eq)]
pub enum CheckError {
    /// The lines aren't accepted; this one, counted from 1, is the first that fails.
    Rejected(u64),
    /// There was no memory to check them.
    Memory,
}

impl<T: Drop> From<AllocFailed<T>> for CheckError {
    ghost from_gives = { λ _ e. e ≡ Memory };

    fn from(_: AllocFailed<T>) -> Self {
        CheckError::Memory
    }
}

impl From<AllocError> for CheckError {
    ghost from_gives = { λ _ e. e ≡ Memory };

    fn from(_: AllocError) -> Self {
        CheckError::Memory
    }
}

/// Checks lines against a ground problem.
///
/// Where they are accepted it answers their verdict, and what that says is so: Best, that the
/// values found last are a solution and none is better; NoSolution, that there is none. Whichever
/// it is, the verdict's values are a solution, where it has some.
///
/// # Errors
/// `Rejected` exactly where the lines aren't accepted.
pub fn check(alloc: Global, g: &Ground, lines: &[Line]) -> Result<Verdict, CheckError>
    requires { IsWellMade g.now }
    ensures accepted { OnOk result (accepted g.now lines.now ≡ true) }
    ensures verdict { IfOk result (λ v. v ≡ ending g.now lines.now) }
    ensures sound { IfOk result (λ v. Means g.now (shown_of v)) }
    ensures found { IfOk result (λ v. FoundSolves g.now v.found) }
    ensures refused { IfErr result (λ e. IsRefusedAs g.now lines.now e) }
{
    let mut progress = Progress::new(alloc, g)?;
    for (k, line) in lines.iter().enumerate() {
        if !progress.step(alloc, g, line)? {
            return Err(CheckError::Rejected(k as u64 + 1));
        }
    }
    Ok(progress.into_verdict())
}
