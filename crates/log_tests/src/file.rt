//! What the checker says of a log in a file.
ghost use Rattle.ground_form.specs.WellMade.{IsWellMade};

use desk_io::SteadyDesk;
use ground_form::Ground;
use log_check::{Checker, VerdictKind};
use log_file::{FileCheck, check_file};
use std::alloc::{AllocError, Global};

/// A desk with one file, `log`.
fn desk_with(alloc: Global, text: &[u8]) -> Result<SteadyDesk, AllocError> {
    let bytes = text.to_vec(alloc)?;
    let name = String::from_str(alloc, "log")?;
    Ok(SteadyDesk::new(alloc, vec![in alloc; (name, bytes)]?))
}

/// What is said of a file with this text, of which no more than `limit` bytes may be there.
pub(crate) fn answer_to_file(
    alloc: Global,
    g: &Ground,
    text: &[u8],
    limit: u64,
) -> Result<VerdictKind, FileCheck>
    requires { IsWellMade g.now }
{
    let mut desk = desk_with(alloc, text)?;
    let mut checker = Checker::new(alloc, g)?;
    check_file(alloc, &mut desk, "log", limit, &mut checker)?;
    let verdict = checker.finish()?;
    Ok(verdict.kind())
}
