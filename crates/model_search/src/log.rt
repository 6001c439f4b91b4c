//! The text of a log without the lines that nobody needs.
ghost use Rattle.std.specs.Prelude.{◌≡◌, true, IfOk};
ghost use Rattle.ground_form.specs.WellMade.{IsWellMade};
ghost use Rattle.log_check.specs.Trimmed.{trimmed};
ghost use Rattle.log_form.specs.Acceptance.{accepted};
ghost use Rattle.proof_log.specs.Spelling as spelling;

use ground_form::Ground;
use log_check::trim;
use log_form::Line;
use proof_log::lines_text;
use std::alloc::{AllocError, Global};

/// The text of the lines that are needed of accepted ones.
pub fn trimmed_text(alloc: Global, g: &Ground, lines: &[Line]) -> Result<Vec<u8>, AllocError>
    requires well_made { IsWellMade g.now }
    requires accepted { accepted g.now lines.now ≡ true }
    ensures text { IfOk result
        (λ text. text.items ≡ spelling.lines_text (trimmed g.now lines.now)) }
{
    let kept = trim(alloc, g, lines)?;
    lines_text(alloc, kept.items())
}
