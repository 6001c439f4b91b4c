//! Which constraints the log of a search that found no configuration rests on: those for which the
//! constraints of its needed lines were stated. That they have no configuration either is for a
//! further search to tell.
ghost use Rattle.std.specs.Prelude.{◌≡◌, ◌<◌, ◌^◌, All, length, IfOk};
ghost use Rattle.conf_core.specs.Searching.{EndsAccepted};
ghost use Rattle.conf_core.specs.Suspects.{IsFresh};

use crate::suspects::{Suspect, suspects_of};
use conf_types::Constraint;
use ground_model::Origins;
use log_check::trim;
use log_form::Line;
use model_search::last_round;
use proof_log::Journal;
use std::alloc::{AllocError, Global};

/// As many marks, none of them set.
fn no_marks(alloc: Global, count: usize) -> Result<Vec<bool>, AllocError>
    ensures { IfOk result (λ marks. length marks.items ≡ count) }
{
    let mut marks = Vec::new(alloc);
    marks.resize(count, false)?;
    Ok(marks)
}

/// Sets the mark of a constraint.
fn mark(marks: &mut Vec<bool>, index: u32)
    ensures { length marks.new.items ≡ length marks.old.items }
{
    if (index as usize) < marks.len() {
        marks[index as usize] = true;
    }
}

/// Sets the mark of the constraint that is at this place of a part.
fn mark_at(marks: &mut Vec<bool>, part: &[u32], i: usize)
    ensures { length marks.new.items ≡ length marks.old.items }
{
    if i < part.len() {
        mark(marks, part[i]);
    }
}

/// Sets the mark of the constraint of this part for which the problem's was stated.
fn mark_origin(marks: &mut Vec<bool>, part: &[u32], origins: &Origins, con: u32)
    ensures { length marks.new.items ≡ length marks.old.items }
{
    if let Some(i) = origins.of(con) {
        mark_at(marks, part, i);
    }
}

/// Sets the marks of the constraints that lines name.
fn mark_lines(marks: &mut Vec<bool>, part: &[u32], origins: &Origins, lines: &[Line])
    ensures { length marks.new.items ≡ length marks.old.items }
{
    for line in lines {
        if let Line::Axiom(con, _) = line {
            mark_origin(marks, part, origins, *con);
        }
    }
}

/// The indexes of the marks that are set, and not among the others.
fn others_of(alloc: Global, marks: &[bool], fixing: &[bool]) -> Result<Vec<u32>, AllocError>
    requires few { length marks.now < 2 ^ 32 }
{
    let mut list = Vec::new(alloc);
    for k in 0..marks.len().min(fixing.len()) {
        if marks[k] && !fixing[k] {
            list.push(k as u32)?;
        }
    }
    Ok(list)
}

/// Sets the marks of the constraints of this part on which the values of known cells rest.
fn mark_fixing(marks: &mut Vec<bool>, part: &[u32], origins: &Origins)
    ensures { length marks.new.items ≡ length marks.old.items }
{
    for i in origins.fixing() {
        mark_at(marks, part, *i);
    }
}

/// What is suspected of each constraint, and those that are left out first.
#[derive(Drop)]
pub(crate) struct Blamed {
    pub suspects: Vec<Suspect>,
    pub first: Vec<u32>,
}

/// Which constraints the journal's last round blames: those that its lines name, and those on which
/// the values of known cells rest, since lines don't name these where others were stated by the
/// values. Those that only fix values are not left out first: with open values a search is longer.
pub(crate) fn blamed_by(
    alloc: Global,
    constraints: &[Constraint],
    origins: &Origins,
    journal: &Journal,
) -> Result<Blamed, AllocError>
    requires few { length constraints.now < 2 ^ 32 }
    requires accepted { EndsAccepted journal.now.rounds }
    ensures count { IfOk result (λ b. length b.suspects.items ≡ length constraints.now) }
    ensures fresh { IfOk result (λ b. All IsFresh b.suspects.items) }
{
    let round = last_round(journal);
    let lines = trim(alloc, &round.ground, round.lines.items())?;
    let part = round.part.items();
    let mut fixing = no_marks(alloc, constraints.len())?;
    mark_fixing(&mut fixing, part, origins);
    let mut marks = no_marks(alloc, constraints.len())?;
    mark_lines(&mut marks, part, origins, lines.items());
    let first = others_of(alloc, &marks, &fixing)?;
    mark_fixing(&mut marks, part, origins);
    let suspects = suspects_of(alloc, &marks)?;
    Ok(Blamed { suspects, first })
}
