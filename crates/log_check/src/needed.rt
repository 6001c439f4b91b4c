//! Which lines of a log are needed, found from the last one back.
//!
//! There is a mark for each clause that was made so far, which tells whether a needed line behind
//! names it. Going back over a line takes away the marks of its clauses, and where it is needed,
//! marks those that it names.
//!
//! Found lines stay, since each has to be better than the one before it; Use and Decide lines go,
//! where the empty clause was made.
ghost use Rattle.std.specs.Prelude.{◌≡◌, ◌-◌, ◌≤◌, ◌++◌, true, false, IfOk, OnOk, length, take, slice_index_or, slice_set};
ghost use Rattle.log_check.specs.Trimmed.{clauses_of, bounds_count, is_needed};
ghost use Rattle.log_check.specs.Marks.{clauses_in, needs, unmarked, with_steps, with_names, marked};

use ground_form::Ground;
use log_form::Line;
use std::alloc::{AllocError, Global};

/// For each line whether it is needed.
#[tactic(auto, using(crate::proofs::Marking::clauses_within, crate::proofs::Marking::walked_all))]
pub fn needed_lines(alloc: Global, g: &Ground, lines: &[Line]) -> Result<Vec<bool>, AllocError>
    ensures { IfOk result (λ needed. needed.items ≡ needs g.now 0 lines.now) }
{
    let mut marks = no_marks(alloc, g, lines)?;
    let mut needed = Vec::new(alloc);
    let mut k = lines.len();
    while 0 < k {
        k -= 1;
        needed.push(go_back(g, &lines[k], k + 1 == lines.len(), &mut marks))?;
    }
    needed.reverse();
    Ok(needed)
}

/// How many clauses the line makes.
pub fn count_clauses(g: &Ground, line: &Line) -> usize
    ensures { result ≡ clauses_of g.now line.now }
{
    match line {
        Line::Axiom(..) | Line::Chain(..) | Line::Empty(_) => 1,
        Line::Bound(_) => count_bounds(g),
        Line::Use(_) | Line::Found(_) | Line::Decide(..) => 0,
    }
}

/// How many clauses a Bound line makes.
fn count_bounds(g: &Ground) -> usize
    ensures { result ≡ bounds_count g.now.goals }
{
    let goals = g.goals.items();
    if goals.is_empty() { 1 } else { goals.len() }
}

/// A mark for each clause that the lines make, none of them set.
fn no_marks(alloc: Global, g: &Ground, lines: &[Line]) -> Result<Vec<bool>, AllocError>
    ensures { IfOk result (λ marks. marks.items ≡ unmarked (clauses_in g.now lines.now)) }
{
    let mut marks = Vec::new(alloc);
    for line in lines {
        push_unmarked(&mut marks, count_clauses(g, line))?;
    }
    Ok(marks)
}

/// Adds marks that aren't set.
#[tactic(auto, using(crate::proofs::Marking::unmarked_one))]
fn push_unmarked(marks: &mut Vec<bool>, count: usize) -> Result<(), AllocError>
    ensures { OnOk result (marks.new.items ≡ marks.old.items ++ unmarked count) }
{
    for _ in 0..count {
        marks.push(false)?;
    }
    Ok(())
}

/// Goes back over a line, and answers whether it is needed.
fn go_back(g: &Ground, line: &Line, last: bool, marks: &mut Vec<bool>) -> bool
    requires { clauses_of g.now line.now ≤ length marks.old.items }
    ensures needed { result ≡ is_needed line.now last (slice_index_or marks.old.items
        (length marks.old.items - clauses_of g.now line.now) false) }
    ensures marks { marks.new.items
        ≡ marked result line.now (take (length marks.old.items - clauses_of g.now line.now)
        marks.old.items) }
{
    let before = marks.len() - count_clauses(g, line);
    let needed = is_wanted(line, last, before < marks.len() && marks[before]);
    marks.truncate(before);
    if needed {
        mark_names(line, marks);
    }
    needed
}

/// Whether a line is needed, by whether it is the last and its clause is named.
fn is_wanted(line: &Line, last: bool, named: bool) -> bool
    ensures { result ≡ is_needed line.now last named }
{
    match line {
        Line::Axiom(..) | Line::Chain(..) | Line::Empty(_) => last || named,
        Line::Bound(_) | Line::Found(_) => true,
        Line::Use(_) | Line::Decide(..) => false,
    }
}

/// Marks the clauses that the line names.
fn mark_names(line: &Line, marks: &mut Vec<bool>)
    ensures { marks.new.items ≡ with_names line.now marks.old.items }
{
    if let Line::Chain(chain, _) = line {
        mark(marks, chain.first);
        mark_steps(chain.steps.items(), marks);
    }
}

/// Marks the clauses that the steps resolve with.
fn mark_steps(steps: &[(u32, u64)], marks: &mut Vec<bool>)
    ensures { marks.new.items ≡ with_steps steps.now marks.old.items }
{
    for step in steps {
        mark(marks, step.1);
    }
}

/// Marks the clause of this number, where there is a mark for it.
#[tactic(auto, using(crate::proofs::Marking::set_past))]
fn mark(marks: &mut Vec<bool>, j: u64)
    ensures { marks.new.items ≡ slice_set marks.old.items j true }
{
    if j < marks.len() as u64 {
        marks[j as usize] = true;
    }
}
