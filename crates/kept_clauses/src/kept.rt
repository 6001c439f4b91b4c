//! Which lines of a log make clauses that rest on the first constraints alone.
ghost use Rattle.std.specs.Prelude.{◌≡◌, ◌<◌, ◌++◌, [], ◌∷◌, true, false, ℤ, List};
ghost use Rattle.std.specs.Prelude.{take, replicate, IfOk, OnOk};
ghost use Rattle.std.specs.List.{All};
ghost use Rattle.signed_clause.specs.Clauses.{IsClause, clause_true};
ghost use Rattle.ground_form.specs.Meaning.{con_true, clause_vars};
ghost use Rattle.ground_form.specs.Solutions.{IsPoint};
ghost use Rattle.ground_form.specs.WellMade.{IsWellMade};
ghost use Rattle.log_form.specs.Acceptance.{accepted, vars_below};
ghost use Rattle.log_check.specs.Trimmed.{bounds_count};
ghost use Rattle.kept_clauses.specs.Kept as definition;
ghost use Rattle.kept_clauses.specs.Kept.{keeps, kept, marks_of};

use crate::forms::know_lines;
use ground_form::Ground;
use log_form::Line;
use numbered_clauses::Chain;
use signed_clause::Clause;
use std::alloc::{AllocError, Global};

/// For each of accepted lines whether it makes, by a chain, a clause that rests on the first `b`
/// constraints alone and names variables below `n` alone. It takes one pass, with a mark for each
/// clause. Such a clause is true at all values in the domains at which these constraints are.
///
/// # Errors
/// Want of memory for the marks.
#[tactic(auto, using(crate::proofs::Resting::kept_laws))]
pub fn kept_lines(
    alloc: Global,
    g: &Ground,
    n: u32,
    b: u32,
    lines: &[Line],
) -> Result<Vec<bool>, AllocError>
    requires well_made { IsWellMade g.now }
    requires accepted { accepted g.now lines.now ≡ true }
    ensures lines { IfOk result (λ flags. flags.items ≡ keeps g.now n b [] lines.now) }
    ensures form { IfOk result (λ flags. All (λ c. IsClause c) (kept g.now n b lines.now)) }
    ensures low { IfOk result (λ flags. All (λ c. All (λ l. l.0 < n) c)
        (kept g.now n b lines.now)) }
    ensures truths { IfOk result (λ flags. (a : List ℤ) → IsPoint g.now.domains a
        → All (λ con. con_true con a ≡ true) (take b g.now.cons)
        → All (λ c. clause_true c a ≡ true) (kept g.now n b lines.now)) }
{
    know_lines(lines);
    let flags = flag_lines(alloc, g, n, b, lines)?;
    Ok(flags)
}

/// For each line whether its clause is kept, in one pass. There is a mark for each clause that was
/// made before.
fn flag_lines(
    alloc: Global,
    g: &Ground,
    n: u32,
    b: u32,
    lines: &[Line],
) -> Result<Vec<bool>, AllocError>
    ensures { IfOk result (λ flags. flags.items ≡ keeps g.now n b [] lines.now) }
{
    let mut marks = Vec::new(alloc);
    let mut flags = Vec::new(alloc);
    for line in lines {
        flags.push(is_kept(n, &marks, line))?;
        push_marks(g, b, &mut marks, line)?;
    }
    Ok(flags)
}

/// Whether the line's clause is kept, where the clauses made before have these marks.
fn is_kept(n: u32, marks: &[bool], line: &Line) -> bool
    ensures { result ≡ definition.is_kept n marks.now line.now }
{
    match line {
        Line::Chain(chain, clause) => { chain_rests(marks, chain) && are_below(clause.clause(), n) }
        _ => false,
    }
}

/// Adds the marks of the clauses that the line makes.
fn push_marks(g: &Ground, b: u32, marks: &mut Vec<bool>, line: &Line) -> Result<(), AllocError>
    ensures { OnOk result (marks.new.items
        ≡ marks.old.items ++ marks_of g.now b marks.old.items line.now) }
{
    match line {
        Line::Axiom(k, _) => push_mark(marks, *k < b),
        Line::Chain(chain, _) => push_chain(marks, chain),
        Line::Bound(_) => push_unmarked(marks, count_bounds(g)),
        Line::Empty(_) => push_mark(marks, false),
        Line::Use(_) | Line::Found(_) | Line::Decide(..) => Ok(()),
    }
}

/// Adds the mark of a chain's clause.
fn push_chain(marks: &mut Vec<bool>, chain: &Chain) -> Result<(), AllocError>
    ensures { OnOk result (marks.new.items
        ≡ marks.old.items ++ definition.chain_rests marks.old.items chain.now ∷ []) }
{
    let rests = chain_rests(marks, chain);
    push_mark(marks, rests)
}

/// Adds a mark.
fn push_mark(marks: &mut Vec<bool>, mark: bool) -> Result<(), AllocError>
    ensures { OnOk result (marks.new.items ≡ marks.old.items ++ mark ∷ []) }
{
    marks.push(mark)?;
    Ok(())
}

/// Adds marks that aren't set.
fn push_unmarked(marks: &mut Vec<bool>, count: usize) -> Result<(), AllocError>
    ensures { OnOk result (marks.new.items ≡ marks.old.items ++ replicate count false) }
{
    for _ in 0..count {
        marks.push(false)?;
    }
    Ok(())
}

/// How many clauses a Bound line makes.
fn count_bounds(g: &Ground) -> usize
    ensures { result ≡ bounds_count g.now.goals }
{
    let goals = g.goals.items();
    if goals.is_empty() { 1 } else { goals.len() }
}

/// Whether all clauses that the chain names are marked.
fn chain_rests(marks: &[bool], chain: &Chain) -> bool
    ensures { result ≡ definition.chain_rests marks.now chain.now }
{
    is_marked(marks, chain.first) && steps_rest(marks, chain.steps.items())
}

/// Whether all clauses that the steps resolve with are marked.
fn steps_rest(marks: &[bool], steps: &[(u32, u64)]) -> bool
    ensures { result ≡ definition.steps_rest marks.now steps.now }
{
    for step in steps {
        if !is_marked(marks, step.1) {
            return false;
        }
    }
    true
}

/// Whether the clause of this number is marked.
#[tactic(auto, using(crate::proofs::Marked::none_past))]
fn is_marked(marks: &[bool], j: u64) -> bool
    ensures { result ≡ definition.is_marked marks.now j }
{
    j < marks.len() as u64 && marks[j as usize]
}

/// Whether the variables of the clause are among the first `n`.
fn are_below(clause: &Clause, n: u32) -> bool
    ensures { result ≡ vars_below n (clause_vars clause.now) }
{
    let literals = clause.literals();
    for l in literals {
        if l.0 >= n {
            return false;
        }
    }
    true
}
