//! Logs of one kind of line, and the problem that they speak of.
ghost use Rattle.std.specs.Prelude.{◌≤ℤ◌, pos};

use ground_form::{Con, Cons, Domains, Goals, Ground};
use log_form::Line;
use numbered_clauses::{Chain, ChainSteps};
use proof_log::lines_text;
use signed_clause::{Clause, ClauseHandle, IntSet, resolve};
use std::alloc::{AllocError, Global};

/// How many variables there are, and literals in a long clause.
const VARIABLES: u32 = 30;

/// How many clauses the steps of chains name.
const CLAUSES: u32 = 100;

/// How many kinds of logs there are.
pub(crate) const KINDS: u32 = 7;

/// A log.
#[derive(Drop)]
pub(crate) struct Log {
    /// What the row of the table is called.
    pub name: &'static str,
    /// Its text.
    pub text: Vec<u8>,
}

/// What clauses are like: how many literals they have, and whether each literal of a clause says
/// less than that of the clause before.
#[derive(Clone, Copy)]
struct Shape {
    literals: u32,
    grows: bool,
}

/// A kind of log: how many steps its chains have, 0 where it is one of axioms, and by how much its
/// lines are many.
#[derive(Clone, Copy)]
struct Kind {
    name: &'static str,
    shape: Shape,
    steps: u32,
    lines: u32,
}

/// The kind of a number.
fn nth_kind(kind: u32) -> Kind {
    let (name, literals, steps, lines) = match kind {
        0 => ("axioms of 1 literal", 1, 0, 200),
        1 => ("axioms of 30 literals", 30, 0, 20),
        2 => ("chains of 3 steps, 1 literal", 1, 3, 100),
        3 => ("chains of 10 steps, 30 literals", 30, 10, 10),
        4 => ("chains of 30 steps, 30 literals", 30, 30, 4),
        5 => ("chains of 100 steps, 30 literals", 30, 100, 2),
        _ => ("chains of 30 steps, 30 literals that grow", 30, 30, 4),
    };
    let grows = kind == 6;
    Kind {
        name,
        shape: Shape { literals, grows },
        steps,
        lines,
    }
}

/// The greatest value that a clause of a number gives a variable; without a number 4.
fn most_of(x: u32, number: Option<u32>, grows: bool) -> i64
    ensures { pos 0 ≤ℤ result }
{
    match number {
        None => 4,
        Some(number) if grows => i64::from(number).saturating_add(4).max(0),
        Some(number) => match x.wrapping_add(number) % 3 {
            0 => 4,
            1 => 5,
            _ => 6,
        },
    }
}

/// The clause that some of the first variables has a small value.
fn clause_of(alloc: Global, shape: Shape, number: Option<u32>) -> Result<Clause, AllocError> {
    let mut out = Vec::new(alloc);
    for x in 0..shape.literals {
        let most = most_of(x, number, shape.grows);
        out.push((x, IntSet::range(alloc, 0, most)))?;
    }
    Clause::of(out).map_err(|_| AllocError)
}

/// The clause that some of the first variables is at most 4.
fn plain_clause(alloc: Global, literals: u32) -> Result<Clause, AllocError> {
    let shape = Shape {
        literals,
        grows: false,
    };
    clause_of(alloc, shape, None)
}

/// Variables of 0..199, and two clauses: of all of them, and of the first.
pub(crate) fn problem(alloc: Global) -> Result<Ground, AllocError> {
    let mut domains = Vec::new(alloc);
    for _ in 0..VARIABLES {
        domains.push(IntSet::range(alloc, 0, 199))?;
    }
    let all = Con::of_clause(alloc, plain_clause(alloc, VARIABLES)?)?;
    let first = Con::of_clause(alloc, plain_clause(alloc, 1)?)?;
    Ok(Ground {
        domains: Domains::of(domains),
        search: VARIABLES,
        cons: Cons::of(vec![in alloc; all, first]?),
        goals: Goals::of(Vec::new(alloc)),
    })
}

/// The first owner of a clause.
fn owned(alloc: Global, clause: Clause) -> Result<ClauseHandle, AllocError> {
    ClauseHandle::of(alloc, clause).map_err(|_| AllocError)
}

/// The text of one line.
fn text_of(alloc: Global, line: Line) -> Result<Vec<u8>, AllocError> {
    let lines = vec![in alloc; line]?;
    lines_text(alloc, lines.as_slice())
}

/// The text of an axiom, the clause of a number.
fn axiom(alloc: Global, shape: Shape, number: u32) -> Result<Vec<u8>, AllocError> {
    let con = if shape.literals == 1 { 1 } else { 0 };
    let clause = clause_of(alloc, shape, Some(number))?;
    text_of(alloc, Line::Axiom(con, owned(alloc, clause)?))
}

/// The resolvent on a variable that both clauses have; else the first clause again.
fn resolvent(alloc: Global, a: &Clause, b: &Clause, x: u32) -> Result<Clause, AllocError> {
    if a.set_of(x).is_none() || b.set_of(x).is_none() {
        return a.copy();
    }
    resolve(alloc, a, b, x)
}

/// The text of a chain, from clause 0 on, on one variable after the other.
fn chain(alloc: Global, shape: Shape, steps: u32) -> Result<Vec<u8>, AllocError> {
    let mut last = clause_of(alloc, shape, Some(0))?;
    let mut items = Vec::new(alloc);
    for step in 0..steps {
        let number = step % CLAUSES;
        let x = step % shape.literals.max(1);
        let other = clause_of(alloc, shape, Some(number))?;
        last = resolvent(alloc, &last, &other, x)?;
        items.push((x, u64::from(number)))?;
    }
    let steps = ChainSteps::of(items);
    text_of(
        alloc,
        Line::Chain(Chain { first: 0, steps }, owned(alloc, last)?),
    )
}

/// The clauses that chains name, and then the line, so many times.
fn repeated(alloc: Global, shape: Shape, line: &[u8], times: u32) -> Result<Vec<u8>, AllocError> {
    let mut text = Vec::new(alloc);
    for number in 0..CLAUSES {
        text.extend_from_slice(axiom(alloc, shape, number)?.as_slice())?;
    }
    for _ in 0..times {
        text.extend_from_slice(line)?;
    }
    Ok(text)
}

/// The log of a kind, whose lines are so many times those of a short one.
pub(crate) fn nth_log(alloc: Global, number: u32, times: u32) -> Result<Log, AllocError> {
    let kind = nth_kind(number);
    let line = if kind.steps == 0 {
        axiom(alloc, kind.shape, 0)?
    } else {
        chain(alloc, kind.shape, kind.steps)?
    };
    let times = kind.lines.saturating_mul(times);
    Ok(Log {
        name: kind.name,
        text: repeated(alloc, kind.shape, line.as_slice(), times)?,
    })
}
