//! The text of lines.
//!
//! A line is its word and its pieces, each behind one space. Whatever is written goes to the end of
//! one growing list of bytes; nothing is written twice.
ghost use Rattle.std.specs.Prelude.{◌≡◌, ◌++◌, [], ◌∷◌, IfOk, OnOk, map, decimal, codes};
ghost use Rattle.std.specs.Fmt.{signed_decimal};
ghost use Rattle.proof_log.specs.Spelling as spelling;
ghost use Rattle.proof_log.specs.Spelling.{behind, range_text, set_text, literal_text, step_text};

use itoa::Buffer;
use log_form::Line;
use numbered_clauses::Chain;
use signed_clause::{Clause, IntSet};
use std::alloc::{AllocError, Global};

/// The text of a line, without the LF that ends it.
pub fn line_text(alloc: Global, l: &Line) -> Result<Vec<u8>, AllocError>
    ensures { IfOk result (λ text. text.items ≡ spelling.line_text l.now) }
{
    let mut out = Vec::new(alloc);
    push_line(&mut out, l)?;
    Ok(out)
}

/// The text of lines, each ended by one LF.
pub fn lines_text(alloc: Global, lines: &[Line]) -> Result<Vec<u8>, AllocError>
    ensures { IfOk result (λ text. text.items ≡ spelling.lines_text lines.now) }
{
    let mut out = Vec::new(alloc);
    for l in lines {
        push_line(&mut out, l)?;
        out.push(b'\n')?;
    }
    Ok(out)
}

/// Adds the text of a line.
fn push_line(out: &mut Vec<u8>, l: &Line) -> Result<(), AllocError>
    ensures { OnOk result (out.new.items ≡ out.old.items ++ spelling.line_text l.now) }
{
    match l {
        Line::Axiom(k, clause) => {
            out.extend_from_slice(b"axiom")?;
            push_piece(out, *k as u64)?;
            push_clause(out, clause.clause())
        }
        Line::Chain(chain, clause) => {
            out.extend_from_slice(b"chain")?;
            push_chain(out, chain)?;
            out.extend_from_slice(b" =")?;
            push_clause(out, clause.clause())
        }
        Line::Bound(values) => {
            out.extend_from_slice(b"bound")?;
            push_values(out, values.items())
        }
        Line::Use(i) => {
            out.extend_from_slice(b"use")?;
            push_piece(out, *i)
        }
        Line::Found(values) => {
            out.extend_from_slice(b"found")?;
            push_values(out, values.items())
        }
        Line::Decide(x, set) => {
            out.extend_from_slice(b"decide")?;
            push_piece(out, *x as u64)?;
            out.push(b' ')?;
            push_set(out, set)
        }
        Line::Empty(x) => {
            out.extend_from_slice(b"empty")?;
            push_piece(out, *x as u64)
        }
    }
}

/// Adds a number.
fn push_number(out: &mut Vec<u8>, n: u64) -> Result<(), AllocError>
    ensures { OnOk result (out.new.items ≡ out.old.items ++ decimal n) }
{
    let mut buffer = Buffer::new();
    out.extend_from_slice(buffer.format(n).as_bytes())
}

/// Adds a space and a number.
fn push_piece(out: &mut Vec<u8>, n: u64) -> Result<(), AllocError>
    ensures { OnOk result (out.new.items ≡ out.old.items ++ behind 32 (decimal n ∷ [])) }
{
    out.push(b' ')?;
    push_number(out, n)
}

/// Adds the ends of a range, or its one value.
fn push_range(out: &mut Vec<u8>, r: (i64, i64)) -> Result<(), AllocError>
    ensures { OnOk result (out.new.items ≡ out.old.items ++ range_text r) }
{
    let mut buffer = Buffer::new();
    out.extend_from_slice(buffer.format(r.0).as_bytes())?;
    if r.0 != r.1 {
        out.extend_from_slice(b"..")?;
        out.extend_from_slice(buffer.format(r.1).as_bytes())?;
    }
    Ok(())
}

/// Adds a set.
fn push_set(out: &mut Vec<u8>, set: &IntSet) -> Result<(), AllocError>
    ensures { OnOk result (out.new.items ≡ out.old.items ++ set_text set.now) }
{
    let ranges = set.ranges();
    if ranges.is_empty() {
        return Ok(());
    }
    push_range(out, ranges[0])?;
    push_more_ranges(out, &ranges[1..])
}

/// Adds ranges, each behind a comma.
fn push_more_ranges(out: &mut Vec<u8>, ranges: &[(i64, i64)]) -> Result<(), AllocError>
    ensures { OnOk result (out.new.items ≡ out.old.items ++ behind 44 (map range_text ranges.now)) }
{
    for r in ranges {
        out.push(b',')?;
        push_range(out, *r)?;
    }
    Ok(())
}

/// Adds the literals of a clause.
fn push_clause(out: &mut Vec<u8>, clause: &Clause) -> Result<(), AllocError>
    ensures { OnOk result (out.new.items ≡ out.old.items
        ++ behind 32 (map literal_text clause.now)) }
{
    let literals = clause.literals();
    for l in literals {
        push_literal(out, l)?;
    }
    Ok(())
}

/// Adds a space and a literal.
fn push_literal(out: &mut Vec<u8>, l: &(u32, IntSet)) -> Result<(), AllocError>
    ensures { OnOk result (out.new.items ≡ out.old.items ++ behind 32 (literal_text l.now ∷ [])) }
{
    push_piece(out, l.0 as u64)?;
    out.push(b':')?;
    push_set(out, &l.1)
}

/// Adds where a chain begins, and its steps.
fn push_chain(out: &mut Vec<u8>, chain: &Chain) -> Result<(), AllocError>
    ensures { OnOk result (out.new.items ≡ out.old.items
        ++ behind 32 (decimal chain.now.first ∷ map step_text chain.now.steps)) }
{
    push_piece(out, chain.first)?;
    push_steps(out, chain.steps.items())
}

/// Adds steps of a chain.
fn push_steps(out: &mut Vec<u8>, steps: &[(u32, u64)]) -> Result<(), AllocError>
    ensures { OnOk result (out.new.items ≡ out.old.items ++ behind 32 (map step_text steps.now)) }
{
    for s in steps {
        push_step(out, *s)?;
    }
    Ok(())
}

/// Adds a space and a step.
fn push_step(out: &mut Vec<u8>, s: (u32, u64)) -> Result<(), AllocError>
    ensures { OnOk result (out.new.items ≡ out.old.items ++ behind 32 (step_text s ∷ [])) }
{
    push_piece(out, s.0 as u64)?;
    out.push(b':')?;
    push_number(out, s.1)
}

/// Adds values.
fn push_values(out: &mut Vec<u8>, values: &[i64]) -> Result<(), AllocError>
    ensures { OnOk result (out.new.items ≡ out.old.items
        ++ behind 32 (map signed_decimal values.now)) }
{
    for v in values {
        out.push(b' ')?;
        push_value(out, *v)?;
    }
    Ok(())
}

/// Adds a value.
fn push_value(out: &mut Vec<u8>, v: i64) -> Result<(), AllocError>
    ensures { OnOk result (out.new.items ≡ out.old.items ++ signed_decimal v) }
{
    let mut buffer = Buffer::new();
    out.extend_from_slice(buffer.format(v).as_bytes())
}
