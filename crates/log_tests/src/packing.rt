//! Packed clauses, read back. `packed LINE;..` gives Axiom lines with the clauses of these, each
//! packed and made anew, and what has the number behind the last. Each may have its bytes in common
//! with the first.
use log_form::Line;
use numbered_clauses::PackedClauses;
use proof_log::{line_text, read_line};
use signed_clause::ClauseHandle;
use std::alloc::{AllocError, Global};

/// The clauses of Axiom lines, or nothing where a text is no such line.
fn packed_of(alloc: Global, text: &str) -> Result<Option<PackedClauses>, AllocError> {
    let mut clauses = PackedClauses::new(alloc);
    for line in text.split(';') {
        let Ok(Line::Axiom(_, clause)) = read_line(alloc, line.as_bytes()) else {
            return Ok(None);
        };
        clauses.push(alloc, clause.clause(), Some(0))?;
    }
    Ok(Some(clauses))
}

/// The clause of a number, as a line.
fn line_at(alloc: Global, clauses: &PackedClauses, k: u64) -> Result<String, AllocError> {
    let Some(clause) = clauses.get(alloc, k)? else {
        return String::from_str(alloc, "none");
    };
    let clause = ClauseHandle::of(alloc, clause).map_err(|_| AllocError)?;
    let text = line_text(alloc, &Line::Axiom(0, clause))?;
    String::from_utf8_lossy(alloc, &text)
}

/// The clauses of lines, packed and read back.
pub(crate) fn read_back(alloc: Global, text: &[u8]) -> Result<String, AllocError> {
    let text = String::from_utf8_lossy(alloc, text)?;
    let Some(clauses) = packed_of(alloc, &text)? else {
        return String::from_str(alloc, "no axioms");
    };
    let mut out = String::new(alloc);
    for k in 0..clauses.count() {
        out.push_str(&line_at(alloc, &clauses, k)?)?;
        out.push(';')?;
    }
    out.push_str(&line_at(alloc, &clauses, clauses.count())?)?;
    Ok(out)
}
