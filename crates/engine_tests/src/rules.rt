//! What cases ask of the rules of the constraint that is given: `in BOX ..` whether the boxes
//! refute it, or it is quiet there, and `justified CLAUSE | DOMAIN ..` whether it justifies the
//! clause over the domains.
use crate::bounds::{is_bounded, is_named};
use crate::given::{answer_of, two_lists};
use ground_form::Con;
use rule_law::{justified, quiet, refutes};
use signed_clause::{Clause, IntSet};
use std::alloc::{AllocError, Global};
use test_case_files::{Case, Subject, words_of};
use test_problems::{Unread, clause_of, constraint_of, sets_of};

/// What is asked of rules.
#[derive(Drop)]
pub(crate) struct Rules;

/// Whether the boxes refute the constraint, and whether it is quiet; None where this may not be
/// asked.
fn rules_in(
    alloc: Global,
    con: &Con,
    boxes: &[IntSet],
) -> Result<Option<(bool, bool)>, AllocError> {
    if !is_named(con, boxes.len(), alloc)? || !is_bounded(con, boxes, alloc)? {
        return Ok(None);
    }
    Ok(Some((refutes(con, boxes), quiet(con, boxes))))
}

/// What the boxes do, as a text.
fn rules_text(alloc: Global, con: &Con, boxes: &[&str]) -> Result<String, Unread> {
    let boxes = sets_of(alloc, boxes)?;
    let text = match rules_in(alloc, con, &boxes)? {
        Some((true, false)) => "refuted",
        Some((false, true)) => "quiet",
        Some((false, false)) => "neither",
        Some((true, true)) => "both",
        None => return Err(Unread::Form),
    };
    Ok(String::from_str(alloc, text)?)
}

/// Whether the constraint justifies the clause; None where this may not be asked.
fn justice(
    alloc: Global,
    con: &Con,
    domains: &[IntSet],
    clause: &Clause,
) -> Result<Option<bool>, AllocError> {
    if !is_named(con, domains.len(), alloc)? || !is_bounded(con, domains, alloc)? {
        return Ok(None);
    }
    Ok(Some(justified(con, domains, clause)))
}

/// Whether the constraint justifies the clause of a text, as a text.
fn justice_text(alloc: Global, con: &Con, text: &[u8]) -> Result<String, Unread> {
    let (clause, domains) = two_lists(alloc, text)?;
    let clause = clause_of(alloc, &clause)?;
    let domains = sets_of(alloc, &domains)?;
    match justice(alloc, con, &domains, &clause)? {
        Some(is_justified) => Ok(format!(in alloc; "{is_justified}")?),
        None => Err(Unread::Form),
    }
}

/// What is asked of the constraint that is given.
fn told(alloc: Global, given: &[u8], ask: &str, text: &[u8]) -> Result<String, Unread> {
    let con = constraint_of(alloc, &words_of(alloc, given)?)?;
    match ask {
        "in" => rules_text(alloc, &con, &words_of(alloc, text)?),
        _ => justice_text(alloc, &con, text),
    }
}

impl Subject for Rules {
    fn answer(&mut self, alloc: Global, case: &Case<'_>) -> Result<String, AllocError> {
        let told = told(alloc, &case.given, case.ask, &case.text);
        answer_of(alloc, told)
    }
}
