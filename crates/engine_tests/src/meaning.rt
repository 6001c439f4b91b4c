//! What cases ask of the meaning of constraints, at the ends of the type too: `at VALUE ..` whether
//! the constraint that is given is true at the values, `kind` for its kind, and `before CONSTRAINT`
//! whether the kind stands before that of another one.
ghost use Rattle.std.specs.Prelude.{◌≡◌, IfOk};
ghost use Rattle.ground_form.specs.Bounds.{singles};

use crate::bounds::{is_bounded, is_named};
use crate::given::answer_of;
use ground_form::{Con, holds_at, kind_of};
use signed_clause::IntSet;
use std::alloc::{AllocError, Global};
use test_case_files::{Case, Subject, numbers_of, words_of};
use test_problems::{Unread, constraint_of};

/// What is asked of meaning.
#[derive(Drop)]
pub(crate) struct Meaning;

/// The boxes of single values.
fn single_boxes(alloc: Global, values: &[i64]) -> Result<Vec<IntSet>, AllocError>
    ensures { IfOk result (λ boxes. boxes.items ≡ singles values.now) }
{
    let mut boxes = Vec::new(alloc);
    for v in values {
        boxes.push(IntSet::range(alloc, *v, *v))?;
    }
    Ok(boxes)
}

/// Whether the constraint is true at the values; None where this may not be asked.
fn truth(alloc: Global, con: &Con, values: &[i64]) -> Result<Option<bool>, AllocError> {
    let boxes = single_boxes(alloc, values)?;
    if !is_named(con, values.len(), alloc)? || !is_bounded(con, boxes.as_slice(), alloc)? {
        return Ok(None);
    }
    Ok(Some(holds_at(con, values)))
}

/// The truth at values, as a text.
fn truth_text(alloc: Global, con: &Con, values: &[i64]) -> Result<String, Unread> {
    match truth(alloc, con, values)? {
        Some(is_true) => Ok(format!(in alloc; "{is_true}")?),
        None => Err(Unread::Form),
    }
}

/// Whether the kind of the one stands before that of the other.
fn before(alloc: Global, con: &Con, text: &[u8]) -> Result<String, Unread> {
    let other = constraint_of(alloc, &words_of(alloc, text)?)?;
    let before = kind_of(con) < kind_of(&other);
    Ok(format!(in alloc; "{before}")?)
}

/// What is asked of the constraint that is given.
fn told(alloc: Global, given: &[u8], ask: &str, text: &[u8]) -> Result<String, Unread> {
    let con = constraint_of(alloc, &words_of(alloc, given)?)?;
    match ask {
        "at" => truth_text(alloc, &con, &numbers_of(alloc, text)?),
        "kind" => {
            let kind = kind_of(&con);
            Ok(format!(in alloc; "{kind:?}")?)
        }
        _ => before(alloc, &con, text),
    }
}

impl Subject for Meaning {
    fn answer(&mut self, alloc: Global, case: &Case<'_>) -> Result<String, AllocError> {
        let told = told(alloc, &case.given, case.ask, &case.text);
        answer_of(alloc, told)
    }
}
