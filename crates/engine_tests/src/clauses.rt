//! What cases ask of sets and clauses.
//!
//! - `lists FIRST`: how many pairs of sets of six numbers are as their lists of numbers.
//! - `long FIRST`: how many pairs of long sets of 44 numbers are.
//! - `less SET SET`: the first without the second. `count SET`: how many numbers it has.
//! - `clause LITERAL ..`: how many literals are refused, or the clause.
//! - `resolve CLAUSE | CLAUSE`: the resolvent on variable 0.
//! - `boxes CLAUSE | BOX ..`: whether the clause is false in the boxes, whether it acts there, and
//!   its unit.
//! - `cut CLAUSE | DOMAIN ..`: the clause cut to the domains.
use crate::bounds::has_boxes;
use crate::given::{answer_of, literal_text, two_lists};
use crate::sets::{count_agreeing, count_long_agreeing};
use rule_law::cut_to;
use signed_clause::{Clause, resolve};
use std::alloc::{AllocError, Global};
use test_case_files::{Case, Subject, words_of};
use test_problems::{
    Unread, clause_of, clause_text, literals_of, number, set_of, set_text, sets_of,
};

/// What is asked of sets and clauses.
#[derive(Drop)]
pub(crate) struct Clauses;

/// How many numbers a set has.
fn count(alloc: Global, words: &[&str]) -> Result<String, Unread> {
    let [set] = words else {
        return Err(Unread::Form);
    };
    match set_of(alloc, set)?.count() {
        Some(count) => Ok(format!(in alloc; "{count}")?),
        None => Ok(String::from_str(alloc, "more")?),
    }
}

/// The one set without the other.
fn less(alloc: Global, words: &[&str]) -> Result<String, Unread> {
    let [one, other] = words else {
        return Err(Unread::Form);
    };
    let left = set_of(alloc, one)?.less(&set_of(alloc, other)?)?;
    Ok(set_text(alloc, &left)?)
}

/// How many pairs of small sets or of long ones are as their lists.
fn pairs(alloc: Global, ask: &str, words: &[&str]) -> Result<String, Unread> {
    let [first] = words else {
        return Err(Unread::Form);
    };
    let first = number(first)?;
    let count = match ask {
        "lists" => count_agreeing(alloc, first)?,
        _ => count_long_agreeing(alloc, first)?,
    };
    Ok(format!(in alloc; "{count}")?)
}

/// The clause of literals, or how many are refused.
fn made(alloc: Global, words: &[&str]) -> Result<String, Unread> {
    match Clause::of(literals_of(alloc, words)?) {
        Ok(clause) => Ok(clause_text(alloc, &clause)?),
        Err(refused) => {
            let count = refused.literals.len();
            Ok(format!(in alloc; "refused {count}")?)
        }
    }
}

/// The resolvent on 0 of two clauses, where both have it and neither is like the other.
fn resolvent(alloc: Global, one: &Clause, other: &Clause) -> Result<Option<Clause>, AllocError> {
    if one.set_of(0).is_none() || other.set_of(0).is_none() || one.set_of(7).is_some() {
        return Ok(None);
    }
    let made = resolve(alloc, one, other, 0)?;
    if !made.copy()?.same(&made) || one.same(other) {
        return Ok(None);
    }
    Ok(Some(made))
}

/// The resolvent on 0 of the clauses of words.
fn resolved(alloc: Global, one: &[&str], other: &[&str]) -> Result<String, Unread> {
    let one = clause_of(alloc, one)?;
    let other = clause_of(alloc, other)?;
    match resolvent(alloc, &one, &other)? {
        Some(clause) => Ok(clause_text(alloc, &clause)?),
        None => Err(Unread::Form),
    }
}

/// What a clause is in boxes.
fn in_boxes(alloc: Global, clause: &[&str], boxes: &[&str]) -> Result<String, Unread> {
    let clause = clause_of(alloc, clause)?;
    let boxes = sets_of(alloc, boxes)?;
    if !has_boxes(&clause, &boxes) {
        return Err(Unread::Form);
    }
    let unit = match clause.unit(&boxes)? {
        Some((x, set)) => literal_text(alloc, x, &set)?,
        None => String::from_str(alloc, "none")?,
    };
    let (is_false, acts) = (clause.is_false(&boxes), clause.acts(&boxes));
    Ok(format!(in alloc; "{is_false} {acts} {unit}")?)
}

/// The clause cut to the domains.
fn cut(alloc: Global, clause: &[&str], domains: &[&str]) -> Result<String, Unread> {
    let clause = clause_of(alloc, clause)?;
    let domains = sets_of(alloc, domains)?;
    let cut = cut_to(&domains, clause, alloc)?;
    Ok(clause_text(alloc, &cut)?)
}

/// What is asked of two lists of words.
fn told_of_two(alloc: Global, ask: &str, text: &[u8]) -> Result<String, Unread> {
    let (left, right) = two_lists(alloc, text)?;
    match ask {
        "resolve" => resolved(alloc, &left, &right),
        "boxes" => in_boxes(alloc, &left, &right),
        "cut" => cut(alloc, &left, &right),
        _ => Err(Unread::Form),
    }
}

/// What is asked.
fn told(alloc: Global, ask: &str, text: &[u8]) -> Result<String, Unread> {
    let words = words_of(alloc, text)?;
    match ask {
        "lists" | "long" => pairs(alloc, ask, &words),
        "less" => less(alloc, &words),
        "count" => count(alloc, &words),
        "clause" => made(alloc, &words),
        _ => told_of_two(alloc, ask, text),
    }
}

impl Subject for Clauses {
    fn answer(&mut self, alloc: Global, case: &Case<'_>) -> Result<String, AllocError> {
        let told = told(alloc, case.ask, &case.text);
        answer_of(alloc, told)
    }
}
