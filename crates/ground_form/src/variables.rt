//! The variables of a constraint, one by one.
//!
//! `Con::variable_count` and `Con::variable` serve every kind alike, so that one loop goes over the
//! variables of any constraint.
ghost use Rattle.std.specs.Prelude.{◌≡◌, ◌∷◌, length, slice_get};
ghost use Rattle.ground_form.specs.Meaning.{vars_of, term_vars, part_vars, item_vars, clause_vars};

use crate::con::Con;
use signed_clause::IntSet;
use std::mem::size_of_val;

impl Con {
    /// How many variables the constraint names, each as often as it stands there.
    #[tactic(auto, using(crate::proofs::VarsAt::count_terms, crate::proofs::VarsAt::count_parts, crate::proofs::VarsAt::count_literals))]
    pub fn variable_count(&self) -> usize
        ensures { result ≡ length (vars_of self.now) }
    {
        match self {
            Con::LinLe { terms, .. } => terms.items().len(),
            Con::LinDef { terms, .. } => terms.items().len() + 1,
            Con::ReifLe { terms, .. } => terms.items().len() + 1,
            Con::AndDef { parts, .. } => parts.items().len() + 1,
            Con::MemberDef { .. } => 2,
            Con::EqDef { .. } => 3,
            Con::ElementDef { items, .. } => items.items().len() + 2,
            Con::CondDef { .. } => 3,
            Con::ClauseCon { clause } => clause.clause().literals().len(),
            Con::AllDiff { vars } => vars.items().len(),
            Con::Pack { items } => item_count(items.items()),
        }
    }

    /// The variable at the place, counted from 0, in the order in which the constraint names them;
    /// None behind the last.
    #[tactic(auto, using(crate::proofs::VarsAt::behind_at))]
    pub fn variable(&self, i: usize) -> Option<u32>
        ensures { result ≡ slice_get (vars_of self.now) i }
    {
        match self {
            Con::LinLe { terms, .. } => nth_term(terms.items(), i),
            Con::LinDef { out, terms, .. } => nth_term_behind(*out, terms.items(), i),
            Con::ReifLe { flag, terms, .. } => nth_term_behind(*flag, terms.items(), i),
            Con::AndDef { flag, parts } => nth_part_behind(*flag, parts.items(), i),
            Con::MemberDef { flag, var, .. } => nth(&[*flag, *var], i),
            Con::EqDef { flag, left, right } => nth(&[*flag, *left, *right], i),
            Con::ElementDef { out, index, items } => {
                if i == 0 {
                    Some(*out)
                } else {
                    nth_term_behind(*index, items.items(), i - 1)
                }
            }
            Con::CondDef { out, flag, item } => nth(&[*out, *flag, *item], i),
            Con::ClauseCon { clause } => nth_literal(clause.clause().literals(), i),
            Con::AllDiff { vars } => nth(vars.items(), i),
            Con::Pack { items } => nth_item(items.items(), i),
        }
    }
}

/// How many variables the items have, three each. An item is three numbers of 4 bytes.
fn item_count(items: &[(u32, u32, u32)]) -> usize
    ensures { result ≡ length (item_vars items.now) }
{
    size_of_val(items) / 4
}

/// The variable of the term at the place.
#[tactic(auto, using(crate::proofs::VarsAt::term_at, crate::proofs::VarsAt::no_term))]
fn nth_term(terms: &[(i64, u32)], i: usize) -> Option<u32>
    ensures { result ≡ slice_get (term_vars terms.now) i }
{
    if i < terms.len() {
        Some(terms[i].1)
    } else {
        None
    }
}

/// The variable of the part at the place.
#[tactic(auto, using(crate::proofs::VarsAt::part_at, crate::proofs::VarsAt::no_part))]
fn nth_part(parts: &[(u32, bool)], i: usize) -> Option<u32>
    ensures { result ≡ slice_get (part_vars parts.now) i }
{
    if i < parts.len() {
        Some(parts[i].0)
    } else {
        None
    }
}

/// The variable of the literal.
fn literal_var(l: &(u32, IntSet)) -> u32
    ensures { result ≡ l.now.0 }
{
    l.0
}

/// The variable of the literal at the place.
#[tactic(auto, using(crate::proofs::VarsAt::literal_at, crate::proofs::VarsAt::no_literal))]
fn nth_literal(literals: &[(u32, IntSet)], i: usize) -> Option<u32>
    ensures { result ≡ slice_get (clause_vars literals.now) i }
{
    if i < literals.len() {
        Some(literal_var(&literals[i]))
    } else {
        None
    }
}

/// The variable at the place of a list in which each item has its three.
fn nth_item(items: &[(u32, u32, u32)], i: usize) -> Option<u32>
    ensures { result ≡ slice_get (item_vars items.now) i }
{
    if i / 3 >= items.len() {
        return None;
    }
    let item = items[i / 3];
    match i % 3 {
        0 => Some(item.0),
        1 => Some(item.1),
        _ => Some(item.2),
    }
}

/// The variable at the place.
fn nth(vars: &[u32], i: usize) -> Option<u32>
    ensures { result ≡ slice_get vars.now i }
{
    if i < vars.len() { Some(vars[i]) } else { None }
}

/// The variable at the place, where one stands before the terms.
#[tactic(auto, using(crate::proofs::VarsAt::behind_at))]
fn nth_term_behind(head: u32, terms: &[(i64, u32)], i: usize) -> Option<u32>
    ensures { result ≡ slice_get (head ∷ term_vars terms.now) i }
{
    if i == 0 {
        Some(head)
    } else {
        nth_term(terms, i - 1)
    }
}

/// The variable at the place, where one stands before the parts.
#[tactic(auto, using(crate::proofs::VarsAt::behind_at))]
fn nth_part_behind(head: u32, parts: &[(u32, bool)], i: usize) -> Option<u32>
    ensures { result ≡ slice_get (head ∷ part_vars parts.now) i }
{
    if i == 0 {
        Some(head)
    } else {
        nth_part(parts, i - 1)
    }
}
