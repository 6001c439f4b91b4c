//! Whether one constraint is well made over domains.
//!
//! Of numbers only small ones are taken: places up to 9,999, sizes up to 1,048,576, terms that
//! weigh at most 2^59 together; and of an element's items only the values 0, 1 and so on.
ghost use Rattle.std.specs.Prelude.{◌≡◌, ◌<◌, ◌≤◌, ◌^◌, ◌≤ℤ◌, true, pos, IfOk, length, unsigned_abs};
ghost use Rattle.std.specs.List.{All};
ghost use Rattle.std.specs.Ordering.{int_eq};
ghost use Rattle.signed_clause.specs.Clauses.{IsClause, box_of};
ghost use Rattle.ground_form.specs.Bounds.{LiesWithin, IsPackBounded, low_of, high_of};
ghost use Rattle.ground_form.specs.Meaning.{part_vars, vars_of};
ghost use Rattle.ground_form.specs.WellMade.{IsWellMadeCon, distinct_values};

use crate::terms::are_light;
use ground_form::{Con, LAST_BIN, MOST_SUM, ends_of};
use rule_law::all_vars;
use signed_clause::{Clause, IntSet};
use std::alloc::{AllocError, Global};

/// Whether each variable has a domain.
fn are_named(vars: &[u32], domains: &[IntSet]) -> bool
    ensures { result ≡ true → All (λ x. x < length domains.now) vars.now }
{
    for x in vars {
        if *x as usize >= domains.len() {
            return false;
        }
    }
    true
}

/// Whether the variable has a domain, whose values lie from 0 to the number.
fn is_upto(domains: &[IntSet], x: u32, most: i64) -> bool
    ensures named { result ≡ true → x < length domains.now }
    ensures within { result ≡ true → LiesWithin (pos 0) most (box_of domains.now x) }
    ensures low { result ≡ true → low_of (box_of domains.now x) ≤ℤ most }
    ensures high { result ≡ true → pos 0 ≤ℤ high_of (box_of domains.now x) }
{
    if x as usize >= domains.len() {
        return false;
    }
    let ends = ends_of(&domains[x as usize]);
    0 <= ends.0 && ends.0 <= most && 0 <= ends.1 && ends.1 <= most
}

/// Whether the number is at most 2^59 without its sign.
fn is_small(n: i64) -> bool
    ensures { result ≡ true → unsigned_abs n ≤ 2 ^ 59 }
{
    n.unsigned_abs() <= 576460752303423488
}

/// Whether the item's value is the number.
fn has_number(t: (i64, u32), k: usize) -> bool
    ensures { result ≡ int_eq t.0 (pos k) }
{
    0 <= t.0 && t.0.unsigned_abs() == k as u64
}

/// Whether the values of the items are 0, 1 and so on.
fn are_numbered(items: &[(i64, u32)]) -> bool
    ensures { result ≡ true → distinct_values items.now ≡ true }
{
    for i in 0..items.len() {
        if !has_number(items[i], i) {
            return false;
        }
    }
    true
}

/// Whether the parts' variables are flags.
fn are_flags(parts: &[(u32, bool)], domains: &[IntSet]) -> bool
    ensures { result ≡ true → All (λ x. LiesWithin (pos 0) (pos 1) (box_of domains.now x))
        (part_vars parts.now) }
{
    for p in parts {
        if !is_upto(domains, p.0, 1) {
            return false;
        }
    }
    true
}

/// Whether places and sizes of the items are small.
fn are_small(items: &[(u32, u32, u32)], domains: &[IntSet]) -> bool
    ensures { result ≡ true → IsPackBounded items.now domains.now }
{
    let mut left = MOST_SUM as u64;
    for i in items {
        if left < 1048576 || !is_upto(domains, i.0, LAST_BIN) || !is_upto(domains, i.1, 1048576) {
            return false;
        }
        left -= 1048576;
    }
    true
}

/// Whether the literals are those of a clause; they are.
fn has_form(clause: &Clause) -> bool
    ensures { IsClause clause.now }
{
    clause.literals();
    true
}

/// Whether what the kind asks for, beside the variables' names, is so.
#[tactic(auto, using(crate::proofs::EachKind::made_kinds))]
fn is_as_its_kind(con: &Con, domains: &[IntSet]) -> bool
    requires named { All (λ x. x < length domains.now) (vars_of con.now) }
    ensures { result ≡ true → IsWellMadeCon domains.now con.now }
{
    match con {
        Con::LinLe { terms, .. } => are_light(terms.items(), domains),
        Con::LinDef { terms, offset, .. } => is_small(*offset) && are_light(terms.items(), domains),
        Con::ReifLe { flag, terms, .. } => {
            is_upto(domains, *flag, 1) && are_light(terms.items(), domains)
        }
        Con::AndDef { flag, parts } => {
            is_upto(domains, *flag, 1) && are_flags(parts.items(), domains)
        }
        Con::MemberDef { flag, set, .. } => {
            set.ranges();
            is_upto(domains, *flag, 1)
        }
        Con::EqDef { flag, .. } => is_upto(domains, *flag, 1),
        Con::ElementDef { items, .. } => are_numbered(items.items()),
        Con::CondDef { flag, .. } => is_upto(domains, *flag, 1),
        Con::ClauseCon { clause } => has_form(clause.clause()),
        Con::AllDiff { .. } => true,
        Con::Pack { items } => are_small(items.items(), domains),
    }
}

/// Whether the constraint is well made over the domains. It may say no of one that is.
///
/// # Errors
/// Want of memory.
pub fn is_constraint_well_made(
    con: &Con,
    domains: &[IntSet],
    alloc: Global,
) -> Result<bool, AllocError>
    ensures { IfOk result (λ made. made ≡ true → IsWellMadeCon domains.now con.now) }
{
    let vars = all_vars(con, alloc)?;
    Ok(are_named(vars.as_slice(), domains) && is_as_its_kind(con, domains))
}
