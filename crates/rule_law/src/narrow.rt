//! Clauses cut to the domains.
//!
//! An explanation may say of a variable that it has a value which its domain lacks. `cut_to` leaves
//! such values out, and `cut_says_the_same` is the law that this changes nothing within the
//! domains.
ghost use Rattle.std.specs.Prelude.{◌≡◌, ◌++◌, ◌∷◌, [], true, IfOk, OnOk};
ghost use Rattle.std.specs.List.{All};
ghost use Rattle.signed_clause.specs.Ranges.{IsValid};
ghost use Rattle.signed_clause.specs.SetAlgebra.{meet};
ghost use Rattle.signed_clause.specs.Clauses.{Literals, IsClause, box_of, false_in, unit_of};
ghost use Rattle.box_rules.specs.Justified.{justified};
ghost use Rattle.rule_law.specs.Answers.{AreBoxesWithin, IsPruning};
ghost use Rattle.rule_law.specs.CutTo.{cut_to, AreSetsWithin};
ghost use Rattle.rule_law.specs.Reasons.{kept_one};

use ground_form::Con;
use signed_clause::{Clause, IntSet};
use std::alloc::{AllocError, Global};

/// Whether the literal's set has values, all of them in its variable's domain.
#[tactic(auto, using(crate::proofs::CutToLaws::meet_all))]
fn is_in_domain(domains: &[IntSet], l: &(u32, IntSet)) -> bool
    ensures { result ≡ true → (rest : Literals)
        → kept_one l.now.0 (meet l.now.1 (box_of domains.now l.now.0)) rest ≡ l.now ∷ rest }
{
    if l.0 as usize >= domains.len() || l.1.is_empty() {
        return false;
    }
    let domain = &domains[l.0 as usize];
    domain.ranges();
    l.1.ranges();
    l.1.within(domain)
}

/// Whether that is so of each literal.
fn are_in_domains(domains: &[IntSet], literals: &[(u32, IntSet)]) -> bool
    ensures { result ≡ true → cut_to domains.now literals.now ≡ literals.now }
{
    for l in literals {
        if !is_in_domain(domains, l) {
            return false;
        }
    }
    true
}

/// Adds what the domain of the literal's variable has of it, where that is anything.
fn push_part(
    cut: &mut Vec<(u32, IntSet)>,
    domains: &[IntSet],
    l: &(u32, IntSet),
) -> Result<(), AllocError>
    ensures { OnOk result (cut.new.items
        ≡ cut.old.items ++ kept_one l.now.0 (meet l.now.1 (box_of domains.now l.now.0)) []) }
{
    if (l.0 as usize) < domains.len() {
        let part = l.1.meet(&domains[l.0 as usize])?;
        if !part.is_empty() {
            cut.push((l.0, part))?;
        }
    }
    Ok(())
}

/// The literals, each cut to its variable's domain.
fn cut_literals(
    domains: &[IntSet],
    literals: &[(u32, IntSet)],
    alloc: Global,
) -> Result<Vec<(u32, IntSet)>, AllocError>
    ensures { IfOk result (λ cut. cut.items ≡ cut_to domains.now literals.now) }
{
    let mut cut = Vec::new(alloc);
    for l in literals {
        push_part(&mut cut, domains, l)?;
    }
    Ok(cut)
}

/// The clause with each set cut to its variable's domain, without the literals of which nothing is
/// left. Where nothing is to be cut it is the clause as it came, and no memory is taken; it costs
/// one walk over the sets.
///
/// # Errors
/// Want of memory.
pub fn cut_to(domains: &[IntSet], c: Clause, alloc: Global) -> Result<Clause, AllocError>
    ensures value { IfOk result (λ cut. cut ≡ cut_to domains.now c) }
    ensures form { IfOk result (λ cut. IsClause cut) }
{
    if are_in_domains(domains, c.literals()) {
        return Ok(c);
    }
    match Clause::of(cut_literals(domains, c.literals(), alloc)?) {
        Ok(cut) => Ok(cut),
        Err(_) => unreachable!(),
    }
}

/// It does nothing; its contract is the law. A clause that is cut to the domains has its sets
/// within them; it is justified by the same constraints, and in boxes within the domains it is
/// false, or unit with the same new box, where the clause is. So of a pruning it makes a pruning.
#[tactic(auto, using(crate::proofs::CutToLaws::cut_laws))]
pub fn cut_says_the_same(con: &Con, domains: &[IntSet], boxes: &[IntSet], c: &Clause)
    requires sets { All (λ d. IsValid d) domains.now }
    requires boxes { AreBoxesWithin domains.now boxes.now }
    ensures within { AreSetsWithin domains.now (cut_to domains.now c.now) }
    ensures form { IsClause (cut_to domains.now c.now) }
    ensures justified { justified con.now domains.now (cut_to domains.now c.now)
        ≡ justified con.now domains.now c.now }
    ensures false_in { false_in boxes.now (cut_to domains.now c.now) ≡ false_in boxes.now c.now }
    ensures unit { unit_of boxes.now (cut_to domains.now c.now) ≡ unit_of boxes.now c.now }
    ensures pruning { IsPruning con.now domains.now boxes.now c.now
        → IsPruning con.now domains.now boxes.now (cut_to domains.now c.now) }
{
    c.literals();
}
