//! Disjunctions in the making.
//!
//! A disjunction has the form of a clause at each step: its variables ascend, and sets of one
//! variable are joined. New literals are sought from the back, where most of them belong.
ghost use Rattle.std.specs.Prelude.{◌≡◌, ◌≢◌, ◌↔◌, not, IfSome, IsSome, IsTrue, ◌<◌, ◌≤◌, ◌+◌, ◌-◌, ◌^◌, ◌||◌, ℕ, suc, List, ℤ, [], true, false, length, slice_index_or, pos, IfOk, OnOk};
ghost use Rattle.std.specs.List.{All};
ghost use Rattle.signed_clause.specs.Ranges.{has, is_nil, IsValid};
ghost use Rattle.signed_clause.specs.Clauses.{Literal, IsClause};
ghost use Rattle.form_build.specs.Forms.{truth_at, HasVariable};
ghost use Rattle.form_truths.specs.Disjunctions.{with_literal, disjunction_at, IsWithin};

use form_build::Truth;
use signed_clause::{Clause, IntSet};
use std::alloc::{AllocError, Global};
use std::marker::Model;

/// Literals of which one is to hold, or a disjunction that holds in any case.
#[derive(Drop)]
pub struct Disjunction {
    holds: bool,
    literals: Vec<(u32, IntSet)>,
}

impl Model for Disjunction {
    ghost use Rattle.std.specs.Prelude.{ℕ, ℤ, Bool, List};
    ghost use Rattle.signed_clause.specs.Clauses.{IsClause};

    ghost Value = { Bool × List (ℕ × List (ℤ × ℤ)) };

    ghost view = { λ d. (d.holds, d.literals.items) };

    ghost invariant = { λ d. IsClause d.literals.items };
}

impl Disjunction {
    /// The disjunction of nothing, which holds nowhere.
    pub fn new(alloc: Global) -> Disjunction
        ensures { result ≡ (false, []) }
    {
        Disjunction {
            holds: false,
            literals: Vec::new(alloc),
        }
    }

    /// Adds a truth.
    pub fn push(&mut self, t: Truth) -> Result<(), AllocError>
        ensures value { OnOk result ((a : List ℤ)
            → disjunction_at self.new a ≡ (truth_at t a || disjunction_at self.old a)) }
        ensures variables { OnOk result ((n : ℕ) → HasVariable n t
            → IsWithin n self.old.1 → IsWithin n self.new.1) }
        ensures few { OnOk result (length self.new.1 ≤ length self.old.1 + 1) }
    {
        match t {
            Truth::Fixed(b) => {
                self.holds = self.holds || b;
            }
            Truth::In(x, set) => {
                if !set.is_empty() {
                    add(&mut self.literals, x, set)?;
                }
            }
        }
        Ok(())
    }

    /// Whether it holds in any case, since a part does that is no literal.
    pub fn holds(&self) -> bool
        ensures { result ≡ self.now.0 }
    {
        self.holds
    }

    /// The literals.
    pub fn literals(&self) -> &[(u32, IntSet)]
        ensures items { result.now ≡ self.now.1 }
        ensures form { IsClause self.now.1 }
    {
        self.literals.as_slice()
    }

    /// The clause of the literals. None where the disjunction holds in any case.
    pub fn into_clause(self) -> Option<Clause>
        ensures some { IfSome result (λ c. c ≡ self.1) }
        ensures holds { IsSome result ↔ IsTrue (not self.0) }
    {
        if self.holds {
            return None;
        }
        match Clause::of(self.literals) {
            Ok(c) => Some(c),
            Err(_) => None,
        }
    }
}

/// Where a literal of the variable stands, or would stand.
fn place_of(literals: &[(u32, IntSet)], x: u32) -> usize
    ensures within { result ≤ length literals.now }
    ensures above { (l : Literal) → result < length literals.now
        → x ≤ (slice_index_or literals.now result l).0 }
    ensures below { (k : ℕ) (l : Literal) → result ≡ suc k → (slice_index_or literals.now k l).0
        < x }
{
    let mut i = literals.len();
    while i > 0 && is_upto(x, &literals[i - 1]) {
        i -= 1;
    }
    i
}

/// Whether the literal's variable is this one or a later one.
fn is_upto(x: u32, l: &(u32, IntSet)) -> bool
    ensures yes { result ≡ true → x ≤ l.now.0 }
    ensures no_more { result ≡ false → l.now.0 < x }
{
    x <= l.0
}

/// Whether the literal there is of this variable.
fn stands_at(literals: &[(u32, IntSet)], i: usize, x: u32) -> bool
    ensures there { result ≡ true → i < length literals.now }
    ensures yes { (l : Literal) → result ≡ true → (slice_index_or literals.now i l).0 ≡ x }
    ensures no_more { (l : Literal) → result ≡ false → i < length literals.now
        → (slice_index_or literals.now i l).0 ≢ x }
{
    match literals.get(i) {
        Some(l) => l.0 == x,
        None => false,
    }
}

/// Adds a literal, whose set isn't empty.
fn add(literals: &mut Vec<(u32, IntSet)>, x: u32, set: IntSet) -> Result<(), AllocError>
    requires form { IsClause literals.old.items }
    requires some { is_nil set ≡ false }
    ensures added { OnOk result (literals.new.items ≡ with_literal x set literals.old.items) }
    ensures form { IsClause literals.new.items }
    ensures valid { IsValid set }
{
    set.ranges();
    let i = place_of(literals, x);
    if stands_at(literals, i, x) {
        let joined = literals[i].1.join(&set)?;
        literals[i] = (x, joined);
    } else {
        literals.insert(i, (x, set))?;
    }
    Ok(())
}
