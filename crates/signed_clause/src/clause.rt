//! `Clause`, a disjunction of literals.
//!
//! A literal is a variable and a set, and says that the variable's value is in the set. The
//! variables of a clause ascend and no set is empty, which the type keeps (`IsClause`) and
//! `literals` promises, so a look-up halves the list. In boxes, one set for each variable, a clause
//! is false where every set misses its box. It is unit where one alone meets its box and takes
//! something away. Both questions walk the literals once; only the set that `unit` answers takes
//! memory.
ghost use Rattle.std.specs.Prelude.{◌≡◌, ◌<◌, ◌↔◌, ◌&&◌, ◌||◌, is_some, not, true, nat_le, nat_lt, ◌==◌, IsTrue, IsSome, IsOk, IfOk, IfErr, IfSome, length};
ghost use Rattle.std.specs.List.{All};
ghost use Rattle.signed_clause.specs.Ranges.{is_nil, IsValid};
ghost use Rattle.signed_clause.specs.SetAlgebra.{is_disjoint, is_within};
ghost use Rattle.signed_clause.specs.Clauses.{is_clause, IsClause, IsWithinBoxes, set_of, has_var, false_in, unit_of, alone_of, box_of};

use crate::int_set::IntSet;
use crate::resolution::copy_literals;
use std::alloc::AllocError;
use std::marker::Model;

/// Literals, each a variable and a set: variables ascend, no set is empty.
pub struct Clause {
    lits: Vec<(u32, IntSet)>,
}

impl Drop for Clause {
    fn drop(self) {
        let Clause { lits: _ } = self;
    }
}

impl Model for Clause {
    ghost use Rattle.std.specs.Prelude.{ℕ, ℤ, List};
    ghost use Rattle.signed_clause.specs.Clauses.{IsClause};

    ghost Value = { List (ℕ × List (ℤ × ℤ)) };

    ghost view = { λ c. c.lits.items };

    ghost invariant = { λ c. IsClause c.lits.items };
}

/// The literals that were handed in are not those of a clause.
#[derive(Drop)]
pub struct NotAClause {
    /// They, unchanged.
    pub literals: Vec<(u32, IntSet)>,
}

impl Clause {
    /// The clause of these literals. It takes no memory.
    ///
    /// # Errors
    /// `NotAClause`, with the list, where the variables don't ascend or a set is empty.
    #[tactic(auto, using(crate::proofs::ClauseForm::form_from))]
    pub fn of(lits: Vec<(u32, IntSet)>) -> Result<Clause, NotAClause>
        ensures variant { IsOk result ↔ IsTrue (is_clause lits.items) }
        ensures ok { IfOk result (λ c. c ≡ lits.items) }
        ensures form { IfOk result (λ c. IsClause c) }
        ensures err { IfErr result (λ e. e.literals ≡ lits) }
    {
        if has_form(lits.as_slice()) {
            Ok(Clause { lits })
        } else {
            Err(NotAClause { literals: lits })
        }
    }

    /// The clause of literals that are known to be those of one.
    pub fn made_of(lits: Vec<(u32, IntSet)>) -> Clause
        requires { IsClause lits.items }
        ensures { result ≡ lits.items }
    {
        Clause { lits }
    }

    /// The literals, in order.
    pub fn literals(&self) -> &[(u32, IntSet)]
        ensures items { result.now ≡ self.now }
        ensures form { IsClause self.now }
    {
        self.lits.as_slice()
    }

    /// The set of the literal of `x`, where there is one.
    pub fn set_of(&self, x: u32) -> Option<&IntSet>
        ensures variant { IsSome result ↔ IsTrue (has_var self.now x) }
        ensures set { IfSome result (λ s. s.now ≡ set_of self.now x) }
        ensures valid { IfSome result (λ s. IsValid s.now) }
    {
        let lits = self.literals();
        let mut low = 0;
        let mut high = lits.len();
        while low < high {
            let middle = low + (high - low) / 2;
            if comes_before(&lits[middle], x) {
                low = middle + 1;
            } else {
                high = middle;
            }
        }
        if low < lits.len() && lits[low].0 == x {
            Some(&lits[low].1)
        } else {
            None
        }
    }

    /// The same clause again.
    pub fn copy(&self) -> Result<Clause, AllocError>
        ensures list { IfOk result (λ c. c ≡ self.now) }
        ensures form { IfOk result (λ c. IsClause c) }
    {
        let lits = copy_literals(*self.lits.allocator(), self.literals())?;
        Ok(Clause { lits })
    }

    /// Whether the two clauses are the same: the same variables, with the same sets.
    pub fn same(&self, o: &Clause) -> bool
        ensures { IsTrue result ↔ (self.now ≡ o.now) }
    {
        all_same(self.literals(), o.literals())
    }

    /// Whether there are no literals.
    pub fn is_empty(&self) -> bool
        ensures { result ≡ is_nil self.now }
    {
        self.literals().is_empty()
    }

    /// Whether every set misses its box. It takes no memory.
    pub fn is_false(&self, boxes: &[IntSet]) -> bool
        requires { IsWithinBoxes self.now boxes.now }
        ensures { result ≡ false_in boxes.now self.now }
    {
        all_disjoint(self.literals(), boxes)
    }

    /// The variable of the one literal that meets its box, and what that leaves of the box, where
    /// the box isn't within the set. None where no literal meets its box, or two do, or nothing is
    /// taken away; then it takes no memory.
    pub fn unit(&self, boxes: &[IntSet]) -> Result<Option<(u32, IntSet)>, AllocError>
        requires { IsWithinBoxes self.now boxes.now }
        ensures value { IfOk result (λ u. u ≡ unit_of boxes.now self.now) }
        ensures valid { IfOk result (λ u. IfSome u (λ l. IsValid l.1)) }
    {
        let lits = self.literals();
        for (k, l) in lits.iter().enumerate() {
            if !is_disjoint_from_box(l, boxes) {
                return alone(l, &lits[k + 1..], boxes);
            }
        }
        Ok(None)
    }

    /// Whether the clause is false in the boxes, or unit. It takes no memory.
    pub fn acts(&self, boxes: &[IntSet]) -> bool
        requires { IsWithinBoxes self.now boxes.now }
        ensures { result ≡ (false_in boxes.now self.now || is_some (unit_of boxes.now self.now)) }
    {
        let lits = self.literals();
        for (k, l) in lits.iter().enumerate() {
            if !is_disjoint_from_box(l, boxes) {
                return cuts(l, &lits[k + 1..], boxes);
            }
        }
        true
    }
}

/// What a literal that meets its box leaves of it, where those behind it all miss.
fn alone(
    l: &(u32, IntSet),
    rest: &[(u32, IntSet)],
    boxes: &[IntSet],
) -> Result<Option<(u32, IntSet)>, AllocError>
    requires var { l.now.0 < length boxes.now }
    requires vars { IsWithinBoxes rest.now boxes.now }
    ensures value { IfOk result (λ u. u ≡ alone_of boxes.now l.now rest.now) }
    ensures valid { IfOk result (λ u. IfSome u (λ l. IsValid l.1)) }
{
    let at = &boxes[l.0 as usize];
    if all_disjoint(rest, boxes) && !at.within(&l.1) {
        Ok(Some((l.0, l.1.meet(at)?)))
    } else {
        Ok(None)
    }
}

/// Whether those behind a literal that meets its box all miss, and it takes something away.
fn cuts(l: &(u32, IntSet), rest: &[(u32, IntSet)], boxes: &[IntSet]) -> bool
    requires var { l.now.0 < length boxes.now }
    requires vars { IsWithinBoxes rest.now boxes.now }
    ensures { result ≡ (false_in boxes.now rest.now
        && not (is_within (box_of boxes.now l.now.0) l.now.1)) }
{
    let at = &boxes[l.0 as usize];
    all_disjoint(rest, boxes) && !at.within(&l.1)
}

/// Whether a literal's set misses its box.
fn is_disjoint_from_box(l: &(u32, IntSet), boxes: &[IntSet]) -> bool
    requires { l.now.0 < length boxes.now }
    ensures { result ≡ is_disjoint l.now.1 (box_of boxes.now l.now.0) }
{
    l.1.disjoint(&boxes[l.0 as usize])
}

/// Whether every set misses its box.
fn all_disjoint(lits: &[(u32, IntSet)], boxes: &[IntSet]) -> bool
    requires { IsWithinBoxes lits.now boxes.now }
    ensures { result ≡ false_in boxes.now lits.now }
{
    for l in lits {
        if !is_disjoint_from_box(l, boxes) {
            return false;
        }
    }
    true
}

/// Whether a literal's variable is below `x`.
fn comes_before(l: &(u32, IntSet), x: u32) -> bool
    ensures { result ≡ nat_lt l.now.0 x }
{
    l.0 < x
}

/// Whether the lists have the same literals.
fn all_same(a: &[(u32, IntSet)], b: &[(u32, IntSet)]) -> bool
    ensures { IsTrue result ↔ (a.now ≡ b.now) }
{
    if a.len() != b.len() {
        return false;
    }
    for (k, l) in a.iter().enumerate() {
        if !same_literal(l, &b[k]) {
            return false;
        }
    }
    true
}

/// Whether the two literals are the same.
fn same_literal(l: &(u32, IntSet), m: &(u32, IntSet)) -> bool
    ensures { IsTrue result ↔ (l.now ≡ m.now) }
{
    l.0 == m.0 && l.1.same(&m.1)
}

/// Whether the literals are those of a clause.
fn has_form(lits: &[(u32, IntSet)]) -> bool
    ensures exact { result ≡ is_clause lits.now }
    ensures sets { result ≡ true → All (λ l. IsValid l.1) lits.now }
{
    let mut least = 0;
    for l in lits {
        if !may_follow(l, least) {
            return false;
        }
        least = l.0 as u64 + 1;
    }
    true
}

/// Whether a literal may stand in a clause behind variables below `least`.
fn may_follow(l: &(u32, IntSet), least: u64) -> bool
    ensures exact { result ≡ (nat_le least l.now.0 && not (is_nil l.now.1)) }
    ensures valid { IsValid l.now.1 }
{
    let ranges = l.1.ranges();
    least <= l.0 as u64 && !ranges.is_empty()
}
