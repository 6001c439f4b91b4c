//! Truths as flags, and disjunctions and conjunctions of truths.
//!
//! A truth of a flag of its own, which asks for one of its two values, takes no new variable.
ghost use Rattle.std.specs.Prelude.{◌≡◌, ◌<◌, ◌≤◌, ◌+◌, ◌^◌, ℤ, Bool, List, [], ◌∷◌, ◌++◌, true, false, not, ◌&&◌, ◌||◌, length, pos, IfOk, OnOk, IfSome};
ghost use Rattle.std.specs.Ordering.{int_eq};
ghost use Rattle.signed_clause.specs.Ranges.{has};
ghost use Rattle.signed_clause.specs.Clauses.{Literals, box_of, clause_true};
ghost use Rattle.ground_form.specs.Meaning.{value_of, bit};
ghost use Rattle.ground_form.specs.Bounds.{LiesWithin};
ghost use Rattle.ground_build.specs.Growing.{HasRoom, IsFlag};
ghost use Rattle.form_build.specs.Forms.{truth_at, HasVariable};
ghost use Rattle.form_build.specs.Worlds.{IsWorld, Adds, Defines, IsFew, IsFlagOf, HasRoomFor};
ghost use Rattle.form_truths.specs.Disjunctions.{disjunction_at, IsWithin};
ghost use Rattle.form_truths.specs.Parts.{IsPartOf, IsOwnPart, ArePartsOf};

use crate::compare::{is_nought, literal};
use crate::disjunction::Disjunction;
use form_build::{Maker, Truth};
use signed_clause::IntSet;
use std::alloc::AllocError;

/// Which value of a flag is in the set, where the box is a flag's, and the set has just one of its
/// values.
fn own_want(at: &IntSet, set: &IntSet) -> Option<bool>
    ensures { IfSome result (λ w. IsOwnPart at.now set.now w) }
{
    let (low, high) = (at.least()?, at.greatest()?);
    if low < 0 || high > 1 {
        return None;
    }
    match (set.contains(0), set.contains(1)) {
        (false, true) => Some(true),
        (true, false) => Some(false),
        _ => None,
    }
}

/// The same of a variable's box.
pub(crate) fn own_want_at(boxes: &[IntSet], x: u32, set: &IntSet) -> Option<bool>
    requires { x < length boxes.now }
    ensures { IfSome result (λ w. IsOwnPart (box_of boxes.now x) set.now w) }
{
    own_want(&boxes[x as usize], set)
}

/// A flag, and the value that it has exactly where the variable's value is in the set.
fn part_of(m: &mut Maker, x: u32, set: &IntSet) -> Result<(u32, bool), AllocError>
    requires room { HasRoom m.old }
    requires exists { x < length m.old.domains }
    ensures part { IfOk result (λ p. IsPartOf m.new p (λ a. has set.now (value_of a x))) }
    ensures adds { IfOk result (λ p. Defines m.old m.new) }
    ensures few { IfOk result (λ p. IsFew 1 m.old m.new) }
{
    if let Some(want) = own_want_at(m.domains(), x, set) {
        return Ok((x, want));
    }
    let flag = m.member(x, set.copy()?)?;
    Ok((flag, true))
}

/// Adds the part that has its value where the literal doesn't hold.
fn push_part(
    m: &mut Maker,
    parts: &mut Vec<(u32, bool)>,
    l: &(u32, IntSet),
) -> Result<(), AllocError>
    requires room { HasRoom m.old }
    requires exists { l.now.0 < length m.old.domains }
    ensures parts { OnOk result ((ls : Literals) → ArePartsOf m.old parts.old.items ls
        → ArePartsOf m.new parts.new.items (ls ++ l.now ∷ [])) }
    ensures adds { OnOk result (Defines m.old m.new) }
    ensures few { OnOk result (IsFew 1 m.old m.new) }
{
    let (flag, want) = part_of(m, l.0, &l.1)?;
    let _domains = m.domains();
    parts.push((flag, !want))?;
    Ok(())
}

/// The parts that all have their values where no literal holds.
fn parts_of(m: &mut Maker, literals: &[(u32, IntSet)]) -> Result<Vec<(u32, bool)>, AllocError>
    requires room { HasRoomFor (length literals.now) m.old }
    requires exist { IsWithin (length m.old.domains) literals.now }
    ensures parts { IfOk result (λ ps. ArePartsOf m.new ps.items literals.now) }
    ensures adds { IfOk result (λ ps. Defines m.old m.new) }
    ensures few { IfOk result (λ ps. IsFew (length literals.now) m.old m.new) }
{
    let mut parts = Vec::new(m.alloc());
    for l in literals {
        push_part(m, &mut parts, l)?;
    }
    Ok(parts)
}

/// The disjunction as a truth.
pub fn truth_of(m: &mut Maker, d: &Disjunction) -> Result<Truth, AllocError>
    requires room { HasRoomFor (length d.now.1 + 1) m.old }
    requires exist { IsWithin (length m.old.domains) d.now.1 }
    ensures variable { IfOk result (λ t. HasVariable (length m.new.domains) t) }
    ensures value { IfOk result (λ t. (a : List ℤ) → IsWorld m.new a
        → truth_at t a ≡ disjunction_at d.now a) }
    ensures adds { IfOk result (λ t. Defines m.old m.new) }
    ensures few { IfOk result (λ t. IsFew (length d.now.1 + 1) m.old m.new) }
{
    if d.holds() {
        return Ok(Truth::Fixed(true));
    }
    match d.literals() {
        [] => Ok(Truth::Fixed(false)),
        [l] => {
            let set = l.1.copy()?;
            Ok(literal(m.domains(), l.0, set))
        }
        literals => {
            let t = some_literal(m, literals)?;
            Ok(t)
        }
    }
}

/// Whether some literal holds, as a truth.
pub(crate) fn some_literal(m: &mut Maker, literals: &[(u32, IntSet)]) -> Result<Truth, AllocError>
    requires room { HasRoomFor (length literals.now + 1) m.old }
    requires exist { IsWithin (length m.old.domains) literals.now }
    ensures variable { IfOk result (λ t. HasVariable (length m.new.domains) t) }
    ensures value { IfOk result (λ t. (a : List ℤ) → IsWorld m.new a
        → truth_at t a ≡ clause_true literals.now a) }
    ensures adds { IfOk result (λ t. Defines m.old m.new) }
    ensures few { IfOk result (λ t. IsFew (length literals.now + 1) m.old m.new) }
{
    let parts = parts_of(m, literals)?;
    let none = m.all_of(parts.as_slice())?;
    Ok(is_nought(m.alloc(), none))
}

/// States the disjunction.
pub fn require(m: &mut Maker, d: Disjunction) -> Result<(), AllocError>
    requires room { HasRoom m.old }
    requires exist { IsWithin (length m.old.domains) d.1 }
    ensures says { OnOk result (Adds [] m.old m.new (λ a. disjunction_at d a)) }
    ensures few { OnOk result (IsFew 1 m.old m.new) }
{
    match d.into_clause() {
        Some(c) => {
            m.require(c)?;
            Ok(())
        }
        None => Ok(()),
    }
}
