//! Two truths as one, and disjunctions of such pairs.
//!
//! Where one of the two is fixed, or both ask for the same variable, nothing new is made.
ghost use Rattle.std.specs.Prelude.{◌≡◌, ◌&&◌, ◌||◌, ℤ, List, true, false, not, length, IfOk, OnOk};
ghost use Rattle.form_build.specs.Forms.{truth_at, HasVariable};
ghost use Rattle.form_build.specs.Worlds.{IsInBoxes, IsWorld, Defines};
ghost use Rattle.form_truths.specs.Disjunctions.{disjunction_at, IsWithin};

use form_build::{Maker, Truth, turned};
use form_truths::{Disjunction, flag_of, is_one, truth_in_blocks};
use std::alloc::AllocError;

/// Whether it is fixed that the truth doesn't hold.
pub fn is_never(t: &Truth) -> bool
    ensures { result ≡ true → (a : List ℤ) → truth_at t.now a ≡ false }
{
    match t {
        Truth::Fixed(b) => !*b,
        Truth::In(_, _) => false,
    }
}

/// The disjunction of what holds where the two don't.
fn neither(maker: &Maker, s: &Truth, t: &Truth) -> Result<Disjunction, AllocError>
    requires left { HasVariable (length maker.now.domains) s.now }
    requires right { HasVariable (length maker.now.domains) t.now }
    ensures value { IfOk result (λ d. (a : List ℤ) → IsInBoxes maker.now.domains a
        → disjunction_at d a ≡ not (truth_at s.now a && truth_at t.now a)) }
    ensures exist { IfOk result (λ d. IsWithin (length maker.now.domains) d.1) }
{
    let not_s = turned(maker.alloc(), maker.domains(), s)?;
    let not_t = turned(maker.alloc(), maker.domains(), t)?;
    let mut some = Disjunction::new(maker.alloc());
    some.push(not_s)?;
    some.push(not_t)?;
    Ok(some)
}

/// Whether both hold, where this makes nothing new: one of them is fixed, or both ask for the same
/// variable.
fn by_literal(maker: &mut Maker, s: &Truth, t: &Truth) -> Result<Truth, AllocError>
    requires left { HasVariable (length maker.old.domains) s.now }
    requires right { HasVariable (length maker.old.domains) t.now }
    ensures variable { IfOk result (λ u. HasVariable (length maker.new.domains) u) }
    ensures value { IfOk result (λ u. (a : List ℤ) → IsWorld maker.new a
        → truth_at u a ≡ (truth_at s.now a && truth_at t.now a)) }
    ensures adds { IfOk result (λ u. Defines maker.old maker.new) }
{
    let not_both = neither(maker, s, t)?;
    let failing = truth_in_blocks(maker, &not_both)?;
    let u = turned(maker.alloc(), maker.domains(), &failing)?;
    Ok(u)
}

/// Whether both hold, by a flag for each.
fn by_flags(maker: &mut Maker, s: &Truth, t: &Truth) -> Result<Truth, AllocError>
    requires left { HasVariable (length maker.old.domains) s.now }
    requires right { HasVariable (length maker.old.domains) t.now }
    ensures variable { IfOk result (λ u. HasVariable (length maker.new.domains) u) }
    ensures value { IfOk result (λ u. (a : List ℤ) → IsWorld maker.new a
        → truth_at u a ≡ (truth_at s.now a && truth_at t.now a)) }
    ensures adds { IfOk result (λ u. Defines maker.old maker.new) }
{
    maker.ask(3)?;
    let f = flag_of(maker, s)?;
    let g = flag_of(maker, t)?;
    let all = maker.all_of(&[(f, true), (g, true)])?;
    Ok(is_one(maker.alloc(), all))
}

/// The variable that a truth asks for.
fn variable_of(t: &Truth) -> Option<u32> {
    match t {
        Truth::Fixed(_) => None,
        Truth::In(x, _) => Some(*x),
    }
}

/// Whether the truths ask for two variables.
fn ask_for_two(s: &Truth, t: &Truth) -> bool {
    match (variable_of(s), variable_of(t)) {
        (Some(x), Some(y)) => x != y,
        _ => false,
    }
}

/// Whether both hold. Where the two ask for two variables, this takes a flag for each and one for
/// both; else one literal.
///
/// # Errors
///
/// Where memory lacks, or the problem has no room for three more variables.
pub fn both(maker: &mut Maker, s: &Truth, t: &Truth) -> Result<Truth, AllocError>
    requires left { HasVariable (length maker.old.domains) s.now }
    requires right { HasVariable (length maker.old.domains) t.now }
    ensures variable { IfOk result (λ u. HasVariable (length maker.new.domains) u) }
    ensures value { IfOk result (λ u. (a : List ℤ) → IsWorld maker.new a
        → truth_at u a ≡ (truth_at s.now a && truth_at t.now a)) }
    ensures adds { IfOk result (λ u. Defines maker.old maker.new) }
{
    if ask_for_two(s, t) {
        let u = by_flags(maker, s, t)?;
        return Ok(u);
    }
    let u = by_literal(maker, s, t)?;
    Ok(u)
}

/// Adds, to a disjunction, that both hold.
pub(crate) fn push_both(
    maker: &mut Maker,
    some: &mut Disjunction,
    s: &Truth,
    t: &Truth,
) -> Result<(), AllocError>
    requires left { HasVariable (length maker.old.domains) s.now }
    requires right { HasVariable (length maker.old.domains) t.now }
    ensures value { OnOk result ((a : List ℤ) → IsWorld maker.new a → disjunction_at some.new a
        ≡ ((truth_at s.now a && truth_at t.now a) || disjunction_at some.old a)) }
    ensures exist { OnOk result (IsWithin (length maker.old.domains) some.old.1
        → IsWithin (length maker.new.domains) some.new.1) }
    ensures adds { OnOk result (Defines maker.old maker.new) }
{
    if is_never(s) || is_never(t) {
        return Ok(());
    }
    let u = both(maker, s, t)?;
    some.push(u)?;
    Ok(())
}
