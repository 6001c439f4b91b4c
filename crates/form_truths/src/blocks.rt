//! Long disjunctions as disjunctions of blocks.
//!
//! A conjunction that holds tells of one part in each call and looks for it from the first on, and
//! its rule walks all parts for each axiom; so what many parts cost grows with their square. Where
//! each few of them are a conjunction of their own, a part costs a walk of its block, and of the
//! blocks of blocks above it.
ghost use Rattle.std.specs.Prelude.{◌≡◌, ◌≤◌, ◌+◌, ◌*◌, ◌||◌, ℤ, List, length, IfOk, OnOk};
ghost use Rattle.signed_clause.specs.Clauses.{clause_true};
ghost use Rattle.form_build.specs.Forms.{truth_at, HasVariable};
ghost use Rattle.form_build.specs.Worlds.{IsWorld, Defines, HasRoomFor};
ghost use Rattle.form_truths.specs.Disjunctions.{disjunction_at, IsWithin, block};

use crate::disjunction::Disjunction;
use crate::flags::{some_literal, truth_of};
use form_build::{Maker, Truth};
use signed_clause::IntSet;
use std::alloc::AllocError;

/// How many literals a block has, but for the last one.
const BLOCK: usize = 32;

/// How many literals one disjunction has at most.
const MOST_LITERALS: usize = 2 * BLOCK;

/// Asks for room for so many and one more.
fn ask_for(m: &Maker, count: usize) -> Result<(), AllocError>
    ensures { OnOk result (HasRoomFor (count + 1) m.now) }
{
    if count >= u32::MAX as usize {
        return Err(AllocError);
    }
    m.ask(count as u32 + 1)?;
    Ok(())
}

/// Adds whether some of these literals holds, as one truth.
fn push_block(
    m: &mut Maker,
    d: &mut Disjunction,
    literals: &[(u32, IntSet)],
) -> Result<(), AllocError>
    requires literals { IsWithin (length m.old.domains) literals.now }
    requires exist { IsWithin (length m.old.domains) d.old.1 }
    ensures value { OnOk result ((a : List ℤ) → IsWorld m.new a
        → disjunction_at d.new a ≡ (clause_true literals.now a || disjunction_at d.old a)) }
    ensures exist { OnOk result (IsWithin (length m.new.domains) d.new.1) }
    ensures few { OnOk result (length d.new.1 ≤ length d.old.1 + 1) }
    ensures adds { OnOk result (Defines m.old m.new) }
{
    ask_for(m, literals.len())?;
    let t = some_literal(m, literals)?;
    d.push(t)?;
    Ok(())
}

/// The same disjunction with a literal for each block of its literals.
fn blocks_of(m: &mut Maker, d: &Disjunction) -> Result<Disjunction, AllocError>
    requires exist { IsWithin (length m.old.domains) d.now.1 }
    ensures value { IfOk result (λ r. (a : List ℤ) → IsWorld m.new a
        → disjunction_at r a ≡ disjunction_at d.now a) }
    ensures exist { IfOk result (λ r. IsWithin (length m.new.domains) r.1) }
    ensures short { IfOk result (λ r. block * length r.1 ≤ length d.now.1 + 2 * block) }
    ensures adds { IfOk result (λ r. Defines m.old m.new) }
{
    let mut blocks = Disjunction::new(m.alloc());
    blocks.push(Truth::Fixed(d.holds()))?;
    let mut rest = d.literals();
    while rest.len() > BLOCK {
        let (front, behind) = rest.split_at(BLOCK);
        push_block(m, &mut blocks, front)?;
        rest = behind;
    }
    push_block(m, &mut blocks, rest)?;
    Ok(blocks)
}

/// A disjunction of few literals as a truth.
fn truth_of_few(m: &mut Maker, d: &Disjunction) -> Result<Truth, AllocError>
    requires exist { IsWithin (length m.old.domains) d.now.1 }
    ensures variable { IfOk result (λ t. HasVariable (length m.new.domains) t) }
    ensures value { IfOk result (λ t. (a : List ℤ) → IsWorld m.new a
        → truth_at t a ≡ disjunction_at d.now a) }
    ensures adds { IfOk result (λ t. Defines m.old m.new) }
{
    ask_for(m, d.literals().len())?;
    let t = truth_of(m, d)?;
    Ok(t)
}

/// The disjunction as a truth, one of many literals by blocks of them, or by blocks of blocks.
pub fn truth_in_blocks(m: &mut Maker, d: &Disjunction) -> Result<Truth, AllocError>
    requires exist { IsWithin (length m.old.domains) d.now.1 }
    ensures variable { IfOk result (λ t. HasVariable (length m.new.domains) t) }
    ensures value { IfOk result (λ t. (a : List ℤ) → IsWorld m.new a
        → truth_at t a ≡ disjunction_at d.now a) }
    ensures adds { IfOk result (λ t. Defines m.old m.new) }
{
    if d.holds() || d.literals().len() <= MOST_LITERALS {
        let t = truth_of_few(m, d)?;
        return Ok(t);
    }
    let mut blocks = blocks_of(m, d)?;
    while blocks.literals().len() > MOST_LITERALS {
        blocks = blocks_of(m, &blocks)?;
    }
    let t = truth_of_few(m, &blocks)?;
    Ok(t)
}
