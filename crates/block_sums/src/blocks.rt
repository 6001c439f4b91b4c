//! Terms cut into blocks, each block a variable.
ghost use Rattle.std.specs.Prelude.{◌≡◌, ◌<◌, ◌≤◌, ◌+◌, ◌*◌, ◌+ℤ◌, ℤ, List, length, unsigned_abs, IfOk, OnOk};
ghost use Rattle.std.specs.List.{All};
ghost use Rattle.signed_clause.specs.Clauses.{box_of};
ghost use Rattle.ground_form.specs.Meaning.{value_of, sum_at};
ghost use Rattle.ground_form.specs.Bounds.{reach_of, weight_of, most_sum};
ghost use Rattle.form_build.specs.Worlds.{IsWorld, Defines, IsFew};
ghost use Rattle.block_sums.specs.Blocks.{block, AreBlocks};

use crate::ordered::ordered_sum;
use form_build::{Maker, settled};
use std::alloc::AllocError;

/// How many terms a block has, but for the last one.
pub(crate) const BLOCK: usize = 32;

/// A variable that is what a few terms and the offset add up to.
pub(crate) fn block_variable(
    b: &mut Maker,
    terms: &[(i64, u32)],
    offset: i64,
) -> Result<u32, AllocError>
    requires exist { All (λ t. t.1 < length b.old.domains) terms.now }
    requires bounded { weight_of terms.now b.old.domains + unsigned_abs offset ≤ most_sum }
    ensures exists { IfOk result (λ x. x < length b.new.domains) }
    ensures value { IfOk result (λ x. (a : List ℤ) → IsWorld b.new a
        → value_of a x ≡ sum_at terms.now a +ℤ offset) }
    ensures reach { IfOk result (λ x. reach_of (box_of b.new.domains x)
        ≤ weight_of terms.now b.old.domains + unsigned_abs offset) }
    ensures adds { IfOk result (λ x. Defines b.old b.new) }
    ensures few { IfOk result (λ x. IsFew 1 b.old b.new) }
{
    let sum = ordered_sum(b, terms, offset)?;
    b.ask(1)?;
    let _domains = b.domains();
    let x = settled(b, &sum)?;
    let _grown = b.domains();
    Ok(x)
}

/// Adds a term for a block of the terms.
fn push_block(
    b: &mut Maker,
    blocks: &mut Vec<(i64, u32)>,
    terms: &[(i64, u32)],
) -> Result<(), AllocError>
    requires exist { All (λ t. t.1 < length b.old.domains) terms.now }
    requires bounded { weight_of terms.now b.old.domains ≤ most_sum }
    ensures longer { OnOk result (length blocks.new.items ≡ length blocks.old.items + 1) }
    ensures exist { OnOk result (All (λ t. t.1 < length b.old.domains) blocks.old.items
        → All (λ t. t.1 < length b.new.domains) blocks.new.items) }
    ensures bounded { OnOk result (All (λ t. t.1 < length b.old.domains) blocks.old.items
        → weight_of blocks.new.items b.new.domains
        ≤ weight_of blocks.old.items b.old.domains + weight_of terms.now b.old.domains) }
    ensures value { OnOk result ((a : List ℤ) → IsWorld b.new a
        → sum_at blocks.new.items a ≡ sum_at blocks.old.items a +ℤ sum_at terms.now a) }
    ensures adds { OnOk result (Defines b.old b.new) }
    ensures few { OnOk result (IsFew 1 b.old b.new) }
{
    let x = block_variable(b, terms, 0)?;
    blocks.push((1, x))?;
    Ok(())
}

/// A term for each block of the terms, which add up to the same.
pub(crate) fn blocks_of(b: &mut Maker, terms: &[(i64, u32)]) -> Result<Vec<(i64, u32)>, AllocError>
    requires exist { All (λ t. t.1 < length b.old.domains) terms.now }
    requires bounded { weight_of terms.now b.old.domains ≤ most_sum }
    ensures blocks { IfOk result (λ r.
        AreBlocks b.new (weight_of terms.now b.old.domains) terms.now r.items) }
    ensures short { IfOk result (λ r. block * length r.items ≤ length terms.now + block) }
    ensures adds { IfOk result (λ r. Defines b.old b.new) }
    ensures few { IfOk result (λ r. IsFew (length r.items) b.old b.new) }
{
    let mut blocks = Vec::new(b.alloc());
    let mut rest = terms;
    while rest.len() > BLOCK {
        let (front, behind) = rest.split_at(BLOCK);
        push_block(b, &mut blocks, front)?;
        rest = behind;
    }
    push_block(b, &mut blocks, rest)?;
    Ok(blocks)
}
