//! That the values of many variables differ, in blocks.
//!
//! What one such constraint costs grows with the third power of its variables; pair by pair each
//! pair is a flag and a clause, and each change of a variable is a look at all of its pairs. So the
//! variables are cut into blocks, and each two blocks are one constraint: each two variables stand
//! together in one, a change is a look at as many as there are blocks, and there are no flags.
ghost use Rattle.std.specs.Prelude.{◌≡◌, ◌<◌, ◌++◌, [], length, IfOk, OnOk};
ghost use Rattle.std.specs.List.{All};
ghost use Rattle.ground_form.specs.Meaning.{all_differ};
ghost use Rattle.form_build.specs.Worlds.{Adds};
ghost use Rattle.pairwise_forms.specs.Blocks.{KeepsApart};

use form_build::Maker;
use std::alloc::{AllocError, Global};

/// How many variables a block has. With fewer there are more constraints, with more each look costs
/// more: with 16 both take about as long.
const BLOCK: usize = 16;

/// The first block, and the variables behind it.
fn split(vars: &[u32]) -> (&[u32], &[u32])
    ensures whole { result.0.now ++ result.1.now ≡ vars.now }
    ensures fewer { 0 < length vars.now → length result.1.now < length vars.now }
{
    if vars.len() <= BLOCK {
        vars.split_at(vars.len())
    } else {
        vars.split_at(BLOCK)
    }
}

/// These variables, and those behind them.
fn joined(alloc: Global, left: &[u32], right: &[u32]) -> Result<Vec<u32>, AllocError>
    ensures { IfOk result (λ all. all.items ≡ left.now ++ right.now) }
{
    let mut all = Vec::new(alloc);
    all.extend_from_slice(left)?;
    all.extend_from_slice(right)?;
    Ok(all)
}

/// States that the values of the variables of both lists differ.
fn state_joined(maker: &mut Maker, left: &[u32], right: &[u32]) -> Result<(), AllocError>
    requires variables { All (λ x. x < length maker.old.domains) (left.now ++ right.now) }
    ensures says { OnOk result (Adds [] maker.old maker.new
        (λ a. all_differ (left.now ++ right.now) a)) }
{
    let vars = joined(maker.alloc(), left, right)?;
    maker.ask(1)?;
    maker.require_different(vars.as_slice())?;
    Ok(())
}

/// States that the values of a block differ, also from those of the variables behind it.
fn state_block(maker: &mut Maker, block: &[u32], behind: &[u32]) -> Result<(), AllocError>
    requires variables { All (λ x. x < length maker.old.domains) (block.now ++ behind.now) }
    ensures apart { OnOk result (KeepsApart maker.old maker.new block.now behind.now
        (block.now ++ behind.now)) }
{
    let (first, rest) = split(behind);
    state_joined(maker, block, first)?;
    let mut left = rest;
    while !left.is_empty() {
        let (next, more) = split(left);
        state_joined(maker, block, next)?;
        left = more;
    }
    Ok(())
}

/// States that the values of the variables differ.
pub(crate) fn state_blocks(maker: &mut Maker, vars: &[u32]) -> Result<(), AllocError>
    requires variables { All (λ x. x < length maker.old.domains) vars.now }
    ensures says { OnOk result (Adds [] maker.old maker.new (λ a. all_differ vars.now a)) }
{
    let mut left = vars;
    while !left.is_empty() {
        let (block, behind) = split(left);
        state_block(maker, block, behind)?;
        left = behind;
    }
    Ok(())
}
