//! What follows from pairs that differ, stated.
ghost use Rattle.std.specs.Prelude.{◌≡◌, ◌<◌, ℤ, List, true, length, Contains, IfSome, OnOk};
ghost use Rattle.std.specs.List.{All};
ghost use Rattle.ground_form.specs.declared.ground.Ground.{Ground};
ghost use Rattle.ground_form.specs.Meaning.{all_differ};
ghost use Rattle.form_build.specs.Worlds.{IsWorld, AllHold, Defines};
ghost use Rattle.stated_pairs.specs.Apart.{IsApart};

use crate::cliques::{cliques_of, is_pair};
use crate::reading::pairs_stated;
use form_build::Maker;
use ground_form::Con;
use std::alloc::AllocError;

/// Whether the variable is a pair with each of the others.
fn is_apart_from(pairs: &[(u32, u32)], u: u32, others: &[u32]) -> bool
    ensures { result ≡ true → All (λ v. Contains pairs.now (u, v)) others.now }
{
    for v in others {
        if !is_pair(pairs, u, *v) {
            return false;
        }
    }
    true
}

/// Whether each two of the variables are a pair.
fn are_apart(pairs: &[(u32, u32)], vars: &[u32]) -> bool
    ensures { result ≡ true → (g : Ground) (a : List ℤ) → All (IsApart g) pairs.now → IsWorld g a
        → AllHold g a → all_differ vars.now a ≡ true }
{
    for i in 0..vars.len() {
        if !is_apart_from(pairs, vars[i], &vars[i + 1..]) {
            return false;
        }
    }
    true
}

/// Whether all of the variables exist.
fn exist(maker: &Maker, vars: &[u32]) -> bool
    ensures { result ≡ true → All (λ x. x < length maker.now.domains) vars.now }
{
    let count = maker.domains().len();
    for x in vars {
        if *x as usize >= count {
            return false;
        }
    }
    true
}

/// The numbers of the constraints that say that variables differ.
fn different_at(maker: &Maker) -> Result<Vec<usize>, AllocError> {
    let mut out = Vec::new(maker.alloc());
    for (k, con) in maker.cons().iter().enumerate() {
        if let Con::AllDiff { vars: _ } = con {
            out.push(k)?;
        }
    }
    Ok(out)
}

/// Whether constraint k says that these variables differ.
fn is_said_by(maker: &Maker, k: usize, vars: &[u32]) -> bool {
    let cons = maker.cons();
    if k >= cons.len() {
        return false;
    }
    match &cons[k] {
        Con::AllDiff { vars: there } => there.items() == vars,
        _ => false,
    }
}

/// Whether one of these constraints says that the variables differ.
fn stands(maker: &Maker, before: &[usize], vars: &[u32]) -> bool {
    for k in before {
        if is_said_by(maker, *k, vars) {
            return true;
        }
    }
    false
}

/// The variables, where each two are a pair, and none of the constraints before says that they
/// differ.
fn new_clique<'a>(
    maker: &Maker,
    before: &[usize],
    pairs: &[(u32, u32)],
    vars: &'a [u32],
) -> Option<&'a [u32]>
    requires { All (IsApart maker.now) pairs.now }
    ensures exist { IfSome result (λ vs. All (λ x. x < length maker.now.domains) vs.now) }
    ensures differ { IfSome result (λ vs. (a : List ℤ) → IsWorld maker.now a
        → AllHold maker.now a → all_differ vs.now a ≡ true) }
{
    if are_apart(pairs, vars) && exist(maker, vars) && !stands(maker, before, vars) {
        Some(vars)
    } else {
        None
    }
}

/// States that the variables differ, where each two are a pair, and none of the constraints before
/// says so.
fn state_clique(
    maker: &mut Maker,
    before: &[usize],
    pairs: &[(u32, u32)],
    vars: &[u32],
) -> Result<(), AllocError>
    requires { All (IsApart maker.old) pairs.now }
    ensures { OnOk result (Defines maker.old maker.new) }
{
    let Some(found) = new_clique(maker, before, pairs, vars) else {
        return Ok(());
    };
    maker.ask(1)?;
    maker.require_different(found)?;
    Ok(())
}

/// States that the variables of each of these lists differ, where each two are a pair.
fn state_cliques(
    maker: &mut Maker,
    before: &[usize],
    pairs: &[(u32, u32)],
    lists: &[Vec<u32>],
) -> Result<(), AllocError>
    requires { All (IsApart maker.old) pairs.now }
    ensures { OnOk result (Defines maker.old maker.new) }
{
    for vars in lists {
        state_clique(maker, before, pairs, vars.as_slice())?;
    }
    Ok(())
}

/// States that variables differ of which it is stated that each two do. Nothing new is said.
pub fn differ_stated(maker: &mut Maker) -> Result<(), AllocError>
    ensures { OnOk result (Defines maker.old maker.new) }
{
    let pairs = pairs_stated(maker)?;
    let lists = cliques_of(maker.alloc(), pairs.as_slice())?;
    let before = different_at(maker)?;
    state_cliques(maker, before.as_slice(), pairs.as_slice(), lists.as_slice())?;
    Ok(())
}
