//! The boxes of a problem's variables where no constraint has anything more to say, before any
//! decision.
ghost use Rattle.std.specs.Prelude.{false, ◌≡◌, ◌<◌, length, slice_set, IfOk, IfSome, OnOk};
ghost use Rattle.std.specs.List.{All};
ghost use Rattle.signed_clause.specs.Ranges.{is_nil};
ghost use Rattle.ground_form.specs.WellMade.{IsWellMade};
ghost use Rattle.rule_law.specs.Answers.{AreBoxesWithin};
ghost use Rattle.root_boxes.specs.Following.{HoldSolutions, AreRootBoxes, Follows};

use crate::propagators::Propagators;
use ground_form::{Ground, copy_sets};
use signed_clause::{Clause, IntSet};
use std::alloc::{AllocError, Global};

/// So many rounds at most.
const MOST_ROUNDS: u32 = 8;

/// So often a constraint is asked in a round at most.
const MOST_STEPS: u32 = 64;

/// What follows without a decision.
#[derive(Drop)]
pub struct Root {
    /// The boxes in which every solution lies.
    pub boxes: Vec<IntSet>,
    /// The constraints that narrowed some, by their numbers, each as often as in a round it did.
    pub acted: Vec<u32>,
}

/// Puts a set in place of a variable's box.
fn put(boxes: &mut Vec<IntSet>, x: u32, set: IntSet)
    requires { x < length boxes.old.items }
    ensures { boxes.new.items ≡ slice_set boxes.old.items x set }
{
    boxes[x as usize] = set;
}

/// Narrows the box that a clause narrows. Says whether there is one: if not, nothing changes.
fn take_clause(g: &Ground, boxes: &mut Vec<IntSet>, clause: &Clause) -> Result<bool, AllocError>
    requires well_made { IsWellMade g.now }
    requires boxes { AreRootBoxes g.now boxes.old.items }
    requires follows { Follows g.now boxes.old.items clause.now }
    ensures boxes { OnOk result (AreRootBoxes g.now boxes.new.items) }
{
    let Some((x, set)) = clause.unit(boxes.as_slice())? else {
        return Ok(false);
    };
    put(boxes, x, set);
    Ok(true)
}

/// One step: whether constraint k narrowed a box.
fn step(
    g: &Ground,
    propagators: &mut Propagators,
    boxes: &mut Vec<IntSet>,
    k: u32,
) -> Result<bool, AllocError>
    requires well_made { IsWellMade g.now }
    requires con { k < length g.now.cons }
    requires boxes { AreRootBoxes g.now boxes.old.items }
    ensures boxes { OnOk result (AreRootBoxes g.now boxes.new.items) }
{
    let Some(clause) = propagators.ask(g, k, boxes.as_slice())? else {
        return Ok(false);
    };
    take_clause(g, boxes, &clause)
}

/// Constraint k is asked as long as it narrows boxes. Says whether it did.
fn settle(
    g: &Ground,
    propagators: &mut Propagators,
    boxes: &mut Vec<IntSet>,
    k: u32,
) -> Result<bool, AllocError>
    requires well_made { IsWellMade g.now }
    requires con { k < length g.now.cons }
    requires boxes { AreRootBoxes g.now boxes.old.items }
    ensures boxes { OnOk result (AreRootBoxes g.now boxes.new.items) }
{
    for n in 0..MOST_STEPS {
        if !step(g, propagators, boxes, k)? {
            return Ok(n > 0);
        }
    }
    Ok(true)
}

/// Each constraint is asked once more. Says whether one narrowed a box.
fn round(g: &Ground, propagators: &mut Propagators, root: &mut Root) -> Result<bool, AllocError>
    requires well_made { IsWellMade g.now }
    requires boxes { AreRootBoxes g.now root.old.boxes.items }
    ensures boxes { OnOk result (AreRootBoxes g.now root.new.boxes.items) }
{
    let mut some = false;
    for k in 0..g.cons.items().len() {
        if settle(g, propagators, &mut root.boxes, k as u32)? {
            root.acted.push(k as u32)?;
            some = true;
        }
    }
    Ok(some)
}

/// Rounds until one changes nothing, and no more than so many.
fn go_on(g: &Ground, propagators: &mut Propagators, root: Root) -> Result<Root, AllocError>
    requires well_made { IsWellMade g.now }
    requires boxes { AreRootBoxes g.now root.boxes.items }
    ensures boxes { IfOk result (λ r. AreRootBoxes g.now r.boxes.items) }
{
    let mut root = root;
    for _ in 0..MOST_ROUNDS {
        if !round(g, propagators, &mut root)? {
            return Ok(root);
        }
    }
    Ok(root)
}

/// The boxes that follow from a problem without a decision, and which constraints narrowed them.
/// Whether the fixpoint was reached isn't promised.
///
/// # Errors
/// Want of memory.
pub fn root_of(alloc: Global, g: &Ground) -> Result<Root, AllocError>
    requires well_made { IsWellMade g.now }
    requires some { All (λ d. is_nil d ≡ false) g.now.domains }
    ensures within { IfOk result (λ r. AreBoxesWithin g.now.domains r.boxes.items) }
    ensures holds { IfOk result (λ r. HoldSolutions g.now r.boxes.items) }
{
    let mut propagators = Propagators::new(alloc);
    let root = Root {
        boxes: copy_sets(alloc, g.domains.items())?,
        acted: Vec::new(alloc),
    };
    let root = go_on(g, &mut propagators, root)?;
    Ok(root)
}
