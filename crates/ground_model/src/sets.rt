//! The sizes of reference sets: each set has as many members as its shape says.
ghost use Rattle.std.specs.Prelude.{◌≡◌, ◌<◌, ◌^◌, ℕ, ℤ, List, [], true, false, pos, neg_ℤ, length, slice_index_or, Contains, IfNone, IfOk, IfSome, OnOk};
ghost use Rattle.class_table.specs.declared.table.Resolved.TheVariants.{RefSet};
ghost use Rattle.object_alloc.specs.declared.object.Leaf.{Leaf as ALeaf};
ghost use Rattle.object_alloc.specs.Groups.{own_cells};
ghost use Rattle.object_alloc.specs.Walk.{walk, leaves_in};
ghost use Rattle.expr_forms.specs.Standing.{HasCells};
ghost use Rattle.ground_expr.specs.Asked.{has_count, is_full, are_full};
ghost use Rattle.ground_model.specs.Requiring.{Requires};
ghost use Rattle.ground_model.specs.Sizes.{each_once};

use class_table::Resolved;
use form_build::{Linear, Maker};
use form_truths::{Test, state};
use object_alloc::{Leaf, Objects};
use std::alloc::{AllocError, Global};

/// How many members a reference set of this shape has. None where it is another shape.
fn set_size(shape: Resolved) -> Option<u32>
    ensures some { IfSome result (λ n. (c : ℕ) × (shape ≡ RefSet c n)) }
    ensures none { IfNone result ((members : ℕ) → has_count shape members ≡ true) }
{
    match shape {
        Resolved::RefSet(_, size) => Some(size),
        Resolved::Span(_, _)
        | Resolved::Truth
        | Resolved::Choice(_)
        | Resolved::One(_)
        | Resolved::Many(_, _)
        | Resolved::Ref(_) => None,
    }
}

/// The number of members of a set less the size that it is to have, as a sum over its cells.
fn surplus(alloc: Global, cells: &[u32], size: u32) -> Result<Linear, AllocError>
    ensures terms { IfOk result (λ f. f.terms ≡ each_once cells.now) }
    ensures offset { IfOk result (λ f. f.offset ≡ neg_ℤ (pos size)) }
    ensures small { size < 2 ^ 32 }
{
    let mut terms = Vec::new(alloc);
    for cell in cells {
        terms.push((1, *cell))?;
    }
    Ok(Linear::of(terms, -i64::from(size)))
}

/// The leaf of this number.
fn leaf_at(leaves: &[Leaf], i: usize) -> Leaf
    requires { i < length leaves.now }
    ensures { (d : ALeaf) → result ≡ slice_index_or leaves.now i d }
{
    leaves[i]
}

/// States that a leaf has as many members as its shape says, where it is a reference set.
fn require_full(maker: &mut Maker, objects: &Objects<'_>, leaf: Leaf) -> Result<(), AllocError>
    requires leaf { Contains (leaves_in (walk objects.now)) leaf }
    requires cells { HasCells objects.now maker.old }
    ensures says { OnOk result (Requires [] maker.old maker.new
        (λ values. is_full objects.now values leaf)) }
{
    let _count = objects.count();
    let Some(size) = set_size(leaf.shape) else {
        return Ok(());
    };
    let cells = objects.own_cells(leaf.owner, leaf.attribute);
    let f = surplus(maker.alloc(), cells, size)?;
    maker.ask(2)?;
    let test = Test::Zero(f, true);
    state(maker, &test)?;
    Ok(())
}

/// Whether a leaf has no cells.
#[tactic(auto, using(std::proofs::lemmas::List::nil_from_length))]
fn has_no_cells(objects: &Objects<'_>, leaf: Leaf) -> bool
    ensures { result ≡ true → own_cells objects.now leaf.owner leaf.attribute ≡ [] }
{
    objects.own_cells(leaf.owner, leaf.attribute).is_empty()
}

/// Whether a leaf is a reference set that is to have members, and has no cells.
fn is_impossible(objects: &Objects<'_>, leaf: Leaf) -> bool
    ensures { result ≡ true → (values : List ℤ) → is_full objects.now values leaf ≡ false }
{
    match set_size(leaf.shape) {
        Some(size) => size > 0 && has_no_cells(objects, leaf),
        None => false,
    }
}

/// States that each reference set of a model has as many members as its shape says. The first that
/// cannot have them says all.
pub(crate) fn require_full_sets(maker: &mut Maker, objects: &Objects<'_>) -> Result<(), AllocError>
    requires cells { HasCells objects.now maker.old }
    ensures says { OnOk result (Requires [] maker.old maker.new
        (λ values. are_full objects.now values)) }
{
    let leaves = objects.leaves();
    for i in 0..leaves.len() {
        let leaf = leaf_at(leaves, i);
        require_full(maker, objects, leaf)?;
        if is_impossible(objects, leaf) {
            return Ok(());
        }
    }
    Ok(())
}
