//! The leaves that have other values than before, each as one truth, and how many they are.
//!
//! A leaf of one cell is changed where the cell has another value than its former one: a literal of
//! the cell. A reference set is where some of its cells has: a disjunction. A leaf without a former
//! value adds nothing.
ghost use Rattle.std.specs.Prelude.{◌≡◌, ◌<◌, ◌≤◌, ◌+◌, ◌*◌, ◌^◌, ◌+ℤ◌, ◌||◌, ℕ, ℤ, List, Option, Some, drop, length, pos, take, slice_index_or, unsigned_abs, Contains, IfOk, OnOk};
ghost use Rattle.object_alloc.specs.declared.object.Leaf.{Leaf as ALeaf};
ghost use Rattle.object_alloc.specs.Cells.{cells as all_cells, leaf_cells};
ghost use Rattle.object_alloc.specs.Changes.{changes, differs, is_changed};
ghost use Rattle.object_alloc.specs.Walk.{walk, leaves_in};
ghost use Rattle.ground_form.specs.Meaning.{value_of, bit};
ghost use Rattle.form_build.specs.Forms.{truth_at, HasVariable};
ghost use Rattle.form_build.specs.Worlds.{IsInBoxes, IsWorld, Defines, IsFew};
ghost use Rattle.form_truths.specs.Disjunctions.{disjunction_at, IsWithin};
ghost use Rattle.reconfigure.specs.CellsFirst.{HasCells};
ghost use Rattle.reconfigure.specs.Counting.{count_at, IsCount};

use crate::count::{Count, add_truth};
use form_build::{Maker, Truth, turned};
use form_truths::{Disjunction, truth_of};
use object_alloc::{Leaf, Objects};
use signed_clause::IntSet;
use std::alloc::{AllocError, Global};

/// Whether a variable has another value than this one.
fn other_value(alloc: Global, boxes: &[IntSet], x: u32, former: i64) -> Result<Truth, AllocError>
    requires exists { x < length boxes.now }
    ensures variable { IfOk result (λ t. HasVariable (length boxes.now) t) }
    ensures value { IfOk result (λ t. (a : List ℤ) → IsInBoxes boxes.now a
        → truth_at t a ≡ differs (Some former) (value_of a x)) }
{
    let same = Truth::In(x, IntSet::range(alloc, former, former));
    turned(alloc, boxes, &same)
}

/// Adds that a cell has another value than its hint, where it has a hint.
fn push_cell(
    maker: &Maker,
    d: &mut Disjunction,
    hint: Option<i64>,
    x: u32,
) -> Result<(), AllocError>
    requires exists { x < length maker.now.domains }
    ensures value { OnOk result ((a : List ℤ) → IsWorld maker.now a
        → disjunction_at d.new a ≡ (differs hint (value_of a x) || disjunction_at d.old a)) }
    ensures exist { OnOk result (IsWithin (length maker.now.domains) d.old.1
        → IsWithin (length maker.now.domains) d.new.1) }
    ensures few { OnOk result (length d.new.1 ≤ length d.old.1 + 1) }
{
    let Some(former) = hint else {
        return Ok(());
    };
    let t = other_value(maker.alloc(), maker.domains(), x, former)?;
    d.push(t)?;
    Ok(())
}

/// The hint of this number.
fn hint_at(hints: &[Option<i64>], i: usize) -> Option<i64>
    requires { i < length hints.now }
    ensures { (d : Option ℤ) → result ≡ slice_index_or hints.now i d }
{
    hints[i]
}

/// Whether some of a leaf's cells, which stand from `first` on, has another value than its hint.
fn changed_cells(
    maker: &Maker,
    hints: &[Option<i64>],
    first: u32,
) -> Result<Disjunction, AllocError>
    requires searched { first + length hints.now ≤ maker.now.search }
    ensures value { IfOk result (λ d. (a : List ℤ) → IsWorld maker.now a → disjunction_at d a
        ≡ is_changed hints.now (drop first (take maker.now.search a))) }
    ensures exist { IfOk result (λ d. IsWithin (length maker.now.domains) d.1) }
    ensures few { IfOk result (λ d. length d.1 ≤ length hints.now) }
{
    let _search = maker.search();
    let _domains = maker.domains();
    let mut d = Disjunction::new(maker.alloc());
    for i in 0..hints.len() {
        push_cell(maker, &mut d, hint_at(hints, i), first + i as u32)?;
    }
    Ok(d)
}

/// The same as a truth.
fn changed(maker: &mut Maker, hints: &[Option<i64>], first: u32) -> Result<Truth, AllocError>
    requires searched { first + length hints.now ≤ maker.old.search }
    requires few { length hints.now ≤ 2 ^ 20 }
    ensures variable { IfOk result (λ t. HasVariable (length maker.new.domains) t) }
    ensures value { IfOk result (λ t. (a : List ℤ) → IsWorld maker.new a → truth_at t a
        ≡ is_changed hints.now (drop first (take maker.new.search a))) }
    ensures adds { IfOk result (λ t. Defines maker.old maker.new) }
    ensures few { IfOk result (λ t. IsFew (length hints.now + 1) maker.old maker.new) }
{
    let d = changed_cells(maker, hints, first)?;
    maker.ask(d.literals().len() as u32 + 1)?;
    let t = truth_of(maker, &d)?;
    Ok(t)
}

/// Adds 1 where some of a leaf's cells, which stand from `first` on, has another value than its
/// hint. Where there is no cell nothing is made.
fn count_leaf(
    maker: &mut Maker,
    count: &mut Count,
    hints: &[Option<i64>],
    first: u32,
) -> Result<(), AllocError>
    requires searched { first + length hints.now ≤ maker.old.search }
    requires few { length hints.now ≤ 2 ^ 20 }
    requires small { unsigned_abs count.old.offset ≤ 2 ^ 32 }
    ensures value { OnOk result ((a : List ℤ) → IsWorld maker.new a → count_at count.new a
        ≡ count_at count.old a
        +ℤ bit (is_changed hints.now (drop first (take maker.new.search a)))) }
    ensures numbers { OnOk result ((n : ℕ) → IsCount maker.old.domains n count.old
        → IsCount maker.new.domains (n + 2 * length hints.now) count.new) }
    ensures adds { OnOk result (Defines maker.old maker.new) }
    ensures few { OnOk result (IsFew (3 * length hints.now) maker.old maker.new) }
{
    if hints.is_empty() {
        return Ok(());
    }
    let t = changed(maker, hints, first)?;
    maker.ask(1)?;
    add_truth(maker, count, &t)?;
    Ok(())
}

/// The leaf of this number.
pub(crate) fn leaf_at(leaves: &[Leaf], i: usize) -> Leaf
    requires { i < length leaves.now }
    ensures { (d : ALeaf) → result ≡ slice_index_or leaves.now i d }
{
    leaves[i]
}

/// How many cells a leaf has.
pub(crate) fn cell_count(objects: &Objects<'_>, leaf: Leaf) -> usize
    requires leaf { Contains (leaves_in (walk objects.now)) leaf }
    ensures { result ≡ length (leaf_cells objects.now leaf) }
{
    let _count = objects.count();
    objects.own_cells(leaf.owner, leaf.attribute).len()
}

/// Adds 1 where a leaf, whose cells stand from `first` on, has a former value and another one now,
/// and answers where the cells of the next leaf stand.
fn count_next(
    maker: &mut Maker,
    count: &mut Count,
    objects: &Objects<'_>,
    former: &[Option<i64>],
    leaf: Leaf,
    first: usize,
) -> Result<usize, AllocError>
    requires leaf { Contains (leaves_in (walk objects.now)) leaf }
    requires searched { first + length (leaf_cells objects.now leaf) ≤ maker.old.search }
    requires hints { maker.old.search ≤ length former.now }
    requires few { maker.old.search ≤ 2 ^ 20 }
    requires small { unsigned_abs count.old.offset ≤ 2 ^ 32 }
    ensures next { IfOk result (λ next. next ≡ first + length (leaf_cells objects.now leaf)) }
    ensures value { IfOk result (λ next. (a : List ℤ) → IsWorld maker.new a
        → count_at count.new a ≡ count_at count.old a
        +ℤ bit (is_changed (take (length (leaf_cells objects.now leaf)) (drop first former.now))
        (drop first (take maker.new.search a)))) }
    ensures numbers { IfOk result (λ next. (n : ℕ) → IsCount maker.old.domains n count.old
        → IsCount maker.new.domains (n + 2 * length (leaf_cells objects.now leaf)) count.new) }
    ensures adds { IfOk result (λ next. Defines maker.old maker.new) }
    ensures few { IfOk result (λ next. IsFew (3 * length (leaf_cells objects.now leaf))
        maker.old maker.new) }
{
    let size = cell_count(objects, leaf);
    let hints = &former[first..first + size];
    count_leaf(maker, count, hints, first as u32)?;
    Ok(first + size)
}

/// How many leaves have a former value and another one now.
pub(crate) fn count_changes(
    maker: &mut Maker,
    objects: &Objects<'_>,
    former: &[Option<i64>],
) -> Result<Count, AllocError>
    requires cells { HasCells objects.now maker.old }
    requires hints { length (all_cells objects.now) ≤ length former.now }
    ensures value { IfOk result (λ c. (a : List ℤ) → IsWorld maker.new a → count_at c a
        ≡ pos (changes objects.now former.now (take maker.new.search a))) }
    ensures numbers { IfOk result (λ c. IsCount maker.new.domains
        (2 * length (all_cells objects.now)) c) }
    ensures adds { IfOk result (λ c. Defines maker.old maker.new) }
    ensures few { IfOk result (λ c. IsFew (3 * length (all_cells objects.now))
        maker.old maker.new) }
{
    let _count = objects.count();
    let leaves = objects.leaves();
    let mut count = Count::new(maker.alloc());
    let mut first = 0;
    for i in 0..leaves.len() {
        let leaf = leaf_at(leaves, i);
        first = count_next(maker, &mut count, objects, former, leaf, first)?;
    }
    Ok(count)
}
