//! Elements.
//!
//! One walk over the items finds the first whose value the index can have though its variable and
//! out have no common value, or whose value the index has though one of both has a value that the
//! other lacks. Then the index isn't that value, or these two have a common value: a clause of
//! three literals. Where no item tells anything, an index that may have values of no item is told
//! to be an item's value, out of which a value is offered by no item is told to have another one,
//! and the only variable that can be picked is told to have a value that out can have. Where none
//! of these is so, there is nothing to say, and nothing is probed. Plain probing tells only of
//! elements in which a variable stands twice.
//!
//! Where an index has more values than items can be picked, the count proves that some value is
//! none's. A value of out that no item offers is taken away together with all such values. Whether
//! a variable stands twice is asked of out and the index alone.
//!
//! Only items that the index may pick are looked at (`near`), so a call costs no more where the
//! index is nearly known, however many items there are.
ghost use Rattle.std.specs.Prelude.{◌≡◌, ◌<◌, ◌≤◌, ◌==◌, ◌&&◌, ◌||◌, ◌++◌, ◌∷◌, [], ◌↔◌, IsTrue, not, cond, true, false, IfOk, OnOk, IfSome, IfNone, length, slice_index_or};
ghost use Rattle.std.specs.List.{All};
ghost use Rattle.signed_clause.specs.Ranges.{has, is_nil, count_of, IsValid};
ghost use Rattle.signed_clause.specs.SetAlgebra.{is_disjoint, less};
ghost use Rattle.signed_clause.specs.Clauses.{Literals, box_of};
ghost use Rattle.ground_form.specs.declared.con.Con.TheVariants.{ElementDef};
ghost use Rattle.ground_form.specs.Meaning.{vars_of};
ghost use Rattle.ground_form.specs.WellMade.{IsWellMadeCon, distinct_values};
ghost use Rattle.rule_law.specs.Answers.{AreBoxesWithin, IsAnswer, IsPruning};
ghost use Rattle.rule_law.specs.Reasons.{IsReason, no_repeat};
ghost use Rattle.box_rules.specs.Refuted.{none_picked};
ghost use Rattle.box_rules.specs.Quiet.{probed};
ghost use Rattle.rule_law.specs.Plans.{literals_of};
ghost use Rattle.element_prop.specs.Elements.{HasToPick, pick_plan, all_meet, count_possible, some_other, without_one, without_items, without_boxes, out_plan, some_offers, all_offered, lacks_var, AreHeadsDifferent, IsFurther};
ghost use Rattle.element_prop.specs.Near.{IsNear};
ghost use Rattle.element_prop.specs.Walks.{AreApart, Says, Tells};

use crate::equality::{alone, is_value};
use crate::near::{Near, all_items, is_possible, near_items, possible_items};
use crate::offers::unoffered;
use ground_form::Number;
use rule_law::{Repeats, Subject, keep_out, planned_pruning, probe, pruning};
use signed_clause::{Clause, IntSet};
use std::alloc::{AllocError, Global};

/// What was met on a walk over items each of which can be out.
#[derive(Clone, Copy)]
pub struct Met {
    /// Of how many of them the index can have the value.
    pub count: usize,
    /// Whether none of these has the variable of out or of the index.
    pub apart: bool,
}

/// What a walk over some of the items tells.
#[derive(Clone, Copy)]
pub enum Walk {
    /// No single one of them tells anything.
    Met(Met),
    /// The index isn't the value of the item at the index, or the item has a value that out's box
    /// has.
    Item(usize),
    /// The same, with out and the item exchanged.
    Out(usize),
}

/// What the items tell.
#[derive(Clone, Copy)]
pub enum Finding {
    /// No single item tells anything; these are all that the index may pick.
    Open(Near),
    /// The index isn't the value of the item at the index, or the item has a value that out's box
    /// has.
    Item(usize),
    /// The same, with out and the item exchanged.
    Out(usize),
}

/// What is found where no single item tells anything.
#[derive(Clone, Copy)]
pub enum Further {
    /// Nothing.
    Idle,
    /// Out can be a value that no item offers.
    Unoffered(Number),
    /// Only items of this variable can be picked, and it can be what out can't.
    OutOfSet(u32),
}

/// Whether the index can be the item's value though its box and that of out have no common value,
/// or is it though the item's box isn't inside that of out. The latter is asked only where the
/// index is said to be a single value.
fn is_item_out(
    t: (i64, u32),
    can: bool,
    single: bool,
    out: &IntSet,
    index: &IntSet,
    boxes: &[IntSet],
) -> bool
    requires variable { t.1 < length boxes.now }
    requires can { can ≡ has index.now t.0 }
    ensures said { result ≡ true → HasToPick index.now t.0 (box_of boxes.now t.1) out.now }
    ensures met { result ≡ false → (not (has index.now t.0)
        || not (is_disjoint (box_of boxes.now t.1) out.now)) ≡ true }
{
    let at = &boxes[t.1 as usize];
    can && (at.disjoint(out)
        || (single && is_value(index, Number { value: t.0 }) && !at.within(out)))
}

/// Whether the index, said to be a single value, is the item's value though out's box isn't inside
/// that of the item.
fn is_out_out(t: (i64, u32), single: bool, out: &IntSet, index: &IntSet, boxes: &[IntSet]) -> bool
    requires { t.1 < length boxes.now }
    ensures { result ≡ true → HasToPick index.now t.0 out.now (box_of boxes.now t.1) }
{
    single && is_value(index, Number { value: t.0 }) && !out.within(&boxes[t.1 as usize])
}

/// The item at the index.
fn item_at(items: &[(i64, u32)], i: usize) -> (i64, u32)
    requires { i < length items.now }
    ensures { (d : _) → result ≡ slice_index_or items.now i d }
{
    items[i]
}

/// Whether the item's variable is neither of two, and none before was.
fn is_still_apart(apart: bool, t: (i64, u32), vars: (u32, u32)) -> bool
    ensures before { result ≡ true → apart ≡ true }
    ensures out { result ≡ true → (t.1 == vars.0) ≡ false }
    ensures index { result ≡ true → (t.1 == vars.1) ≡ false }
{
    apart && t.1 != vars.0 && t.1 != vars.1
}

/// 1 for an item whose value the index can have, else 0.
fn count_one(can: bool) -> usize
    ensures value { result ≡ cond can 1 0 }
    ensures most { result ≤ 1 }
{
    if can { 1 } else { 0 }
}

/// What the items from one place up to another one tell: the first that tells something.
fn walk_over(
    items: &[(i64, u32)],
    near: Near,
    vars: (u32, u32),
    out: &IntSet,
    index: &IntSet,
    boxes: &[IntSet],
) -> Walk
    requires items { All (λ t. t.1 < length boxes.now) items.now }
    requires order { near.from ≤ near.to }
    requires within { near.to ≤ length items.now }
    ensures { Tells items.now near vars.0 vars.1 out.now index.now boxes.now result }
{
    let single = index.is_single();
    let mut count = 0;
    let mut apart = true;
    let mut i = near.from;
    while i < near.to {
        let t = item_at(items, i);
        let can = is_possible(t, index);
        if is_item_out(t, can, single, out, index, boxes) {
            return Walk::Item(i);
        }
        if is_out_out(t, single, out, index, boxes) {
            return Walk::Out(i);
        }
        apart = is_still_apart(apart, t, vars);
        count += count_one(can);
        i += 1;
    }
    Walk::Met(Met { count, apart })
}

/// What the items tell, all of which are looked at.
fn find_in_all(
    items: &[(i64, u32)],
    vars: (u32, u32),
    out: &IntSet,
    index: &IntSet,
    boxes: &[IntSet],
) -> Finding
    requires items { All (λ t. t.1 < length boxes.now) items.now }
    ensures { Says items.now vars.0 vars.1 out.now index.now boxes.now result }
{
    let all = all_items(items, index);
    match walk_over(items, all, vars, out, index, boxes) {
        Walk::Item(i) => Finding::Item(i),
        Walk::Out(i) => Finding::Out(i),
        Walk::Met(met) => Finding::Open(Near {
            from: all.from,
            to: all.to,
            full: false,
            apart: met.apart,
        }),
    }
}

/// What the items tell. Where those that the index's ends lead to are as many as the index has
/// values, no other ones are looked at.
fn find(
    items: &[(i64, u32)],
    vars: (u32, u32),
    out: &IntSet,
    index: &IntSet,
    boxes: &[IntSet],
) -> Finding
    requires items { All (λ t. t.1 < length boxes.now) items.now }
    requires distinct { distinct_values items.now ≡ true }
    requires index { IsValid index.now }
    ensures { Says items.now vars.0 vars.1 out.now index.now boxes.now result }
{
    let guess = near_items(items, index);
    match walk_over(items, guess, vars, out, index, boxes) {
        Walk::Item(i) => Finding::Item(i),
        Walk::Out(i) => Finding::Out(i),
        Walk::Met(met) => {
            if index.at_most(met.count as u64) {
                Finding::Open(Near {
                    from: guess.from,
                    to: guess.to,
                    full: true,
                    apart: met.apart,
                })
            } else {
                find_in_all(items, vars, out, index, boxes)
            }
        }
    }
}

/// Whether the index can be the item's value, and the item can be out.
fn can_pick(t: (i64, u32), out: &IntSet, index: &IntSet, boxes: &[IntSet]) -> bool
    requires { t.1 < length boxes.now }
    ensures { result ≡ (has index.now t.0 && not (is_disjoint (box_of boxes.now t.1) out.now)) }
{
    index.contains(t.0) && !boxes[t.1 as usize].disjoint(out)
}

/// The place of the first item that can be picked.
#[tactic(auto, using(crate::proofs::NearLaws::picked_from, crate::proofs::NearLaws::picked_to))]
fn first_pick(
    items: &[(i64, u32)],
    near: Near,
    out: &IntSet,
    index: &IntSet,
    boxes: &[IntSet],
) -> Option<usize>
    requires items { All (λ t. t.1 < length boxes.now) items.now }
    requires near { IsNear items.now index.now near }
    ensures within { IfSome result (λ i. i < length items.now) }
    ensures none { IfNone result (none_picked out.now index.now items.now boxes.now ≡ true) }
    ensures can { IfSome result (λ i. (d : _) → (has index.now (slice_index_or items.now i d).0
        && not (is_disjoint (box_of boxes.now (slice_index_or items.now i d).1) out.now)) ≡ true) }
{
    let mut i = near.from;
    while i < near.to {
        if can_pick(items[i], out, index, boxes) {
            return Some(i);
        }
        i += 1;
    }
    None
}

/// Whether an item of another variable can be picked.
#[tactic(auto, using(crate::proofs::NearLaws::other_from, crate::proofs::NearLaws::other_to))]
fn has_another(
    items: &[(i64, u32)],
    near: Near,
    x: u32,
    out: &IntSet,
    index: &IntSet,
    boxes: &[IntSet],
) -> bool
    requires items { All (λ t. t.1 < length boxes.now) items.now }
    requires near { IsNear items.now index.now near }
    ensures { result ≡ some_other items.now x out.now index.now boxes.now }
{
    let mut i = near.from;
    while i < near.to {
        if items[i].1 != x && can_pick(items[i], out, index, boxes) {
            return true;
        }
        i += 1;
    }
    false
}

/// Whether the variable is that of an item whose value the index can be.
#[tactic(auto, using(crate::proofs::NearLaws::lacks_from, crate::proofs::NearLaws::lacks_to))]
fn has_var(items: &[(i64, u32)], near: Near, x: u32, index: &IntSet) -> bool
    requires near { IsNear items.now index.now near }
    ensures { result ≡ not (lacks_var x items.now index.now) }
{
    let mut i = near.from;
    while i < near.to {
        if items[i].1 == x && index.contains(items[i].0) {
            return true;
        }
        i += 1;
    }
    false
}

/// Whether out and the index differ from each other and from the variables of the items that can be
/// picked.
fn are_heads_different(items: &[(i64, u32)], near: Near, vars: (u32, u32), index: &IntSet) -> bool
    requires near { IsNear items.now index.now near }
    requires apart { AreApart items.now near vars.0 vars.1 index.now }
    ensures { result ≡ true → AreHeadsDifferent vars.0 vars.1 items.now index.now }
{
    vars.0 != vars.1
        && (near.apart
            || (!has_var(items, near, vars.0, index) && !has_var(items, near, vars.1, index)))
}

/// What there is to find where each value of out that is probed is offered: whether two items of
/// different variables can be picked, or the only variable's box lies within that of out.
fn find_outside(items: &[(i64, u32)], near: Near, vars: (u32, u32), boxes: &[IntSet]) -> Further
    requires out { vars.0 < length boxes.now }
    requires index { vars.1 < length boxes.now }
    requires items { All (λ t. t.1 < length boxes.now) items.now }
    requires near { IsNear items.now (box_of boxes.now vars.1) near }
    requires different { AreHeadsDifferent vars.0 vars.1 items.now (box_of boxes.now vars.1) }
    requires met { all_meet items.now (box_of boxes.now vars.0) (box_of boxes.now vars.1) boxes.now
        ≡ true }
    requires full { count_of (box_of boxes.now vars.1) ≤ count_possible items.now
        (box_of boxes.now vars.1) }
    requires open { none_picked (box_of boxes.now vars.0) (box_of boxes.now vars.1) items.now
        boxes.now ≡ false }
    requires offered { all_offered (probed (box_of boxes.now vars.0)) items.now
        (box_of boxes.now vars.1) boxes.now ≡ true }
    ensures { IsFurther items.now vars.0 vars.1 boxes.now result }
{
    let out = &boxes[vars.0 as usize];
    let index = &boxes[vars.1 as usize];
    match first_pick(items, near, out, index, boxes) {
        Some(i) => {
            let x = items[i].1;
            if has_another(items, near, x, out, index, boxes) {
                return Further::Idle;
            }
            if boxes[x as usize].within(out) {
                Further::Idle
            } else {
                Further::OutOfSet(x)
            }
        }
        None => unreachable!(),
    }
}

/// What there is to find where each value of the index is an item's that can be out.
fn find_further(items: &[(i64, u32)], near: Near, vars: (u32, u32), boxes: &[IntSet]) -> Further
    requires out { vars.0 < length boxes.now }
    requires index { vars.1 < length boxes.now }
    requires items { All (λ t. t.1 < length boxes.now) items.now }
    requires some { is_nil (box_of boxes.now vars.0) ≡ false }
    requires sets { All (λ s. IsValid s) boxes.now }
    requires near { IsNear items.now (box_of boxes.now vars.1) near }
    requires different { AreHeadsDifferent vars.0 vars.1 items.now (box_of boxes.now vars.1) }
    requires met { all_meet items.now (box_of boxes.now vars.0) (box_of boxes.now vars.1) boxes.now
        ≡ true }
    requires full { count_of (box_of boxes.now vars.1) ≤ count_possible items.now
        (box_of boxes.now vars.1) }
    requires open { none_picked (box_of boxes.now vars.0) (box_of boxes.now vars.1) items.now
        boxes.now ≡ false }
    ensures { IsFurther items.now vars.0 vars.1 boxes.now result }
{
    match unoffered(
        items,
        near,
        &boxes[vars.0 as usize],
        &boxes[vars.1 as usize],
        boxes,
    ) {
        Some(v) => Further::Unoffered(v),
        None => find_outside(items, near, vars, boxes),
    }
}

/// The set without the value.
fn without_one(set: IntSet, v: Number, alloc: Global) -> Result<IntSet, AllocError>
    ensures { IfOk result (λ s. s ≡ without_one v.value set) }
{
    if set.contains(v.value) {
        let rest = set.less(&alone(alloc, v))?;
        Ok(rest)
    } else {
        Ok(set)
    }
}

/// The set without the items' values.
fn without_items(items: &[(i64, u32)], set: &IntSet, alloc: Global) -> Result<IntSet, AllocError>
    ensures { IfOk result (λ s. s ≡ without_items items.now set.now) }
{
    let mut rest = set.copy()?;
    for t in items {
        rest = without_one(rest, value_of(*t), alloc)?;
    }
    Ok(rest)
}

/// What an element says of an index that has more values than items can have: that it is one of the
/// items' values. The domain of the index is all that explains it.
fn prune_index(
    subject: Subject<'_>,
    vars: (u32, u32),
    items: &[(i64, u32)],
    alloc: Global,
) -> Result<Clause, AllocError>
    requires is { subject.con.now ≡ ElementDef vars.0 vars.1 items.now }
    requires well_made { IsWellMadeCon subject.domains.now subject.con.now }
    requires boxes { AreBoxesWithin subject.domains.now subject.boxes.now }
    requires sets { All (λ d. IsValid d) subject.domains.now }
    requires domain { vars.1 < length subject.domains.now }
    requires index { vars.1 < length subject.boxes.now }
    requires more { count_possible items.now (box_of subject.boxes.now vars.1) < count_of
        (box_of subject.boxes.now vars.1) }
    ensures pruning { IfOk result (λ c. IsPruning subject.entry.con.now
        subject.entry.domains.now subject.entry.boxes.now c) }
{
    let (con, domains, boxes) = (subject.con, subject.domains, subject.boxes);
    let rest = without_items(items, &domains[vars.1 as usize], alloc)?;
    let clause = planned_pruning(con, domains, boxes, &[(vars.1, rest)], alloc)?;
    Ok(clause)
}

/// The set without the item's values, where the index can have its value.
fn without_box(
    set: IntSet,
    t: (i64, u32),
    index: &IntSet,
    boxes: &[IntSet],
) -> Result<IntSet, AllocError>
    requires { t.1 < length boxes.now }
    ensures { IfOk result (λ s. s ≡ cond (has index.now t.0) (less set (box_of boxes.now t.1))
        set) }
{
    if index.contains(t.0) {
        let rest = set.less(&boxes[t.1 as usize])?;
        Ok(rest)
    } else {
        Ok(set)
    }
}

/// The set without the values of each item whose value the index can have.
fn without_boxes(
    items: &[(i64, u32)],
    index: &IntSet,
    boxes: &[IntSet],
    set: &IntSet,
) -> Result<IntSet, AllocError>
    requires { All (λ t. t.1 < length boxes.now) items.now }
    ensures { IfOk result (λ s. s ≡ without_boxes items.now index.now boxes.now set.now) }
{
    let mut rest = set.copy()?;
    for t in items {
        rest = without_box(rest, *t, index, boxes)?;
    }
    Ok(rest)
}

/// Adds of the item what its domain has outside the set, where the index can have its value.
fn push_outside(
    plan: &mut Vec<(u32, IntSet)>,
    t: (i64, u32),
    index: &IntSet,
    domains: &[IntSet],
    set: &IntSet,
) -> Result<(), AllocError>
    requires { t.1 < length domains.now }
    ensures { OnOk result ((more : Literals) → plan.new.items ++ more
        ≡ plan.old.items ++ cond (has index.now t.0) ((t.1, less (box_of domains.now t.1) set.now) ∷ more) more) }
{
    if index.contains(t.0) {
        let outside = domains[t.1 as usize].less(set)?;
        plan.push((t.1, outside))?;
    }
    Ok(())
}

/// What the clause leaves that says that out has no value of the set.
fn plan_out(
    alloc: Global,
    vars: (u32, u32),
    items: &[(i64, u32)],
    domains: &[IntSet],
    boxes: &[IntSet],
    set: &IntSet,
) -> Result<Vec<(u32, IntSet)>, AllocError>
    requires index { vars.1 < length boxes.now }
    requires items { All (λ t. t.1 < length domains.now) items.now }
    ensures { IfOk result (λ plan. plan.items ≡ out_plan items.now domains.now boxes.now vars.0
        vars.1 set.now) }
{
    let index = &boxes[vars.1 as usize];
    let mut plan = vec![in alloc; (vars.0, set.copy()?), (vars.1, index.copy()?)]?;
    for t in items {
        push_outside(&mut plan, *t, index, domains, set)?;
    }
    Ok(plan)
}

/// What an element of different variables says of out that can be a value which no item offers:
/// that it has one of a possible item's. The index and the domains of these items explain it.
fn prune_out(
    alloc: Global,
    subject: Subject<'_>,
    vars: (u32, u32),
    items: &[(i64, u32)],
    at: Number,
) -> Result<Clause, AllocError>
    requires is { subject.con.now ≡ ElementDef vars.0 vars.1 items.now }
    requires well_made { IsWellMadeCon subject.domains.now subject.con.now }
    requires boxes { AreBoxesWithin subject.domains.now subject.boxes.now }
    requires sets { All (λ d. IsValid d) subject.domains.now }
    requires domain { vars.0 < length subject.domains.now }
    requires out { vars.0 < length subject.boxes.now }
    requires index { vars.1 < length subject.boxes.now }
    requires items { All (λ t. t.1 < length subject.boxes.now) items.now }
    requires domain_items { All (λ t. t.1 < length subject.domains.now) items.now }
    requires differ { no_repeat (vars_of subject.con.now) ≡ true }
    requires member { has (box_of subject.boxes.now vars.0) at.value ≡ true }
    requires unoffered { some_offers items.now at.value (box_of subject.boxes.now vars.1)
        subject.boxes.now ≡ false }
    ensures pruning { IfOk result (λ c. IsPruning subject.entry.con.now
        subject.entry.domains.now subject.entry.boxes.now c) }
{
    let (con, domains, boxes) = (subject.con, subject.domains, subject.boxes);
    let domain = &domains[vars.0 as usize];
    let rest = without_boxes(items, &boxes[vars.1 as usize], boxes, domain)?;
    let plan = plan_out(alloc, vars, items, domains, boxes, &rest)?;
    let clause = planned_pruning(con, domains, boxes, plan.as_slice(), alloc)?;
    Ok(clause)
}

/// Whether as many items can be picked as the index has values.
fn is_full(items: &[(i64, u32)], near: Near, index: &IntSet) -> bool
    requires near { IsNear items.now index.now near }
    ensures { IsTrue result ↔ (count_of index.now ≤ count_possible items.now index.now) }
{
    near.full || index.at_most(possible_items(items, near.from, near.to, index) as u64)
}

/// What an element of which no single item tells anything has to say.
fn prune_open(
    alloc: Global,
    repeats: &mut Repeats,
    k: u32,
    subject: Subject<'_>,
    vars: (u32, u32),
    items: &[(i64, u32)],
    near: Near,
) -> Result<Option<Clause>, AllocError>
    requires is { subject.con.now ≡ ElementDef vars.0 vars.1 items.now }
    requires well_made { IsWellMadeCon subject.domains.now subject.con.now }
    requires boxes { AreBoxesWithin subject.domains.now subject.boxes.now }
    requires sets { All (λ d. IsValid d) subject.domains.now }
    requires near { IsNear items.now (box_of subject.boxes.now vars.1) near }
    requires apart { AreApart items.now near vars.0 vars.1 (box_of subject.boxes.now vars.1) }
    requires domain { vars.1 < length subject.domains.now }
    requires domain_out { vars.0 < length subject.domains.now }
    requires domain_items { All (λ t. t.1 < length subject.domains.now) items.now }
    requires out { vars.0 < length subject.boxes.now }
    requires index { vars.1 < length subject.boxes.now }
    requires items { All (λ t. t.1 < length subject.boxes.now) items.now }
    requires met { all_meet items.now (box_of subject.boxes.now vars.0)
        (box_of subject.boxes.now vars.1) subject.boxes.now ≡ true }
    ensures answer { IfOk result (λ a. IsAnswer subject.entry.con.now
        subject.entry.domains.now subject.entry.boxes.now a) }
{
    let (con, domains, boxes) = (subject.con, subject.domains, subject.boxes);
    let index = &boxes[vars.1 as usize];
    if !is_full(items, near, index) {
        let clause = prune_index(subject, vars, items, alloc)?;
        return Ok(Some(clause));
    }
    if !are_heads_different(items, near, vars, index) {
        return probe(con, domains, boxes, alloc);
    }
    match find_further(items, near, vars, boxes) {
        Further::Idle => Ok(None),
        Further::OutOfSet(x) => {
            let clause = explain_pick(subject, vars.1, index, x, vars.0, alloc)?;
            Ok(Some(clause))
        }
        Further::Unoffered(v) => {
            let differ = repeats.has_no_repeat(k, con)?;
            if !differ {
                return probe(con, domains, boxes, alloc);
            }
            let clause = prune_out(alloc, subject, vars, items, v)?;
            Ok(Some(clause))
        }
    }
}

/// The clause that the index has no value of the set, or `var` has a value that the box of `other`
/// has, or that other is outside it.
fn explain_pick(
    subject: Subject<'_>,
    index: u32,
    values: &IntSet,
    var: u32,
    other: u32,
    alloc: Global,
) -> Result<Clause, AllocError>
    requires index { index < length subject.domains.now }
    requires var { var < length subject.domains.now }
    requires other { other < length subject.domains.now }
    requires size { length subject.boxes.now ≡ length subject.domains.now }
    requires reason { IsReason subject.con.now subject.domains.now subject.boxes.now
        (literals_of subject.domains.now
        (pick_plan subject.domains.now subject.boxes.now index values.now var other)) }
    ensures pruning { IfOk result (λ c. IsPruning subject.entry.con.now
        subject.entry.domains.now subject.entry.boxes.now c) }
{
    let (con, domains, boxes) = (subject.con, subject.domains, subject.boxes);
    let outside = domains[var as usize].less(&boxes[other as usize])?;
    let mut literals = Vec::new(alloc);
    keep_out(&mut literals, index, &domains[index as usize], values)?;
    keep_out(&mut literals, var, &domains[var as usize], &outside)?;
    keep_out(
        &mut literals,
        other,
        &domains[other as usize],
        &boxes[other as usize],
    )?;
    Ok(pruning(con, domains, boxes, literals))
}

/// The item's value.
fn value_of(t: (i64, u32)) -> Number
    ensures { result.value ≡ t.0 }
{
    Number { value: t.0 }
}

/// The item's value alone.
fn item_alone(t: (i64, u32), alloc: Global) -> IntSet
    ensures { result ≡ (t.0, t.0) ∷ [] }
{
    alone(alloc, value_of(t))
}

/// Whether three variables are different.
fn are_different(x: u32, y: u32, z: u32) -> bool
    ensures first { result ≡ true → y ≡ x → ⊥ }
    ensures second { result ≡ true → z ≡ x → ⊥ }
    ensures third { result ≡ true → z ≡ y → ⊥ }
{
    x != y && x != z && y != z
}

/// What an element has to say in the boxes: of out, the index and the items.
///
/// # Errors
/// Want of memory.
pub fn prune_element(
    alloc: Global,
    repeats: &mut Repeats,
    k: u32,
    subject: Subject<'_>,
    vars: (u32, u32),
    items: &[(i64, u32)],
) -> Result<Option<Clause>, AllocError>
    requires is { subject.con.now ≡ ElementDef vars.0 vars.1 items.now }
    requires well_made { IsWellMadeCon subject.domains.now subject.con.now }
    requires boxes { AreBoxesWithin subject.domains.now subject.boxes.now }
    requires sets { All (λ d. IsValid d) subject.domains.now }
    requires out { vars.0 < length subject.domains.now }
    requires index { vars.1 < length subject.domains.now }
    requires items { All (λ t. t.1 < length subject.domains.now) items.now }
    ensures answer { IfOk result (λ a. IsAnswer subject.entry.con.now
        subject.entry.domains.now subject.entry.boxes.now a) }
{
    let (con, domains, boxes) = (subject.con, subject.domains, subject.boxes);
    let (out, index) = vars;
    let index_box = &boxes[index as usize];
    match find(items, vars, &boxes[out as usize], index_box, boxes) {
        Finding::Open(near) => prune_open(alloc, repeats, k, subject, vars, items, near),
        Finding::Item(i) => {
            let t = items[i];
            if !are_different(index, t.1, out) {
                return probe(con, domains, boxes, alloc);
            }
            let at = item_alone(t, alloc);
            let clause = explain_pick(subject, index, &at, t.1, out, alloc)?;
            Ok(Some(clause))
        }
        Finding::Out(i) => {
            let t = items[i];
            if !are_different(index, t.1, out) {
                return probe(con, domains, boxes, alloc);
            }
            let value = item_alone(t, alloc);
            let clause = explain_pick(subject, index, &value, out, t.1, alloc)?;
            Ok(Some(clause))
        }
    }
}
