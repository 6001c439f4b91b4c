//! Values that are defined once: sums, picks and what depends on a flag.
//!
//! Where a definition may stand is a hint that nobody trusts: it is compared with what stands
//! there, and its box with the one that a new variable would have.
ghost use Rattle.std.specs.Prelude.{◌≡◌, ◌↔◌, ◌<◌, ◌≤◌, ◌+◌, [], true, length, unsigned_abs, IfOk, IfSome, IsTrue};
ghost use Rattle.std.specs.List.{All};
ghost use Rattle.signed_clause.specs.Ranges.{IsValid};
ghost use Rattle.signed_clause.specs.SetAlgebra.{join};
ghost use Rattle.signed_clause.specs.Clauses.{box_of};
ghost use Rattle.ground_form.specs.declared.con.Con.TheVariants.{LinDef, ElementDef, CondDef};
ghost use Rattle.ground_form.specs.Bounds.{low_of, high_of, most_sum};
ghost use Rattle.ground_form.specs.WellMade.{distinct_values};
ghost use Rattle.ground_build.specs.Growing.{HasRoom, IsFlag, HoldsDomain};
ghost use Rattle.ground_build.specs.NewDomains.{picked_domain, when_domain};
ghost use Rattle.form_build.specs.Worlds.{HasDefinition, Defines, IsFew, AreSome, IsVariableOf, IsPickOf, IsItemWhere};
ghost use Rattle.form_build.specs.Forms.{linear_at};
ghost use Rattle.form_build.specs.Sums.{least_linear, greatest_linear, IsLinear};

use crate::form::Linear;
use crate::settle::ends_at;
use crate::shared::are_terms;
use ground_build::Builder;
use ground_form::{Con, Number, Terms, greatest_sum, least_sum};
use signed_clause::IntSet;
use std::alloc::{AllocError, Global};

/// Whether these are the terms and the offset of the sum.
fn is_sum(terms: &Terms, offset: i64, f: &Linear) -> bool
    ensures terms { result ≡ true → terms.now ≡ f.now.terms }
    ensures offset { result ≡ true → offset ≡ f.now.offset }
{
    offset == f.offset && terms.same(&f.terms)
}

/// The ends that a variable has which is the sum.
fn ends_of_sum(boxes: &[IntSet], f: &Linear) -> (i64, i64)
    requires { IsLinear most_sum boxes.now f.now }
    ensures { result ≡ (least_linear f.now boxes.now, greatest_linear f.now boxes.now) }
{
    let offset = Number { value: f.offset };
    let least = least_sum(f.terms.items(), boxes).plus(offset);
    let greatest = greatest_sum(f.terms.items(), boxes).plus(offset);
    (least.value, greatest.value)
}

/// Whether the box of the variable has the ends of the sum.
fn has_ends(boxes: &[IntSet], x: u32, f: &Linear) -> bool
    requires exists { x < length boxes.now }
    requires linear { IsLinear most_sum boxes.now f.now }
    ensures low { result ≡ true → low_of (box_of boxes.now x) ≡ least_linear f.now boxes.now }
    ensures high { result ≡ true → high_of (box_of boxes.now x) ≡ greatest_linear f.now boxes.now }
{
    ends_at(boxes, x) == ends_of_sum(boxes, f)
}

/// The variable that constraint `hint` defines as the sum, if it does.
fn found_linear(b: &Builder, hint: usize, f: &Linear) -> Option<u32>
    ensures { IfSome result (λ x. HasDefinition b.now x (LinDef x f.now.terms f.now.offset)) }
{
    let search = b.search();
    let _domains = b.domains();
    match b.cons().get(hint)? {
        Con::LinDef { out, terms, offset } => {
            if is_sum(terms, *offset, f) && *out >= search {
                Some(*out)
            } else {
                None
            }
        }
        _ => None,
    }
}

/// A variable that is the sum, its box between the sum's ends: the one that stands at the hint, or
/// a new one.
pub(crate) fn linear(b: &mut Builder, hint: usize, f: &Linear) -> Result<u32, AllocError>
    requires room { HasRoom b.old }
    requires linear { IsLinear most_sum b.old.domains f.now }
    ensures variable { IfOk result (λ x. IsVariableOf b.new x (least_linear f.now b.old.domains)
        (greatest_linear f.now b.old.domains) (λ a. linear_at f.now a)) }
    ensures adds { IfOk result (λ x. Defines b.old b.new) }
    ensures few { IfOk result (λ x. IsFew 1 b.old b.new) }
    ensures some { AreSome b.old.domains → AreSome b.new.domains }
{
    let domains = b.domains();
    if let Some(x) = found_linear(b, hint, f) {
        if has_ends(domains, x, f) {
            return Ok(x);
        }
    }
    let x = b.linear(f.terms.items(), f.offset)?;
    Ok(x)
}

/// The boxes of the items' variables, joined.
fn joined_boxes(alloc: Global, boxes: &[IntSet], items: &[(i64, u32)]) -> Result<IntSet, AllocError>
    requires { All (λ t. t.1 < length boxes.now) items.now }
    ensures { IfOk result (λ s. s ≡ picked_domain [] items.now boxes.now) }
{
    let mut made = IntSet::empty(alloc);
    for t in items {
        made = joined(&made, boxes, t.1)?;
    }
    Ok(made)
}

/// The set with a variable's box.
fn joined(made: &IntSet, boxes: &[IntSet], x: u32) -> Result<IntSet, AllocError>
    requires { x < length boxes.now }
    ensures { IfOk result (λ s. s ≡ join made.now (box_of boxes.now x)) }
{
    made.join(&boxes[x as usize])
}

/// Whether the box of the variable is this set.
fn has_box(boxes: &[IntSet], x: u32, set: &IntSet) -> bool
    requires { x < length boxes.now }
    ensures { result ≡ true → box_of boxes.now x ≡ set.now }
{
    boxes[x as usize].same(set)
}

/// The variable that constraint `hint` defines as the pick, if it does.
fn found_pick(b: &Builder, hint: usize, index: u32, items: &[(i64, u32)]) -> Option<u32>
    ensures { IfSome result (λ x. HasDefinition b.now x (ElementDef x index items.now)) }
{
    let search = b.search();
    let _domains = b.domains();
    match b.cons().get(hint)? {
        Con::ElementDef {
            out,
            index: at,
            items: there,
        } => {
            if *at == index && *out >= search && are_terms(there, items) {
                Some(*out)
            } else {
                None
            }
        }
        _ => None,
    }
}

/// The variable of the item whose value the index has, its box the items' boxes joined: the one
/// that stands at the hint, or a new one.
pub(crate) fn pick(
    b: &mut Builder,
    alloc: Global,
    hint: usize,
    index: u32,
    items: &[(i64, u32)],
) -> Result<u32, AllocError>
    requires room { HasRoom b.old }
    requires index { index < length b.old.domains }
    requires variables { All (λ t. t.1 < length b.old.domains) items.now }
    requires distinct { distinct_values items.now ≡ true }
    requires held { HoldsDomain b.old index items.now }
    ensures variable { IfOk result (λ x. IsPickOf b.new x
        (picked_domain [] items.now b.old.domains) index items.now) }
    ensures adds { IfOk result (λ x. Defines b.old b.new) }
    ensures few { IfOk result (λ x. IsFew 1 b.old b.new) }
    ensures some { AreSome b.old.domains → AreSome b.new.domains }
{
    let domains = b.domains();
    if let Some(x) = found_pick(b, hint, index, items) {
        let set = joined_boxes(alloc, domains, items)?;
        if has_box(domains, x, &set) {
            return Ok(x);
        }
    }
    let x = b.pick(index, items)?;
    Ok(x)
}

/// The variable that constraint `hint` defines as the item where the flag is 1, if it does.
fn found_when(b: &Builder, hint: usize, flag: u32, item: u32) -> Option<u32>
    ensures { IfSome result (λ x. HasDefinition b.now x (CondDef x flag item)) }
{
    let search = b.search();
    let _domains = b.domains();
    match b.cons().get(hint)? {
        Con::CondDef {
            out,
            flag: at,
            item: there,
        } => {
            if *at == flag && *there == item && *out >= search {
                Some(*out)
            } else {
                None
            }
        }
        _ => None,
    }
}

/// A variable's box and 0.
fn box_and_nought(alloc: Global, boxes: &[IntSet], item: u32) -> Result<IntSet, AllocError>
    requires { item < length boxes.now }
    ensures { IfOk result (λ s. s ≡ when_domain item boxes.now) }
{
    boxes[item as usize].join(&IntSet::range(alloc, 0, 0))
}

/// A variable that is the item where the flag is 1, and 0 where it is 0, its box the item's box and
/// 0: the one that stands at the hint, or a new one.
pub(crate) fn when(
    b: &mut Builder,
    alloc: Global,
    hint: usize,
    flag: u32,
    item: u32,
) -> Result<u32, AllocError>
    requires room { HasRoom b.old }
    requires flag { flag < length b.old.domains }
    requires item { item < length b.old.domains }
    requires truths { IsFlag b.old flag }
    ensures variable { IfOk result (λ x. IsItemWhere b.new x
        (when_domain item b.old.domains) flag item) }
    ensures adds { IfOk result (λ x. Defines b.old b.new) }
    ensures few { IfOk result (λ x. IsFew 1 b.old b.new) }
    ensures some { AreSome b.old.domains → AreSome b.new.domains }
{
    let domains = b.domains();
    if let Some(x) = found_when(b, hint, flag, item) {
        let set = box_and_nought(alloc, domains, item)?;
        if has_box(domains, x, &set) {
            return Ok(x);
        }
    }
    let x = b.when(flag, item)?;
    Ok(x)
}
