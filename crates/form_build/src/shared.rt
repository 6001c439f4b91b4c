//! Flags that are defined once.
//!
//! Where a definition may stand is a hint that nobody trusts: it is compared with what stands
//! there.
ghost use Rattle.std.specs.Prelude.{◌≡◌, ◌↔◌, ◌<◌, ◌≤◌, true, int_le, length, IfOk, OnErr, IfSome, IsTrue};
ghost use Rattle.std.specs.List.{All};
ghost use Rattle.std.specs.Ordering.{int_eq};
ghost use Rattle.signed_clause.specs.Ranges.{has};
ghost use Rattle.ground_form.specs.declared.con.Con.TheVariants.{ReifLe, AndDef, MemberDef, EqDef};
ghost use Rattle.ground_form.specs.Meaning.{value_of, sum_at, parts_true};
ghost use Rattle.ground_form.specs.Bounds.{weight_of, most_sum};
ghost use Rattle.ground_build.specs.Growing.{HasRoom, IsFlag};
ghost use Rattle.form_build.specs.Worlds.{HasDefinition, Defines, IsFew, IsFlagOf, AreSome};

use ground_build::Builder;
use ground_form::{Con, Parts, Terms};
use signed_clause::IntSet;
use std::alloc::AllocError;

/// The flag that constraint `hint` defines as the membership, if it does.
fn found_member(b: &Builder, hint: usize, x: u32, set: &IntSet) -> Option<u32>
    ensures { IfSome result (λ f. HasDefinition b.now f (MemberDef f x set.now)) }
{
    let search = b.search();
    let _domains = b.domains();
    match b.cons().get(hint)? {
        Con::MemberDef {
            flag,
            var,
            set: there,
        } => {
            if *var == x && *flag >= search && there.same(set) {
                Some(*flag)
            } else {
                None
            }
        }
        _ => None,
    }
}

/// A flag that says whether the value of `x` is in the set: the one that stands at the hint, or a
/// new one.
pub(crate) fn member(b: &mut Builder, hint: usize, x: u32, set: IntSet) -> Result<u32, AllocError>
    requires room { HasRoom b.old }
    requires variable { x < length b.old.domains }
    ensures flag { IfOk result (λ f. IsFlagOf b.new f (λ a. has set (value_of a x))) }
    ensures adds { IfOk result (λ f. Defines b.old b.new) }
    ensures few { IfOk result (λ f. IsFew 1 b.old b.new) }
    ensures some { AreSome b.old.domains → AreSome b.new.domains }
{
    let _domains = b.domains();
    if let Some(f) = found_member(b, hint, x, &set) {
        return Ok(f);
    }
    let f = b.member(x, set)?;
    Ok(f)
}

/// Whether these are the terms.
pub(crate) fn are_terms(there: &Terms, terms: &[(i64, u32)]) -> bool
    ensures { IsTrue result ↔ (there.now ≡ terms.now) }
{
    there.items() == terms
}

/// Whether these are the parts.
fn are_parts(there: &Parts, parts: &[(u32, bool)]) -> bool
    ensures { IsTrue result ↔ (there.now ≡ parts.now) }
{
    there.items() == parts
}

/// Whether these are the terms and the bound.
fn is_row(there: &Terms, limit: i64, terms: &[(i64, u32)], bound: i64) -> bool
    ensures terms { result ≡ true → there.now ≡ terms.now }
    ensures bound { result ≡ true → limit ≡ bound }
{
    limit == bound && are_terms(there, terms)
}

/// The flag that constraint `hint` defines as the comparison, if it does.
fn found_at_most(b: &Builder, hint: usize, terms: &[(i64, u32)], bound: i64) -> Option<u32>
    ensures { IfSome result (λ f. HasDefinition b.now f (ReifLe f terms.now bound)) }
{
    let search = b.search();
    let _domains = b.domains();
    match b.cons().get(hint)? {
        Con::ReifLe {
            flag,
            terms: there,
            bound: limit,
        } => {
            if is_row(there, *limit, terms, bound) && *flag >= search {
                Some(*flag)
            } else {
                None
            }
        }
        _ => None,
    }
}

/// A flag that says whether the terms add up to at most the bound: the one that stands at the
/// hint, or a new one.
pub(crate) fn at_most(
    b: &mut Builder,
    hint: usize,
    terms: &[(i64, u32)],
    bound: i64,
) -> Result<u32, AllocError>
    requires room { HasRoom b.old }
    requires variables { All (λ t. t.1 < length b.old.domains) terms.now }
    requires bounded { weight_of terms.now b.old.domains ≤ most_sum }
    ensures flag { IfOk result (λ f. IsFlagOf b.new f (λ a. int_le (sum_at terms.now a) bound)) }
    ensures adds { IfOk result (λ f. Defines b.old b.new) }
    ensures few { IfOk result (λ f. IsFew 1 b.old b.new) }
    ensures some { AreSome b.old.domains → AreSome b.new.domains }
{
    let _domains = b.domains();
    if let Some(f) = found_at_most(b, hint, terms, bound) {
        return Ok(f);
    }
    let f = b.at_most(terms, bound)?;
    Ok(f)
}

/// The flag that constraint `hint` defines as the equality, if it does.
fn found_same(b: &Builder, hint: usize, l: u32, r: u32) -> Option<u32>
    ensures { IfSome result (λ f. HasDefinition b.now f (EqDef f l r)) }
{
    let search = b.search();
    let _domains = b.domains();
    match b.cons().get(hint)? {
        Con::EqDef { flag, left, right } => {
            if *left == l && *right == r && *flag >= search {
                Some(*flag)
            } else {
                None
            }
        }
        _ => None,
    }
}

/// A flag that says whether two variables have the same value: the one that stands at the hint, or
/// a new one.
pub(crate) fn same(b: &mut Builder, hint: usize, l: u32, r: u32) -> Result<u32, AllocError>
    requires room { HasRoom b.old }
    requires left { l < length b.old.domains }
    requires right { r < length b.old.domains }
    ensures flag { IfOk result (λ f. IsFlagOf b.new f
        (λ a. int_eq (value_of a l) (value_of a r))) }
    ensures adds { IfOk result (λ f. Defines b.old b.new) }
    ensures few { IfOk result (λ f. IsFew 1 b.old b.new) }
    ensures some { AreSome b.old.domains → AreSome b.new.domains }
{
    let _domains = b.domains();
    if let Some(f) = found_same(b, hint, l, r) {
        return Ok(f);
    }
    let f = b.same(l, r)?;
    Ok(f)
}

/// The flag that constraint `hint` defines as the conjunction, if it does.
fn found_all_of(b: &Builder, hint: usize, parts: &[(u32, bool)]) -> Option<u32>
    ensures { IfSome result (λ f. HasDefinition b.now f (AndDef f parts.now)) }
{
    let search = b.search();
    let _domains = b.domains();
    match b.cons().get(hint)? {
        Con::AndDef { flag, parts: there } => {
            if *flag >= search && are_parts(there, parts) {
                Some(*flag)
            } else {
                None
            }
        }
        _ => None,
    }
}

/// A flag that says whether each part has the truth that it wants: the one that stands at the
/// hint, or a new one.
pub(crate) fn all_of(b: &mut Builder, hint: usize, parts: &[(u32, bool)]) -> Result<u32, AllocError>
    requires room { HasRoom b.old }
    requires variables { All (λ p. p.0 < length b.old.domains) parts.now }
    requires flags { All (λ p. IsFlag b.old p.0) parts.now }
    ensures flag { IfOk result (λ f. IsFlagOf b.new f (λ a. parts_true parts.now a)) }
    ensures adds { IfOk result (λ f. Defines b.old b.new) }
    ensures few { IfOk result (λ f. IsFew 1 b.old b.new) }
    ensures some { AreSome b.old.domains → AreSome b.new.domains }
{
    let _domains = b.domains();
    if let Some(f) = found_all_of(b, hint, parts) {
        return Ok(f);
    }
    let f = b.all_of(parts)?;
    Ok(f)
}
