//! The constraints that a builder adds, each made of what its call was handed.
ghost use Rattle.std.specs.Prelude.{◌≡◌, IfOk};
ghost use Rattle.signed_clause.specs.Ranges.{IsValid};
ghost use Rattle.signed_clause.specs.Clauses.{IsClause};
ghost use Rattle.ground_form.specs.declared.con.Con.TheVariants.{LinLe, LinDef, ReifLe, AndDef, MemberDef, EqDef, ElementDef, CondDef, ClauseCon, AllDiff, Pack};

use ground_form::{Con, PackItems, Parts, Terms, VarList};
use signed_clause::{Clause, IntSet};
use std::alloc::{AllocError, Global};

/// The definition of a sum.
pub fn linear_con(
    alloc: Global,
    out: u32,
    terms: &[(i64, u32)],
    offset: i64,
) -> Result<Con, AllocError>
    ensures { IfOk result (λ con. con ≡ LinDef out terms.now offset) }
{
    let terms = Terms::of(terms.to_vec(alloc)?);
    Ok(Con::LinDef { out, terms, offset })
}

/// The definition of a flag for a bound on a sum.
pub fn at_most_con(
    alloc: Global,
    flag: u32,
    terms: &[(i64, u32)],
    bound: i64,
) -> Result<Con, AllocError>
    ensures { IfOk result (λ con. con ≡ ReifLe flag terms.now bound) }
{
    let terms = Terms::of(terms.to_vec(alloc)?);
    Ok(Con::ReifLe { flag, terms, bound })
}

/// The definition of a conjunction.
pub fn all_of_con(alloc: Global, flag: u32, parts: &[(u32, bool)]) -> Result<Con, AllocError>
    ensures { IfOk result (λ con. con ≡ AndDef flag parts.now) }
{
    let parts = Parts::of(parts.to_vec(alloc)?);
    Ok(Con::AndDef { flag, parts })
}

/// The definition of a membership. The set is valid, as each is.
pub fn member_con(flag: u32, var: u32, set: IntSet) -> Con
    ensures value { result ≡ MemberDef flag var set }
    ensures valid { IsValid set }
{
    let _ranges = set.ranges();
    Con::MemberDef { flag, var, set }
}

/// The definition of an equality.
pub fn same_con(flag: u32, left: u32, right: u32) -> Con
    ensures { result ≡ EqDef flag left right }
{
    Con::EqDef { flag, left, right }
}

/// The definition of a choice by an index.
pub fn pick_con(
    alloc: Global,
    out: u32,
    index: u32,
    items: &[(i64, u32)],
) -> Result<Con, AllocError>
    ensures { IfOk result (λ con. con ≡ ElementDef out index items.now) }
{
    let items = Terms::of(items.to_vec(alloc)?);
    Ok(Con::ElementDef { out, index, items })
}

/// The definition of an item or 0.
pub fn when_con(out: u32, flag: u32, item: u32) -> Con
    ensures { result ≡ CondDef out flag item }
{
    Con::CondDef { out, flag, item }
}

/// A bound on a sum.
pub fn bound_con(alloc: Global, terms: &[(i64, u32)], bound: i64) -> Result<Con, AllocError>
    ensures { IfOk result (λ con. con ≡ LinLe terms.now bound) }
{
    let terms = Terms::of(terms.to_vec(alloc)?);
    Ok(Con::LinLe { terms, bound })
}

/// Different values.
pub fn different_con(alloc: Global, vars: &[u32]) -> Result<Con, AllocError>
    ensures { IfOk result (λ con. con ≡ AllDiff vars.now) }
{
    let vars = VarList::of(vars.to_vec(alloc)?);
    Ok(Con::AllDiff { vars })
}

/// Sizes that fit their rooms.
pub fn pack_con(alloc: Global, items: &[(u32, u32, u32)]) -> Result<Con, AllocError>
    ensures { IfOk result (λ con. con ≡ Pack items.now) }
{
    let items = PackItems::of(items.to_vec(alloc)?);
    Ok(Con::Pack { items })
}
