//! The clauses of a Bound line.
//!
//! Behind a solution the line makes one clause for each goal. The clause of a goal says that some
//! earlier goal is better than there, or that this one is as good; that of the last says that some
//! earlier goal is better, or this one is. `earlier` is kept as a clause while the goals are
//! walked, and each clause is it with one more literal.
ghost use Rattle.std.specs.Prelude.{◌≡◌, ◌<◌, ◌≤◌, ◌+◌, ◌++◌, [], ◌∷◌, IfOk, OnOk, OnErr, false, drop, length};
ghost use Rattle.std.specs.List.{All};
ghost use Rattle.signed_clause.specs.Ranges.{is_nil, IsValid};
ghost use Rattle.signed_clause.specs.Clauses.{box_of, IsClause};
ghost use Rattle.ground_form.specs.Meaning.{value_of};
ghost use Rattle.log_form.specs.Acceptance as acceptance;
ghost use Rattle.log_form.specs.Literals.{joined_with};
ghost use Rattle.log_form.specs.Parts.{clause_parts};

use ground_form::{GroundGoal, Number};
use signed_clause::{Clause, ClauseHandle, IntSet, push_copy, push_rest};
use std::alloc::{AllocError, Global};

/// How many literals and ranges the clauses of a line may have: they stand in memory at once, and
/// many goals make many long ones.
const MOST_PARTS: usize = 1 << 25;

/// What is left of so many parts behind the literals of a clause and their ranges.
fn behind(parts: usize, c: &Clause) -> Result<usize, AllocError>
    ensures left { IfOk result (λ left. left + clause_parts c.now ≡ parts) }
    ensures refused { OnErr result (parts ≤ clause_parts c.now) }
{
    let mut left = parts;
    for l in c.literals() {
        left = left.saturating_sub(1).saturating_sub(l.1.ranges().len());
    }
    if left == 0 { Err(AllocError) } else { Ok(left) }
}

/// The clause that says what `c` says, or that the value of `x` is in the set.
#[tactic(auto, using(crate::proofs::BoundSteps::with_nothing))]
fn with_literal(alloc: Global, x: u32, set: IntSet, c: &Clause) -> Result<Clause, AllocError>
    ensures list { IfOk result (λ d. d ≡ acceptance.with_literal x set c.now) }
    ensures form { IfOk result (λ d. IsClause d) }
{
    if has_no_value(&set) {
        return c.copy();
    }
    let literals = literals_with(alloc, x, &set, c.literals())?;
    match Clause::of(literals) {
        Ok(clause) => Ok(clause),
        Err(_) => unreachable!(),
    }
}

/// Whether the set is empty.
fn has_no_value(set: &IntSet) -> bool
    ensures empty { result ≡ is_nil set.now }
    ensures valid { IsValid set.now }
{
    set.ranges().is_empty()
}

/// The literals, with one more or a greater one.
fn literals_with(
    alloc: Global,
    x: u32,
    set: &IntSet,
    literals: &[(u32, IntSet)],
) -> Result<Vec<(u32, IntSet)>, AllocError>
    requires { is_nil set.now ≡ false }
    ensures { IfOk result (λ ls. ls.items ≡ acceptance.with_literal x set.now literals.now) }
{
    let mut out = Vec::new(alloc);
    let mut k = 0;
    while k < literals.len() && literals[k].0 < x {
        push_copy(&mut out, &literals[k])?;
        k += 1;
    }
    let k = push_joined(&mut out, x, set, literals, k)?;
    push_rest(&mut out, literals, k)?;
    Ok(out)
}

/// Adds the literal of `x`, joined with the one at a place where that is of `x` too, and answers
/// the place behind it.
fn push_joined(
    out: &mut Vec<(u32, IntSet)>,
    x: u32,
    set: &IntSet,
    literals: &[(u32, IntSet)],
    k: usize,
) -> Result<usize, AllocError>
    ensures { IfOk result (λ next. out.new.items ++ drop next literals.now ≡ out.old.items
        ++ joined_with x set.now (drop k literals.now)) }
{
    if k < literals.len() && literals[k].0 == x {
        out.push((x, literals[k].1.join(set)?))?;
        Ok(k + 1)
    } else {
        out.push((x, set.copy()?))?;
        Ok(k)
    }
}

/// The values that are better than `v` in the direction.
fn better_than(alloc: Global, max: bool, v: Number) -> IntSet
    ensures { result ≡ acceptance.better_than max v.value }
{
    if max {
        if v.value == i64::MAX {
            return IntSet::empty(alloc);
        }
        IntSet::range(alloc, v.value + 1, i64::MAX)
    } else {
        if v.value == i64::MIN {
            return IntSet::empty(alloc);
        }
        IntSet::range(alloc, i64::MIN, v.value - 1)
    }
}

/// The values that are as good as `v` in the direction, or better.
fn as_good_as(alloc: Global, max: bool, v: Number) -> IntSet
    ensures { result ≡ acceptance.as_good_as max v.value }
{
    if max {
        IntSet::range(alloc, v.value, i64::MAX)
    } else {
        IntSet::range(alloc, i64::MIN, v.value)
    }
}

/// The clauses of a Bound line behind the solution `values`: one for each goal, and the empty one
/// where there is no goal. It costs a walk over the goals, and for each clause its literals.
///
/// # Errors
/// Want of memory, also where the clauses would have more than `MOST_PARTS` literals and ranges.
pub fn bounds_of(
    alloc: Global,
    domains: &[IntSet],
    goals: &[GroundGoal],
    values: &[i64],
) -> Result<Vec<ClauseHandle>, AllocError>
    requires domains { All (λ goal. goal.var < length domains.now) goals.now }
    requires values { All (λ goal. goal.var < length values.now) goals.now }
    ensures { IfOk result (λ cs. cs.items
        ≡ acceptance.bounds_of goals.now domains.now values.now) }
{
    let mut out = Vec::new(alloc);
    let mut earlier = empty_clause(alloc);
    if goals.is_empty() {
        push_own(alloc, &mut out, earlier)?;
        return Ok(out);
    }
    let mut parts = MOST_PARTS;
    for (k, goal) in goals.iter().enumerate() {
        let better = or_better(alloc, domains, *goal, values, &earlier)?;
        if k + 1 == goals.len() {
            push_own(alloc, &mut out, better)?;
            return Ok(out);
        }
        let as_good = or_as_good(alloc, domains, *goal, values, &earlier)?;
        parts = behind(parts, &as_good)?;
        push_own(alloc, &mut out, as_good)?;
        earlier = better;
    }
    Ok(out)
}

/// The clause that says what the one of earlier goals says, or that this goal is better.
fn or_better(
    alloc: Global,
    domains: &[IntSet],
    goal: GroundGoal,
    values: &[i64],
    earlier: &Clause,
) -> Result<Clause, AllocError>
    requires domain { goal.var < length domains.now }
    requires value { goal.var < length values.now }
    ensures { IfOk result (λ c. c ≡ acceptance.with_literal goal.var
        (acceptance.better_values domains.now values.now goal) earlier.now) }
{
    let better = better_values(alloc, domains, goal, values)?;
    let clause = with_literal(alloc, goal.var, better, earlier)?;
    Ok(clause)
}

/// The clause that says what the one of earlier goals says, or that this goal is as good.
fn or_as_good(
    alloc: Global,
    domains: &[IntSet],
    goal: GroundGoal,
    values: &[i64],
    earlier: &Clause,
) -> Result<Clause, AllocError>
    requires domain { goal.var < length domains.now }
    requires value { goal.var < length values.now }
    ensures { IfOk result (λ c. c ≡ acceptance.with_literal goal.var
        (acceptance.as_good_values domains.now values.now goal) earlier.now) }
{
    let as_good = as_good_values(alloc, domains, goal, values)?;
    let clause = with_literal(alloc, goal.var, as_good, earlier)?;
    Ok(clause)
}

/// Adds a clause, with a first owner.
fn push_own(alloc: Global, out: &mut Vec<ClauseHandle>, clause: Clause) -> Result<(), AllocError>
    ensures { OnOk result (out.new.items ≡ out.old.items ++ clause ∷ []) }
{
    match ClauseHandle::of(alloc, clause) {
        Ok(handle) => {
            out.push(handle)?;
            Ok(())
        }
        Err(_) => Err(AllocError),
    }
}

/// The values of the goal's domain that are better than its value.
fn better_values(
    alloc: Global,
    domains: &[IntSet],
    goal: GroundGoal,
    values: &[i64],
) -> Result<IntSet, AllocError>
    requires domain { goal.var < length domains.now }
    requires value { goal.var < length values.now }
    ensures { IfOk result (λ s. s ≡ acceptance.better_values domains.now values.now goal) }
{
    let x = goal.var as usize;
    let value = Number { value: values[x] };
    domains[x].meet(&better_than(alloc, goal.max, value))
}

/// The values of the goal's domain that are as good as its value, or better.
fn as_good_values(
    alloc: Global,
    domains: &[IntSet],
    goal: GroundGoal,
    values: &[i64],
) -> Result<IntSet, AllocError>
    requires domain { goal.var < length domains.now }
    requires value { goal.var < length values.now }
    ensures { IfOk result (λ s. s ≡ acceptance.as_good_values domains.now values.now goal) }
{
    let x = goal.var as usize;
    let value = Number { value: values[x] };
    domains[x].meet(&as_good_as(alloc, goal.max, value))
}

/// The empty clause.
pub fn empty_clause(alloc: Global) -> Clause
    ensures list { result ≡ [] }
    ensures form { IsClause result }
{
    match Clause::of(Vec::new(alloc)) {
        Ok(clause) => clause,
        Err(_) => unreachable!(),
    }
}
