//! The problems that logs are about, by name.
ghost use Rattle.std.specs.Prelude.{IfOk, IfSome};
ghost use Rattle.ground_form.specs.WellMade.{IsWellMade};

use ground_form::{Con, Cons, Domains, Goals, Ground, GroundGoal, Terms};
use signed_clause::IntSet;
use std::alloc::{AllocError, Global};
use test_well_made::is_search_well_made;

/// One variable of 1..3 that is to be at least 2, and as small as can be.
fn at_least_two(alloc: Global) -> Result<Ground, AllocError>
    ensures { IfOk result (λ g. IsWellMade g) }
{
    let domains = Domains::of(vec![in alloc; IntSet::range(alloc, 1, 3)]?);
    let terms = Terms::of(vec![in alloc; (-1i64, 0u32)]?);
    let cons = Cons::of(vec![in alloc; Con::LinLe { terms, bound: -2 }]?);
    let goals = Goals::of(vec![in alloc; GroundGoal { var: 0, max: false }]?);
    Ok(Ground {
        domains,
        search: 1,
        cons,
        goals,
    })
}

/// Two variables of 0..1, the first to be as great as can be, and then the second.
fn two_goals(alloc: Global) -> Result<Ground, AllocError>
    ensures { IfOk result (λ g. IsWellMade g) }
{
    let first = IntSet::range(alloc, 0, 1);
    let second = IntSet::range(alloc, 0, 1);
    let domains = Domains::of(vec![in alloc; first, second]?);
    let cons = Cons::of(Vec::new(alloc));
    let goals = Goals::of(vec![in alloc;
        GroundGoal { var: 0, max: true },
        GroundGoal { var: 1, max: true },
    ]?);
    Ok(Ground {
        domains,
        search: 2,
        cons,
        goals,
    })
}

/// One variable that has no value.
fn no_value(alloc: Global) -> Result<Ground, AllocError>
    ensures { IfOk result (λ g. IsWellMade g) }
{
    let domains = Domains::of(vec![in alloc; IntSet::empty(alloc)]?);
    Ok(Ground {
        domains,
        search: 1,
        cons: Cons::of(Vec::new(alloc)),
        goals: Goals::of(Vec::new(alloc)),
    })
}

/// Three variables of 0..1: at most one of them is 1, and at least one is.
fn one_of_three(alloc: Global) -> Result<Ground, AllocError> {
    let mut domains = Vec::new(alloc);
    for _ in 0..3u32 {
        domains.push(IntSet::range(alloc, 0, 1))?;
    }
    let sum = Terms::of(vec![in alloc; (1i64, 0u32), (1, 1), (1, 2)]?);
    let less = Terms::of(vec![in alloc; (-1i64, 0u32), (-1, 1), (-1, 2)]?);
    let most = Con::LinLe {
        terms: sum,
        bound: 1,
    };
    let least = Con::LinLe {
        terms: less,
        bound: -1,
    };
    Ok(Ground {
        domains: Domains::of(domains),
        search: 3,
        cons: Cons::of(vec![in alloc; most, least]?),
        goals: Goals::of(Vec::new(alloc)),
    })
}

/// The problem of three variables, where it is found to be well made.
fn checked_three(alloc: Global) -> Result<Option<Ground>, AllocError>
    ensures { IfOk result (λ found. IfSome found (λ g. IsWellMade g)) }
{
    let g = one_of_three(alloc)?;
    if is_search_well_made(&g, alloc)? {
        Ok(Some(g))
    } else {
        Ok(None)
    }
}

/// The problem of a name.
pub(crate) fn problem(alloc: Global, name: &str) -> Result<Option<Ground>, AllocError>
    ensures { IfOk result (λ found. IfSome found (λ g. IsWellMade g)) }
{
    match name {
        "at-least-two" => Ok(Some(at_least_two(alloc)?)),
        "two-goals" => Ok(Some(two_goals(alloc)?)),
        "no-value" => Ok(Some(no_value(alloc)?)),
        _ => checked_three(alloc),
    }
}
