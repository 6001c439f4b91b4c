//! What random problems are to have, some of them.
use ground_form::{Con, Ground, Kind, kind_of};
use std::alloc::{AllocError, Global};
use test_small_problems::problem;

/// Something that a problem may have.
#[derive(Clone, Copy, Debug)]
pub(crate) enum Feature {
    /// A constraint of the kind.
    OfKind(Kind),
    /// A domain without values.
    EmptyDomain,
    /// A variable that stands twice in a constraint.
    Repeat,
    /// A coefficient below 0.
    NegativeCoefficient,
    /// Several goals.
    SeveralGoals,
    /// A variable that isn't searched.
    Defined,
}

/// Whether a variable stands at a place and at one before it.
fn repeats(con: &Con) -> bool {
    (0..con.variable_count()).any(|i| (0..i).any(|j| con.variable(i).is_some()
        && con.variable(i) == con.variable(j)))
}

/// Whether a sum has a coefficient below 0.
fn is_negative(con: &Con) -> bool {
    match con {
        Con::LinLe { terms, .. } => terms.items().iter().any(|t| t.0 < 0),
        Con::LinDef { terms, .. } => terms.items().iter().any(|t| t.0 < 0),
        Con::ReifLe { terms, .. } => terms.items().iter().any(|t| t.0 < 0),
        _ => false,
    }
}

/// Whether the problem has it.
fn has(g: &Ground, feature: Feature) -> bool {
    let cons = g.cons.items();
    match feature {
        Feature::OfKind(kind) => cons.iter().any(|con| kind_of(con) == kind),
        Feature::EmptyDomain => g.domains.items().iter().any(|d| d.is_empty()),
        Feature::Repeat => cons.iter().any(|con| repeats(con)),
        Feature::NegativeCoefficient => cons.iter().any(|con| is_negative(con)),
        Feature::SeveralGoals => g.goals.items().len() > 1,
        Feature::Defined => (g.search as usize) < g.domains.items().len(),
    }
}

/// How many of the first problems have it.
pub(crate) fn count_with(alloc: Global, count: u64, feature: Feature) -> Result<u64, AllocError> {
    let mut with = 0u64;
    for seed in 0..count {
        let g = problem(alloc, seed)?;
        with = with.saturating_add(u64::from(has(&g, feature)));
    }
    Ok(with)
}
