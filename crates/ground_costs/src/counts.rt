//! How large a ground problem is.
use ground_form::{Con, Ground, Kind, kind_of};

/// How many variables, constraints and terms a problem has.
#[derive(Clone, Copy)]
pub(crate) struct Counts {
    /// Variables that are searched.
    pub(crate) cells: u32,
    /// All variables.
    pub(crate) variables: usize,
    /// Constraints.
    pub(crate) constraints: usize,
    /// What stands in the constraints' lists.
    pub(crate) terms: usize,
}

/// How many terms, parts, items, literals or variables a constraint's list has; 1 or 2 where it has
/// none.
fn terms_of(con: &Con) -> usize {
    match con {
        Con::LinLe { terms, .. } => terms.items().len(),
        Con::LinDef { terms, .. } => terms.items().len(),
        Con::ReifLe { terms, .. } => terms.items().len(),
        Con::AndDef { parts, .. } => parts.items().len(),
        Con::MemberDef { .. } => 1,
        Con::EqDef { .. } => 2,
        Con::ElementDef { items, .. } => items.items().len(),
        Con::CondDef { .. } => 2,
        Con::ClauseCon { clause } => clause.clause().literals().len(),
        Con::AllDiff { vars } => vars.items().len(),
        Con::Pack { items } => items.items().len(),
    }
}

/// How large a problem is.
pub(crate) fn counts_of(g: &Ground) -> Counts {
    let mut terms = 0_usize;
    for con in g.cons.items() {
        terms = terms.saturating_add(terms_of(con));
    }
    Counts {
        cells: g.search,
        variables: g.domains.items().len(),
        constraints: g.cons.items().len(),
        terms,
    }
}

/// The kind of this number.
pub(crate) fn nth_kind(number: u32) -> Kind {
    match number {
        0 => Kind::LinLe,
        1 => Kind::LinDef,
        2 => Kind::ReifLe,
        3 => Kind::AndDef,
        4 => Kind::MemberDef,
        5 => Kind::EqDef,
        6 => Kind::ElementDef,
        7 => Kind::CondDef,
        8 => Kind::ClauseCon,
        9 => Kind::AllDiff,
        _ => Kind::Pack,
    }
}

/// How many constraints of a kind a problem has, and how many terms they have together.
pub(crate) fn of_kind(g: &Ground, kind: Kind) -> (usize, usize) {
    let mut count = 0_usize;
    let mut terms = 0_usize;
    for con in g.cons.items() {
        if kind_of(con) == kind {
            count = count.saturating_add(1);
            terms = terms.saturating_add(terms_of(con));
        }
    }
    (count, terms)
}
