//! What a propagator is asked about.
use ground_form::Con;
use signed_clause::IntSet;

/// A constraint, the domains of all variables, and their boxes: what is left of the domains.
#[derive(Clone, Copy)]
pub struct Subject<'a> {
    pub con: &'a Con,
    pub domains: &'a [IntSet],
    pub boxes: &'a [IntSet],
}
