//! Propagators of conjunctions, memberships and clauses.
//!
//! Each kind is a few clauses over a flag and its parts: of a conjunction for each part 'the flag
//! is 0 or the part holds', and 'the flag is 1 or some part fails'. A quick test finds the one that
//! has something to say, and its literals are the explanation; so nothing is stored that a SAT
//! solver would store as clauses, and nothing is built where none says anything. A call is a walk
//! over the parts. A conjunction that holds tells of one part in each call, so many parts take
//! their square to a fixpoint: what is required outright is stated part by part instead.
//!
//! The clauses are those of Tseitin (1968), made when they are asked for (lazy clause generation).
//!
//! - `conjunction`, `member`: one module for each kind; of clauses `rule_law` has it.
//! - `propagator`: `BoolProp`, the face.
#![tactic(auto)]

mod conjunction;
mod member;
mod propagator;

pub use propagator::BoolProp;
