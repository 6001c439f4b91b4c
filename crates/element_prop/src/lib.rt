//! Propagators of elements, equalities and conditionals.
//!
//! An element says that `out` is the item that an index picks, whose items may be variables. Three
//! things can follow: an index value goes whose item has no value in common with out; a value of
//! out goes that no possible item offers; and where only one item can be picked, it and out have
//! the same values. Each is a clause of few literals but for the second, which names all items. An
//! equality and a conditional are clauses over a flag and two boxes, of which a test of how the
//! boxes lie to each other finds the one that says something. A call walks once or twice over the
//! items that the index may pick.
//!
//! Elements: Van Hentenryck and Carillon (1988).
//!
//! - `within`: the clause that a variable has a value that another's box has.
//! - `equality`, `conditional`, `element`: one module for each kind.
//! - `near`: which items those are.
//! - `offers`: the values of an element's out that an item offers.
//! - `propagator`: `ElementProp`, the face.
#![tactic(auto)]

mod conditional;
mod element;
mod equality;
mod near;
mod offers;
mod propagator;
mod within;

pub use propagator::ElementProp;
