//! Resolved expressions: no name stands in them, each is a number of the class table.
//!
//! Each `at` is the place that the expression has in the model's tree. Constraints and objectives
//! are seen by clauses without their pointers.
use class_table::Resolved;
use conf_syntax::{Op, QuantKind};
use std::marker::Model;

/// A resolved expression with its place.
#[cycle(resolved)]
#[derive(Drop)]
pub struct RExpr {
    pub at: u32,
    pub node: RNode,
}

/// What a resolved expression is made of.
#[cycle(resolved)]
#[derive(Drop)]
pub enum RNode {
    Number(u32),
    Truth(bool),
    This,
    Paren(Box<RExpr>),
    Minus(Box<RExpr>),
    Not(Box<RExpr>),
    Pair(Op, Box<RExpr>, Box<RExpr>),
    /// A quantifier's variable by its distance, 0 for the innermost.
    Local(u32),
    /// An attribute of `this` that is named alone, by its number.
    Own(u32, Resolved),
    /// A top-level variable, by its number.
    Root(u32, Resolved),
    /// A value of an enumeration: the enumeration's number, the value's number in it.
    Value(u32, u32),
    /// A class, behind `in`.
    Class(u32),
    /// An attribute of an object, by its number.
    Dot(Box<RExpr>, u32, Resolved),
    Quant(Box<RQuant>),
}

/// A resolved quantifier.
#[cycle(resolved)]
#[derive(Drop)]
pub struct RQuant {
    pub kind: QuantKind,
    pub over: RExpr,
    pub filter: Option<RExpr>,
    pub body: Vec<RExpr>,
}

/// A constraint: the class for whose objects it is stated, or none at the top level, and the place
/// of its first token.
pub struct Constraint {
    pub class: Option<u32>,
    pub place: u32,
    pub expr: RExpr,
}

impl Drop for Constraint {
    fn drop(self) {
        let Constraint {
            class: _,
            place: _,
            expr: _,
        } = self;
    }
}

impl Model for Constraint {
    ghost use Rattle.conf_types.specs.Resolved.{ResolvedConstraint};
    ghost use Rattle.conf_types.specs.TreeCodes.{coded_constraint};
    ghost use Rattle.conf_types.specs.TreeOf.{tree_of};

    ghost Value = { ResolvedConstraint };

    ghost coded = { coded_constraint };

    ghost view = { λ k. record { class = k.class; place = k.place; tree = tree_of k.expr } };
}

/// An objective.
pub struct Goal {
    pub max: bool,
    pub expr: RExpr,
}

impl Drop for Goal {
    fn drop(self) {
        let Goal { max: _, expr: _ } = self;
    }
}

impl Model for Goal {
    ghost use Rattle.conf_types.specs.Resolved.{ResolvedGoal};
    ghost use Rattle.conf_types.specs.TreeCodes.{coded_goal};
    ghost use Rattle.conf_types.specs.TreeOf.{tree_of};

    ghost Value = { ResolvedGoal };

    ghost coded = { coded_goal };

    ghost view = { λ g. record { max = g.max; tree = tree_of g.expr } };
}
