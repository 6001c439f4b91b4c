//! Trees of models: declarations, shapes and expressions.
//!
//! Each `at` is the place of the first token of what it stands in, and for `Pair` that of its
//! operator.
use crate::{Exprs, Ident, Idents, Items, Members, Name};

/// A whole model.
pub struct Program {
    pub items: Items,
}

impl Drop for Program {
    fn drop(self) {
        let Program { items: _ } = self;
    }
}

/// What stands at the top level.
#[derive(Drop)]
pub enum Item {
    Enum(EnumDecl),
    Class(ClassDecl),
    Var(VarDecl),
    Where(WhereDecl),
    Goal(GoalDecl),
}

/// `enum NAME { VALUE, .. }`.
#[derive(Drop)]
pub struct EnumDecl {
    pub name: Ident,
    pub values: Idents,
}

/// `class NAME extends PARENT { .. }`.
#[derive(Drop)]
pub struct ClassDecl {
    pub is_abstract: bool,
    pub name: Ident,
    pub parent: Option<Ident>,
    pub members: Members,
}

/// What stands in a class.
#[derive(Drop)]
pub enum Member {
    Var(VarDecl),
    Where(WhereDecl),
}

/// `var NAME as SHAPE;`.
#[derive(Drop)]
pub struct VarDecl {
    pub name: Ident,
    pub shape: Shape,
}

/// `where EXPR;`, or with braces `where { EXPR; .. }`.
#[derive(Drop)]
pub struct WhereDecl {
    pub at: u32,
    pub braces: bool,
    pub list: Exprs,
}

/// `maximize EXPR;` or `minimize EXPR;`.
#[derive(Drop)]
pub struct GoalDecl {
    pub at: u32,
    pub max: bool,
    pub expr: Expr,
}

/// What a variable may hold.
#[derive(Drop)]
pub enum Shape {
    /// `low..high`.
    Range(Bound, Bound),
    /// `int`.
    Int,
    /// `bool`.
    Bool,
    /// `NAME`, an enumeration or one contained object.
    Named(Ident),
    /// `NAME[count]`, contained objects.
    Many(Ident, u32),
    /// `ref NAME`.
    Ref(Ident),
    /// `ref NAME[count]`, a set of references.
    RefSet(Ident, u32),
}

/// An end of a range, with the place of its first token.
#[derive(Clone, Copy, Debug, PartialEq, Eq)]
pub struct Bound {
    pub at: u32,
    pub minus: bool,
    pub value: u32,
}

/// An expression with its place.
#[cycle(tree)]
#[derive(Drop)]
pub struct Expr {
    pub at: u32,
    pub node: Node,
}

/// What an expression is made of.
#[cycle(tree)]
#[derive(Drop)]
pub enum Node {
    Number(u32),
    Truth(bool),
    This,
    Named(Name),
    Paren(Box<Expr>),
    Dot(Box<Expr>, Ident),
    Minus(Box<Expr>),
    Not(Box<Expr>),
    Pair(Op, Box<Expr>, Box<Expr>),
    Quant(Box<Quant>),
}

/// A quantifier: `forall VAR in OVER where FILTER { BODY; .. }` and its kin.
#[cycle(tree)]
#[derive(Drop)]
pub struct Quant {
    pub kind: QuantKind,
    pub var: Ident,
    pub over: Expr,
    pub filter: Option<Expr>,
    pub body: Vec<Expr>,
}

/// Which quantifier it is.
#[derive(Clone, Copy, Debug, PartialEq, Eq)]
pub enum QuantKind {
    Forall,
    Exists,
    Sum,
    Count,
    AllDifferent,
    Pack,
}

/// An operator between two expressions.
#[derive(Clone, Copy, Debug, PartialEq, Eq)]
pub enum Op {
    Implies,
    Or,
    And,
    Eq,
    Ne,
    Lt,
    Le,
    Gt,
    Ge,
    In,
    Add,
    Sub,
    Mul,
}
