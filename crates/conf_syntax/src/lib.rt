//! The tokens and trees of ConfSolve, and what it means that a text spells them.
//!
//! `token` has what the lexer answers, `tree` what the parser answers, `list` the plain lists that
//! trees hold, and `name` the bytes of a word. The folder `specs` says which texts spell which
//! tokens and which tokens are those of which tree; it is what the lexer and the parser are proved
//! against, and knows neither.
#![tactic(auto)]

mod list;
mod name;
mod token;
mod tree;

pub use list::{Exprs, Idents, Items, Members};
pub use name::{Name, PathText};
pub use token::{Ident, Key, Mark, Placed, Token};
pub use tree::{
    Bound, ClassDecl, EnumDecl, Expr, GoalDecl, Item, Member, Node, Op, Program, Quant, QuantKind,
    Shape, VarDecl, WhereDecl,
};
