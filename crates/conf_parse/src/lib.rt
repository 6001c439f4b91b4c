//! From the text of a model to its tree: the lexer and the parser.
//!
//! `lexer` takes the text apart into tokens with their places, or refuses it at the first place
//! that it cannot pass; `token`, `run`, `keyword`, `mark` and `literal` each read one thing for it.
//! `parser` has `parse`: the tree of a model, or the first place that no model has there. `item`,
//! `declaration` and `statement` read what stands at the top level and in classes, `operand` reads
//! expressions by way of `begin`, `prefix`, `growth` and `quantifier`, `row` reads straight rows,
//! and `cursor` takes tokens one by one. How tightly operators bind says `conf_grammar`. What is
//! proved of each reader is what the machine of that crate does with the same tokens, whatever
//! stands around them.
#![tactic(auto)]

mod begin;
mod cursor;
mod declaration;
mod growth;
mod item;
mod keyword;
mod lexer;
mod literal;
mod mark;
mod operand;
mod parser;
mod prefix;
mod quantifier;
mod row;
mod run;
mod statement;
mod stop;
mod token;

pub use lexer::{LexError, lex};
pub use parser::{ParseError, parse};
