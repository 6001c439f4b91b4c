//! Reads what stands before any operator: a word, a number or another leaf, an expression in
//! parentheses, an operand behind its sign.
//!
//! `first` is the entry point; it hands a quantifier on to `quantifier`.
ghost use Rattle.std.specs.Prelude.{◌≡◌, ◌≤◌, length, IfOk, MatchResult};
ghost use Rattle.model_limits.specs.Limits.{most_nesting};
ghost use Rattle.conf_syntax.specs.Places.{bare};
ghost use Rattle.conf_syntax.specs.Plain as plain;
ghost use Rattle.conf_syntax.specs.Plain.{begin_by};
ghost use Rattle.conf_syntax.specs.Views.{tree_of};
ghost use Rattle.conf_grammar.specs.Machine.{Need};
ghost use Rattle.conf_grammar.specs.Leads.{Leads, at};
ghost use Rattle.conf_grammar.specs.Operators.{sign_of};
ghost use Rattle.conf_parse.specs.Cursor.{Splits};
ghost use Rattle.conf_parse.specs.Reads.{Reads, SignReads};
ghost use Rattle.conf_parse.specs.Parts.{IsPart, Errs};

use crate::begin::{Begin, beginning};
use crate::cursor::{Next, after_mark, split};
use crate::operand::{Bounds, Part, operand};
use crate::quantifier::quant;
use crate::stop::Stop;
use conf_grammar::{Sign, sign_level};
use conf_syntax::{Expr, Mark, Node, Placed};
use std::alloc::{AllocError, Global};

/// Reads what stands before any operator.
#[tactic(auto, using(crate::proofs::Parts::first_wrong))]
#[cycle(read)]
pub(crate) fn first(
    alloc: Global,
    tokens: &[Placed],
    bounds: Bounds,
) -> Result<(Part, &[Placed]), Stop>
    requires room { 1 ≤ bounds.room }
    requires most { bounds.room ≤ most_nesting }
    ensures operand { IfOk result (λ x. IsPart bounds.room x.0) }
    ensures places { IfOk result (λ x. Reads tokens.now x.0.tree x.1.now) }
    ensures read { MatchResult result (λ x. Leads bounds.least bounds.room Need (bare tokens.now)
        (at (tree_of x.0.tree.node)) (bare x.1.now))
        (λ e. Errs bounds.least bounds.room Need (bare tokens.now) e) }
    ensures shorter { IfOk result (λ x. length x.1.now ≤ length tokens.now) }
{
    let Some((token, after)) = split(tokens) else {
        return Err(Stop::Syntax(tokens.len()));
    };
    let next = Next {
        tokens,
        token,
        after,
    };
    let begin = match beginning(alloc, &token.token) {
        Ok(begin) => begin,
        Err(e) => return Err(e),
    };
    match begin {
        Begin::Leaf(node, level) => leaf(node, level, next, bounds),
        Begin::Sign(sign) => signed(alloc, sign, next, bounds),
        Begin::Paren => paren(alloc, next, bounds),
        Begin::Quant(kind) => quant(alloc, kind, next, bounds),
        Begin::Nothing => Err(Stop::Syntax(tokens.len())),
    }
}

/// The operand that a leaf is.
#[tactic(auto, using(crate::proofs::Parts::leaf_part, crate::proofs::Parts::leaf_wrong, crate::proofs::Parts::leaf_top, crate::proofs::Placing::leaf_reads))]
fn leaf<'a>(
    node: Node,
    level: u32,
    next: Next<'a>,
    bounds: Bounds,
) -> Result<(Part, &'a [Placed]), Stop>
    requires room { 1 ≤ bounds.room }
    requires tokens { Splits next.tokens.now next.token.now next.after.now }
    requires begin { begin_by next.token.now.token ≡ plain.ALeaf }
    requires tree { tree_of node ≡ plain.Leaf next.token.now.token }
    requires level { level ≡ plain.leaf_level next.token.now.token }
    ensures operand { IfOk result (λ x. IsPart bounds.room x.0) }
    ensures places { IfOk result (λ x. Reads next.entry.tokens.now x.0.tree x.1.now) }
    ensures read { MatchResult result (λ x. Leads bounds.least bounds.room Need
        (bare next.entry.tokens.now) (at (tree_of x.0.tree.node)) (bare x.1.now))
        (λ e. Errs bounds.least bounds.room Need (bare next.entry.tokens.now) e) }
    ensures shorter { IfOk result (λ x. length x.1.now ≤ length next.entry.tokens.now) }
{
    if bounds.least > level {
        return Err(Stop::Syntax(next.tokens.len()));
    }
    let tree = Expr {
        at: next.token.at,
        node,
    };
    Ok((
        Part {
            tree,
            level,
            nest: 1,
        },
        next.after,
    ))
}

/// Reads an expression in parentheses.
#[tactic(auto, using(crate::proofs::Parts::paren_part))]
#[cycle(read)]
fn paren<'a>(alloc: Global, next: Next<'a>, bounds: Bounds) -> Result<(Part, &'a [Placed]), Stop>
    requires room { 1 ≤ bounds.room }
    requires most { bounds.room ≤ most_nesting }
    requires tokens { Splits next.tokens.now next.token.now next.after.now }
    requires begin { begin_by next.token.now.token ≡ plain.AParen }
    ensures operand { IfOk result (λ x. IsPart bounds.room x.0) }
    ensures places { IfOk result (λ x. Reads next.entry.tokens.now x.0.tree x.1.now) }
    ensures read { MatchResult result (λ x. Leads bounds.least bounds.room Need
        (bare next.entry.tokens.now) (at (tree_of x.0.tree.node)) (bare x.1.now))
        (λ e. Errs bounds.least bounds.room Need (bare next.entry.tokens.now) e) }
    ensures shorter { IfOk result (λ x. length x.1.now ≤ length next.entry.tokens.now) }
{
    if bounds.least > 10 {
        return Err(Stop::Syntax(next.tokens.len()));
    }
    if bounds.room < 2 {
        return Err(Stop::TooDeep(next.tokens.len()));
    }
    let (inner, rest) = match operand(alloc, next.after, 1, bounds.room - 1) {
        Ok(found) => found,
        Err(e) => return Err(e),
    };
    let Some(behind) = after_mark(rest, Mark::CloseParen) else {
        return Err(Stop::Syntax(rest.len()));
    };
    let tree = Expr {
        at: next.token.at,
        node: Node::Paren(Box::new(alloc, inner.tree)?),
    };
    Ok((
        Part {
            tree,
            level: 10,
            nest: inner.nest + 1,
        },
        behind,
    ))
}

/// The expression under a sign.
#[tactic(auto, using(crate::proofs::Placing::minus_reads, crate::proofs::Placing::not_reads))]
fn under(alloc: Global, sign: Sign, place: u32, inner: Expr) -> Result<Expr, AllocError>
    ensures tree { IfOk result (λ x. tree_of x.node ≡ plain.Under (sign_of sign)
        (tree_of inner.node)) }
    ensures places { IfOk result (λ x. SignReads place inner x) }
{
    let inner = Box::new(alloc, inner)?;
    let node = match sign {
        Sign::Minus => Node::Minus(inner),
        Sign::Not => Node::Not(inner),
    };
    Ok(Expr { at: place, node })
}

/// Reads an operand behind `-` or `not`.
#[cycle(read)]
fn signed<'a>(
    alloc: Global,
    sign: Sign,
    next: Next<'a>,
    bounds: Bounds,
) -> Result<(Part, &'a [Placed]), Stop>
    requires room { 1 ≤ bounds.room }
    requires most { bounds.room ≤ most_nesting }
    requires tokens { Splits next.tokens.now next.token.now next.after.now }
    requires begin { begin_by next.token.now.token ≡ plain.ASign (sign_of sign) }
    ensures operand { IfOk result (λ x. IsPart bounds.room x.0) }
    ensures places { IfOk result (λ x. Reads next.entry.tokens.now x.0.tree x.1.now) }
    ensures read { MatchResult result (λ x. Leads bounds.least bounds.room Need
        (bare next.entry.tokens.now) (at (tree_of x.0.tree.node)) (bare x.1.now))
        (λ e. Errs bounds.least bounds.room Need (bare next.entry.tokens.now) e) }
    ensures shorter { IfOk result (λ x. length x.1.now ≤ length next.entry.tokens.now) }
{
    let level = sign_level(sign);
    if bounds.least > level {
        return Err(Stop::Syntax(next.tokens.len()));
    }
    if bounds.room < 2 {
        return Err(Stop::TooDeep(next.tokens.len()));
    }
    let (inner, rest) = match operand(alloc, next.after, level, bounds.room - 1) {
        Ok(found) => found,
        Err(e) => return Err(e),
    };
    let tree = under(alloc, sign, next.token.at, inner.tree)?;
    Ok((
        Part {
            tree,
            level,
            nest: inner.nest + 1,
        },
        rest,
    ))
}
