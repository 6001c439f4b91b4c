//! Reads what makes an operand grow to the right: a point with its name, an operator with its right
//! operand.
//!
//! `grow` is the entry point: it reads one of them, or finds that none goes on with the operand.
ghost use Rattle.std.specs.Prelude.{◌≡◌, ◌<◌, ◌≤◌, length, IfOk, MatchResult, true, false};
ghost use Rattle.model_limits.specs.Limits.{most_nesting};
ghost use Rattle.conf_syntax.specs.Places.{bare, first_at};
ghost use Rattle.conf_syntax.specs.Views.{tree_of};
ghost use Rattle.conf_grammar.specs.Machine.{goes, going, AnOp, ADot};
ghost use Rattle.conf_grammar.specs.Leads.{Leads, at, goes_on};
ghost use Rattle.conf_parse.specs.Cursor.{Splits};
ghost use Rattle.conf_parse.specs.Reads.{Reads};
ghost use Rattle.conf_parse.specs.Parts.{IsPart, Errs};

use crate::cursor::{Next, first_at, split, word_at};
use crate::operand::{Bounds, Part, operand};
use crate::stop::Stop;
use conf_grammar::{Going, dotted, goes, op_level, right_level, way_on};
use conf_syntax::{Expr, Ident, Name, Node, Op, Placed};
use std::alloc::Global;

/// One operator or name more behind an operand that stands at the head of `start`, or none.
#[tactic(auto, using(crate::proofs::Parts::grow_stops))]
#[cycle(read)]
pub(crate) fn grow<'a>(
    alloc: Global,
    left: Part,
    start: &'a [Placed],
    tokens: &'a [Placed],
    bounds: Bounds,
) -> Result<(Part, &'a [Placed], bool), Stop>
    requires room { 1 ≤ bounds.room }
    requires most { bounds.room ≤ most_nesting }
    requires left { IsPart bounds.room left }
    requires places { Reads start.now left.tree tokens.now }
    ensures operand { IfOk result (λ x. IsPart bounds.room x.0) }
    ensures places { IfOk result (λ x. Reads start.now x.0.tree x.1.now) }
    ensures read { MatchResult result (λ x. Leads bounds.least bounds.room
        (at (tree_of left.tree.node)) (bare tokens.now) (at (tree_of x.0.tree.node)) (bare x.1.now))
        (λ e. Errs bounds.least bounds.room (at (tree_of left.tree.node)) (bare tokens.now) e) }
    ensures stops { IfOk result (λ x. x.2 ≡ false → goes_on bounds.least x.0.level (bare x.1.now)
        ≡ false) }
    ensures shorter { IfOk result (λ x. x.2 ≡ true → length x.1.now < length tokens.now) }
    ensures no_longer { IfOk result (λ x. length x.1.now ≤ length tokens.now) }
{
    let Some((token, after)) = split(tokens) else {
        return Ok((left, tokens, false));
    };
    let way = way_on(&token.token);
    if !goes(way, bounds.least, left.level) {
        return Ok((left, tokens, false));
    }
    if left.nest >= bounds.room {
        return Err(Stop::TooDeep(tokens.len()));
    }
    let next = Next {
        tokens,
        token,
        after,
    };
    let (grown, rest) = match way {
        Going::Dot => match named(alloc, left, start, next, bounds) {
            Ok(found) => found,
            Err(e) => return Err(e),
        },
        Going::Pair(op) => match pair(alloc, left, start, next, op, bounds) {
            Ok(found) => found,
            Err(e) => return Err(e),
        },
        Going::Nothing => return Ok((left, tokens, false)),
    };
    Ok((grown, rest, true))
}

/// Reads the name behind a point.
#[tactic(auto, using(crate::proofs::Parts::dot_part, crate::proofs::Parts::dot_wrong, crate::proofs::Placing::dot_reads))]
fn named<'a>(
    alloc: Global,
    left: Part,
    start: &'a [Placed],
    next: Next<'a>,
    bounds: Bounds,
) -> Result<(Part, &'a [Placed]), Stop>
    requires most { bounds.room ≤ most_nesting }
    requires left { IsPart bounds.room left }
    requires places { Reads start.now left.tree next.tokens.now }
    requires tokens { Splits next.tokens.now next.token.now next.after.now }
    requires goes { goes bounds.least left.level next.token.now.token ≡ true }
    requires dot { going next.token.now.token ≡ ADot }
    requires nest { left.nest < bounds.room }
    ensures operand { IfOk result (λ x. IsPart bounds.room x.0) }
    ensures places { IfOk result (λ x. Reads start.now x.0.tree x.1.now) }
    ensures read { MatchResult result (λ x. Leads bounds.least bounds.room
        (at (tree_of left.tree.node)) (bare next.entry.tokens.now) (at (tree_of x.0.tree.node))
        (bare x.1.now))
        (λ e. Errs bounds.least bounds.room (at (tree_of left.tree.node))
        (bare next.entry.tokens.now) e) }
    ensures shorter { IfOk result (λ x. length x.1.now < length next.entry.tokens.now) }
{
    let Some((name, at, rest)) = word_at(next.after) else {
        return Err(Stop::Syntax(next.after.len()));
    };
    let name = Name::of(alloc, name.as_bytes())?;
    let tree = Expr {
        at: first_at(start),
        node: Node::Dot(Box::new(alloc, left.tree)?, Ident { name, at }),
    };
    Ok((
        Part {
            tree,
            level: dotted(left.level),
            nest: left.nest + 1,
        },
        rest,
    ))
}

/// Reads the right operand of an operator.
#[tactic(auto, using(crate::proofs::Parts::pair_part))]
#[cycle(read)]
fn pair<'a>(
    alloc: Global,
    left: Part,
    start: &'a [Placed],
    next: Next<'a>,
    op: Op,
    bounds: Bounds,
) -> Result<(Part, &'a [Placed]), Stop>
    requires most { bounds.room ≤ most_nesting }
    requires left { IsPart bounds.room left }
    requires places { Reads start.now left.tree next.tokens.now }
    requires tokens { Splits next.tokens.now next.token.now next.after.now }
    requires goes { goes bounds.least left.level next.token.now.token ≡ true }
    requires op { going next.token.now.token ≡ AnOp op }
    requires nest { left.nest < bounds.room }
    ensures operand { IfOk result (λ x. IsPart bounds.room x.0) }
    ensures places { IfOk result (λ x. Reads start.now x.0.tree x.1.now) }
    ensures read { MatchResult result (λ x. Leads bounds.least bounds.room
        (at (tree_of left.tree.node)) (bare next.entry.tokens.now) (at (tree_of x.0.tree.node))
        (bare x.1.now))
        (λ e. Errs bounds.least bounds.room (at (tree_of left.tree.node))
        (bare next.entry.tokens.now) e) }
    ensures shorter { IfOk result (λ x. length x.1.now < length next.entry.tokens.now) }
{
    let place = next.token.at;
    let (right, rest) = match operand(alloc, next.after, right_level(op), bounds.room - 1) {
        Ok(found) => found,
        Err(e) => return Err(e),
    };
    let nest = left.nest.max(right.nest) + 1;
    let left = Box::new(alloc, left.tree)?;
    let right = Box::new(alloc, right.tree)?;
    let tree = Expr {
        at: place,
        node: Node::Pair(op, left, right),
    };
    Ok((
        Part {
            tree,
            level: op_level(op),
            nest,
        },
        rest,
    ))
}
