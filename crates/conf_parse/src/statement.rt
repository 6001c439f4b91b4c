//! Reads constraints and goals.
ghost use Rattle.std.specs.Prelude.{◌≡◌, ◌≤◌, ◌<◌, length, IfOk, MatchResult};
ghost use Rattle.model_limits.specs.Limits.{most_nesting};
ghost use Rattle.conf_syntax.specs.Places.{bare};
ghost use Rattle.conf_syntax.specs.Plain.{Goal, nest, member_nest, nesting};
ghost use Rattle.conf_syntax.specs.Trees.{goal_key};
ghost use Rattle.conf_syntax.specs.Views.{tree_of, where_of};
ghost use Rattle.conf_grammar.specs.Leads.{ground_base, Turns, IsNot, home_low};
ghost use Rattle.conf_parse.specs.Cursor.{Takes};
ghost use Rattle.conf_parse.specs.Standing.{StatementReads, WhereReads, GoalReads};
ghost use Rattle.conf_parse.specs.Turnings.{TurnErrs, need_at, ground_and, home_at, home_and, program_at, program_and};

use crate::cursor::{after_mark, first_at};
use crate::operand::{Part, operand};
use crate::stop::Stop;
use conf_syntax::{Exprs, GoalDecl, Key, Mark, Placed, Token, WhereDecl};
use model_limits::MOST_NESTING;
use std::alloc::Global;

/// Reads an expression and its semicolon.
#[tactic(auto, using(crate::proofs::Wheres::expr_part, crate::proofs::Wheres::expr_open, crate::proofs::Wheres::expr_error, crate::proofs::Standing::statement_stands))]
fn statement(alloc: Global, tokens: &[Placed]) -> Result<(Part, &[Placed]), Stop>
    ensures places { IfOk result (λ x. StatementReads tokens.now x.0.tree x.1.now) }
    ensures read { MatchResult result (λ x. Turns ground_base need_at (bare tokens.now)
        (ground_and (tree_of x.0.tree.node)) (bare x.1.now)) (λ e. TurnErrs ground_base need_at
        (bare tokens.now) e) }
    ensures nest { IfOk result (λ x. x.0.nest ≡ nest (tree_of x.0.tree.node)) }
    ensures nested { IfOk result (λ x. x.0.nest ≤ most_nesting) }
    ensures shorter { IfOk result (λ x. length x.1.now < length tokens.now) }
{
    let (part, behind) = match operand(alloc, tokens, 1, MOST_NESTING) {
        Ok(found) => found,
        Err(e) => return Err(e),
    };
    let Some(rest) = after_mark(behind, Mark::Semicolon) else {
        return Err(Stop::Syntax(behind.len()));
    };
    Ok((part, rest))
}

/// Reads the constraints in braces behind `where`.
#[tactic(auto, using(crate::proofs::Wheres::braces_start, crate::proofs::Wheres::braces_end, crate::proofs::Wheres::braces_none, crate::proofs::Standing::row_begins))]
fn braces<'a>(
    alloc: Global,
    tokens: &'a [Placed],
    after: &'a [Placed],
    inside: &'a [Placed],
) -> Result<(WhereDecl, &'a [Placed]), Stop>
    requires key { Takes tokens.now (Token.Key Key.Where) after.now }
    requires brace { Takes after.now (Token.Mark Mark.OpenBrace) inside.now }
    ensures places { IfOk result (λ x. WhereReads tokens.now x.0 x.1.now) }
    ensures read { MatchResult result (λ x. Turns home_low home_at (bare tokens.now)
        (home_and (where_of x.0.braces x.0.list)) (bare x.1.now)) (λ e. TurnErrs home_low home_at
        (bare tokens.now) e) }
    ensures shorter { IfOk result (λ x. length x.1.now < length tokens.now) }
    ensures nested { IfOk result (λ x. member_nest (where_of x.0.braces x.0.list) ≤ most_nesting) }
{
    let mut list = Vec::new(alloc);
    let mut rest = inside;
    'constraints: loop {
        if let Some(behind) = after_mark(rest, Mark::CloseBrace) {
            let constraints = WhereDecl {
                at: first_at(tokens),
                braces: true,
                list: Exprs::of(list),
            };
            return Ok((constraints, behind));
        }
        let (part, behind) = match statement(alloc, rest) {
            Ok(found) => found,
            Err(e) => return Err(e),
        };
        list.push(part.tree)?;
        rest = behind;
    }
}

/// Reads the one constraint behind `where`.
#[tactic(auto, using(crate::proofs::Wheres::lone_part, crate::proofs::Wheres::lone_error, crate::proofs::Wheres::lone_nest))]
fn lone<'a>(
    alloc: Global,
    tokens: &'a [Placed],
    after: &'a [Placed],
) -> Result<(WhereDecl, &'a [Placed]), Stop>
    requires key { Takes tokens.now (Token.Key Key.Where) after.now }
    requires brace { IsNot (Token.Mark Mark.OpenBrace) (bare after.now) }
    ensures places { IfOk result (λ x. WhereReads tokens.now x.0 x.1.now) }
    ensures read { MatchResult result (λ x. Turns home_low home_at (bare tokens.now)
        (home_and (where_of x.0.braces x.0.list)) (bare x.1.now)) (λ e. TurnErrs home_low home_at
        (bare tokens.now) e) }
    ensures shorter { IfOk result (λ x. length x.1.now < length tokens.now) }
    ensures nested { IfOk result (λ x. member_nest (where_of x.0.braces x.0.list) ≤ most_nesting) }
{
    let (part, rest) = match statement(alloc, after) {
        Ok(found) => found,
        Err(e) => return Err(e),
    };
    let mut list = Vec::new(alloc);
    list.push(part.tree)?;
    let constraint = WhereDecl {
        at: first_at(tokens),
        braces: false,
        list: Exprs::of(list),
    };
    Ok((constraint, rest))
}

/// Reads what stands behind `where`.
pub fn where_decl<'a>(
    alloc: Global,
    tokens: &'a [Placed],
    after: &'a [Placed],
) -> Result<(WhereDecl, &'a [Placed]), Stop>
    requires key { Takes tokens.now (Token.Key Key.Where) after.now }
    ensures places { IfOk result (λ x. WhereReads tokens.now x.0 x.1.now) }
    ensures read { MatchResult result (λ x. Turns home_low home_at (bare tokens.now)
        (home_and (where_of x.0.braces x.0.list)) (bare x.1.now)) (λ e. TurnErrs home_low home_at
        (bare tokens.now) e) }
    ensures shorter { IfOk result (λ x. length x.1.now < length tokens.now) }
    ensures nested { IfOk result (λ x. member_nest (where_of x.0.braces x.0.list) ≤ most_nesting) }
{
    match after_mark(after, Mark::OpenBrace) {
        Some(inside) => braces(alloc, tokens, after, inside),
        None => lone(alloc, tokens, after),
    }
}

/// Reads the goal behind `maximize` or `minimize`.
#[tactic(auto, using(crate::proofs::Wheres::goal_part, crate::proofs::Wheres::goal_error, crate::proofs::StandingItems::goal_stands))]
pub fn goal_decl<'a>(
    alloc: Global,
    max: bool,
    tokens: &'a [Placed],
    after: &'a [Placed],
) -> Result<(GoalDecl, &'a [Placed]), Stop>
    requires key { Takes tokens.now (goal_key max) after.now }
    ensures places { IfOk result (λ x. GoalReads tokens.now x.0 x.1.now) }
    ensures read { MatchResult result (λ x. Turns nesting program_at (bare tokens.now)
        (program_and (Goal x.0.max (tree_of x.0.expr.node))) (bare x.1.now))
        (λ e. TurnErrs nesting program_at (bare tokens.now) e) }
    ensures shorter { IfOk result (λ x. length x.1.now < length tokens.now) }
    ensures nested { IfOk result (λ x. nest (tree_of x.0.expr.node) ≤ most_nesting) }
{
    let (part, rest) = match statement(alloc, after) {
        Ok(found) => found,
        Err(e) => return Err(e),
    };
    let goal = GoalDecl {
        at: first_at(tokens),
        max,
        expr: part.tree,
    };
    Ok((goal, rest))
}
