//! Reads expressions.
//!
//! `operand` is the entry point: it reads an operand of at least a level, up to the first token
//! that doesn't go on with it. `room` is how deep the operand may be; it goes down with each node,
//! so the readers call one another at most `MOST_NESTING` deep, and operators to the left, in a
//! row, are read in a loop. What stands before any operator is read in `prefix`, an operator or a
//! name behind an operand in `growth`, and quantifiers in `quantifier`.
ghost use Rattle.std.specs.Prelude.{◌≡◌, ◌≤◌, length, IfOk, MatchResult, false};
ghost use Rattle.model_limits.specs.Limits.{most_nesting};
ghost use Rattle.conf_syntax.specs.Places.{bare};
ghost use Rattle.conf_syntax.specs.Views.{tree_of};
ghost use Rattle.conf_grammar.specs.Machine.{Need};
ghost use Rattle.conf_grammar.specs.Leads.{Leads, at, goes_on};
ghost use Rattle.conf_parse.specs.Reads.{Reads};
ghost use Rattle.conf_parse.specs.Parts.{IsPart, Errs};

use crate::growth::grow;
use crate::prefix::first;
use crate::stop::Stop;
use conf_syntax::{Expr, Placed};
use std::alloc::Global;

/// An operand with its level and how deep it is.
#[derive(Drop)]
pub struct Part {
    pub tree: Expr,
    pub level: u32,
    pub nest: u32,
}

/// What bounds an operand: its least level, and how deep it may be.
#[derive(Clone, Copy)]
pub(crate) struct Bounds {
    pub least: u32,
    pub room: u32,
}

/// Reads an operand of at least a level, up to the first token that doesn't go on with it.
#[cycle(read)]
pub fn operand(
    alloc: Global,
    tokens: &[Placed],
    least: u32,
    room: u32,
) -> Result<(Part, &[Placed]), Stop>
    requires room { 1 ≤ room }
    requires most { room ≤ most_nesting }
    ensures operand { IfOk result (λ x. IsPart room x.0) }
    ensures places { IfOk result (λ x. Reads tokens.now x.0.tree x.1.now) }
    ensures read { MatchResult result (λ x. Leads least room Need (bare tokens.now)
        (at (tree_of x.0.tree.node)) (bare x.1.now)) (λ e. Errs least room Need (bare tokens.now)
        e) }
    ensures stops { IfOk result (λ x. goes_on least x.0.level (bare x.1.now) ≡ false) }
    ensures shorter { IfOk result (λ x. length x.1.now ≤ length tokens.now) }
{
    let bounds = Bounds { least, room };
    let (mut left, mut rest) = match first(alloc, tokens, bounds) {
        Ok(found) => found,
        Err(e) => return Err(e),
    };
    'rows: loop {
        let (next, behind, more) = match grow(alloc, left, tokens, rest, bounds) {
            Ok(found) => found,
            Err(e) => return Err(e),
        };
        left = next;
        rest = behind;
        if !more {
            return Ok((left, rest));
        }
    }
}
