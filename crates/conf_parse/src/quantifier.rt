//! Reads quantifiers: a keyword, a variable and its path, a filter where there is one, and bodies.
//!
//! `quant` is the entry point. `room` is how deep the quantifier may be, as in `operand`; bodies in
//! a row are read in a loop.
ghost use Rattle.std.specs.Prelude.{◌≡◌, ◌+◌, ◌-◌, ◌<◌, ◌≤◌, length, IfOk, MatchResult, true, false};
ghost use Rattle.model_limits.specs.Limits.{most_nesting};
ghost use Rattle.conf_syntax.specs.Places.{bare, first_at};
ghost use Rattle.conf_syntax.specs.Plain as plain;
ghost use Rattle.conf_syntax.specs.Plain.{begin_by, part, nest};
ghost use Rattle.conf_syntax.specs.Views.{tree_of, chain, closed};
ghost use Rattle.conf_grammar.specs.Machine.{Need, InOver, body};
ghost use Rattle.conf_grammar.specs.Leads.{Leads, at, need_in, have_in, goes_on};
ghost use Rattle.conf_parse.specs.Cursor.{Splits};
ghost use Rattle.conf_parse.specs.Reads.{Reads, HeadReads, OpeningReads, QuantReads, ItemReads};
ghost use Rattle.conf_parse.specs.Parts.{IsPart, Errs, IsItem, ItemErrs, opening_tree};

use crate::cursor::{Next, after_key, after_mark, word_at};
use crate::operand::{Bounds, Part, operand};
use crate::stop::Stop;
use conf_grammar::{PATH, may_end, may_filter, may_more, semicolons};
use conf_syntax::{Expr, Ident, Key, Mark, Name, Node, Placed, Quant, QuantKind};
use std::alloc::{AllocError, Global};

/// What stands before a quantifier's bodies.
struct Opening {
    kind: QuantKind,
    var: Ident,
    over: Expr,
    filter: Option<Expr>,
    nest: u32,
}

impl Drop for Opening {
    fn drop(self) {
        let Opening {
            kind: _,
            var: _,
            over: _,
            filter: _,
            nest: _,
        } = self;
    }
}

impl Opening {
    /// The quantifier with these bodies.
    fn made(self, alloc: Global, place: u32, body: Vec<Expr>) -> Result<Expr, AllocError>
        ensures tree { IfOk result (λ x. tree_of x.node ≡ closed (plain.semicolons self.kind)
            (chain (opening_tree self) body.items)) }
        ensures places { IfOk result (λ x. QuantReads place self body.items x) }
    {
        let Opening {
            kind,
            var,
            over,
            filter,
            nest: _,
        } = self;
        let quant = Quant {
            kind,
            var,
            over,
            filter,
            body,
        };
        Ok(Expr {
            at: place,
            node: Node::Quant(Box::new(alloc, quant)?),
        })
    }
}

/// Reads a quantifier's keyword, its variable and its path.
#[cycle(read)]
fn head<'a>(
    alloc: Global,
    kind: QuantKind,
    next: Next<'a>,
    bounds: Bounds,
) -> Result<(Ident, Part, &'a [Placed]), Stop>
    requires room { 1 ≤ bounds.room }
    requires most { bounds.room ≤ most_nesting }
    requires tokens { Splits next.tokens.now next.token.now next.after.now }
    requires begin { begin_by next.token.now.token ≡ plain.AQuant kind }
    ensures fits { IfOk result (λ x. (bounds.least ≤ 10) × (2 ≤ bounds.room)) }
    ensures operand { IfOk result (λ x. IsPart (bounds.room - 1) x.1) }
    ensures places { IfOk result (λ x. HeadReads next.entry.tokens.now x.0 x.1.tree x.2.now) }
    ensures read { MatchResult result (λ x. Leads bounds.least bounds.room Need
        (bare next.entry.tokens.now) (have_in (InOver kind x.0.name) (tree_of x.1.tree.node))
        (bare x.2.now))
        (λ e. Errs bounds.least bounds.room Need (bare next.entry.tokens.now) e) }
    ensures stops { IfOk result (λ x. goes_on 11 x.1.level (bare x.2.now) ≡ false) }
    ensures shorter { IfOk result (λ x. length x.2.now ≤ length next.entry.tokens.now) }
{
    if bounds.least > 10 {
        return Err(Stop::Syntax(next.tokens.len()));
    }
    if bounds.room < 2 {
        return Err(Stop::TooDeep(next.tokens.len()));
    }
    let Some((name, at, behind)) = word_at(next.after) else {
        return Err(Stop::Syntax(next.after.len()));
    };
    let Some(path) = after_key(behind, Key::In) else {
        return Err(Stop::Syntax(behind.len()));
    };
    let (over, rest) = match operand(alloc, path, PATH, bounds.room - 1) {
        Ok(found) => found,
        Err(e) => return Err(e),
    };
    let name = Name::of(alloc, name.as_bytes())?;
    Ok((Ident { name, at }, over, rest))
}

/// Reads a quantifier up to its first body.
#[tactic(auto, using(crate::proofs::Placing::plain_opens))]
#[cycle(read)]
fn before_body<'a>(
    alloc: Global,
    kind: QuantKind,
    next: Next<'a>,
    bounds: Bounds,
) -> Result<(Opening, &'a [Placed]), Stop>
    requires room { 1 ≤ bounds.room }
    requires most { bounds.room ≤ most_nesting }
    requires tokens { Splits next.tokens.now next.token.now next.after.now }
    requires begin { begin_by next.token.now.token ≡ plain.AQuant kind }
    ensures fits { IfOk result (λ x. (bounds.least ≤ 10) × (2 ≤ bounds.room)) }
    ensures kind { IfOk result (λ x. x.0.kind ≡ kind) }
    ensures nest { IfOk result (λ x. (x.0.nest ≡ nest (opening_tree x.0))
        × (x.0.nest < bounds.room)) }
    ensures places { IfOk result (λ x. OpeningReads next.entry.tokens.now x.0 x.1.now) }
    ensures read { MatchResult result (λ x. Leads bounds.least bounds.room Need
        (bare next.entry.tokens.now) (need_in (body (opening_tree x.0))) (bare x.1.now))
        (λ e. Errs bounds.least bounds.room Need (bare next.entry.tokens.now) e) }
    ensures shorter { IfOk result (λ x. length x.1.now ≤ length next.entry.tokens.now) }
{
    let (var, over, rest) = match head(alloc, kind, next, bounds) {
        Ok(found) => found,
        Err(e) => return Err(e),
    };
    if let Some(inner) = after_key(rest, Key::Where) {
        if !may_filter(kind) {
            return Err(Stop::Syntax(rest.len()));
        }
        let (filter, behind) = match operand(alloc, inner, 1, bounds.room - 1) {
            Ok(found) => found,
            Err(e) => return Err(e),
        };
        let Some(inside) = after_mark(behind, Mark::OpenBrace) else {
            return Err(Stop::Syntax(behind.len()));
        };
        let nest = over.nest.max(filter.nest);
        return Ok((
            Opening {
                kind,
                var,
                over: over.tree,
                filter: Some(filter.tree),
                nest,
            },
            inside,
        ));
    }
    let Some(inside) = after_mark(rest, Mark::OpenBrace) else {
        return Err(Stop::Syntax(rest.len()));
    };
    Ok((
        Opening {
            kind,
            var,
            over: over.tree,
            filter: None,
            nest: over.nest,
        },
        inside,
    ))
}

/// Reads a body with its semicolon.
#[cycle(read)]
fn item(alloc: Global, tokens: &[Placed], room: u32) -> Result<(Part, &[Placed]), Stop>
    requires room { 2 ≤ room }
    requires most { room ≤ most_nesting }
    ensures operand { IfOk result (λ x. IsPart (room - 1) x.0) }
    ensures places { IfOk result (λ x. ItemReads tokens.now x.0.tree x.1.now) }
    ensures read { MatchResult result (λ x. IsItem room (bare tokens.now) (tree_of x.0.tree.node)
        (bare x.1.now)) (λ e. ItemErrs room (bare tokens.now) e) }
    ensures shorter { IfOk result (λ x. length x.1.now < length tokens.now) }
{
    let (part, behind) = match operand(alloc, tokens, 1, room - 1) {
        Ok(found) => found,
        Err(e) => return Err(e),
    };
    let Some(rest) = after_mark(behind, Mark::Semicolon) else {
        return Err(Stop::Syntax(behind.len()));
    };
    Ok((part, rest))
}

/// Reads a quantifier.
#[cycle(read)]
pub(crate) fn quant<'a>(
    alloc: Global,
    kind: QuantKind,
    next: Next<'a>,
    bounds: Bounds,
) -> Result<(Part, &'a [Placed]), Stop>
    requires room { 1 ≤ bounds.room }
    requires most { bounds.room ≤ most_nesting }
    requires tokens { Splits next.tokens.now next.token.now next.after.now }
    requires begin { begin_by next.token.now.token ≡ plain.AQuant kind }
    ensures operand { IfOk result (λ x. IsPart bounds.room x.0) }
    ensures places { IfOk result (λ x. Reads next.entry.tokens.now x.0.tree x.1.now) }
    ensures read { MatchResult result (λ x. Leads bounds.least bounds.room Need
        (bare next.entry.tokens.now) (at (tree_of x.0.tree.node)) (bare x.1.now))
        (λ e. Errs bounds.least bounds.room Need (bare next.entry.tokens.now) e) }
    ensures shorter { IfOk result (λ x. length x.1.now ≤ length next.entry.tokens.now) }
{
    let (start, inside) = match before_body(alloc, kind, next, bounds) {
        Ok(found) => found,
        Err(e) => return Err(e),
    };
    if semicolons(kind) {
        many(alloc, start, next, inside, bounds)
    } else {
        single(alloc, start, next, inside, bounds)
    }
}

/// Reads the one body of a quantifier whose body has no semicolon.
#[cycle(read)]
fn single<'a>(
    alloc: Global,
    start: Opening,
    next: Next<'a>,
    inside: &'a [Placed],
    bounds: Bounds,
) -> Result<(Part, &'a [Placed]), Stop>
    requires kind { plain.semicolons start.kind ≡ false }
    requires fits { bounds.least ≤ 10 }
    requires room { 2 ≤ bounds.room }
    requires most { bounds.room ≤ most_nesting }
    requires nest { start.nest ≡ nest (opening_tree start) }
    requires nested { start.nest < bounds.room }
    requires read { Leads bounds.least bounds.room Need (bare next.tokens.now)
        (need_in (body (opening_tree start))) (bare inside.now) }
    requires places { OpeningReads next.tokens.now start inside.now }
    requires place { next.token.now.at ≡ first_at next.tokens.now }
    requires shorter { length inside.now ≤ length next.tokens.now }
    ensures operand { IfOk result (λ x. IsPart bounds.room x.0) }
    ensures places { IfOk result (λ x. Reads next.entry.tokens.now x.0.tree x.1.now) }
    ensures read { MatchResult result (λ x. Leads bounds.least bounds.room Need
        (bare next.entry.tokens.now) (at (tree_of x.0.tree.node)) (bare x.1.now))
        (λ e. Errs bounds.least bounds.room Need (bare next.entry.tokens.now) e) }
    ensures shorter { IfOk result (λ x. length x.1.now ≤ length next.entry.tokens.now) }
{
    let (only, rest) = match operand(alloc, inside, 1, bounds.room - 1) {
        Ok(found) => found,
        Err(e) => return Err(e),
    };
    let Some(behind) = after_mark(rest, Mark::CloseBrace) else {
        return Err(Stop::Syntax(rest.len()));
    };
    let nest = start.nest.max(only.nest) + 1;
    let mut body = Vec::new(alloc);
    body.push(only.tree)?;
    let tree = start.made(alloc, next.token.at, body)?;
    Ok((
        Part {
            tree,
            level: 10,
            nest,
        },
        behind,
    ))
}

/// Reads the bodies of a quantifier whose bodies have semicolons.
#[tactic(auto, using(crate::proofs::Quants::first_item, crate::proofs::Quants::chain_one, crate::proofs::Placing::no_bodies, crate::proofs::Placing::more_bodies))]
#[cycle(read)]
fn many<'a>(
    alloc: Global,
    start: Opening,
    next: Next<'a>,
    inside: &'a [Placed],
    bounds: Bounds,
) -> Result<(Part, &'a [Placed]), Stop>
    requires kind { plain.semicolons start.kind ≡ true }
    requires fits { bounds.least ≤ 10 }
    requires room { 2 ≤ bounds.room }
    requires most { bounds.room ≤ most_nesting }
    requires nest { start.nest ≡ nest (opening_tree start) }
    requires nested { start.nest < bounds.room }
    requires read { Leads bounds.least bounds.room Need (bare next.tokens.now)
        (need_in (body (opening_tree start))) (bare inside.now) }
    requires places { OpeningReads next.tokens.now start inside.now }
    requires place { next.token.now.at ≡ first_at next.tokens.now }
    requires shorter { length inside.now ≤ length next.tokens.now }
    ensures operand { IfOk result (λ x. IsPart bounds.room x.0) }
    ensures places { IfOk result (λ x. Reads next.entry.tokens.now x.0.tree x.1.now) }
    ensures read { MatchResult result (λ x. Leads bounds.least bounds.room Need
        (bare next.entry.tokens.now) (at (tree_of x.0.tree.node)) (bare x.1.now))
        (λ e. Errs bounds.least bounds.room Need (bare next.entry.tokens.now) e) }
    ensures shorter { IfOk result (λ x. length x.1.now ≤ length next.entry.tokens.now) }
{
    let kind = start.kind;
    let (first, behind) = match item(alloc, inside, bounds.room) {
        Ok(found) => found,
        Err(e) => return Err(e),
    };
    let mut nest = start.nest.max(first.nest);
    let mut body = Vec::new(alloc);
    body.push(first.tree)?;
    let mut rest = behind;
    'body: loop {
        if let Some(behind) = after_mark(rest, Mark::CloseBrace) {
            if !may_end(kind, body.len()) {
                return Err(Stop::Syntax(rest.len()));
            }
            let tree = start.made(alloc, next.token.at, body)?;
            return Ok((
                Part {
                    tree,
                    level: 10,
                    nest: nest + 1,
                },
                behind,
            ));
        }
        if !may_more(kind, body.len()) {
            return Err(Stop::Syntax(rest.len()));
        }
        let (another, behind) = match item(alloc, rest, bounds.room) {
            Ok(found) => found,
            Err(e) => return Err(e),
        };
        nest = nest.max(another.nest);
        body.push(another.tree)?;
        rest = behind;
    }
}
