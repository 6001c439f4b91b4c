//! Reads variables and their shapes, which stand at the top level and in classes.
ghost use Rattle.std.specs.Prelude.{◌≡◌, ◌<◌, ◌≤◌, length, IfOk, MatchResult};
ghost use Rattle.conf_syntax.specs.Places.{bare};
ghost use Rattle.conf_syntax.specs.Plain.{Named, Counted};
ghost use Rattle.conf_syntax.specs.Views.{end_of, shape_of};
ghost use Rattle.conf_grammar.specs.Leads.{Turns, IsNot, IsNotWord, home_low};
ghost use Rattle.conf_parse.specs.Cursor.{Takes, Names};
ghost use Rattle.conf_parse.specs.Standing.{VarReads, ShapeReads, LowReads, HighReads, CountReads, named_shape, counted_shape};
ghost use Rattle.conf_parse.specs.Turnings.{TurnErrs, naming_low, shape_at, high_at, count_at, var_end, home_at, home_and, var_of};

use crate::cursor::{after_key, after_mark, first_at, word_at};
use crate::row::{fixed, named, number_at, numbered};
use crate::stop::Stop;
use conf_grammar::Piece;
use conf_syntax::{Bound, Ident, Key, Mark, Name, Placed, Shape, Token, VarDecl};
use std::alloc::Global;

/// The shape of a name, with `ref` or without.
fn plain_shape(is_ref: bool, ident: Ident) -> Shape
    ensures made { result ≡ named_shape is_ref ident }
    ensures tree { shape_of result ≡ Named is_ref ident.name }
{
    if is_ref {
        Shape::Ref(ident)
    } else {
        Shape::Named(ident)
    }
}

/// The shape of a name with a count, with `ref` or without.
fn counted_shape(is_ref: bool, ident: Ident, count: u32) -> Shape
    ensures made { result ≡ counted_shape is_ref ident count }
    ensures tree { shape_of result ≡ Counted is_ref ident.name count }
{
    if is_ref {
        Shape::RefSet(ident, count)
    } else {
        Shape::Many(ident, count)
    }
}

/// Reads what stands behind the name of a shape.
fn counted(is_ref: bool, ident: Ident, tokens: &[Placed]) -> Result<(Shape, &[Placed]), Stop>
    ensures places { IfOk result (λ x. CountReads is_ref ident tokens.now x.0 x.1.now) }
    ensures read { MatchResult result (λ x. Turns naming_low (count_at is_ref ident.name)
        (bare tokens.now) (var_end (shape_of x.0)) (bare x.1.now))
        (λ e. TurnErrs naming_low (count_at is_ref ident.name) (bare tokens.now) e) }
    ensures shorter { IfOk result (λ x. length x.1.now ≤ length tokens.now) }
{
    if let Some(rest) = after_mark(tokens, Mark::Semicolon) {
        return Ok((plain_shape(is_ref, ident), rest));
    }
    let Some(after) = after_mark(tokens, Mark::OpenBracket) else {
        return Err(Stop::Syntax(tokens.len()));
    };
    match numbered(after, &[Piece::CloseBracket, Piece::Semicolon]) {
        Ok((count, _, rest)) => Ok((counted_shape(is_ref, ident, count), rest)),
        Err(left) => Err(Stop::Syntax(left)),
    }
}

/// Reads the high end of a range.
fn high_end(low: Bound, tokens: &[Placed]) -> Result<(Shape, &[Placed]), Stop>
    ensures places { IfOk result (λ x. HighReads low tokens.now x.0 x.1.now) }
    ensures read { MatchResult result (λ x. Turns naming_low (high_at (end_of low))
        (bare tokens.now) (var_end (shape_of x.0)) (bare x.1.now))
        (λ e. TurnErrs naming_low (high_at (end_of low)) (bare tokens.now) e) }
    ensures shorter { IfOk result (λ x. length x.1.now ≤ length tokens.now) }
{
    if let Some((value, at, after)) = number_at(tokens) {
        let high = Bound {
            at,
            minus: false,
            value,
        };
        return match fixed(after, &[Piece::Semicolon]) {
            Ok(rest) => Ok((Shape::Range(low, high), rest)),
            Err(left) => Err(Stop::Syntax(left)),
        };
    }
    let Some(after) = after_mark(tokens, Mark::Minus) else {
        return Err(Stop::Syntax(tokens.len()));
    };
    match numbered(after, &[Piece::Semicolon]) {
        Ok((value, _, rest)) => {
            let high = Bound {
                at: first_at(tokens),
                minus: true,
                value,
            };
            Ok((Shape::Range(low, high), rest))
        }
        Err(left) => Err(Stop::Syntax(left)),
    }
}

/// Reads the low end of a range and the points behind it; no other shape begins here.
fn low_end(tokens: &[Placed]) -> Result<(Bound, &[Placed]), Stop>
    requires word { IsNotWord (bare tokens.now) }
    requires int { IsNot (Token.Key Key.Int) (bare tokens.now) }
    requires bool { IsNot (Token.Key Key.Bool) (bare tokens.now) }
    requires ref_key { IsNot (Token.Key Key.Ref) (bare tokens.now) }
    ensures places { IfOk result (λ x. LowReads tokens.now x.0 x.1.now) }
    ensures read { MatchResult result (λ x. Turns naming_low shape_at (bare tokens.now)
        (high_at (end_of x.0)) (bare x.1.now)) (λ e. TurnErrs naming_low shape_at (bare tokens.now)
        e) }
    ensures shorter { IfOk result (λ x. length x.1.now ≤ length tokens.now) }
{
    if let Some((value, at, after)) = number_at(tokens) {
        let low = Bound {
            at,
            minus: false,
            value,
        };
        return match fixed(after, &[Piece::DotDot]) {
            Ok(rest) => Ok((low, rest)),
            Err(left) => Err(Stop::Syntax(left)),
        };
    }
    let Some(after) = after_mark(tokens, Mark::Minus) else {
        return Err(Stop::Syntax(tokens.len()));
    };
    match numbered(after, &[Piece::DotDot]) {
        Ok((value, _, rest)) => {
            let low = Bound {
                at: first_at(tokens),
                minus: true,
                value,
            };
            Ok((low, rest))
        }
        Err(left) => Err(Stop::Syntax(left)),
    }
}

/// Reads the shape behind `ref`.
#[tactic(auto, using(crate::proofs::Shapes::ref_part, crate::proofs::Shapes::ref_error, crate::proofs::Shapes::ref_miss, crate::proofs::Standing::ref_stands))]
fn referred<'a>(
    alloc: Global,
    tokens: &'a [Placed],
    after: &'a [Placed],
) -> Result<(Shape, &'a [Placed]), Stop>
    requires { Takes tokens.now (Token.Key Key.Ref) after.now }
    ensures places { IfOk result (λ x. ShapeReads tokens.now x.0 x.1.now) }
    ensures read { MatchResult result (λ x. Turns naming_low shape_at (bare tokens.now)
        (var_end (shape_of x.0)) (bare x.1.now)) (λ e. TurnErrs naming_low shape_at
        (bare tokens.now) e) }
    ensures shorter { IfOk result (λ x. length x.1.now ≤ length tokens.now) }
{
    let (name, at, rest) = match named(after, &[]) {
        Ok(found) => found,
        Err(left) => return Err(Stop::Syntax(left)),
    };
    let name = Name::of(alloc, name.as_bytes())?;
    counted(true, Ident { name, at }, rest)
}

/// Reads the shape that begins with a name.
#[tactic(auto, using(crate::proofs::Shapes::word_part, crate::proofs::Shapes::word_error, crate::proofs::Standing::word_stands))]
fn worded<'a>(
    alloc: Global,
    tokens: &'a [Placed],
    name: &'a Name,
    place: u32,
    after: &'a [Placed],
) -> Result<(Shape, &'a [Placed]), Stop>
    requires { Names tokens.now name.now place after.now }
    ensures places { IfOk result (λ x. ShapeReads tokens.now x.0 x.1.now) }
    ensures read { MatchResult result (λ x. Turns naming_low shape_at (bare tokens.now)
        (var_end (shape_of x.0)) (bare x.1.now)) (λ e. TurnErrs naming_low shape_at
        (bare tokens.now) e) }
    ensures shorter { IfOk result (λ x. length x.1.now ≤ length tokens.now) }
{
    let name = Name::of(alloc, name.as_bytes())?;
    counted(false, Ident { name, at: place }, after)
}

/// Reads a shape and its semicolon.
#[tactic(auto, using(crate::proofs::Shapes::range_part, crate::proofs::Shapes::range_error, crate::proofs::Standing::range_stands))]
fn shape(alloc: Global, tokens: &[Placed]) -> Result<(Shape, &[Placed]), Stop>
    ensures places { IfOk result (λ x. ShapeReads tokens.now x.0 x.1.now) }
    ensures read { MatchResult result (λ x. Turns naming_low shape_at (bare tokens.now)
        (var_end (shape_of x.0)) (bare x.1.now)) (λ e. TurnErrs naming_low shape_at
        (bare tokens.now) e) }
    ensures shorter { IfOk result (λ x. length x.1.now ≤ length tokens.now) }
{
    if let Some((name, at, after)) = word_at(tokens) {
        return worded(alloc, tokens, name, at, after);
    }
    if let Some(after) = after_key(tokens, Key::Int) {
        return match fixed(after, &[Piece::Semicolon]) {
            Ok(rest) => Ok((Shape::Int, rest)),
            Err(left) => Err(Stop::Syntax(left)),
        };
    }
    if let Some(after) = after_key(tokens, Key::Bool) {
        return match fixed(after, &[Piece::Semicolon]) {
            Ok(rest) => Ok((Shape::Bool, rest)),
            Err(left) => Err(Stop::Syntax(left)),
        };
    }
    if let Some(after) = after_key(tokens, Key::Ref) {
        return referred(alloc, tokens, after);
    }
    let (low, rest) = match low_end(tokens) {
        Ok(found) => found,
        Err(e) => return Err(e),
    };
    high_end(low, rest)
}

/// Reads the variable behind `var`.
pub fn var_decl<'a>(
    alloc: Global,
    tokens: &'a [Placed],
    after: &'a [Placed],
) -> Result<(VarDecl, &'a [Placed]), Stop>
    requires { Takes tokens.now (Token.Key Key.Var) after.now }
    ensures places { IfOk result (λ x. VarReads tokens.now x.0 x.1.now) }
    ensures read { MatchResult result (λ x. Turns home_low home_at (bare tokens.now)
        (home_and (var_of x.0)) (bare x.1.now)) (λ e. TurnErrs home_low home_at (bare tokens.now)
        e) }
    ensures shorter { IfOk result (λ x. length x.1.now < length tokens.now) }
{
    let (name, at, mid) = match named(after, &[Piece::As]) {
        Ok(found) => found,
        Err(left) => return Err(Stop::Syntax(left)),
    };
    let name = Name::of(alloc, name.as_bytes())?;
    let (shape, rest) = match shape(alloc, mid) {
        Ok(found) => found,
        Err(e) => return Err(e),
    };
    let name = Ident { name, at };
    Ok((VarDecl { name, shape }, rest))
}
