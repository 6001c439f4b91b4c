//! Reads what stands at the top level: enumerations, classes, variables, constraints and goals.
ghost use Rattle.std.specs.Prelude.{◌≡◌, ◌≢◌, ◌≤◌, ◌<◌, length, IfOk, IfSome, MatchResult, MatchOption, true, false};
ghost use Rattle.model_limits.specs.Limits.{most_nesting};
ghost use Rattle.conf_syntax.specs.Places.{bare};
ghost use Rattle.conf_syntax.specs.Plain as plain;
ghost use Rattle.conf_syntax.specs.Plain.{Enum, Class, NoMember, member_nest, members_nest, item_nest, nesting};
ghost use Rattle.conf_syntax.specs.Standing.{InRow, ItemStands, item_size};
ghost use Rattle.conf_syntax.specs.Views.{enum_of, members_from, member_of, parent_of, item_of, program_of};
ghost use Rattle.conf_grammar.specs.Machine.{reading, start, Whole};
ghost use Rattle.conf_grammar.specs.Leads.{Turns, home_low};
ghost use Rattle.conf_parse.specs.Cursor.{Takes};
ghost use Rattle.conf_parse.specs.Standing.{EnumReads, ParentReads, MemberReads, ClassBodyReads, ClassReads, TopLevelReads};
ghost use Rattle.conf_parse.specs.Turnings.{TurnErrs, IsFault, home_at, home_and, program_at, program_and, class_at, in_class, IsNoMember};

use crate::cursor::{after_key, after_mark};
use crate::declaration::var_decl;
use crate::row::{fixed, named};
use crate::statement::{goal_decl, where_decl};
use crate::stop::Stop;
use conf_grammar::Piece;
use conf_syntax::{
    ClassDecl, EnumDecl, Ident, Idents, Item, Key, Mark, Member, Members, Name, Placed, Token,
};
use std::alloc::Global;

/// Reads the enumeration behind `enum`.
#[tactic(auto, using(crate::proofs::Items::enum_begun, crate::proofs::Items::enum_ended))]
fn enum_decl<'a>(
    alloc: Global,
    tokens: &'a [Placed],
    after: &'a [Placed],
) -> Result<(EnumDecl, &'a [Placed]), Stop>
    requires { Takes tokens.now (Token.Key Key.Enum) after.now }
    ensures places { IfOk result (λ x. EnumReads tokens.now x.0 x.1.now) }
    ensures read { MatchResult result (λ x. Turns nesting program_at (bare tokens.now)
        (program_and (enum_of x.0.name.name x.0.values)) (bare x.1.now))
        (λ e. TurnErrs nesting program_at (bare tokens.now) e) }
    ensures shorter { IfOk result (λ x. length x.1.now < length tokens.now) }
{
    let (name, at, mid) = match named(after, &[Piece::OpenBrace]) {
        Ok(found) => found,
        Err(left) => return Err(Stop::Syntax(left)),
    };
    let (value, place, behind) = match named(mid, &[]) {
        Ok(found) => found,
        Err(left) => return Err(Stop::Syntax(left)),
    };
    let name = Ident {
        name: Name::of(alloc, name.as_bytes())?,
        at,
    };
    let mut values = Vec::new(alloc);
    values.push(Ident {
        name: Name::of(alloc, value.as_bytes())?,
        at: place,
    })?;
    let mut rest = behind;
    'values: loop {
        if let Some(further) = after_mark(rest, Mark::Comma) {
            let (value, place, behind) = match named(further, &[]) {
                Ok(found) => found,
                Err(left) => return Err(Stop::Syntax(left)),
            };
            values.push(Ident {
                name: Name::of(alloc, value.as_bytes())?,
                at: place,
            })?;
            rest = behind;
        } else {
            let Some(behind) = after_mark(rest, Mark::CloseBrace) else {
                return Err(Stop::Syntax(rest.len()));
            };
            let values = Idents::of(values);
            return Ok((EnumDecl { name, values }, behind));
        }
    }
}

/// Reads what may stand between a class's name and its first member.
#[tactic(auto, using(crate::proofs::Items::parent_part, crate::proofs::Items::parent_miss, crate::proofs::Items::orphan_part, crate::proofs::Items::orphan_none, crate::proofs::StandingItems::parent_stands, crate::proofs::StandingItems::orphan_stands))]
fn parent<'a>(
    alloc: Global,
    is_abstract: bool,
    name: &Ident,
    tokens: &'a [Placed],
) -> Result<(Option<Ident>, &'a [Placed]), Stop>
    ensures places { IfOk result (λ x. ParentReads tokens.now x.0 x.1.now) }
    ensures read { MatchResult result (λ x. Turns nesting (class_at is_abstract name.now.name)
        (bare tokens.now) (in_class is_abstract name.now.name (parent_of x.0) NoMember)
        (bare x.1.now)) (λ e. TurnErrs nesting (class_at is_abstract name.now.name)
        (bare tokens.now) e) }
    ensures shorter { IfOk result (λ x. length x.1.now < length tokens.now) }
{
    if let Some(after) = after_key(tokens, Key::Extends) {
        let (word, at, rest) = match named(after, &[Piece::OpenBrace]) {
            Ok(found) => found,
            Err(left) => return Err(Stop::Syntax(left)),
        };
        let word = Name::of(alloc, word.as_bytes())?;
        return Ok((Some(Ident { name: word, at }), rest));
    }
    match after_mark(tokens, Mark::OpenBrace) {
        Some(rest) => Ok((None, rest)),
        None => Err(Stop::Syntax(tokens.len())),
    }
}

/// Reads a member, if one begins here.
#[tactic(auto, using(crate::proofs::StandingItems::member_var, crate::proofs::StandingItems::member_where))]
fn member(alloc: Global, tokens: &[Placed]) -> Result<Option<(Member, &[Placed])>, Stop>
    ensures places { IfOk result (λ o. IfSome o (λ x. MemberReads tokens.now x.0 x.1.now)) }
    ensures read { MatchResult result (λ o. MatchOption o (IsNoMember (bare tokens.now))
        (λ x. Turns home_low home_at (bare tokens.now) (home_and (member_of x.0)) (bare x.1.now)))
        (λ e. TurnErrs home_low home_at (bare tokens.now) e) }
    ensures nested { IfOk result (λ o. IfSome o (λ x. member_nest (member_of x.0) ≤ most_nesting)) }
    ensures shorter { IfOk result (λ o. IfSome o (λ x. length x.1.now < length tokens.now)) }
{
    if let Some(after) = after_key(tokens, Key::Var) {
        let (decl, rest) = match var_decl(alloc, tokens, after) {
            Ok(found) => found,
            Err(e) => return Err(e),
        };
        return Ok(Some((Member::Var(decl), rest)));
    }
    if let Some(after) = after_key(tokens, Key::Where) {
        let (decl, rest) = match where_decl(alloc, tokens, after) {
            Ok(found) => found,
            Err(e) => return Err(e),
        };
        return Ok(Some((Member::Where(decl), rest)));
    }
    Ok(None)
}

/// Reads a class from behind its name.
#[tactic(auto, using(crate::proofs::Items::member_part, crate::proofs::Items::member_error, crate::proofs::Items::member_nests, crate::proofs::Items::members_none, crate::proofs::Items::member_none, crate::proofs::Items::class_end, crate::proofs::StandingItems::members_begin))]
fn class_body<'a>(
    alloc: Global,
    is_abstract: bool,
    name: Ident,
    tokens: &'a [Placed],
) -> Result<(ClassDecl, &'a [Placed]), Stop>
    ensures places { IfOk result (λ x. ClassBodyReads is_abstract name tokens.now x.0 x.1.now) }
    ensures read { MatchResult result (λ x. Turns nesting (class_at is_abstract name.name)
        (bare tokens.now) (program_and (Class x.0.is_abstract x.0.name.name (parent_of x.0.parent)
        (members_from NoMember x.0.members))) (bare x.1.now))
        (λ e. TurnErrs nesting (class_at is_abstract name.name) (bare tokens.now) e) }
    ensures nested { IfOk result (λ x. members_nest (members_from NoMember x.0.members)
        ≤ most_nesting) }
    ensures shorter { IfOk result (λ x. length x.1.now < length tokens.now) }
{
    let (parent, inside) = match parent(alloc, is_abstract, &name, tokens) {
        Ok(found) => found,
        Err(e) => return Err(e),
    };
    let mut list = Vec::new(alloc);
    let mut rest = inside;
    'members: loop {
        let found = match member(alloc, rest) {
            Ok(found) => found,
            Err(e) => return Err(e),
        };
        let Some((next, behind)) = found else {
            let Some(behind) = after_mark(rest, Mark::CloseBrace) else {
                return Err(Stop::Syntax(rest.len()));
            };
            let members = Members::of(list);
            let class = ClassDecl {
                is_abstract,
                name,
                parent,
                members,
            };
            return Ok((class, behind));
        };
        list.push(next)?;
        rest = behind;
    }
}

/// Reads the class behind `class`.
#[tactic(auto, using(crate::proofs::Items::class_miss, crate::proofs::Items::class_named, crate::proofs::Items::class_part, crate::proofs::Items::class_error, crate::proofs::StandingItems::plain_class))]
fn class_decl<'a>(
    alloc: Global,
    tokens: &'a [Placed],
    after: &'a [Placed],
) -> Result<(ClassDecl, &'a [Placed]), Stop>
    requires { Takes tokens.now (Token.Key Key.Class) after.now }
    ensures places { IfOk result (λ x. ClassReads tokens.now x.0 x.1.now) }
    ensures read { MatchResult result (λ x. Turns nesting program_at (bare tokens.now)
        (program_and (Class x.0.is_abstract x.0.name.name (parent_of x.0.parent)
        (members_from NoMember x.0.members))) (bare x.1.now)) (λ e. TurnErrs nesting program_at
        (bare tokens.now) e) }
    ensures nested { IfOk result (λ x. members_nest (members_from NoMember x.0.members)
        ≤ most_nesting) }
    ensures shorter { IfOk result (λ x. length x.1.now < length tokens.now) }
{
    let (word, at, mid) = match named(after, &[]) {
        Ok(found) => found,
        Err(left) => return Err(Stop::Syntax(left)),
    };
    let name = Name::of(alloc, word.as_bytes())?;
    class_body(alloc, false, Ident { name, at }, mid)
}

/// Reads the class behind `abstract`.
#[tactic(auto, using(crate::proofs::Items::abstract_miss, crate::proofs::Items::abstract_name_miss, crate::proofs::Items::abstract_named, crate::proofs::Items::class_part, crate::proofs::Items::class_error, crate::proofs::StandingItems::abstract_class))]
fn abstract_decl<'a>(
    alloc: Global,
    tokens: &'a [Placed],
    after: &'a [Placed],
) -> Result<(ClassDecl, &'a [Placed]), Stop>
    requires { Takes tokens.now (Token.Key Key.Abstract) after.now }
    ensures places { IfOk result (λ x. ClassReads tokens.now x.0 x.1.now) }
    ensures read { MatchResult result (λ x. Turns nesting program_at (bare tokens.now)
        (program_and (Class x.0.is_abstract x.0.name.name (parent_of x.0.parent)
        (members_from NoMember x.0.members))) (bare x.1.now)) (λ e. TurnErrs nesting program_at
        (bare tokens.now) e) }
    ensures nested { IfOk result (λ x. members_nest (members_from NoMember x.0.members)
        ≤ most_nesting) }
    ensures shorter { IfOk result (λ x. length x.1.now < length tokens.now) }
{
    let mid = match fixed(after, &[Piece::Class]) {
        Ok(mid) => mid,
        Err(left) => return Err(Stop::Syntax(left)),
    };
    let (word, at, behind) = match named(mid, &[]) {
        Ok(found) => found,
        Err(left) => return Err(Stop::Syntax(left)),
    };
    let name = Name::of(alloc, word.as_bytes())?;
    class_body(alloc, true, Ident { name, at }, behind)
}

/// Reads an item.
pub fn item(alloc: Global, tokens: &[Placed]) -> Result<(Item, &[Placed]), Stop>
    requires { length tokens.now ≢ 0 }
    ensures places { IfOk result (λ x. TopLevelReads tokens.now x.0 x.1.now) }
    ensures read { MatchResult result (λ x. Turns nesting program_at (bare tokens.now)
        (program_and (item_of x.0)) (bare x.1.now)) (λ e. TurnErrs nesting program_at
        (bare tokens.now) e) }
    ensures nested { IfOk result (λ x. item_nest (item_of x.0) ≤ most_nesting) }
    ensures shorter { IfOk result (λ x. length x.1.now < length tokens.now) }
{
    if let Some(after) = after_key(tokens, Key::Enum) {
        return match enum_decl(alloc, tokens, after) {
            Ok((decl, rest)) => Ok((Item::Enum(decl), rest)),
            Err(e) => Err(e),
        };
    }
    if let Some(after) = after_key(tokens, Key::Abstract) {
        return match abstract_decl(alloc, tokens, after) {
            Ok((decl, rest)) => Ok((Item::Class(decl), rest)),
            Err(e) => Err(e),
        };
    }
    if let Some(after) = after_key(tokens, Key::Class) {
        return match class_decl(alloc, tokens, after) {
            Ok((decl, rest)) => Ok((Item::Class(decl), rest)),
            Err(e) => Err(e),
        };
    }
    if let Some(after) = after_key(tokens, Key::Var) {
        return match var_decl(alloc, tokens, after) {
            Ok((decl, rest)) => Ok((Item::Var(decl), rest)),
            Err(e) => Err(e),
        };
    }
    if let Some(after) = after_key(tokens, Key::Where) {
        return match where_decl(alloc, tokens, after) {
            Ok((decl, rest)) => Ok((Item::Where(decl), rest)),
            Err(e) => Err(e),
        };
    }
    if let Some(after) = after_key(tokens, Key::Maximize) {
        return match goal_decl(alloc, true, tokens, after) {
            Ok((decl, rest)) => Ok((Item::Goal(decl), rest)),
            Err(e) => Err(e),
        };
    }
    if let Some(after) = after_key(tokens, Key::Minimize) {
        return match goal_decl(alloc, false, tokens, after) {
            Ok((decl, rest)) => Ok((Item::Goal(decl), rest)),
            Err(e) => Err(e),
        };
    }
    Err(Stop::Syntax(tokens.len()))
}

/// Reads the items of a model.
#[tactic(auto, using(crate::proofs::Items::all_more, crate::proofs::Items::all_nest, crate::proofs::Items::all_start, crate::proofs::Items::none_nest, crate::proofs::Items::all_end, crate::proofs::Items::all_error, crate::proofs::Standing::row_begins))]
pub fn items(alloc: Global, tokens: &[Placed]) -> Result<Vec<Item>, Stop>
    ensures places { IfOk result (λ v. InRow ItemStands item_size tokens.now v.items) }
    ensures read { MatchResult result (λ v. reading (bare tokens.now) most_nesting start
        ≡ Whole (program_of v.items)) (λ e. IsFault (bare tokens.now) e) }
{
    let mut list = Vec::new(alloc);
    let mut rest = tokens;
    while !rest.is_empty() {
        let (next, behind) = match item(alloc, rest) {
            Ok(found) => found,
            Err(e) => return Err(e),
        };
        list.push(next)?;
        rest = behind;
    }
    Ok(list)
}
