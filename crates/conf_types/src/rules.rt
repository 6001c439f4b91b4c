//! What each kind of expression makes of its parts, once these are typed.
ghost use Rattle.std.specs.Prelude.{◌≡◌, ◌<◌, ◌+◌, ℕ, List, Option, [], ◌∷◌, true, false, length, position, Contains, Some, None, IfOk, IfErr, IfSome, IfNone, OnErr, OnOk};
ghost use Rattle.class_table.specs.Outline.{Outline};
ghost use Rattle.class_table.specs.Same.{same_name};
ghost use Rattle.conf_syntax.specs.declared.token.Ident.{Ident as AnIdent};
ghost use Rattle.conf_types.specs.Checked.{told, scope_of, IsRead, IsFilter, AreBodies, IsScope, IsSenseOf, IsTypeOf};
ghost use Rattle.conf_types.specs.Programs.{OnFault};
ghost use Rattle.conf_types.specs.Readings.{Reading, number_reading, truth_reading, this_reading, word_reading, over_reading, paren_reading, minus_reading, not_reading, value_reading, values_of, found_reading, attribute_reading, pair_reading, list_class, shadow, quantifier_reading};
ghost use Rattle.conf_types.specs.Types.{meets, shape_type, quant_result};
ghost use Rattle.conf_types.specs.Scopes.{AClass, Nothing, within};
ghost use Rattle.conf_types.specs.Operators.{class_of, left_by, right_by, made_by};

use crate::operators::{is_linear, keeps_literal, result_of, takes};
use crate::scope::{Found, Scope, Sense, attribute_of, scope_within};
use crate::types::{meets, quant_result, shape_type};
use crate::{ExprType, Need, RExpr, RNode, RQuant, TypeFault};
use class_table::ClassTable;
use conf_syntax::{Ident, Name, Op, QuantKind};
use std::alloc::{AllocError, Global};

/// A typed expression: what it is resolved to, its type, the place of its first token, and whether
/// it is built of literals.
#[derive(Drop)]
pub(crate) struct Checked {
    pub expr: RExpr,
    pub kind: ExprType,
    pub first: u32,
    pub literal: bool,
}

/// A number.
pub(crate) fn number(at: u32, value: u32) -> Checked
    ensures read { IsRead result (number_reading at value) }
    ensures kind { result.kind ≡ ExprType.Int }
{
    Checked {
        expr: RExpr {
            at,
            node: RNode::Number(value),
        },
        kind: ExprType::Int,
        first: at,
        literal: true,
    }
}

/// An expression that isn't built of literals and begins at its own place.
fn plain(at: u32, node: RNode, kind: ExprType) -> Checked
    ensures node { result.expr.node ≡ node }
    ensures at { result.expr.at ≡ at }
    ensures kind { result.kind ≡ kind }
    ensures first { result.first ≡ at }
    ensures literal { result.literal ≡ false }
{
    Checked {
        expr: RExpr { at, node },
        kind,
        first: at,
        literal: false,
    }
}

/// A truth value.
pub(crate) fn truth(at: u32, value: bool) -> Checked
    ensures read { IsRead result (truth_reading at value) }
    ensures kind { result.kind ≡ ExprType.Truth }
{
    plain(at, RNode::Truth(value), ExprType::Truth)
}

/// `this`, in this class or in none.
pub(crate) fn this(at: u32, class: Option<u32>) -> Result<Checked, TypeFault>
    ensures read { IfOk result (λ x. IsRead x (this_reading at class)) }
    ensures exists { (o : Outline) → IfSome class (λ c. c < length o.classes)
        → IfOk result (λ x. IsTypeOf o x.kind) }
    ensures fault { IfErr result (λ f. OnFault f (λ g. Contains (this_reading at class).faults g)) }
{
    match class {
        Some(class) => Ok(plain(at, RNode::This, ExprType::Object(class))),
        None => Err(TypeFault::Unknown(at)),
    }
}

/// A word alone.
pub(crate) fn word(at: u32, sense: Sense) -> Result<Checked, TypeFault>
    ensures read { IfOk result (λ x. IsRead x (word_reading at (told sense))) }
    ensures exists { (o : Outline) → IsSenseOf o sense → IfOk result (λ x. IsTypeOf o x.kind) }
    ensures fault { IfErr result (λ f. OnFault f
        (λ g. Contains (word_reading at (told sense)).faults g)) }
{
    match sense {
        Sense::Local(distance, class) => Ok(plain(
            at,
            RNode::Local(distance),
            ExprType::Object(class),
        )),
        Sense::Own(number, shape) => Ok(plain(at, RNode::Own(number, shape), shape_type(shape))),
        Sense::Root(number, shape) => Ok(plain(at, RNode::Root(number, shape), shape_type(shape))),
        Sense::Enumeration(_) | Sense::Class(_) | Sense::Nothing => Err(TypeFault::Unknown(at)),
    }
}

/// A class behind `in`.
pub(crate) fn class(at: u32, class: u32) -> Checked
    ensures read { (r : Reading) → IsRead result (over_reading at (AClass class) r) }
    ensures kind { result.kind ≡ ExprType.Class class }
{
    plain(at, RNode::Class(class), ExprType::Class(class))
}

/// Refuses an expression of a type that isn't the one that is needed.
pub(crate) fn require(x: &Checked, need: Need) -> Result<(), TypeFault>
    ensures met { OnOk result (meets need x.now.kind ≡ true) }
    ensures unmet { OnErr result (meets need x.now.kind ≡ false) }
    ensures fault { IfErr result (λ f. f ≡ TypeFault.WrongType x.now.first) }
{
    if meets(need, x.kind) {
        Ok(())
    } else {
        Err(TypeFault::WrongType(x.first))
    }
}

/// An expression in parentheses.
pub(crate) fn paren(alloc: Global, at: u32, x: Checked) -> Result<Checked, TypeFault>
    ensures read { (r : Reading) → IsRead x r → IfOk result (λ y. IsRead y (paren_reading at r)) }
    ensures kind { IfOk result (λ y. y.kind ≡ x.kind) }
    ensures fault { IfErr result (λ f. f ≡ TypeFault.Memory) }
{
    Ok(Checked {
        expr: RExpr {
            at,
            node: RNode::Paren(Box::new(alloc, x.expr)?),
        },
        kind: x.kind,
        first: at,
        literal: x.literal,
    })
}

/// `-` before an integer.
pub(crate) fn minus(alloc: Global, at: u32, x: Checked) -> Result<Checked, TypeFault>
    requires met { meets Need.Int x.kind ≡ true }
    ensures read { (r : Reading) → IsRead x r → IfOk result (λ y. IsRead y (minus_reading at r)) }
    ensures kind { IfOk result (λ y. y.kind ≡ ExprType.Int) }
    ensures fault { IfErr result (λ f. f ≡ TypeFault.Memory) }
{
    Ok(Checked {
        expr: RExpr {
            at,
            node: RNode::Minus(Box::new(alloc, x.expr)?),
        },
        kind: ExprType::Int,
        first: at,
        literal: x.literal,
    })
}

/// `not` before a truth value.
pub(crate) fn negation(alloc: Global, at: u32, x: Checked) -> Result<Checked, TypeFault>
    requires met { meets Need.Truth x.kind ≡ true }
    ensures read { (r : Reading) → IsRead x r → IfOk result (λ y. IsRead y (not_reading at r)) }
    ensures kind { IfOk result (λ y. y.kind ≡ ExprType.Truth) }
    ensures fault { IfErr result (λ f. f ≡ TypeFault.Memory) }
{
    Ok(plain(at, RNode::Not(Box::new(alloc, x.expr)?), ExprType::Truth))
}

/// A value of an enumeration, by its name.
pub(crate) fn value(
    table: &ClassTable,
    at: u32,
    enumeration: u32,
    name: &Ident,
) -> Result<Checked, TypeFault>
    requires exists { enumeration < length table.now.enumerations }
    ensures read { IfOk result (λ y. IsRead y (value_reading at enumeration name.now
        (position (same_name name.now.name) (values_of table.now enumeration)))) }
    ensures kind { IfOk result (λ y. y.kind ≡ ExprType.Choice enumeration) }
    ensures fault { IfErr result (λ f. OnFault f
        (λ g. Contains (value_reading at enumeration name.now (position (same_name name.now.name)
        (values_of table.now enumeration))).faults g)) }
{
    match table.value_of(enumeration, &name.name) {
        Some(value) => Ok(plain(
            at,
            RNode::Value(enumeration, value),
            ExprType::Choice(enumeration),
        )),
        None => Err(TypeFault::Unknown(name.at)),
    }
}

/// An attribute of an object, which was found.
fn dotted(alloc: Global, at: u32, x: Checked, found: Found) -> Result<Checked, TypeFault>
    ensures read { (r : Reading) (name : AnIdent) → IsRead x r
        → IfOk result (λ y. IsRead y (found_reading at r name (Some found))) }
    ensures kind { IfOk result (λ y. y.kind ≡ shape_type found.shape) }
    ensures fault { IfErr result (λ f. f ≡ TypeFault.Memory) }
{
    Ok(Checked {
        expr: RExpr {
            at,
            node: RNode::Dot(Box::new(alloc, x.expr)?, found.number, found.shape),
        },
        kind: shape_type(found.shape),
        first: x.first,
        literal: false,
    })
}

/// An attribute of an object, by its name.
pub(crate) fn attribute(
    alloc: Global,
    table: &ClassTable,
    at: u32,
    x: Checked,
    name: &Ident,
) -> Result<Checked, TypeFault>
    requires exists { IsTypeOf table.now x.kind }
    ensures read { (r : Reading) → IsRead x r
        → IfOk result (λ y. IsRead y (attribute_reading table.now at r name.now r.type)) }
    ensures exists { IfOk result (λ y. IsTypeOf table.now y.kind) }
    ensures fault { IfErr result (λ f. OnFault f (λ g. (r : Reading) → IsRead x r
        → Contains (attribute_reading table.now at r name.now r.type).faults g)) }
{
    match x.kind {
        ExprType::Object(class) => match attribute_of(table, class, &name.name) {
            Some(found) => dotted(alloc, at, x, found),
            None => Err(TypeFault::Unknown(name.at)),
        },
        ExprType::Int
        | ExprType::Truth
        | ExprType::Choice(_)
        | ExprType::Objects(_)
        | ExprType::Class(_) => Err(TypeFault::WrongType(x.first)),
    }
}

/// Two sides of an operator, each of which meets its need.
pub(crate) fn pair(
    alloc: Global,
    at: u32,
    op: Op,
    left: Checked,
    right: Checked,
) -> Result<Checked, TypeFault>
    requires left { meets (left_by (class_of op)) left.kind ≡ true }
    requires right { meets (right_by (class_of op)) right.kind ≡ true }
    ensures read { (l r : Reading) → IsRead left l → IsRead right r
        → IfOk result (λ y. IsRead y (pair_reading at op l r)) }
    ensures kind { IfOk result (λ y. y.kind ≡ made_by (class_of op)) }
    ensures fault { IfErr result (λ f. OnFault f (λ g. (l r : Reading) → IsRead left l
        → IsRead right r → Contains (pair_reading at op l r).faults g)) }
{
    if !takes(op, left.kind, right.kind) {
        return Err(TypeFault::WrongType(left.first));
    }
    if !is_linear(op, left.literal, right.literal) {
        return Err(TypeFault::NonLinear(at));
    }
    Ok(Checked {
        expr: RExpr {
            at,
            node: RNode::Pair(
                op,
                Box::new(alloc, left.expr)?,
                Box::new(alloc, right.expr)?,
            ),
        },
        kind: result_of(op),
        first: left.first,
        literal: keeps_literal(op) && left.literal && right.literal,
    })
}

/// The class of a quantifier's variable.
pub(crate) fn list_class(kind: ExprType) -> Option<u32>
    ensures class { result ≡ list_class (Some kind) }
    ensures exists { (o : Outline) → IsTypeOf o kind → IfSome result (λ c. c < length o.classes) }
    ensures none { meets Need.List kind ≡ true → IfNone result ⊥ }
{
    match kind {
        ExprType::Objects(class) | ExprType::Class(class) => Some(class),
        ExprType::Int | ExprType::Truth | ExprType::Choice(_) | ExprType::Object(_) => None,
    }
}

/// The scope inside of a quantifier over what has this type.
pub(crate) fn scope_over<'a>(
    alloc: Global,
    table: &ClassTable,
    scope: &Scope<'a>,
    name: &'a Name,
    kind: ExprType,
) -> Result<Scope<'a>, AllocError>
    requires scope { IsScope table.now scope.now }
    requires exists { IsTypeOf table.now kind }
    requires met { meets Need.List kind ≡ true }
    ensures scope { IfOk result (λ inner. scope_of inner ≡ within (scope_of scope.now) name.now
        (list_class (Some kind))) }
    ensures more { IfOk result (λ inner. length inner.locals.items ≡ length scope.now.locals.items
        + 1) }
    ensures exists { IfOk result (λ inner. IsScope table.now inner) }
{
    match list_class(kind) {
        Some(class) => match scope_within(alloc, scope, name, class) {
            Ok(inner) => Ok(inner),
            Err(error) => Err(error),
        },
        None => unreachable!(),
    }
}

/// Refuses the name of a quantifier's variable, where it means something already.
pub(crate) fn unknown(sense: Sense, at: u32) -> Result<(), TypeFault>
    ensures nothing { OnOk result (told sense ≡ Nothing) }
    ensures fault { IfErr result (λ f. shadow at (told sense) ≡ f ∷ []) }
{
    match sense {
        Sense::Nothing => Ok(()),
        Sense::Local(_, _)
        | Sense::Own(_, _)
        | Sense::Root(_, _)
        | Sense::Enumeration(_)
        | Sense::Class(_) => Err(TypeFault::Shadow(at)),
    }
}

/// A quantifier over a list, with its filter and its bodies.
pub(crate) fn quantifier(
    alloc: Global,
    at: u32,
    kind: QuantKind,
    over: Checked,
    filter: Option<RExpr>,
    body: Vec<RExpr>,
) -> Result<Checked, TypeFault>
    requires met { meets Need.List over.kind ≡ true }
    ensures read { (name_at : ℕ) (r : Reading) (f : Option Reading) (b : List Reading)
        → IsRead over r → IsFilter filter f → AreBodies kind body.items b 0
        → IfOk result (λ y. IsRead y (quantifier_reading at kind name_at Nothing r f b)) }
    ensures kind { IfOk result (λ y. y.kind ≡ quant_result kind) }
    ensures fault { IfErr result (λ f. f ≡ TypeFault.Memory) }
{
    let quant = Box::new(
        alloc,
        RQuant {
            kind,
            over: over.expr,
            filter,
            body,
        },
    )?;
    Ok(plain(at, RNode::Quant(quant), quant_result(kind)))
}
