//! The classes of operators, and what an operator needs of its sides and makes of them, by its
//! class.
ghost use Rattle.std.specs.Prelude.{◌≡◌};
ghost use Rattle.conf_types.specs.Operators.{class_of, is_linear, is_in, left_by, right_by, taken_by, made_by, makes_numbers};

use crate::types::{ExprType, Need, is_comparable, is_int};
use conf_syntax::Op;

/// The classes of operators. Those of one class need and make the same.
#[derive(Clone, Copy, Debug, PartialEq, Eq)]
pub enum OpClass {
    /// `->`, `or`, `and`.
    Logic,
    /// `=`, `!=`.
    Equality,
    /// `<`, `<=`, `>`, `>=`.
    Order,
    /// `in`.
    Member,
    /// `+`, `-`.
    Sum,
    /// `*`.
    Product,
}

/// The class of an operator.
pub fn class_of(op: Op) -> OpClass
    ensures { result ≡ class_of op }
{
    match op {
        Op::Implies | Op::Or | Op::And => OpClass::Logic,
        Op::Eq | Op::Ne => OpClass::Equality,
        Op::Lt | Op::Le | Op::Gt | Op::Ge => OpClass::Order,
        Op::In => OpClass::Member,
        Op::Add | Op::Sub => OpClass::Sum,
        Op::Mul => OpClass::Product,
    }
}

/// What an operator needs of its left side.
pub(crate) fn left_need(op: Op) -> Need
    ensures { result ≡ left_by (class_of op) }
{
    match class_of(op) {
        OpClass::Logic => Need::Truth,
        OpClass::Equality => Need::Any,
        OpClass::Order | OpClass::Sum | OpClass::Product => Need::Int,
        OpClass::Member => Need::Object,
    }
}

/// What an operator needs of its right side.
pub(crate) fn right_need(op: Op) -> Need
    ensures { result ≡ right_by (class_of op) }
{
    match class_of(op) {
        OpClass::Logic => Need::Truth,
        OpClass::Equality => Need::Any,
        OpClass::Order | OpClass::Sum | OpClass::Product => Need::Int,
        OpClass::Member => Need::List,
    }
}

/// Whether a comparison takes a pair of such types. What isn't a comparison takes all pairs that
/// meet its needs.
pub(crate) fn takes(op: Op, left: ExprType, right: ExprType) -> bool
    ensures { result ≡ taken_by (class_of op) left right }
{
    match class_of(op) {
        OpClass::Equality => is_comparable(left, right),
        OpClass::Order => is_int(left) && is_int(right),
        OpClass::Logic | OpClass::Member | OpClass::Sum | OpClass::Product => true,
    }
}

/// The type of what an operator makes.
pub(crate) fn result_of(op: Op) -> ExprType
    ensures { result ≡ made_by (class_of op) }
{
    match class_of(op) {
        OpClass::Sum | OpClass::Product => ExprType::Int,
        OpClass::Logic | OpClass::Equality | OpClass::Order | OpClass::Member => ExprType::Truth,
    }
}

/// Whether what the operator makes of two sides that are built of literals is so too.
pub(crate) fn keeps_literal(op: Op) -> bool
    ensures { result ≡ makes_numbers (class_of op) }
{
    match class_of(op) {
        OpClass::Sum | OpClass::Product => true,
        OpClass::Logic | OpClass::Equality | OpClass::Order | OpClass::Member => false,
    }
}

/// Whether the operator takes such sides: `*` takes them where one is built of literals.
pub(crate) fn is_linear(op: Op, left: bool, right: bool) -> bool
    ensures { result ≡ is_linear op left right }
{
    match op {
        Op::Mul => left || right,
        _ => true,
    }
}

pub(crate) fn is_in(op: Op) -> bool
    ensures { result ≡ is_in op }
{
    match op {
        Op::In => true,
        _ => false,
    }
}
