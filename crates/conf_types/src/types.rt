//! Types, what a place needs of the type of the expression that stands there, and the tables of
//! both for quantifiers.
ghost use Rattle.std.specs.Prelude.{◌≡◌};
ghost use Rattle.conf_types.specs.Types.{meets, shape_type, is_comparable, body_need, quant_result, is_int, is_truth, is_object, is_choice, is_list};

use class_table::Resolved;
use conf_syntax::QuantKind;

/// The type of an expression. Classes and enumerations are the numbers of the class table.
#[derive(Clone, Copy, Debug, PartialEq, Eq)]
pub enum ExprType {
    Int,
    Truth,
    /// A value of this enumeration.
    Choice(u32),
    /// An object of this class.
    Object(u32),
    /// A list of objects of this class. It may stand behind `in` alone.
    Objects(u32),
    /// This class, for all its objects. It may stand behind `in` alone.
    Class(u32),
}

/// What a place needs of an expression's type.
#[derive(Clone, Copy, Debug, PartialEq, Eq)]
pub enum Need {
    Int,
    Truth,
    /// An object of any class.
    Object,
    /// An integer, a truth value, a value of an enumeration or an object.
    Value,
    /// A list or a class.
    List,
    /// Any type.
    Any,
}

/// The type of what has this shape.
pub(crate) fn shape_type(shape: Resolved) -> ExprType
    ensures { result ≡ shape_type shape }
{
    match shape {
        Resolved::Span(_, _) => ExprType::Int,
        Resolved::Truth => ExprType::Truth,
        Resolved::Choice(enumeration) => ExprType::Choice(enumeration),
        Resolved::One(class) | Resolved::Ref(class) => ExprType::Object(class),
        Resolved::Many(class, _) | Resolved::RefSet(class, _) => ExprType::Objects(class),
    }
}

pub(crate) fn is_int(kind: ExprType) -> bool
    ensures { result ≡ is_int kind }
{
    match kind {
        ExprType::Int => true,
        ExprType::Truth
        | ExprType::Choice(_)
        | ExprType::Object(_)
        | ExprType::Objects(_)
        | ExprType::Class(_) => false,
    }
}

fn is_truth(kind: ExprType) -> bool
    ensures { result ≡ is_truth kind }
{
    match kind {
        ExprType::Truth => true,
        ExprType::Int
        | ExprType::Choice(_)
        | ExprType::Object(_)
        | ExprType::Objects(_)
        | ExprType::Class(_) => false,
    }
}

fn is_choice(enumeration: u32, kind: ExprType) -> bool
    ensures { result ≡ is_choice enumeration kind }
{
    match kind {
        ExprType::Choice(other) => enumeration == other,
        ExprType::Int
        | ExprType::Truth
        | ExprType::Object(_)
        | ExprType::Objects(_)
        | ExprType::Class(_) => false,
    }
}

fn is_object(kind: ExprType) -> bool
    ensures { result ≡ is_object kind }
{
    match kind {
        ExprType::Object(_) => true,
        ExprType::Int
        | ExprType::Truth
        | ExprType::Choice(_)
        | ExprType::Objects(_)
        | ExprType::Class(_) => false,
    }
}

fn is_list(kind: ExprType) -> bool
    ensures { result ≡ is_list kind }
{
    match kind {
        ExprType::Objects(_) | ExprType::Class(_) => true,
        ExprType::Int | ExprType::Truth | ExprType::Choice(_) | ExprType::Object(_) => false,
    }
}

/// Whether the type is the one that is needed.
pub(crate) fn meets(need: Need, kind: ExprType) -> bool
    ensures { result ≡ meets need kind }
{
    match need {
        Need::Int => is_int(kind),
        Need::Truth => is_truth(kind),
        Need::Object => is_object(kind),
        Need::Value => !is_list(kind),
        Need::List => is_list(kind),
        Need::Any => true,
    }
}

/// Whether `=` and `!=` take a pair of such types.
pub(crate) fn is_comparable(left: ExprType, right: ExprType) -> bool
    ensures { result ≡ is_comparable left right }
{
    match left {
        ExprType::Int => is_int(right),
        ExprType::Truth => is_truth(right),
        ExprType::Choice(enumeration) => is_choice(enumeration, right),
        ExprType::Object(_) => is_object(right),
        ExprType::Objects(_) | ExprType::Class(_) => false,
    }
}

/// What a quantifier needs of its body number k.
pub(crate) fn body_need(kind: QuantKind, k: usize) -> Need
    ensures { result ≡ body_need kind k }
{
    match kind {
        QuantKind::Forall | QuantKind::Exists | QuantKind::Count => Need::Truth,
        QuantKind::Sum => Need::Int,
        QuantKind::AllDifferent => Need::Value,
        QuantKind::Pack => { if k == 0 { Need::Object } else { Need::Int } }
    }
}

/// The type of a quantifier.
pub(crate) fn quant_result(kind: QuantKind) -> ExprType
    ensures { result ≡ quant_result kind }
{
    match kind {
        QuantKind::Sum | QuantKind::Count => ExprType::Int,
        QuantKind::Forall | QuantKind::Exists | QuantKind::AllDifferent | QuantKind::Pack => {
            ExprType::Truth
        }
    }
}
