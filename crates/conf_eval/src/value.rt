//! Values of expressions, and where an expression is evaluated.
ghost use Rattle.std.specs.Prelude.{◌≡◌, nat_eq};
ghost use Rattle.std.specs.List.{list_any};
ghost use Rattle.conf_eval.specs.Meaning.{int_of, truth_of, object_of, objects_of, same_value};

use object_alloc::ObjectList;

/// The value of an expression.
#[derive(Drop)]
pub enum Value {
    Int(i64),
    Truth(bool),
    /// A value of an enumeration: the enumeration's number, the value's number in it.
    Choice(u32, u32),
    /// An object, by its number.
    Object(u32),
    /// A list of objects, by their numbers.
    Objects(ObjectList),
}

/// The objects of the names in scope: `this`, and the variables of the quantifiers round an
/// expression, the innermost last.
#[derive(Drop)]
pub struct Env {
    pub this_object: Option<u32>,
    pub vars: ObjectList,
}

/// The integer, 0 where the value is none.
pub(crate) fn int_of(value: &Value) -> i64
    ensures int { result ≡ int_of value.now }
{
    match value {
        Value::Int(number) => *number,
        Value::Truth(_) | Value::Choice(_, _) | Value::Object(_) | Value::Objects(_) => 0,
    }
}

/// The truth value, false where the value is none.
pub(crate) fn truth_of(value: &Value) -> bool
    ensures truth { result ≡ truth_of value.now }
{
    match value {
        Value::Truth(truth) => *truth,
        Value::Int(_) | Value::Choice(_, _) | Value::Object(_) | Value::Objects(_) => false,
    }
}

/// The object's number, 0 where the value is no object.
pub(crate) fn object_of(value: &Value) -> u32
    ensures object { result ≡ object_of value.now }
{
    match value {
        Value::Object(object) => *object,
        Value::Int(_) | Value::Truth(_) | Value::Choice(_, _) | Value::Objects(_) => 0,
    }
}

/// Whether an object stands in a list.
pub(crate) fn lists(list: &ObjectList, object: u32) -> bool
    ensures lists { result ≡ list_any (nat_eq object) list.now }
{
    for other in list.items() {
        if object == *other {
            return true;
        }
    }
    false
}

/// Whether an object stands in the list that a value is; in another value stands none.
pub(crate) fn is_listed(value: &Value, object: u32) -> bool
    ensures listed { result ≡ list_any (nat_eq object) (objects_of value.now) }
{
    match value {
        Value::Objects(list) => lists(list, object),
        Value::Int(_) | Value::Truth(_) | Value::Choice(_, _) | Value::Object(_) => false,
    }
}

/// Whether two values are equal: numbers, truth values, values of one enumeration, or the same
/// object.
pub(crate) fn same_value(left: &Value, right: &Value) -> bool
    ensures same { result ≡ same_value left.now right.now }
{
    match (left, right) {
        (Value::Int(v), Value::Int(w)) => v == w,
        (Value::Truth(a), Value::Truth(b)) => a == b,
        (Value::Choice(d, j), Value::Choice(e, k)) => d == e && j == k,
        (Value::Object(x), Value::Object(y)) => x == y,
        _ => false,
    }
}
