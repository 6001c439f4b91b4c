//! Operators between two values.
ghost use Rattle.std.specs.Prelude.{◌≡◌};
ghost use Rattle.conf_eval.specs.Fitting.{IsNarrow};
ghost use Rattle.conf_eval.specs.Meaning.{operate, int_of};

use crate::value::{Value, int_of, is_listed, object_of, same_value, truth_of};
use conf_syntax::Op;

/// What an operator makes of two values.
pub(crate) fn operate(op: Op, left: &Value, right: &Value) -> Value
    requires number { IsNarrow (int_of (operate op left.now right.now)) }
    ensures value { result ≡ operate op left.now right.now }
{
    match op {
        Op::Implies => Value::Truth(!truth_of(left) || truth_of(right)),
        Op::Or => Value::Truth(truth_of(left) || truth_of(right)),
        Op::And => Value::Truth(truth_of(left) && truth_of(right)),
        Op::Eq => Value::Truth(same_value(left, right)),
        Op::Ne => Value::Truth(!same_value(left, right)),
        Op::Lt => Value::Truth(int_of(left) < int_of(right)),
        Op::Le => Value::Truth(int_of(left) <= int_of(right)),
        Op::Gt => Value::Truth(int_of(right) < int_of(left)),
        Op::Ge => Value::Truth(int_of(right) <= int_of(left)),
        Op::In => Value::Truth(is_listed(right, object_of(left))),
        Op::Add => Value::Int(int_of(left) + int_of(right)),
        Op::Sub => Value::Int(int_of(left) - int_of(right)),
        Op::Mul => Value::Int(int_of(left) * int_of(right)),
    }
}
