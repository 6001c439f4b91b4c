//! Small questions about numbers, each with its exact answer.
ghost use Rattle.std.specs.Prelude.{◌≡◌, ◌<ℤ◌, ◌+ℤ◌, pos, int_lt, int_le};
ghost use Rattle.std.specs.Int.{int_max, int_min};

use ground_form::Number;

/// The greater of two numbers.
pub fn greater(a: Number, b: Number) -> Number
    ensures { result.value ≡ int_max a.value b.value }
{
    if b.value < a.value { a } else { b }
}

/// The smaller of two numbers.
pub fn smaller(a: Number, b: Number) -> Number
    ensures { result.value ≡ int_min a.value b.value }
{
    if b.value < a.value { b } else { a }
}

/// Whether a number is below another.
pub fn is_below(a: Number, b: Number) -> bool
    ensures { result ≡ int_lt a.value b.value }
{
    a.value < b.value
}

/// Whether a number is at most another.
pub fn is_at_most(a: Number, b: Number) -> bool
    ensures { result ≡ int_le a.value b.value }
{
    a.value <= b.value
}

/// The next number, below `last`.
pub fn next(n: Number, last: Number) -> Number
    requires { n.value <ℤ last.value }
    ensures { result.value ≡ n.value +ℤ pos 1 }
{
    Number { value: n.value + 1 }
}

/// Where the range begins.
pub fn start_of(r: (i64, i64)) -> Number
    ensures { result.value ≡ r.0 }
{
    Number { value: r.0 }
}

/// Where the range ends.
pub fn end_of(r: (i64, i64)) -> Number
    ensures { result.value ≡ r.1 }
{
    Number { value: r.1 }
}
