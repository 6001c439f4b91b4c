//! Sums of 128 bits, which as many values of 64 bits as a list can have don't fill.
ghost use Rattle.std.specs.Prelude.{◌≡◌, ◌≤ℤ◌, ◌^◌, ◌-◌, ◌+ℤ◌, pos, int_lt};

use ground_form::Number;

/// A sum of many numbers.
#[derive(Clone, Copy)]
pub struct WideSum {
    /// It.
    pub value: i128,
}

impl WideSum {
    /// The sum with one more number.
    pub fn plus(self, n: Number) -> WideSum
        requires low { pos 0 ≤ℤ (self.value +ℤ pos (2 ^ 127 - 2 ^ 63)) }
        requires high { self.value ≤ℤ pos (2 ^ 127 - 2 ^ 63) }
        ensures sum { result.value ≡ self.value +ℤ n.value }
        ensures low { self.value ≤ℤ (result.value +ℤ pos (2 ^ 63)) }
        ensures high { result.value ≤ℤ (self.value +ℤ pos (2 ^ 63 - 1)) }
    {
        WideSum {
            value: self.value + i128::from(n.value),
        }
    }

    /// Whether the number is below the sum.
    pub fn is_above(self, n: Number) -> bool
        ensures { result ≡ int_lt n.value self.value }
    {
        i128::from(n.value) < self.value
    }

    /// Whether the other sum is below this one.
    pub fn is_more_than(self, o: WideSum) -> bool
        ensures { result ≡ int_lt o.value self.value }
    {
        o.value < self.value
    }
}
