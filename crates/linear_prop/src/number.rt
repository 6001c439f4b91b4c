//! Numbers of 64 bits whose sums and products don't wrap.
//!
//! The terms of a row weigh at most 2^61, so its sums, and how far one of its terms can rise, stay
//! within 64 bits. A coefficient has 128: the opposite of -2^63 may stand before a variable that is
//! 0. Its products fit 64 as well.
ghost use Rattle.std.specs.Prelude.{◌≡◌, ◌+◌, ◌*◌, ◌^◌, ◌≤◌, ◌<◌, ℤ, pos, negsuc, ◌+ℤ◌, ◌-ℤ◌, ◌*ℤ◌, ◌≤ℤ◌, ◌<ℤ◌, int_lt, unsigned_abs};
ghost use Rattle.std.specs.Int.{int_max, int_min};

/// A number in a computation.
#[derive(Clone, Copy)]
pub struct WideNumber {
    /// The number.
    pub value: i64,
}

impl WideNumber {
    /// The number.
    pub fn of(v: i64) -> WideNumber
        ensures value { result.value ≡ v }
        ensures from { negsuc 9223372036854775807 ≤ℤ result.value }
        ensures upto { result.value ≤ℤ pos 9223372036854775807 }
    {
        WideNumber { value: v }
    }

    /// The sum.
    pub fn plus(self, o: WideNumber) -> WideNumber
        requires { unsigned_abs self.value + unsigned_abs o.value < 2 ^ 63 }
        ensures { result.value ≡ self.value +ℤ o.value }
    {
        WideNumber {
            value: self.value + o.value,
        }
    }

    /// The difference.
    pub fn minus(self, o: WideNumber) -> WideNumber
        requires { unsigned_abs self.value + unsigned_abs o.value < 2 ^ 63 }
        ensures { result.value ≡ self.value -ℤ o.value }
    {
        WideNumber {
            value: self.value - o.value,
        }
    }

    /// The number before it.
    pub fn previous(self) -> WideNumber
        requires { negsuc 9223372036854775807 <ℤ self.value }
        ensures { result.value ≡ self.value -ℤ pos 1 }
    {
        WideNumber {
            value: self.value - 1,
        }
    }

    /// The number behind it.
    pub fn next(self) -> WideNumber
        requires { self.value <ℤ pos 9223372036854775807 }
        ensures { result.value ≡ self.value +ℤ pos 1 }
    {
        WideNumber {
            value: self.value + 1,
        }
    }

    /// The smaller one.
    pub fn smaller(self, o: WideNumber) -> WideNumber
        ensures { result.value ≡ int_min self.value o.value }
    {
        if o.value < self.value { o } else { self }
    }

    /// The greater one.
    pub fn greater(self, o: WideNumber) -> WideNumber
        ensures { result.value ≡ int_max self.value o.value }
    {
        if o.value < self.value { self } else { o }
    }

    /// Whether this one is below the other.
    pub fn is_below(self, o: WideNumber) -> bool
        ensures { result ≡ int_lt self.value o.value }
    {
        self.value < o.value
    }

    /// How far the number lies from another.
    pub fn apart(self, o: WideNumber) -> u64
        ensures { result ≡ unsigned_abs (self.value -ℤ o.value) }
    {
        self.value.abs_diff(o.value)
    }

    /// The number so many steps further up.
    pub fn raised(self, steps: u64) -> WideNumber
        requires { (self.value +ℤ pos steps) ≤ℤ pos 9223372036854775807 }
        ensures { result.value ≡ self.value +ℤ pos steps }
    {
        WideNumber {
            value: self.value.saturating_add_unsigned(steps),
        }
    }

    /// The number so many steps further down.
    pub fn lowered(self, steps: u64) -> WideNumber
        requires { negsuc 9223372036854775807 ≤ℤ (self.value -ℤ pos steps) }
        ensures { result.value ≡ self.value -ℤ pos steps }
    {
        WideNumber {
            value: self.value.saturating_sub_unsigned(steps),
        }
    }

    /// By how much this number is above another.
    pub fn above(self, o: WideNumber) -> u64
        requires { o.value ≤ℤ self.value }
        ensures { pos result ≡ self.value -ℤ o.value }
    {
        self.value.abs_diff(o.value)
    }
}

/// The coefficient of a term.
#[derive(Clone, Copy)]
pub struct Factor {
    /// The number.
    pub value: i128,
}

impl Factor {
    /// The product with a number.
    pub fn times(self, o: WideNumber) -> WideNumber
        requires { unsigned_abs self.value * unsigned_abs o.value < 2 ^ 63 }
        ensures { result.value ≡ self.value *ℤ o.value }
    {
        WideNumber {
            value: (self.value * o.value as i128) as i64,
        }
    }

    /// How far the product moves where the number moves by so many steps.
    pub fn moves(self, steps: u64) -> u64
        requires small { unsigned_abs self.value ≤ 2 ^ 63 }
        requires fits { unsigned_abs self.value * steps < 2 ^ 64 }
        ensures { result ≡ unsigned_abs self.value * steps }
    {
        self.size() * steps
    }

    /// The absolute value.
    pub fn size(self) -> u64
        requires { unsigned_abs self.value ≤ 2 ^ 63 }
        ensures { result ≡ unsigned_abs self.value }
    {
        self.value.unsigned_abs() as u64
    }
}
