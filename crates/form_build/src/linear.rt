//! Sums: a number, a variable, two sums together, and one times a number.
//!
//! None of these calls looks at the problem in the making but for the boxes of its variables, and
//! none changes it.
ghost use Rattle.std.specs.Prelude.{◌≡◌, ◌<◌, ◌≤◌, ◌+◌, ◌^◌, ◌*◌, ◌+ℤ◌, ◌*ℤ◌, ◌≤ℤ◌, ℕ, ℤ, pos, List, length, unsigned_abs, IfOk};
ghost use Rattle.std.specs.Int.{int_max, int_min};
ghost use Rattle.signed_clause.specs.Clauses.{Boxes, box_of};
ghost use Rattle.ground_form.specs.Meaning.{value_of};
ghost use Rattle.ground_form.specs.Bounds.{low_of, high_of, reach_of};
ghost use Rattle.form_build.specs.Forms.{linear_at};
ghost use Rattle.form_build.specs.Worlds.{IsInBoxes};
ghost use Rattle.form_build.specs.Sums.{least_linear, greatest_linear, IsLinear, LiesFrom, AreNumbersWithin};

use crate::form::Linear;
use crate::terms::{merged, scaled};
use ground_form::{Terms, ends_of};
use signed_clause::IntSet;
use std::alloc::{AllocError, Global};

impl Linear {
    /// These terms and this offset.
    pub fn of(terms: Vec<(i64, u32)>, offset: i64) -> Linear
        ensures terms { result.terms ≡ terms.items }
        ensures offset { result.offset ≡ offset }
    {
        Linear {
            terms: Terms::of(terms),
            offset,
        }
    }

    /// A number. It takes no memory.
    pub fn number(alloc: Global, value: i64) -> Linear
        ensures value { (a : List ℤ) → linear_at result a ≡ value }
        ensures linear { (boxes : Boxes) → IsLinear (unsigned_abs value) boxes result }
        ensures lies { (boxes : Boxes) → LiesFrom value value boxes result }
    {
        Linear::of(Vec::new(alloc), value)
    }

    /// Both sums together.
    pub fn plus(&self, alloc: Global, o: &Linear) -> Result<Linear, AllocError>
        requires left { AreNumbersWithin 1 (2 ^ 61) self.now }
        requires right { AreNumbersWithin 1 (2 ^ 61) o.now }
        ensures value { IfOk result (λ r. (a : List ℤ)
            → linear_at r a ≡ linear_at self.now a +ℤ linear_at o.now a) }
        ensures linear { IfOk result (λ r. (boxes : Boxes) (m n : ℕ)
            → IsLinear m boxes self.now → IsLinear n boxes o.now → IsLinear (m + n) boxes r) }
        ensures low { IfOk result (λ r. (boxes : Boxes)
            → (least_linear self.now boxes +ℤ least_linear o.now boxes) ≤ℤ least_linear r boxes) }
        ensures high { IfOk result (λ r. (boxes : Boxes) → greatest_linear r boxes
            ≤ℤ (greatest_linear self.now boxes +ℤ greatest_linear o.now boxes)) }
    {
        let terms = merged(alloc, self.terms.items(), o.terms.items())?;
        Ok(Linear::of(terms, sum(self.offset, o.offset)))
    }

    /// The sum times a number.
    pub fn times(&self, alloc: Global, c: i64) -> Result<Linear, AllocError>
        requires numbers { AreNumbersWithin (unsigned_abs c) (2 ^ 62) self.now }
        ensures value { IfOk result (λ r. (a : List ℤ)
            → linear_at r a ≡ c *ℤ linear_at self.now a) }
        ensures linear { IfOk result (λ r. (boxes : Boxes) (n : ℕ)
            → IsLinear n boxes self.now → IsLinear (unsigned_abs c * n) boxes r) }
        ensures low { IfOk result (λ r. (boxes : Boxes) → int_min (c *ℤ least_linear self.now boxes)
            (c *ℤ greatest_linear self.now boxes) ≤ℤ least_linear r boxes) }
        ensures high { IfOk result (λ r. (boxes : Boxes) → greatest_linear r boxes
            ≤ℤ int_max (c *ℤ least_linear self.now boxes) (c *ℤ greatest_linear self.now boxes)) }
    {
        if c == 0 {
            return Ok(Linear::number(alloc, 0));
        }
        let terms = scaled(alloc, c, self.terms.items())?;
        Ok(Linear::of(terms, product(c, self.offset)))
    }
}

/// A sum that fits.
fn sum(v: i64, w: i64) -> i64
    requires left { unsigned_abs v ≤ 2 ^ 61 }
    requires right { unsigned_abs w ≤ 2 ^ 61 }
    ensures { result ≡ v +ℤ w }
{
    v + w
}

/// A product that fits.
fn product(c: i64, v: i64) -> i64
    requires { unsigned_abs c * unsigned_abs v ≤ 2 ^ 62 }
    ensures { result ≡ c *ℤ v }
{
    c * v
}
