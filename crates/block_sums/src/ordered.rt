//! A few terms as a sum in good order.
ghost use Rattle.std.specs.Prelude.{◌≡◌, ◌<◌, ◌≤◌, ◌+◌, ◌+ℤ◌, ◌*ℤ◌, ℕ, ℤ, List, length, slice_index_or, unsigned_abs, IfOk};
ghost use Rattle.std.specs.List.{All};
ghost use Rattle.ground_form.specs.Meaning.{value_of, sum_at};
ghost use Rattle.ground_form.specs.Bounds.{term_weight, weight_of, most_sum};
ghost use Rattle.form_build.specs.Forms.{linear_at};
ghost use Rattle.form_build.specs.Worlds.{IsInBoxes};
ghost use Rattle.form_build.specs.Sums.{IsLinear};

use form_build::{Linear, Maker, variable};
use std::alloc::AllocError;

/// A sum with a term more.
fn with_term(b: &Maker, sum: &Linear, t: (i64, u32)) -> Result<Linear, AllocError>
    requires sum { IsLinear most_sum b.now.domains sum.now }
    requires exists { t.1 < length b.now.domains }
    requires bounded { term_weight t b.now.domains ≤ most_sum }
    ensures value { IfOk result (λ r. (a : List ℤ) → IsInBoxes b.now.domains a
        → linear_at r a ≡ linear_at sum.now a +ℤ (t.0 *ℤ value_of a t.1)) }
    ensures linear { IfOk result (λ r. (n : ℕ) → IsLinear n b.now.domains sum.now
        → IsLinear (n + term_weight t b.now.domains) b.now.domains r) }
{
    let x = variable(b, t.1)?;
    let term = x.times(b.alloc(), t.0)?;
    let more = sum.plus(b.alloc(), &term)?;
    Ok(more)
}

/// The term of this number.
fn term_at(terms: &[(i64, u32)], i: usize) -> (i64, u32)
    requires { i < length terms.now }
    ensures { (d : ℤ × ℕ) → result ≡ slice_index_or terms.now i d }
{
    terms[i]
}

/// The sum of the terms and the offset, in good order. It takes time in the square of the terms.
pub(crate) fn ordered_sum(
    b: &Maker,
    terms: &[(i64, u32)],
    offset: i64,
) -> Result<Linear, AllocError>
    requires exist { All (λ t. t.1 < length b.now.domains) terms.now }
    requires bounded { weight_of terms.now b.now.domains + unsigned_abs offset ≤ most_sum }
    ensures value { IfOk result (λ r. (a : List ℤ) → IsInBoxes b.now.domains a
        → linear_at r a ≡ sum_at terms.now a +ℤ offset) }
    ensures linear { IfOk result (λ r. IsLinear
        (weight_of terms.now b.now.domains + unsigned_abs offset) b.now.domains r) }
{
    let mut sum = Linear::number(b.alloc(), offset);
    for i in 0..terms.len() {
        let t = term_at(terms, i);
        sum = with_term(b, &sum, t)?;
    }
    Ok(sum)
}
