//! `Row`, an inequality that is read from a constraint's terms without a copy.
//!
//! A row says that a sum is at most a bound. Its terms are those of a list, or these with their
//! signs turned, and before them there may be one term more.
ghost use Rattle.std.specs.Prelude.{◌≡◌, ◌<◌, ◌≤◌, ◌^◌, pos, length, slice_index_or, unsigned_abs};
ghost use Rattle.linear_prop.specs.Rows.{turned, terms_of};

use crate::number::{Factor, WideNumber};

/// The sum of terms is at most a bound.
#[derive(Clone, Copy)]
pub struct Row<'a> {
    /// The term before the others: a coefficient and a variable.
    pub head: Option<(i64, u32)>,
    /// The other terms.
    pub terms: &'a [(i64, u32)],
    /// Whether the signs of the other terms are turned.
    pub turned: bool,
    /// The bound.
    pub bound: WideNumber,
}

/// The term, or it with its sign turned.
fn turn(is_turned: bool, t: (i64, u32)) -> (i128, u32)
    ensures term { result ≡ turned is_turned t }
    ensures small { unsigned_abs result.0 ≤ 2 ^ 63 }
{
    if is_turned {
        (0 - t.0 as i128, t.1)
    } else {
        (t.0 as i128, t.1)
    }
}

/// The term of the list at the index.
fn listed(terms: &[(i64, u32)], i: usize) -> (i64, u32)
    requires { i < length terms.now }
    ensures { result ≡ slice_index_or terms.now i (pos 0, 0) }
{
    terms[i]
}

impl<'a> Row<'a> {
    /// How many terms there are.
    pub fn len(&self) -> usize
        ensures { result ≡ length (terms_of self.now) }
    {
        match self.head {
            Some(_) => self.terms.len() + 1,
            None => self.terms.len(),
        }
    }

    /// The term at the index.
    pub fn term(&self, i: usize) -> (i128, u32)
        requires { i < length (terms_of self.now) }
        ensures term { (d : _) → result ≡ slice_index_or (terms_of self.now) i d }
        ensures small { unsigned_abs result.0 ≤ 2 ^ 63 }
    {
        match self.head {
            None => turn(self.turned, listed(self.terms, i)),
            Some(t) => {
                if i == 0 {
                    (t.0 as i128, t.1)
                } else {
                    turn(self.turned, listed(self.terms, i - 1))
                }
            }
        }
    }
}

/// The coefficient of a term.
pub fn factor_of(t: (i128, u32)) -> Factor
    ensures { result.value ≡ t.0 }
{
    Factor { value: t.0 }
}
