//! Comparisons of long sums of cells, stated of a variable that is the sum, made of blocks.
//!
//! An end of a term is explained by all other terms of its row, so a search that sets n cells one
//! by one may keep n * n / 2 literals. Rows of flags and products stay whole, since packings and
//! goals are read off them.
ghost use Rattle.std.specs.Prelude.{◌≡◌, ℤ, List, [], IfOk, OnOk, IfSome, IfNone};
ghost use Rattle.form_build.specs.Worlds.{IsWorld, Adds, Defines};
ghost use Rattle.form_truths.specs.Tests.{test_at, IsTest};

use block_sums::with_one_term;
use form_build::{Linear, Maker};
use form_truths::{Test, state};
use std::alloc::AllocError;

/// How many cells one row has at most.
const MOST_CELLS: usize = 64;

/// Whether more than so many of the terms are cells.
fn has_cells(search: u32, terms: &[(i64, u32)], most: usize) -> bool {
    let mut left = most;
    for t in terms {
        if t.1 < search {
            if left == 0 {
                return true;
            }
            left -= 1;
        }
    }
    false
}

/// Whether the sum has many cells.
fn is_long(m: &Maker, f: &Linear) -> bool {
    has_cells(m.search(), f.terms.items(), MOST_CELLS)
}

/// The comparison of one variable, where it compares a long sum of cells.
fn short_test(m: &mut Maker, test: &Test) -> Result<Option<Test>, AllocError>
    requires test { IsTest m.old.domains test.now }
    ensures test { IfOk result (λ o. IfSome o (λ t. IsTest m.new.domains t)) }
    ensures value { IfOk result (λ o. IfSome o (λ t. (a : List ℤ) → IsWorld m.new a
        → test_at t a ≡ test_at test.now a)) }
    ensures adds { IfOk result (λ o. Defines m.old m.new) }
    ensures none { IfOk result (λ o. IfNone o (m.new ≡ m.old)) }
{
    match test {
        Test::AtMost(f) => {
            if !is_long(m, f) {
                return Ok(None);
            }
            let g = with_one_term(m, f)?;
            Ok(Some(Test::AtMost(g)))
        }
        Test::Zero(f, want) => {
            if !is_long(m, f) {
                return Ok(None);
            }
            let g = with_one_term(m, f)?;
            Ok(Some(Test::Zero(g, *want)))
        }
        Test::Holds(_) | Test::Same(_, _, _) => Ok(None),
    }
}

/// States the test, of a long sum of cells by a variable that it is.
pub(crate) fn state_short(m: &mut Maker, test: &Test) -> Result<(), AllocError>
    requires test { IsTest m.old.domains test.now }
    ensures says { OnOk result (Adds [] m.old m.new (λ a. test_at test.now a)) }
{
    let short = short_test(m, test)?;
    m.ask(2)?;
    match &short {
        Some(t) => {
            state(m, t)?;
            Ok(())
        }
        None => {
            state(m, test)?;
            Ok(())
        }
    }
}
