//! What is 0 by the rows that are stated: that the cells of a goal are what they are said to be.
//!
//! `n = count ..` stands as two rows, one behind the other. Where n is a term of the goal's sum, a
//! multiple of the one row takes it out of what is 0. No promise rests on which rows are taken.
ghost use Rattle.std.specs.Prelude.{◌≡◌, ◌<◌, ◌≤◌, ◌≢◌, ◌^◌, ◌≤ℤ◌, neg_ℤ, pos, ℤ, List, true, false, length, unsigned_abs, Contains, IfOk, IfSome};
ghost use Rattle.signed_clause.specs.Clauses.{box_of};
ghost use Rattle.ground_form.specs.declared.con.Con.TheVariants as con;
ghost use Rattle.ground_form.specs.Bounds.{weight_of, most_sum};
ghost use Rattle.form_build.specs.Forms.{linear_at};
ghost use Rattle.form_build.specs.Sums.{IsOpen, AreTerms, IsLinear};
ghost use Rattle.stated_facts.specs.Rows.{Follows, IsAbove, IsNought};

use crate::factors::{factor_at, factors_of};
use crate::noughts::{Nought, combined};
use crate::weights::weight;
use form_build::{Linear, Maker};
use ground_form::{Con, Number, Terms, ends_of};
use signed_clause::IntSet;
use std::alloc::AllocError;

/// How often constraints are looked through for rows of cells.
const MOST_ROUNDS: usize = 3;

/// A sum of more terms isn't made longer.
const MOST_TERMS: usize = 1 << 13;

/// The constraint of this number.
fn con_at(maker: &Maker, k: usize) -> Option<&Con>
    ensures { IfSome result (λ c. Contains maker.now.cons c.now) }
{
    let cons = maker.cons();
    if k < cons.len() { Some(&cons[k]) } else { None }
}

// ---- rows

/// Whether the box has two values or more.
fn is_open(set: &IntSet) -> bool
    ensures { result ≡ true → IsOpen set.now }
{
    let ends = ends_of(set);
    ends.0 < ends.1
}

/// Whether it is a term of a variable from this one on, whose box is open.
fn is_term(boxes: &[IntSet], next: u64, t: (i64, u32)) -> bool
    ensures ascends { result ≡ true → next ≤ t.1 }
    ensures exists { result ≡ true → t.1 < length boxes.now }
    ensures some { result ≡ true → t.0 ≢ pos 0 }
    ensures open { result ≡ true → IsOpen (box_of boxes.now t.1) }
{
    next <= u64::from(t.1)
        && (t.1 as usize) < boxes.len()
        && t.0 != 0
        && is_open(&boxes[t.1 as usize])
}

/// Whether the terms are in good order.
pub(crate) fn are_terms(boxes: &[IntSet], terms: &[(i64, u32)]) -> bool
    ensures { result ≡ true → AreTerms boxes.now 0 terms.now }
{
    let mut next = 0u64;
    for t in terms {
        if !is_term(boxes, next, *t) {
            return false;
        }
        next = u64::from(t.1) + 1;
    }
    true
}

/// Whether the terms are in good order, and their numbers small.
fn are_light_over(boxes: &[IntSet], terms: &[(i64, u32)]) -> bool
    requires { weight_of terms.now boxes.now ≤ most_sum }
    ensures terms { result ≡ true → AreTerms boxes.now 0 terms.now }
    ensures light { result ≡ true → weight_of terms.now boxes.now ≤ 2 ^ 19 }
{
    are_terms(boxes, terms) && weight(boxes, terms) <= 1 << 19
}

/// The same over the problem.
fn are_light(maker: &Maker, terms: &Terms) -> bool
    requires { weight_of terms.now maker.now.domains ≤ most_sum }
    ensures terms { result ≡ true → AreTerms maker.now.domains 0 terms.now }
    ensures light { result ≡ true → weight_of terms.now maker.now.domains ≤ 2 ^ 19 }
{
    are_light_over(maker.domains(), terms.items())
}

/// Whether a number is small.
fn is_near_zero(v: Number) -> bool
    ensures { result ≡ true → unsigned_abs v.value ≤ 2 ^ 19 }
{
    v.value.unsigned_abs() <= 1 << 19
}

/// A number with its sign turned.
fn turned(v: Number) -> Number
    requires { unsigned_abs v.value ≤ 2 ^ 19 }
    ensures { result.value ≡ neg_ℤ v.value }
{
    Number { value: -v.value }
}

/// The row of these terms as a sum that is at most 0, where its numbers are small.
fn row_of(maker: &Maker, terms: &Terms, bound: Number) -> Result<Option<Linear>, AllocError>
    requires stands { Contains maker.now.cons (con.LinLe terms.now bound.value) }
    requires bounded { weight_of terms.now maker.now.domains ≤ most_sum }
    ensures linear { IfOk result (λ o. IfSome o (λ r. IsLinear (2 ^ 20) maker.now.domains r)) }
    ensures follows { IfOk result (λ o. IfSome o (λ r. Follows maker.now r)) }
{
    if !is_near_zero(bound) {
        return Ok(None);
    }
    if !are_light(maker, terms) {
        return Ok(None);
    }
    let own = terms.copy()?;
    let offset = turned(bound);
    Ok(Some(Linear {
        terms: own,
        offset: offset.value,
    }))
}

/// The row that a constraint says, as a sum that is at most 0.
#[tactic(auto, using(crate::proofs::EqualLaws::row_bounded))]
fn row_in(maker: &Maker, c: &Con) -> Result<Option<Linear>, AllocError>
    requires { Contains maker.now.cons c.now }
    ensures linear { IfOk result (λ o. IfSome o (λ r. IsLinear (2 ^ 20) maker.now.domains r)) }
    ensures follows { IfOk result (λ o. IfSome o (λ r. Follows maker.now r)) }
{
    let _made = maker.domains();
    match c {
        Con::LinLe { terms, bound } => {
            let bound = Number { value: *bound };
            let r = row_of(maker, terms, bound)?;
            Ok(r)
        }
        _ => Ok(None),
    }
}

/// The row that constraint k says.
fn row_at(maker: &Maker, k: usize) -> Result<Option<Linear>, AllocError>
    ensures linear { IfOk result (λ o. IfSome o (λ r. IsLinear (2 ^ 20) maker.now.domains r)) }
    ensures follows { IfOk result (λ o. IfSome o (λ r. Follows maker.now r)) }
{
    match con_at(maker, k) {
        Some(c) => {
            let r = row_in(maker, c)?;
            Ok(r)
        }
        None => Ok(None),
    }
}

/// Whether two sums are the same.
fn is_same(f: &Linear, o: &Linear) -> bool
    ensures terms { result ≡ true → f.now.terms ≡ o.now.terms }
    ensures offset { result ≡ true → f.now.offset ≡ o.now.offset }
{
    f.offset == o.offset && f.terms.same(&o.terms)
}

/// Whether a row that follows is this one with its signs turned, so that this is at least 0.
fn is_opposite(maker: &Maker, r: &Linear, o: &Linear) -> Result<bool, AllocError>
    requires linear { IsLinear (2 ^ 20) maker.now.domains r.now }
    requires follows { Follows maker.now o.now }
    ensures { IfOk result (λ b. b ≡ true → IsAbove maker.now r.now) }
{
    let turned = r.times(maker.alloc(), -1)?;
    let b = is_same(&turned, o);
    Ok(b)
}

/// Whether constraint k says that the sum, which is at most 0, is at least 0 as well.
fn is_equal(maker: &Maker, r: &Linear, k: usize) -> Result<bool, AllocError>
    requires { IsLinear (2 ^ 20) maker.now.domains r.now }
    ensures { IfOk result (λ b. b ≡ true → IsAbove maker.now r.now) }
{
    match row_at(maker, k)? {
        Some(o) => {
            let b = is_opposite(maker, r, &o)?;
            Ok(b)
        }
        None => Ok(false),
    }
}

/// A row that constraint k says, with what the next one says of the same terms.
fn balance_of(maker: &Maker, sum: Linear, k: usize) -> Result<Nought, AllocError>
    requires linear { IsLinear (2 ^ 20) maker.now.domains sum }
    requires follows { Follows maker.now sum }
    ensures { IfOk result (λ z. IsNought maker.now z) }
{
    let takes = is_equal(maker, &sum, k.saturating_add(1))?;
    Ok(Nought {
        sum,
        adds: true,
        takes,
    })
}

/// The row that constraint k says, with what the next one says of the same terms.
pub fn balance_at(maker: &Maker, k: usize) -> Result<Option<Nought>, AllocError>
    ensures { IfOk result (λ o. IfSome o (λ z. IsNought maker.now z)) }
{
    match row_at(maker, k)? {
        Some(sum) => {
            let z = balance_of(maker, sum, k)?;
            Ok(Some(z))
        }
        None => Ok(None),
    }
}

// ---- which rows are taken

/// The cells of a goal's sum.
#[derive(Drop)]
struct Cells {
    /// The coefficient of each variable so far.
    factors: Vec<i64>,
    /// Which variables were taken out.
    out: Vec<bool>,
    /// Whether the sum has one term alone: then a row that lies on one side will do.
    is_alone: bool,
}

/// The cells of the sum.
fn cells_of(maker: &Maker, number: &Linear) -> Result<Cells, AllocError> {
    let mut out = Vec::new(maker.alloc());
    out.resize(maker.domains().len(), false)?;
    Ok(Cells {
        factors: factors_of(maker, number)?,
        out,
        is_alone: number.terms.items().len() == 1,
    })
}

/// Whether the variable was taken out.
fn is_out(cells: &Cells, x: u32) -> bool {
    let x = x as usize;
    x < cells.out.len() && cells.out[x]
}

/// Whether the term's variable is a cell that is still to be taken out.
fn is_wanted(maker: &Maker, cells: &Cells, t: (i64, u32)) -> bool {
    t.0.unsigned_abs() == 1 && t.1 < maker.search() && factor_at(&cells.factors, t.1) != 0
}

/// The term of the cell that a row takes out, where it brings none back.
fn term_wanted(maker: &Maker, cells: &Cells, terms: &[(i64, u32)]) -> Option<(i64, u32)> {
    let mut found = None;
    for t in terms {
        if is_out(cells, t.1) {
            return None;
        }
        if found.is_none() && is_wanted(maker, cells, *t) {
            found = Some(*t);
        }
    }
    found
}

/// Adds so much to the coefficient of a variable.
fn raise(factors: &mut [i64], x: u32, more: i64) {
    let x = x as usize;
    if x < factors.len() {
        factors[x] = factors[x].saturating_add(more);
    }
}

/// Notes that a cell is out, by so much of a row.
fn note_out(cells: &mut Cells, x: u32, row: &Linear, times: i64) {
    for t in row.terms.items() {
        raise(&mut cells.factors, t.1, t.0.saturating_mul(times));
    }
    let x = x as usize;
    if x < cells.out.len() {
        cells.out[x] = true;
    }
}

/// The term of the cell that constraint k can take out, if it is a row that does.
fn term_at(maker: &Maker, cells: &Cells, k: usize) -> Option<(i64, u32)> {
    match con_at(maker, k)? {
        Con::LinLe { terms, .. } => term_wanted(maker, cells, terms.items()),
        _ => None,
    }
}

/// What is 0 with the row of constraint k, where that takes a cell out.
fn with_row(maker: &Maker, zero: Nought, cells: &mut Cells, k: usize) -> Result<Nought, AllocError>
    requires { IsNought maker.now zero }
    ensures { IfOk result (λ z. IsNought maker.now z) }
{
    let Some(t) = term_at(maker, cells, k) else {
        return Ok(zero);
    };
    let Some(row) = balance_at(maker, k)? else {
        return Ok(zero);
    };
    if !(row.takes || cells.is_alone) || zero.sum.terms.items().len() > MOST_TERMS {
        return Ok(zero);
    }
    let own = factor_at(&cells.factors, t.1);
    let times = if t.0 > 0 { own.saturating_neg() } else { own };
    match combined(maker, &zero, &row, times)? {
        Some(z) => {
            note_out(cells, t.1, &row.sum, times);
            Ok(z)
        }
        None => Ok(zero),
    }
}

/// What is 0 with the rows that take cells out, in their order.
fn with_each(maker: &Maker, zero: Nought, cells: &mut Cells) -> Result<Nought, AllocError>
    requires { IsNought maker.now zero }
    ensures { IfOk result (λ z. IsNought maker.now z) }
{
    let mut zero = zero;
    for k in 0..maker.cons().len() {
        zero = with_row(maker, zero, cells, k)?;
    }
    Ok(zero)
}

/// What is 0, a goal's sum less the goal, with the cells of the sum taken out by rows that say what
/// they are.
pub fn with_rows(maker: &Maker, zero: Nought, number: &Linear) -> Result<Nought, AllocError>
    requires { IsNought maker.now zero }
    ensures { IfOk result (λ z. IsNought maker.now z) }
{
    let mut zero = zero;
    let mut cells = cells_of(maker, number)?;
    for _ in 0..MOST_ROUNDS {
        zero = with_each(maker, zero, &mut cells)?;
    }
    Ok(zero)
}
