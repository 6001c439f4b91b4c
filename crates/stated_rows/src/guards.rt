//! Rows behind guards.
//!
//! A clause of two literals says a row where by the one a sum is bounded, and by the other nothing
//! is in the row's bin. So 'if something is on the host, its room suffices' is the row without the
//! guard.
ghost use Rattle.std.specs.Prelude.{◌≡◌, ◌≤ℤ◌, ◌∷◌, [], ℤ, List, pos, true, false, Contains, IfOk, IfSome};
ghost use Rattle.std.specs.Ordering.{int_eq};
ghost use Rattle.signed_clause.specs.Ranges.{has};
ghost use Rattle.signed_clause.specs.Clauses.{clause_true};
ghost use Rattle.ground_form.specs.declared.con.Con.TheVariants.{ReifLe};
ghost use Rattle.ground_form.specs.Meaning.{value_of};
ghost use Rattle.form_build.specs.Worlds.{IsWorld, AllHold};
ghost use Rattle.packed_rows.specs.Loads.{load_of, row_holds};
ghost use Rattle.stated_rows.specs.Following.{FollowsIf, ArentThere};

use crate::facts::Facts;
use crate::reading::row_of_sum;
use form_build::Maker;
use ground_form::{Con, Number};
use packed_rows::Row;
use signed_clause::IntSet;
use stated_facts::{Claims, claims_of, definition};
use std::alloc::AllocError;

/// Where more than so much is claimed nothing is looked for: packings have no more members.
const MOST_CLAIMS: usize = 1 << 10;

// ---- the literal by which a sum is bounded

/// The row that the constraint says of a bin where the variable is in the set, where it defines the
/// variable as the flag that tells whether a sum is bounded.
fn row_by(
    maker: &Maker,
    facts: &Facts,
    con: &Con,
    x: u32,
    set: &IntSet,
) -> Result<Option<Row>, AllocError>
    requires { Contains maker.now.cons con.now }
    ensures { IfOk result (λ o. IfSome o (FollowsIf maker.now x set.now)) }
{
    match con {
        Con::ReifLe { flag, terms, bound } => {
            if *flag != x || set.contains(0) {
                return Ok(None);
            }
            let bound = Number { value: *bound };
            let row = row_of_sum(maker, facts, terms.items(), bound)?;
            Ok(row)
        }
        _ => Ok(None),
    }
}

/// The row that is said of a bin where the variable is in the set.
fn row_if(maker: &Maker, facts: &Facts, x: u32, set: &IntSet) -> Result<Option<Row>, AllocError>
    ensures { IfOk result (λ o. IfSome o (FollowsIf maker.now x set.now)) }
{
    let Some(con) = definition(maker, facts.definitions.as_slice(), x) else {
        return Ok(None);
    };
    let row = row_by(maker, facts, con, x, set)?;
    Ok(row)
}

// ---- the literal by which nothing is in the bin

/// Whether it is said here that the variable isn't the bin.
fn is_told(q: (u32, u64), x: u32, bin: Number) -> bool
    ensures { result ≡ true → (a : List ℤ) → int_eq (value_of a q.0) (pos q.1) ≡ false
        → int_eq (value_of a x) bin.value ≡ false }
{
    q.0 == x && bin.value >= 0 && q.1 == bin.value.unsigned_abs()
}

/// What stands from a value on that the variable is said not to have.
fn from_told(others: &[(u32, u64)], x: u32, bin: Number) -> Option<&[(u32, u64)]>
    ensures told { IfSome result (λ rest. (a : List ℤ) → ArentThere a others.now
        → int_eq (value_of a x) bin.value ≡ false) }
    ensures rest { IfSome result (λ rest. (a : List ℤ) → ArentThere a others.now
        → ArentThere a rest.now) }
{
    match others {
        [q, rest @ ..] => {
            if is_told(*q, x, bin) {
                Some(others)
            } else {
                from_told(rest, x, bin)
            }
        }
        [] => None,
    }
}

/// Whether all of the loads are said not to be in the bin.
fn are_told(loads: &[(u32, i64)], others: &[(u32, u64)], bin: Number) -> bool
    ensures { result ≡ true → (a : List ℤ) → ArentThere a others.now
        → load_of bin.value loads.now a ≡ pos 0 }
{
    let mut rest = others;
    for load in loads {
        match from_told(rest, load.0, bin) {
            Some(more) => rest = more,
            None => return false,
        }
    }
    true
}

/// The bin of a row.
fn bin_of(row: &Row) -> Number
    ensures { result.value ≡ row.now.bin }
{
    Number { value: row.bin }
}

/// Whether all that the row counts is claimed not to be in its bin, and its room isn't below 0.
fn is_bare(row: &Row, c: &Claims) -> bool
    ensures { result ≡ true → (a : List ℤ) → ArentThere a c.now.others.items
        → row_holds a row.now ≡ true }
{
    let bin = bin_of(row);
    let others = c.others.as_slice();
    row.room >= 0 && others.len() <= MOST_CLAIMS && are_told(row.loads.as_slice(), others, bin)
}

/// The value of a set, where it has just one.
fn single(set: &IntSet) -> Option<i64>
    ensures { IfSome result (λ v. set.now ≡ (v, v) ∷ []) }
{
    match set.ranges() {
        [r] => { if r.0 == r.1 { Some(r.0) } else { None } }
        _ => None,
    }
}

/// Whether nothing is in the row's bin where the variable is in the set.
fn lacks(maker: &Maker, facts: &Facts, x: u32, set: &IntSet, row: &Row) -> Result<bool, AllocError>
    ensures { IfOk result (λ ok. ok ≡ true → FollowsIf maker.now x set.now row.now) }
{
    let Some(v) = single(set) else {
        return Ok(false);
    };
    match claims_of(maker, facts.definitions.as_slice(), x, v)? {
        Some(c) => {
            let bare = is_bare(row, &c);
            Ok(bare)
        }
        None => Ok(false),
    }
}

// ---- clauses

/// The row that the first literal says, where by the second nothing is in its bin.
fn row_behind(
    maker: &Maker,
    facts: &Facts,
    l: &(u32, IntSet),
    guard: &(u32, IntSet),
) -> Result<Option<Row>, AllocError>
    ensures first { IfOk result (λ o. IfSome o (FollowsIf maker.now l.now.0 l.now.1)) }
    ensures second { IfOk result (λ o. IfSome o (FollowsIf maker.now guard.now.0 guard.now.1)) }
{
    let Some(row) = row_if(maker, facts, l.0, &l.1)? else {
        return Ok(None);
    };
    let empty = lacks(maker, facts, guard.0, &guard.1, &row)?;
    if empty { Ok(Some(row)) } else { Ok(None) }
}

/// The row that a clause says of a bin by one of its two literals, where by the other nothing is in
/// the bin.
pub(crate) fn row_of_clause(
    maker: &Maker,
    facts: &Facts,
    literals: &[(u32, IntSet)],
) -> Result<Option<Row>, AllocError>
    ensures { IfOk result (λ o. IfSome o (λ row. (a : List ℤ) → IsWorld maker.now a
        → AllHold maker.now a → clause_true literals.now a ≡ true → row_holds a row ≡ true)) }
{
    match literals {
        [l, m] => {
            if let Some(row) = row_behind(maker, facts, l, m)? {
                return Ok(Some(row));
            }
            let row = row_behind(maker, facts, m, l)?;
            Ok(row)
        }
        _ => Ok(None),
    }
}
