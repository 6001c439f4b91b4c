//! The search for a clause that acts.
ghost use Rattle.std.specs.Prelude.{◌≡◌, ◌<◌, ℕ, false, length, [], slice_index_or, IfOk, IfNone, IfSome};
ghost use Rattle.clause_watches.specs.Watching.{acts, clause_of, rest_of, is_listed, Fits, IsActing};
ghost use Rattle.clause_watches.specs.Sound.{IsSound, watching_of};

use crate::search::find_acting;
use crate::table::Table;
use crate::visiting::visit_rows;
use signed_clause::{ClauseHandle, IntSet};
use std::alloc::AllocError;

/// The number of a clause that is false in the boxes or unit: first the rows of changed variables
/// are walked, then listed clauses are opened.
pub(crate) fn next_acting(table: &mut Table, boxes: &[IntSet]) -> Result<Option<u64>, AllocError>
    requires sound { IsSound table.old }
    requires boxes { length boxes.now ≡ length table.old.rows.items }
    requires fits { Fits boxes.now (watching_of table.old) }
    ensures sound { IsSound table.new }
    ensures count { length table.new.rows.items ≡ length table.old.rows.items }
    ensures added { table.new.added ≡ table.old.added }
    ensures fits { Fits boxes.now (watching_of table.new) }
    ensures some { IfOk result (λ o. IfSome o (λ n. IsActing boxes.now (watching_of table.new) n)) }
    ensures none { IfOk result (λ o. IfNone o ((i : ℕ) → i < length table.new.added.items
        → acts boxes.now (clause_of table.new.added.items i) ≡ false)) }
    ensures none_listed { IfOk result (λ o. IfNone o ((i : ℕ) → i < length table.new.added.items
        → is_listed (rest_of (watching_of table.new).rests i) ≡ false)) }
{
    visit_rows(table, boxes);
    match find_acting(table, boxes)? {
        Some(i) => Ok(Some(number_at(table.added.as_slice(), i))),
        None => Ok(None),
    }
}

/// The number of clause `i`.
fn number_at(added: &[(u64, ClauseHandle)], i: u32) -> u64
    requires { i < length added.now }
    ensures { (slice_index_or added.now i (0, [])).0 ≡ result }
{
    added[i as usize].0
}
