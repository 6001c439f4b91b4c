//! How a table begins, and how a clause is added to it.
ghost use Rattle.std.specs.Prelude.{◌≡◌, ◌<◌, ◌≤◌, ◌++◌, ◌∷◌, [], ℕ, false, length, IfOk, OnOk, OnErr};
ghost use Rattle.std.specs.List.{All};
ghost use Rattle.signed_clause.specs.Clauses.{IsClause};
ghost use Rattle.clause_watches.specs.Marks.{is_marked};
ghost use Rattle.clause_watches.specs.Sound.{row_of, IsSound, IsPacked};

use crate::counts::Counts;
use crate::held::HeldBy;
use crate::packed::PackedClause;
use crate::rest::Rest;
use crate::rests::Rests;
use crate::row::Row;
use crate::table::Table;
use crate::work_list::WorkList;
use signed_clause::{ClauseHandle, IntSet};
use std::alloc::{AllocError, Global};

/// A table without clauses over the variables of these domains.
#[tactic(auto, using(crate::proofs::PackLaws::none_packed))]
pub(crate) fn empty_table(alloc: Global, domains: &[IntSet]) -> Result<Table, AllocError>
    ensures sound { IfOk result (λ t. IsSound t) }
    ensures rows { IfOk result (λ t. length t.rows.items ≡ length domains.now) }
    ensures added { IfOk result (λ t. t.added.items ≡ []) }
    ensures rests { IfOk result (λ t. t.rests ≡ []) }
{
    let n = domains.len();
    let rows = empty_rows(alloc, n)?;
    let leasts = leasts_of(alloc, domains)?;
    let held = none_held(alloc, n)?;
    let changed = empty_list(alloc, n)?;
    Ok(Table {
        alloc,
        added: Vec::new(alloc),
        packed: Vec::new(alloc),
        rests: Rests::new(alloc),
        rows,
        leasts,
        held,
        changed,
        counts: Counts { met: 0, opened: 0 },
    })
}

/// So many rows without watches.
fn empty_rows(alloc: Global, n: usize) -> Result<Vec<Row>, AllocError>
    ensures size { IfOk result (λ rows. length rows.items ≡ n) }
    ensures empty { IfOk result (λ rows. (x : ℕ) → row_of rows.items x ≡ []) }
{
    let mut rows = Vec::with_capacity(alloc, n)?;
    for _ in 0..n {
        rows.push(Row::new(alloc))?;
    }
    Ok(rows)
}

/// The least value of each domain, 0 for an empty one.
fn leasts_of(alloc: Global, domains: &[IntSet]) -> Result<Vec<i64>, AllocError>
    ensures { IfOk result (λ leasts. length leasts.items ≡ length domains.now) }
{
    let mut leasts = Vec::with_capacity(alloc, domains.len())?;
    for domain in domains {
        leasts.push(domain.least().unwrap_or(0))?;
    }
    Ok(leasts)
}

/// So many lists of clauses, all of them empty.
fn none_held(alloc: Global, n: usize) -> Result<Vec<HeldBy>, AllocError>
    ensures size { IfOk result (λ held. length held.items ≡ n) }
{
    let mut held = Vec::with_capacity(alloc, n)?;
    for _ in 0..n {
        held.push(HeldBy::new(alloc))?;
    }
    Ok(held)
}

/// A list in which all numbers below `n` may wait, and none does.
fn empty_list(alloc: Global, n: usize) -> Result<WorkList, AllocError>
    ensures { IfOk result (λ list. length list ≡ n) }
{
    let mut list = WorkList::new(alloc);
    list.reach(n)?;
    Ok(list)
}

/// Adds a clause, of which nothing is known yet. After an error the clauses are as before.
pub(crate) fn add_clause(
    table: &mut Table,
    number: u64,
    clause: ClauseHandle,
) -> Result<(), AllocError>
    requires sound { IsSound table.old }
    requires within { All (λ l. l.0 < length table.old.rows.items) clause }
    ensures sound { IsSound table.new }
    ensures rows { table.new.rows ≡ table.old.rows }
    ensures changed { table.new.changed ≡ table.old.changed }
    ensures added { OnOk result (table.new.added.items
        ≡ table.old.added.items ++ (number, clause) ∷ []) }
    ensures rests { OnOk result (table.new.rests ≡ table.old.rests ++ Rest.Listed ∷ []) }
    ensures added_kept { OnErr result (table.new.added.items ≡ table.old.added.items) }
    ensures rests_kept { OnErr result (table.new.rests ≡ table.old.rests) }
{
    if table.added.len() > u32::MAX as usize {
        return Err(AllocError);
    }
    table.added.reserve(1)?;
    table.packed.reserve(1)?;
    let packed = pack(table, &clause)?;
    table.rests.push()?;
    check_form(&clause);
    table.added.push_reserved((number, clause));
    table.packed.push_reserved(packed);
    Ok(())
}

/// The literals of a clause once more.
fn pack(table: &Table, clause: &ClauseHandle) -> Result<PackedClause, AllocError>
    requires { All (λ l. l.0 < length table.now.leasts.items) clause.now }
    ensures { IfOk result (λ p. IsPacked table.now.leasts.items clause.now p) }
{
    let lits = clause.clause().literals();
    PackedClause::of(table.alloc, lits, table.leasts.as_slice())
}

/// It does nothing; its contract is what every clause keeps.
fn check_form(clause: &ClauseHandle)
    ensures { IsClause clause.now }
{
    clause.clause().literals();
}
