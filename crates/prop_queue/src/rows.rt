//! Which constraints name each variable, clauses aside.
ghost use Rattle.std.specs.Prelude.{◌≡◌, ◌<◌, ◌==◌, ◌||◌, ◌&&◌, ◌^◌, ◌+◌, ℕ, Some, true, false, length, map, slice_get, IfOk, OnOk};
ghost use Rattle.std.specs.List.{All};
ghost use Rattle.ground_form.specs.declared.con.Con.{Con};
ghost use Rattle.ground_form.specs.Meaning.{vars_of};
ghost use Rattle.rule_law.specs.Reasons.{has_number};
ghost use Rattle.prop_queue.specs.Work.{row_of, is_clause, listed_vars};
ghost use Rattle.prop_queue.specs.Lists.{IsFilled};

use ground_form::Con;
use rule_law::all_vars;
use std::alloc::{AllocError, Global};
use std::marker::Model;

/// For each variable the constraints that name it and aren't clauses, each once and in order.
#[derive(Drop)]
pub struct Rows {
    rows: Vec<Vec<u32>>,
}

impl Model for Rows {
    ghost use Rattle.std.specs.Prelude.{ℕ, List, map};

    ghost Value = { List (List ℕ) };

    ghost view = { λ r. map (λ row. row.items) r.rows.items };
}

impl Rows {
    /// So many empty rows.
    fn empty(alloc: Global, count: usize) -> Result<Rows, AllocError>
        ensures size { IfOk result (λ rows. length rows ≡ count) }
        ensures empty { IfOk result (λ rows. (x k : ℕ) → has_number k (row_of rows x) ≡ false) }
    {
        let rows = empty_rows(alloc, count)?;
        Ok(Rows { rows })
    }

    /// The constraints of the variable.
    pub fn row(&self, x: u32) -> &[u32]
        requires { x < length self.now }
        ensures { result.now ≡ row_of self.now x }
    {
        self.rows[x as usize].as_slice()
    }

    /// Adds the constraint to those of the variable, unless it was the last that was added.
    fn push(&mut self, x: u32, k: u32) -> Result<(), AllocError>
        requires { x < length self.old }
        ensures size { length self.new ≡ length self.old }
        ensures rows { OnOk result ((y j : ℕ) → has_number j (row_of self.new y)
            ≡ (has_number j (row_of self.old y) || x == y && k == j)) }
    {
        if ends_with(self.row(x), k) {
            return Ok(());
        }
        self.rows[x as usize].push(k)?;
        Ok(())
    }
}

/// As many empty rows.
fn empty_rows(alloc: Global, count: usize) -> Result<Vec<Vec<u32>>, AllocError>
    ensures size { IfOk result (λ rows. length rows.items ≡ count) }
    ensures empty { IfOk result (λ rows. (x k : ℕ)
        → has_number k (row_of (map (λ r. r.items) rows.items) x) ≡ false) }
{
    let mut rows = Vec::with_capacity(alloc, count)?;
    for _ in 0..count {
        rows.push(Vec::new(alloc))?;
    }
    Ok(rows)
}

/// Whether the row's last constraint is this one.
#[tactic(auto, using(crate::proofs::RowLaws::has_last))]
fn ends_with(row: &[u32], k: u32) -> bool
    ensures { result ≡ true → has_number k row.now ≡ true }
{
    match row.last() {
        Some(last) => *last == k,
        None => false,
    }
}

/// Adds the constraint to the rows of the variables.
fn push_all(rows: &mut Rows, vars: &[u32], k: u32) -> Result<(), AllocError>
    requires { All (λ x. x < length rows.old) vars.now }
    ensures size { length rows.new ≡ length rows.old }
    ensures rows { OnOk result ((y j : ℕ) → has_number j (row_of rows.new y)
        ≡ (has_number j (row_of rows.old y) || has_number y vars.now && k == j)) }
{
    for x in vars {
        rows.push(*x, k)?;
    }
    Ok(())
}

/// Whether the constraint is a clause.
pub fn is_clause(con: &Con) -> bool
    ensures { result ≡ is_clause con.now }
{
    matches!(con, Con::ClauseCon { .. })
}

/// The variables by which a constraint is listed: none where it is a clause.
fn listed_vars(con: &Con, alloc: Global) -> Result<Vec<u32>, AllocError>
    ensures { IfOk result (λ vars. vars.items ≡ listed_vars con.now) }
{
    if is_clause(con) {
        Ok(Vec::new(alloc))
    } else {
        all_vars(con, alloc)
    }
}

/// The variables by which constraint `k` is listed.
fn vars_at(cons: &[Con], k: u32, alloc: Global) -> Result<Vec<u32>, AllocError>
    requires { k < length cons.now }
    ensures { IfOk result (λ vars. (con : Con) → slice_get cons.now k ≡ Some con
        → vars.items ≡ listed_vars con) }
{
    listed_vars(&cons[k as usize], alloc)
}

/// Adds constraint `k` to the rows of its variables.
#[tactic(auto, using(crate::proofs::RowLaws::filled_more, crate::proofs::RowLaws::vars_below))]
fn add_con(rows: &mut Rows, cons: &[Con], k: u32, alloc: Global) -> Result<(), AllocError>
    requires there { k < length cons.now }
    requires named { All (λ con. All (λ x. x < length rows.old) (vars_of con)) cons.now }
    requires filled { IsFilled cons.now rows.old k }
    ensures size { length rows.new ≡ length rows.old }
    ensures filled { OnOk result (IsFilled cons.now rows.new (k + 1)) }
{
    let vars = vars_at(cons, k, alloc)?;
    push_all(rows, vars.as_slice(), k)?;
    Ok(())
}

/// The constraints of each of so many variables. It costs the variables of all constraints, and a
/// list of those of one at a time.
///
/// # Errors
/// Want of memory.
#[tactic(auto, using(crate::proofs::RowLaws::filled_none))]
pub fn rows_of(cons: &[Con], count: usize, alloc: Global) -> Result<Rows, AllocError>
    requires few { length cons.now < 2 ^ 32 }
    requires named { All (λ con. All (λ x. x < count) (vars_of con)) cons.now }
    ensures size { IfOk result (λ rows. length rows ≡ count) }
    ensures filled { IfOk result (λ rows. IsFilled cons.now rows (length cons.now)) }
{
    let mut rows = Rows::empty(alloc, count)?;
    for k in 0..cons.len() {
        add_con(&mut rows, cons, k as u32, alloc)?;
    }
    Ok(rows)
}
