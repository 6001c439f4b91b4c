//! Whether a variable stands twice in a constraint.
//!
//! Variables that ascend differ, which one walk tells. Of other lists it is found once, by sorting
//! a copy, which variables stand twice, and kept under the constraint's number together with the
//! list. A kept list counts only where it is the constraint's, so what is kept is right for
//! whatever ground problem is handed in.
//!
//! Variables that ascend, or ascend behind a first one that is before or behind them all, are seen
//! to differ by one walk, and nothing is kept for them.
ghost use Rattle.std.specs.Prelude.{◌≡◌, ◌<◌, ◌&&◌, true, false, not, [], ◌∷◌, None, Some, IfOk, IfSome, length, drop, slice_get};
ghost use Rattle.signed_clause.specs.Clauses.{box_of};
ghost use Rattle.ground_form.specs.Meaning.{vars_of};
ghost use Rattle.rule_law.specs.Reasons.{has_number, no_repeat};
ghost use Rattle.rule_law.specs.Repeats.{AreRepeated, is_repeated, ascends, doubles_after, is_again, is_one, all_one, open_vars, IsKept};

use crate::variables::{all_vars, distinct};
use ground_form::{Con, ends_of};
use signed_clause::IntSet;
use std::alloc::{AllocError, Global};
use std::marker::Model;

/// A list of variables, and those that stand twice in it.
#[derive(Drop)]
struct Known {
    vars: Vec<u32>,
    repeated: Vec<u32>,
}

impl Model for Known {
    ghost use Rattle.std.specs.Prelude.{ℕ, List};
    ghost use Rattle.rule_law.specs.Repeats.{AreRepeated};

    ghost Value = { List ℕ × List ℕ };

    ghost view = { λ k. (k.vars.items, k.repeated.items) };

    ghost invariant = { λ k. AreRepeated k.repeated.items k.vars.items };
}

impl Known {
    /// The list.
    fn vars(&self) -> &[u32]
        ensures { result.now ≡ self.now.0 }
    {
        self.vars.as_slice()
    }

    /// Those that stand twice in it.
    fn repeated(&self) -> &[u32]
        ensures { AreRepeated result.now self.now.0 }
    {
        self.repeated.as_slice()
    }
}

// ---- variables that ascend

/// The number behind the last of the constraint's variables from the index on, where they ascend.
#[tactic(auto, using(ground_form::proofs::VarsAt::next_var, ground_form::proofs::VarsAt::no_var))]
fn end_of_rise(con: &Con, from: usize) -> Option<u64>
    ensures { IfSome result (λ top. ascends 0 top (drop from (vars_of con.now)) ≡ true) }
{
    let mut low = 0u64;
    for i in from..usize::MAX {
        let Some(x) = con.variable(i) else {
            return Some(low);
        };
        if (x as u64) < low {
            return None;
        }
        low = x as u64 + 1;
    }
    None
}

/// Whether the first variable is before the second, where there is one.
fn is_first_before(con: &Con, first: u32) -> bool
    ensures { result ≡ true → IfSome (slice_get (vars_of con.now) 1) (λ second. first < second) }
{
    match con.variable(1) {
        Some(second) => first < second,
        None => true,
    }
}

/// Whether the variables behind the first ascend, and the first is behind or before all of them.
fn do_ascend(con: &Con) -> bool
    ensures { result ≡ true → no_repeat (vars_of con.now) ≡ true }
{
    match con.variable(0) {
        None => true,
        Some(first) => match end_of_rise(con, 1) {
            None => false,
            Some(top) => top <= first as u64 || is_first_before(con, first),
        },
    }
}

// ---- variables that stand twice

/// Whether the number is the last one.
fn is_again(last: Option<u32>, x: u32) -> bool
    ensures { result ≡ is_again last x }
{
    match last {
        Some(y) => y == x,
        None => false,
    }
}

/// The numbers that are the same as the one before.
fn doubles(sorted: &[u32], alloc: Global) -> Result<Vec<u32>, AllocError>
    ensures { IfOk result (λ found. found.items ≡ doubles_after None sorted.now) }
{
    let mut found = Vec::new(alloc);
    let mut last = None;
    for x in sorted {
        if is_again(last, *x) {
            found.push(*x)?;
        }
        last = Some(*x);
    }
    Ok(found)
}

/// The variables that stand twice in the constraint, found by a copy of its variables that is
/// sorted.
fn find_repeated(con: &Con, alloc: Global) -> Result<Vec<u32>, AllocError>
    ensures { IfOk result (λ repeated. AreRepeated repeated.items (vars_of con.now)) }
{
    let mut sorted = all_vars(con, alloc)?;
    sorted.sort_unstable();
    let found = doubles(sorted.as_slice(), alloc)?;
    Ok(distinct(found))
}

/// Whether the box of the variable is one value.
fn is_one(boxes: &[IntSet], x: u32) -> bool
    ensures { result ≡ is_one (box_of boxes.now x) }
{
    if x as usize >= boxes.len() || boxes[x as usize].is_empty() {
        return false;
    }
    let ends = ends_of(&boxes[x as usize]);
    ends.0 == ends.1
}

/// Whether the boxes of the variables are one value each.
fn are_all_one(vars: &[u32], boxes: &[IntSet]) -> bool
    ensures { result ≡ all_one vars.now boxes.now }
{
    for x in vars {
        if !is_one(boxes, *x) {
            return false;
        }
    }
    true
}

// ---- what is kept

/// Whether the list is that of the constraint's variables.
#[tactic(auto, using(ground_form::proofs::VarsAt::next_var, ground_form::proofs::VarsAt::no_var))]
fn are_vars(vars: &[u32], con: &Con) -> bool
    ensures { result ≡ true → vars.now ≡ vars_of con.now }
{
    for i in 0..vars.len() {
        if !is_at(con, i, vars[i]) {
            return false;
        }
    }
    match con.variable(vars.len()) {
        None => true,
        Some(_) => false,
    }
}

/// Whether the variable is the constraint's at the index.
fn is_at(con: &Con, i: usize, x: u32) -> bool
    ensures { result ≡ true → slice_get (vars_of con.now) i ≡ Some x }
{
    match con.variable(i) {
        Some(y) => y == x,
        None => false,
    }
}

/// Where the constraint's list is kept, if it is.
fn index_of(indexes: &[usize], known: &[Known], k: u32, con: &Con) -> Option<usize>
    ensures { IfSome result (λ i. IsKept known.now i (vars_of con.now)) }
{
    if k as usize >= indexes.len() {
        return None;
    }
    let i = indexes[k as usize];
    if i < known.len() && are_vars(known[i].vars(), con) {
        Some(i)
    } else {
        None
    }
}

/// Keeps a list, and tells where.
fn keep(
    indexes: &mut Vec<usize>,
    known: &mut Vec<Known>,
    k: u32,
    found: Known,
) -> Result<usize, AllocError>
    ensures { IfOk result (λ i. IsKept known.new.items i found.0) }
{
    let end = known.len();
    for _i in indexes.len()..k as usize + 1 {
        indexes.push(end)?;
    }
    known.push(found)?;
    if (k as usize) < indexes.len() {
        indexes[k as usize] = end;
    }
    Ok(end)
}

/// Whether the variable is in the list.
pub fn has_var(vars: &[u32], x: u32) -> bool
    ensures { result ≡ has_number x vars.now }
{
    for y in vars {
        if *y == x {
            return true;
        }
    }
    false
}

/// What was found of constraints, each under its number: their variables, and those that stand
/// twice.
pub struct Repeats {
    alloc: Global,
    indexes: Vec<usize>,
    known: Vec<Known>,
}

impl Drop for Repeats {
    fn drop(self) {
        let Repeats {
            alloc: _,
            indexes: _,
            known: _,
        } = self;
    }
}

impl Repeats {
    /// Nothing. It takes no memory.
    pub fn new(alloc: Global) -> Repeats
        ensures alloc { result.alloc ≡ alloc }
        ensures nothing { result.known.items ≡ [] }
    {
        Repeats {
            alloc,
            indexes: Vec::new(alloc),
            known: Vec::new(alloc),
        }
    }

    /// Forgets all of it.
    pub fn forget(&mut self)
        ensures { self.new.known.items ≡ [] }
    {
        self.indexes.clear();
        self.known.clear();
    }

    /// Where what is known of the constraint is kept.
    fn find(&mut self, k: u32, con: &Con) -> Result<usize, AllocError>
        ensures { IfOk result (λ i. IsKept self.new.known.items i (vars_of con.now)) }
    {
        if let Some(i) = index_of(self.indexes.as_slice(), self.known.as_slice(), k, con) {
            return Ok(i);
        }
        let vars = all_vars(con, self.alloc)?;
        let repeated = find_repeated(con, self.alloc)?;
        let i = keep(
            &mut self.indexes,
            &mut self.known,
            k,
            Known { vars, repeated },
        )?;
        Ok(i)
    }

    /// Whether no variable stands twice in the constraint with the number. Memory is taken only
    /// where that isn't known yet.
    ///
    /// # Errors
    /// Want of memory.
    pub fn has_no_repeat(&mut self, k: u32, con: &Con) -> Result<bool, AllocError>
        ensures { IfOk result (λ differ. differ ≡ no_repeat (vars_of con.now)) }
    {
        if do_ascend(con) {
            return Ok(true);
        }
        let i = self.find(k, con)?;
        Ok(self.known[i].repeated().is_empty())
    }

    /// Whether neither of two variables stands twice in the constraint with the number. Memory is
    /// taken only where it isn't known yet which variables do.
    ///
    /// # Errors
    /// Want of memory.
    pub fn occur_once(&mut self, k: u32, con: &Con, x: u32, y: u32) -> Result<bool, AllocError>
        ensures first { IfOk result (λ once. once ≡ true → is_repeated x (vars_of con.now)
            ≡ false) }
        ensures second { IfOk result (λ once. once ≡ true → is_repeated y (vars_of con.now)
            ≡ false) }
        ensures exact { IfOk result (λ once. once ≡ (not (is_repeated x (vars_of con.now))
            && not (is_repeated y (vars_of con.now)))) }
    {
        if do_ascend(con) {
            return Ok(true);
        }
        let i = self.find(k, con)?;
        let repeated = self.known[i].repeated();
        Ok(!has_var(repeated, x) && !has_var(repeated, y))
    }

    /// Whether no variable whose box isn't one value stands twice in the constraint with the
    /// number. Memory is taken only where it isn't known yet which variables do.
    ///
    /// # Errors
    /// Want of memory.
    pub fn open_have_no_repeat(
        &mut self,
        k: u32,
        con: &Con,
        boxes: &[IntSet],
    ) -> Result<bool, AllocError>
        ensures { IfOk result (λ differ. differ
            ≡ no_repeat (open_vars (vars_of con.now) boxes.now)) }
    {
        if do_ascend(con) {
            return Ok(true);
        }
        let i = self.find(k, con)?;
        Ok(are_all_one(self.known[i].repeated(), boxes))
    }
}
