//! `RunningClause`, the clause that a chain of resolution steps runs through.
//!
//! It is a table of sets by variable, empty where the clause says nothing, so a step costs the
//! literals of the other clause alone, however long the running clause is; a literal that says no
//! more than the running clause makes no set. The table is made once for a number of variables and
//! used again and again: beside it stands a list of the variables that were used, and `load`,
//! `take` and `clear` walk that list, not the table. A variable whose set isn't empty always stands
//! in the list; the list may hold others, and may hold one twice. Contracts see the list of the
//! sets, and the clause is `listed 0` of it.
ghost use Rattle.std.specs.Prelude.{◌≡◌, ◌<◌, ◌≤◌, ◌+◌, ◌↔◌, ◌++◌, [], cond, length, slice_set};
ghost use Rattle.std.specs.Prelude.{IsTrue, IfOk, IfSome, IfNone, OnOk, OnErr};
ghost use Rattle.std.specs.List.{All, Contains};
ghost use Rattle.std.specs.List.Sorted.{IsNonDecreasing};
ghost use Rattle.std.specs.Vec.{vec_capacity, vec_len};
ghost use Rattle.signed_clause.specs.Ranges.{IsValid};
ghost use Rattle.signed_clause.specs.SetAlgebra.{meet, join};
ghost use Rattle.signed_clause.specs.Clauses.{resolvent, has_var, set_of, box_of, IsClause, IsResolvent, IsWithinBoxes};
ghost use Rattle.running_clause.specs.Running.{listed, literal_of, loaded, taken_in, both_sets, AreEmpty, AreNoted, IsTable};

use signed_clause::{Clause, IntSet};
use std::alloc::{AllocError, Global};
use std::marker::Model;
use std::mem;

/// A clause as a table of sets by variable, empty where there is no literal.
pub struct RunningClause {
    sets: Vec<IntSet>,
    used: Vec<u32>,
}

impl Drop for RunningClause {
    fn drop(self) {
        let RunningClause { sets: _, used: _ } = self;
    }
}

impl Model for RunningClause {
    ghost use Rattle.std.specs.Prelude.{ℤ, List};
    ghost use Rattle.running_clause.specs.Running.{IsTable};

    ghost Value = { List (List (ℤ × ℤ)) };

    ghost view = { λ r. r.sets.items };

    ghost invariant = { λ r. IsTable r.sets.items r.used.items };
}

impl RunningClause {
    /// The empty clause, in a table of so many variables.
    pub fn new(alloc: Global, variables: u32) -> Result<RunningClause, AllocError>
        ensures list { IfOk result (λ r. listed 0 r ≡ []) }
        ensures len { IfOk result (λ r. length r ≡ variables) }
    {
        let sets = empty_sets(alloc, variables)?;
        Ok(RunningClause {
            sets,
            used: Vec::new(alloc),
        })
    }

    /// Whether the table has all variables of the clause. It looks at the last one alone, since
    /// they ascend.
    pub fn covers(&self, b: &Clause) -> bool
        ensures { IsTrue result ↔ IsWithinBoxes b.now self.now }
    {
        match b.literals().last() {
            Some(l) => (l.0 as usize) < self.sets.as_slice().len(),
            None => true,
        }
    }

    /// Whether there is a literal of `x`.
    #[tactic(auto, using(crate::proofs::RunningLaws::has_listed))]
    pub fn has(&self, x: u32) -> bool
        ensures { result ≡ has_var (listed 0 self.now) x }
    {
        let sets = self.sets.as_slice();
        let at = x as usize;
        at < sets.len() && !sets[at].is_empty()
    }

    /// The set of `x`, empty where there is no literal: one look-up.
    #[tactic(auto, using(crate::proofs::RunningLaws::set_listed))]
    pub fn set_of(&self, x: u32) -> &IntSet
        requires { x < length self.now }
        ensures { result.now ≡ set_of (listed 0 self.now) x }
    {
        &self.sets.as_slice()[x as usize]
    }

    /// Makes it this clause; whatever it was before is forgotten. After an error it is some clause
    /// over the same variables.
    pub fn load(&mut self, a: &Clause) -> Result<(), AllocError>
        requires { IsWithinBoxes a.now self.old }
        ensures list { OnOk result (listed 0 self.new ≡ a.now) }
        ensures len { length self.new ≡ length self.old }
    {
        empty_out(&mut self.sets, self.used.as_slice());
        self.used.clear();
        load_literals(&mut self.sets, &mut self.used, a.literals())
    }

    /// Makes it the resolvent with a clause on `x`, of which both have a literal. It costs the
    /// literals of `b`. After an error it is some clause over the same variables.
    pub fn resolve(&mut self, b: &Clause, x: u32) -> Result<(), AllocError>
        requires vars { IsWithinBoxes b.now self.old }
        requires first { IsTrue (has_var (listed 0 self.old) x) }
        requires second { IsTrue (has_var b.now x) }
        ensures list { OnOk result (listed 0 self.new ≡ resolvent x (listed 0 self.old) b.now) }
        ensures law { OnOk result (IsResolvent x (listed 0 self.old) b.now (listed 0 self.new)) }
        ensures len { length self.new ≡ length self.old }
    {
        take_literals(&mut self.sets, &mut self.used, b.literals(), x)
    }

    /// The clause, moved out: what is left is the empty clause, also after an error. Sets are
    /// moved, and only the list of the clause takes memory.
    pub fn take(&mut self, alloc: Global) -> Result<Clause, AllocError>
        ensures list { IfOk result (λ c. c ≡ listed 0 self.old) }
        ensures form { IfOk result (λ c. IsClause c) }
        ensures empty { listed 0 self.new ≡ [] }
        ensures len { length self.new ≡ length self.old }
    {
        self.used.sort_unstable();
        match Vec::with_capacity(alloc, self.used.len()) {
            Ok(room) => {
                let literals = move_literals(room, &mut self.sets, self.used.as_slice());
                self.used.clear();
                Ok(Clause::made_of(literals))
            }
            Err(error) => {
                empty_out(&mut self.sets, self.used.as_slice());
                self.used.clear();
                Err(error)
            }
        }
    }

    /// Makes it the empty clause. It takes no memory.
    pub fn clear(&mut self)
        ensures list { listed 0 self.new ≡ [] }
        ensures len { length self.new ≡ length self.old }
    {
        empty_out(&mut self.sets, self.used.as_slice());
        self.used.clear();
    }
}

/// So many empty sets.
#[tactic(auto, using(crate::proofs::RunningLaws::empty_push))]
fn empty_sets(alloc: Global, count: u32) -> Result<Vec<IntSet>, AllocError>
    ensures empty { IfOk result (λ s. AreEmpty s.items) }
    ensures len { IfOk result (λ s. length s.items ≡ count) }
{
    let mut sets = Vec::with_capacity(alloc, count as usize)?;
    for _ in 0..count {
        sets.push(IntSet::empty(alloc))?;
    }
    Ok(sets)
}

/// Empties the sets of the used variables.
fn empty_out(sets: &mut Vec<IntSet>, used: &[u32])
    requires within { All (λ x. x < length sets.old.items) used.now }
    requires noted { AreNoted sets.old.items used.now }
    ensures empty { AreEmpty sets.new.items }
    ensures len { length sets.new.items ≡ length sets.old.items }
{
    for x in used {
        empty_at(sets, *x);
    }
}

/// Empties a variable's set.
fn empty_at(sets: &mut Vec<IntSet>, x: u32)
    requires { x < length sets.old.items }
    ensures { sets.new.items ≡ slice_set sets.old.items x [] }
{
    sets[x as usize] = IntSet::empty(*sets.allocator());
}

/// Notes a variable whose set is about to change.
fn note(sets: &[IntSet], used: &mut Vec<u32>, x: u32) -> Result<(), AllocError>
    requires { x < length sets.now }
    ensures noted { OnOk result (IsTable sets.now used.old.items → Contains used.new.items x) }
    ensures table { IsTable sets.now used.old.items → IsTable sets.now used.new.items }
{
    if sets[x as usize].is_empty() {
        used.push(x)?;
    }
    Ok(())
}

/// Changes a variable's set.
fn put(sets: &mut Vec<IntSet>, used: &mut Vec<u32>, x: u32, set: IntSet) -> Result<(), AllocError>
    requires var { x < length sets.old.items }
    requires valid { IsValid set }
    ensures list { OnOk result (sets.new.items ≡ slice_set sets.old.items x set) }
    ensures err { OnErr result (sets.new.items ≡ sets.old.items) }
    ensures table { IsTable sets.old.items used.old.items → IsTable sets.new.items used.new.items }
{
    note(sets.as_slice(), used, x)?;
    sets[x as usize] = set;
    Ok(())
}

/// Puts the literals into the table.
fn load_literals(
    sets: &mut Vec<IntSet>,
    used: &mut Vec<u32>,
    a: &[(u32, IntSet)],
) -> Result<(), AllocError>
    requires { IsWithinBoxes a.now sets.old.items }
    ensures list { OnOk result (sets.new.items ≡ loaded sets.old.items a.now) }
    ensures table { IsTable sets.old.items used.old.items → IsTable sets.new.items used.new.items }
    ensures len { length sets.new.items ≡ length sets.old.items }
{
    for m in a {
        load_literal(sets, used, m)?;
    }
    Ok(())
}

/// Puts a copy of a literal into the table.
fn load_literal(
    sets: &mut Vec<IntSet>,
    used: &mut Vec<u32>,
    m: &(u32, IntSet),
) -> Result<(), AllocError>
    requires { m.now.0 < length sets.old.items }
    ensures list { OnOk result (sets.new.items ≡ slice_set sets.old.items m.now.0 m.now.1) }
    ensures err { OnErr result (sets.new.items ≡ sets.old.items) }
    ensures table { IsTable sets.old.items used.old.items → IsTable sets.new.items used.new.items }
{
    let set = m.1.copy()?;
    put(sets, used, m.0, set)
}

/// Takes the literals into the table, in a resolution on `x`.
fn take_literals(
    sets: &mut Vec<IntSet>,
    used: &mut Vec<u32>,
    b: &[(u32, IntSet)],
    x: u32,
) -> Result<(), AllocError>
    requires { IsWithinBoxes b.now sets.old.items }
    ensures list { OnOk result (sets.new.items ≡ taken_in x sets.old.items b.now) }
    ensures table { IsTable sets.old.items used.old.items → IsTable sets.new.items used.new.items }
    ensures len { length sets.new.items ≡ length sets.old.items }
{
    for m in b {
        take_literal(sets, used, m, x)?;
    }
    Ok(())
}

/// Takes a literal into the table, in a resolution on `x`. Where the table says it already, no set
/// is made.
#[tactic(auto, using(crate::proofs::RunningLaws::set_again))]
fn take_literal(
    sets: &mut Vec<IntSet>,
    used: &mut Vec<u32>,
    m: &(u32, IntSet),
    x: u32,
) -> Result<(), AllocError>
    requires { m.now.0 < length sets.old.items }
    ensures list { OnOk result (sets.new.items
        ≡ slice_set sets.old.items m.now.0
        (both_sets x m.now.0 (box_of sets.old.items m.now.0) m.now.1)) }
    ensures err { OnErr result (sets.new.items ≡ sets.old.items) }
    ensures table { IsTable sets.old.items used.old.items → IsTable sets.new.items used.new.items }
{
    match both(&sets[m.0 as usize], &m.1, m.0 == x)? {
        Some(set) => put(sets, used, m.0, set),
        None => Ok(()),
    }
}

/// What two sets of a variable leave: of the pivot the meet, of another variable the join. None
/// where the second set adds nothing to the first, which then is the join.
#[tactic(auto, using(crate::proofs::RunningLaws::join_within))]
fn both(s: &IntSet, t: &IntSet, pivot: bool) -> Result<Option<IntSet>, AllocError>
    ensures some { IfOk result (λ o. IfSome o (λ r.
        r ≡ cond pivot (meet s.now t.now) (join s.now t.now))) }
    ensures none { IfOk result (λ o. IfNone o
        (s.now ≡ cond pivot (meet s.now t.now) (join s.now t.now))) }
    ensures valid { IfOk result (λ o. IfSome o (λ r. IsValid r)) }
{
    if pivot {
        return Ok(Some(s.meet(t)?));
    }
    // both are valid, as `ranges` says
    let _first = s.ranges();
    let _second = t.ranges();
    if t.within(s) {
        Ok(None)
    } else {
        Ok(Some(s.join(t)?))
    }
}

/// Moves the literals out of the table, into a list that has the room.
fn move_literals(
    room: Vec<(u32, IntSet)>,
    sets: &mut Vec<IntSet>,
    used: &[u32],
) -> Vec<(u32, IntSet)>
    requires within { All (λ x. x < length sets.old.items) used.now }
    requires noted { AreNoted sets.old.items used.now }
    requires sorted { IsNonDecreasing used.now }
    requires none { room.items ≡ [] }
    requires room { length used.now ≤ vec_capacity room }
    ensures list { result.items ≡ listed 0 sets.old.items }
    ensures empty { AreEmpty sets.new.items }
    ensures len { length sets.new.items ≡ length sets.old.items }
{
    let mut out = room;
    for x in used {
        move_literal(&mut out, sets, *x);
    }
    out
}

/// Moves the literal of `x` out of the table, where there is one.
fn move_literal(out: &mut Vec<(u32, IntSet)>, sets: &mut Vec<IntSet>, x: u32)
    requires var { x < length sets.old.items }
    requires room { vec_len out.old < vec_capacity out.old }
    ensures list { out.new.items ≡ out.old.items ++ literal_of x (box_of sets.old.items x) }
    ensures sets { sets.new.items ≡ slice_set sets.old.items x [] }
    ensures len { vec_len out.new ≤ vec_len out.old + 1 }
    ensures room { vec_capacity out.new ≡ vec_capacity out.old }
{
    let empty = IntSet::empty(*sets.allocator());
    let set = mem::replace(&mut sets[x as usize], empty);
    if !set.is_empty() {
        out.push_reserved((x, set));
    }
}
