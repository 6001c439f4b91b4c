//! `Rests`, what is known of each added clause, and a list of those that need a look.
//!
//! A work list stands beside the rests, with all clauses that are still to be looked at. It may
//! also have clauses that are so no longer; those are passed over when their turn comes. Only
//! `push` takes memory. Contracts see the rests alone.
ghost use Rattle.std.specs.Prelude.{◌≡◌, ◌<◌, ◌^◌, ℕ, [], ◌∷◌, ◌++◌, true, false, slice_set, length, OnOk, OnErr, IfNone, IfSome};
ghost use Rattle.clause_watches.specs.Marks.{is_marked};
ghost use Rattle.clause_watches.specs.Watching.{rest_of, is_listed};
ghost use Rattle.clause_watches.specs.Keeping.{IsCovered};

use crate::rest::Rest;
use crate::steps::is_listed;
use crate::work_list::WorkList;
use std::alloc::{AllocError, Global};
use std::marker::Model;

/// What is known of each added clause.
#[derive(Drop)]
pub(crate) struct Rests {
    rests: Vec<Rest>,
    listed: WorkList,
}

impl Model for Rests {
    ghost use Rattle.std.specs.Prelude.{List};
    ghost use Rattle.clause_watches.specs.declared.rest.Rest.{Rest};
    ghost use Rattle.clause_watches.specs.Keeping.{IsCovered};

    ghost Value = { List Rest };

    ghost view = { λ r. r.rests.items };

    ghost invariant = { λ r. IsCovered r.rests.items r.listed };
}

impl Rests {
    /// No clauses, without memory.
    pub(crate) fn new(alloc: Global) -> Rests
        ensures { result ≡ [] }
    {
        Rests {
            rests: Vec::new(alloc),
            listed: WorkList::new(alloc),
        }
    }

    /// One clause more, of which nothing is known, and room for it in the list.
    pub(crate) fn push(&mut self) -> Result<(), AllocError>
        requires { length self.old < 2 ^ 32 }
        ensures ok { OnOk result (self.new ≡ self.old ++ Rest.Listed ∷ []) }
        ensures err { OnErr result (self.new ≡ self.old) }
    {
        let n = self.rests.len();
        self.listed.reach(n + 1)?;
        self.rests.push(Rest::Listed)?;
        self.listed.add(n as u32);
        Ok(())
    }

    /// How many clauses there are.
    pub(crate) fn len(&self) -> usize
        ensures { result ≡ length self.now }
    {
        self.rests.len()
    }

    /// What is known of clause `i`.
    pub(crate) fn get(&self, i: u32) -> Rest
        requires { i < length self.now }
        ensures { result ≡ rest_of self.now i }
    {
        self.rests[i as usize]
    }

    /// Says what is known of clause `i` from now on, and lists it where it has to be.
    pub(crate) fn set(&mut self, i: u32, rest: Rest)
        requires { i < length self.old }
        ensures { self.new ≡ slice_set self.old i rest }
    {
        self.rests[i as usize] = rest;
        if is_listed(rest) {
            self.listed.add(i);
        }
    }

    /// A clause that is still to be looked at, the one that was listed last. It stays listed.
    pub(crate) fn next_listed(&mut self) -> Option<u32>
        ensures rests { self.new ≡ self.old }
        ensures there { IfSome result (λ i. i < length self.old) }
        ensures some { IfSome result (λ i. is_listed (rest_of self.old i) ≡ true) }
        ensures none { IfNone result ((i : ℕ) → i < length self.old
            → is_listed (rest_of self.old i) ≡ false) }
    {
        find_listed(&self.rests, &mut self.listed)
    }
}

/// The first of the waiting clauses that is still to be looked at; those before it are taken out.
fn find_listed(rests: &[Rest], listed: &mut WorkList) -> Option<u32>
    requires { (i : ℕ) → i < length rests.now → is_listed (rest_of rests.now i) ≡ true
        → is_marked listed.old i ≡ true }
    ensures size { length listed.new ≡ length listed.old }
    ensures waits { (i : ℕ) → i < length rests.now → is_listed (rest_of rests.now i) ≡ true
        → is_marked listed.new i ≡ true }
    ensures there { IfSome result (λ i. i < length rests.now) }
    ensures some { IfSome result (λ i. is_listed (rest_of rests.now i) ≡ true) }
    ensures none { IfNone result ((i : ℕ) → i < length rests.now
        → is_listed (rest_of rests.now i) ≡ false) }
{
    while let Some(i) = listed.take() {
        if has_listed(rests, i) {
            listed.add(i);
            return Some(i);
        }
    }
    None
}

/// Whether there is a clause `i` that is still to be looked at.
fn has_listed(rests: &[Rest], i: u32) -> bool
    ensures there { result ≡ true → i < length rests.now }
    ensures exact { i < length rests.now → result ≡ is_listed (rest_of rests.now i) }
{
    let i = i as usize;
    i < rests.len() && is_listed(rests[i])
}
