//! `PackedClause`, the literals of a clause once more, as a look at it asks for them.
//!
//! The literals of a clause lie far apart in memory, so a look reads these, which stand side by
//! side. A look begins at the literal that was met last. Contracts see the list of the literals.
ghost use Rattle.std.specs.List.{All};
ghost use Rattle.std.specs.Prelude.{◌≡◌, ◌<◌, ◌≤◌, ℕ, length, slice_index_or, IfOk};
ghost use Rattle.clause_watches.specs.declared.packed.PackedLiteral.{PackedLiteral};
ghost use Rattle.clause_watches.specs.Sound.{least_at, packed_of, IsCopy, IsPacked};

use crate::mask::mask_of;
use signed_clause::IntSet;
use std::alloc::{AllocError, Global};
use std::marker::Model;

/// A literal: its variable, and the values of its set as bits, from the least one of the domain on.
#[derive(Clone, Copy)]
pub(crate) struct PackedLiteral {
    /// The variable.
    pub(crate) variable: u32,
    /// Its set as bits.
    pub(crate) bits: u64,
}

/// The literals of a clause.
#[derive(Drop)]
pub(crate) struct PackedClause {
    literals: Vec<PackedLiteral>,
    met: usize,
}

impl Model for PackedClause {
    ghost use Rattle.std.specs.Prelude.{List};
    ghost use Rattle.clause_watches.specs.declared.packed.PackedLiteral.{PackedLiteral};

    ghost Value = { List PackedLiteral };

    ghost view = { λ p. p.literals.items };
}

impl PackedClause {
    /// The literals of a clause, of which none was met yet.
    #[tactic(auto, using(crate::proofs::PackLaws::packed_none, crate::proofs::PackLaws::packed_whole))]
    pub(crate) fn of(
        alloc: Global,
        lits: &[(u32, IntSet)],
        leasts: &[i64],
    ) -> Result<PackedClause, AllocError>
        requires { All (λ l. l.0 < length leasts.now) lits.now }
        ensures { IfOk result (λ p. IsPacked leasts.now lits.now p) }
    {
        let mut literals = Vec::with_capacity(alloc, lits.len())?;
        for l in lits {
            literals.push(pack_literal(l, leasts))?;
        }
        Ok(PackedClause { literals, met: 0 })
    }

    /// How many literals there are.
    pub(crate) fn len(&self) -> usize
        ensures { result ≡ length self.now }
    {
        self.literals.len()
    }

    /// The literal at index `k`.
    pub(crate) fn get(&self, k: usize) -> PackedLiteral
        requires { k < length self.now }
        ensures { (d : PackedLiteral) → result ≡ slice_index_or self.now k d }
    {
        self.literals[k]
    }

    /// The literals from which on a look begins.
    pub(crate) fn met(&self) -> usize
        ensures { result ≤ length self.now }
    {
        self.met.min(self.literals.len())
    }

    /// Says that the literal at index `k` was met.
    pub(crate) fn begin_at(&mut self, k: usize)
        ensures { self.new ≡ self.old }
    {
        self.met = k;
    }
}

/// The literal once more.
fn pack_literal(l: &(u32, IntSet), leasts: &[i64]) -> PackedLiteral
    requires { l.now.0 < length leasts.now }
    ensures { IsCopy leasts.now l.now result }
{
    let least = least_of(leasts, l.0);
    PackedLiteral {
        variable: l.0,
        bits: mask_of(&l.1, least),
    }
}

/// The least value of the domain of `x`.
pub(crate) fn least_of(leasts: &[i64], x: u32) -> i64
    requires { x < length leasts.now }
    ensures { result ≡ least_at leasts.now x }
{
    leasts[x as usize]
}

/// The literal at index `k` of clause `i`.
pub(crate) fn packed_at(packed: &[PackedClause], i: u32, k: usize) -> PackedLiteral
    requires clause { i < length packed.now }
    requires literal { k < length (packed_of packed.now i) }
    ensures { (d : PackedLiteral) → result ≡ slice_index_or (packed_of packed.now i) k d }
{
    packed[i as usize].get(k)
}

/// From which literal of clause `i` on a look begins, and how many there are.
pub(crate) fn begin_of(packed: &[PackedClause], i: u32) -> (usize, usize)
    requires { i < length packed.now }
    ensures begin { result.0 ≤ result.1 }
    ensures size { result.1 ≡ length (packed_of packed.now i) }
{
    let clause = &packed[i as usize];
    (clause.met(), clause.len())
}

/// Says that the literal at index `k` of clause `i` was met.
pub(crate) fn note_met(packed: &mut Vec<PackedClause>, i: u32, k: usize)
    requires { i < length packed.old.items }
    ensures size { length packed.new.items ≡ length packed.old.items }
    ensures same { (j : ℕ) → packed_of packed.new.items j ≡ packed_of packed.old.items j }
{
    packed[i as usize].begin_at(k);
}
