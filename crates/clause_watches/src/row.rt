//! `Row`, the clauses that one variable watches.
//!
//! A walk along the row takes out the watches whose witness lies outside of the box; only for those
//! is anything written down. Contracts see the list of the watches.
ghost use Rattle.std.specs.Prelude.{◌≡◌, ◌<◌, ◌≤◌, ◌+◌, ◌-◌, ◌^◌, ℕ, Bool, List, ℤ, [], ◌∷◌, ◌++◌, true, false, cond, ◌==◌, take, slice_index_or, slice_set, length, OnOk, OnErr, IfNone, IfSome};
ghost use Rattle.std.specs.List.{All};
ghost use Rattle.std.specs.List.Sorted.{IsPermutation};
ghost use Rattle.signed_clause.specs.Ranges.{Ranges, IsValid};
ghost use Rattle.signed_clause.specs.SetAlgebra.{is_disjoint};
ghost use Rattle.clause_watches.specs.declared.watch.Watch.{Watch};
ghost use Rattle.clause_watches.specs.declared.rest.Rest.{Rest};
ghost use Rattle.clause_watches.specs.Watching.{rest_of};
ghost use Rattle.clause_watches.specs.Rows.{AreBelow, IsMaskOf, IsTrueOf, IsWalked, forgotten};

use crate::rest::Rest;
use crate::rests::Rests;
use crate::steps::forgotten;
use crate::watch::{Site, Watch, Witness};
use signed_clause::IntSet;
use std::alloc::{AllocError, Global};
use std::marker::Model;

/// The clauses that one variable watches.
#[derive(Drop)]
pub(crate) struct Row {
    watches: Vec<Watch>,
}

impl Model for Row {
    ghost use Rattle.std.specs.Prelude.{List};
    ghost use Rattle.clause_watches.specs.declared.watch.Watch.{Watch};

    ghost Value = { List Watch };

    ghost view = { λ r. r.watches.items };
}

impl Row {
    /// No watches, without memory.
    pub(crate) fn new(alloc: Global) -> Row
        ensures { result ≡ [] }
    {
        Row {
            watches: Vec::new(alloc),
        }
    }

    /// How many watches there are.
    pub(crate) fn len(&self) -> usize
        ensures { result ≡ length self.now }
    {
        self.watches.len()
    }

    /// The watch at index `k`.
    pub(crate) fn get(&self, k: usize) -> Watch
        requires { k < length self.now }
        ensures watch { (d : Watch) → result ≡ slice_index_or self.now k d }
        ensures next { k + 1 < 2 ^ 64 }
    {
        self.watches[k]
    }

    /// One watch more.
    pub(crate) fn push(&mut self, watch: Watch) -> Result<(), AllocError>
        ensures ok { OnOk result (self.new ≡ self.old ++ watch ∷ []) }
        ensures err { OnErr result (self.new ≡ self.old) }
    {
        self.watches.push(watch)?;
        Ok(())
    }

    /// Takes out the watch at index `k`; the last one comes in its place.
    pub(crate) fn remove(&mut self, k: usize) -> Watch
        requires { k < length self.old }
        ensures watch { (d : Watch) → result ≡ slice_index_or self.old k d }
        ensures size { length self.new + 1 ≡ length self.old }
        ensures before { take k self.new ≡ take k self.old }
        ensures others { IsPermutation self.old (result ∷ self.new) }
    {
        self.watches.swap_remove(k)
    }
}

/// Walks the row of a variable whose box may have become narrower. A watch whose witness shows that
/// its literal meets the box stays, and its clause isn't looked at. Any other goes, and of its
/// clause nothing is known of this variable any longer. It looks at each watch once, and takes no
/// memory.
pub(crate) fn walk(row: &mut Row, rests: &mut Rests, at: &IntSet, site: Site)
    requires { AreBelow (length rests.old) row.old }
    ensures size { length rests.new ≡ length rests.old }
    ensures below { AreBelow (length rests.new) row.new }
    ensures walked { (sets : ℕ → Ranges) (before : List Rest) → IsMaskOf site.least at.now site.mask
        → IsValid at.now → ((i : ℕ) → IsValid (sets i))
        → IsWalked sets at.now site before rests.old row.old 0
        → IsWalked sets at.now site before rests.new row.new (length row.new) }
{
    let mut k = 0;
    while k < row.len() {
        k = visit(row, k, rests, at, site);
    }
}

/// Looks at one watch, and answers the index at which the walk goes on.
fn visit(row: &mut Row, k: usize, rests: &mut Rests, at: &IntSet, site: Site) -> usize
    requires there { k < length row.old }
    requires below { AreBelow (length rests.old) row.old }
    ensures size { length rests.new ≡ length rests.old }
    ensures below { AreBelow (length rests.new) row.new }
    ensures within { result ≤ length row.new }
    ensures less { length row.new - result < length row.old - k }
    ensures walked { (sets : ℕ → Ranges) (before : List Rest) → IsMaskOf site.least at.now site.mask
        → IsValid at.now → ((i : ℕ) → IsValid (sets i))
        → IsWalked sets at.now site before rests.old row.old k
        → IsWalked sets at.now site before rests.new row.new result }
{
    let watch = row.get(k);
    if is_met(watch.witness, at, site.mask) {
        return k + 1;
    }
    row.remove(k);
    let rest = rests.get(watch.clause);
    rests.set(watch.clause, forgotten(rest, site.variable));
    k
}

/// Whether a witness shows that the literal meets the box, whose values the mask has as bits.
fn is_met(witness: Witness, at: &IntSet, mask: u64) -> bool
    ensures { result ≡ true → (least : ℤ) (set : Ranges) → IsMaskOf least at.now mask
        → IsTrueOf least set witness → IsValid set → IsValid at.now
        → is_disjoint set at.now ≡ false }
{
    match witness {
        Witness::Mask(bits) => bits & mask != 0,
        Witness::Value(v) => at.contains(v),
    }
}
