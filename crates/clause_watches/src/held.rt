//! `HeldBy`, the clauses that came to rest by the literal of one variable alone.
//!
//! A clause that rests so stands in the list of its variable until that one's box becomes wider;
//! the list may also have clauses that rest so no longer. Contracts see the list.
ghost use Rattle.std.specs.Prelude.{◌≡◌, ◌≢◌, ◌<◌, ℕ, [], ◌∷◌, ◌++◌, true, cond, ◌==◌, slice_set, length, OnOk, OnErr, IfNone, IfSome};
ghost use Rattle.clause_watches.specs.declared.rest.Rest.{Rest};
ghost use Rattle.clause_watches.specs.Watching.{rest_of};
ghost use Rattle.clause_watches.specs.Rows.{freed};
ghost use Rattle.clause_watches.specs.Sound.{held_of, IsSound};

use crate::rest::Rest;
use crate::rests::Rests;
use crate::steps::holds;
use crate::table::Table;
use std::alloc::{AllocError, Global};
use std::marker::Model;

/// The clauses that came to rest by the literal of one variable alone.
#[derive(Drop)]
pub(crate) struct HeldBy {
    clauses: Vec<u32>,
}

impl Model for HeldBy {
    ghost use Rattle.std.specs.Prelude.{ℕ, List};

    ghost Value = { List ℕ };

    ghost view = { λ h. h.clauses.items };
}

impl HeldBy {
    /// No clauses, without memory.
    pub(crate) fn new(alloc: Global) -> HeldBy
        ensures { result ≡ [] }
    {
        HeldBy {
            clauses: Vec::new(alloc),
        }
    }

    /// One clause more.
    pub(crate) fn push(&mut self, i: u32) -> Result<(), AllocError>
        ensures ok { OnOk result (self.new ≡ self.old ++ i ∷ []) }
        ensures err { OnErr result (self.new ≡ self.old) }
    {
        self.clauses.push(i)?;
        Ok(())
    }

    /// Takes out the clause that was put in last.
    pub(crate) fn take(&mut self) -> Option<u32>
        ensures some { IfSome result (λ i. self.old ≡ self.new ++ i ∷ []) }
        ensures none { IfNone result (self.old ≡ []) }
        ensures kept { IfNone result (self.new ≡ self.old) }
    {
        self.clauses.pop()
    }
}

/// Says that clause `i` rests by the literal of `x` alone. After an error all is as before.
pub(crate) fn hold(table: &mut Table, i: u32, x: u32) -> Result<(), AllocError>
    requires sound { IsSound table.old }
    requires row { x < length table.old.rows.items }
    requires there { i < length table.old.rests }
    requires named { rest_of table.old.rests i ≡ Rest.Half x }
    ensures sound { IsSound table.new }
    ensures added { table.new.added ≡ table.old.added }
    ensures count { length table.new.rows.items ≡ length table.old.rows.items }
    ensures changed { table.new.changed ≡ table.old.changed }
    ensures ok { OnOk result (table.new.rests ≡ slice_set table.old.rests i (Rest.Held x)) }
    ensures err { OnErr result (table.new.rests ≡ table.old.rests) }
{
    push_held(&mut table.held, i, x)?;
    table.rests.set(i, Rest::Held(x));
    Ok(())
}

/// Puts the clause into the list of the variable.
fn push_held(held: &mut Vec<HeldBy>, i: u32, x: u32) -> Result<(), AllocError>
    requires { x < length held.old.items }
    ensures count { length held.new.items ≡ length held.old.items }
    ensures others { (y : ℕ) → y ≢ x → held_of held.new.items y ≡ held_of held.old.items y }
    ensures ok { OnOk result (held_of held.new.items x ≡ held_of held.old.items x ++ i ∷ []) }
    ensures err { OnErr result (held_of held.new.items x ≡ held_of held.old.items x) }
{
    held[x as usize].push(i)?;
    Ok(())
}

/// Lists the clauses that rest by the literal of `x` alone, since its box has become wider. It
/// costs those that came to rest so since it was called last, and takes no memory.
pub(crate) fn free_all(table: &mut Table, x: u32)
    requires sound { IsSound table.old }
    requires row { x < length table.old.rows.items }
    ensures sound { IsSound table.new }
    ensures added { table.new.added ≡ table.old.added }
    ensures count { length table.new.rows.items ≡ length table.old.rows.items }
    ensures changed { table.new.changed ≡ table.old.changed }
    ensures size { length table.new.rests ≡ length table.old.rests }
    ensures rests { (i : ℕ) → rest_of table.new.rests i ≡ freed x (rest_of table.old.rests i) }
{
    while let Some(i) = take_held(&mut table.held, x) {
        free(&mut table.rests, i, x);
    }
}

/// Takes a clause out of the list of the variable.
fn take_held(held: &mut Vec<HeldBy>, x: u32) -> Option<u32>
    requires { x < length held.old.items }
    ensures count { length held.new.items ≡ length held.old.items }
    ensures others { (y : ℕ) → y ≢ x → held_of held.new.items y ≡ held_of held.old.items y }
    ensures some { IfSome result (λ i. held_of held.old.items x
        ≡ held_of held.new.items x ++ i ∷ []) }
    ensures none { IfNone result (held_of held.old.items x ≡ []) }
    ensures kept { IfNone result (held_of held.new.items x ≡ held_of held.old.items x) }
{
    held[x as usize].take()
}

/// Lists clause `i` if it rests by the literal of `x` alone.
fn free(rests: &mut Rests, i: u32, x: u32)
    ensures size { length rests.new ≡ length rests.old }
    ensures rests { (j : ℕ) → rest_of rests.new j
        ≡ cond (i == j) (freed x (rest_of rests.old j)) (rest_of rests.old j) }
{
    if (i as usize) < rests.len() && holds(rests.get(i), x) {
        rests.set(i, Rest::Half(x));
    }
}
