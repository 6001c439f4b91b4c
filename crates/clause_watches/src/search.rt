//! The second half of a search for a clause: listed clauses are opened one after the other.
ghost use Rattle.std.specs.Prelude.{◌≡◌, ◌<◌, ℕ, List, false, true, length, IfOk, IfNone, IfSome};
ghost use Rattle.signed_clause.specs.SetAlgebra.{is_within};
ghost use Rattle.signed_clause.specs.Clauses.{box_of, set_of};
ghost use Rattle.clause_watches.specs.Watching.{acts, clause_of, rest_of, is_listed, Meets};
ghost use Rattle.clause_watches.specs.Sound.{IsSound};
ghost use Rattle.clause_watches.specs.Looking.{AreKnownNow, left_in};

use crate::held::hold;
use crate::link::add_link;
use crate::look::find_link;
use crate::packed::note_met;
use crate::rest::Rest;
use crate::table::Table;
use signed_clause::{Clause, IntSet};
use std::alloc::AllocError;

/// Opens listed clauses, until one is found that is false or unit. Others that are opened rest from
/// then on. After an error all that is known of clauses is still true.
pub(crate) fn find_acting(table: &mut Table, boxes: &[IntSet]) -> Result<Option<u32>, AllocError>
    requires sound { IsSound table.old }
    requires boxes { length boxes.now ≡ length table.old.rows.items }
    requires known { AreKnownNow boxes.now table.old.added.items table.old.rests }
    ensures sound { IsSound table.new }
    ensures added { table.new.added ≡ table.old.added }
    ensures count { length table.new.rows.items ≡ length table.old.rows.items }
    ensures changed { table.new.changed ≡ table.old.changed }
    ensures known { AreKnownNow boxes.now table.new.added.items table.new.rests }
    ensures there { IfOk result (λ o. IfSome o (λ i. i < length table.new.added.items)) }
    ensures acts { IfOk result (λ o. IfSome o (λ i.
        acts boxes.now (clause_of table.new.added.items i) ≡ true)) }
    ensures listed { IfOk result (λ o. IfSome o (λ i.
        is_listed (rest_of table.new.rests i) ≡ true)) }
    ensures none { IfOk result (λ o. IfNone o ((i : ℕ) → i < length table.new.added.items
        → is_listed (rest_of table.new.rests i) ≡ false)) }
{
    while let Some(i) = table.rests.next_listed() {
        if look(table, i, boxes)? {
            return Ok(Some(i));
        }
    }
    Ok(None)
}

/// Opens clause `i`, and answers whether it is false or unit. If not, one literal more is found to
/// meet its box, or that the clause rests by one.
fn look(table: &mut Table, i: u32, boxes: &[IntSet]) -> Result<bool, AllocError>
    requires sound { IsSound table.old }
    requires there { i < length table.old.rests }
    requires listed { is_listed (rest_of table.old.rests i) ≡ true }
    requires boxes { length boxes.now ≡ length table.old.rows.items }
    requires known { AreKnownNow boxes.now table.old.added.items table.old.rests }
    ensures sound { IsSound table.new }
    ensures added { table.new.added ≡ table.old.added }
    ensures count { length table.new.rows.items ≡ length table.old.rows.items }
    ensures changed { table.new.changed ≡ table.old.changed }
    ensures known { AreKnownNow boxes.now table.new.added.items table.new.rests }
    ensures acts { IfOk result (λ b. b ≡ true
        → acts boxes.now (clause_of table.new.added.items i) ≡ true) }
    ensures kept { IfOk result (λ b. b ≡ true → table.new.rests ≡ table.old.rests) }
    ensures less { IfOk result (λ b. b ≡ false
        → left_in table.new.rests < left_in table.old.rests) }
{
    table.counts.opened = table.counts.opened.saturating_add(1);
    match find_link(table, i, boxes) {
        Some(link) => {
            add_link(table, link)?;
            note_met(&mut table.packed, i, link.place);
            Ok(false)
        }
        None => match find_holding(table, i, boxes) {
            Some(x) => {
                hold(table, i, x)?;
                Ok(false)
            }
            None => Ok(true),
        },
    }
}

/// The variable that is known of clause `i`, if its box lies within its literal's set.
fn find_holding(table: &Table, i: u32, boxes: &[IntSet]) -> Option<u32>
    requires sound { IsSound table.now }
    requires there { i < length table.now.rests }
    requires boxes { length boxes.now ≡ length table.now.rows.items }
    requires known { AreKnownNow boxes.now table.now.added.items table.now.rests }
    ensures row { IfSome result (λ x. x < length table.now.rows.items) }
    ensures some { IfSome result (λ x. rest_of table.now.rests i ≡ Rest.Half x) }
    ensures within { IfSome result (λ x. is_within (box_of boxes.now x)
        (set_of (clause_of table.now.added.items i) x) ≡ true) }
    ensures none { IfNone result ((x : ℕ) → rest_of table.now.rests i ≡ Rest.Half x
        → is_within (box_of boxes.now x) (set_of (clause_of table.now.added.items i) x) ≡ false) }
{
    match table.rests.get(i) {
        Rest::Half(x) if lies_within(table.added[i as usize].1.clause(), x, boxes) => Some(x),
        _ => None,
    }
}

/// Whether the box of a literal that meets it lies within the literal's set.
fn lies_within(clause: &Clause, x: u32, boxes: &[IntSet]) -> bool
    requires row { x < length boxes.now }
    requires meets { Meets boxes.now clause.now x }
    ensures { result ≡ is_within (box_of boxes.now x) (set_of clause.now x) }
{
    match clause.set_of(x) {
        Some(set) => boxes[x as usize].within(set),
        None => false,
    }
}
