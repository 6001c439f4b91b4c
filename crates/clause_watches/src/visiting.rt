//! The first half of a search for a clause: rows of variables that were noted are walked.
ghost use Rattle.std.specs.Prelude.{◌≡◌, ◌≢◌, ◌<◌, ℕ, Bool, List, false, true, length, slice_index_or};
ghost use Rattle.signed_clause.specs.Ranges.{Ranges, IsValid};
ghost use Rattle.signed_clause.specs.Clauses.{box_of};
ghost use Rattle.clause_watches.specs.declared.rest.Rest.{Rest};
ghost use Rattle.clause_watches.specs.Marks.{is_marked, count_marked};
ghost use Rattle.clause_watches.specs.Rows.{AreBelow, IsMaskOf, IsWalked};
ghost use Rattle.clause_watches.specs.Sound.{row_of, least_at, IsSound, AreKnown, IsUnmarked};

use crate::mask::mask_of;
use crate::rests::Rests;
use crate::row::{Row, walk};
use crate::table::Table;
use crate::watch::Site;
use signed_clause::IntSet;

/// Walks the rows of all variables that were noted. It takes no memory, and costs the watches
/// of those rows.
#[tactic(auto, using(crate::proofs::MarkLaws::marked_below))]
pub(crate) fn visit_rows(table: &mut Table, boxes: &[IntSet])
    requires sound { IsSound table.old }
    requires boxes { length boxes.now ≡ length table.old.rows.items }
    requires known { AreKnown boxes.now table.old.added.items table.old.rests table.old.changed }
    ensures sound { IsSound table.new }
    ensures added { table.new.added ≡ table.old.added }
    ensures count { length table.new.rows.items ≡ length table.old.rows.items }
    ensures size { length table.new.rests ≡ length table.old.rests }
    ensures changed { (x : ℕ) → is_marked table.new.changed x ≡ false }
    ensures known { AreKnown boxes.now table.new.added.items table.new.rests table.new.changed }
{
    while let Some(x) = table.changed.take() {
        visit_row(table, boxes, x);
    }
}

/// The box of a variable.
pub(crate) fn box_at(boxes: &[IntSet], x: u32) -> &IntSet
    requires { x < length boxes.now }
    ensures { result.now ≡ box_of boxes.now x }
{
    &boxes[x as usize]
}

/// Walks the row of the site's variable.
fn walk_row(rows: &mut Vec<Row>, rests: &mut Rests, at: &IntSet, site: Site)
    requires there { site.variable < length rows.old.items }
    requires below { AreBelow (length rests.old) (row_of rows.old.items site.variable) }
    ensures size { length rests.new ≡ length rests.old }
    ensures count { length rows.new.items ≡ length rows.old.items }
    ensures others { (y : ℕ) → y ≢ site.variable
        → row_of rows.new.items y ≡ row_of rows.old.items y }
    ensures below { AreBelow (length rests.new) (row_of rows.new.items site.variable) }
    ensures walked { (sets : ℕ → Ranges) (before : List Rest) → IsMaskOf site.least at.now site.mask
        → IsValid at.now → ((i : ℕ) → IsValid (sets i))
        → IsWalked sets at.now site before rests.old (row_of rows.old.items site.variable) 0
        → IsWalked sets at.now site before rests.new (row_of rows.new.items site.variable)
        (length (row_of rows.new.items site.variable)) }
{
    walk(&mut rows[site.variable as usize], rests, at, site);
}

/// What a walk along the row of `x` asks of its box.
fn site_of(table: &Table, at: &IntSet, x: u32) -> Site
    requires leasts { x < length table.now.leasts.items }
    ensures variable { result.variable ≡ x }
    ensures least { result.least ≡ least_at table.now.leasts.items result.variable }
    ensures mask { IsMaskOf result.least at.now result.mask }
    ensures valid { IsValid at.now }
{
    let least = table.leasts[x as usize];
    Site {
        variable: x,
        least,
        mask: mask_of(at, least),
    }
}

/// Walks the row of a variable that was noted and isn't any longer.
fn visit_row(table: &mut Table, boxes: &[IntSet], x: u32)
    requires sound { IsSound table.old }
    requires there { x < length table.old.rows.items }
    requires boxes { length boxes.now ≡ length table.old.rows.items }
    ensures sound { IsSound table.new }
    ensures added { table.new.added ≡ table.old.added }
    ensures count { length table.new.rows.items ≡ length table.old.rows.items }
    ensures size { length table.new.rests ≡ length table.old.rests }
    ensures changed { table.new.changed ≡ table.old.changed }
    ensures known { (before : List Bool) → is_marked before x ≡ true
        → IsUnmarked x before table.old.changed
        → AreKnown boxes.now table.old.added.items table.old.rests before
        → AreKnown boxes.now table.new.added.items table.new.rests table.new.changed }
{
    let at = box_at(boxes, x);
    let site = site_of(table, at, x);
    table.counts.met = table.counts.met.saturating_add(row_len(&table.rows, x));
    walk_row(&mut table.rows, &mut table.rests, at, site);
}

/// How many watches the row of `x` has.
fn row_len(rows: &[Row], x: u32) -> u64
    requires { x < length rows.now }
{
    rows[x as usize].len() as u64
}
