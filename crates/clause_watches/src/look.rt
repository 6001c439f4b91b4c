//! What a look at a clause finds: a literal that meets its box, read from the packed literals.
ghost use Rattle.std.specs.Prelude.{◌≡◌, ◌<◌, ◌≤◌, ℕ, List, ℤ, false, true, length, slice_index_or, IfNone, IfSome};
ghost use Rattle.std.specs.List.{All};
ghost use Rattle.signed_clause.specs.SetAlgebra.{is_disjoint};
ghost use Rattle.signed_clause.specs.Clauses.{IsClause};
ghost use Rattle.clause_watches.specs.Watching.{clause_of, rest_of};
ghost use Rattle.clause_watches.specs.Rows.{IsTrueOf};
ghost use Rattle.clause_watches.specs.Sound.{IsCopy, IsSound};
ghost use Rattle.clause_watches.specs.Looking.{IsOut, IsShown, AreOutBetween, IsLink};

use crate::mask::box_bits;
use crate::packed::{PackedLiteral, begin_of, least_of, packed_at};
use crate::steps::names;
use crate::table::Table;
use crate::visiting::box_at;
use crate::watch::{Link, Watch, Witness};
use crate::witness::witness_of;
use signed_clause::{ClauseHandle, IntSet};

/// A watch of clause `i` by a literal that isn't known yet to meet its box, and does. It begins at
/// the literal that was met last.
#[tactic(auto, using(crate::proofs::PackLaws::out_all))]
pub(crate) fn find_link(table: &Table, i: u32, boxes: &[IntSet]) -> Option<Link>
    requires sound { IsSound table.now }
    requires there { i < length table.now.added.items }
    requires boxes { length boxes.now ≡ length table.now.rows.items }
    ensures some { IfSome result (λ l. IsLink boxes.now table.now.added.items table.now.leasts.items
        i (rest_of table.now.rests i) l) }
    ensures none { IfNone result (All (λ l. IsOut boxes.now (rest_of table.now.rests i) l)
        (clause_of table.now.added.items i)) }
{
    let (begin, end) = begin_of(table.packed.as_slice(), i);
    match find_between(table, i, boxes, begin, end) {
        Some(link) => Some(link),
        None => find_between(table, i, boxes, 0, begin),
    }
}

/// A watch by one of the literals from index `from` to before `to`.
#[tactic(auto, using(crate::proofs::PackLaws::out_more, crate::proofs::PackLaws::out_fewer))]
fn find_between(table: &Table, i: u32, boxes: &[IntSet], from: usize, to: usize) -> Option<Link>
    requires sound { IsSound table.now }
    requires there { i < length table.now.added.items }
    requires boxes { length boxes.now ≡ length table.now.rows.items }
    requires order { from ≤ to }
    requires within { to ≤ length (clause_of table.now.added.items i) }
    ensures some { IfSome result (λ l. IsLink boxes.now table.now.added.items table.now.leasts.items
        i (rest_of table.now.rests i) l) }
    ensures none { IfNone result (AreOutBetween boxes.now (rest_of table.now.rests i)
        (clause_of table.now.added.items i) from to) }
{
    let mut k = from;
    while k < to {
        match link_at(table, i, boxes, k) {
            Some(link) => return Some(link),
            None => k += 1,
        }
    }
    None
}

/// A watch by the literal at index `k`, if it isn't known yet to meet its box, and does.
fn link_at(table: &Table, i: u32, boxes: &[IntSet], k: usize) -> Option<Link>
    requires sound { IsSound table.now }
    requires there { i < length table.now.added.items }
    requires boxes { length boxes.now ≡ length table.now.rows.items }
    requires within { k < length (clause_of table.now.added.items i) }
    ensures some { IfSome result (λ l. IsLink boxes.now table.now.added.items table.now.leasts.items
        i (rest_of table.now.rests i) l) }
    ensures none { IfNone result ((d : ℕ × List (ℤ × ℤ)) → IsOut boxes.now
        (rest_of table.now.rests i) (slice_index_or (clause_of table.now.added.items i) k d)) }
{
    let l = packed_at(table.packed.as_slice(), i, k);
    if names(table.rests.get(i), l.variable) {
        return None;
    }
    let witness = witness_by(table, i, k, l, box_at(boxes, l.variable))?;
    Some(Link {
        variable: l.variable,
        watch: Watch { clause: i, witness },
        place: k,
    })
}

/// A witness of the literal at index `k`, if it meets the box. The clause itself is opened only
/// where its bits and those of the box don't tell.
fn witness_by(table: &Table, i: u32, k: usize, l: PackedLiteral, at: &IntSet) -> Option<Witness>
    requires there { i < length table.now.added.items }
    requires within { k < length (clause_of table.now.added.items i) }
    requires leasts { l.variable < length table.now.leasts.items }
    requires form { IsClause (clause_of table.now.added.items i) }
    requires copy { (d : ℕ × List (ℤ × ℤ)) → IsCopy table.now.leasts.items
        (slice_index_or (clause_of table.now.added.items i) k d) l }
    ensures some { IfSome result (λ w. (d : ℕ × List (ℤ × ℤ)) → IsShown table.now.leasts.items
        at.now (slice_index_or (clause_of table.now.added.items i) k d) w) }
    ensures none { IfNone result ((d : ℕ × List (ℤ × ℤ)) → is_disjoint
        (slice_index_or (clause_of table.now.added.items i) k d).1 at.now ≡ true) }
{
    let least = least_of(table.leasts.as_slice(), l.variable);
    let seen = box_bits(at, least);
    if l.bits & seen.bits != 0 {
        return Some(Witness::Mask(l.bits));
    }
    if seen.whole {
        return None;
    }
    own_witness(&literals_at(table.added.as_slice(), i)[k].1, at, least)
}

/// A witness of the set, if it meets the box.
fn own_witness(set: &IntSet, at: &IntSet, least: i64) -> Option<Witness>
    ensures meets { IfSome result (λ _. is_disjoint set.now at.now ≡ false) }
    ensures right { IfSome result (λ w. IsTrueOf least set.now w) }
    ensures none { IfNone result (is_disjoint set.now at.now ≡ true) }
{
    if set.disjoint(at) {
        return None;
    }
    Some(witness_of(set, at, least))
}

/// The literals of clause `i`.
fn literals_at(added: &[(u64, ClauseHandle)], i: u32) -> &[(u32, IntSet)]
    requires { i < length added.now }
    ensures items { result.now ≡ clause_of added.now i }
    ensures form { IsClause result.now }
{
    added[i as usize].1.clause().literals()
}
