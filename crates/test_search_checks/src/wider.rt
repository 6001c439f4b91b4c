//! Boxes of which one is changed, and boxes that are wider than others.
ghost use Rattle.std.specs.Prelude.{◌≡◌, ◌<◌, true, false, length, slice_set};
ghost use Rattle.std.specs.List.{All};
ghost use Rattle.signed_clause.specs.Ranges.{IsValid, is_nil};
ghost use Rattle.signed_clause.specs.SetAlgebra.{is_within};
ghost use Rattle.signed_clause.specs.Clauses.{box_of};
ghost use Rattle.fd_store.specs.Undo.{AreWider};

use signed_clause::{Clause, IntSet};

/// Whether each variable of the clause is below the number.
pub(crate) fn are_below(clause: &Clause, count: usize) -> bool
    ensures { result ≡ true → All (λ l. l.0 < count) clause.now }
{
    let literals = clause.literals();
    for l in literals {
        if l.0 as usize >= count {
            return false;
        }
    }
    true
}

/// Whether the sets are sets, which their type says.
fn are_sets(sets: &[IntSet]) -> bool
    ensures { result ≡ true → All (λ s. IsValid s) sets.now }
{
    for s in sets {
        s.ranges();
    }
    true
}

/// Whether each of the large boxes has the values of the small one.
#[tactic(auto, using(crate::proofs::WiderBoxes::wider_made))]
pub fn are_wider(small: &[IntSet], large: &[IntSet]) -> bool
    ensures size { result ≡ true → length small.now ≡ length large.now }
    ensures wider { result ≡ true → AreWider small.now large.now }
{
    if small.len() != large.len() || !are_sets(small) || !are_sets(large) {
        return false;
    }
    for x in 0..small.len() {
        if !small[x].within(&large[x]) {
            return false;
        }
    }
    true
}

/// The box of a variable.
fn box_at(boxes: &[IntSet], x: u32) -> &IntSet
    requires { x < length boxes.now }
    ensures value { result.now ≡ box_of boxes.now x }
    ensures valid { IsValid result.now }
{
    let at = &boxes[x as usize];
    at.ranges();
    at
}

/// Whether the variable has a box, and the set is a part of it and has values.
pub(crate) fn is_part(boxes: &[IntSet], x: u32, set: &IntSet) -> bool
    ensures there { result ≡ true → x < length boxes.now }
    ensures some { result ≡ true → is_nil set.now ≡ false }
    ensures within { result ≡ true → is_within set.now (box_of boxes.now x) ≡ true }
    ensures box_valid { result ≡ true → IsValid (box_of boxes.now x) }
    ensures set_valid { result ≡ true → IsValid set.now }
{
    if x as usize >= boxes.len() {
        return false;
    }
    let at = box_at(boxes, x);
    set.ranges();
    !set.is_empty() && set.within(at)
}

/// Whether the variable has a box, and the set has all of its values.
pub(crate) fn has_box(boxes: &[IntSet], x: u32, set: &IntSet) -> bool
    ensures there { result ≡ true → x < length boxes.now }
    ensures within { result ≡ true → is_within (box_of boxes.now x) set.now ≡ true }
    ensures box_valid { result ≡ true → IsValid (box_of boxes.now x) }
    ensures set_valid { result ≡ true → IsValid set.now }
{
    if x as usize >= boxes.len() {
        return false;
    }
    let at = box_at(boxes, x);
    set.ranges();
    at.within(set)
}

/// Gives a variable another box.
pub(crate) fn set_box(boxes: &mut Vec<IntSet>, x: u32, set: IntSet)
    requires { x < length boxes.old.items }
    ensures { boxes.new.items ≡ slice_set boxes.old.items x set }
{
    boxes[x as usize] = set;
}
