//! Views of boxes that needn't be built.
//!
//! The rules of the constraints ask little of boxes: their ends, whether they have a value, which
//! is the first from a number on, and how they lie to a set or to one another. `View` is that face.
//! Behind it stand boxes as they are (`Plain`), boxes of which one is replaced by a single value
//! (`Fixing`), and domains less the sets of a clause (`Cut`). So a rule is written once, and takes
//! no memory.
ghost use Rattle.std.specs.Prelude.{◌≡◌, ◌<◌, ◌≤◌, ◌≤ℤ◌, [], ◌∷◌, IfSome, IfNone, length};
ghost use Rattle.signed_clause.specs.Ranges.{has, is_nil};
ghost use Rattle.signed_clause.specs.SetAlgebra.{is_disjoint, is_within};
ghost use Rattle.signed_clause.specs.Clauses.{Boxes, box_of};
ghost use Rattle.ground_form.specs.Bounds.{low_of, high_of, reach_of};
ghost use Rattle.box_view.specs.Firsts.{IsFirst, HasNoneFrom};
ghost use Rattle.box_view.specs.Views.{fixing};

use crate::values::first_in;
use ground_form::{Number, ends_of};
use signed_clause::IntSet;

/// What the rules ask of boxes.
pub trait View {
    // the boxes
    ghost boxes: { Self → Boxes };
    // boxes whose values reach at least as far
    ghost outer: { Self → Boxes };

    /// Whether the box of `x` has no value.
    fn is_empty(&self, x: u32) -> bool
        requires { x < length (boxes self.now) }
        ensures { result ≡ is_nil (box_of (boxes self.now) x) };

    /// The least and the greatest value of the box of `x`, 0 where it is empty.
    fn ends(&self, x: u32) -> (i64, i64)
        requires { x < length (boxes self.now) }
        ensures ends { result ≡ (
          low_of (box_of (boxes self.now) x),
          high_of
              (box_of (boxes self.now) x),
        ) }
        ensures order { low_of (box_of (boxes self.now) x) ≤ℤ high_of (box_of (boxes self.now) x) }
        ensures reach { reach_of (box_of (boxes self.now) x) ≤ reach_of (box_of (outer self.now) x) };

    /// Whether the box of `x` has the value.
    fn has(&self, x: u32, v: i64) -> bool
        requires { x < length (boxes self.now) }
        ensures { result ≡ has (box_of (boxes self.now) x) v };

    /// The first value of the box of `x` from the number on.
    fn first_from(&self, x: u32, from: Number) -> Option<Number>
        requires { x < length (boxes self.now) }
        ensures some { IfSome result (λ w.
            IsFirst (λ u. has (box_of (boxes self.now) x) u) from.value w.value) }
        ensures none { IfNone result (HasNoneFrom (λ u. has (box_of (boxes self.now) x) u) from.value) };

    /// Whether no value of the box of `x` is in the set.
    fn is_disjoint(&self, x: u32, set: &IntSet) -> bool
        requires { x < length (boxes self.now) }
        ensures disjoint { result ≡ is_disjoint (box_of (boxes self.now) x) set.now }
        ensures set_disjoint { result ≡ is_disjoint set.now (box_of (boxes self.now) x) };

    /// Whether every value of the box of `x` is in the set.
    fn is_within(&self, x: u32, set: &IntSet) -> bool
        requires { x < length (boxes self.now) }
        ensures { result ≡ is_within (box_of (boxes self.now) x) set.now };

    /// Whether the boxes of `x` and `y` have no common value.
    fn are_disjoint(&self, x: u32, y: u32) -> bool
        requires x { x < length (boxes self.now) }
        requires y { y < length (boxes self.now) }
        ensures { result ≡ is_disjoint (box_of (boxes self.now) x) (box_of (boxes self.now) y) };
}

/// Boxes as they are.
#[derive(Drop)]
pub struct Plain<'a> {
    /// They.
    pub boxes: &'a [IntSet],
}

impl<'a> View for Plain<'a> {
    ghost boxes = { λ v. v.boxes.now };

    ghost outer = { λ v. v.boxes.now };

    fn is_empty(&self, x: u32) -> bool {
        self.boxes[x as usize].is_empty()
    }

    fn ends(&self, x: u32) -> (i64, i64) {
        ends_in_order(&self.boxes[x as usize])
    }

    fn has(&self, x: u32, v: i64) -> bool {
        self.boxes[x as usize].contains(v)
    }

    fn first_from(&self, x: u32, from: Number) -> Option<Number> {
        first_in(&self.boxes[x as usize], from)
    }

    fn is_disjoint(&self, x: u32, set: &IntSet) -> bool {
        are_sets_disjoint(&self.boxes[x as usize], set)
    }

    fn is_within(&self, x: u32, set: &IntSet) -> bool {
        self.boxes[x as usize].within(set)
    }

    fn are_disjoint(&self, x: u32, y: u32) -> bool {
        self.boxes[x as usize].disjoint(&self.boxes[y as usize])
    }
}

/// The least and the greatest value of a set, 0 of the empty one.
#[tactic(auto, using(crate::proofs::EndLaws::ends_in_order))]
pub fn ends_in_order(set: &IntSet) -> (i64, i64)
    ensures ends { result ≡ (low_of set.now, high_of set.now) }
    ensures order { low_of set.now ≤ℤ high_of set.now }
{
    set.ranges();
    ends_of(set)
}

/// Whether no value is in both sets.
#[tactic(auto, using(crate::proofs::SetLaws::disjoint_sym))]
pub fn are_sets_disjoint(a: &IntSet, b: &IntSet) -> bool
    ensures one { result ≡ is_disjoint a.now b.now }
    ensures other { result ≡ is_disjoint b.now a.now }
{
    a.ranges();
    b.ranges();
    a.disjoint(b)
}

/// The value, where it isn't before the number.
fn first_alone(value: Number, from: Number) -> Option<Number>
    ensures some { IfSome result (λ w.
        IsFirst (λ u. has ((value.value, value.value) ∷ []) u) from.value w.value) }
    ensures none { IfNone result (HasNoneFrom (λ u. has ((value.value, value.value) ∷ []) u)
        from.value) }
{
    if from.value <= value.value {
        Some(value)
    } else {
        None
    }
}

/// Whether the set lacks the value.
#[tactic(auto, using(crate::proofs::SetLaws::alone_disjoint, crate::proofs::SetLaws::disjoint_alone))]
fn lacks(set: &IntSet, v: i64) -> bool
    ensures one { result ≡ is_disjoint ((v, v) ∷ []) set.now }
    ensures other { result ≡ is_disjoint set.now ((v, v) ∷ []) }
{
    set.ranges();
    !set.contains(v)
}

/// Whether the set holds the value.
#[tactic(auto, using(crate::proofs::SetLaws::alone_within))]
fn holds(set: &IntSet, v: i64) -> bool
    ensures { result ≡ is_within ((v, v) ∷ []) set.now }
{
    set.ranges();
    set.contains(v)
}

/// Boxes of which one is replaced by a single value.
#[derive(Drop)]
pub struct Fixing<'a> {
    /// The boxes.
    pub boxes: &'a [IntSet],
    /// The variable whose box is replaced.
    pub var: u32,
    /// The value.
    pub value: Number,
}

impl<'a> View for Fixing<'a> {
    ghost boxes = { λ v. fixing v.boxes.now v.var v.value.value };

    ghost outer = { λ v. fixing v.boxes.now v.var v.value.value };

    fn is_empty(&self, x: u32) -> bool {
        x != self.var && self.boxes[x as usize].is_empty()
    }

    fn ends(&self, x: u32) -> (i64, i64) {
        if x == self.var {
            (self.value.value, self.value.value)
        } else {
            ends_in_order(&self.boxes[x as usize])
        }
    }

    fn has(&self, x: u32, v: i64) -> bool {
        if x == self.var {
            self.value.value == v
        } else {
            self.boxes[x as usize].contains(v)
        }
    }

    fn first_from(&self, x: u32, from: Number) -> Option<Number> {
        if x == self.var {
            first_alone(self.value, from)
        } else {
            first_in(&self.boxes[x as usize], from)
        }
    }

    fn is_disjoint(&self, x: u32, set: &IntSet) -> bool {
        if x == self.var {
            lacks(set, self.value.value)
        } else {
            are_sets_disjoint(&self.boxes[x as usize], set)
        }
    }

    fn is_within(&self, x: u32, set: &IntSet) -> bool {
        if x == self.var {
            holds(set, self.value.value)
        } else {
            self.boxes[x as usize].within(set)
        }
    }

    fn are_disjoint(&self, x: u32, y: u32) -> bool {
        match (x == self.var, y == self.var) {
            (true, true) => false,
            (true, false) => lacks(&self.boxes[y as usize], self.value.value),
            (false, true) => lacks(&self.boxes[x as usize], self.value.value),
            (false, false) => self.boxes[x as usize].disjoint(&self.boxes[y as usize]),
        }
    }
}
