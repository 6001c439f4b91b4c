//! Crowded intervals among at most 64 boxes, by counters on the stack.
//!
//! Where the boxes begin and end is asked of the view once. From where each of them begins one pass
//! counts where the boxes that begin no earlier end, and the counters added up tell of each
//! interval from there how many boxes lie within it. An interval with as many numbers as there are
//! boxes can't be crowded, so there are no more counters than boxes. No memory is taken.
ghost use Rattle.std.specs.Prelude.{◌≡◌, ◌<◌, ◌≤◌, ◌&&◌, ◌+ℤ◌, ℕ, ℤ, suc, pos, cond, int_le, IfSome, List, length, take};
ghost use Rattle.std.specs.List.{All};
ghost use Rattle.signed_clause.specs.Clauses.{Boxes};
ghost use Rattle.box_rules.specs.Refuted.{crowded_from, some_crowded};
ghost use Rattle.box_rules.specs.Crowding.{ends_of, AreInOrder, count_ends, total, is_upto};

use box_view::{View, start_of};
use ground_form::Number;

/// How far the ends' second is from `a`, where the first is no less than `a` and that is below 64.
fn slot_of(p: (i64, i64), a: Number) -> Option<usize>
    ensures below { IfSome result (λ d. d < 64) }
    ensures slot { (e : ℕ) → e < 64
        → (int_le a.value p.0 && int_le p.1 (a.value +ℤ pos e)) ≡ is_upto result e }
{
    if p.0 < a.value {
        return None;
    }
    let d = p.1.max(a.value).abs_diff(a.value);
    if d < 64 { Some(d as usize) } else { None }
}

/// One more in the slot, where there is one.
fn bump(slots: &mut [usize; 64], at: Option<usize>)
    requires within { IfSome at (λ d. d < 64) }
    requires room { IfSome at (λ d. total (suc d) slots.old < 18446744073709551615) }
    ensures totals { (e : ℕ) → total (suc e) slots.new
        ≡ cond (is_upto at e) (suc (total (suc e) slots.old)) (total (suc e) slots.old) }
{
    if let Some(d) = at {
        slots[d] += 1;
    }
}

/// How many of the ends lie in each interval from `a` on, as sums of the first slots.
fn slots_from(ends: &[(i64, i64)], a: Number) -> [usize; 64]
    requires { length ends.now ≤ 64 }
    ensures { (e : ℕ) → e < 64
        → total (suc e) result ≡ count_ends a.value (a.value +ℤ pos e) ends.now }
{
    let mut slots = [0; 64];
    for p in ends {
        bump(&mut slots, slot_of(*p, a));
    }
    slots
}

/// The sum with the number of one slot more.
fn with_slot(sum: usize, slots: &[usize; 64], d: usize) -> usize
    requires sum { sum ≡ total d slots.now }
    requires within { d < 64 }
    requires room { total (suc d) slots.now < 18446744073709551616 }
    ensures { result ≡ total (suc d) slots.now }
{
    sum + slots[d]
}

/// Whether some interval from `a` on is crowded.
fn has_crowd_from(ends: &[(i64, i64)], a: Number) -> bool
    requires { length ends.now ≤ 64 }
    ensures { (xs : List ℕ) → (boxes : Boxes) → ends.now ≡ ends_of xs boxes
        → AreInOrder xs boxes → result ≡ crowded_from a.value xs xs boxes }
{
    let slots = slots_from(ends, a);
    let mut sum = 0;
    for d in 0..ends.len() {
        sum = with_slot(sum, &slots, d);
        if d + 1 < sum {
            return true;
        }
    }
    false
}

/// Whether some interval is crowded.
fn has_crowd(ends: &[(i64, i64)]) -> bool
    requires { length ends.now ≤ 64 }
    ensures { (xs : List ℕ) → (boxes : Boxes) → ends.now ≡ ends_of xs boxes
        → AreInOrder xs boxes → result ≡ some_crowded xs xs boxes }
{
    for p in ends {
        if has_crowd_from(ends, start_of(*p)) {
            return true;
        }
    }
    false
}

/// Where the variables' boxes begin and end.
fn ends_row<V: View>(view: &V, vars: &[u32]) -> [(i64, i64); 64]
    requires named { All (λ x. x < length (V.boxes view.now)) vars.now }
    requires few { length vars.now ≤ 64 }
    ensures row { take (length vars.now) result ≡ ends_of vars.now (V.boxes view.now) }
    ensures order { AreInOrder vars.now (V.boxes view.now) }
{
    let mut row = [(0, 0); 64];
    for i in 0..vars.len() {
        row[i] = view.ends(vars[i]);
    }
    row
}

/// Whether some interval is crowded by the boxes of at most 64 variables.
pub fn are_few_crowded<V: View>(view: &V, vars: &[u32]) -> bool
    requires named { All (λ x. x < length (V.boxes view.now)) vars.now }
    requires few { length vars.now ≤ 64 }
    ensures { result ≡ some_crowded vars.now vars.now (V.boxes view.now) }
{
    let row = ends_row(view, vars);
    has_crowd(&row[..vars.len()])
}
