//! The trail: what was done to the boxes, the oldest entry first.
//!
//! An entry owns the box as it was before, which is moved there when the box is narrowed and moved
//! back when the entry is undone, so no set is ever copied. Functions here work on boxes and
//! entries as two lists; contracts see the levels that these stand for (`stack_of`).
ghost use Rattle.std.specs.Prelude.{◌≡◌, ◌<◌, ◌≤◌, ◌-◌, ◌∷◌, [], true, reverse, length, slice_set, OnOk, OnErr, IfSome, IfNone};
ghost use Rattle.signed_clause.specs.Ranges.{IsValid};
ghost use Rattle.signed_clause.specs.SetAlgebra.{is_within};
ghost use Rattle.signed_clause.specs.Clauses.{box_of};
ghost use Rattle.fd_store.specs.Levels.{moved};
ghost use Rattle.fd_store.specs.Undo.{dropped};
ghost use Rattle.fd_store.specs.Trails.{stack_of, level_of, level_after, IsStore, IsNewest, undone, older};

use signed_clause::IntSet;
use std::alloc::AllocError;
use std::mem;

/// What was done to a box. It takes 48 bytes, and more only where the box before has more than one
/// range.
#[derive(Drop)]
pub struct Moved {
    /// The variable.
    pub var: u32,
    /// The level in which it was done; of a decision the one that it opened.
    pub level: u32,
    /// Its box before.
    pub before: IntSet,
    /// The number of the clause that pruned it, none for a decision.
    pub from: Option<u64>,
}

/// The level of the newest entry.
pub(crate) fn last_level(trail: &[Moved]) -> u32
    ensures { result ≡ level_of (reverse trail.now) }
{
    if trail.is_empty() {
        0
    } else {
        trail[trail.len() - 1].level
    }
}

/// Gives a variable another box within its box, with an entry. The old box is moved into it.
pub(crate) fn narrow(
    boxes: &mut Vec<IntSet>,
    trail: &mut Vec<Moved>,
    x: u32,
    set: IntSet,
    from: Option<u64>,
    level: u32,
) -> Result<(), AllocError>
    requires kept { IsStore boxes.old.items (reverse trail.old.items) }
    requires var { x < length boxes.old.items }
    requires valid { IsValid set }
    requires within { is_within set (box_of boxes.old.items x) ≡ true }
    requires level { level ≡ level_after from (level_of (reverse trail.old.items)) }
    ensures ok { OnOk result (stack_of boxes.new.items (reverse trail.new.items)
        ≡ moved from x set (stack_of boxes.old.items (reverse trail.old.items))) }
    ensures err { OnErr result (stack_of boxes.new.items (reverse trail.new.items)
        ≡ stack_of boxes.old.items (reverse trail.old.items)) }
    ensures kept { IsStore boxes.new.items (reverse trail.new.items) }
{
    trail.reserve(1)?;
    let before = replaced(boxes, x, set);
    trail.push_reserved(Moved {
        var: x,
        level,
        before,
        from,
    });
    Ok(())
}

/// Gives a variable another box, and answers the old one.
fn replaced(boxes: &mut Vec<IntSet>, x: u32, set: IntSet) -> IntSet
    requires { x < length boxes.old.items }
    ensures old { result ≡ box_of boxes.old.items x }
    ensures new { boxes.new.items ≡ slice_set boxes.old.items x set }
{
    mem::replace(&mut boxes[x as usize], set)
}

/// Takes back the entries above `level`.
pub(crate) fn undo(boxes: &mut Vec<IntSet>, trail: &mut Vec<Moved>, level: u32)
    requires { IsStore boxes.old.items (reverse trail.old.items) }
    ensures stack { stack_of boxes.new.items (reverse trail.new.items)
        ≡ dropped level (stack_of boxes.old.items (reverse trail.old.items)) }
    ensures kept { IsStore boxes.new.items (reverse trail.new.items) }
{
    while last_level(trail) > level {
        undo_last(boxes, trail);
    }
}

/// Takes back the newest entry, and answers its variable; None where there is no entry.
pub(crate) fn undo_last(boxes: &mut Vec<IntSet>, trail: &mut Vec<Moved>) -> Option<u32>
    requires { IsStore boxes.old.items (reverse trail.old.items) }
    ensures boxes { boxes.new.items ≡ undone boxes.old.items (reverse trail.old.items) }
    ensures older { reverse trail.new.items ≡ older (reverse trail.old.items) }
    ensures shorter { length trail.new.items ≤ length trail.old.items - 1 }
    ensures some { IfSome result (λ x. IsNewest x (reverse trail.old.items)) }
    ensures none { IfNone result (reverse trail.old.items ≡ []) }
{
    let m = trail.pop()?;
    boxes[m.var as usize] = m.before;
    Some(m.var)
}
