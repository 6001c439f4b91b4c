//! Whether the numbers of items to be packed are bounded.
ghost use Rattle.std.specs.Prelude.{◌≡◌, ◌<◌, ℕ, true, length, IfNone, IfSome};
ghost use Rattle.std.specs.List.{All};
ghost use Rattle.signed_clause.specs.Ranges.{IsValid};
ghost use Rattle.signed_clause.specs.Clauses.{box_of};
ghost use Rattle.ground_form.specs.Bounds.{low_of, high_of, IsPackBounded};
ghost use Rattle.packed_rows.specs.SmallRows.{IsSmallRow};

use ground_form::{LAST_BIN, MOST_SUM, ends_of};
use signed_clause::IntSet;

/// The ends of a variable's box.
fn ends_at(boxes: &[IntSet], x: u32) -> (i64, i64)
    requires { x < length boxes.now }
    ensures { result ≡ (low_of (box_of boxes.now x), high_of (box_of boxes.now x)) }
{
    ends_of(&boxes[x as usize])
}

/// What is left of so much without the greatest size of a row, where its bins lie within 0 and the
/// last, its sizes aren't below 0, and there is enough.
fn left_without(boxes: &[IntSet], row: (u32, u32, u32), left: u64) -> Option<u64>
    requires place { row.0 < length boxes.now }
    requires size { row.1 < length boxes.now }
    ensures some { IfSome result (λ rest. IsSmallRow boxes.now row left rest) }
    ensures none { IfNone result (All (λ d. IsValid d) boxes.now → (rest : ℕ)
        → IsSmallRow boxes.now row left rest → ⊥) }
{
    let place = ends_at(boxes, row.0);
    let size = ends_at(boxes, row.1);
    if place.0 < 0 || place.1 > LAST_BIN || size.0 < 0 || size.1 < 0 {
        return None;
    }
    left.checked_sub(size.1.unsigned_abs())
}

/// Whether the bins lie within 0 and the last, no size is below 0, and the greatest sizes add up to
/// at most `MOST_SUM`.
pub fn are_bounded(boxes: &[IntSet], rows: &[(u32, u32, u32)]) -> bool
    requires exist { All (λ i. (i.0 < length boxes.now) × (i.1 < length boxes.now)
        × (i.2 < length boxes.now)) rows.now }
    ensures bounded { result ≡ true → IsPackBounded rows.now boxes.now }
    ensures all { All (λ d. IsValid d) boxes.now → IsPackBounded rows.now boxes.now
        → result ≡ true }
{
    let mut left = MOST_SUM as u64;
    for row in rows {
        match left_without(boxes, *row, left) {
            Some(rest) => left = rest,
            None => return false,
        }
    }
    true
}
