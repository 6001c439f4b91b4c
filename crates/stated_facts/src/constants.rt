//! Variables that have one value, which isn't below 0.
ghost use Rattle.std.specs.Prelude.{◌≡◌, [], ◌∷◌, pos, IfSome};
ghost use Rattle.stated_facts.specs.Constants.{IsConstant};

use signed_clause::IntSet;

/// The value of a set, where it has just one, not below 0.
pub fn only_value(set: &IntSet) -> Option<u64>
    ensures { IfSome result (λ k. set.now ≡ (pos k, pos k) ∷ []) }
{
    match set.ranges() {
        [r] => {
            if r.0 == r.1 && r.0 >= 0 {
                Some(r.0.unsigned_abs())
            } else {
                None
            }
        }
        _ => None,
    }
}

/// The value of a variable, where its box has just one, not below 0.
pub fn constant(boxes: &[IntSet], x: u32) -> Option<u64>
    ensures { IfSome result (λ k. IsConstant boxes.now x k) }
{
    if (x as usize) < boxes.len() {
        only_value(&boxes[x as usize])
    } else {
        None
    }
}
