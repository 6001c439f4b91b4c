//! Whether a chooser may be asked, found out at run time.
ghost use Rattle.std.specs.Prelude.{◌≡◌, true, false};
ghost use Rattle.std.specs.List.{All};
ghost use Rattle.signed_clause.specs.Ranges.{is_nil, IsValid};
ghost use Rattle.branch_choice.specs.Picks.{IsAsked};

use signed_clause::IntSet;

/// Whether the boxes are sets, which their type says.
fn are_sets(boxes: &[IntSet]) -> bool
    ensures { result ≡ true → All (λ s. IsValid s) boxes.now }
{
    for s in boxes {
        s.ranges();
    }
    true
}

/// Whether each box has values.
fn have_values(boxes: &[IntSet]) -> bool
    ensures { result ≡ true → All (λ s. is_nil s ≡ false) boxes.now }
{
    for s in boxes {
        if s.is_empty() {
            return false;
        }
    }
    true
}

/// Whether a chooser may be asked about the boxes.
pub(crate) fn is_asked(boxes: &[IntSet], hints: &[Option<i64>], search: u32) -> bool
    ensures { result ≡ true → IsAsked boxes.now hints.now search }
{
    are_sets(boxes)
        && have_values(boxes)
        && search as usize <= boxes.len()
        && search as usize <= hints.len()
}
