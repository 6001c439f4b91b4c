//! Whether boxes are such as `prune` asks for.
ghost use Rattle.std.specs.Prelude.{◌≡◌, ◌<◌, ◌&&◌, ◌↔◌, not, IsTrue, length};
ghost use Rattle.signed_clause.specs.Ranges.{is_nil, IsValid};
ghost use Rattle.signed_clause.specs.SetAlgebra.{is_within};
ghost use Rattle.signed_clause.specs.Clauses.{box_of};
ghost use Rattle.rule_law.specs.Answers.{AreBoxesWithin};

use signed_clause::IntSet;

/// Whether the box of `x` has values, all of them in its domain.
fn is_part(domains: &[IntSet], boxes: &[IntSet], x: usize) -> bool
    requires boxes { x < length boxes.now }
    requires domains { x < length domains.now }
    ensures part { result ≡ (is_within (box_of boxes.now x) (box_of domains.now x)
        && not (is_nil (box_of boxes.now x))) }
    ensures valid { IsValid (box_of boxes.now x) }
{
    boxes[x].ranges();
    boxes[x].within(&domains[x]) && !boxes[x].is_empty()
}

/// Whether each variable has a box within its domain, and none is empty. A propagator's `prune`
/// asks it of its boxes.
#[tactic(auto, using(crate::proofs::UpTo::next_part, crate::proofs::UpTo::all_parts, crate::proofs::UpTo::no_part, crate::proofs::UpTo::other_size))]
pub fn are_boxes_within(domains: &[IntSet], boxes: &[IntSet]) -> bool
    ensures { IsTrue result ↔ AreBoxesWithin domains.now boxes.now }
{
    if boxes.len() != domains.len() {
        return false;
    }
    let mut x = 0;
    while x < boxes.len() {
        if !is_part(domains, boxes, x) {
            return false;
        }
        x += 1;
    }
    true
}
