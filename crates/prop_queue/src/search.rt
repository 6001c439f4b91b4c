//! The first listed constraint that has something to say.
ghost use Rattle.std.specs.Prelude.{◌≡◌, ◌<◌, ℕ, suc, Some, true, false, length, slice_get, IfOk, IfSome, IfNone};
ghost use Rattle.ground_form.specs.declared.con.Con.{Con};
ghost use Rattle.ground_form.specs.WellMade.{IsWellMade};
ghost use Rattle.box_rules.specs.Quiet.{quiet};
ghost use Rattle.rule_law.specs.Answers.{AreBoxesWithin, IsPruning};
ghost use Rattle.prop_queue.specs.Work.{is_clause, is_marked, FitsMarks};
ghost use Rattle.prop_queue.specs.Urgencies.{first_of};

use crate::listing::Listing;
use ground_form::Ground;
use rule_law::Kit;
use signed_clause::{Clause, IntSet};
use std::alloc::AllocError;

/// What the kit answers of constraint `k`.
fn ask(g: &Ground, k: u32, boxes: &[IntSet], kit: &mut Kit) -> Result<Option<Clause>, AllocError>
    requires well_made { IsWellMade g.now }
    requires con { k < length g.now.cons }
    requires boxes { AreBoxesWithin g.now.domains boxes.now }
    ensures quiet { IfOk result (λ o. IfNone o ((con : Con) → slice_get g.now.cons k ≡ Some con
        → quiet con boxes.now ≡ true)) }
    ensures pruning { IfOk result (λ o. IfSome o (λ clause. (con : Con)
        → slice_get g.now.cons k ≡ Some con → IsPruning con g.now.domains boxes.now clause)) }
{
    kit.prune(g, k, boxes)
}

/// What the kit answers of the first listed constraint, which goes off the list where it is quiet.
#[tactic(auto, using(crate::proofs::FitLaws::fits_less))]
fn look(
    listing: &mut Listing,
    k: u32,
    g: &Ground,
    boxes: &[IntSet],
    kit: &mut Kit,
) -> Result<Option<Clause>, AllocError>
    requires well_made { IsWellMade g.now }
    requires boxes { AreBoxesWithin g.now.domains boxes.now }
    requires marks { length listing.old.marks ≡ length g.now.cons }
    requires fits { FitsMarks g.now listing.old.marks boxes.now }
    requires first { first_of listing.old.order ≡ Some k }
    requires listed { is_marked listing.old.marks k ≡ true }
    requires there { k < length g.now.cons }
    ensures size { length listing.new.marks ≡ length listing.old.marks }
    ensures fits { FitsMarks g.now listing.new.marks boxes.now }
    ensures fewer_marks { (j : ℕ) → is_marked listing.new.marks j ≡ true
        → is_marked listing.old.marks j ≡ true }
    ensures fewer { IfOk result (λ o. IfNone o
        (suc (length listing.new.order) ≡ length listing.old.order)) }
    ensures pruning { IfOk result (λ o. IfSome o (λ clause. (con : Con)
        → slice_get g.now.cons k ≡ Some con → IsPruning con g.now.domains boxes.now clause)) }
    ensures listed { IfOk result (λ o. IfSome o (λ _. is_marked listing.new.marks k ≡ true)) }
{
    match ask(g, k, boxes, kit)? {
        Some(clause) => Ok(Some(clause)),
        None => {
            listing.unlist_first();
            Ok(None)
        }
    }
}

/// The first listed constraint that has something to say, with what it says. Those before it are
/// quiet, and go off the list.
///
/// # Errors
/// Want of memory.
#[tactic(auto, using(crate::proofs::FitLaws::others_quiet))]
pub fn find(
    listing: &mut Listing,
    g: &Ground,
    boxes: &[IntSet],
    kit: &mut Kit,
) -> Result<Option<(u32, Clause)>, AllocError>
    requires well_made { IsWellMade g.now }
    requires boxes { AreBoxesWithin g.now.domains boxes.now }
    requires marks { length listing.old.marks ≡ length g.now.cons }
    requires fits { FitsMarks g.now listing.old.marks boxes.now }
    ensures size { length listing.new.marks ≡ length listing.old.marks }
    ensures fits { FitsMarks g.now listing.new.marks boxes.now }
    ensures fewer { (j : ℕ) → is_marked listing.new.marks j ≡ true
        → is_marked listing.old.marks j ≡ true }
    ensures there { IfOk result (λ o. IfSome o (λ a. a.0 < length g.now.cons)) }
    ensures listed { IfOk result (λ o. IfSome o (λ a. is_marked listing.new.marks a.0 ≡ true)) }
    ensures pruning { IfOk result (λ o. IfSome o (λ a. (con : Con)
        → slice_get g.now.cons a.0 ≡ Some con → IsPruning con g.now.domains boxes.now a.1)) }
    ensures none { IfOk result (λ o. IfNone o ((k : ℕ) (con : Con)
        → slice_get g.now.cons k ≡ Some con → is_clause con ≡ false → quiet con boxes.now ≡ true)) }
{
    while let Some(k) = listing.first() {
        if let Some(clause) = look(listing, k, g, boxes, kit)? {
            return Ok(Some((k, clause)));
        }
    }
    Ok(None)
}
