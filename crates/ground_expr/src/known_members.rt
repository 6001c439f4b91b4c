//! The members of a list, where the values of some cells are known.
//!
//! Who is known to be no member is left out. Where all that are left are known to be members, the
//! list is fixed, as one of parts is.
ghost use Rattle.std.specs.Prelude.{◌≡◌, ◌≤◌, ◌+◌, ◌++◌, ◌∷◌, [], true, ℕ, ℤ, List, length, map, IfOk, OnOk};
ghost use Rattle.std.specs.List.{All};
ghost use Rattle.class_table.specs.Outline.{Outline};
ghost use Rattle.signed_clause.specs.Clauses.{Boxes};
ghost use Rattle.form_build.specs.Forms.{truth_at, HasVariable};
ghost use Rattle.form_build.specs.Worlds.{AreKnown};
ghost use Rattle.form_build.specs.declared.form.Truth.TheVariants as truth;
ghost use Rattle.expr_forms.specs.declared.form.Listing.TheVariants as listing;
ghost use Rattle.expr_forms.specs.declared.form.Member.{Member as AMember};
ghost use Rattle.expr_forms.specs.FormBounds.{IsMember};
ghost use Rattle.expr_forms.specs.FormValues.{members_at};
ghost use Rattle.ground_expr.specs.Known.{AreKnownMembers, IsKnownListing};

use crate::known::known_truth;
use expr_forms::{Listing, Member};
use form_build::{Maker, Truth};
use form_truths::copy_truth;
use identity_forms::is_never;
use std::alloc::{AllocError, Global};

/// A truth again, or what it is known to be.
fn known_again(maker: &Maker, known: &[(u32, i64)], t: &Truth) -> Result<Truth, AllocError>
    ensures value { IfOk result (λ u. (a : List ℤ) → AreKnown known.now a
        → truth_at u a ≡ truth_at t.now a) }
    ensures variable { IfOk result (λ u. (n : ℕ) → HasVariable n t.now → HasVariable n u) }
{
    let again = copy_truth(t)?;
    Ok(known_truth(maker, known, again))
}

/// Adds an object with what is known of its truth, where it may be a member.
fn push_known(
    maker: &Maker,
    known: &[(u32, i64)],
    m: &Member,
    kept: &mut Vec<Member>,
) -> Result<(), AllocError>
    ensures value { OnOk result ((a : List ℤ) → AreKnown known.now a
        → members_at kept.new.items a ≡ members_at kept.old.items a ++ members_at (m.now ∷ []) a) }
    ensures each { OnOk result ((o : Outline) (boxes : Boxes) (c : ℕ) → IsMember o boxes c m.now
        → All (IsMember o boxes c) kept.old.items → All (IsMember o boxes c) kept.new.items) }
    ensures few { OnOk result (length kept.new.items ≤ length kept.old.items + 1) }
{
    let is = known_again(maker, known, &m.is)?;
    if is_never(&is) {
        return Ok(());
    }
    kept.push(Member {
        object: m.object,
        is,
    })?;
    Ok(())
}

/// Those of these objects that may be members, each with what is known of its truth.
fn known_members(
    maker: &Maker,
    known: &[(u32, i64)],
    members: &[Member],
) -> Result<Vec<Member>, AllocError>
    ensures { IfOk result (λ kept. AreKnownMembers known.now members.now kept.items) }
{
    let mut kept = Vec::new(maker.alloc());
    for m in members {
        push_known(maker, known, m, &mut kept)?;
    }
    Ok(kept)
}

/// Whether the truth holds in any case.
fn is_sure(t: &Truth) -> bool
    ensures { result ≡ true → t.now ≡ truth.Fixed true }
{
    match t {
        Truth::Fixed(b) => *b,
        Truth::In(_, _) => false,
    }
}

/// Whether each of these is a member in any case.
fn are_sure(members: &[Member]) -> bool
    ensures { result ≡ true → All (λ (m : AMember). m.is ≡ truth.Fixed true) members.now }
{
    for m in members {
        if !is_sure(&m.is) {
            return false;
        }
    }
    true
}

/// The objects of these members.
fn objects_of(alloc: Global, members: &[Member]) -> Result<Vec<u32>, AllocError>
    ensures { IfOk result (λ xs. xs.items ≡ map (λ (m : AMember). m.object) members.now) }
{
    let mut objects = Vec::new(alloc);
    for m in members {
        objects.push(m.object)?;
    }
    Ok(objects)
}

/// These members as a list: fixed, where each is a member in any case.
#[tactic(auto, using(crate::proofs::MemberLaws::listing_laws))]
fn fixed_listing(alloc: Global, members: Vec<Member>) -> Result<Listing, AllocError>
    ensures { IfOk result (IsKnownListing [] (listing.Some members)) }
{
    if are_sure(&members) {
        let objects = objects_of(alloc, &members)?;
        return Ok(Listing::All(objects));
    }
    Ok(Listing::Some(members))
}

/// A list, with what is known of its members.
#[tactic(auto, using(crate::proofs::MemberLaws::listing_laws))]
pub(crate) fn known_listing(
    maker: &Maker,
    known: &[(u32, i64)],
    list: Listing,
) -> Result<Listing, AllocError>
    ensures { IfOk result (IsKnownListing known.now list) }
{
    match list {
        Listing::Some(members) => {
            let kept = known_members(maker, known, &members)?;
            let left = fixed_listing(maker.alloc(), kept)?;
            Ok(left)
        }
        Listing::All(objects) => Ok(Listing::All(objects)),
        Listing::Owned(x, pairs, slots) => Ok(Listing::Owned(x, pairs, slots)),
    }
}
