//! Items to be packed.
//!
//! Of each item (bin, size, room), the sizes at its bin add up to at most its room; and all sizes
//! to at most the best rooms of the bins that are open to them. `pack_fit` shows in one pass over
//! items and bins that neither rule has anything to say, or finds an item that doesn't fit, which
//! `unplaceable` explains; where each fits and there may be too little room in all, `tight` looks
//! at each box in turn. What they find to take too much, and cannot explain, is probed.
//!
//! Cost: the number of items, of the ranges of their bins' boxes and of bins, where they have
//! slack; where they are tight, the number of bins times that of items.
//!
//! Probing is left where an open variable stands twice.
ghost use Rattle.std.specs.Prelude.{◌≡◌, ◌<◌, true, false, IfOk, length};
ghost use Rattle.std.specs.List.{All};
ghost use Rattle.signed_clause.specs.Ranges.{is_nil, IsValid};
ghost use Rattle.signed_clause.specs.Clauses.{box_of};
ghost use Rattle.ground_form.specs.declared.con.Con.TheVariants.{Pack};
ghost use Rattle.ground_form.specs.Meaning.{item_vars};
ghost use Rattle.ground_form.specs.WellMade.{IsWellMadeCon};
ghost use Rattle.rule_law.specs.Answers.{AreBoxesWithin, IsAnswer};
ghost use Rattle.box_rules.specs.Named.{AreItemsNamed, IsItemNamed};
ghost use Rattle.box_rules.specs.Quiet.{quiet};
ghost use Rattle.pack_fit.specs.Packing.{AllFit, HasEnough};

use crate::propagator::Kept;
use crate::tight::prune_tight;
use crate::unplaceable::prune_unplaceable;
use ground_form::Number;
use pack_fit::{Look, look_at_items};
use rule_law::{Repeats, Subject, probe};
use signed_clause::Clause;
use std::alloc::{AllocError, Global};

/// What items with slack answer: nothing, where none of their open variables stands twice.
#[tactic(auto, using(crate::proofs::Slack::slack_from, crate::proofs::Slack::pack_quiet))]
fn prune_with_slack(
    alloc: Global,
    repeats: &mut Repeats,
    k: u32,
    subject: Subject<'_>,
    items: &[(u32, u32, u32)],
) -> Result<Option<Clause>, AllocError>
    requires con { subject.con.now ≡ Pack items.now }
    requires items { AreItemsNamed items.now subject.boxes.now }
    requires well_made { IsWellMadeCon subject.domains.now subject.con.now }
    requires boxes { AreBoxesWithin subject.domains.now subject.boxes.now }
    requires sets { All (λ d. IsValid d) subject.domains.now }
    requires fit { AllFit items.now subject.boxes.now }
    requires enough { HasEnough items.now subject.boxes.now }
    ensures { IfOk result (λ a. IsAnswer subject.entry.con.now subject.entry.domains.now
        subject.entry.boxes.now a) }
{
    let once = repeats.open_have_no_repeat(k, subject.con, subject.boxes)?;
    if once {
        return Ok(None);
    }
    probe(subject.con, subject.domains, subject.boxes, alloc)
}

/// What an item that doesn't fit at the value answers.
#[tactic(auto, using(crate::proofs::Slack::pack_sizes))]
fn prune_by_item(
    alloc: Global,
    subject: Subject<'_>,
    items: &[(u32, u32, u32)],
    at: Number,
    i: (u32, u32, u32),
) -> Result<Option<Clause>, AllocError>
    requires con { subject.con.now ≡ Pack items.now }
    requires items { AreItemsNamed items.now subject.boxes.now }
    requires item { IsItemNamed i subject.boxes.now }
    requires well_made { IsWellMadeCon subject.domains.now subject.con.now }
    requires boxes { AreBoxesWithin subject.domains.now subject.boxes.now }
    requires sets { All (λ d. IsValid d) subject.domains.now }
    ensures { IfOk result (λ a. IsAnswer subject.entry.con.now subject.entry.domains.now
        subject.entry.boxes.now a) }
{
    let pruned = prune_unplaceable(alloc, subject, items, at, i)?;
    if pruned.is_some() {
        return Ok(pruned);
    }
    probe(subject.con, subject.domains, subject.boxes, alloc)
}

/// What items answer of which each fits wherever it may be.
fn prune_undecided(
    alloc: Global,
    kept: &mut Kept,
    k: u32,
    subject: Subject<'_>,
    items: &[(u32, u32, u32)],
) -> Result<Option<Clause>, AllocError>
    requires con { subject.con.now ≡ Pack items.now }
    requires items { AreItemsNamed items.now subject.boxes.now }
    requires well_made { IsWellMadeCon subject.domains.now subject.con.now }
    requires boxes { AreBoxesWithin subject.domains.now subject.boxes.now }
    requires sets { All (λ d. IsValid d) subject.domains.now }
    requires fit { AllFit items.now subject.boxes.now }
    ensures { IfOk result (λ a. IsAnswer subject.entry.con.now subject.entry.domains.now
        subject.entry.boxes.now a) }
{
    let differ = kept
        .repeats
        .open_have_no_repeat(k, subject.con, subject.boxes)?;
    if differ {
        prune_tight(alloc, &mut kept.best_rooms, subject, items)
    } else {
        probe(subject.con, subject.domains, subject.boxes, alloc)
    }
}

/// A clause that items to be packed justify and that takes something away; None where they are
/// quiet.
///
/// # Errors
/// Want of memory.
#[tactic(auto, using(crate::proofs::Slack::pack_named, crate::proofs::Slack::pack_some))]
pub fn prune_packing(
    alloc: Global,
    kept: &mut Kept,
    k: u32,
    subject: Subject<'_>,
    items: &[(u32, u32, u32)],
) -> Result<Option<Clause>, AllocError>
    requires con { subject.con.now ≡ Pack items.now }
    requires well_made { IsWellMadeCon subject.domains.now subject.con.now }
    requires boxes { AreBoxesWithin subject.domains.now subject.boxes.now }
    requires sets { All (λ d. IsValid d) subject.domains.now }
    ensures { IfOk result (λ a. IsAnswer subject.entry.con.now subject.entry.domains.now
        subject.entry.boxes.now a) }
{
    match look_at_items(&mut kept.survey, items, subject.boxes)? {
        Look::WithSlack => prune_with_slack(alloc, &mut kept.repeats, k, subject, items),
        Look::Unplaceable(at, i) => prune_by_item(alloc, subject, items, at, i),
        Look::Undecided => prune_undecided(alloc, kept, k, subject, items),
    }
}
