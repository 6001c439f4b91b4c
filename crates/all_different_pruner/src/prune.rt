//! Variables that differ.
//!
//! Each interval holds at most as many variables as it has numbers. Where fewer numbers than boxes
//! within are found, the variables are refuted; where as many are, the interval's numbers leave
//! every other box. It is enough to look from where each narrow box begins, and one sweep shows all
//! intervals from there: the cost is the number of narrow boxes times that of variables.
//!
//! Cost: one walk where no box is narrow. Explained by the boxes within the interval.
//!
//! No order of the variables is kept. A box with as many numbers as there are variables, or more,
//! can't lie in an interval that matters, so only narrow boxes begin a sweep.
//!
//! What is kept is the memory of the counters, which each call fills anew, and which variables
//! stand twice.
ghost use Rattle.std.specs.Prelude.{◌≡◌, ◌<◌, true, [], IfOk, IfSome, IfNone, length};
ghost use Rattle.std.specs.List.{All};
ghost use Rattle.signed_clause.specs.Ranges.{IsValid};
ghost use Rattle.ground_form.specs.declared.con.Con.TheVariants.{AllDiff};
ghost use Rattle.ground_form.specs.WellMade.{IsWellMadeCon};
ghost use Rattle.rule_law.specs.Answers.{AreBoxesWithin, IsAnswer};
ghost use Rattle.box_rules.specs.Quiet.{quiet};
ghost use Rattle.rule_law.specs.Reasons.{no_repeat};

use crate::explain::explain;
use crate::hall_intervals::{Counters, find};
use ground_form::Con;
use rule_law::{Repeats, Subject, probe};
use signed_clause::{Clause, IntSet};
use std::alloc::{AllocError, Global};

/// What different variables that differ answer.
#[tactic(auto, using(crate::proofs::QuietFrom::differing_quiet))]
fn prune_different(
    alloc: Global,
    counters: &mut Counters,
    subject: Subject<'_>,
    vars: &[u32],
) -> Result<Option<Clause>, AllocError>
    requires con { subject.con.now ≡ AllDiff vars.now }
    requires named { All (λ x. x < length subject.boxes.now) vars.now }
    requires domains { All (λ x. x < length subject.domains.now) vars.now }
    requires boxes { AreBoxesWithin subject.domains.now subject.boxes.now }
    requires box_sets { All (λ s. IsValid s) subject.boxes.now }
    requires sets { All (λ d. IsValid d) subject.domains.now }
    requires once { no_repeat vars.now ≡ true }
    ensures { IfOk result (λ a. IsAnswer subject.entry.con.now subject.entry.domains.now
        subject.entry.boxes.now a) }
{
    let found = find(alloc, counters, vars, subject.boxes)?;
    match found {
        None => Ok(None),
        Some(found) => {
            let clause = explain(alloc, subject, vars, found)?;
            Ok(Some(clause))
        }
    }
}

/// Prunes by variables that differ.
pub struct AllDifferent {
    alloc: Global,
    /// Counters for a sweep.
    counters: Counters,
    /// Which variables of a constraint stand twice.
    repeats: Repeats,
}

impl Drop for AllDifferent {
    fn drop(self) {
        let AllDifferent {
            alloc: _,
            counters: _,
            repeats: _,
        } = self;
    }
}

impl AllDifferent {
    /// Nothing kept yet. It takes no memory.
    pub fn new(alloc: Global) -> AllDifferent
        ensures alloc { result.alloc ≡ alloc }
        ensures no_starts { result.counters.starts.items ≡ [] }
        ensures no_ends { result.counters.ends.items ≡ [] }
    {
        AllDifferent {
            alloc,
            counters: Counters {
                starts: Vec::new(alloc),
                ends: Vec::new(alloc),
            },
            repeats: Repeats::new(alloc),
        }
    }

    /// Forgets what is kept between calls. The memory stays.
    pub fn begin(&mut self)
        ensures no_starts { self.new.counters.starts.items ≡ [] }
        ensures no_ends { self.new.counters.ends.items ≡ [] }
    {
        self.counters.starts.clear();
        self.counters.ends.clear();
        self.repeats.forget();
    }

    /// A clause that variables that differ justify and that takes something away; None where they
    /// are quiet.
    ///
    /// # Errors
    /// Want of memory.
    #[tactic(auto, using(crate::proofs::QuietFrom::differing_named, crate::proofs::QuietFrom::named_boxes))]
    pub fn prune(
        &mut self,
        k: u32,
        con: &Con,
        vars: &[u32],
        domains: &[IntSet],
        boxes: &[IntSet],
    ) -> Result<Option<Clause>, AllocError>
        requires con { con.now ≡ AllDiff vars.now }
        requires well_made { IsWellMadeCon domains.now con.now }
        requires boxes { AreBoxesWithin domains.now boxes.now }
        requires sets { All (λ d. IsValid d) domains.now }
        ensures { IfOk result (λ a. IsAnswer con.now domains.now boxes.now a) }
    {
        let differ = self.repeats.has_no_repeat(k, con)?;
        if differ {
            let subject = Subject {
                con,
                domains,
                boxes,
            };
            prune_different(self.alloc, &mut self.counters, subject, vars)
        } else {
            probe(con, domains, boxes, self.alloc)
        }
    }
}
