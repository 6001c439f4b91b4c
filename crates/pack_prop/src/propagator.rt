//! The propagator.
ghost use Rattle.std.specs.Prelude.{◌≡◌, ◌<◌, true, ◌||◌, [], IfOk, IfSome, length, slice_get};
ghost use Rattle.std.specs.List.{All};
ghost use Rattle.signed_clause.specs.Ranges.{IsValid};
ghost use Rattle.ground_form.specs.Kinds as kinds;
ghost use Rattle.ground_form.specs.WellMade.{IsWellMade, IsWellMadeCon};
ghost use Rattle.rule_law.specs.Answers.{AreBoxesWithin, IsAnswer};
ghost use Rattle.pack_prop.specs.Handled.{is_handled};

use crate::best_rooms::BestRooms;
use crate::packing::prune_packing;
use all_different_pruner::AllDifferent;
use ground_form::{Con, Ground, Kind};
use pack_fit::Survey;
use rule_law::{Propagator, Repeats, Subject, probe};
use signed_clause::{Clause, IntSet};
use std::alloc::{AllocError, Global};

/// What is kept between calls.
#[derive(Drop)]
pub struct Kept {
    /// What is kept of variables that differ.
    pub all_different: AllDifferent,
    /// The greatest rooms of values.
    pub best_rooms: BestRooms,
    /// Which variables of a constraint stand twice.
    pub repeats: Repeats,
    /// What is counted of items to be packed.
    pub survey: Survey,
}

impl Kept {
    /// Nothing yet. It takes no memory.
    pub fn new(alloc: Global) -> Kept
        ensures no_starts { result.all_different.counters.starts.items ≡ [] }
        ensures no_ends { result.all_different.counters.ends.items ≡ [] }
        ensures no_bins { result.survey.bins.items ≡ [] }
        ensures no_begun { result.survey.begun.items ≡ [] }
        ensures no_ended { result.survey.ended.items ≡ [] }
        ensures no_best_rooms { result.best_rooms.rows.items ≡ [] }
    {
        Kept {
            all_different: AllDifferent::new(alloc),
            best_rooms: BestRooms::new(alloc),
            repeats: Repeats::new(alloc),
            survey: Survey::new(alloc),
        }
    }
}

/// Prunes by variables that differ and by items to be packed.
pub struct PackProp {
    alloc: Global,
    kept: Kept,
}

impl Drop for PackProp {
    fn drop(self) {
        let PackProp { alloc: _, kept: _ } = self;
    }
}

impl PackProp {
    /// A propagator, without memory.
    pub fn new(alloc: Global) -> PackProp
        ensures alloc { result.alloc ≡ alloc }
        ensures no_starts { result.kept.all_different.counters.starts.items ≡ [] }
        ensures no_ends { result.kept.all_different.counters.ends.items ≡ [] }
        ensures no_bins { result.kept.survey.bins.items ≡ [] }
        ensures no_begun { result.kept.survey.begun.items ≡ [] }
        ensures no_ended { result.kept.survey.ended.items ≡ [] }
        ensures no_best_rooms { result.kept.best_rooms.rows.items ≡ [] }
    {
        PackProp {
            alloc,
            kept: Kept::new(alloc),
        }
    }
}

/// What the constraint answers.
pub fn answer(
    alloc: Global,
    kept: &mut Kept,
    k: u32,
    subject: Subject<'_>,
) -> Result<Option<Clause>, AllocError>
    requires well_made { IsWellMadeCon subject.domains.now subject.con.now }
    requires boxes { AreBoxesWithin subject.domains.now subject.boxes.now }
    requires sets { All (λ d. IsValid d) subject.domains.now }
    ensures { IfOk result (λ a. IsAnswer subject.entry.con.now subject.entry.domains.now
        subject.entry.boxes.now a) }
{
    let con = subject.con;
    match con {
        Con::AllDiff { vars } => {
            kept.all_different
                .prune(k, con, vars.items(), subject.domains, subject.boxes)
        }
        Con::Pack { items } => prune_packing(alloc, kept, k, subject, items.items()),
        _ => probe(con, subject.domains, subject.boxes, alloc),
    }
}

impl Propagator for PackProp {
    ghost handled = { λ p k. is_handled k };

    fn handles(&self, kind: Kind) -> bool {
        match kind {
            Kind::AllDiff | Kind::Pack => true,
            _ => false,
        }
    }

    fn begin(&mut self) {
        self.kept.all_different.begin();
        self.kept.repeats.forget();
        self.kept.survey.clear();
    }

    fn prune(
        &mut self,
        g: &Ground,
        k: u32,
        boxes: &[IntSet],
    ) -> Result<Option<Clause>, AllocError> {
        let subject = Subject {
            con: &g.cons.items()[k as usize],
            domains: g.domains.items(),
            boxes,
        };
        answer(self.alloc, &mut self.kept, k, subject)
    }
}
