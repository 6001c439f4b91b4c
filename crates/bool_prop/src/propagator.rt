//! `BoolProp`, the propagator of conjunctions, memberships and clauses.
ghost use Rattle.std.specs.Prelude.{◌≡◌, ◌<◌, true, length, slice_get, IfOk, IfSome};
ghost use Rattle.std.specs.List.{All};
ghost use Rattle.signed_clause.specs.Ranges.{IsValid};
ghost use Rattle.ground_form.specs.Kinds as kinds;
ghost use Rattle.ground_form.specs.WellMade.{IsWellMade, IsWellMadeCon};
ghost use Rattle.rule_law.specs.Answers.{AreBoxesWithin, IsAnswer};
ghost use Rattle.bool_prop.specs.Handled.{is_handled};

use crate::conjunction::prune_conjunction;
use crate::member::prune_member;
use ground_form::{Con, Ground, Kind};
use rule_law::{Propagator, Repeats, Subject, probe, prune_clause};
use signed_clause::{Clause, IntSet};
use std::alloc::{AllocError, Global};

/// The propagator of conjunctions, memberships and clauses. The boxes of a flag and of the first
/// parts tell at once that there is nothing to say, and so do two literals of a clause; what is
/// kept is which conjunctions have a variable that stands twice.
pub struct BoolProp {
    alloc: Global,
    repeats: Repeats,
}

impl Drop for BoolProp {
    fn drop(self) {
        let BoolProp {
            alloc: _,
            repeats: _,
        } = self;
    }
}

impl BoolProp {
    /// The propagator. It takes no memory.
    pub fn new(alloc: Global) -> BoolProp
        ensures { result.alloc ≡ alloc }
    {
        BoolProp {
            alloc,
            repeats: Repeats::new(alloc),
        }
    }
}

/// Whether a kind is one of conjunctions, memberships or clauses.
fn is_handled(kind: Kind) -> bool
    ensures { result ≡ is_handled kind }
{
    matches!(kind, Kind::AndDef | Kind::MemberDef | Kind::ClauseCon)
}

/// What a constraint has to say in the boxes.
pub(crate) fn prune_one(
    alloc: Global,
    repeats: &mut Repeats,
    k: u32,
    subject: Subject<'_>,
) -> Result<Option<Clause>, AllocError>
    requires well_made { IsWellMadeCon subject.domains.now subject.con.now }
    requires boxes { AreBoxesWithin subject.domains.now subject.boxes.now }
    requires sets { All (λ d. IsValid d) subject.domains.now }
    ensures answer { IfOk result (λ a. IsAnswer subject.entry.con.now subject.entry.domains.now
        subject.entry.boxes.now a) }
{
    match subject.con {
        Con::AndDef { flag, parts } => {
            prune_conjunction(repeats, k, subject, *flag, parts.items(), alloc)
        }
        Con::MemberDef { flag, var, set } => prune_member(subject, *flag, *var, set, alloc),
        Con::ClauseCon { clause } => prune_clause(clause.clause(), subject.domains, subject.boxes),
        _ => probe(subject.con, subject.domains, subject.boxes, alloc),
    }
}

impl Propagator for BoolProp {
    ghost handled = { λ p kind. is_handled kind };

    fn handles(&self, kind: Kind) -> bool {
        is_handled(kind)
    }

    fn begin(&mut self) {
        self.repeats.forget();
    }

    fn prune(
        &mut self,
        g: &Ground,
        k: u32,
        boxes: &[IntSet],
    ) -> Result<Option<Clause>, AllocError> {
        let subject = Subject {
            con: &g.cons.items()[k as usize],
            domains: g.domains.items(),
            boxes,
        };
        prune_one(self.alloc, &mut self.repeats, k, subject)
    }
}
