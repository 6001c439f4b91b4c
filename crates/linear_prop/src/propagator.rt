//! `LinearProp`, the propagator of the linear kinds.
//!
//! It is made with an allocator, for explanations and for what it keeps: which variables of a
//! constraint stand twice.
ghost use Rattle.std.specs.Prelude.{◌≡◌, ◌<◌, true, IfOk, IfSome, length, slice_get};
ghost use Rattle.std.specs.List.{All};
ghost use Rattle.signed_clause.specs.Ranges.{IsValid};
ghost use Rattle.ground_form.specs.Kinds as kinds;
ghost use Rattle.ground_form.specs.WellMade.{IsWellMade, IsWellMadeCon};
ghost use Rattle.rule_law.specs.Answers.{AreBoxesWithin, IsAnswer};
ghost use Rattle.linear_prop.specs.Handled.{is_handled};

use crate::kinds::linear_answer;
use ground_form::{Ground, Kind};
use rule_law::{Propagator, Repeats, Subject, probe};
use signed_clause::{Clause, IntSet};
use std::alloc::{AllocError, Global};

/// The propagator of sums with a bound, of sums that define a variable, and of flags that say
/// whether a sum keeps a bound.
///
/// A constraint in which no variable stands twice is answered by its rows: a walk over the terms,
/// and two for a sum that defines a variable or an open flag; another by plain probing. That no
/// variable stands twice is kept.
pub struct LinearProp {
    alloc: Global,
    repeats: Repeats,
}

impl Drop for LinearProp {
    fn drop(self) {
        let LinearProp {
            alloc: _,
            repeats: _,
        } = self;
    }
}

impl LinearProp {
    /// A propagator that has kept nothing. It takes no memory.
    pub fn new(alloc: Global) -> LinearProp
        ensures { result.alloc ≡ alloc }
    {
        LinearProp {
            alloc,
            repeats: Repeats::new(alloc),
        }
    }
}

/// The answer of the constraint with the number.
pub(crate) fn answer_of(
    alloc: Global,
    repeats: &mut Repeats,
    k: u32,
    subject: Subject<'_>,
) -> Result<Option<Clause>, AllocError>
    requires well_made { IsWellMadeCon subject.domains.now subject.con.now }
    requires sets { All (λ d. IsValid d) subject.domains.now }
    requires boxes { AreBoxesWithin subject.domains.now subject.boxes.now }
    ensures { IfOk result (λ answer. IsAnswer subject.entry.con.now subject.entry.domains.now
        subject.entry.boxes.now answer) }
{
    let differ = repeats.has_no_repeat(k, subject.con)?;
    if differ {
        let answer = linear_answer(alloc, subject)?;
        Ok(answer)
    } else {
        let answer = probe(subject.con, subject.domains, subject.boxes, alloc)?;
        Ok(answer)
    }
}

impl Propagator for LinearProp {
    ghost handled = { λ p kind. is_handled kind };

    fn handles(&self, kind: Kind) -> bool {
        matches!(kind, Kind::LinLe | Kind::LinDef | Kind::ReifLe)
    }

    fn begin(&mut self) {
        self.repeats.forget();
    }

    fn prune(
        &mut self,
        g: &Ground,
        k: u32,
        boxes: &[IntSet],
    ) -> Result<Option<Clause>, AllocError> {
        let subject = Subject {
            con: &g.cons.items()[k as usize],
            domains: g.domains.items(),
            boxes,
        };
        let answer = answer_of(self.alloc, &mut self.repeats, k, subject)?;
        Ok(answer)
    }
}
