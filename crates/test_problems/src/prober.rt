//! Plain probing as a propagator of every kind.
ghost use Rattle.std.specs.Prelude.{◌≡◌, ◌<◌, true, length, slice_get, IfOk, IfSome};
ghost use Rattle.ground_form.specs.Kinds as kinds;
ghost use Rattle.ground_form.specs.WellMade.{IsWellMade};
ghost use Rattle.rule_law.specs.Answers.{AreBoxesWithin, IsAnswer};

use ground_form::{Ground, Kind};
use rule_law::{Propagator, probe};
use signed_clause::{Clause, IntSet};
use std::alloc::{AllocError, Global};

/// A propagator that probes.
#[derive(Drop)]
pub struct Prober {
    /// Where clauses take their memory.
    pub alloc: Global,
}

impl Propagator for Prober {
    ghost handled = { λ p kind. true };

    fn handles(&self, kind: Kind) -> bool {
        true
    }

    fn begin(&mut self) {}

    fn prune(
        &mut self,
        g: &Ground,
        k: u32,
        boxes: &[IntSet],
    ) -> Result<Option<Clause>, AllocError> {
        probe(
            &g.cons.items()[k as usize],
            g.domains.items(),
            boxes,
            self.alloc,
        )
    }
}
