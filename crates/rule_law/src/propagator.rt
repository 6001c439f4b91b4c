//! The face of every propagator.
//!
//! A propagator handles some kinds of constraints. Asked for one of them, it finds a clause that
//! the constraint justifies and that narrows a box or shows a conflict, or says that the constraint
//! is quiet. What it caches changes no answer.
ghost use Rattle.std.specs.Prelude.{◌≡◌, ◌<◌, Bool, true, IfOk, IfSome, length, slice_get};
ghost use Rattle.ground_form.specs.declared.kind.Kind.{Kind};
ghost use Rattle.ground_form.specs.Kinds as kinds;
ghost use Rattle.ground_form.specs.WellMade.{IsWellMade};
ghost use Rattle.rule_law.specs.Answers.{AreBoxesWithin, IsAnswer};

use ground_form::{Ground, Kind};
use signed_clause::{Clause, IntSet};
use std::alloc::AllocError;

/// Something that prunes by constraints of some kinds.
pub trait Propagator: Drop {
    // which kinds it handles
    ghost handled: { Self → Kind → Bool };

    /// Whether it handles the kind. The answer never changes.
    fn handles(&self, kind: Kind) -> bool
        ensures { result ≡ handled self.now kind };

    /// Forgets what is cached.
    fn begin(&mut self)
        ensures { handled self.new ≡ handled self.old };

    /// A clause that constraint `k` justifies and that is unit or false in the boxes; None where
    /// the constraint is quiet.
    ///
    /// # Errors
    /// Want of memory.
    fn prune(&mut self, g: &Ground, k: u32, boxes: &[IntSet]) -> Result<Option<Clause>, AllocError>
        requires well_made { IsWellMade g.now }
        requires con { k < length g.now.cons }
        requires handled { IfSome (slice_get g.now.cons k)
            (λ con. handled self.old (kinds.kind_of con) ≡ true) }
        requires boxes { AreBoxesWithin g.now.domains boxes.now }
        ensures answer { IfOk result (λ answer. IfSome (slice_get g.now.cons k)
            (λ con. IsAnswer con g.now.domains boxes.now answer)) }
        ensures handled { handled self.new ≡ handled self.old };
}
