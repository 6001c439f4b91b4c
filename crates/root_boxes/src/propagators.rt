//! The propagators that are asked before any decision: all but that of packings.
ghost use Rattle.std.specs.Prelude.{◌≡◌, ◌<◌, Some, length, slice_get, IfOk, IfSome};
ghost use Rattle.ground_form.specs.declared.con.Con.{Con};
ghost use Rattle.ground_form.specs.WellMade.{IsWellMade};
ghost use Rattle.rule_law.specs.Answers.{AreBoxesWithin, IsPruning};

use bool_prop::BoolProp;
use element_prop::ElementProp;
use ground_form::{Ground, kind_of};
use linear_prop::LinearProp;
use rule_law::Propagator;
use signed_clause::{Clause, IntSet};
use std::alloc::{AllocError, Global};

/// One propagator of each sort.
#[derive(Drop)]
pub(crate) struct Propagators {
    sums: LinearProp,
    truths: BoolProp,
    choices: ElementProp,
}

/// What a propagator has to say of constraint k, where it handles such ones.
fn ask<P: Propagator>(
    p: &mut P,
    g: &Ground,
    k: u32,
    boxes: &[IntSet],
) -> Result<Option<Clause>, AllocError>
    requires well_made { IsWellMade g.now }
    requires con { k < length g.now.cons }
    requires boxes { AreBoxesWithin g.now.domains boxes.now }
    ensures pruning { IfOk result (λ o. IfSome o (λ clause. (con : Con)
        → slice_get g.now.cons k ≡ Some con → IsPruning con g.now.domains boxes.now clause)) }
{
    let kind = kind_of(&g.cons.items()[k as usize]);
    if !p.handles(kind) {
        return Ok(None);
    }
    p.prune(g, k, boxes)
}

impl Propagators {
    /// Propagators that have seen nothing yet.
    pub(crate) fn new(alloc: Global) -> Propagators {
        Propagators {
            sums: LinearProp::new(alloc),
            truths: BoolProp::new(alloc),
            choices: ElementProp::new(alloc),
        }
    }

    /// What constraint k has to say; of a packing nothing.
    pub(crate) fn ask(
        &mut self,
        g: &Ground,
        k: u32,
        boxes: &[IntSet],
    ) -> Result<Option<Clause>, AllocError>
        requires well_made { IsWellMade g.now }
        requires con { k < length g.now.cons }
        requires boxes { AreBoxesWithin g.now.domains boxes.now }
        ensures pruning { IfOk result (λ o. IfSome o (λ clause. (con : Con)
            → slice_get g.now.cons k ≡ Some con
            → IsPruning con g.now.domains boxes.now clause)) }
    {
        if let Some(clause) = ask(&mut self.sums, g, k, boxes)? {
            return Ok(Some(clause));
        }
        if let Some(clause) = ask(&mut self.truths, g, k, boxes)? {
            return Ok(Some(clause));
        }
        ask(&mut self.choices, g, k, boxes)
    }
}
