//! `ElementProp`, the propagator of elements, equalities and conditionals.
ghost use Rattle.std.specs.Prelude.{◌≡◌, ◌<◌, true, length, slice_get, IfOk, IfSome};
ghost use Rattle.std.specs.List.{All};
ghost use Rattle.signed_clause.specs.Ranges.{IsValid};
ghost use Rattle.ground_form.specs.Kinds as kinds;
ghost use Rattle.ground_form.specs.WellMade.{IsWellMade, IsWellMadeCon};
ghost use Rattle.rule_law.specs.Answers.{AreBoxesWithin, IsAnswer};
ghost use Rattle.element_prop.specs.Handled.{is_handled};

use crate::conditional::prune_conditional;
use crate::element::prune_element;
use crate::equality::prune_equality;
use ground_form::{Con, Ground, Kind};
use rule_law::{Propagator, Repeats, Subject, probe};
use signed_clause::{Clause, IntSet};
use std::alloc::{AllocError, Global};

/// The propagator of elements, equalities and conditionals. Of equalities and conditionals the
/// boxes of three variables tell at once whether there is something to say. What is kept is which
/// variables of an element stand twice.
pub struct ElementProp {
    alloc: Global,
    repeats: Repeats,
}

impl Drop for ElementProp {
    fn drop(self) {
        let ElementProp {
            alloc: _,
            repeats: _,
        } = self;
    }
}

impl ElementProp {
    /// The propagator. It takes no memory.
    pub fn new(alloc: Global) -> ElementProp
        ensures { result.alloc ≡ alloc }
    {
        ElementProp {
            alloc,
            repeats: Repeats::new(alloc),
        }
    }
}

/// Whether a kind is one of elements, equalities or conditionals.
fn is_handled(kind: Kind) -> bool
    ensures { result ≡ is_handled kind }
{
    matches!(kind, Kind::EqDef | Kind::ElementDef | Kind::CondDef)
}

/// What a constraint has to say in the boxes.
pub(crate) fn prune_one(
    alloc: Global,
    repeats: &mut Repeats,
    k: u32,
    con: &Con,
    domains: &[IntSet],
    boxes: &[IntSet],
) -> Result<Option<Clause>, AllocError>
    requires well_made { IsWellMadeCon domains.now con.now }
    requires boxes { AreBoxesWithin domains.now boxes.now }
    requires sets { All (λ d. IsValid d) domains.now }
    ensures answer { IfOk result (λ a. IsAnswer con.now domains.now boxes.now a) }
{
    let subject = Subject {
        con,
        domains,
        boxes,
    };
    match con {
        Con::EqDef { flag, left, right } => {
            prune_equality(subject, (*flag, *left, *right), alloc)
        }
        Con::ElementDef { out, index, items } => {
            prune_element(alloc, repeats, k, subject, (*out, *index), items.items())
        }
        Con::CondDef { out, flag, item } => {
            prune_conditional(subject, (*out, *flag, *item), alloc)
        }
        _ => probe(con, domains, boxes, alloc),
    }
}

impl Propagator for ElementProp {
    ghost handled = { λ p kind. is_handled kind };

    fn handles(&self, kind: Kind) -> bool {
        is_handled(kind)
    }

    fn begin(&mut self) {
        self.repeats.forget();
    }

    fn prune(
        &mut self,
        g: &Ground,
        k: u32,
        boxes: &[IntSet],
    ) -> Result<Option<Clause>, AllocError> {
        let con = &g.cons.items()[k as usize];
        prune_one(
            self.alloc,
            &mut self.repeats,
            k,
            con,
            g.domains.items(),
            boxes,
        )
    }
}
