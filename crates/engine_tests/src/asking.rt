//! What cases ask of propagators. A case is about domains and a constraint, as in
//! `given 0..1 0..2 | MemberDef 0 1 0..1`; the propagator of its kind is asked.
//!
//! - `begin`: forgets what was kept of all constraints.
//! - `handles NAME`: the kinds that the propagator of the name handles.
//! - `agrees COUNT VALUE ..`: how many of the first boxes of a table over the values lie within the
//!   domains, where the propagator leaves of each what plain probing does.
//! - `keeps COUNT`: the same over the values 0 to 3, where no point is lost either at which the
//!   constraint is true.
//! - `alike`: whether it leaves of the domains what plain probing does.
//! - `leaves`: what it leaves of the domains.
//! - `turn BOX ..`: what one call comes to: `still`, `conflict`, or the box that is narrowed.
//! - `explains BOX ..`: the clause of one call, or `nothing`.
ghost use Rattle.std.specs.Prelude.{◌<◌, length};
ghost use Rattle.ground_form.specs.WellMade.{IsWellMade};

use crate::given::{answer_of, literal_text, said_text};
use crate::harness::{
    Settled, Turn, answer_in, ask_once, is_askable, problem_of, settle, settle_alike,
};
use crate::kits::handled_kinds;
use crate::points::true_points;
use crate::tables::{Table, count_agreeing};
use bool_prop::BoolProp;
use element_prop::ElementProp;
use ground_form::{Con, Ground, copy_sets};
use linear_prop::LinearProp;
use pack_prop::PackProp;
use rule_law::Propagator;
use std::alloc::{AllocError, Global};
use test_case_files::{Case, Subject, number_at, numbers_of, words_of};
use test_problems::{Unread, sets_of, sets_text};

/// One propagator of each name. What is kept for one constraint stands when the next one comes
/// under the same number.
#[derive(Drop)]
pub(crate) struct Propagators {
    linear: LinearProp,
    flags: BoolProp,
    choices: ElementProp,
    packing: PackProp,
}

impl Propagators {
    /// New ones.
    pub(crate) fn new(alloc: Global) -> Propagators {
        Propagators {
            linear: LinearProp::new(alloc),
            flags: BoolProp::new(alloc),
            choices: ElementProp::new(alloc),
            packing: PackProp::new(alloc),
        }
    }

    /// Forgets what was kept.
    fn begin(&mut self) {
        self.linear.begin();
        self.flags.begin();
        self.choices.begin();
        self.packing.begin();
    }
}

/// What was left, as a text.
fn settled_text(alloc: Global, settled: &Settled) -> Result<String, AllocError> {
    match settled {
        Settled::Left(sets) => sets_text(alloc, sets),
        Settled::Conflict => String::from_str(alloc, "conflict"),
        Settled::Wrong => String::from_str(alloc, "wrong"),
    }
}

/// What one call came to, as a text.
fn turn_text(alloc: Global, turn: &Turn) -> Result<String, AllocError> {
    match turn {
        Turn::Still => String::from_str(alloc, "still"),
        Turn::Narrowed(x, set) => literal_text(alloc, *x, set),
        Turn::Conflict => String::from_str(alloc, "conflict"),
        Turn::Wrong => String::from_str(alloc, "wrong"),
    }
}

/// What is asked of boxes that words tell.
fn told_of_boxes<P: Propagator>(
    p: &mut P,
    g: &Ground,
    ask: &str,
    words: &[&str],
    alloc: Global,
) -> Result<String, Unread>
    requires well_made { IsWellMade g.now }
    requires con { 3 < length g.now.cons }
{
    let boxes = sets_of(alloc, words)?;
    match ask {
        "turn" => Ok(turn_text(alloc, &ask_once(p, g, &boxes)?)?),
        "explains" => Ok(said_text(alloc, &answer_in(p, g, &boxes)?)?),
        _ => Err(Unread::Form),
    }
}

/// What is asked of a table.
fn told_of_table<P: Propagator>(
    p: &mut P,
    g: &Ground,
    ask: &str,
    text: &[u8],
    alloc: Global,
) -> Result<String, AllocError>
    requires well_made { IsWellMade g.now }
    requires con { 3 < length g.now.cons }
{
    let numbers = numbers_of(alloc, text)?;
    let count = number_at(&words_of(alloc, text)?, 0).min(65536);
    let kept: &[i64] = &[0, 1, 2, 3];
    let (values, step, points) = match (ask, numbers.as_slice()) {
        ("agrees", [_, values @ ..]) => (values, 1, Vec::new(alloc)),
        _ => (kept, 11, true_points(alloc, g)?),
    };
    let table = Table {
        values,
        step,
        count,
    };
    let cases = count_agreeing(p, g, table, &points, alloc)?;
    format!(in alloc; "{cases}")
}

/// What is asked of one propagator.
fn told<P: Propagator>(
    p: &mut P,
    g: &Ground,
    ask: &str,
    text: &[u8],
    alloc: Global,
) -> Result<String, Unread> {
    if !is_askable(g, alloc)? {
        return Err(Unread::Form);
    }
    let domains = g.domains.items();
    match ask {
        "agrees" | "keeps" => Ok(told_of_table(p, g, ask, text, alloc)?),
        "alike" => {
            let alike = !matches!(settle_alike(p, g, domains, alloc)?, Settled::Wrong);
            Ok(format!(in alloc; "{alike}")?)
        }
        "leaves" => {
            let left = settle(p, g, copy_sets(alloc, domains)?)?;
            Ok(settled_text(alloc, &left)?)
        }
        _ => told_of_boxes(p, g, ask, &words_of(alloc, text)?, alloc),
    }
}

/// What is asked of the propagator of the constraint's kind.
fn told_of_kind(
    propagators: &mut Propagators,
    case: &Case<'_>,
    alloc: Global,
) -> Result<String, Unread> {
    let (con, g) = problem_of(alloc, &case.given)?;
    let (ask, text) = (case.ask, case.text.as_slice());
    match con {
        Con::LinLe { .. } | Con::LinDef { .. } | Con::ReifLe { .. } => {
            told(&mut propagators.linear, &g, ask, text, alloc)
        }
        Con::AndDef { .. } | Con::MemberDef { .. } | Con::ClauseCon { .. } => {
            told(&mut propagators.flags, &g, ask, text, alloc)
        }
        Con::EqDef { .. } | Con::ElementDef { .. } | Con::CondDef { .. } => {
            told(&mut propagators.choices, &g, ask, text, alloc)
        }
        Con::AllDiff { .. } | Con::Pack { .. } => {
            told(&mut propagators.packing, &g, ask, text, alloc)
        }
    }
}

/// The kinds that the propagator of the name handles.
fn handled(propagators: &Propagators, name: &[u8], alloc: Global) -> Result<String, AllocError> {
    match str::from_utf8(name).unwrap_or("") {
        "linear" => handled_kinds(alloc, &propagators.linear),
        "flags" => handled_kinds(alloc, &propagators.flags),
        "choices" => handled_kinds(alloc, &propagators.choices),
        _ => handled_kinds(alloc, &propagators.packing),
    }
}

impl Subject for Propagators {
    fn answer(&mut self, alloc: Global, case: &Case<'_>) -> Result<String, AllocError> {
        if case.ask == "begin" {
            self.begin();
            return String::from_str(alloc, "begun");
        }
        if case.ask == "handles" {
            return handled(self, &case.text, alloc);
        }
        let told = told_of_kind(self, case, alloc);
        answer_of(alloc, told)
    }
}
