//! What cases ask of kits of propagators. `kit NAME ..` adds the members of the names one after the
//! other, and asks before the first and behind each which kind is missing and how many members come
//! back, or whether the kit is complete. `prunes BOX .. | BOX ..` asks a kit of plain probing for
//! its clause of the problem that is given in the first boxes, and in the second ones once it has
//! begun anew.
use crate::given::{answer_of, said_text, two_lists};
use crate::harness::{ASKED, is_askable, problem_of};
use bool_prop::BoolProp;
use element_prop::ElementProp;
use ground_form::{Ground, Kind};
use linear_prop::LinearProp;
use pack_prop::PackProp;
use rule_law::{Kit, Propagator, are_boxes_within};
use signed_clause::IntSet;
use std::alloc::{AllocError, Global};
use test_case_files::{Case, Subject, push_word, words_of};
use test_problems::{Prober, Unread, sets_of};

/// What is asked of kits.
#[derive(Drop)]
pub(crate) struct Kits;

/// All kinds.
const KINDS: [Kind; 11] = [
    Kind::LinLe,
    Kind::LinDef,
    Kind::ReifLe,
    Kind::AndDef,
    Kind::MemberDef,
    Kind::EqDef,
    Kind::ElementDef,
    Kind::CondDef,
    Kind::ClauseCon,
    Kind::AllDiff,
    Kind::Pack,
];

/// The kinds that the propagator handles.
pub(crate) fn handled_kinds<P: Propagator>(alloc: Global, p: &P) -> Result<String, AllocError> {
    let mut text = String::new(alloc);
    for kind in KINDS {
        if p.handles(kind) {
            push_word(&mut text, &format!(in alloc; "{kind:?}")?)?;
        }
    }
    Ok(text)
}

/// Which kinds are missing of kits with the first members.
fn missing_kinds(alloc: Global, names: &[&str]) -> Result<String, AllocError> {
    let mut text = String::new(alloc);
    let mut list = Vec::new(alloc);
    for name in names {
        match Kit::new(list) {
            Ok(_) => {
                push_word(&mut text, "complete")?;
                return Ok(text);
            }
            Err(refused) => {
                let (kind, count) = (refused.kind, refused.list.len());
                push_word(&mut text, &format!(in alloc; "{kind:?} {count}")?)?;
                list = refused.list;
            }
        }
        let member: Box<dyn Propagator> = match *name {
            "linear" => Box::new(alloc, LinearProp::new(alloc))?,
            "flags" => Box::new(alloc, BoolProp::new(alloc))?,
            "choices" => Box::new(alloc, ElementProp::new(alloc))?,
            "packing" => Box::new(alloc, PackProp::new(alloc))?,
            _ => Box::new(alloc, Prober { alloc })?,
        };
        list.push(member)?;
    }
    if Kit::new(list).is_ok() {
        push_word(&mut text, "complete")?;
    }
    Ok(text)
}

/// The clause of the kit in the boxes.
fn pruned(alloc: Global, kit: &mut Kit, g: &Ground, boxes: &[IntSet]) -> Result<String, Unread> {
    if !is_askable(g, alloc)? || !are_boxes_within(g.domains.items(), boxes) {
        return Err(Unread::Form);
    }
    Ok(said_text(alloc, &kit.prune(g, ASKED, boxes)?)?)
}

/// The clauses of a kit of plain probing in two rows of boxes.
fn prunes(
    alloc: Global,
    g: &Ground,
    first: &[IntSet],
    second: &[IntSet],
) -> Result<String, Unread> {
    let every: Box<dyn Propagator> = Box::new(alloc, Prober { alloc })?;
    let Ok(mut kit) = Kit::new(vec![in alloc; every]?) else {
        return Err(Unread::Form);
    };
    let one = pruned(alloc, &mut kit, g, first)?;
    kit.begin();
    let other = pruned(alloc, &mut kit, g, second)?;
    Ok(format!(in alloc; "{one} then {other}")?)
}

/// The clauses in the boxes of a text.
fn prunes_text(alloc: Global, given: &[u8], text: &[u8]) -> Result<String, Unread> {
    let (_, g) = problem_of(alloc, given)?;
    let (first, second) = two_lists(alloc, text)?;
    let first = sets_of(alloc, &first)?;
    let second = sets_of(alloc, &second)?;
    prunes(alloc, &g, &first, &second)
}

impl Subject for Kits {
    fn answer(&mut self, alloc: Global, case: &Case<'_>) -> Result<String, AllocError> {
        if case.ask == "kit" {
            return missing_kinds(alloc, &words_of(alloc, &case.text)?);
        }
        let told = prunes_text(alloc, &case.given, &case.text);
        answer_of(alloc, told)
    }
}
