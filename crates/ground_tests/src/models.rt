//! Models that are given. `same MODEL` compares a model with its ground problem at every
//! configuration, and asks for how many there are and how many satisfy both. `makes MODEL` asks for
//! how many variables the problem has beside the cells, for its constraints with the lengths of
//! their lists, and for its goals.
ghost use Rattle.conf_types.specs.Typing.{IsTypedModel};

use crate::comparing::{compare, compared_text};
use conf_eval::limits;
use conf_types::TypedModel;
use ground_form::{Con, Ground, kind_of};
use ground_model::ground;
use object_alloc::{Objects, allocate};
use std::alloc::{AllocError, Global};
use test_case_files::{Case, Subject, push_word};
use test_models::typed_of;

/// What is asked of models that are given.
#[derive(Drop)]
pub(crate) struct Models;

/// How many terms, parts, items, literals or variables a constraint's list has; 0 where it has
/// none.
fn length_of(con: &Con) -> usize {
    match con {
        Con::LinLe { terms, .. } => terms.items().len(),
        Con::LinDef { terms, .. } => terms.items().len(),
        Con::ReifLe { terms, .. } => terms.items().len(),
        Con::AndDef { parts, .. } => parts.items().len(),
        Con::ElementDef { items, .. } => items.items().len(),
        Con::ClauseCon { clause } => clause.clause().literals().len(),
        Con::AllDiff { vars } => vars.items().len(),
        Con::Pack { items } => items.items().len(),
        Con::MemberDef { .. } | Con::EqDef { .. } | Con::CondDef { .. } => 0,
    }
}

/// The constraints of a problem, as a text.
fn constraints_text(alloc: Global, cons: &[Con]) -> Result<String, AllocError> {
    let mut text = String::new(alloc);
    for con in cons {
        let kind = kind_of(con);
        let length = length_of(con);
        push_word(&mut text, &format!(in alloc; "{kind:?}-{length}")?)?;
    }
    Ok(text)
}

/// A problem, as a text.
fn problem_text(alloc: Global, g: &Ground) -> Result<String, AllocError> {
    let further = g.domains.items().len().saturating_sub(g.search as usize);
    let goals = g.goals.items().len();
    let constraints = constraints_text(alloc, g.cons.items())?;
    format!(in alloc; "{further} further, {goals} goals | {constraints}")
}

/// The ground problem of a typed model, as a text.
fn made_typed(alloc: Global, m: &TypedModel, objects: &Objects<'_>) -> Result<String, AllocError>
    requires typed { IsTypedModel objects.now m.now.constraints m.now.goals }
{
    if limits(m, objects).is_err() {
        return String::from_str(alloc, "refused");
    }
    let g = ground(alloc, m, objects)?;
    problem_text(alloc, &g)
}

/// The ground problem of a text's model, as a text.
fn made_text(alloc: Global, text: &[u8]) -> Result<String, AllocError> {
    let Some(typed) = typed_of(alloc, text) else {
        return String::from_str(alloc, "refused");
    };
    let Ok(objects) = allocate(alloc, &typed.table) else {
        return String::from_str(alloc, "refused");
    };
    made_typed(alloc, &typed.model, &objects)
}

impl Subject for Models {
    fn answer(&mut self, alloc: Global, case: &Case<'_>) -> Result<String, AllocError> {
        match case.ask {
            "makes" => made_text(alloc, &case.text),
            _ => compared_text(alloc, &compare(alloc, &case.text)?),
        }
    }
}
