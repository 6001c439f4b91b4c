//! Parts of a typed model. `part A B` asks for the model that is given with the constraints A and
//! B alone: the places of its constraints, how many whole constraints the bodies of its quantifiers
//! with a filter have, and how many objectives it has.
use conf_types::{RNode, TypedModel};
use std::alloc::{AllocError, Global};
use test_case_files::{Case, Subject, number_at, words_of};
use test_models::typed_of;

/// What is asked of a typed model.
#[derive(Drop)]
pub(crate) struct Parts;

/// The model with these two constraints alone; None where they don't ascend, or one isn't there.
#[tactic(auto, using(crate::proofs::TwoNumbers::two_ascend, crate::proofs::TwoNumbers::two_are_there))]
fn part_of(alloc: Global, model: &TypedModel, first: u32, second: u32) -> Option<TypedModel> {
    if first >= second || second as usize >= model.constraints().len() {
        return None;
    }
    model.only(alloc, &[first, second]).ok()
}

/// The places of two constraints that are the whole of a model.
fn places_of(model: &TypedModel) -> Option<(u32, u32)> {
    match model.constraints() {
        [first, second] => Some((first.place, second.place)),
        _ => None,
    }
}

/// How many bodies the quantifiers of a model have that are whole constraints with a filter.
fn filtered_bodies(model: &TypedModel) -> usize {
    let mut count = 0;
    for constraint in model.constraints() {
        if let RNode::Quant(quant) = &constraint.expr.node {
            if quant.filter.is_some() {
                count = quant.body.len();
            }
        }
    }
    count
}

/// What a part comes to.
fn told(alloc: Global, model: &TypedModel, first: u32, second: u32) -> Result<String, AllocError> {
    let Some(part) = part_of(alloc, model, first, second) else {
        return String::from_str(alloc, "none");
    };
    let places = places_of(&part);
    let bodies = filtered_bodies(&part);
    let goals = part.goals().len();
    format!(in alloc; "{places:?} {bodies} {goals}")
}

impl Subject for Parts {
    fn answer(&mut self, alloc: Global, case: &Case<'_>) -> Result<String, AllocError> {
        let words = words_of(alloc, &case.text)?;
        match typed_of(alloc, &case.given) {
            Some(typed) => told(
                alloc,
                &typed.model,
                number_at(&words, 0),
                number_at(&words, 1),
            ),
            None => String::from_str(alloc, "no model"),
        }
    }
}
