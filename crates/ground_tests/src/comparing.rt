//! A model and its ground problem, compared at every configuration.
ghost use Rattle.std.specs.Prelude.{◌≡◌, ◌≤◌, true, length};
ghost use Rattle.model_limits.specs.Limits.{model_bytes};
ghost use Rattle.conf_types.specs.Typing.{IsTypedModel};
ghost use Rattle.conf_limits.specs.Measures.{model_narrow};
ghost use Rattle.object_alloc.specs.Configurations.{IsConfiguration};

use crate::configurations::{choices, is_configuration, picked, ways};
use crate::extension::{extension, lies_within};
use crate::stating::all_true;
use conf_eval::{limits, objectives, satisfied};
use conf_types::{Goal, TypedModel};
use ground_form::{Ground, GroundGoal};
use ground_model::ground;
use object_alloc::{Config, Objects, allocate};
use std::alloc::{AllocError, Global};
use test_models::typed_of;

/// What a configuration is for a model and its ground problem.
#[derive(Clone, Copy, PartialEq, Eq)]
pub(crate) enum Finding {
    /// It satisfies both.
    Satisfied,
    /// It breaks both.
    Broken,
    /// Some variable gets no value of its definition, or not in turn.
    NoExtension,
    /// Some variable's value isn't in its domain.
    OutOfDomain,
    /// It satisfies the one and breaks the other.
    OtherTruth,
    /// The goals have other values or directions than the objectives.
    OtherGoals,
    /// It is no configuration.
    None,
}

/// How a comparison of a model with its ground problem came out.
#[derive(Drop)]
pub(crate) enum Compared {
    /// At each of so many configurations both say the same; so many satisfy them.
    Alike(u64, u64),
    /// There are too many configurations.
    TooMany,
    /// The text is no model, or one that costs too much.
    Refused,
    /// At these values they aren't alike.
    Unlike(Vec<i64>, Finding),
}

/// Whether goals have the values and the directions of objectives.
fn same_goals(goals: &[GroundGoal], list: &[Goal], numbers: &[i64], values: &[i64]) -> bool {
    if goals.len() != list.len() || goals.len() != numbers.len() {
        return false;
    }
    for k in 0..goals.len() {
        let goal = &list[k];
        let value = values.get(goals[k].var as usize).copied();
        if goals[k].max != goal.max || value != Some(numbers[k]) {
            return false;
        }
    }
    true
}

/// What is found where the values of all variables are known.
fn found_at(
    alloc: Global,
    m: &TypedModel,
    objects: &Objects<'_>,
    g: &Ground,
    config: &Config,
    values: &[i64],
) -> Result<Finding, AllocError>
    requires typed { IsTypedModel objects.now m.now.constraints m.now.goals }
    requires narrow { model_narrow objects.now m.now.constraints m.now.goals ≡ true }
    requires few { length m.now.constraints ≤ model_bytes }
    requires config { IsConfiguration objects.now config.now }
{
    let numbers = objectives(alloc, m, objects, config)?;
    if !same_goals(g.goals.items(), m.goals(), numbers.items(), values) {
        return Ok(Finding::OtherGoals);
    }
    let broken = satisfied(alloc, m, objects, config)?;
    match (broken.is_none(), all_true(g, values)) {
        (true, true) => Ok(Finding::Satisfied),
        (false, false) => Ok(Finding::Broken),
        (true, false) | (false, true) => Ok(Finding::OtherTruth),
    }
}

/// What a configuration is for a model and its ground problem.
fn look_at(
    alloc: Global,
    m: &TypedModel,
    objects: &Objects<'_>,
    g: &Ground,
    cells: Vec<i64>,
) -> Result<Finding, AllocError>
    requires typed { IsTypedModel objects.now m.now.constraints m.now.goals }
    requires narrow { model_narrow objects.now m.now.constraints m.now.goals ≡ true }
    requires few { length m.now.constraints ≤ model_bytes }
{
    if !is_configuration(alloc, objects, cells.as_slice())? {
        return Ok(Finding::None);
    }
    let Some(values) = extension(alloc, g, cells.as_slice())? else {
        return Ok(Finding::NoExtension);
    };
    if !lies_within(g, values.as_slice()) {
        return Ok(Finding::OutOfDomain);
    }
    let config = Config::of(cells);
    let found = found_at(alloc, m, objects, g, &config, values.as_slice())?;
    Ok(found)
}

/// Compares a model with its ground problem at so many configurations.
fn compare_all(
    alloc: Global,
    m: &TypedModel,
    objects: &Objects<'_>,
    g: &Ground,
    lists: &[Vec<i64>],
    count: u64,
) -> Result<Compared, AllocError>
    requires typed { IsTypedModel objects.now m.now.constraints m.now.goals }
    requires narrow { model_narrow objects.now m.now.constraints m.now.goals ≡ true }
    requires few { length m.now.constraints ≤ model_bytes }
{
    let mut right = 0_u64;
    for n in 0..count {
        let found = look_at(alloc, m, objects, g, picked(alloc, lists, n)?)?;
        match found {
            Finding::Satisfied => right = right.saturating_add(1),
            Finding::Broken => {}
            _ => return Ok(Compared::Unlike(picked(alloc, lists, n)?, found)),
        }
    }
    Ok(Compared::Alike(count, right))
}

/// Compares a typed model with its ground problem.
fn compare_typed(
    alloc: Global,
    m: &TypedModel,
    objects: &Objects<'_>,
) -> Result<Compared, AllocError>
    requires typed { IsTypedModel objects.now m.now.constraints m.now.goals }
    requires few { length m.now.constraints ≤ model_bytes }
{
    if limits(m, objects).is_err() {
        return Ok(Compared::Refused);
    }
    let lists = choices(alloc, objects)?;
    let Some(count) = ways(lists.as_slice()) else {
        return Ok(Compared::TooMany);
    };
    let g = ground(alloc, m, objects)?;
    let compared = compare_all(alloc, m, objects, &g, lists.as_slice(), count)?;
    Ok(compared)
}

/// Compares the model of a text with its ground problem.
pub(crate) fn compare(alloc: Global, text: &[u8]) -> Result<Compared, AllocError> {
    let Some(typed) = typed_of(alloc, text) else {
        return Ok(Compared::Refused);
    };
    let Ok(objects) = allocate(alloc, &typed.table) else {
        return Ok(Compared::Refused);
    };
    let compared = compare_typed(alloc, &typed.model, &objects)?;
    Ok(compared)
}

/// What two that aren't alike are, in words.
pub(crate) fn words_of(found: Finding) -> &'static str {
    match found {
        Finding::Satisfied => "satisfied",
        Finding::Broken => "broken",
        Finding::NoExtension => "no extension",
        Finding::OutOfDomain => "out of a domain",
        Finding::OtherTruth => "another truth",
        Finding::OtherGoals => "other goals",
        Finding::None => "no configuration",
    }
}

/// How a comparison came out, as a text.
pub(crate) fn compared_text(alloc: Global, compared: &Compared) -> Result<String, AllocError> {
    match compared {
        Compared::Alike(count, right) => {
            format!(in alloc; "{count} configurations, {right} satisfied")
        }
        Compared::TooMany => String::from_str(alloc, "too many configurations"),
        Compared::Refused => String::from_str(alloc, "refused"),
        Compared::Unlike(values, found) => {
            let word = words_of(*found);
            let list = values_text(alloc, values)?;
            format!(in alloc; "{word} at {list}")
        }
    }
}

/// Values, as a text.
fn values_text(alloc: Global, values: &[i64]) -> Result<String, AllocError> {
    let mut text = String::new(alloc);
    for value in values {
        let word = format!(in alloc; "{value}")?;
        test_case_files::push_word(&mut text, &word)?;
    }
    Ok(text)
}
