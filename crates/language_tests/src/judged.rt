//! Configurations of the model that is given. `at VALUE ..` asks what is broken first, for the two
//! objectives, and for the value of the first one's expression.
ghost use Rattle.std.specs.Prelude.{◌≡◌, ◌<◌, ◌^◌, true, length, pos, slice_index_or};
ghost use Rattle.class_table.specs.Outline.{Outline};
ghost use Rattle.conf_types.specs.Typing.{IsTypedModel};
ghost use Rattle.object_alloc.specs.Configurations.{IsConfiguration, IsInDomain};
ghost use Rattle.conf_limits.specs.Measures.{model_narrow};

use conf_eval::{BrokenAt, Env, Value, eval, limits, objectives, satisfied};
use conf_types::TypedModel;
use object_alloc::{Config, Domain, ObjectList, Objects, allocate};
use std::alloc::{AllocError, Global};
use test_case_files::{Case, Subject, numbers_of};
use test_models::typed_of;

/// What is asked of configurations.
#[derive(Drop)]
pub(crate) struct Judged;

/// What is broken first, the values of two objectives, and that of the first one's expression.
type Found = (Option<BrokenAt>, i64, i64, i64);

/// Whether the value of this number lies in a range of numbers; false where the domain is an
/// extent.
fn is_in(domain: Domain, values: &[i64], i: usize) -> bool
    requires there { i < length values.now }
    ensures inside { (o : Outline) → result ≡ true
        → IsInDomain o domain (slice_index_or values.now i (pos 0)) }
{
    match domain {
        Domain::Span(low, high) => low <= values[i] && values[i] <= high,
        Domain::Extent(_) => false,
    }
}

/// Whether these values are a configuration of objects whose cells all hold numbers.
fn are_values(objects: &Objects<'_>, values: &[i64]) -> bool
    ensures configuration { result ≡ true → IsConfiguration objects.now values.now }
{
    let cells = objects.cells();
    if cells.len() != values.len() {
        return false;
    }
    for i in 0..cells.len() {
        if !is_in(cells[i].domain, values, i) {
            return false;
        }
    }
    true
}

/// The value of the first objective's expression; 0 where there is none, or it is no number.
fn first_value(
    alloc: Global,
    m: &TypedModel,
    objects: &Objects<'_>,
    config: &Config,
) -> Result<i64, AllocError>
    requires typed { IsTypedModel objects.now m.now.constraints m.now.goals }
    requires narrow { model_narrow objects.now m.now.constraints m.now.goals ≡ true }
    requires config { IsConfiguration objects.now config.now }
{
    let env = Env {
        this_object: None,
        vars: ObjectList::of(Vec::new(alloc)),
    };
    let goals = m.goals();
    if goals.len() == 0 {
        return Ok(0);
    }
    let goal = &goals[0];
    let value = eval(alloc, m, objects, config, &env, &goal.expr)?;
    match value {
        Value::Int(number) => Ok(number),
        _ => Ok(0),
    }
}

/// What the calls find at a configuration; None where the model is too costly, has not two
/// objectives, or the values don't fit.
fn found_at(
    alloc: Global,
    m: &TypedModel,
    objects: &Objects<'_>,
    values: &[i64],
) -> Result<Option<Found>, AllocError>
    requires typed { IsTypedModel objects.now m.now.constraints m.now.goals }
    requires few { length m.now.constraints < 2 ^ 32 }
{
    if limits(m, objects).is_err() {
        return Ok(None);
    }
    let config = Config::of(values.to_vec(alloc)?);
    if !are_values(objects, config.items()) {
        return Ok(None);
    }
    let broken = satisfied(alloc, m, objects, &config)?;
    let first = first_value(alloc, m, objects, &config)?;
    let numbers = objectives(alloc, m, objects, &config)?;
    match numbers.items() {
        [one, two] => Ok(Some((broken, *one, *two, first))),
        _ => Ok(None),
    }
}

/// What is found, as a text.
fn found_text(alloc: Global, found: &Found) -> Result<String, AllocError> {
    let (broken, one, two, first) = *found;
    match broken {
        Some(broken) => format!(in alloc; "{broken:?} | {one} {two} {first}"),
        None => format!(in alloc; "nothing | {one} {two} {first}"),
    }
}

impl Subject for Judged {
    fn answer(&mut self, alloc: Global, case: &Case<'_>) -> Result<String, AllocError> {
        let Some(typed) = typed_of(alloc, &case.given) else {
            return String::from_str(alloc, "no model");
        };
        let Ok(objects) = allocate(alloc, &typed.table) else {
            return String::from_str(alloc, "no objects");
        };
        let values = numbers_of(alloc, &case.text)?;
        match found_at(alloc, &typed.model, &objects, &values)? {
            Some(found) => found_text(alloc, &found),
            None => String::from_str(alloc, "not judged"),
        }
    }
}
