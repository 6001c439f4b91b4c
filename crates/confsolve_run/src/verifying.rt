//! `verify`: whether the configuration that some bytes are satisfies a model.
ghost use Rattle.std.specs.Prelude.{◌≡◌, ◌<◌, ◌≤◌, map, true, length, is_some, None, Some, IfOk, IfErr, IfSome, IsTrue, slice_index_or};
ghost use Rattle.std.specs.List.{list_all};
ghost use Rattle.conf_types.specs.Resolved.{ResolvedConstraint};
ghost use Rattle.config_json.specs.Former.{hints, missing};
ghost use Rattle.config_json.specs.Reading.{json_of};
ghost use Rattle.desk_io.specs.Desk.{OfFile};
ghost use Rattle.object_alloc.specs.Configurations.{IsConfiguration};
ghost use Rattle.object_alloc.specs.Walk.{objects as all_objects};
ghost use Rattle.run_promise.specs.Answer.{IsConfigOf, IsVerified};
ghost use Rattle.run_promise.specs.Asking.{IsShort};
ghost use Rattle.confsolve_run.specs.Verifying.{HasFullSets};
ghost use Rattle.model_reader.specs.Ready.{IsReady};
ghost use Rattle.run_promise.specs.Refusal.{stated_path, IsUnverified};
ghost use Rattle.run_status.specs.Stages.{Answered, stage_of, Denied};
ghost use Rattle.round_commands.specs.Unreadable.{Unreadable};

use answer_text::satisfied_text;
use class_table::ClassTable;
use conf_eval::{BrokenAt, satisfied};
use conf_request::FileName;
use conf_syntax::PathText;
use conf_types::{Constraint, TypedModel};
use config_json::{ConfigText, hints_of, missing};
use desk_io::Desk;
use model_reader::Built;
use object_alloc::{Config, Objects};
use round_commands::{Answer, config_bytes, former_of};
use run_status::Status;
use std::alloc::{AllocError, Global};

/// The values of hints that are all there.
fn given_values(alloc: Global, hints: &[Option<i64>]) -> Result<Vec<i64>, AllocError>
    requires all { list_all is_some hints.now ≡ true }
    ensures values { IfOk result (λ values. hints.now ≡ map Some values.items) }
{
    let mut values = Vec::new(alloc);
    for hint in hints {
        if let Some(value) = hint {
            values.push(*value)?;
        }
    }
    Ok(values)
}

/// The configuration of a former value in which each leaf has a value.
fn whole_config(
    alloc: Global,
    former: &ConfigText,
    table: &ClassTable,
    objects: &Objects<'_>,
) -> Result<Config, AllocError>
    requires one { objects.now ≡ table.now }
    requires whole { missing table.now (json_of former.now) ≡ None }
    ensures values { IfOk result (λ config. hints table.now (json_of former.now)
        ≡ map Some config) }
    ensures config { IfOk result (λ config. IsConfiguration table.now config) }
    ensures sets { IfOk result (λ config. HasFullSets table.now config) }
{
    let hints = hints_of(alloc, former, table, objects)?;
    Ok(Config::of(given_values(alloc, hints.items())?))
}

/// The configuration that the bytes are.
fn config_of(alloc: Global, bytes: &[u8], built: Built<'_>) -> Result<Config, Status>
    requires ready { IsReady built.table.now built.objects.now built.model.now.constraints
        built.model.now.goals }
    requires short { IsShort bytes.now }
    ensures config { IfOk result (λ config. IsConfigOf built.entry.table.now bytes.now config) }
    ensures sets { IfOk result (λ config. HasFullSets built.entry.table.now config) }
    ensures refused { IfErr result (λ s. Denied s
        (IsUnverified built.entry.table.now built.entry.model.now.constraints bytes.now s)) }
{
    let former = former_of(alloc, bytes)?;
    match missing(alloc, &former, built.table, built.objects)? {
        None => {}
        Some(path) => return Err(Status::Broken { place: None, path }),
    }
    let config = whole_config(alloc, &former, built.table, built.objects)?;
    Ok(config)
}

/// The path of the object for which a constraint is stated; empty at the top level.
fn stated_path(
    alloc: Global,
    objects: &Objects<'_>,
    object: Option<u32>,
) -> Result<PathText, AllocError>
    requires object { IfSome object (λ n. n < length (all_objects objects.now)) }
    ensures path { IfOk result (λ path. path ≡ stated_path objects.now object) }
{
    match object {
        Some(object) => objects.path_of(alloc, object),
        None => PathText::of(alloc, b""),
    }
}

/// The place of a constraint.
fn place_of(constraint: &Constraint) -> u32
    ensures place { result ≡ constraint.now.place }
{
    constraint.place
}

/// The status of a constraint that is broken for an object.
fn broken_status(
    alloc: Global,
    built: Built<'_>,
    index: u32,
    object: Option<u32>,
) -> Result<Status, AllocError>
    requires index { index < length built.model.now.constraints }
    requires object { IfSome object (λ n. n < length (all_objects built.objects.now)) }
    ensures status { IfOk result (λ s. (d : ResolvedConstraint) → s ≡ Status.Broken
        (Some (slice_index_or built.entry.model.now.constraints index d).place)
        (stated_path built.entry.objects.now object)) }
{
    let path = stated_path(alloc, built.objects, object)?;
    let place = Some(place_of(&built.model.constraints()[index as usize]));
    Ok(Status::Broken { place, path })
}

/// The answer to `verify` with these bytes.
fn verify_bytes(alloc: Global, bytes: &[u8], built: Built<'_>) -> Result<Answer, Status>
    requires ready { IsReady built.table.now built.objects.now built.model.now.constraints
        built.model.now.goals }
    requires short { IsShort bytes.now }
    ensures stage { IfOk result (λ a. stage_of a.status ≡ Answered) }
    ensures answer { IfOk result (λ a. IsVerified built.entry.objects.now
        built.entry.model.now.constraints
        built.entry.model.now.goals bytes.now a.status a.text.items) }
    ensures log { IfOk result (λ a. a.log ≡ None) }
    ensures refused { IfErr result (λ s. Denied s
        (IsUnverified built.entry.objects.now built.entry.model.now.constraints bytes.now s)) }
{
    let config = config_of(alloc, bytes, built)?;
    match satisfied(alloc, built.model, built.objects, &config)? {
        None => Ok(Answer {
            status: Status::Done,
            text: satisfied_text(alloc, built, &config)?,
            log: None,
        }),
        Some(BrokenAt::Constraint { index, object }) => {
            Err(broken_status(alloc, built, index, object)?)
        }
        Some(BrokenAt::SetSize { .. }) => unreachable!(),
    }
}

/// The answer to `verify` with the configuration in this file.
pub(crate) fn verify<D: Desk>(
    alloc: Global,
    desk: &mut D,
    file: &FileName,
    built: Built<'_>,
) -> Result<Answer, Status>
    requires may_read { IsTrue (D.may_read desk.old file.now) }
    requires ready { IsReady built.table.now built.objects.now built.model.now.constraints
        built.model.now.goals }
    ensures stage { IfOk result (λ a. stage_of a.status ≡ Answered) }
    ensures answer { IfOk result (λ a. OfFile (D.files desk.old) file.now
        (λ bytes. IsVerified built.entry.objects.now built.entry.model.now.constraints
        built.entry.model.now.goals bytes a.status a.text.items)) }
    ensures log { IfOk result (λ a. a.log ≡ None) }
    ensures refused { IfErr result (λ s. Unreadable (D.read_faults desk.old)
        (D.read_faults desk.new) s (OfFile (D.files desk.old) file.now
        (λ bytes. IsUnverified built.entry.objects.now built.entry.model.now.constraints bytes
        s))) }
    ensures files { D.files desk.new ≡ D.files desk.old }
    ensures printed { D.printed desk.new ≡ D.printed desk.old }
    ensures read_faults { D.read_faults desk.old ≤ D.read_faults desk.new }
    ensures write_faults { D.write_faults desk.new ≡ D.write_faults desk.old }
    ensures may_write { D.may_write desk.new ≡ D.may_write desk.old }
{
    let bytes = config_bytes(alloc, desk, file)?;
    verify_bytes(alloc, &bytes, built)
}
