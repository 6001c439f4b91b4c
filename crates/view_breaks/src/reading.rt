//! The configuration of a model that a text is.
ghost use Rattle.std.specs.Prelude.{map, ◌≡◌, true, is_some, None, Some, IsSome, IfOk, IfErr};
ghost use Rattle.std.specs.List.{list_all};
ghost use Rattle.config_json.specs.Former.{hints, missing};
ghost use Rattle.config_json.specs.Reading.{json_of, value_read};
ghost use Rattle.model_reader.specs.Ready.{IsReady};
ghost use Rattle.object_alloc.specs.Configurations.{IsConfiguration};
ghost use Rattle.run_status.specs.Stages.{Denied};
ghost use Rattle.serde_json.specs.Find.{as_object};
ghost use Rattle.view_breaks.specs.Answer.{HasFullSets, IsConfigOf, IsUnread};

use class_table::ClassTable;
use config_json::{ConfigText, FormerError, hints_of, missing, read_config};
use model_reader::Built;
use object_alloc::{Config, Objects};
use run_status::{FormerKind, Status};
use std::alloc::{AllocError, Global};

/// What the bytes are read as.
fn json_read(alloc: Global, built: Built<'_>, bytes: &[u8]) -> Result<ConfigText, Status>
    ensures read { IfOk result (λ former. value_read bytes.now ≡ Some (json_of former)) }
    ensures object { IfOk result (λ former. IsSome (as_object (json_of former))) }
    ensures refused { IfErr result (λ s. Denied s (IsUnread built.entry.table.now bytes.now s)) }
{
    match read_config(alloc, bytes) {
        Ok(former) => Ok(former),
        Err(FormerError::NotJson) => Err(Status::Former {
            kind: FormerKind::NotJson,
        }),
        Err(FormerError::NotObject) => Err(Status::Former {
            kind: FormerKind::NotObject,
        }),
        Err(FormerError::Memory) => Err(Status::Memory),
    }
}

/// The values of hints that are all there.
fn given_values(alloc: Global, hints: &[Option<i64>]) -> Result<Vec<i64>, AllocError>
    requires all { list_all is_some hints.now ≡ true }
    ensures values { IfOk result (λ values. hints.now ≡ map Some values.items) }
{
    let mut values = Vec::new(alloc);
    for hint in hints {
        if let Some(value) = hint {
            values.push(*value)?;
        }
    }
    Ok(values)
}

/// The configuration of an object in which each leaf has a value.
fn whole_config(
    alloc: Global,
    former: &ConfigText,
    table: &ClassTable,
    objects: &Objects<'_>,
) -> Result<Config, AllocError>
    requires one { objects.now ≡ table.now }
    requires whole { missing table.now (json_of former.now) ≡ None }
    ensures values { IfOk result (λ config. hints table.now (json_of former.now)
        ≡ map Some config) }
    ensures config { IfOk result (λ config. IsConfiguration table.now config) }
    ensures sets { IfOk result (λ config. HasFullSets table.now config) }
{
    let hints = hints_of(alloc, former, table, objects)?;
    Ok(Config::of(given_values(alloc, hints.items())?))
}

/// The configuration that the bytes are.
pub(crate) fn config_of(alloc: Global, built: Built<'_>, bytes: &[u8]) -> Result<Config, Status>
    requires ready { IsReady built.table.now built.objects.now built.model.now.constraints
        built.model.now.goals }
    ensures config { IfOk result (λ config. IsConfigOf built.entry.table.now bytes.now config) }
    ensures sets { IfOk result (λ config. HasFullSets built.entry.table.now config) }
    ensures refused { IfErr result (λ s. Denied s (IsUnread built.entry.table.now bytes.now s)) }
{
    let former = json_read(alloc, built, bytes)?;
    match missing(alloc, &former, built.table, built.objects)? {
        None => {}
        Some(path) => return Err(Status::Broken { place: None, path }),
    }
    let config = whole_config(alloc, &former, built.table, built.objects)?;
    Ok(config)
}
