//! The lines of a configuration.
ghost use Rattle.std.specs.Prelude.{◌≡◌, ◌++◌, OnOk, IfSome, option_copied};
ghost use Rattle.std.specs.List.{flat_map};
ghost use Rattle.conf_eval.specs.Satisfying.{objectives};
ghost use Rattle.object_alloc.specs.Configurations.{IsConfiguration};
ghost use Rattle.answer_text.specs.Texts.{best_text, change_lines, objective_line};
ghost use Rattle.model_reader.specs.Ready.{IsReady};
ghost use Rattle.model_search.specs.Wanted.{IsUnderstood};

use crate::lines::{push_number, push_objectives};
use conf_eval::objectives;
use config_json::config_text;
use model_reader::Built;
use object_alloc::{Config, Objects};
use reconfigure::{Repair, change_count};
use std::alloc::{AllocError, Global};

/// Adds the lines of the objectives at a configuration.
pub(crate) fn push_values(
    alloc: Global,
    text: &mut Vec<u8>,
    built: Built<'_>,
    config: &Config,
) -> Result<(), AllocError>
    requires ready { IsReady built.table.now built.objects.now built.model.now.constraints
        built.model.now.goals }
    requires config { IsConfiguration built.objects.now config.now }
    ensures text { OnOk result (text.new.items ≡ text.old.items
        ++ flat_map objective_line (objectives built.entry.objects.now built.entry.model.now.goals
        config.now)) }
{
    let values = objectives(alloc, built.model, built.objects, config)?;
    push_objectives(alloc, text, values.items())
}

/// Adds, of a repair, how many former values a configuration changes.
#[tactic(auto, using(crate::proofs::Counts::enough_hints))]
fn push_changes(
    alloc: Global,
    text: &mut Vec<u8>,
    objects: &Objects<'_>,
    repair: Option<&Repair>,
    config: &Config,
) -> Result<(), AllocError>
    requires understood { IfSome (option_copied repair) (IsUnderstood objects.now) }
    requires config { IsConfiguration objects.now config.now }
    ensures text { OnOk result (text.new.items ≡ text.old.items
        ++ change_lines objects.now (option_copied repair.entry) config.now) }
{
    let Some(repair) = repair else {
        return Ok(());
    };
    let changes = change_count(objects, repair.former.items(), config);
    push_number(alloc, text, "changes ", changes)
}

/// Adds a configuration's line, that of its changes where there is a repair, and those of its
/// objectives.
pub(crate) fn push_config(
    alloc: Global,
    text: &mut Vec<u8>,
    built: Built<'_>,
    repair: Option<&Repair>,
    config: &Config,
) -> Result<(), AllocError>
    requires ready { IsReady built.table.now built.objects.now built.model.now.constraints
        built.model.now.goals }
    requires understood { IfSome (option_copied repair) (IsUnderstood built.objects.now) }
    requires config { IsConfiguration built.objects.now config.now }
    ensures text { OnOk result (text.new.items ≡ text.old.items
        ++ best_text built.entry.objects.now built.entry.model.now.goals
        (option_copied repair.entry) config.now) }
{
    let line = config_text(alloc, built.table, built.objects, config)?;
    text.extend_from_slice(&line)?;
    text.push(b'\n')?;
    push_changes(alloc, text, built.objects, repair, config)?;
    push_values(alloc, text, built, config)
}
