//! The texts that answer `solve`, `reconfigure`, `check` and `verify`.
ghost use Rattle.std.specs.Prelude.{◌≡◌, IfOk, IfSome, option_copied};
ghost use Rattle.model_search.specs.Findings.{Tells};
ghost use Rattle.model_search.specs.Wanted.{IsUnderstood};
ghost use Rattle.object_alloc.specs.Configurations.{IsConfiguration};
ghost use Rattle.answer_text.specs.Texts.{solve_text, check_text, satisfied_text};
ghost use Rattle.model_reader.specs.Ready.{IsReady};

use crate::configurations::{push_config, push_values};
use crate::lines::push_undecided;
use model_reader::Built;
use model_search::Finding;
use object_alloc::Config;
use reconfigure::Repair;
use std::alloc::{AllocError, Global};

/// The text that answers `solve`, and of a repair `reconfigure`.
pub fn solve_text(
    alloc: Global,
    built: Built<'_>,
    repair: Option<&Repair>,
    budget: u32,
    told: &Finding,
) -> Result<Vec<u8>, AllocError>
    requires ready { IsReady built.table.now built.objects.now built.model.now.constraints
        built.model.now.goals }
    requires understood { IfSome (option_copied repair) (IsUnderstood built.objects.now) }
    requires told { Tells built.objects.now built.model.now.constraints built.model.now.goals
        (option_copied repair) told.now }
    ensures text { IfOk result (λ text. text.items
        ≡ solve_text built.entry.objects.now built.entry.model.now.goals
        (option_copied repair.entry) budget told.now) }
{
    let mut text = Vec::new(alloc);
    match told {
        Finding::Best(config) => push_config(alloc, &mut text, built, repair, config)?,
        Finding::NoneExists => text.extend_from_slice(b"none exists\n")?,
        Finding::Open(None) => push_undecided(alloc, &mut text, budget)?,
        Finding::Open(Some(config)) => {
            push_config(alloc, &mut text, built, repair, config)?;
            push_undecided(alloc, &mut text, budget)?;
        }
    }
    Ok(text)
}

/// The text that answers `check`.
pub fn check_text(
    alloc: Global,
    built: Built<'_>,
    repair: Option<&Repair>,
    told: &Finding,
) -> Result<Vec<u8>, AllocError>
    requires ready { IsReady built.table.now built.objects.now built.model.now.constraints
        built.model.now.goals }
    requires understood { IfSome (option_copied repair) (IsUnderstood built.objects.now) }
    requires told { Tells built.objects.now built.model.now.constraints built.model.now.goals
        (option_copied repair) told.now }
    ensures text { IfOk result (λ text. text.items
        ≡ check_text built.entry.objects.now built.entry.model.now.goals
        (option_copied repair.entry) told.now) }
{
    let mut text = Vec::new(alloc);
    match told {
        Finding::Best(config) => push_config(alloc, &mut text, built, repair, config)?,
        Finding::NoneExists => text.extend_from_slice(b"none exists\n")?,
        Finding::Open(_) => text.extend_from_slice(b"open\n")?,
    }
    Ok(text)
}

/// The text that answers `verify`.
pub fn satisfied_text(
    alloc: Global,
    built: Built<'_>,
    config: &Config,
) -> Result<Vec<u8>, AllocError>
    requires ready { IsReady built.table.now built.objects.now built.model.now.constraints
        built.model.now.goals }
    requires config { IsConfiguration built.objects.now config.now }
    ensures text { IfOk result (λ text. text.items
        ≡ satisfied_text built.entry.objects.now built.entry.model.now.goals config.now) }
{
    let mut text = b"satisfied\n".to_vec(alloc)?;
    push_values(alloc, &mut text, built, config)?;
    Ok(text)
}
