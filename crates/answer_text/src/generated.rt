//! The text that answers `gen`: how large the model is, and its best objectives.
ghost use Rattle.std.specs.Prelude.{◌≡◌, ◌++◌, ◌≤◌, None, OnOk, IfOk, length};
ghost use Rattle.model_generator.specs.Generated.{generated};
ghost use Rattle.model_search.specs.Findings.{Tells};
ghost use Rattle.answer_text.specs.Texts.{number_lines, shown_text, gen_text};
ghost use Rattle.model_reader.specs.Ready.{IsReady};

use crate::configurations::push_values;
use crate::lines::{push_number, push_undecided};
use command_limits::GENERATED_BUDGET;
use model_generator::generate;
use model_reader::Built;
use model_search::Finding;
use std::alloc::{AllocError, Global};

/// Adds how large the model that is made for `n` is.
fn push_numbers(
    alloc: Global,
    text: &mut Vec<u8>,
    built: Built<'_>,
    n: u32,
) -> Result<(), AllocError>
    requires some { 1 ≤ n }
    requires few { n ≤ 100 }
    ensures text { OnOk result (text.new.items ≡ text.old.items
        ++ number_lines built.entry.objects.now (length (generated n))) }
{
    let bytes = generate(alloc, n)?.len();
    push_number(alloc, text, "bytes ", bytes)?;
    push_number(alloc, text, "objects ", built.objects.count() as usize)?;
    push_number(alloc, text, "cells ", built.objects.cells().len())
}

/// Adds what `gen` shows behind the numbers.
fn push_shown(
    alloc: Global,
    text: &mut Vec<u8>,
    built: Built<'_>,
    told: &Finding,
) -> Result<(), AllocError>
    requires ready { IsReady built.table.now built.objects.now built.model.now.constraints
        built.model.now.goals }
    requires told { Tells built.objects.now built.model.now.constraints built.model.now.goals
        None told.now }
    ensures text { OnOk result (text.new.items ≡ text.old.items
        ++ shown_text built.entry.objects.now built.entry.model.now.goals told.now) }
{
    match told {
        Finding::Best(config) => push_values(alloc, text, built, config),
        Finding::NoneExists => text.extend_from_slice(b"none exists\n"),
        Finding::Open(_) => push_undecided(alloc, text, GENERATED_BUDGET),
    }
}

/// The text that answers `gen`.
pub fn gen_text(
    alloc: Global,
    built: Built<'_>,
    n: u32,
    told: &Finding,
) -> Result<Vec<u8>, AllocError>
    requires ready { IsReady built.table.now built.objects.now built.model.now.constraints
        built.model.now.goals }
    requires some { 1 ≤ n }
    requires few { n ≤ 100 }
    requires told { Tells built.objects.now built.model.now.constraints built.model.now.goals
        None told.now }
    ensures text { IfOk result (λ text. text.items
        ≡ gen_text built.entry.objects.now built.entry.model.now.goals n told.now) }
{
    let mut text = Vec::new(alloc);
    push_numbers(alloc, &mut text, built, n)?;
    push_shown(alloc, &mut text, built, told)?;
    Ok(text)
}
