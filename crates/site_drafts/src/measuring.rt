//! Whether a text is a typed model within the limits.
ghost use Rattle.std.specs.Prelude.{◌≤◌, length, IfErr, OnOk};
ghost use Rattle.conf_syntax.specs.Trees.{program_tokens, nesting};
ghost use Rattle.conf_syntax.specs.Words.{AreWords};
ghost use Rattle.model_limits.specs.Limits.{model_bytes, most_nesting};
ghost use Rattle.model_reader.specs.ModelRefusal.{IsRefusedAs, IsRefusedFor};
ghost use Rattle.model_reader.specs.Models.{IsWithin};
ghost use Rattle.model_reader.specs.TextModel.{HasModel};
ghost use Rattle.run_status.specs.Stages.{Denied};
ghost use Rattle.site_drafts.specs.Drafts.{IsTooMuch};

use crate::refusal::Refusal;
use conf_syntax::Program;
use model_limits::MODEL_BYTES;
use model_reader::{objects_of, read_model, table_of, typed_model};
use run_status::Status;
use std::alloc::Global;

/// Whether a model is typed and within the limits, or the status that refuses it.
fn measure_program(alloc: Global, program: &Program) -> Result<(), Status>
    requires words { AreWords (program_tokens program.now) }
    requires nested { nesting program.now ≤ most_nesting }
    requires few { length (program_tokens program.now) ≤ model_bytes }
    ensures within { OnOk result (IsWithin program.now) }
    ensures refused { IfErr result (λ s. Denied s (IsRefusedFor s program.now)) }
{
    let table = table_of(alloc, program)?;
    let model = typed_model(alloc, program, &table)?;
    objects_of(alloc, &table, &model)?;
    Ok(())
}

/// Whether a text is a typed model within the limits, or the status that refuses it.
#[tactic(auto, using(crate::proofs::MeasureLaws::text_refused))]
fn measure(alloc: Global, text: &[u8]) -> Result<(), Status>
    requires { length text.now ≤ model_bytes }
    ensures within { OnOk result (HasModel text.now IsWithin) }
    ensures refused { IfErr result (λ s. Denied s (IsRefusedAs s text.now)) }
{
    let program = match read_model(alloc, text) {
        Ok(program) => program,
        Err(status) => return Err(status),
    };
    match measure_program(alloc, &program) {
        Ok(()) => Ok(()),
        Err(status) => Err(status),
    }
}

/// Whether a text is a typed model within the limits, or why it isn't.
pub(crate) fn measured(alloc: Global, text: &[u8]) -> Result<(), Refusal>
    ensures model { OnOk result (HasModel text.now IsWithin) }
    ensures refused { IfErr result (IsTooMuch text.now) }
{
    if text.len() > MODEL_BYTES as usize {
        return Err(Refusal::LongModel);
    }
    match measure(alloc, text) {
        Ok(()) => Ok(()),
        Err(Status::Memory) => Err(Refusal::Memory),
        Err(status) => Err(Refusal::Refused(status)),
    }
}
