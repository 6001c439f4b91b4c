//! From the texts of a model and of a configuration to what is told of them.
ghost use Rattle.std.specs.Prelude.{◌≡◌, ◌≤◌, length, IfErr, IfOk};
ghost use Rattle.conf_syntax.specs.Trees.{program_tokens, nesting};
ghost use Rattle.conf_syntax.specs.Words.{AreWords};
ghost use Rattle.model_limits.specs.Limits.{model_bytes, most_nesting};
ghost use Rattle.model_reader.specs.Ready.{IsReady};
ghost use Rattle.run_status.specs.Stages.{Denied};
ghost use Rattle.view_breaks.specs.Answer.{IsAnswer, IsDenied, IsDeniedFor, IsTold, IsToldFor, IsUnread};

use crate::breaks::breaks_of;
use crate::reading::config_of;
use crate::text::breaks_text;
use conf_syntax::Program;
use model_reader::{Built, objects_of, read_model, table_of, typed_model};
use run_status::Status;
use std::alloc::Global;

/// What a configuration breaks.
#[derive(Drop)]
pub struct Told {
    /// As a text.
    pub text: Vec<u8>,
    /// How many breaks there are.
    pub count: usize,
}

/// What the configuration that the bytes are breaks of a model with this text.
fn told_of(alloc: Global, source: &[u8], built: Built<'_>, bytes: &[u8]) -> Result<Told, Status>
    requires ready { IsReady built.table.now built.objects.now built.model.now.constraints
        built.model.now.goals }
    ensures told { IfOk result (λ told. IsTold built.entry.table.now
        built.entry.model.now.constraints source.now bytes.now told.text.items told.count) }
    ensures refused { IfErr result (λ s. Denied s (IsUnread built.entry.table.now bytes.now s)) }
{
    let config = config_of(alloc, built, bytes)?;
    let found = breaks_of(alloc, built.model, built.objects, &config)?;
    let text = breaks_text(alloc, source, built.objects, &found)?;
    let count = found.len();
    Ok(Told { text, count })
}

/// What the configuration that the bytes are breaks of the model with this text and tree.
#[tactic(auto, using(crate::proofs::AnswerLaws::refused_for))]
fn told_for(alloc: Global, source: &[u8], program: &Program, bytes: &[u8]) -> Result<Told, Status>
    requires words { AreWords (program_tokens program.now) }
    requires nested { nesting program.now ≤ most_nesting }
    requires few { length (program_tokens program.now) ≤ model_bytes }
    ensures told { IfOk result (λ told. IsToldFor bytes.now told.text.items told.count source.now
        program.now) }
    ensures refused { IfErr result (λ s. Denied s (IsDeniedFor bytes.now s program.now)) }
{
    let table = match table_of(alloc, program) {
        Ok(table) => table,
        Err(status) => return Err(status),
    };
    let model = match typed_model(alloc, program, &table) {
        Ok(model) => model,
        Err(status) => return Err(status),
    };
    let objects = match objects_of(alloc, &table, &model) {
        Ok(objects) => objects,
        Err(status) => return Err(status),
    };
    let built = Built {
        table: &table,
        model: &model,
        objects: &objects,
    };
    match told_of(alloc, source, built, bytes) {
        Ok(told) => Ok(told),
        Err(status) => Err(status),
    }
}

/// What the configuration that the bytes are breaks of the model that a text is.
///
/// # Errors
///
/// As `verify`: why the text is no model, or which limit it breaks; that the bytes are no JSON, no
/// object, or have no value for a leaf; or want of memory.
#[tactic(auto, using(crate::proofs::AnswerLaws::text_denied))]
pub fn broken(alloc: Global, source: &[u8], bytes: &[u8]) -> Result<Told, Status>
    requires short { length source.now ≤ model_bytes }
    ensures told { IfOk result (λ told. IsAnswer source.now bytes.now told.text.items told.count) }
    ensures refused { IfErr result (λ s. Denied s (IsDenied source.now bytes.now s)) }
{
    let program = match read_model(alloc, source) {
        Ok(program) => program,
        Err(status) => return Err(status),
    };
    match told_for(alloc, source, &program, bytes) {
        Ok(told) => Ok(told),
        Err(status) => Err(status),
    }
}
