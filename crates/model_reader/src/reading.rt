//! From a text to the tree of its model, or the status that refuses it.
ghost use Rattle.std.specs.Prelude.{◌≡◌, ◌≤◌, length, IfOk, IfErr, MatchResult};
ghost use Rattle.conf_syntax.specs.Trees.{program_tokens, nesting};
ghost use Rattle.conf_syntax.specs.Words.{AreWords};
ghost use Rattle.model_limits.specs.Limits.{model_bytes, most_nesting};
ghost use Rattle.model_reader.specs.ModelRefusal.{IsTextRefused};
ghost use Rattle.model_reader.specs.Refusing.{refusal_of};
ghost use Rattle.model_reader.specs.TextModel.{IsModelOf};
ghost use Rattle.run_status.specs.Stages.{Denied, IsUnless};
ghost use Rattle.run_status.specs.declared.status.Status.{Status as AStatus};

use crate::model::{TextError, model_of};
use conf_syntax::Program;
use run_status::{LimitKind, Status};
use std::alloc::Global;

/// The status of a text that gave no model.
fn refusal_of(error: TextError) -> Status
    ensures { result ≡ refusal_of error }
{
    match error {
        TextError::Syntax(place) => Status::Syntax { place },
        TextError::Literal(place) => Status::Limit {
            kind: LimitKind::Literal,
            place: Some(place),
        },
        TextError::Nesting(place) => Status::Limit {
            kind: LimitKind::Nesting,
            place: Some(place),
        },
        TextError::Memory => Status::Memory,
    }
}

/// The tree of the model that a text of at most `MODEL_BYTES` bytes is.
///
/// # Errors
///
/// Why it is none, by its first wrong place; or want of memory.
pub fn read_model(alloc: Global, text: &[u8]) -> Result<Program, Status>
    requires { length text.now ≤ model_bytes }
    ensures model { IfOk result (λ p. IsModelOf text.now p) }
    ensures nested { IfOk result (λ p. nesting p ≤ most_nesting) }
    ensures few { IfOk result (λ p. length (program_tokens p) ≤ model_bytes) }
    ensures words { IfOk result (λ p. AreWords (program_tokens p)) }
    ensures refused { IfErr result (λ s. Denied s (IsTextRefused text.now s)) }
    // a refusal that stands in the text is the one that comes
    ensures stands { (s : AStatus) → IsTextRefused text.now s
        → MatchResult result (λ _. ⊥) (IsUnless s) }
{
    match model_of(alloc, text) {
        Ok(program) => Ok(program),
        Err(error) => Err(refusal_of(error)),
    }
}
