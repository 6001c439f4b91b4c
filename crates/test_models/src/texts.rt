//! Models that are given as texts.
ghost use Rattle.std.specs.Prelude.{◌≡◌, ◌≤◌, length, IfSome};
ghost use Rattle.model_limits.specs.Limits.{model_bytes, most_nesting};
ghost use Rattle.conf_syntax.specs.Trees.{nesting, program_tokens};
ghost use Rattle.conf_syntax.specs.Words.{AreWords};
ghost use Rattle.conf_types.specs.Typing.{IsTypedModel};

use class_table::ClassTable;
use conf_parse::{lex, parse};
use conf_syntax::Program;
use conf_types::{TypedModel, check};
use std::alloc::Global;

/// The table of a model and its resolved expressions.
#[derive(Drop)]
pub struct TypedText {
    pub table: ClassTable,
    pub model: TypedModel,
}

/// The tree of a text; None where the text is no model.
pub fn model_of(alloc: Global, text: &[u8]) -> Option<Program>
    ensures tokens { IfSome result (λ p. length (program_tokens p) ≤ model_bytes) }
    ensures nesting { IfSome result (λ p. nesting p ≤ most_nesting) }
    ensures words { IfSome result (λ p. AreWords (program_tokens p)) }
{
    if text.len() > 1_000_000 {
        return None;
    }
    let Ok(tokens) = lex(alloc, text) else {
        return None;
    };
    match parse(alloc, &tokens, text.len() as u32) {
        Ok(program) => Some(program),
        Err(_) => None,
    }
}

/// The table of a text; None where the text is no model, or its declarations have a fault.
pub fn table_of(alloc: Global, text: &[u8]) -> Option<ClassTable> {
    let program = model_of(alloc, text)?;
    match ClassTable::build(alloc, &program) {
        Ok(table) => Some(table),
        Err(_) => None,
    }
}

/// The typed model of a text; None where the text is no model or has a fault.
pub fn typed_of(alloc: Global, text: &[u8]) -> Option<TypedText>
    ensures typed { IfSome result (λ t. IsTypedModel t.table t.model.constraints t.model.goals) }
    ensures few { IfSome result (λ t. length t.model.constraints ≤ model_bytes) }
{
    let program = model_of(alloc, text)?;
    let Ok(table) = ClassTable::build(alloc, &program) else {
        return None;
    };
    match check(alloc, &program, &table) {
        Ok(model) => Some(TypedText { table, model }),
        Err(_) => None,
    }
}
