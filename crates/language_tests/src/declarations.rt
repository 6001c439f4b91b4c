//! Tables of declarations: the faults of models, and what the accessors tell of a model without
//! one. `fault MODEL` asks for the fault; the others ask about the model that is given: `classes`,
//! `derives A B` whether a class is another one or derives from it, `parent A`, `attribute A K`
//! and `variable K` at the top level, by their numbers.
use class_table::{Attribute, ClassTable};
use std::alloc::{AllocError, Global};
use test_case_files::{Case, Subject, number_at, words_of};
use test_models::{model_of, table_of};

/// What is asked of a table.
#[derive(Drop)]
pub(crate) struct Declarations;

/// The fault of a model's declarations.
fn fault_of(alloc: Global, text: &[u8]) -> Result<String, AllocError> {
    let Some(program) = model_of(alloc, text) else {
        return String::from_str(alloc, "no model");
    };
    match ClassTable::build(alloc, &program) {
        Ok(_) => String::from_str(alloc, "none"),
        Err(fault) => format!(in alloc; "{fault:?}"),
    }
}

/// Whether one class is the other one or derives from it.
fn derives(alloc: Global, table: &ClassTable, a: u32, b: u32) -> Result<String, AllocError> {
    if a >= table.class_count() || b >= table.class_count() {
        return String::from_str(alloc, "no class");
    }
    let derives = table.is_a(a, b);
    format!(in alloc; "{derives}")
}

/// The class that a class extends.
fn parent(alloc: Global, table: &ClassTable, a: u32) -> Result<String, AllocError> {
    if a >= table.class_count() {
        return String::from_str(alloc, "no class");
    }
    match table.parent(a) {
        Some(parent) => format!(in alloc; "{parent}"),
        None => String::from_str(alloc, "none"),
    }
}

/// A name and a shape.
fn named_shape(alloc: Global, attribute: &Attribute<'_>) -> Result<String, AllocError> {
    let name = String::from_utf8_lossy(alloc, attribute.name.as_bytes())?;
    let shape = attribute.shape;
    format!(in alloc; "{name} {shape:?}")
}

/// The name and the shape of an attribute.
fn attribute(alloc: Global, table: &ClassTable, a: u32, k: u32) -> Result<String, AllocError> {
    if a >= table.class_count() || k >= table.attribute_count(a) {
        return String::from_str(alloc, "none");
    }
    named_shape(alloc, &table.attribute(a, k))
}

/// The name and the shape of a variable of the top level.
fn variable(alloc: Global, table: &ClassTable, k: u32) -> Result<String, AllocError> {
    if k >= table.root_count() {
        return String::from_str(alloc, "none");
    }
    named_shape(alloc, &table.root(k))
}

/// What is asked of the table of a model.
fn told(
    alloc: Global,
    table: &ClassTable,
    ask: &str,
    words: &[&str],
) -> Result<String, AllocError> {
    let first = number_at(words, 0);
    let second = number_at(words, 1);
    match ask {
        "classes" => {
            let count = table.class_count();
            format!(in alloc; "{count}")
        }
        "derives" => derives(alloc, table, first, second),
        "parent" => parent(alloc, table, first),
        "attribute" => attribute(alloc, table, first, second),
        _ => variable(alloc, table, first),
    }
}

impl Subject for Declarations {
    fn answer(&mut self, alloc: Global, case: &Case<'_>) -> Result<String, AllocError> {
        if case.ask == "fault" {
            return fault_of(alloc, &case.text);
        }
        match table_of(alloc, &case.given) {
            Some(table) => told(alloc, &table, case.ask, &words_of(alloc, &case.text)?),
            None => String::from_str(alloc, "no table"),
        }
    }
}
