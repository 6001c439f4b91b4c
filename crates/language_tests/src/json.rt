//! Configurations as texts, and the values that former texts give, of the model that is given.
//! `text VALUE ..` asks for the text of a configuration, `hints FORMER` for the values that a
//! former text gives, `-` where it gives none, and behind a bar the path of the first leaf without
//! a value. `former TEXT` asks what a former text is refused for, `nested N` the same of one whose
//! one key holds so many arrays, one in the other.
ghost use Rattle.std.specs.Prelude.{◌≡◌};

use class_table::ClassTable;
use config_json::{config_text, hints_of, missing, read_config};
use object_alloc::{Config, Objects, allocate};
use std::alloc::{AllocError, Global};
use test_case_files::{Case, Subject, number_at, numbers_of, push_word, words_of};
use test_models::table_of;

/// What is asked of texts of configurations.
#[derive(Drop)]
pub(crate) struct Json;

/// The text of a configuration.
fn text_of(
    alloc: Global,
    table: &ClassTable,
    objects: &Objects<'_>,
    values: Vec<i64>,
) -> Result<String, AllocError>
    requires same { objects.now ≡ table.now }
{
    let bytes = config_text(alloc, table, objects, &Config::of(values))?;
    String::from_utf8_lossy(alloc, &bytes)
}

/// Values, as a text.
fn values_text(alloc: Global, values: &[Option<i64>]) -> Result<String, AllocError> {
    let mut text = String::new(alloc);
    for value in values {
        match value {
            Some(value) => push_word(&mut text, &format!(in alloc; "{value}")?)?,
            None => push_word(&mut text, "-")?,
        }
    }
    Ok(text)
}

/// The values that a former text gives, and the first leaf without one.
fn given_by(
    alloc: Global,
    table: &ClassTable,
    objects: &Objects<'_>,
    former: &[u8],
) -> Result<String, AllocError>
    requires same { objects.now ≡ table.now }
{
    let Ok(json) = read_config(alloc, former) else {
        return String::from_str(alloc, "refused");
    };
    let found = hints_of(alloc, &json, table, objects)?;
    let values = values_text(alloc, found.items())?;
    match missing(alloc, &json, table, objects)? {
        Some(path) => {
            let path = String::from_utf8_lossy(alloc, path.as_bytes())?;
            format!(in alloc; "{values} | {path}")
        }
        None => format!(in alloc; "{values} | whole"),
    }
}

/// What a former text is refused for.
fn refusal(alloc: Global, bytes: &[u8]) -> Result<String, AllocError> {
    match read_config(alloc, bytes) {
        Ok(_) => String::from_str(alloc, "none"),
        Err(fault) => format!(in alloc; "{fault:?}"),
    }
}

/// A text whose one key holds so many arrays, one in the other.
fn nested(alloc: Global, count: u32) -> Result<String, AllocError> {
    let mut text = String::from_str(alloc, "{\"a\":")?;
    for _open in 0..count {
        text.push_str("[")?;
    }
    for _close in 0..count {
        text.push_str("]")?;
    }
    text.push_str("}")?;
    Ok(text)
}

/// What is asked of the model that is given.
fn told_of_given(alloc: Global, case: &Case<'_>) -> Result<String, AllocError> {
    let Some(table) = table_of(alloc, &case.given) else {
        return String::from_str(alloc, "no table");
    };
    let Ok(objects) = allocate(alloc, &table) else {
        return String::from_str(alloc, "no objects");
    };
    match case.ask {
        "text" => text_of(alloc, &table, &objects, numbers_of(alloc, &case.text)?),
        _ => given_by(alloc, &table, &objects, &case.text),
    }
}

impl Subject for Json {
    fn answer(&mut self, alloc: Global, case: &Case<'_>) -> Result<String, AllocError> {
        match case.ask {
            "former" => refusal(alloc, &case.text),
            "nested" => {
                let text = nested(alloc, number_at(&words_of(alloc, &case.text)?, 0))?;
                refusal(alloc, text.as_bytes())
            }
            _ => told_of_given(alloc, case),
        }
    }
}
