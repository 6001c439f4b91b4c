//! Objects, cells and extents of models, and the limits on them. `fault MODEL` asks what a model is
//! refused for; `nested N` and `doubled N` the same of classes that contain one another; the others
//! ask about the model that is given: `objects` and `cells` how many there are, `object N` for the
//! class, the number of attributes and the path, `inside A B` whether an object is inside another
//! one, `shape OWNER K` and `element OWNER K N` for an attribute and an element of it, where the
//! owner is an object or `top`, `extent CLASS` for its objects, and `cell N`.
ghost use Rattle.std.specs.Prelude.{◌≡◌};

use crate::paths::path_of;
use crate::trees::numbers_text;
use class_table::{ClassTable, Resolved};
use object_alloc::{Objects, allocate};
use std::alloc::{AllocError, Global};
use test_case_files::{Case, Subject, number_at, words_of};
use test_models::table_of;

/// What is asked of objects.
#[derive(Drop)]
pub(crate) struct ObjectsOfTexts;

/// What a model's text is refused for.
fn fault_of(alloc: Global, text: &[u8]) -> Result<String, AllocError> {
    let Some(table) = table_of(alloc, text) else {
        return String::from_str(alloc, "no table");
    };
    match allocate(alloc, &table) {
        Ok(_) => String::from_str(alloc, "none"),
        Err(fault) => format!(in alloc; "{fault:?}"),
    }
}

/// Classes K1 to Kn, each but the last with an attribute of the next one, or with two of them, and
/// an object of K1: n objects, or more than 2^(n-1).
fn contained(alloc: Global, n: u32, twice: bool) -> Result<String, AllocError> {
    let mut text = String::new(alloc);
    for k in 1..n {
        let next = k + 1;
        let class = if twice {
            format!(in alloc; "class K{k} {{ var a as K{next}; var b as K{next}; }} ")?
        } else {
            format!(in alloc; "class K{k} {{ var k as K{next}; }} ")?
        };
        text.push_str(&class)?;
    }
    text.push_str(&format!(in alloc; "class K{n} {{ }} var k as K1;")?)?;
    Ok(text)
}

/// Whether an object is inside another.
fn inside(
    alloc: Global,
    objects: &Objects<'_>,
    object: u32,
    whole: u32,
) -> Result<String, AllocError> {
    if object >= objects.count() {
        return String::from_str(alloc, "none");
    }
    let inside = objects.inside(object, whole);
    format!(in alloc; "{inside}")
}

/// The class of an object, how many attributes it has, and its path.
fn object(alloc: Global, objects: &Objects<'_>, object: u32) -> Result<String, AllocError> {
    let Some(path) = path_of(alloc, objects, object)? else {
        return String::from_str(alloc, "none");
    };
    let path = String::from_utf8_lossy(alloc, &path)?;
    let (class, count) = class_and_count(objects, object);
    format!(in alloc; "{class} {count} {path}")
}

/// The class of an object, and how many attributes it has; 0 of what is none.
fn class_and_count(objects: &Objects<'_>, object: u32) -> (u32, u32) {
    if object >= objects.count() {
        return (0, 0);
    }
    (objects.class(object), objects.shape_count(Some(object)))
}

/// The shape of an object's attribute, or of a top-level variable.
fn shape(objects: &Objects<'_>, owner: Option<u32>, k: u32) -> Option<Resolved> {
    if let Some(object) = owner {
        if object >= objects.count() {
            return None;
        }
    }
    if k >= objects.shape_count(owner) {
        return None;
    }
    Some(objects.shape(owner, k))
}

/// The object that is an element of an array; None where there is no such array or element.
fn element(objects: &Objects<'_>, owner: Option<u32>, k: u32, number: u32) -> Option<u32> {
    if let Some(object) = owner {
        if object >= objects.count() {
            return None;
        }
    }
    if k >= objects.shape_count(owner) {
        return None;
    }
    let Resolved::Many(_, count) = objects.shape(owner, k) else {
        return None;
    };
    if number >= count {
        return None;
    }
    Some(objects.part(owner, k, number))
}

/// The objects of a class.
fn extent(
    alloc: Global,
    table: &ClassTable,
    objects: &Objects<'_>,
    class: u32,
) -> Result<String, AllocError>
    requires { objects.now ≡ table.now }
{
    if class >= table.class_count() {
        return String::from_str(alloc, "no class");
    }
    numbers_text(alloc, objects.extent(alloc, class)?.items())
}

/// A cell: its owner, its attribute, its element and its domain.
fn cell(alloc: Global, objects: &Objects<'_>, number: u32) -> Result<String, AllocError> {
    match objects.cells().get(number as usize) {
        Some(cell) => {
            let (owner, attribute) = (cell.owner, cell.attribute);
            let (element, domain) = (cell.element, cell.domain);
            format!(in alloc; "{owner:?} {attribute} {element:?} {domain:?}")
        }
        None => String::from_str(alloc, "none"),
    }
}

/// The object of the first word; None where it is `top`.
fn owner_of(words: &[&str]) -> Option<u32> {
    match words.first() {
        Some(word) if *word == "top" => None,
        _ => Some(number_at(words, 0)),
    }
}

/// What is asked of objects and cells, by the first two words.
fn told(
    alloc: Global,
    objects: &Objects<'_>,
    ask: &str,
    first: u32,
    second: u32,
) -> Result<String, AllocError> {
    match ask {
        "objects" => {
            let count = objects.count();
            format!(in alloc; "{count}")
        }
        "cells" => {
            let count = objects.cells().len();
            format!(in alloc; "{count}")
        }
        "object" => object(alloc, objects, first),
        "inside" => inside(alloc, objects, first, second),
        _ => cell(alloc, objects, first),
    }
}

/// What is asked of the parts of objects, or else of objects and cells.
fn told_of_parts(
    alloc: Global,
    objects: &Objects<'_>,
    ask: &str,
    words: &[&str],
) -> Result<String, AllocError> {
    let second = number_at(words, 1);
    match ask {
        "shape" => {
            let shape = shape(objects, owner_of(words), second);
            format!(in alloc; "{shape:?}")
        }
        "element" => {
            let part = element(objects, owner_of(words), second, number_at(words, 2));
            format!(in alloc; "{part:?}")
        }
        _ => told(alloc, objects, ask, number_at(words, 0), second),
    }
}

/// What is asked of the objects of the model that is given.
fn told_of_given(
    alloc: Global,
    given: &[u8],
    ask: &str,
    words: &[&str],
) -> Result<String, AllocError> {
    let Some(table) = table_of(alloc, given) else {
        return String::from_str(alloc, "no table");
    };
    let Ok(objects) = allocate(alloc, &table) else {
        return String::from_str(alloc, "no objects");
    };
    match ask {
        "extent" => extent(alloc, &table, &objects, number_at(words, 0)),
        _ => told_of_parts(alloc, &objects, ask, words),
    }
}

impl Subject for ObjectsOfTexts {
    fn answer(&mut self, alloc: Global, case: &Case<'_>) -> Result<String, AllocError> {
        let words = words_of(alloc, &case.text)?;
        match case.ask {
            "fault" => fault_of(alloc, &case.text),
            "nested" | "doubled" => {
                let twice = case.ask == "doubled";
                let text = contained(alloc, number_at(&words, 0), twice)?;
                fault_of(alloc, text.as_bytes())
            }
            _ => told_of_given(alloc, &case.given, case.ask, &words),
        }
    }
}
