//! Paths, from objects and back to them. `back COUNT` asks how many of the first objects the path
//! of leads back to them, and `path PATH` for the object of a path and its own path.
use object_alloc::{Objects, allocate};
use std::alloc::{AllocError, Global};
use test_case_files::{Case, Subject, number_at, words_of};
use test_models::table_of;

/// What is asked of paths.
#[derive(Drop)]
pub(crate) struct Paths;

/// The path of an object; None where there is no such object.
pub(crate) fn path_of(
    alloc: Global,
    objects: &Objects<'_>,
    object: u32,
) -> Result<Option<Vec<u8>>, AllocError> {
    if object >= objects.count() {
        return Ok(None);
    }
    let path = objects.path_of(alloc, object)?;
    Ok(Some(path.as_bytes().to_vec(alloc)?))
}

/// Whether the path of an object leads back to it.
fn comes_back(alloc: Global, objects: &Objects<'_>, object: u32) -> Result<bool, AllocError> {
    Ok(match path_of(alloc, objects, object)? {
        Some(path) => objects.object_at(&path) == Some(object),
        None => false,
    })
}

/// How many objects there are, and of how many of the first ones the path leads back to them.
fn back(alloc: Global, objects: &Objects<'_>, count: u32) -> Result<String, AllocError> {
    let mut right = 0_u64;
    for object in 0..count {
        if comes_back(alloc, objects, object)? {
            right = right.saturating_add(1);
        }
    }
    let all = objects.count();
    format!(in alloc; "{right} of {all}")
}

/// The object of a path, and its path.
fn found(alloc: Global, objects: &Objects<'_>, path: &[u8]) -> Result<String, AllocError> {
    let Some(object) = objects.object_at(path) else {
        return String::from_str(alloc, "none");
    };
    match path_of(alloc, objects, object)? {
        Some(path) => {
            let path = String::from_utf8_lossy(alloc, &path)?;
            format!(in alloc; "{object} {path}")
        }
        None => String::from_str(alloc, "no object"),
    }
}

impl Subject for Paths {
    fn answer(&mut self, alloc: Global, case: &Case<'_>) -> Result<String, AllocError> {
        let Some(table) = table_of(alloc, &case.given) else {
            return String::from_str(alloc, "no table");
        };
        let Ok(objects) = allocate(alloc, &table) else {
            return String::from_str(alloc, "no objects");
        };
        match case.ask {
            "path" => found(alloc, &objects, &case.text),
            _ => back(alloc, &objects, number_at(&words_of(alloc, &case.text)?, 0)),
        }
    }
}
