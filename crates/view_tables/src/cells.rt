//! The cells of tables.
ghost use Rattle.std.specs.Prelude.{◌≡◌, ◌++◌, [], false, map, if◌then◌else◌, codes, IfOk, OnOk};
ghost use Rattle.serde_json.specs.View.{view};
ghost use Rattle.view_leaves.specs.Spelling.{path_text, value_text, word_text, is_fraction};
ghost use Rattle.view_leaves.specs.Views.{step_seen};
ghost use Rattle.view_tables.specs.Cells.{words_cell};

use serde_json::Value;
use std::alloc::{AllocError, Global};
use view_leaves::{Step, push_path, push_value, push_word};

/// How a path is spelled.
pub(crate) fn path_cell(alloc: Global, path: &[Step<'_>]) -> Result<Vec<u8>, AllocError>
    ensures { IfOk result (λ cell. cell.items ≡ path_text (map step_seen path.now)) }
{
    let mut cell = Vec::new(alloc);
    push_path(&mut cell, path)?;
    Ok(cell)
}

/// How a value is spelled. Where it is a number with a fraction, the contract says nothing.
pub(crate) fn value_cell(alloc: Global, value: &Value) -> Result<Vec<u8>, AllocError>
    ensures { IfOk result (λ cell. is_fraction (view value.now) ≡ false
        → cell.items ≡ value_text (view value.now)) }
{
    let mut cell = Vec::new(alloc);
    push_value(alloc, &mut cell, value)?;
    Ok(cell)
}

/// Writes a word, behind a space where it isn't the first.
fn push_part(cell: &mut Vec<u8>, later: bool, word: &str) -> Result<(), AllocError>
    ensures { OnOk result (cell.new.items ≡ cell.old.items ++ ((if later then codes " " else [])
        ++ word_text word.now)) }
{
    if later {
        cell.extend_from_slice(b" ")?;
    }
    push_word(cell, word)
}

/// Words, parted by spaces.
pub(crate) fn words_cell(alloc: Global, words: &[&str]) -> Result<Vec<u8>, AllocError>
    ensures { IfOk result (λ cell. cell.items ≡ words_cell false (map (λ w. w.now) words.now)) }
{
    let mut cell = Vec::new(alloc);
    let mut later = false;
    for word in words {
        push_part(&mut cell, later, word)?;
        later = true;
    }
    Ok(cell)
}
