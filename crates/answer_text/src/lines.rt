//! Single lines: an objective, a number with its name, that so many decisions didn't do.
ghost use Rattle.std.specs.Prelude.{◌≡◌, ◌++◌, OnOk};
ghost use Rattle.std.specs.List.{flat_map};
ghost use Rattle.answer_text.specs.Texts.{objective_line, number_line, undecided_line};

use std::alloc::{AllocError, Global};

/// Adds the line of an objective.
fn push_objective(alloc: Global, text: &mut Vec<u8>, value: i64) -> Result<(), AllocError>
    ensures text { OnOk result (text.new.items ≡ text.old.items ++ objective_line value) }
{
    let line = format!(in alloc; "objective {value}\n")?;
    text.extend_from_slice(line.as_bytes())
}

/// Adds a line for each objective.
pub(crate) fn push_objectives(
    alloc: Global,
    text: &mut Vec<u8>,
    values: &[i64],
) -> Result<(), AllocError>
    ensures text { OnOk result (text.new.items
        ≡ text.old.items ++ flat_map objective_line values.now) }
{
    for value in values {
        push_objective(alloc, text, *value)?;
    }
    Ok(())
}

/// Adds that so many decisions didn't do.
pub fn push_undecided(alloc: Global, text: &mut Vec<u8>, decisions: u32) -> Result<(), AllocError>
    ensures text { OnOk result (text.new.items ≡ text.old.items ++ undecided_line decisions) }
{
    let line = format!(in alloc; "undecided after {decisions} decisions\n")?;
    text.extend_from_slice(line.as_bytes())
}

/// Adds a number with its name.
pub fn push_number(
    alloc: Global,
    text: &mut Vec<u8>,
    name: &str,
    number: usize,
) -> Result<(), AllocError>
    ensures text { OnOk result (text.new.items ≡ text.old.items ++ number_line name.now number) }
{
    let line = format!(in alloc; "{name}{number}\n")?;
    text.extend_from_slice(line.as_bytes())
}
