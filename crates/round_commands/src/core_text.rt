//! The text that tells what to blame.
ghost use Rattle.std.specs.Prelude.{◌≡◌, ◌++◌, ◌<◌, All, AllPairs, length, nat_eq, IfOk, OnOk};
ghost use Rattle.std.specs.List.{flat_map, list_any};
ghost use Rattle.conf_types.specs.Programs.{constraint_at};
ghost use Rattle.round_commands.specs.CoreLines.{HasLines};
ghost use Rattle.run_promise.specs.CoreTexts.{blamed_line, core_text, place_line};

use answer_text::{push_number, push_undecided};
use conf_core::CoreAnswer;
use conf_types::Constraint;
use std::alloc::{AllocError, Global};

/// Whether the number is one of these, which ascend.
fn is_among(numbers: &[u32], number: u32) -> bool
    requires ascend { AllPairs ◌<◌ numbers.now }
    ensures { result ≡ list_any (nat_eq number) numbers.now }
{
    numbers.binary_search(&number).is_ok()
}

/// The place of a constraint.
fn place_of(constraints: &[Constraint], index: u32) -> u32
    requires index { index < length constraints.now }
    ensures place { result ≡ (constraint_at constraints.now index).place }
{
    let constraint = &constraints[index as usize];
    constraint.place
}

/// Adds a constraint by its place.
fn push_place(alloc: Global, text: &mut Vec<u8>, place: u32, unsure: bool) -> Result<(), AllocError>
    ensures text { OnOk result (text.new.items ≡ text.old.items ++ place_line place unsure) }
{
    let mark = if unsure { " undecided" } else { "" };
    let line = format!(in alloc; "at {place}{mark}\n")?;
    text.extend_from_slice(line.as_bytes())
}

/// Adds each of these constraints by its place; `unsure` are those of which it wasn't decided.
fn push_places(
    alloc: Global,
    text: &mut Vec<u8>,
    constraints: &[Constraint],
    keep: &[u32],
    unsure: &[u32],
) -> Result<(), AllocError>
    requires exist { All (λ c. c < length constraints.now) keep.now }
    requires ascend { AllPairs ◌<◌ unsure.now }
    ensures text { OnOk result (text.new.items ≡ text.old.items
        ++ flat_map (blamed_line constraints.now unsure.now) keep.now) }
{
    for index in keep {
        let place = place_of(constraints, *index);
        push_place(alloc, text, place, is_among(unsure, *index))?;
    }
    Ok(())
}

/// The text of an answer, of these constraints and of searches within a budget of decisions.
pub(crate) fn core_text(
    alloc: Global,
    constraints: &[Constraint],
    budget: u32,
    answer: &CoreAnswer,
) -> Result<Vec<u8>, AllocError>
    requires lines { HasLines constraints.now answer.now }
    ensures text { IfOk result (λ text. text.items
        ≡ core_text constraints.now budget answer.now) }
{
    let mut text = Vec::new(alloc);
    match answer {
        CoreAnswer::Solvable => text.extend_from_slice(b"has a solution\n")?,
        CoreAnswer::Undecided => push_undecided(alloc, &mut text, budget)?,
        CoreAnswer::Core { keep, unsure } => {
            let keep = keep.items();
            push_number(alloc, &mut text, "core ", keep.len())?;
            push_places(alloc, &mut text, constraints, keep, unsure.items())?;
        }
    }
    Ok(text)
}
