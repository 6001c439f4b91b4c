//! Which hosts a service may have, by a label.
ghost use Rattle.std.specs.Prelude.{◌≡◌, ◌++◌, OnOk, map, codes};
ghost use Rattle.site_model.specs.Choices.{choice_seen, one_choice, choices, choice_fact, within, without};

use crate::lines::{push_all, values_word};
use site_names::word_of;
use site_tables::parts;
use std::alloc::{AllocError, Global};

/// Which label of a service's host is asked for, how, and what stands between two values.
#[derive(Clone, Copy)]
struct Choice<'c> {
    name: &'c [u8],
    column: &'c [u8],
    sign: &'c [u8],
    between: &'c [u8],
}

/// Writes what is asked of one value of a label.
fn push_one(
    alloc: Global,
    text: &mut Vec<u8>,
    how: &Choice<'_>,
    before: &[u8],
    value: &[u8],
) -> Result<(), AllocError>
    ensures { OnOk result (text.new.items
        ≡ text.old.items ++ one_choice (choice_seen how.now) before.now value.now) }
{
    let word = word_of(alloc, how.name)?;
    let attribute = word_of(alloc, how.column)?;
    let values = values_word(alloc, how.column)?;
    let value = word_of(alloc, value)?;
    push_all(
        text,
        &[
            before,
            word.as_slice(),
            b".host.".as_slice(),
            attribute.as_slice(),
            how.sign,
            values.as_slice(),
            b".".as_slice(),
            value.as_slice(),
        ],
    )
}

/// Writes what is asked of all values.
fn push_choices(
    alloc: Global,
    text: &mut Vec<u8>,
    how: &Choice<'_>,
    values: &[&[u8]],
) -> Result<(), AllocError>
    ensures { OnOk result (text.new.items ≡ text.old.items
        ++ choices (choice_seen how.now) (codes "where ") (map (λ v. v.now) values.now)) }
{
    let mut before = b"where ".as_slice();
    for value in values {
        push_one(alloc, text, how, before, value)?;
        before = how.between;
    }
    Ok(())
}

/// Writes what is asked of the label of a service's host, where something is.
fn push_choice(
    alloc: Global,
    text: &mut Vec<u8>,
    how: &Choice<'_>,
    asked: &[u8],
) -> Result<(), AllocError>
    ensures { OnOk result (text.new.items
        ≡ text.old.items ++ choice_fact (choice_seen how.now) asked.now) }
{
    if asked.is_empty() {
        return Ok(());
    }
    let values = parts(alloc, asked)?;
    push_choices(alloc, text, how, &values)?;
    push_all(text, &[b";  // ".as_slice(), how.name, b"\n".as_slice()])
}

/// Writes that the label of a service's host is one of these values.
pub(crate) fn push_within(
    alloc: Global,
    text: &mut Vec<u8>,
    name: &[u8],
    column: &[u8],
    asked: &[u8],
) -> Result<(), AllocError>
    ensures { OnOk result (text.new.items
        ≡ text.old.items ++ choice_fact (within name.now column.now) asked.now) }
{
    let how = Choice {
        name,
        column,
        sign: b" = ",
        between: b" or ",
    };
    push_choice(alloc, text, &how, asked)
}

/// Writes that the label of a service's host is none of these values.
pub(crate) fn push_without(
    alloc: Global,
    text: &mut Vec<u8>,
    name: &[u8],
    column: &[u8],
    asked: &[u8],
) -> Result<(), AllocError>
    ensures { OnOk result (text.new.items
        ≡ text.old.items ++ choice_fact (without name.now column.now) asked.now) }
{
    let how = Choice {
        name,
        column,
        sign: b" != ",
        between: b" and ",
    };
    push_choice(alloc, text, &how, asked)
}
