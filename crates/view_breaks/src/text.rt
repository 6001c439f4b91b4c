//! A line for each break, and how many there are.
ghost use Rattle.std.specs.Prelude.{◌≡◌, ◌++◌, length, IfOk, OnOk};
ghost use Rattle.run_status.specs.Status.{broken_text};
ghost use Rattle.view_breaks.specs.Breaks.{AreThere, IsThere};
ghost use Rattle.view_breaks.specs.Lines.{line_number};
ghost use Rattle.view_breaks.specs.Text.{break_line, breaks_text, count_line, stated_path, where_text};

use crate::breaks::Break;
use crate::lines::{Spot, push_source, spot_of};
use conf_syntax::PathText;
use object_alloc::Objects;
use run_status::{Status, line_of};
use std::alloc::{AllocError, Global};

/// The path of the object for which a constraint is stated; empty at the top level.
fn stated_path(
    alloc: Global,
    objects: &Objects<'_>,
    object: Option<u32>,
) -> Result<PathText, AllocError>
    requires object { IsThere objects.now object }
    ensures path { IfOk result (λ path. path ≡ stated_path objects.now object) }
{
    match object {
        Some(object) => objects.path_of(alloc, object),
        None => PathText::of(alloc, b""),
    }
}

/// Adds what `verify` says of a break.
fn push_broken(
    alloc: Global,
    out: &mut Vec<u8>,
    objects: &Objects<'_>,
    found: Break,
) -> Result<(), AllocError>
    requires object { IsThere objects.now found.object }
    ensures { OnOk result (out.new.items ≡ out.old.items
        ++ broken_text (Some found.place) (stated_path objects.now found.object)) }
{
    let path = stated_path(alloc, objects, found.object)?;
    let status = Status::Broken {
        place: Some(found.place),
        path,
    };
    let line = line_of(alloc, &status)?;
    out.extend_from_slice(&line)
}

/// Adds where a place stands in the model's text.
fn push_where(alloc: Global, out: &mut Vec<u8>, text: &[u8], spot: Spot) -> Result<(), AllocError>
    requires line { spot.line ≡ line_number text.now spot.at }
    ensures { OnOk result (out.new.items ≡ out.old.items ++ where_text text.now spot.at) }
{
    let line = spot.line;
    let number = format!(in alloc; ", line {line}: ")?;
    out.extend_from_slice(number.as_bytes())?;
    push_source(out, text, spot.at)
}

/// Adds the line of a break, whose place stands there in the model's text.
fn push_break(
    alloc: Global,
    out: &mut Vec<u8>,
    text: &[u8],
    objects: &Objects<'_>,
    found: Break,
    spot: Spot,
) -> Result<(), AllocError>
    requires object { IsThere objects.now found.object }
    requires at { spot.at ≡ found.place }
    requires line { spot.line ≡ line_number text.now spot.at }
    ensures { OnOk result (out.new.items ≡ out.old.items ++ break_line text.now objects.now found) }
{
    push_broken(alloc, out, objects, found)?;
    push_where(alloc, out, text, spot)?;
    out.push(b'\n')?;
    Ok(())
}

/// Adds how many breaks there are.
fn push_count(alloc: Global, out: &mut Vec<u8>, count: usize) -> Result<(), AllocError>
    ensures { OnOk result (out.new.items ≡ out.old.items ++ count_line count) }
{
    let line = format!(in alloc; "{count} broken\n")?;
    out.extend_from_slice(line.as_bytes())
}

/// A line for each of these breaks of a model with this text, and how many there are.
///
/// # Errors
///
/// Where there is no memory left.
pub fn breaks_text(
    alloc: Global,
    text: &[u8],
    objects: &Objects<'_>,
    found: &[Break],
) -> Result<Vec<u8>, AllocError>
    requires there { AreThere objects.now found.now }
    ensures text { IfOk result (λ out. out.items ≡ breaks_text text.now objects.now found.now) }
{
    let mut out = Vec::new(alloc);
    let mut spot = Spot { at: 0, line: 1 };
    for broken in found {
        spot = spot_of(text, spot, broken.place);
        push_break(alloc, &mut out, text, objects, *broken, spot)?;
    }
    push_count(alloc, &mut out, found.len())?;
    Ok(out)
}
