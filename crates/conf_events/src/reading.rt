//! The events of a text.
ghost use Rattle.std.specs.Prelude.{ℕ, ◌≡◌, ◌≢◌, ◌+◌, ◌<◌, ◌≤◌, [], ◌∷◌, ◌++◌, length};
ghost use Rattle.std.specs.Prelude.{None, Some, IsSome, IfOk, IfErr, OnOk, IfSome, IfNone};
ghost use Rattle.std.specs.List.{All};
ghost use Rattle.object_alloc.specs.Paths.{object_named};
ghost use Rattle.command_limits.specs.Limits.{most_events, events_bytes};
ghost use Rattle.conf_events.specs.Texts.{bad_line, events_of, IsEventsError};
ghost use Rattle.conf_events.specs.Texts.{ended, unended, event_at, event_of, bad_from};
ghost use Rattle.conf_events.specs.declared.event.EventsError.TheVariants.{BadLine};

use crate::event::{Event, Events, EventsError};
use command_limits::MOST_EVENTS;
use conf_syntax::PathText;
use object_alloc::Objects;
use std::alloc::{AllocError, Global};

/// The events of a text: each line is `fail PATH` or `repair PATH`, with one space and the path of
/// an object, and is ended by a line feed; there are at most 100.
///
/// # Errors
///
/// `BadLine` exactly where some line isn't so, with the number of the first such one. `Memory`.
pub fn read_events(
    alloc: Global,
    bytes: &[u8],
    objects: &Objects<'_>,
) -> Result<Events, EventsError>
    requires short { length bytes.now ≤ events_bytes }
    ensures events { IfOk result (λ es. es ≡ events_of objects.now bytes.now) }
    ensures good { OnOk result (bad_line objects.now bytes.now ≡ None) }
    ensures few { IfOk result (λ es. length es ≤ most_events) }
    ensures named { IfOk result (λ es. All (λ e. IsSome (object_named objects.now e.path)) es) }
    ensures refused { IfErr result (IsEventsError objects.now bytes.now) }
{
    let mut events = Vec::new(alloc);
    let mut rest = bytes;
    while !rest.is_empty() {
        let (event, behind) = next_event(alloc, events.len() as u32 + 1, rest, objects)?;
        push_event(&mut events, event)?;
        rest = behind;
    }
    Ok(Events::of(events))
}

/// Adds an event.
fn push_event(events: &mut Vec<Event>, event: Event) -> Result<(), AllocError>
    ensures events { OnOk result (events.new.items ≡ events.old.items ++ event ∷ []) }
{
    events.push(event)?;
    Ok(())
}

/// The event of the first line of what is left of a text, and what stands behind that line.
fn next_event<'a>(
    alloc: Global,
    number: u32,
    rest: &'a [u8],
    objects: &Objects<'_>,
) -> Result<(Event, &'a [u8]), EventsError>
    requires some { rest.now ≢ [] }
    ensures event { IfOk result (λ x. events_of objects.now rest.now
        ≡ x.0 ∷ events_of objects.now x.1.now) }
    ensures good { IfOk result (λ x.
        bad_from objects.now number (ended [] rest.now) (unended [] rest.now)
        ≡ bad_from objects.now (number + 1) (ended [] x.1.now) (unended [] x.1.now)) }
    ensures few { OnOk result (number ≤ most_events) }
    ensures named { IfOk result (λ x. IsSome (object_named objects.now x.0.path)) }
    ensures shorter { IfOk result (λ x. length x.1.now < length rest.now) }
    ensures refused { IfErr result (λ e. (n : ℕ) → e ≡ BadLine n
        → bad_from objects.now number (ended [] rest.now) (unended [] rest.now) ≡ Some n) }
{
    let Some((line, behind)) = first_line(rest) else {
        return Err(EventsError::BadLine(number));
    };
    if number > MOST_EVENTS {
        return Err(EventsError::BadLine(number));
    }
    let Some(event) = event_of(alloc, line, objects)? else {
        return Err(EventsError::BadLine(number));
    };
    Ok((event, behind))
}

/// The first line of a text that a line feed ends, without it, and what stands behind it.
fn first_line(bytes: &[u8]) -> Option<(&[u8], &[u8])>
    ensures ended { IfSome result (λ x. ended [] bytes.now ≡ x.0.now ∷ ended [] x.1.now) }
    ensures unended { IfSome result (λ x. unended [] bytes.now ≡ unended [] x.1.now) }
    ensures shorter { IfSome result (λ x. length x.1.now < length bytes.now) }
    ensures none { IfNone result (ended [] bytes.now ≡ []) }
    ensures all { IfNone result (unended [] bytes.now ≡ bytes.now) }
{
    for i in 0..bytes.len() {
        if bytes[i] == b'\n' {
            return Some((&bytes[..i], &bytes[i + 1..]));
        }
    }
    None
}

/// The event that a line is.
fn event_of(alloc: Global, line: &[u8], objects: &Objects<'_>) -> Result<Option<Event>, AllocError>
    ensures event { IfOk result (λ e. e ≡ event_of objects.now line.now) }
    ensures named { IfOk result (λ r. IfSome r (λ e. IsSome (object_named objects.now e.path))) }
{
    if line.starts_with(b"fail ") {
        event_at(alloc, true, &line[5..], objects)
    } else if line.starts_with(b"repair ") {
        event_at(alloc, false, &line[7..], objects)
    } else {
        Ok(None)
    }
}

/// The event that something fails, or is repaired, where this is the path of an object.
fn event_at(
    alloc: Global,
    fails: bool,
    path: &[u8],
    objects: &Objects<'_>,
) -> Result<Option<Event>, AllocError>
    ensures event { IfOk result (λ e. e ≡ event_at objects.now fails path.now) }
    ensures named { IfOk result (λ r. IfSome r (λ e. IsSome (object_named objects.now e.path))) }
{
    if objects.object_at(path).is_none() {
        return Ok(None);
    }
    let path = PathText::of(alloc, path)?;
    Ok(Some(Event { fails, path }))
}
