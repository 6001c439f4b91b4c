//! Events: which objects fail, and which are repaired, one after the other.
//!
//! - `event`: an event, a list of them, and why a text isn't read as one.
//! - `reading`: the events of a text.
//!
//! What a text of events is stands in `specs/Texts`.
#![tactic(auto)]

mod event;
mod reading;

pub use event::{Event, Events, EventsError};
pub use reading::read_events;
