//! Events, and why a text isn't read as a list of them.
use conf_syntax::PathText;
use std::alloc::AllocError;
use std::marker::Model;

/// Something happens to an object.
#[derive(Debug, Drop)]
pub struct Event {
    /// Whether it fails; else it is repaired.
    pub fails: bool,
    /// The path of the object.
    pub path: PathText,
}

/// Events, in order.
#[derive(Debug)]
pub struct Events {
    items: Vec<Event>,
}

impl Drop for Events {
    fn drop(self) {
        let Events { items: _ } = self;
    }
}

impl Model for Events {
    ghost use Rattle.std.specs.Prelude.{List};
    ghost use Rattle.conf_events.specs.declared.event.Event.{Event};

    ghost Value = { List Event };

    ghost view = { λ l. l.items.items };
}

impl Events {
    ghost use Rattle.std.specs.Prelude.{◌≡◌};

    /// These events.
    pub fn of(items: Vec<Event>) -> Self
        ensures items { result ≡ items.items }
    {
        Events { items }
    }

    /// They, in order.
    pub fn items(&self) -> &[Event]
        ensures items { result.now ≡ self.now }
    {
        self.items.as_slice()
    }
}

/// Why a text isn't read as events.
#[derive(Clone, Copy, Debug, PartialEq, Eq)]
pub enum EventsError {
    /// The line of this number, counted from 1, is the first that is no event of an object, isn't
    /// ended by a line feed, or is one too many.
    BadLine(u32),
    /// There was no memory.
    Memory,
}

impl From<AllocError> for EventsError {
    ghost use Rattle.std.specs.Prelude.{◌≡◌};
    ghost use Rattle.conf_events.specs.declared.event.EventsError.TheVariants.{Memory};

    ghost from_gives = { λ _ e. e ≡ Memory };

    fn from(_: AllocError) -> Self {
        EventsError::Memory
    }
}
