//! How long something takes.
use std::rt::Runtime;
use std::time::Instant;

/// A start; none where there is no clock. No clause can say what a clock shows.
#[derive(Drop)]
pub struct Clock {
    start: Option<Instant>,
}

impl Clock {
    /// Starts.
    pub fn start<R: Runtime>(rt: &R) -> Clock {
        Clock {
            start: Instant::now(rt).ok(),
        }
    }

    /// How many nanoseconds have passed; 0 where there is no clock.
    pub fn passed<R: Runtime>(&self, rt: &R) -> u128 {
        match &self.start {
            Some(start) => match start.elapsed(rt) {
                Ok(spent) => spent.as_nanos(),
                Err(_) => 0,
            },
            None => 0,
        }
    }
}
