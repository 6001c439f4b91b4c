//! The page of a session: for each answer what moved, and a picture beside it.
//!
//! - `page`: `page_of`, from a former configuration and the answers' text to a page.
//! - `entries`: the lines of the answers' text, and what each is.
//! - `sections`: what each line adds to the page.
//! - `head`: what stands before and behind them.
//!
//! What a line is read as stands in `specs/Entries`, what is on the page in `specs/Page`.
#![tactic(auto)]

mod entries;
mod head;
mod page;
mod sections;

pub use entries::{Entry, entries_of};
pub use page::{PageError, page_of};
pub use sections::Wish;
