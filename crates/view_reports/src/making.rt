//! From the bytes of two files to the text.
ghost use Rattle.std.specs.Prelude.{◌≡◌, ◌≤◌, length, IfOk, IfErr};
ghost use Rattle.model_limits.specs.Limits.{model_bytes};
ghost use Rattle.view_reports.specs.Ending.{first_source, limit_of};
ghost use Rattle.view_reports.specs.Made.{is_some_count, IsBroken, IsUnbroken, IsPaged, IsUnpaged, IsMade, IsUnmade};
ghost use Rattle.view_reports.specs.Words.{page_seen, request_seen, wish_of};

use crate::request::{PageRequest, Request, sizes_of};
use crate::source::Both;
use crate::status::{Source, Status};
use std::alloc::Global;
use view_breaks::broken;
use view_leaves::{TextError, read_text};
use view_page::{PageError, Wish, page_of};

/// What is printed.
#[derive(Drop)]
pub(crate) struct Answer {
    /// The text.
    pub text: Vec<u8>,
    /// Whether something is broken.
    pub found: bool,
}

/// Whether something was counted.
fn is_some_count(count: usize) -> bool
    ensures { result ≡ is_some_count count }
{
    match count {
        0 => false,
        _ => true,
    }
}

/// What a configuration breaks of a model.
fn breaks_made(alloc: Global, model: &[u8], config: &[u8]) -> Result<Answer, Status>
    requires short { length model.now ≤ model_bytes }
    ensures made { IfOk result (λ answer. IsBroken model.now config.now answer.text.items
        answer.found) }
    ensures refused { IfErr result (IsUnbroken model.now config.now) }
{
    match broken(alloc, model, config) {
        Ok(told) => Ok(Answer {
            text: told.text,
            found: is_some_count(told.count),
        }),
        Err(run_status::Status::Memory) => Err(Status::Memory),
        Err(status) => Err(Status::Refused(status)),
    }
}

/// The page of a session.
fn page_made(
    alloc: Global,
    former: &[u8],
    answers: &[u8],
    request: PageRequest<'_>,
) -> Result<Answer, Status>
    ensures made { IfOk result (λ answer. IsPaged (wish_of (page_seen request.entry)) former.now
        answers.now answer.text.items answer.found) }
    ensures refused { IfErr result (IsUnpaged (wish_of (page_seen request.entry)) former.now
        answers.now) }
{
    let value = match read_text(alloc, former) {
        Ok(value) => value,
        Err(TextError::NotJson) => return Err(Status::NotJson(Source::Former)),
        Err(TextError::NotObject) => return Err(Status::NotObject(Source::Former)),
        Err(TextError::Memory) => return Err(Status::Memory),
    };
    let sizes = sizes_of(alloc, request.sizes)?;
    let wish = Wish {
        attribute: request.attribute,
        sizes: &sizes,
    };
    match page_of(alloc, &value, answers, wish) {
        Ok(text) => Ok(Answer { text, found: false }),
        Err(PageError::NotJson) => Err(Status::NotJson(Source::Answers)),
        Err(PageError::NoAttribute) => Err(Status::NoAttribute),
        Err(PageError::Memory) => Err(Status::Memory),
    }
}

/// What the bytes of both files give.
pub(crate) fn made_of(alloc: Global, both: &Both, request: Request<'_>) -> Result<Answer, Status>
    requires short { length both.now.one.items ≤ limit_of (first_source (request_seen request)) }
    ensures made { IfOk result (λ answer. IsMade (request_seen request.entry) both.now.one.items
        both.now.two.items answer.text.items answer.found) }
    ensures refused { IfErr result (IsUnmade (request_seen request.entry) both.now.one.items
        both.now.two.items) }
{
    match request {
        Request::Breaks(_) => breaks_made(alloc, &both.one, &both.two),
        Request::Page(page) => page_made(alloc, &both.one, &both.two, page),
    }
}
