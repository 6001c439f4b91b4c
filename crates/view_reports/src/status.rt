//! How a run ends.
ghost use Rattle.std.specs.Prelude.{◌≡◌, ◌++◌, IfOk};
ghost use Rattle.view_reports.specs.Status.{number_of, source_text, length_text, line_of};
ghost use Rattle.view_reports.specs.declared.status.Status.TheVariants.{Memory};

use std::alloc::{AllocError, Global};

/// What may be asked for.
const USAGE: &str =
    "usage: confsolve-view breaks MODEL CONFIG, page FORMER ANSWERS ATTRIBUTE [SIZE[=CAPACITY] ..]";

/// Which of the files.
#[derive(Clone, Copy, Debug, PartialEq, Eq)]
pub enum Source {
    /// The model's.
    Model,
    /// The configuration's.
    Config,
    /// The former configuration's.
    Former,
    /// That of what a session printed.
    Answers,
}

/// How a run ends.
#[derive(Debug, Drop)]
pub enum Status {
    /// Nothing is broken, or a page was printed.
    Whole,
    /// Something is broken.
    Broken,
    /// The words are no request.
    Usage,
    /// A file can't be read.
    Unreadable(Source),
    /// A file is longer than it may be.
    TooLong(Source),
    /// A file is no JSON, or a line of it that begins as an object is none.
    NotJson(Source),
    /// A file is JSON, but no object.
    NotObject(Source),
    /// A configuration has no such attribute.
    NoAttribute,
    /// The answer couldn't be written.
    WriteFault,
    /// There was no memory.
    Memory,
    /// The model is refused, or the configuration is none of the model.
    Refused(run_status::Status),
}

impl From<AllocError> for Status {
    ghost from_gives = { λ _ s. s ≡ Memory };

    fn from(_: AllocError) -> Self {
        Status::Memory
    }
}

/// The name of a file.
fn source_name(source: Source) -> &'static str
    ensures { result.now ≡ source_text source }
{
    match source {
        Source::Model => "model",
        Source::Config => "configuration",
        Source::Former => "former",
        Source::Answers => "answers",
    }
}

/// What a file may not be longer than, in words.
fn length_name(source: Source) -> &'static str
    ensures { result.now ≡ length_text source }
{
    match source {
        Source::Model => " longer than 1 MiB",
        Source::Config | Source::Former | Source::Answers => " longer than 16 MiB",
    }
}

/// A word and what is said of it.
fn two(alloc: Global, first: &str, second: &str) -> Result<Vec<u8>, AllocError>
    ensures { IfOk result (λ text. text.items ≡ first.now ++ second.now) }
{
    let mut text = first.as_bytes().to_vec(alloc)?;
    text.extend_from_slice(second.as_bytes())?;
    Ok(text)
}

impl Status {
    /// The exit status of the program.
    pub fn number(&self) -> u8
        ensures { result ≡ number_of self.now }
    {
        match self {
            Status::Whole => 0,
            Status::Broken => 1,
            Status::Usage => 2,
            Status::Unreadable(_) => 3,
            Status::TooLong(_) => 4,
            Status::NotJson(_) | Status::NotObject(_) => 5,
            Status::NoAttribute => 6,
            Status::WriteFault => 7,
            Status::Memory => 8,
            Status::Refused(_) => 10,
        }
    }

    /// The line that says so on standard error, without its end; nothing where the run was
    /// answered.
    pub fn line(&self, alloc: Global) -> Result<Vec<u8>, AllocError>
        ensures { IfOk result (λ text. text.items ≡ line_of self.now) }
    {
        match self {
            Status::Whole | Status::Broken => Ok(Vec::new(alloc)),
            Status::Usage => two(alloc, USAGE, ""),
            Status::Unreadable(source) => two(alloc, source_name(*source), " unreadable"),
            Status::TooLong(source) => two(alloc, source_name(*source), length_name(*source)),
            Status::NotJson(source) => two(alloc, source_name(*source), " not JSON"),
            Status::NotObject(source) => two(alloc, source_name(*source), " not an object"),
            Status::NoAttribute => two(alloc, "no such attribute", ""),
            Status::WriteFault => two(alloc, "output not written", ""),
            Status::Memory => two(alloc, "no memory", ""),
            Status::Refused(status) => run_status::line_of(alloc, status),
        }
    }
}
