//! How a run ends.
ghost use Rattle.std.specs.Prelude.{◌≡◌};
ghost use Rattle.view_run.specs.Status.{number_of, line_of};
ghost use Rattle.view_run.specs.declared.status.Status.TheVariants.{Memory};

use std::alloc::AllocError;

/// Which of the files.
#[derive(Clone, Copy, Debug, PartialEq, Eq)]
pub enum Source {
    /// The former configuration's.
    Former,
    /// The new one's.
    New,
    /// That of which a picture is asked.
    Config,
}

/// How a run ends.
#[derive(Clone, Copy, Debug, PartialEq, Eq)]
pub enum Status {
    /// Nothing differs.
    Same,
    /// Something differs.
    Differs,
    /// A picture was printed, or an order of all moves.
    Shown,
    /// An order was printed, and moves of which none fits, nor may go to the stop.
    Stuck,
    /// The words are no request.
    Usage,
    /// A file can't be read.
    Unreadable(Source),
    /// A file is longer than 16 MiB.
    TooLong(Source),
    /// A file is no JSON.
    NotJson(Source),
    /// A file is JSON, but no object.
    NotObject(Source),
    /// No part has such an attribute.
    NoAttribute,
    /// What is said to have failed isn't there.
    NoPart,
    /// What is named as a stop is no object.
    NoStop,
    /// A set is among what moves.
    MovesSets,
    /// The answer couldn't be written.
    WriteFault,
    /// There was no memory.
    Memory,
}

impl From<AllocError> for Status {
    ghost from_gives = { λ _ s. s ≡ Memory };

    fn from(_: AllocError) -> Self {
        Status::Memory
    }
}

impl Status {
    /// The exit status of the program.
    pub fn number(&self) -> u8
        ensures { result ≡ number_of self.now }
    {
        match self {
            Status::Same | Status::Shown => 0,
            Status::Differs => 1,
            Status::Usage => 2,
            Status::Unreadable(_) => 3,
            Status::TooLong(_) => 4,
            Status::NotJson(_) | Status::NotObject(_) => 5,
            Status::NoAttribute | Status::NoPart | Status::NoStop | Status::MovesSets => 6,
            Status::WriteFault => 7,
            Status::Memory => 8,
            Status::Stuck => 9,
        }
    }

    /// The line that says so on standard error, without its end; nothing where the run was
    /// answered.
    pub fn line(&self) -> &'static str
        ensures { result.now ≡ line_of self.now }
    {
        match self {
            Status::Same | Status::Differs | Status::Shown => "",
            Status::Stuck => "stuck",
            Status::Usage => "usage: confsolve-view plan|picture|steps|breaks|page FILE ..",
            Status::Unreadable(Source::Former) => "former unreadable",
            Status::Unreadable(Source::New) => "new unreadable",
            Status::Unreadable(Source::Config) => "configuration unreadable",
            Status::TooLong(Source::Former) => "former longer than 16 MiB",
            Status::TooLong(Source::New) => "new longer than 16 MiB",
            Status::TooLong(Source::Config) => "configuration longer than 16 MiB",
            Status::NotJson(Source::Former) => "former not JSON",
            Status::NotJson(Source::New) => "new not JSON",
            Status::NotJson(Source::Config) => "configuration not JSON",
            Status::NotObject(Source::Former) => "former not an object",
            Status::NotObject(Source::New) => "new not an object",
            Status::NotObject(Source::Config) => "configuration not an object",
            Status::NoAttribute => "no such attribute",
            Status::NoPart => "failed part not in the configuration",
            Status::NoStop => "stop not an object of the configuration",
            Status::MovesSets => "a set among the moves",
            Status::WriteFault => "output not written",
            Status::Memory => "no memory",
        }
    }
}
