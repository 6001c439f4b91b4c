//! How a run ends.
ghost use Rattle.std.specs.Prelude.{◌≡◌, ◌++◌, IfOk, codes, string_bytes};
ghost use Rattle.run_status.specs.Status.{line_text};
ghost use Rattle.site_run.specs.Status.{file_text, unread_number, refusal_number, number_of, table_text, place_text, kind_text, other_text, fault_text, unplaced_text, unread_line, refusal_line, line_of};

use site_drafts::{FileName, Refusal};
use site_tables::{Fault, FaultKind, Place, TableName};
use std::alloc::{AllocError, Global};

/// What may be asked of the program.
const USAGE: &str = "usage: confsolve-site model|former|table HOSTS SERVICES ..";

/// Why a file wasn't read.
#[derive(Clone, Copy, Debug, PartialEq, Eq)]
pub enum Unread {
    /// It can't be read.
    Unreadable(FileName),
    /// It is longer than 16 MiB.
    TooLong(FileName),
    /// There was no memory.
    Memory,
}

/// How a run ends.
#[derive(Debug, Drop)]
pub enum Status {
    /// What was asked for was printed.
    Done,
    /// The words are no request.
    Usage,
    /// A file wasn't read.
    Unread(Unread),
    /// The files give nothing to print.
    Refused(Refusal),
    /// The text couldn't be written.
    WriteFault,
    /// There was no memory.
    Memory,
}

impl From<AllocError> for Status {
    ghost use Rattle.site_run.specs.declared.status.Status.TheVariants.{Memory};

    ghost from_gives = { λ _ s. s ≡ Memory };

    fn from(_: AllocError) -> Self {
        Status::Memory
    }
}

/// The name of a file.
fn file_name(file: FileName) -> &'static str
    ensures { result.now ≡ file_text file }
{
    match file {
        FileName::Hosts => "hosts",
        FileName::Services => "services",
        FileName::Today => "today",
        FileName::Answer => "answer",
        FileName::Extra => "extra",
        FileName::Former => "former",
    }
}

/// The name of a table.
fn table_name(table: TableName) -> &'static str
    ensures { result.now ≡ table_text table }
{
    match table {
        TableName::Hosts => "hosts",
        TableName::Services => "services",
        TableName::Today => "today",
    }
}

/// A place in words, with rows and columns counted from 1.
fn place_line(alloc: Global, place: Place) -> Result<String, AllocError>
    ensures { IfOk result (λ text. string_bytes text ≡ place_text place) }
{
    let table = table_name(place.table);
    let row = place.row.saturating_add(1);
    let column = place.column.saturating_add(1);
    format!(in alloc; "{table} row {row} column {column}")
}

/// What is wrong at a place, in words, but for names that meet.
fn kind_name(kind: FaultKind) -> &'static str
    ensures { result.now ≡ kind_text kind }
{
    match kind {
        FaultKind::NoRow => "no row",
        FaultKind::NoSuchColumn => "no such column",
        FaultKind::CellCount => "more or fewer cells than the header",
        FaultKind::NotAName => "not a name",
        FaultKind::NotANumber => "not a number of one to nine digits",
        FaultKind::NoSuchHost => "no such host",
        FaultKind::NoSuchService => "no such service",
        FaultKind::NoSuchValue => "a value that no host has",
        FaultKind::TooManyRows => "more than 10,000 rows",
        FaultKind::ValuesMeet => "two values become the same word",
        FaultKind::Meets(_) => "becomes the same word as ",
    }
}

/// The other place that a fault names, in words.
fn other_line(alloc: Global, kind: FaultKind) -> Result<String, AllocError>
    ensures { IfOk result (λ text. string_bytes text ≡ other_text kind) }
{
    match kind {
        FaultKind::Meets(other) => place_line(alloc, other),
        FaultKind::NoRow
        | FaultKind::NoSuchColumn
        | FaultKind::CellCount
        | FaultKind::NotAName
        | FaultKind::NotANumber
        | FaultKind::NoSuchHost
        | FaultKind::NoSuchService
        | FaultKind::NoSuchValue
        | FaultKind::TooManyRows
        | FaultKind::ValuesMeet => String::from_str(alloc, ""),
    }
}

/// The line of a fault.
fn fault_line(alloc: Global, fault: Fault) -> Result<Vec<u8>, AllocError>
    ensures { IfOk result (λ text. text.items ≡ fault_text fault) }
{
    let place = place_line(alloc, fault.place)?;
    let kind = kind_name(fault.kind);
    let other = other_line(alloc, fault.kind)?;
    Ok(format!(in alloc; "{place}: {kind}{other}")?.into_bytes())
}

/// A word and what is said of it.
fn two(alloc: Global, first: &str, second: &str) -> Result<Vec<u8>, AllocError>
    ensures { IfOk result (λ text. text.items ≡ first.now ++ second.now) }
{
    let mut text = first.as_bytes().to_vec(alloc)?;
    text.extend_from_slice(second.as_bytes())?;
    Ok(text)
}

/// The line of a model that is refused.
fn refused_line(alloc: Global, status: &run_status::Status) -> Result<Vec<u8>, AllocError>
    ensures { IfOk result (λ text. text.items ≡ codes "model refused: " ++ line_text status.now) }
{
    let line = run_status::line_of(alloc, status)?;
    let mut text = b"model refused: ".as_slice().to_vec(alloc)?;
    text.extend_from_slice(&line)?;
    Ok(text)
}

/// The line of a service that an answer has on no host.
fn unplaced_line(alloc: Global, place: Place) -> Result<Vec<u8>, AllocError>
    ensures { IfOk result (λ text. text.items ≡ unplaced_text place) }
{
    let place = place_line(alloc, place)?;
    Ok(format!(in alloc; "{place}: no host in the answer")?.into_bytes())
}

impl Unread {
    /// The exit status of the program.
    fn number(&self) -> u8
        ensures { result ≡ unread_number self.now }
    {
        match self {
            Unread::Unreadable(_) => 3,
            Unread::TooLong(_) => 4,
            Unread::Memory => 9,
        }
    }

    /// The line that says so.
    fn line(&self, alloc: Global) -> Result<Vec<u8>, AllocError>
        ensures { IfOk result (λ text. text.items ≡ unread_line self.now) }
    {
        match self {
            Unread::Unreadable(file) => two(alloc, file_name(*file), " unreadable"),
            Unread::TooLong(file) => two(alloc, file_name(*file), " longer than 16 MiB"),
            Unread::Memory => two(alloc, "no memory", ""),
        }
    }
}

/// The exit status of a refusal.
fn refusal_number(refusal: &Refusal) -> u8
    ensures { result ≡ refusal_number refusal.now }
{
    match refusal {
        Refusal::NotText(_) | Refusal::NotJson(_) | Refusal::NotObject(_) => 5,
        Refusal::Faulty(_) | Refusal::NoResource | Refusal::Unplaced(_) => 6,
        Refusal::LongModel | Refusal::Refused(_) => 7,
        Refusal::Memory => 9,
    }
}

/// The line of a refusal.
fn refusal_line(alloc: Global, refusal: &Refusal) -> Result<Vec<u8>, AllocError>
    ensures { IfOk result (λ text. text.items ≡ refusal_line refusal.now) }
{
    match refusal {
        Refusal::NotText(table) => two(alloc, table_name(*table), " not UTF-8"),
        Refusal::Faulty(fault) => fault_line(alloc, *fault),
        Refusal::NoResource => two(alloc, "no such resource", ""),
        Refusal::LongModel => two(alloc, "model longer than 1 MiB", ""),
        Refusal::Refused(status) => refused_line(alloc, status),
        Refusal::NotJson(file) => two(alloc, file_name(*file), " not JSON"),
        Refusal::NotObject(file) => two(alloc, file_name(*file), " not an object"),
        Refusal::Unplaced(place) => unplaced_line(alloc, *place),
        Refusal::Memory => two(alloc, "no memory", ""),
    }
}

impl Status {
    /// The exit status of the program.
    pub fn number(&self) -> u8
        ensures { result ≡ number_of self.now }
    {
        match self {
            Status::Done => 0,
            Status::Usage => 2,
            Status::Unread(unread) => unread.number(),
            Status::Refused(refusal) => refusal_number(refusal),
            Status::WriteFault => 8,
            Status::Memory => 9,
        }
    }

    /// The line that says so on standard error, without its end; nothing where what was asked for
    /// was printed.
    pub fn line(&self, alloc: Global) -> Result<Vec<u8>, AllocError>
        ensures { IfOk result (λ text. text.items ≡ line_of self.now) }
    {
        match self {
            Status::Done => Ok(Vec::new(alloc)),
            Status::Usage => two(alloc, USAGE, ""),
            Status::Unread(unread) => unread.line(alloc),
            Status::Refused(refusal) => refusal_line(alloc, refusal),
            Status::WriteFault => two(alloc, "output not written", ""),
            Status::Memory => two(alloc, "no memory", ""),
        }
    }
}
