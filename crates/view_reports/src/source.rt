//! The bytes of the two files that are asked of.
ghost use Rattle.std.specs.Prelude.{◌≡◌, ◌≤◌, ℕ, List, length, IfOk, IfErr, IsTrue};
ghost use Rattle.desk_io.specs.Desk.{OfFile};
ghost use Rattle.view_reports.specs.Ending.{IsNoFile, IsUnread, first_name, second_name, first_source, second_source, limit_of};
ghost use Rattle.view_reports.specs.Words.{request_seen};

use crate::request::Request;
use crate::status::{Source, Status};
use desk_io::{Desk, ReadError, read_all};
use model_limits::{CONFIG_BYTES, MODEL_BYTES};
use std::alloc::Global;

/// How many bytes a file may have.
fn limit_of(source: Source) -> u64
    ensures { result ≡ limit_of source }
{
    match source {
        Source::Model => MODEL_BYTES,
        Source::Config | Source::Former | Source::Answers => CONFIG_BYTES,
    }
}

/// The bytes of a file.
fn source_bytes<D: Desk>(
    alloc: Global,
    desk: &mut D,
    name: &str,
    source: Source,
) -> Result<Vec<u8>, Status>
    requires may_read { IsTrue (D.may_read desk.old name.now) }
    ensures bytes { IfOk result (λ bytes. OfFile (D.files desk.old) name.now
        (λ read. read ≡ bytes.items)) }
    ensures short { IfOk result (λ bytes. length bytes.items ≤ limit_of source) }
    ensures refused { IfErr result (IsNoFile (D.files desk.old) name.now source
        (D.read_faults desk.old) (D.read_faults desk.new)) }
    ensures files { D.files desk.new ≡ D.files desk.old }
    ensures printed { D.printed desk.new ≡ D.printed desk.old }
    ensures read_faults { D.read_faults desk.old ≤ D.read_faults desk.new }
    ensures write_faults { D.write_faults desk.new ≡ D.write_faults desk.old }
    ensures may_read { D.may_read desk.new ≡ D.may_read desk.old }
{
    match read_all(alloc, desk, name, limit_of(source)) {
        Ok(bytes) => Ok(bytes),
        Err(ReadError::ReadFault) => Err(Status::Unreadable(source)),
        Err(ReadError::TooLong) => Err(Status::TooLong(source)),
        Err(ReadError::Memory) => Err(Status::Memory),
    }
}

/// The bytes of two files.
#[derive(Drop)]
pub(crate) struct Both {
    pub one: Vec<u8>,
    pub two: Vec<u8>,
}

/// Which two files a request is about.
#[derive(Clone, Copy)]
struct Named<'a> {
    first: &'a str,
    first_source: Source,
    second: &'a str,
    second_source: Source,
}

/// Which two files a request is about.
fn names_of(request: Request<'_>) -> Named<'_>
    ensures first { result.first.now ≡ first_name (request_seen request.entry) }
    ensures first_source { result.first_source ≡ first_source (request_seen request.entry) }
    ensures second { result.second.now ≡ second_name (request_seen request.entry) }
    ensures second_source { result.second_source ≡ second_source (request_seen request.entry) }
{
    match request {
        Request::Breaks(breaks) => Named {
            first: breaks.model,
            first_source: Source::Model,
            second: breaks.config,
            second_source: Source::Config,
        },
        Request::Page(page) => Named {
            first: page.former,
            first_source: Source::Former,
            second: page.answers,
            second_source: Source::Answers,
        },
    }
}

/// The bytes of both files that a request is about.
#[tactic(auto, using(crate::proofs::EndLaws::first_unread, crate::proofs::EndLaws::second_unread))]
pub(crate) fn both_read<D: Desk>(
    alloc: Global,
    desk: &mut D,
    request: Request<'_>,
) -> Result<Both, Status>
    requires may_read { (name : List ℕ) → IsTrue (D.may_read desk.old name) }
    ensures first { IfOk result (λ both. OfFile (D.files desk.old)
        (first_name (request_seen request.entry)) (λ bytes. bytes ≡ both.one.items)) }
    ensures second { IfOk result (λ both. OfFile (D.files desk.old)
        (second_name (request_seen request.entry)) (λ bytes. bytes ≡ both.two.items)) }
    ensures short { IfOk result (λ both. length both.one.items
        ≤ limit_of (first_source (request_seen request.entry))) }
    ensures refused { IfErr result (IsUnread (D.files desk.old) (request_seen request.entry)
        (D.read_faults desk.old) (D.read_faults desk.new)) }
    ensures files { D.files desk.new ≡ D.files desk.old }
    ensures printed { D.printed desk.new ≡ D.printed desk.old }
    ensures write_faults { D.write_faults desk.new ≡ D.write_faults desk.old }
{
    let named = names_of(request);
    let one = source_bytes(alloc, desk, named.first, named.first_source)?;
    let two = source_bytes(alloc, desk, named.second, named.second_source)?;
    Ok(Both { one, two })
}
