//! A run: from words to what is printed.
ghost use Rattle.std.specs.Prelude.{◌≡◌, ◌↔◌, ℕ, List, None, map, string_bytes, IfErr, IfOk, IfSome, IsTrue};
ghost use Rattle.view_reports.specs.Ending.{Ends, IsDenied, OfBoth};
ghost use Rattle.view_reports.specs.Delivered.{IsDelivered};
ghost use Rattle.view_reports.specs.Made.{IsMade};
ghost use Rattle.view_reports.specs.Words.{asked, request_seen};
ghost use Rattle.view_reports.specs.declared.status.Status.TheVariants.{Usage};

use crate::making::{Answer, made_of};
use crate::request::{Request, request_of};
use crate::source::both_read;
use crate::status::Status;
use desk_io::{Desk, WriteError, print_all};
use std::alloc::Global;

/// What is asked for.
#[tactic(auto, using(crate::proofs::EndLaws::unread_denied, crate::proofs::EndLaws::unmade_denied, crate::proofs::EndLaws::is_made))]
fn made<D: Desk>(alloc: Global, request: Request<'_>, desk: &mut D) -> Result<Answer, Status>
    requires may_read { (name : List ℕ) → IsTrue (D.may_read desk.old name) }
    ensures made { IfOk result (λ answer. OfBoth (D.files desk.old) (request_seen request.entry)
        (λ one two. IsMade (request_seen request.entry) one two answer.text.items answer.found)) }
    ensures refused { IfErr result (IsDenied (D.files desk.old) (request_seen request.entry)
        (D.read_faults desk.old) (D.read_faults desk.new)) }
    ensures files { D.files desk.new ≡ D.files desk.old }
    ensures printed { D.printed desk.new ≡ D.printed desk.old }
    ensures write_faults { D.write_faults desk.new ≡ D.write_faults desk.old }
{
    let both = both_read(alloc, desk, request)?;
    match made_of(alloc, &both, request) {
        Ok(answer) => Ok(answer),
        Err(status) => Err(status),
    }
}

/// Prints an answer.
fn deliver<D: Desk>(desk: &mut D, answer: &Answer) -> Status
    ensures delivered { IsDelivered answer.now.text.items answer.now.found (D.printed desk.old)
        (D.printed desk.new) (D.write_faults desk.old) (D.write_faults desk.new) result }
    ensures files { D.files desk.new ≡ D.files desk.old }
    ensures read_faults { D.read_faults desk.new ≡ D.read_faults desk.old }
{
    match print_all(desk, &answer.text) {
        Ok(()) => {
            if answer.found {
                Status::Broken
            } else {
                Status::Whole
            }
        }
        Err(WriteError::WriteFault) => Status::WriteFault,
        Err(WriteError::Memory) => Status::Memory,
    }
}

/// Does what is asked for.
#[tactic(auto, using(crate::proofs::EndLaws::denied_ends, crate::proofs::EndLaws::delivered_ends))]
fn run_request<D: Desk>(alloc: Global, request: Request<'_>, desk: &mut D) -> Status
    requires may_read { (name : List ℕ) → IsTrue (D.may_read desk.old name) }
    ensures ends { Ends (D.files desk.old) (request_seen request.entry) (record {
      printed = D.printed desk.old;
      printed_now = D.printed desk.new;
      reads = D.read_faults desk.old;
      reads_now = D.read_faults desk.new;
      writes = D.write_faults desk.old;
      writes_now = D.write_faults desk.new;
    }) result }
    ensures files { D.files desk.new ≡ D.files desk.old }
{
    match made(alloc, request, desk) {
        Ok(answer) => deliver(desk, &answer),
        Err(status) => status,
    }
}

/// Does what the words behind the program's name ask for.
pub fn run<D: Desk>(alloc: Global, words: &[String], desk: &mut D) -> Status
    requires may_read { (name : List ℕ) → IsTrue (D.may_read desk.old name) }
    ensures usage { (result ≡ Usage) ↔ (asked (map string_bytes words.now) ≡ None) }
    ensures ends { IfSome (asked (map string_bytes words.now)) (λ a.
        Ends (D.files desk.old) a (record {
          printed = D.printed desk.old;
          printed_now = D.printed desk.new;
          reads = D.read_faults desk.old;
          reads_now = D.read_faults desk.new;
          writes = D.write_faults desk.old;
          writes_now = D.write_faults desk.new;
        }) result) }
    ensures files { D.files desk.new ≡ D.files desk.old }
{
    match request_of(words) {
        None => Status::Usage,
        Some(request) => run_request(alloc, request, desk),
    }
}
