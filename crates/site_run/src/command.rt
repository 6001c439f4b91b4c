//! A run: from words to what is printed.
ghost use Rattle.std.specs.Prelude.{◌≡◌, ◌≤◌, ◌↔◌, ℕ, List, None, Some, map, option_map, string_bytes, IfErr, IfOk, IfSome, IsTrue};
ghost use Rattle.desk_io.specs.Desk.{OfFile};
ghost use Rattle.site_drafts.specs.Answers.{texts_seen};
ghost use Rattle.site_run.specs.Ending.{IsText, IsNoFile, IsRead, IsUnread, IsHandedOut, Ends, state_file, beside_file};
ghost use Rattle.site_run.specs.Runs.{Answers};
ghost use Rattle.site_words.specs.Words.{asked, job_of, request_seen};
ghost use Rattle.site_run.specs.declared.status.Status.TheVariants.{Usage};

use crate::status::{Status, Unread};
use desk_io::{Desk, ReadError, WriteError, print_all, read_all};
use model_limits::CONFIG_BYTES;
use site_drafts::{FileName, Texts, made};
use site_words::{Request, Task, request_of};
use std::alloc::Global;

/// The text of a file.
fn read_named<D: Desk>(
    alloc: Global,
    desk: &mut D,
    name: &str,
    file: FileName,
) -> Result<Vec<u8>, Unread>
    requires may_read { IsTrue (D.may_read desk.old name.now) }
    ensures text { IfOk result (λ text. IsText (D.files desk.old) (Some name.now) text.items) }
    ensures refused { IfErr result (IsNoFile (D.files desk.old) (Some name.now) file
        (D.read_faults desk.old) (D.read_faults desk.new)) }
    ensures files { D.files desk.new ≡ D.files desk.old }
    ensures printed { D.printed desk.new ≡ D.printed desk.old }
    ensures read_faults { D.read_faults desk.old ≤ D.read_faults desk.new }
    ensures write_faults { D.write_faults desk.new ≡ D.write_faults desk.old }
    ensures may_read { D.may_read desk.new ≡ D.may_read desk.old }
{
    match read_all(alloc, desk, name, CONFIG_BYTES) {
        Ok(bytes) => Ok(bytes),
        Err(ReadError::ReadFault) => Err(Unread::Unreadable(file)),
        Err(ReadError::TooLong) => Err(Unread::TooLong(file)),
        Err(ReadError::Memory) => Err(Unread::Memory),
    }
}

/// The text of a file; nothing where none is asked for.
fn read_asked<D: Desk>(
    alloc: Global,
    desk: &mut D,
    name: Option<&str>,
    file: FileName,
) -> Result<Vec<u8>, Unread>
    requires may_read { (name : List ℕ) → IsTrue (D.may_read desk.old name) }
    ensures text { IfOk result (λ text. IsText (D.files desk.old)
        (option_map (λ w. w.now) name.entry) text.items) }
    ensures refused { IfErr result (IsNoFile (D.files desk.old)
        (option_map (λ w. w.now) name.entry) file
        (D.read_faults desk.old) (D.read_faults desk.new)) }
    ensures files { D.files desk.new ≡ D.files desk.old }
    ensures printed { D.printed desk.new ≡ D.printed desk.old }
    ensures read_faults { D.read_faults desk.old ≤ D.read_faults desk.new }
    ensures write_faults { D.write_faults desk.new ≡ D.write_faults desk.old }
    ensures may_read { D.may_read desk.new ≡ D.may_read desk.old }
{
    match name {
        Some(name) => read_named(alloc, desk, name, file),
        None => Ok(Vec::new(alloc)),
    }
}

/// How the file of what runs where is told.
fn state_file(task: Task<'_>) -> FileName
    ensures { result ≡ state_file (job_of task.entry) }
{
    match task {
        Task::Plain | Task::Fewest | Task::Spread(_) | Task::Keep | Task::Former => FileName::Today,
        Task::Table | Task::Changes => FileName::Answer,
    }
}

/// How the file beside it is told.
fn beside_file(task: Task<'_>) -> FileName
    ensures { result ≡ beside_file (job_of task.entry) }
{
    match task {
        Task::Plain | Task::Fewest | Task::Spread(_) | Task::Keep | Task::Former => FileName::Extra,
        Task::Table | Task::Changes => FileName::Former,
    }
}

/// The texts of all files.
#[tactic(auto, using(crate::proofs::EndingLaws::are_read, crate::proofs::EndingLaws::hosts_unread, crate::proofs::EndingLaws::services_unread, crate::proofs::EndingLaws::state_unread, crate::proofs::EndingLaws::beside_unread))]
fn read_texts<D: Desk>(alloc: Global, request: Request<'_>, desk: &mut D) -> Result<Texts, Unread>
    requires may_read { (name : List ℕ) → IsTrue (D.may_read desk.old name) }
    ensures read { IfOk result (λ t. IsRead (D.files desk.old) (request_seen request.entry)
        (texts_seen t)) }
    ensures refused { IfErr result (IsUnread (D.files desk.old) (request_seen request.entry)
        (D.read_faults desk.old) (D.read_faults desk.new)) }
    ensures files { D.files desk.new ≡ D.files desk.old }
    ensures printed { D.printed desk.new ≡ D.printed desk.old }
    ensures write_faults { D.write_faults desk.new ≡ D.write_faults desk.old }
{
    let hosts = read_named(alloc, desk, request.hosts, FileName::Hosts)?;
    let services = read_named(alloc, desk, request.services, FileName::Services)?;
    let state = read_asked(alloc, desk, request.state, state_file(request.task))?;
    let beside = read_asked(alloc, desk, request.beside, beside_file(request.task))?;
    Ok(Texts {
        hosts,
        services,
        state,
        beside,
    })
}

/// Prints a text.
fn hand_out<D: Desk>(desk: &mut D, text: &[u8]) -> Status
    ensures handed_out { IsHandedOut text.now (D.printed desk.old) (D.printed desk.new)
        (D.write_faults desk.old) (D.write_faults desk.new) result }
    ensures files { D.files desk.new ≡ D.files desk.old }
{
    match print_all(desk, text) {
        Ok(()) => Status::Done,
        Err(WriteError::WriteFault) => Status::WriteFault,
        Err(WriteError::Memory) => Status::Memory,
    }
}

/// Prints what a task makes of the texts of all files.
#[tactic(auto, using(crate::proofs::EndingLaws::unanswered_answers, crate::proofs::EndingLaws::handed_out_answers))]
fn answer<D: Desk>(alloc: Global, task: Task<'_>, texts: &Texts, desk: &mut D) -> Status
    ensures answers { Answers (job_of task.entry) (texts_seen texts.now)
        (D.printed desk.old) (D.printed desk.new) (D.write_faults desk.old)
        (D.write_faults desk.new) result }
    ensures files { D.files desk.new ≡ D.files desk.old }
{
    match made(alloc, task, texts) {
        Ok(text) => hand_out(desk, &text),
        Err(refusal) => Status::Refused(refusal),
    }
}

/// Does what is asked for.
#[tactic(auto, using(crate::proofs::EndingLaws::unread_ends, crate::proofs::EndingLaws::answers_end))]
fn run_request<D: Desk>(alloc: Global, request: Request<'_>, desk: &mut D) -> Status
    requires may_read { (name : List ℕ) → IsTrue (D.may_read desk.old name) }
    ensures ends { Ends (D.files desk.old) (request_seen request.entry) (record {
      printed = D.printed desk.old;
      printed_now = D.printed desk.new;
      reads = D.read_faults desk.old;
      reads_now = D.read_faults desk.new;
      writes = D.write_faults desk.old;
      writes_now = D.write_faults desk.new;
    }) result }
    ensures files { D.files desk.new ≡ D.files desk.old }
{
    match read_texts(alloc, request, desk) {
        Ok(texts) => answer(alloc, request.task, &texts, desk),
        Err(unread) => Status::Unread(unread),
    }
}

/// Does what the words behind the program's name ask for.
pub fn run<D: Desk>(alloc: Global, words: &[String], desk: &mut D) -> Status
    requires may_read { (name : List ℕ) → IsTrue (D.may_read desk.old name) }
    ensures usage { (result ≡ Usage) ↔ (asked (map string_bytes words.now) ≡ None) }
    ensures ends { IfSome (asked (map string_bytes words.now)) (λ a.
        Ends (D.files desk.old) a (record {
          printed = D.printed desk.old;
          printed_now = D.printed desk.new;
          reads = D.read_faults desk.old;
          reads_now = D.read_faults desk.new;
          writes = D.write_faults desk.old;
          writes_now = D.write_faults desk.new;
        }) result) }
    ensures files { D.files desk.new ≡ D.files desk.old }
{
    match request_of(words) {
        None => Status::Usage,
        Some(request) => run_request(alloc, request, desk),
    }
}
