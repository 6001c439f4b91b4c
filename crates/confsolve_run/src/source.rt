//! The text of the model that a request is about.
ghost use Rattle.std.specs.Prelude.{◌≡◌, ◌≤◌, List, Some, false, length, IfOk, IfErr, IsTrue, ℕ};
ghost use Rattle.conf_request.specs.Words.{model_file, IsLawful};
ghost use Rattle.desk_io.specs.Desk.{OfFile};
ghost use Rattle.model_generator.specs.Generated.{generated};
ghost use Rattle.model_limits.specs.Limits.{model_bytes};
ghost use Rattle.run_promise.specs.Asking.{OfText};
ghost use Rattle.run_promise.specs.Refusal.{IsTooLongText};
ghost use Rattle.round_commands.specs.Statuses.{is_of_log};
ghost use Rattle.round_commands.specs.Unreadable.{Unreadable};

use conf_request::{FileName, Request};
use desk_io::{Desk, ReadError, read_all};
use model_generator::generate;
use model_limits::MODEL_BYTES;
use run_status::{LimitKind, Status};
use std::alloc::Global;

/// The text of a model's file.
fn file_text<D: Desk>(alloc: Global, desk: &mut D, file: &FileName) -> Result<Vec<u8>, Status>
    requires may_read { IsTrue (D.may_read desk.old file.now) }
    ensures text { IfOk result (λ text. OfFile (D.files desk.old) file.now
        (λ bytes. bytes ≡ text.items)) }
    ensures short { IfOk result (λ text. length text.items ≤ model_bytes) }
    ensures refused { IfErr result (λ s. Unreadable (D.read_faults desk.old)
        (D.read_faults desk.new) s (OfFile (D.files desk.old) file.now
        (λ bytes. IsTooLongText bytes s))) }
    ensures other { IfErr result (λ s. is_of_log s ≡ false) }
    ensures files { D.files desk.new ≡ D.files desk.old }
    ensures printed { D.printed desk.new ≡ D.printed desk.old }
    ensures read_faults { D.read_faults desk.old ≤ D.read_faults desk.new }
    ensures write_faults { D.write_faults desk.new ≡ D.write_faults desk.old }
    ensures may_read { D.may_read desk.new ≡ D.may_read desk.old }
    ensures may_write { D.may_write desk.new ≡ D.may_write desk.old }
{
    match read_all(alloc, desk, file.as_str(), MODEL_BYTES) {
        Ok(text) => Ok(text),
        Err(ReadError::ReadFault) => Err(Status::ReadFault),
        Err(ReadError::TooLong) => Err(Status::Limit {
            kind: LimitKind::Model,
            place: None,
        }),
        Err(ReadError::Memory) => Err(Status::Memory),
    }
}

/// The text of the model that is made for `n`.
fn made_text(alloc: Global, n: u32) -> Result<Vec<u8>, Status>
    requires some { 1 ≤ n }
    requires few { n ≤ 100 }
    ensures text { IfOk result (λ text. text.items ≡ generated n) }
    ensures short { IfOk result (λ text. length text.items ≤ model_bytes) }
    ensures refused { IfErr result (λ s. s ≡ Status.Memory) }
{
    match generate(alloc, n) {
        Ok(text) => Ok(text),
        Err(_) => Err(Status::Memory),
    }
}

/// The text of the model that a request is about.
pub(crate) fn text_of<D: Desk>(
    alloc: Global,
    desk: &mut D,
    request: &Request,
) -> Result<Vec<u8>, Status>
    requires may_read { (name : List ℕ) → model_file request.now ≡ Some name
        → IsTrue (D.may_read desk.old name) }
    requires lawful { IsLawful request.now }
    ensures text { IfOk result (λ text. OfText (D.files desk.old) request.now
        (λ bytes. bytes ≡ text.items)) }
    ensures short { IfOk result (λ text. length text.items ≤ model_bytes) }
    ensures refused { IfErr result (λ s. Unreadable (D.read_faults desk.old)
        (D.read_faults desk.new) s (OfText (D.files desk.old) request.now
        (λ bytes. IsTooLongText bytes s))) }
    ensures other { IfErr result (λ s. is_of_log s ≡ false) }
    ensures files { D.files desk.new ≡ D.files desk.old }
    ensures printed { D.printed desk.new ≡ D.printed desk.old }
    ensures read_faults { D.read_faults desk.old ≤ D.read_faults desk.new }
    ensures write_faults { D.write_faults desk.new ≡ D.write_faults desk.old }
    ensures may_read { D.may_read desk.new ≡ D.may_read desk.old }
    ensures may_write { D.may_write desk.new ≡ D.may_write desk.old }
{
    match request {
        Request::Gen { n } => made_text(alloc, *n),
        Request::Solve { model, .. }
        | Request::Reconfigure { model, .. }
        | Request::Check { model, .. }
        | Request::Verify { model, .. }
        | Request::Session { model, .. }
        | Request::Core { model, .. } => file_text(alloc, desk, model),
    }
}
