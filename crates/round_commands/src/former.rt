//! The text of a configuration, as it was or is to be: its file, and what it is read as.
ghost use Rattle.std.specs.Prelude.{◌≡◌, ◌≤◌, Some, false, IsSome, IfOk, IfErr, IsTrue};
ghost use Rattle.config_json.specs.Reading.{json_of, value_read};
ghost use Rattle.desk_io.specs.Desk.{OfFile};
ghost use Rattle.model_reader.specs.Ready.{IsReady};
ghost use Rattle.model_search.specs.Wanted.{IsUnderstood};
ghost use Rattle.run_status.specs.Stages.{Denied};
ghost use Rattle.serde_json.specs.Find.{as_object};
ghost use Rattle.run_promise.specs.Answer.{IsRepairOf};
ghost use Rattle.run_promise.specs.Asking.{IsShort, former_text};
ghost use Rattle.run_promise.specs.Refusal.{IsUnread, IsFormerLong, IsFormerRefused};
ghost use Rattle.round_commands.specs.Unreadable.{Unreadable};
ghost use Rattle.round_commands.specs.Statuses.{former_status, is_of_log};

use conf_request::FileName;
use conf_session::copied_words;
use conf_syntax::PathText;
use config_json::{ConfigText, FormerError, hints_of, read_config};
use desk_io::{Desk, ReadError, read_all};
use model_limits::CONFIG_BYTES;
use model_reader::Built;
use reconfigure::{Repair, unknown_word};
use run_status::{FormerKind, LimitKind, Status};
use std::alloc::Global;

/// The status of bytes that aren't read as an object.
fn former_status(error: FormerError) -> Status
    ensures { result ≡ former_status error }
{
    match error {
        FormerError::NotJson => Status::Former {
            kind: FormerKind::NotJson,
        },
        FormerError::NotObject => Status::Former {
            kind: FormerKind::NotObject,
        },
        FormerError::Memory => Status::Memory,
    }
}

/// The bytes of a configuration's file.
pub fn config_bytes<D: Desk>(
    alloc: Global,
    desk: &mut D,
    file: &FileName,
) -> Result<Vec<u8>, Status>
    requires may_read { IsTrue (D.may_read desk.old file.now) }
    ensures bytes { IfOk result (λ bytes. OfFile (D.files desk.old) file.now
        (λ read. read ≡ bytes.items)) }
    ensures short { IfOk result (λ bytes. IsShort bytes.items) }
    ensures refused { IfErr result (λ s. Unreadable (D.read_faults desk.old)
        (D.read_faults desk.new) s (OfFile (D.files desk.old) file.now
        (λ bytes. IsUnread bytes s))) }
    ensures long { IfErr result (λ s. Unreadable (D.read_faults desk.old)
        (D.read_faults desk.new) s (OfFile (D.files desk.old) file.now
        (λ bytes. IsFormerLong bytes s))) }
    ensures other { IfErr result (λ s. is_of_log s ≡ false) }
    ensures files { D.files desk.new ≡ D.files desk.old }
    ensures printed { D.printed desk.new ≡ D.printed desk.old }
    ensures read_faults { D.read_faults desk.old ≤ D.read_faults desk.new }
    ensures write_faults { D.write_faults desk.new ≡ D.write_faults desk.old }
    ensures may_read { D.may_read desk.new ≡ D.may_read desk.old }
    ensures may_write { D.may_write desk.new ≡ D.may_write desk.old }
{
    match read_all(alloc, desk, file.as_str(), CONFIG_BYTES) {
        Ok(bytes) => Ok(bytes),
        Err(ReadError::ReadFault) => Err(Status::ReadFault),
        Err(ReadError::TooLong) => Err(Status::Limit {
            kind: LimitKind::Former,
            place: None,
        }),
        Err(ReadError::Memory) => Err(Status::Memory),
    }
}

/// What the bytes of a configuration's text are read as.
#[tactic(auto, using(crate::proofs::Reading::former_other))]
pub fn former_of(alloc: Global, bytes: &[u8]) -> Result<ConfigText, Status>
    requires short { IsShort bytes.now }
    ensures read { IfOk result (λ former. value_read bytes.now ≡ Some (json_of former)) }
    ensures object { IfOk result (λ former. IsSome (as_object (json_of former))) }
    ensures refused { IfErr result (λ s. Denied s (IsUnread bytes.now s)) }
    ensures other { IfErr result (λ s. is_of_log s ≡ false) }
{
    match read_config(alloc, bytes) {
        Ok(former) => Ok(former),
        Err(error) => Err(former_status(error)),
    }
}

/// The repair that a former configuration's text and the words that name what failed ask for.
pub fn repair_in(
    alloc: Global,
    built: Built<'_>,
    bytes: &[u8],
    failed: &[PathText],
) -> Result<Repair, Status>
    requires ready { IsReady built.table.now built.objects.now built.model.now.constraints
        built.model.now.goals }
    requires short { IsShort bytes.now }
    ensures repair { IfOk result (λ r. IsRepairOf built.entry.objects.now
        (former_text bytes.now failed.now) r) }
    ensures understood { IfOk result (λ r. IsUnderstood built.entry.objects.now r) }
    ensures refused { IfErr result (λ s. Denied s (IsFormerRefused built.entry.objects.now
        (former_text bytes.now failed.now) s)) }
    ensures other { IfErr result (λ s. is_of_log s ≡ false) }
{
    let read = former_of(alloc, bytes)?;
    if let Some(word) = unknown_word(built.objects, failed) {
        return Err(Status::Former {
            kind: FormerKind::UnknownObject { word },
        });
    }
    let former = hints_of(alloc, &read, built.table, built.objects)?;
    let failed = copied_words(alloc, failed)?;
    Ok(Repair { former, failed })
}

/// The repair that a former configuration's file and the words that name what failed ask for.
pub fn repair_of<D: Desk>(
    alloc: Global,
    desk: &mut D,
    file: &FileName,
    failed: &[PathText],
    built: Built<'_>,
) -> Result<Repair, Status>
    requires may_read { IsTrue (D.may_read desk.old file.now) }
    requires ready { IsReady built.table.now built.objects.now built.model.now.constraints
        built.model.now.goals }
    ensures repair { IfOk result (λ r. OfFile (D.files desk.old) file.now
        (λ bytes. IsRepairOf built.entry.objects.now (former_text bytes failed.now) r)) }
    ensures understood { IfOk result (λ r. IsUnderstood built.entry.objects.now r) }
    ensures refused { IfErr result (λ s. Unreadable (D.read_faults desk.old)
        (D.read_faults desk.new) s (OfFile (D.files desk.old) file.now
        (λ bytes. IsFormerRefused built.entry.objects.now (former_text bytes failed.now) s))) }
    ensures other { IfErr result (λ s. is_of_log s ≡ false) }
    ensures files { D.files desk.new ≡ D.files desk.old }
    ensures printed { D.printed desk.new ≡ D.printed desk.old }
    ensures read_faults { D.read_faults desk.old ≤ D.read_faults desk.new }
    ensures write_faults { D.write_faults desk.new ≡ D.write_faults desk.old }
    ensures may_read { D.may_read desk.new ≡ D.may_read desk.old }
    ensures may_write { D.may_write desk.new ≡ D.may_write desk.old }
{
    let bytes = config_bytes(alloc, desk, file)?;
    repair_in(alloc, built, &bytes, failed)
}
