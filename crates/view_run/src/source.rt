//! The configurations that files hold.
ghost use Rattle.std.specs.Prelude.{◌≡◌, ◌≤◌, Some, IfOk, IfErr, IsTrue};
ghost use Rattle.desk_io.specs.Desk.{OfFile};
ghost use Rattle.serde_json.specs.View.{view};
ghost use Rattle.view_leaves.specs.Reading.{text_json};
ghost use Rattle.view_run.specs.Ending.{IsFaulty};

use crate::status::{Source, Status};
use desk_io::{Desk, ReadError, read_all};
use model_limits::CONFIG_BYTES;
use serde_json::Value;
use std::alloc::Global;
use view_leaves::{TextError, read_text};

/// The configuration that a file holds.
pub(crate) fn source_json<D: Desk>(
    alloc: Global,
    desk: &mut D,
    name: &str,
    source: Source,
) -> Result<Value, Status>
    requires may_read { IsTrue (D.may_read desk.old name.now) }
    ensures value { IfOk result (λ value. OfFile (D.files desk.old) name.now
        (λ bytes. text_json bytes ≡ Some (view value))) }
    ensures refused { IfErr result (IsFaulty (D.files desk.old) name.now source
        (D.read_faults desk.old) (D.read_faults desk.new)) }
    ensures files { D.files desk.new ≡ D.files desk.old }
    ensures printed { D.printed desk.new ≡ D.printed desk.old }
    ensures read_faults { D.read_faults desk.old ≤ D.read_faults desk.new }
    ensures write_faults { D.write_faults desk.new ≡ D.write_faults desk.old }
    ensures may_read { D.may_read desk.new ≡ D.may_read desk.old }
{
    match read_all(alloc, desk, name, CONFIG_BYTES) {
        Ok(bytes) => match read_text(alloc, &bytes) {
            Ok(value) => Ok(value),
            Err(TextError::NotJson) => Err(Status::NotJson(source)),
            Err(TextError::NotObject) => Err(Status::NotObject(source)),
            Err(TextError::Memory) => Err(Status::Memory),
        },
        Err(ReadError::ReadFault) => Err(Status::Unreadable(source)),
        Err(ReadError::TooLong) => Err(Status::TooLong(source)),
        Err(ReadError::Memory) => Err(Status::Memory),
    }
}
