//! An answer is delivered: its log is written whole, and then its text is printed.
ghost use Rattle.std.specs.Prelude.{◌≡◌, ◌≤◌, List, Some, OnOk, OnErr, IsErrOf, IsTrue, option_copied, ℕ};
ghost use Rattle.std.specs.Option.{option_map};
ghost use Rattle.desk_io.specs.Desk.{with_printed};
ghost use Rattle.desk_io.specs.Fault.{HasRisen};
ghost use Rattle.run_promise.specs.Delivery.{outside};
ghost use Rattle.confsolve_run.specs.Told.{stored, StoresSome, IsToldBroken};

use conf_request::FileName;
use desk_io::{Desk, WriteError, print_all, store_all};
use round_commands::Answer;

/// Writes the log into the file, where there are both.
fn store_log<D: Desk>(
    desk: &mut D,
    file: Option<&FileName>,
    log: &Option<Vec<u8>>,
) -> Result<(), WriteError>
    requires may_write { (name : List ℕ) → option_copied file ≡ Some name
        → IsTrue (D.may_write desk.old name) }
    ensures ok { OnOk result (D.files desk.new ≡ stored (option_copied file.entry)
        (option_map (λ text. text.items) log.now) (D.files desk.old)) }
    ensures err { OnErr result (StoresSome (option_copied file.entry)
        (option_map (λ text. text.items) log.now) (D.files desk.old) (D.files desk.new)) }
    ensures fault { IsErrOf result WriteError.WriteFault → HasRisen (D.write_faults desk.old)
        (D.write_faults desk.new) }
    ensures printed { D.printed desk.new ≡ D.printed desk.old }
    ensures write_faults { D.write_faults desk.old ≤ D.write_faults desk.new }
    ensures read_faults { D.read_faults desk.new ≡ D.read_faults desk.old }
{
    match (file, log) {
        (Some(name), Some(text)) => store_all(desk, name.as_str(), text),
        _ => Ok(()),
    }
}

/// Writes the log of an answer, and then prints its text.
pub(crate) fn deliver<D: Desk>(
    desk: &mut D,
    file: Option<&FileName>,
    answer: &Answer,
) -> Result<(), WriteError>
    requires may_write { (name : List ℕ) → option_copied file ≡ Some name
        → IsTrue (D.may_write desk.old name) }
    ensures files { OnOk result (D.files desk.new ≡ stored (option_copied file.entry)
        (option_map (λ text. text.items) answer.now.log) (D.files desk.old)) }
    ensures printed { OnOk result (D.printed desk.new
        ≡ with_printed answer.now.text.items (D.printed desk.old)) }
    ensures broken { OnErr result (IsToldBroken (option_copied file.entry)
        (option_map (λ text. text.items) answer.now.log) answer.now.text.items
        (outside (D.files desk.old) (D.printed desk.old))
        (outside (D.files desk.new) (D.printed desk.new))) }
    ensures fault { IsErrOf result WriteError.WriteFault → HasRisen (D.write_faults desk.old)
        (D.write_faults desk.new) }
    ensures write_faults { D.write_faults desk.old ≤ D.write_faults desk.new }
    ensures read_faults { D.read_faults desk.new ≡ D.read_faults desk.old }
{
    store_log(desk, file, &answer.log)?;
    print_all(desk, &answer.text)
}
