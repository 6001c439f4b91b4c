//! Reading a log's file and feeding it to a checker. The entry point is `check_file`. Each turn of
//! its loop reads and feeds at least one byte, or ends it.
ghost use Rattle.std.specs.Prelude.{◌≡◌, ℕ, ◌+◌, ◌^◌, ◌<◌, ◌≤◌, ◌++◌, [], List, Some, None};
ghost use Rattle.std.specs.Prelude.{length, vec_len, take, min, IsTrue, IfOk, OnOk, IsErrOf};
ghost use Rattle.desk_io.specs.Desk.{OfFile};
ghost use Rattle.desk_io.specs.Fault.{HasRisen};
ghost use Rattle.log_check.specs.Fed.{HasTaken, FailsAt};
ghost use Rattle.log_check.specs.declared.lines.CheckError.TheVariants as refusal;
ghost use Rattle.log_file.specs.Fronts.{TakesOn, desk_cause, check_cause};
ghost use Rattle.log_file.specs.declared.reading.FileCheck.TheVariants.{ReadFault, TooLong};
ghost use Rattle.log_file.specs.declared.reading.FileCheck.TheVariants.{Rejected, Memory};

use desk_io::{Desk, DeskError, PIECE};
use log_check::{CheckError, Checker};
use std::alloc::{AllocError, Global};

/// Why a log's file isn't checked to its end.
#[derive(Clone, Copy, Debug, PartialEq, Eq)]
pub enum FileCheck {
    /// Reading failed, and the desk has counted it.
    ReadFault,
    /// The file is longer than the limit, and no line that ends within it is refused.
    TooLong,
    /// The checker refuses this line, counted from 1, which ends within the limit.
    Rejected(u64),
    /// There was no memory.
    Memory,
}

impl From<DeskError> for FileCheck {
    ghost from_gives = { λ error e. e ≡ desk_cause error };

    fn from(error: DeskError) -> Self {
        match error {
            DeskError::Failed => FileCheck::ReadFault,
            DeskError::Memory => FileCheck::Memory,
        }
    }
}

impl From<CheckError> for FileCheck {
    ghost from_gives = { λ error e. e ≡ check_cause error };

    fn from(error: CheckError) -> Self {
        match error {
            CheckError::Rejected(line) => FileCheck::Rejected(line),
            CheckError::Memory => FileCheck::Memory,
        }
    }
}

impl From<AllocError> for FileCheck {
    ghost from_gives = { λ _ e. e ≡ Memory };

    fn from(_: AllocError) -> Self {
        FileCheck::Memory
    }
}

/// Feeds the bytes of a piece for which there is room. `TooLong` comes behind them, where the piece
/// has more.
fn feed_within(c: &mut Checker<'_>, piece: &[u8], room: u64) -> Result<(), FileCheck>
    requires few { c.old.fed + room < 2 ^ 64 }
    requires unrefused { c.old.refusal ≡ None }
    ensures ground { c.new.ground ≡ c.old.ground }
    ensures fed { c.new.fed ≡ c.old.fed + min room (length piece.now) }
    ensures all { OnOk result (length piece.now ≤ room) }
    ensures unrefused { OnOk result (c.new.refusal ≡ None) }
    ensures taken { OnOk result ((bytes : List ℕ) → HasTaken c.old.ground bytes c.old.left
        → HasTaken c.old.ground (bytes ++ piece.now) c.new.left) }
    ensures long { IsErrOf result TooLong → room < length piece.now }
    ensures long_unrefused { IsErrOf result TooLong → c.new.refusal ≡ None }
    ensures long_taken { IsErrOf result TooLong → (bytes : List ℕ)
        → HasTaken c.old.ground bytes c.old.left
        → HasTaken c.old.ground (bytes ++ take room piece.now) c.new.left }
    ensures rejected { (line : ℕ) → IsErrOf result (Rejected line) → (bytes : List ℕ)
        → HasTaken c.old.ground bytes c.old.left
        → FailsAt c.old.ground (bytes ++ take room piece.now) line }
    ensures refused { (line : ℕ) → IsErrOf result (Rejected line)
        → c.new.refusal ≡ Some (refusal.Rejected line) }
    ensures no_fault { IsErrOf result ReadFault → ⊥ }
{
    if piece.len() as u64 <= room {
        c.feed(piece)?;
        return Ok(());
    }
    c.feed(&piece[..room as usize])?;
    Err(FileCheck::TooLong)
}

/// Reads the piece that stands behind the bytes that the checker was fed, feeds it, and says how
/// many bytes it has: none only at the file's end.
fn feed_piece<D: Desk>(
    desk: &mut D,
    name: &str,
    limit: u64,
    done: u64,
    buffer: &mut [u8],
    c: &mut Checker<'_>,
) -> Result<usize, FileCheck>
    requires may_read { IsTrue (D.may_read desk.old name.now) }
    requires room { 0 < length buffer.old }
    requires fed { c.old.fed ≡ done }
    requires within { done ≤ limit }
    requires unrefused { c.old.refusal ≡ None }
    ensures ground { c.new.ground ≡ c.old.ground }
    ensures fed { IfOk result (λ n. c.new.fed ≡ done + n) }
    ensures within { c.new.fed ≤ limit }
    ensures unrefused { OnOk result (c.new.refusal ≡ None) }
    ensures taken { IfOk result (λ n. OfFile (D.files desk.old) name.now
        (λ file. TakesOn c.old.ground file done n c.old.left c.new.left)) }
    ensures long { IsErrOf result TooLong → OfFile (D.files desk.old) name.now
        (λ file. limit < length file) }
    ensures long_unrefused { IsErrOf result TooLong → c.new.refusal ≡ None }
    ensures long_taken { IsErrOf result TooLong → OfFile (D.files desk.old) name.now
        (λ file. HasTaken c.old.ground (take done file) c.old.left
        → HasTaken c.old.ground (take limit file) c.new.left) }
    ensures rejected { (line : ℕ) → IsErrOf result (Rejected line)
        → OfFile (D.files desk.old) name.now
        (λ file. HasTaken c.old.ground (take done file) c.old.left
        → FailsAt c.old.ground (take limit file) line) }
    ensures refused { (line : ℕ) → IsErrOf result (Rejected line)
        → c.new.refusal ≡ Some (refusal.Rejected line) }
    ensures fault { IsErrOf result ReadFault → HasRisen (D.read_faults desk.old)
        (D.read_faults desk.new) }

    ensures files { D.files desk.new ≡ D.files desk.old }
    ensures printed { D.printed desk.new ≡ D.printed desk.old }
    ensures read_faults { D.read_faults desk.old ≤ D.read_faults desk.new }
    ensures write_faults { D.write_faults desk.new ≡ D.write_faults desk.old }
    ensures may_read { D.may_read desk.new ≡ D.may_read desk.old }
    ensures may_write { D.may_write desk.new ≡ D.may_write desk.old }
{
    let n = desk.read(name, done, buffer)?;
    feed_within(c, &buffer[..n], limit - done)?;
    Ok(n)
}

/// Feeds a file to a checker that was fed nothing yet, up to `limit` bytes. The file is read in
/// pieces, and beside what the checker keeps there is only a buffer for one of them.
///
/// Where no call of the desk fails and memory suffices, a file within the limit is taken whole, a
/// longer one is refused as such, and a line that ends within the limit and isn't spelled or
/// accepted is refused before either.
///
/// # Errors
/// `Rejected` with the number of the first line that ends within the limit and isn't spelled or
/// accepted. `TooLong` where the file has more than `limit` bytes; the checker has then taken the
/// first `limit` bytes. `ReadFault` where reading failed.
pub fn check_file<D: Desk>(
    alloc: Global,
    desk: &mut D,
    name: &str,
    limit: u64,
    c: &mut Checker<'_>,
) -> Result<(), FileCheck>
    requires may_read { IsTrue (D.may_read desk.old name.now) }
    requires fed { c.old.fed ≡ 0 }
    requires unrefused { c.old.refusal ≡ None }
    requires started { HasTaken c.old.ground [] c.old.left }
    ensures ground { c.new.ground ≡ c.old.ground }
    ensures within { c.new.fed ≤ limit }
    ensures unrefused { OnOk result (c.new.refusal ≡ None) }
    ensures whole { OnOk result (OfFile (D.files desk.old) name.now
        (λ file. length file ≡ c.new.fed)) }
    ensures taken { OnOk result (OfFile (D.files desk.old) name.now
        (λ file. HasTaken c.old.ground file c.new.left)) }
    ensures long { IsErrOf result TooLong → OfFile (D.files desk.old) name.now
        (λ file. limit < length file) }
    ensures long_unrefused { IsErrOf result TooLong → c.new.refusal ≡ None }
    ensures long_taken { IsErrOf result TooLong → OfFile (D.files desk.old) name.now
        (λ file. HasTaken c.old.ground (take limit file) c.new.left) }
    ensures rejected { (line : ℕ) → IsErrOf result (Rejected line)
        → OfFile (D.files desk.old) name.now
        (λ file. FailsAt c.old.ground (take limit file) line) }
    ensures refused { (line : ℕ) → IsErrOf result (Rejected line)
        → c.new.refusal ≡ Some (refusal.Rejected line) }
    ensures fault { IsErrOf result ReadFault → HasRisen (D.read_faults desk.old)
        (D.read_faults desk.new) }

    ensures files { D.files desk.new ≡ D.files desk.old }
    ensures printed { D.printed desk.new ≡ D.printed desk.old }
    ensures read_faults { D.read_faults desk.old ≤ D.read_faults desk.new }
    ensures write_faults { D.write_faults desk.new ≡ D.write_faults desk.old }
    ensures may_read { D.may_read desk.new ≡ D.may_read desk.old }
    ensures may_write { D.may_write desk.new ≡ D.may_write desk.old }
{
    let mut buffer = Vec::new(alloc);
    buffer.resize(PIECE, 0)?;
    let mut done: u64 = 0;
    loop {
        let n = feed_piece(desk, name, limit, done, buffer.as_mut_slice(), c)?;
        if n == 0 {
            return Ok(());
        }
        done += n as u64;
    }
}
