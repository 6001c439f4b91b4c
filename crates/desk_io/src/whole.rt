// Whole files and whole texts over a desk that gives and takes pieces. The entry points are
// `read_all`, `print_all` and `store_all`. Each turn of their loops handles at least one byte or
// ends the loop.
ghost use Rattle.std.specs.Prelude.{◌≡◌, ℕ, ◌+◌, ◌^◌, ◌<◌, ◌≤◌, List, length, vec_len, take, IsTrue, IfOk, OnOk, OnErr, IsErrOf};
ghost use Rattle.std.specs.Option.{option_map};
ghost use Rattle.desk_io.specs.Desk.{OfFile, with_file, with_printed};
ghost use Rattle.desk_io.specs.Fault.{HasRisen};
ghost use Rattle.desk_io.specs.Whole.{PrintsFront, StoresFront};
ghost use Rattle.desk_io.specs.Pieces.{ReadsBehind, read_error_of, write_error_of};

use crate::{Desk, DeskError};
use std::alloc::{AllocError, Global};

/// Why a file was not read whole.
#[derive(Clone, Copy, Debug, PartialEq, Eq)]
pub enum ReadError {
    /// Reading failed, and the desk has counted it.
    ReadFault,
    /// The file is longer than the limit.
    TooLong,
    /// There was no memory.
    Memory,
}

/// Why a text was not written whole.
#[derive(Clone, Copy, Debug, PartialEq, Eq)]
pub enum WriteError {
    /// Writing failed, and the desk has counted it.
    WriteFault,
    /// The desk had no memory.
    Memory,
}

impl From<DeskError> for ReadError {
    ghost from_gives = { λ error e. e ≡ read_error_of error };

    fn from(error: DeskError) -> Self {
        match error {
            DeskError::Failed => ReadError::ReadFault,
            DeskError::Memory => ReadError::Memory,
        }
    }
}

impl From<AllocError> for ReadError {
    ghost use Rattle.desk_io.specs.declared.whole.ReadError.TheVariants.{Memory};

    ghost from_gives = { λ _ e. e ≡ Memory };

    fn from(_: AllocError) -> Self {
        ReadError::Memory
    }
}

impl From<DeskError> for WriteError {
    ghost from_gives = { λ error e. e ≡ write_error_of error };

    fn from(error: DeskError) -> Self {
        match error {
            DeskError::Failed => WriteError::WriteFault,
            DeskError::Memory => WriteError::Memory,
        }
    }
}

/// How many bytes a file is asked for at once.
pub const PIECE: usize = 65536;

// Reads a piece of a file from where `bytes` ends, and says how many bytes it has. The piece is
// read straight behind `bytes`, which grows for it on the heap, so that no byte is copied again and
// nothing large stands on the stack.
fn read_more<D: Desk>(desk: &mut D, name: &str, bytes: &mut Vec<u8>) -> Result<usize, ReadError>
    requires name { IsTrue (D.may_read desk.old name.now) }
    requires room { vec_len bytes.old + PIECE < 2 ^ 64 }
    ensures length { IfOk result (λ n. vec_len bytes.new ≡ vec_len bytes.old + n) }
    ensures read { IfOk result (λ n. OfFile (D.files desk.old) name.now
        (λ file. ReadsBehind file n bytes.old.items bytes.new.items)) }
    ensures not_long { IsErrOf result ReadError.TooLong → ⊥ }
    ensures fault { IsErrOf result ReadError.ReadFault → HasRisen (D.read_faults desk.old)
        (D.read_faults desk.new) }

    ensures files { D.files desk.new ≡ D.files desk.old }
    ensures printed { D.printed desk.new ≡ D.printed desk.old }
    ensures read_faults { D.read_faults desk.old ≤ D.read_faults desk.new }
    ensures write_faults { D.write_faults desk.new ≡ D.write_faults desk.old }
    ensures may_read { D.may_read desk.new ≡ D.may_read desk.old }
    ensures may_write { D.may_write desk.new ≡ D.may_write desk.old }
{
    let length = bytes.len();
    bytes.resize(length + PIECE, 0)?;
    let n = desk.read(name, length as u64, &mut bytes[length..])?;
    bytes.truncate(length + n);
    Ok(n)
}

/// The whole file, if it has at most `limit` bytes. Where no call of the desk fails and memory
/// suffices, a file within the limit is returned and a longer one is refused as such.
#[tactic(auto, using(crate::proofs::Pieces::known_more, crate::proofs::Pieces::known_whole, crate::proofs::Pieces::known_long))]
pub fn read_all<D: Desk>(
    alloc: Global,
    desk: &mut D,
    name: &str,
    limit: u64,
) -> Result<Vec<u8>, ReadError>
    requires { IsTrue (D.may_read desk.old name.now) }
    ensures whole { IfOk result (λ bytes. OfFile (D.files desk.old) name.now (λ file. file
        ≡ bytes.items)) }
    ensures within { IfOk result (λ bytes. vec_len bytes ≤ limit) }
    ensures too_long { IsErrOf result ReadError.TooLong → OfFile (D.files desk.old) name.now
        (λ file. limit < length file) }
    ensures fault { IsErrOf result ReadError.ReadFault → HasRisen (D.read_faults desk.old)
        (D.read_faults desk.new) }

    ensures files { D.files desk.new ≡ D.files desk.old }
    ensures printed { D.printed desk.new ≡ D.printed desk.old }
    ensures read_faults { D.read_faults desk.old ≤ D.read_faults desk.new }
    ensures write_faults { D.write_faults desk.new ≡ D.write_faults desk.old }
    ensures may_read { D.may_read desk.new ≡ D.may_read desk.old }
    ensures may_write { D.may_write desk.new ≡ D.may_write desk.old }
{
    let mut bytes = Vec::new(alloc);
    while bytes.len() as u64 <= limit {
        if read_more(desk, name, &mut bytes)? == 0 {
            return Ok(bytes);
        }
    }
    Err(ReadError::TooLong)
}

/// Prints all of the bytes. After a refusal a front of them was printed.
#[tactic(auto, using(crate::proofs::Pieces::printed_more, crate::proofs::Pieces::printed_all))]
pub fn print_all<D: Desk>(desk: &mut D, bytes: &[u8]) -> Result<(), WriteError>
    ensures ok { OnOk result (D.printed desk.new ≡ with_printed bytes.now (D.printed desk.old)) }
    ensures err { OnErr result (PrintsFront bytes.now (D.printed desk.old) (D.printed desk.new)) }
    ensures fault { IsErrOf result WriteError.WriteFault → HasRisen (D.write_faults desk.old)
        (D.write_faults desk.new) }

    ensures files { D.files desk.new ≡ D.files desk.old }
    ensures write_faults { D.write_faults desk.old ≤ D.write_faults desk.new }
    ensures read_faults { D.read_faults desk.new ≡ D.read_faults desk.old }
    ensures may_read { D.may_read desk.new ≡ D.may_read desk.old }
    ensures may_write { D.may_write desk.new ≡ D.may_write desk.old }
{
    let mut done = 0;
    while done < bytes.len() {
        done += desk.print(&bytes[done..])?;
    }
    Ok(())
}

/// Makes the file hold exactly these bytes. After a refusal it is as before, or holds a front of
/// them.
#[tactic(auto, using(crate::proofs::StoredPieces::stored_more, crate::proofs::StoredPieces::stored_all))]
pub fn store_all<D: Desk>(desk: &mut D, name: &str, bytes: &[u8]) -> Result<(), WriteError>
    requires { IsTrue (D.may_write desk.old name.now) }
    ensures ok { OnOk result (D.files desk.new ≡ option_map (with_file name.now bytes.now)
        (D.files desk.old)) }
    ensures err { OnErr result (StoresFront name.now bytes.now (D.files desk.old)
        (D.files desk.new)) }
    ensures fault { IsErrOf result WriteError.WriteFault → HasRisen (D.write_faults desk.old)
        (D.write_faults desk.new) }

    ensures printed { D.printed desk.new ≡ D.printed desk.old }
    ensures write_faults { D.write_faults desk.old ≤ D.write_faults desk.new }
    ensures read_faults { D.read_faults desk.new ≡ D.read_faults desk.old }
    ensures may_read { D.may_read desk.new ≡ D.may_read desk.old }
    ensures may_write { D.may_write desk.new ≡ D.may_write desk.old }
{
    desk.create(name)?;
    let mut done = 0;
    while done < bytes.len() {
        done += desk.append(name, &bytes[done..])?;
    }
    Ok(())
}
