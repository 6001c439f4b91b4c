// What a program asks of the outside: four calls that each handle one piece. A desk needn't tell
// what its files and its printed text are; each clause on them holds where it tells them. It always
// counts its faults, one count for reading and one for writing, and a call that fails has raised
// the count of its own kind and left the other alone.
ghost use Rattle.std.specs.Prelude.{◌≡◌, ℕ, ◌<◌, ◌≤◌, Bool, List, Option, length, take, IsTrue, IfOk, OnOk, OnErr, IsErrOf, []};
ghost use Rattle.std.specs.Option.{option_map};
ghost use Rattle.desk_io.specs.Desk.{Files, with_file, with_more, with_printed, OfFile, ReadsAt};
ghost use Rattle.desk_io.specs.Fault.{HasRisen};
ghost use Rattle.desk_io.specs.declared.desk.DeskError.TheVariants.{Failed, Memory};

use std::alloc::AllocError;

/// Why a call of a desk was refused.
#[derive(Clone, Copy, Debug, PartialEq, Eq)]
pub enum DeskError {
    /// The outside failed. The count of faults of the call's kind has risen.
    Failed,
    /// There was no memory for the call.
    Memory,
}

/// Files and a place to print to. A name is any text; what it means is the desk's own affair.
///
/// After a refusal of either kind the files and what was printed are as before.
pub trait Desk {
    /// The bytes of each file, where the desk tells them.
    ghost files: { Self → Option Files };

    /// What has been printed, where the desk tells it.
    ghost printed: { Self → Option (List ℕ) };

    /// How often reading has failed.
    ghost read_faults: { Self → ℕ };

    /// How often writing has failed.
    ghost write_faults: { Self → ℕ };

    /// Which names may be read. No call changes this.
    ghost may_read: { Self → List ℕ → Bool };

    /// Which names may be written. No call changes this.
    ghost may_write: { Self → List ℕ → Bool };

    /// Reads bytes of a file, from the byte offset `at` on, into the front of `buf`, and says how
    /// many: at least one where the file goes on there, and none at or behind its end. A missing
    /// file is a failure.
    fn read(&mut self, name: &str, at: u64, buf: &mut [u8]) -> Result<usize, DeskError>
        requires name { IsTrue (may_read self.old name.now) }
        requires room { 0 < length buf.old }
        ensures count { IfOk result (λ n. n ≤ length buf.new) }
        ensures bytes { IfOk result (λ n. OfFile (files self.old) name.now
            (λ file. ReadsAt file at n buf.new)) }
        ensures files { files self.new ≡ files self.old }
        ensures printed { printed self.new ≡ printed self.old }

        ensures cause { IsErrOf result Failed → HasRisen (read_faults self.old)
            (read_faults self.new) }
        ensures read_faults { read_faults self.old ≤ read_faults self.new }
        ensures write_faults { write_faults self.new ≡ write_faults self.old }
        ensures may_read { may_read self.new ≡ may_read self.old }
        ensures may_write { may_write self.new ≡ may_write self.old };

    /// Makes the file empty, or makes an empty file.
    fn create(&mut self, name: &str) -> Result<(), DeskError>
        requires { IsTrue (may_write self.old name.now) }
        ensures ok { OnOk result (files self.new ≡ option_map (with_file name.now [])
            (files self.old)) }
        ensures err { OnErr result (files self.new ≡ files self.old) }
        ensures printed { printed self.new ≡ printed self.old }

        ensures cause { IsErrOf result Failed → HasRisen (write_faults self.old)
            (write_faults self.new) }
        ensures write_faults { write_faults self.old ≤ write_faults self.new }
        ensures read_faults { read_faults self.new ≡ read_faults self.old }
        ensures may_read { may_read self.new ≡ may_read self.old }
        ensures may_write { may_write self.new ≡ may_write self.old };

    /// Adds bytes from the front of `piece` at the file's end, and says how many: at least one. A
    /// missing file is made.
    fn append(&mut self, name: &str, piece: &[u8]) -> Result<usize, DeskError>
        requires name { IsTrue (may_write self.old name.now) }
        requires some { 0 < length piece.now }
        ensures count { IfOk result (λ n. (0 < n) × (n ≤ length piece.now)) }
        ensures ok { IfOk result
            (λ n. files self.new ≡ option_map (with_more name.now (take n piece.now)) (files self.old)) }
        ensures err { OnErr result (files self.new ≡ files self.old) }
        ensures printed { printed self.new ≡ printed self.old }

        ensures cause { IsErrOf result Failed → HasRisen (write_faults self.old)
            (write_faults self.new) }
        ensures write_faults { write_faults self.old ≤ write_faults self.new }
        ensures read_faults { read_faults self.new ≡ read_faults self.old }
        ensures may_read { may_read self.new ≡ may_read self.old }
        ensures may_write { may_write self.new ≡ may_write self.old };

    /// Prints bytes from the front of `piece`, and says how many: at least one.
    fn print(&mut self, piece: &[u8]) -> Result<usize, DeskError>
        requires { 0 < length piece.now }
        ensures count { IfOk result (λ n. (0 < n) × (n ≤ length piece.now)) }
        ensures ok { IfOk result (λ n. printed self.new ≡ with_printed (take n piece.now)
            (printed self.old)) }
        ensures err { OnErr result (printed self.new ≡ printed self.old) }
        ensures files { files self.new ≡ files self.old }

        ensures cause { IsErrOf result Failed → HasRisen (write_faults self.old)
            (write_faults self.new) }
        ensures write_faults { write_faults self.old ≤ write_faults self.new }
        ensures read_faults { read_faults self.new ≡ read_faults self.old }
        ensures may_read { may_read self.new ≡ may_read self.old }
        ensures may_write { may_write self.new ≡ may_write self.old };
}

impl From<AllocError> for DeskError {
    ghost from_gives = { λ _ e. e ≡ Memory };

    fn from(_: AllocError) -> Self {
        DeskError::Memory
    }
}
