// A desk in memory that fails when it is told to.
ghost use Rattle.std.specs.Prelude.{◌≡◌, ◌↔◌, ◌⊎◌, ◌<◌, ◌≤◌, ◌-◌, ◌++◌, ℕ, List, length, take, min, IfOk, IfSome, OnOk, OnErr, IsErrOf, Some, None, true, [], IsTrue, Contains};
ghost use Rattle.std.specs.Option.{ForSome, option_map};
ghost use Rattle.desk_io.specs.FileList.{stored};
ghost use Rattle.desk_io.specs.Desk.{with_file, with_more, ReadsAt};
ghost use Rattle.desk_io.specs.Fault.{HasRisen, one_more};
ghost use Rattle.desk_io.specs.Piece.{handled};
ghost use Rattle.desk_io.specs.declared.desk.DeskError.TheVariants.{Failed, Memory};

use crate::fault::count;
use crate::file_list::{StoredFile, add_bytes, bytes_of, make_empty};
use crate::piece::{bytes_handled, read_piece};
use crate::{Desk, DeskError};
use std::alloc::Global;

/// A desk in memory that tells all that it holds. Its calls are numbered from 0; a call fails
/// exactly where its number is one of those that are to fail, or where it reads a missing file. The
/// numbers end at `u64::MAX`, which every later call has too.
#[derive(Drop)]
pub struct MemoryDesk {
    alloc: Global,
    files: Vec<StoredFile>,
    printed: Vec<u8>,
    failing: Vec<u64>,
    step: Option<u32>,
    calls: u64,
    read_faults: u64,
    write_faults: u64,
    ghost moves: { ForSome step (λ most. 0 < most) },
}

// Whether a call of that number is to fail.
fn is_listed(failing: &[u64], number: u64) -> bool
    ensures { IsTrue result ↔ Contains failing.now number }
{
    failing.contains(&number)
}

impl MemoryDesk {
    ghost use Rattle.desk_io.specs.MemoryDesk.{stored_in, printed_by, failing_of, calls_of, step_of, read_faults_of, write_faults_of, KeepsAllButStep};

    /// A desk with these files, which has printed nothing and handles whole pieces. Where a name
    /// stands twice, the first of the two counts. `failing` lists the numbers of the calls that
    /// fail, in any order.
    pub fn new(alloc: Global, files: Vec<StoredFile>, failing: Vec<u64>) -> Self
        ensures files { stored_in result ≡ stored files.items }
        ensures printed { printed_by result ≡ [] }
        ensures failing { failing_of result ≡ failing.items }
        ensures calls { calls_of result ≡ 0 }
        ensures step { step_of result ≡ None }
        ensures read_faults { read_faults_of result ≡ 0 }
        ensures write_faults { write_faults_of result ≡ 0 }
    {
        MemoryDesk {
            alloc,
            files,
            printed: Vec::new(alloc),
            failing,
            step: None,
            calls: 0,
            read_faults: 0,
            write_faults: 0,
        }
    }

    /// The same desk, of which each `read`, `append` and `print` handles at most `step` bytes.
    pub fn with_step(mut self, step: u32) -> Self
        requires { 0 < step }
        ensures step { step_of result ≡ Some step }
        ensures others { KeepsAllButStep self result }
    {
        self.step = Some(step);
        self
    }

    /// The bytes of a file.
    pub fn file(&self, name: &str) -> Option<&[u8]>
        ensures { option_map (λ bytes. bytes.now) result ≡ stored_in self.now name.now }
    {
        bytes_of(&self.files, name)
    }

    /// What has been printed.
    pub fn printed(&self) -> &[u8]
        ensures { result.now ≡ printed_by self.now }
    {
        &self.printed
    }

    // Numbers the call that begins now, and says whether it is to fail.
    fn fails(&mut self) -> bool
        ensures fails { IsTrue result ↔ Contains self.old.failing.items self.old.calls }
        ensures others { self.new ≡ record self.old { calls = one_more self.old.calls } }
    {
        let number = self.calls;
        count(&mut self.calls);
        is_listed(&self.failing, number)
    }
}

impl Desk for MemoryDesk {
    ghost use Rattle.desk_io.specs.MemoryDesk.{Fails, CountsCall, stored_in, printed_by, step_of, read_faults_of, write_faults_of};

    ghost files = { λ d. Some (stored d.files.items) };

    ghost printed = { λ d. Some d.printed.items };

    ghost read_faults = { λ d. d.read_faults };

    ghost write_faults = { λ d. d.write_faults };

    ghost may_read = { λ d name. true };

    ghost may_write = { λ d name. true };

    fn read(&mut self, name: &str, at: u64, buf: &mut [u8]) -> Result<usize, DeskError>
        requires { 0 < length buf.old }

        // It fails where its number is listed or the file is missing. Else it reads as much as
        // step, `buf` and file allow. It takes no memory.
        ensures fails { IsErrOf result Failed
            ↔ (Fails self.old ⊎ (stored_in self.old name.now ≡ None)) }
        ensures takes_no_memory { IsErrOf result Memory → ⊥ }
        ensures amount { IfOk result (λ n. IfSome (stored_in self.old name.now)
            (λ file. n ≡ handled (step_of self.old) (min (length buf.old) (length file - at)))) }
        ensures counted { CountsCall self.old self.new }
        ensures failures_alone { (IsErrOf result Failed → ⊥) → read_faults_of self.new
            ≡ read_faults_of self.old }

        // The trait's, of this desk.
        ensures count { IfOk result (λ n. n ≤ length buf.new) }
        ensures bytes { IfOk result
            (λ n. (file : List ℕ) × (stored_in self.old name.now ≡ Some file) × ReadsAt file at n buf.new) }
        ensures files { stored_in self.new ≡ stored_in self.old }
        ensures printed { printed_by self.new ≡ printed_by self.old }
        ensures cause { IsErrOf result Failed → HasRisen (read_faults_of self.old)
            (read_faults_of self.new) }
        ensures read_faults { read_faults_of self.old ≤ read_faults_of self.new }
        ensures write_faults { write_faults_of self.new ≡ write_faults_of self.old }
    {
        if !self.fails()
            && let Some(file) = bytes_of(&self.files, name)
        {
            return Ok(read_piece(file, at, self.step, buf));
        }
        count(&mut self.read_faults);
        Err(DeskError::Failed)
    }

    fn create(&mut self, name: &str) -> Result<(), DeskError>
        // It fails exactly where its number is listed.
        ensures fails { IsErrOf result Failed ↔ Fails self.old }
        ensures counted { CountsCall self.old self.new }
        ensures failures_alone { (IsErrOf result Failed → ⊥) → write_faults_of self.new
            ≡ write_faults_of self.old }

        // The trait's, of this desk.
        ensures ok { OnOk result (stored_in self.new ≡ with_file name.now [] (stored_in self.old)) }
        ensures err { OnErr result (stored_in self.new ≡ stored_in self.old) }
        ensures printed { printed_by self.new ≡ printed_by self.old }
        ensures cause { IsErrOf result Failed → HasRisen (write_faults_of self.old)
            (write_faults_of self.new) }
        ensures write_faults { write_faults_of self.old ≤ write_faults_of self.new }
        ensures read_faults { read_faults_of self.new ≡ read_faults_of self.old }
    {
        if self.fails() {
            count(&mut self.write_faults);
            return Err(DeskError::Failed);
        }
        Ok(make_empty(self.alloc, &mut self.files, name)?)
    }

    fn append(&mut self, name: &str, piece: &[u8]) -> Result<usize, DeskError>
        requires { 0 < length piece.now }

        // It fails exactly where its number is listed, and else adds as much as the step allows.
        ensures fails { IsErrOf result Failed ↔ Fails self.old }
        ensures amount { IfOk result (λ n. n ≡ handled (step_of self.old) (length piece.now)) }
        ensures counted { CountsCall self.old self.new }
        ensures failures_alone { (IsErrOf result Failed → ⊥) → write_faults_of self.new
            ≡ write_faults_of self.old }

        // The trait's, of this desk.
        ensures count { IfOk result (λ n. (0 < n) × (n ≤ length piece.now)) }
        ensures ok { IfOk result
            (λ n. stored_in self.new ≡ with_more name.now (take n piece.now) (stored_in self.old)) }
        ensures err { OnErr result (stored_in self.new ≡ stored_in self.old) }
        ensures printed { printed_by self.new ≡ printed_by self.old }
        ensures cause { IsErrOf result Failed → HasRisen (write_faults_of self.old)
            (write_faults_of self.new) }
        ensures write_faults { write_faults_of self.old ≤ write_faults_of self.new }
        ensures read_faults { read_faults_of self.new ≡ read_faults_of self.old }
    {
        if self.fails() {
            count(&mut self.write_faults);
            return Err(DeskError::Failed);
        }
        let n = bytes_handled(self.step, piece.len());
        add_bytes(self.alloc, &mut self.files, name, &piece[..n])?;
        Ok(n)
    }

    fn print(&mut self, piece: &[u8]) -> Result<usize, DeskError>
        requires { 0 < length piece.now }

        // It fails exactly where its number is listed, and else prints as much as the step allows.
        ensures fails { IsErrOf result Failed ↔ Fails self.old }
        ensures amount { IfOk result (λ n. n ≡ handled (step_of self.old) (length piece.now)) }
        ensures counted { CountsCall self.old self.new }
        ensures failures_alone { (IsErrOf result Failed → ⊥) → write_faults_of self.new
            ≡ write_faults_of self.old }

        // The trait's, of this desk.
        ensures count { IfOk result (λ n. (0 < n) × (n ≤ length piece.now)) }
        ensures ok { IfOk result (λ n. printed_by self.new ≡ printed_by self.old
            ++ take n piece.now) }
        ensures err { OnErr result (printed_by self.new ≡ printed_by self.old) }
        ensures files { stored_in self.new ≡ stored_in self.old }
        ensures cause { IsErrOf result Failed → HasRisen (write_faults_of self.old)
            (write_faults_of self.new) }
        ensures write_faults { write_faults_of self.old ≤ write_faults_of self.new }
        ensures read_faults { read_faults_of self.new ≡ read_faults_of self.old }
    {
        if self.fails() {
            count(&mut self.write_faults);
            return Err(DeskError::Failed);
        }
        let n = bytes_handled(self.step, piece.len());
        self.printed.extend_from_slice(&piece[..n])?;
        Ok(n)
    }
}
