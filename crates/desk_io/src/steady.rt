// A desk in memory that never fails.
ghost use Rattle.std.specs.Prelude.{◌≡◌, ◌<◌, ◌≤◌, ◌-◌, ◌++◌, ℕ, List, Some, true, length, take, min, [], IsOk, IfOk, OnOk, OnErr, IsErrOf};
ghost use Rattle.std.specs.Option.{option_map};
ghost use Rattle.desk_io.specs.Desk.{with_file, with_more, ReadsAt};
ghost use Rattle.desk_io.specs.FileList.{stored, bytes_of, steady};
ghost use Rattle.desk_io.specs.declared.desk.DeskError.TheVariants.{Failed};

use crate::file_list::{StoredFile, add_bytes, bytes_of, make_empty};
use crate::piece::read_piece;
use crate::{Desk, DeskError};
use std::alloc::Global;

/// A desk in memory that never fails: its counts of faults stay 0. Its calls handle all that they
/// are given. A file that is missing is read as an empty one, and made by the first call that
/// writes it.
#[derive(Drop)]
pub struct SteadyDesk {
    alloc: Global,
    files: Vec<StoredFile>,
    printed: Vec<u8>,
}

impl SteadyDesk {
    ghost use Rattle.desk_io.specs.SteadyDesk.{stored_in, printed_by};

    /// A desk with these files, which has printed nothing. Where a name stands twice, the first of
    /// the two counts.
    pub fn new(alloc: Global, files: Vec<StoredFile>) -> Self
        ensures files { stored_in result ≡ stored files.items }
        ensures printed { printed_by result ≡ [] }
    {
        SteadyDesk {
            alloc,
            files,
            printed: Vec::new(alloc),
        }
    }

    /// The bytes of a file that was given or has been written.
    pub fn file(&self, name: &str) -> Option<&[u8]>
        ensures { option_map (λ bytes. bytes.now) result ≡ stored_in self.now name.now }
    {
        bytes_of(&self.files, name)
    }

    /// What has been printed.
    pub fn printed(&self) -> &[u8]
        ensures { result.now ≡ printed_by self.now }
    {
        &self.printed
    }
}

impl Desk for SteadyDesk {
    ghost use Rattle.desk_io.specs.SteadyDesk.{stored_in, printed_by};

    ghost files = { λ d. Some (steady (stored d.files.items)) };

    ghost printed = { λ d. Some d.printed.items };

    ghost read_faults = { λ d. 0 };

    ghost write_faults = { λ d. 0 };

    ghost may_read = { λ d name. true };

    ghost may_write = { λ d name. true };

    fn read(&mut self, name: &str, at: u64, buf: &mut [u8]) -> Result<usize, DeskError>
        requires { 0 < length buf.old }

        // It always reads, as much as `buf` and file allow.
        ensures always { IsOk result }
        ensures amount { IfOk result
            (λ n. n ≡ min (length buf.old) (length (bytes_of (stored_in self.old) name.now) - at)) }

        // The trait's, of this desk.
        ensures count { IfOk result (λ n. n ≤ length buf.new) }
        ensures bytes { IfOk result
            (λ n. (file : List ℕ) × (Some (bytes_of (stored_in self.old) name.now) ≡ Some file) × ReadsAt file at n buf.new) }
        ensures files { stored_in self.new ≡ stored_in self.old }
        ensures printed { printed_by self.new ≡ printed_by self.old }
    {
        let file = bytes_of(&self.files, name).unwrap_or(&[]);
        Ok(read_piece(file, at, None, buf))
    }

    fn create(&mut self, name: &str) -> Result<(), DeskError>
        ensures never_fails { IsErrOf result Failed → ⊥ }
        ensures stored { OnOk result (stored_in self.new
            ≡ with_file name.now [] (stored_in self.old)) }

        // The trait's, of this desk.
        ensures ok { OnOk result (steady (stored_in self.new) ≡ with_file name.now [] (steady
            (stored_in self.old))) }
        ensures err { OnErr result (stored_in self.new ≡ stored_in self.old) }
        ensures printed { printed_by self.new ≡ printed_by self.old }
    {
        Ok(make_empty(self.alloc, &mut self.files, name)?)
    }

    fn append(&mut self, name: &str, piece: &[u8]) -> Result<usize, DeskError>
        requires { 0 < length piece.now }

        // It never fails, and adds the whole piece.
        ensures never_fails { IsErrOf result Failed → ⊥ }
        ensures amount { IfOk result (λ n. n ≡ length piece.now) }
        ensures stored { OnOk result (stored_in self.new ≡ with_more name.now piece.now
            (stored_in self.old)) }

        // The trait's, of this desk.
        ensures count { IfOk result (λ n. (0 < n) × (n ≤ length piece.now)) }
        ensures ok { IfOk result
            (λ n. steady (stored_in self.new) ≡ with_more name.now (take n piece.now) (steady (stored_in self.old))) }
        ensures err { OnErr result (stored_in self.new ≡ stored_in self.old) }
        ensures printed { printed_by self.new ≡ printed_by self.old }
    {
        add_bytes(self.alloc, &mut self.files, name, piece)?;
        Ok(piece.len())
    }

    fn print(&mut self, piece: &[u8]) -> Result<usize, DeskError>
        requires { 0 < length piece.now }

        // It never fails, and prints the whole piece.
        ensures never_fails { IsErrOf result Failed → ⊥ }
        ensures amount { IfOk result (λ n. n ≡ length piece.now) }

        // The trait's, of this desk.
        ensures count { IfOk result (λ n. (0 < n) × (n ≤ length piece.now)) }
        ensures ok { IfOk result (λ n. printed_by self.new ≡ printed_by self.old
            ++ take n piece.now) }
        ensures err { OnErr result (printed_by self.new ≡ printed_by self.old) }
        ensures files { stored_in self.new ≡ stored_in self.old }
    {
        self.printed.extend_from_slice(piece)?;
        Ok(piece.len())
    }
}
