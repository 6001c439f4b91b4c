// Real files and the standard output: the trusted edge. It tells no content, so what it promises is
// how it counts.
ghost use Rattle.std.specs.Prelude.{◌≡◌, ◌<◌, ◌≤◌, Ok, None, true, length, IfOk, IsErr};
ghost use Rattle.desk_io.specs.Fault.{HasRisen};

use crate::fault::count;
use crate::{Desk, DeskError};
use std::fs::OpenOptions;
use std::io::{ErrorKind, Read, Seek, SeekFrom, Write};
use std::rt::{Files, Runtime};
use std::{fs, io};

/// A file that is open for reading, and the place of the byte that comes next.
#[derive(Drop)]
struct Opening<F: Drop> {
    name: String,
    file: F,
    at: u64,
}

/// Real files and the standard output. A call that the system refuses, a folder that is read, and a
/// write that takes nothing are failures. It permits every name.
///
/// A file that is read from its beginning, piece behind piece, is read through one opening of it:
/// so what the pieces hold together is what that opening gave, also where another file takes the
/// name meanwhile, and a pipe can be read. What a file that is written in place gives while it is
/// read, is left to the outside. A piece from elsewhere in a file is read through an opening of its
/// own.
#[derive(Drop)]
pub struct RealDesk<R: Runtime + AllocGlobal> {
    rt: R,
    reading: Option<Opening<R::File>>,
    read_faults: u64,
    write_faults: u64,
}

impl<R: Runtime + AllocGlobal> RealDesk<R> {
    ghost use Rattle.desk_io.specs.RealDesk.{read_faults_of, write_faults_of};

    /// A desk over the files and the standard output of this runtime, which has counted nothing.
    pub fn new(rt: R) -> Self
        ensures read_faults { read_faults_of result ≡ 0 }
        ensures write_faults { write_faults_of result ≡ 0 }
    {
        RealDesk {
            rt,
            reading: None,
            read_faults: 0,
            write_faults: 0,
        }
    }

    // What a call answers whose write took so many bytes. One that took none has failed.
    fn after_write(&mut self, taken: io::Result<usize>) -> Result<usize, DeskError>
        ensures taken { IfOk result (λ n. (0 < n) × (taken ≡ Ok n)) }
        ensures failed { IsErr result → HasRisen (write_faults_of self.old)
            (write_faults_of self.new) }
        ensures write_faults { write_faults_of self.old ≤ write_faults_of self.new }
        ensures read_faults { read_faults_of self.new ≡ read_faults_of self.old }
    {
        match taken {
            Ok(n) if n > 0 => Ok(n),
            _ => {
                count(&mut self.write_faults);
                Err(DeskError::Failed)
            }
        }
    }
}

/// Opens the file at a byte of it.
fn open_at<R: Files>(rt: &R, name: &str, at: u64) -> io::Result<R::File> {
    let mut file = fs::open(rt, name)?;
    if at > 0 {
        file.seek(SeekFrom::Start(at))?;
    }
    Ok(file)
}

/// What was open, where the bytes from there on are the next ones; else the file, opened there.
fn opened<R: Runtime + AllocGlobal>(
    rt: &R,
    reading: Option<Opening<R::File>>,
    name: &str,
    at: u64,
) -> io::Result<Opening<R::File>> {
    match reading {
        Some(opening) if opening.at == at && at > 0 && opening.name.as_str() == name => Ok(opening),
        _ => {
            let file = open_at(rt, name, at)?;
            let name = String::from_str(rt.alloc(), name)?;
            Ok(Opening { name, file, at })
        }
    }
}

/// Reads the bytes from there on, and says how many and what stays open: the file, until it ends.
fn read_on<R: Runtime + AllocGlobal>(
    rt: &R,
    reading: Option<Opening<R::File>>,
    name: &str,
    at: u64,
    buf: &mut [u8],
) -> io::Result<(usize, Option<Opening<R::File>>)>
    ensures { IfOk result (λ p. p.0 ≤ length buf.new) }
{
    let mut opening = opened(rt, reading, name, at)?;
    let n = opening.file.read(buf)?;
    match at.checked_add(n as u64) {
        Some(next) if n > 0 => {
            opening.at = next;
            Ok((n, Some(opening)))
        }
        _ => Ok((n, None)),
    }
}

fn append_some(rt: &impl Files, name: &str, piece: &[u8]) -> io::Result<usize>
    ensures { IfOk result (λ n. n ≤ length piece.now) }
{
    let mut file = OpenOptions::new().append(true).create(true).open(rt, name)?;
    file.write(piece)
}

impl<R: Runtime + AllocGlobal> Desk for RealDesk<R> {
    ghost files = { λ d. None };

    ghost printed = { λ d. None };

    ghost read_faults = { λ d. d.read_faults };

    ghost write_faults = { λ d. d.write_faults };

    ghost may_read = { λ d name. true };

    ghost may_write = { λ d name. true };

    fn read(&mut self, name: &str, at: u64, buf: &mut [u8]) -> Result<usize, DeskError> {
        let reading = self.reading.take();
        match read_on(&self.rt, reading, name, at, buf) {
            Ok((n, reading)) => {
                self.reading = reading;
                Ok(n)
            }
            Err(e) if e.kind() == ErrorKind::OutOfMemory => Err(DeskError::Memory),
            Err(_) => {
                count(&mut self.read_faults);
                Err(DeskError::Failed)
            }
        }
    }

    fn create(&mut self, name: &str) -> Result<(), DeskError> {
        match fs::create(&self.rt, name) {
            Ok(_) => Ok(()),
            Err(_) => {
                count(&mut self.write_faults);
                Err(DeskError::Failed)
            }
        }
    }

    fn append(&mut self, name: &str, piece: &[u8]) -> Result<usize, DeskError> {
        let taken = append_some(&self.rt, name, piece);
        self.after_write(taken)
    }

    fn print(&mut self, piece: &[u8]) -> Result<usize, DeskError> {
        let taken = self.rt.write_some(piece);
        self.after_write(taken)
    }
}
