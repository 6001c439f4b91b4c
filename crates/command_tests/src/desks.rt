//! What cases ask of desks, and of runs over them.
//!
//! - `file NAME TEXT`, `spaces NAME COUNT`, `nested NAME COUNT`, `letters NAME COUNT` and `sets
//!   NAME COUNT`: adds a file to those of the next desk, of the text, of so many spaces, or a
//!   model: of classes that contain one another; of 10,000 objects with an attribute of a name of
//!   so many letters; of 10,000 objects with so many reference sets that have no cells.
//! - `load NAME`: adds a file that lies where the program runs.
//! - `steady`, `memory STEP CALL ..` and `real`: the next desk, with the files that were added; of
//!   `memory` a call moves at most so many bytes, where they aren't 0, and the calls of these
//!   numbers fail.
//! - `read NAME LIMIT`, `store NAME TEXT`, `sevens NAME COUNT`, `append NAME TEXT` and `print
//!   TEXT`: what a call gives; `sevens` stores so many bytes 7.
//! - `holds NAME`, `printed` and `behind`: what the file holds, what was printed, and what of it
//!   stands behind the first line; `whole` is all that was printed, however long.
//! - `run WORD ..`: the status of a run, its number, and its line where it has one; a word `""` is
//!   empty.
//! - `asks WORD ..`: what the words ask for.
ghost use Rattle.std.specs.Prelude.{IsTrue, List, ℕ};

use crate::runs::{Parts, behind_first_line, status_text};
use confsolve_run::request_of;
use desk_io::{Desk, MemoryDesk, RealDesk, SteadyDesk, StoredFile, print_all, read_all, store_all};
use std::alloc::{AllocError, Global};
use std::mem;
use test_case_files::{Case, Subject, words_of};

/// One of the desks.
#[derive(Drop)]
enum AnyDesk {
    Memory(MemoryDesk),
    Steady(SteadyDesk),
    Real(RealDesk<HostRuntime>),
}

/// The desk of now, and the files of the next one.
#[derive(Drop)]
pub(crate) struct Desks {
    rt: HostRuntime,
    files: Vec<StoredFile>,
    desk: AnyDesk,
    pub(crate) parts: Parts,
}

/// Bytes as a text; many of them as their count, and the byte where all are alike.
fn bytes_text(alloc: Global, bytes: &[u8]) -> Result<String, AllocError> {
    let count = bytes.len();
    if count <= 100 {
        return String::from_utf8_lossy(alloc, bytes);
    }
    let first = bytes[0];
    if bytes.iter().all(|byte| *byte == first) {
        format!(in alloc; "{count} of {first}")
    } else {
        format!(in alloc; "{count} bytes")
    }
}

/// Classes K1, K2 and on, each but the last with one object of the next, and an object of K1.
fn nested(alloc: Global, count: u32) -> Result<String, AllocError> {
    let mut text = String::new(alloc);
    for k in 1..count {
        let next = k + 1;
        text.push_str(format!(in alloc; "class K{k} {{ var k as K{next}; }} ")?.as_str())?;
    }
    text.push_str(format!(in alloc; "class K{count} {{ }} var k as K1;")?.as_str())?;
    Ok(text)
}

/// 10,000 objects with an attribute whose name has so many letters.
fn long_name(alloc: Global, count: u32) -> Result<String, AllocError> {
    let mut text = String::from_str(alloc, "class C { var ")?;
    for _letter in 0..count {
        text.push_str("a")?;
    }
    text.push_str(" as bool; } var c as C[10000];")?;
    Ok(text)
}

/// 10,000 objects with so many reference sets that have no cells.
fn bare_sets(alloc: Global, count: u32) -> Result<String, AllocError> {
    let mut text = String::from_str(alloc, "class E { } class C { ")?;
    for k in 0..count {
        text.push_str(format!(in alloc; "var s{k} as ref E[0]; ")?.as_str())?;
    }
    text.push_str("} var c as C[10000];")?;
    Ok(text)
}

/// What reading a file gives.
fn read<D: Desk>(alloc: Global, desk: &mut D, name: &str, limit: &str) -> Result<String, AllocError>
    requires { IsTrue (D.may_read desk.old name.now) }
{
    let limit = limit.parse::<u64>().unwrap_or(0);
    match read_all(alloc, desk, name, limit) {
        Ok(bytes) => bytes_text(alloc, &bytes),
        Err(error) => format!(in alloc; "{error:?}"),
    }
}

/// What storing a file gives.
fn store<D: Desk>(
    alloc: Global,
    desk: &mut D,
    name: &str,
    bytes: &[u8],
) -> Result<String, AllocError>
    requires { IsTrue (D.may_write desk.old name.now) }
{
    let stored = store_all(desk, name, bytes);
    format!(in alloc; "{stored:?}")
}

/// What adding bytes to a file gives.
fn append<D: Desk>(
    alloc: Global,
    desk: &mut D,
    name: &str,
    bytes: &[u8],
) -> Result<String, AllocError>
    requires { IsTrue (D.may_write desk.old name.now) }
{
    if bytes.is_empty() {
        return String::from_str(alloc, "no bytes");
    }
    let added = desk.append(name, bytes);
    format!(in alloc; "{added:?}")
}

/// The words of a command; `""` is an empty one.
fn command_words(alloc: Global, text: &str) -> Result<Vec<String>, AllocError> {
    let mut words = Vec::new(alloc);
    for word in words_of(alloc, text.as_bytes())? {
        let word = if word == "\"\"" { "" } else { word };
        words.push(String::from_str(alloc, word)?)?;
    }
    Ok(words)
}

/// The status of a run.
fn run_words<D: Desk>(
    alloc: Global,
    parts: &mut Parts,
    desk: &mut D,
    text: &str,
) -> Result<String, AllocError>
    requires read { (name : List ℕ) → IsTrue (D.may_read desk.old name) }
    requires write { (name : List ℕ) → IsTrue (D.may_write desk.old name) }
{
    let words = command_words(alloc, text)?;
    let status = parts.run(alloc, &words, desk);
    status_text(alloc, &status)
}

/// What words ask for.
fn asked(alloc: Global, text: &str) -> Result<String, AllocError> {
    let words = command_words(alloc, text)?;
    match request_of(alloc, &words)? {
        Some(request) => format!(in alloc; "{request:?}"),
        None => String::from_str(alloc, "nothing"),
    }
}

/// What a call on a file gives.
fn call_on_file<D: Desk>(
    alloc: Global,
    desk: &mut D,
    ask: &str,
    name: &str,
    text: &str,
) -> Result<String, AllocError>
    requires read { IsTrue (D.may_read desk.old name.now) }
    requires write { IsTrue (D.may_write desk.old name.now) }
{
    match ask {
        "read" => read(alloc, desk, name, text),
        "store" => store(alloc, desk, name, text.as_bytes()),
        "sevens" => {
            let count = text.parse::<usize>().unwrap_or(0).min(1_000_000);
            store(alloc, desk, name, &vec![in alloc; 7u8; count]?)
        }
        _ => append(alloc, desk, name, text.as_bytes()),
    }
}

/// What a call gives.
fn call<D: Desk>(
    alloc: Global,
    parts: &mut Parts,
    desk: &mut D,
    ask: &str,
    text: &str,
) -> Result<String, AllocError>
    requires read { (name : List ℕ) → IsTrue (D.may_read desk.old name) }
    requires write { (name : List ℕ) → IsTrue (D.may_write desk.old name) }
{
    match ask {
        "run" => run_words(alloc, parts, desk, text),
        "print" => {
            let printed = print_all(desk, text.as_bytes());
            format!(in alloc; "{printed:?}")
        }
        _ => {
            let (name, behind) = text.split_once(' ').unwrap_or((text, ""));
            call_on_file(alloc, desk, ask, name, behind)
        }
    }
}

/// What a file of the desk holds; None where there is none, or it isn't kept in memory.
fn held<'a>(desk: &'a AnyDesk, name: &str) -> Option<&'a [u8]> {
    match desk {
        AnyDesk::Memory(desk) => desk.file(name),
        AnyDesk::Steady(desk) => desk.file(name),
        AnyDesk::Real(_) => None,
    }
}

/// What was printed on a desk in memory.
fn printed(desk: &AnyDesk) -> &[u8] {
    match desk {
        AnyDesk::Memory(desk) => desk.printed(),
        AnyDesk::Steady(desk) => desk.printed(),
        AnyDesk::Real(_) => b"",
    }
}

impl Desks {
    /// A steady desk without files.
    pub(crate) fn new(rt: HostRuntime, parts: Parts) -> Desks {
        let alloc = rt.alloc();
        Desks {
            rt,
            files: Vec::new(alloc),
            desk: AnyDesk::Steady(SteadyDesk::new(alloc, Vec::new(alloc))),
            parts,
        }
    }

    /// The files that were added, which are forgotten.
    fn take_files(&mut self, alloc: Global) -> Vec<StoredFile> {
        mem::replace(&mut self.files, Vec::new(alloc))
    }

    /// Adds a file.
    fn add(&mut self, alloc: Global, name: &str, bytes: Vec<u8>) -> Result<String, AllocError> {
        let count = bytes.len();
        self.files.push((String::from_str(alloc, name)?, bytes))?;
        format!(in alloc; "{count} bytes")
    }

    /// Adds a file that lies where the program runs.
    fn load(&mut self, alloc: Global, name: &str) -> Result<String, AllocError> {
        let mut desk = RealDesk::new(self.rt.clone()?);
        match read_all(alloc, &mut desk, name, 1_000_000) {
            Ok(bytes) => self.add(alloc, name, bytes),
            Err(error) => format!(in alloc; "{error:?}"),
        }
    }

    /// Adds the file that is asked for.
    fn add_as(
        &mut self,
        alloc: Global,
        ask: &str,
        name: &str,
        text: &str,
    ) -> Result<String, AllocError> {
        let count = text.parse::<u32>().unwrap_or(0);
        let bytes = match ask {
            "file" => text.as_bytes().to_vec(alloc)?,
            "spaces" => vec![in alloc; b' '; count as usize]?,
            "letters" => long_name(alloc, count)?.into_bytes(),
            "sets" => bare_sets(alloc, count)?.into_bytes(),
            _ => nested(alloc, count)?.into_bytes(),
        };
        self.add(alloc, name, bytes)
    }

    /// Makes a desk of which calls fail.
    fn make_memory(&mut self, alloc: Global, text: &str) -> Result<String, AllocError> {
        let mut failing = Vec::new(alloc);
        let mut step = 0u32;
        for (k, word) in text.split(' ').enumerate() {
            let number = word.parse::<u32>().unwrap_or(0);
            if k == 0 {
                step = number;
            } else {
                failing.push(u64::from(number))?;
            }
        }
        let desk = MemoryDesk::new(alloc, self.take_files(alloc), failing);
        self.desk = AnyDesk::Memory(if step > 0 { desk.with_step(step) } else { desk });
        String::from_str(alloc, "made")
    }

    /// Makes the desk that is asked for, or calls the one of now.
    fn make_or_call(&mut self, alloc: Global, ask: &str, text: &str) -> Result<String, AllocError> {
        match ask {
            "memory" => self.make_memory(alloc, text),
            "steady" => {
                let files = self.take_files(alloc);
                self.desk = AnyDesk::Steady(SteadyDesk::new(alloc, files));
                String::from_str(alloc, "made")
            }
            "real" => {
                self.desk = AnyDesk::Real(RealDesk::new(self.rt.clone()?));
                String::from_str(alloc, "made")
            }
            _ => match &mut self.desk {
                AnyDesk::Memory(desk) => call(alloc, &mut self.parts, desk, ask, text),
                AnyDesk::Steady(desk) => call(alloc, &mut self.parts, desk, ask, text),
                AnyDesk::Real(desk) => call(alloc, &mut self.parts, desk, ask, text),
            },
        }
    }
}

impl Subject for Desks {
    fn answer(&mut self, alloc: Global, case: &Case<'_>) -> Result<String, AllocError> {
        let text = str::from_utf8(&case.text).unwrap_or("");
        match case.ask {
            "file" | "spaces" | "nested" | "letters" | "sets" => {
                let (name, behind) = text.split_once(' ').unwrap_or((text, ""));
                self.add_as(alloc, case.ask, name, behind)
            }
            "holds" => match held(&self.desk, text) {
                Some(bytes) => bytes_text(alloc, bytes),
                None => String::from_str(alloc, "no file"),
            },
            "load" => self.load(alloc, text),
            "printed" => bytes_text(alloc, printed(&self.desk)),
            "whole" => String::from_utf8_lossy(alloc, printed(&self.desk)),
            "behind" => bytes_text(alloc, behind_first_line(printed(&self.desk))),
            "asks" => asked(alloc, text),
            _ => self.make_or_call(alloc, case.ask, text),
        }
    }
}
