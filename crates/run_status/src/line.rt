//! The line that tells how a run ended. The entry point is `line_of`.
ghost use Rattle.std.specs.Prelude.{◌≡◌, ◌++◌, IfOk, codes, decimal};
ghost use Rattle.run_status.specs.Status.{line_text, limit_text, kind_text, fault_text};
ghost use Rattle.run_status.specs.Status.{broken_text, for_text, former_text};

use crate::status::{Fault, FormerKind, LimitKind, Status};
use std::alloc::{AllocError, Global};

/// What may be asked of the program.
const USAGE: &str = "usage: confsolve solve MODEL, reconfigure MODEL FORMER [FAILED ..], \
    check MODEL LOG [FORMER [FAILED ..]], verify MODEL CONFIG, \
    session MODEL FORMER EVENTS, core MODEL, gen N";

/// The name of a limit.
fn kind_name(kind: LimitKind) -> &'static str
    ensures { result.now ≡ kind_text kind }
{
    match kind {
        LimitKind::Model => "Model",
        LimitKind::Literal => "Literal",
        LimitKind::Nesting => "Nesting",
        LimitKind::Objects => "Objects",
        LimitKind::Depth => "Depth",
        LimitKind::Cells => "Cells",
        LimitKind::Weight => "Weight",
        LimitKind::Width => "Width",
        LimitKind::Former => "Former",
        LimitKind::Log => "Log",
        LimitKind::Events => "Events",
    }
}

/// The name of a fault.
fn fault_name(fault: Fault) -> &'static str
    ensures { result.now ≡ fault_text fault }
{
    match fault {
        Fault::Duplicate => "Duplicate",
        Fault::Unknown => "Unknown",
        Fault::NotAClass => "NotAClass",
        Fault::InheritCycle => "InheritCycle",
        Fault::ContainCycle => "ContainCycle",
        Fault::AbstractObject => "AbstractObject",
        Fault::EmptyRange => "EmptyRange",
        Fault::WrongType => "WrongType",
        Fault::NonLinear => "NonLinear",
        Fault::Shadow => "Shadow",
    }
}

/// A text with some bytes behind it.
fn with_bytes(alloc: Global, text: &str, bytes: &[u8]) -> Result<Vec<u8>, AllocError>
    ensures line { IfOk result (λ line. line.items ≡ text.now ++ bytes.now) }
{
    let mut line = text.as_bytes().to_vec(alloc)?;
    line.extend_from_slice(bytes)?;
    Ok(line)
}

/// The line of a quantity above its limit.
fn limit_line(alloc: Global, kind: LimitKind, place: Option<u32>) -> Result<Vec<u8>, AllocError>
    ensures line { IfOk result (λ line. line.items ≡ limit_text kind place) }
{
    let name = kind_name(kind);
    match place {
        None => Ok(format!(in alloc; "limit {name}")?.into_bytes()),
        Some(place) => Ok(format!(in alloc; "limit {name} at {place}")?.into_bytes()),
    }
}

/// The line of a text that isn't read as a configuration, or of a word that names no object.
fn former_line(alloc: Global, kind: FormerKind) -> Result<Vec<u8>, AllocError>
    ensures line { IfOk result (λ line. line.items ≡ former_text kind) }
{
    match kind {
        FormerKind::NotJson => with_bytes(alloc, "former not JSON", b""),
        FormerKind::NotObject => with_bytes(alloc, "former not an object", b""),
        FormerKind::UnknownObject { word } => {
            Ok(format!(in alloc; "former unknown object {word}")?.into_bytes())
        }
    }
}

/// The line of a constraint that is broken for the object of this path; the path is empty at the
/// top level.
fn broken_at(alloc: Global, place: u32, path: &[u8]) -> Result<Vec<u8>, AllocError>
    ensures line { IfOk result
        (λ line. line.items ≡ codes "broken at " ++ (decimal place ++ for_text path.now)) }
{
    let text = format!(in alloc; "broken at {place}")?;
    if path.is_empty() {
        return with_bytes(alloc, text.as_str(), b"");
    }
    let mut line = with_bytes(alloc, text.as_str(), b" for ")?;
    line.extend_from_slice(path)?;
    Ok(line)
}

/// The line of a configuration that doesn't satisfy its model.
fn broken_line(alloc: Global, place: Option<u32>, path: &[u8]) -> Result<Vec<u8>, AllocError>
    ensures line { IfOk result (λ line. line.items ≡ broken_text place path.now) }
{
    match place {
        None => with_bytes(alloc, "broken no value for ", path),
        Some(place) => broken_at(alloc, place, path),
    }
}

/// The line that tells the status, without its line feed; empty where an answer was printed.
pub fn line_of(alloc: Global, status: &Status) -> Result<Vec<u8>, AllocError>
    ensures line { IfOk result (λ line. line.items ≡ line_text status.now) }
{
    match status {
        Status::Done | Status::NoneExists | Status::Undecided { .. } => Ok(Vec::new(alloc)),
        Status::Syntax { place } => Ok(format!(in alloc; "syntax at {place}")?.into_bytes()),
        Status::Meaning { fault, place } => {
            let name = fault_name(*fault);
            Ok(format!(in alloc; "meaning {name} at {place}")?.into_bytes())
        }
        Status::Limit { kind, place } => limit_line(alloc, *kind, *place),
        Status::Usage => with_bytes(alloc, USAGE, b""),
        Status::ReadFault => with_bytes(alloc, "read fault", b""),
        Status::WriteFault => with_bytes(alloc, "write fault", b""),
        Status::Former { kind } => former_line(alloc, *kind),
        Status::Rejected { line } => {
            Ok(format!(in alloc; "rejected at line {line}")?.into_bytes())
        }
        Status::Broken { place, path } => broken_line(alloc, *place, path.as_bytes()),
        Status::Memory => with_bytes(alloc, "out of memory", b""),
        Status::Events { line } => Ok(format!(in alloc; "events at line {line}")?.into_bytes()),
    }
}
