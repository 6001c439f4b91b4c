//! From a model's tree to its table, its resolved expressions and its objects, each with its
//! refusals.
ghost use Rattle.std.specs.Prelude.{◌≡◌, ◌≤◌, length, IfOk, IfErr, OnOk};
ghost use Rattle.conf_limits.specs.Limits.{IsWithinMeasures};
ghost use Rattle.conf_syntax.specs.Trees.{program_tokens, nesting};
ghost use Rattle.conf_syntax.specs.Words.{AreWords};
ghost use Rattle.conf_syntax.specs.declared.tree.Program.{Program as AProgram};
ghost use Rattle.conf_types.specs.Typing.{IsTypedModel};
ghost use Rattle.model_limits.specs.Limits.{model_bytes, most_nesting};
ghost use Rattle.object_alloc.specs.Limits.{IsWithinLimits};
ghost use Rattle.model_reader.specs.Building.{IsDeclared, IsResolved};
ghost use Rattle.model_reader.specs.Meaning.{IsTyped};
ghost use Rattle.model_reader.specs.Models.{outline_of, constraints_of, goals_of, IsWithin};
ghost use Rattle.model_reader.specs.ModelRefusal.{IsRefusedFor};
ghost use Rattle.model_reader.specs.Ready.{IsReady};
ghost use Rattle.model_reader.specs.Refusing.{declared, expressed, allocated, measured};
ghost use Rattle.run_status.specs.Stages.{Denied};

use class_table::{ClassTable, TableFault};
use conf_limits::{LimitFault, limits};
use conf_syntax::Program;
use conf_types::{TypeFault, TypedModel, check};
use object_alloc::{AllocFault, Objects, allocate};
use run_status::{Fault, LimitKind, Status};
use std::alloc::Global;

/// The status of a fault of declarations.
fn declared(fault: TableFault) -> Status
    ensures { result ≡ declared fault }
{
    let (fault, place) = match fault {
        TableFault::Duplicate(place) => (Fault::Duplicate, place),
        TableFault::Unknown(place) => (Fault::Unknown, place),
        TableFault::NotAClass(place) => (Fault::NotAClass, place),
        TableFault::InheritCycle(place) => (Fault::InheritCycle, place),
        TableFault::ContainCycle(place) => (Fault::ContainCycle, place),
        TableFault::AbstractObject(place) => (Fault::AbstractObject, place),
        TableFault::EmptyRange(place) => (Fault::EmptyRange, place),
        TableFault::Memory => return Status::Memory,
    };
    Status::Meaning { fault, place }
}

/// The status of a fault of expressions.
fn expressed(fault: TypeFault) -> Status
    ensures { result ≡ expressed fault }
{
    let (fault, place) = match fault {
        TypeFault::Unknown(place) => (Fault::Unknown, place),
        TypeFault::WrongType(place) => (Fault::WrongType, place),
        TypeFault::NonLinear(place) => (Fault::NonLinear, place),
        TypeFault::Shadow(place) => (Fault::Shadow, place),
        TypeFault::Memory => return Status::Memory,
    };
    Status::Meaning { fault, place }
}

/// The status of objects and cells above a limit.
fn allocated(fault: AllocFault) -> Status
    ensures { result ≡ allocated fault }
{
    let kind = match fault {
        AllocFault::TooManyObjects => LimitKind::Objects,
        AllocFault::TooDeep => LimitKind::Depth,
        AllocFault::TooManyCells => LimitKind::Cells,
        AllocFault::Memory => return Status::Memory,
    };
    Status::Limit { kind, place: None }
}

/// The status of expressions above a limit.
fn measured(fault: LimitFault) -> Status
    ensures { result ≡ measured fault }
{
    let kind = match fault {
        LimitFault::TooHeavy => LimitKind::Weight,
        LimitFault::TooWide => LimitKind::Width,
    };
    Status::Limit { kind, place: None }
}

/// The table of a model.
///
/// # Errors
///
/// A fault of its declarations; or want of memory.
pub fn table_of(alloc: Global, program: &Program) -> Result<ClassTable, Status>
    requires tokens { length (program_tokens program.now) ≤ model_bytes }
    requires words { AreWords (program_tokens program.now) }
    ensures table { IfOk result (λ table. table ≡ outline_of program.now) }
    ensures declared { OnOk result (IsDeclared program.now) }
    ensures refused { IfErr result (λ s. Denied s (IsRefusedFor s program.now)) }
{
    match ClassTable::build(alloc, program) {
        Ok(table) => Ok(table),
        Err(fault) => Err(declared(fault)),
    }
}

/// The resolved constraints and objectives of a model with this table.
///
/// # Errors
///
/// A fault of its expressions; or want of memory.
pub fn typed_model(
    alloc: Global,
    program: &Program,
    table: &ClassTable,
) -> Result<TypedModel, Status>
    requires table { table.now ≡ outline_of program.now }
    requires declared { IsDeclared program.now }
    requires tokens { length (program_tokens program.now) ≤ model_bytes }
    requires nested { nesting program.now ≤ most_nesting }
    ensures resolved { IfOk result (λ m. IsResolved program.now table.now m.constraints m.goals) }
    ensures typed { IfOk result (λ m. IsTypedModel table.now m.constraints m.goals) }
    ensures few { IfOk result (λ m. length m.constraints ≤ model_bytes) }
    ensures refused { IfErr result (λ s. Denied s (IsRefusedFor s program.now)) }
{
    match check(alloc, program, table) {
        Ok(model) => Ok(model),
        Err(fault) => Err(expressed(fault)),
    }
}

/// The objects and cells of a model with this table.
#[tactic(auto, using(crate::proofs::ModelParts::not_allocated))]
fn laid_out<'t>(alloc: Global, table: &'t ClassTable) -> Result<Objects<'t>, Status>
    ensures objects { IfOk result (λ objects. objects ≡ table.now) }
    ensures limits { OnOk result (IsWithinLimits table.now) }
    ensures refused { IfErr result (λ s. (p : AProgram) → table.now ≡ outline_of p → IsTyped p
        → Denied s (IsRefusedFor s p)) }
{
    match allocate(alloc, table) {
        Ok(objects) => Ok(objects),
        Err(fault) => Err(allocated(fault)),
    }
}

/// Whether the expressions of a model are within the limits, or the status of the first that isn't.
#[tactic(auto, using(crate::proofs::ModelParts::not_measured))]
fn within(model: &TypedModel, objects: &Objects<'_>) -> Result<(), Status>
    requires typed { IsTypedModel objects.now model.now.constraints model.now.goals }
    ensures within { OnOk result
        (IsWithinMeasures objects.now model.now.constraints model.now.goals) }
    ensures refused { IfErr result (λ s. (p : AProgram) → objects.now ≡ outline_of p
        → model.now.constraints ≡ constraints_of p → model.now.goals ≡ goals_of p → IsTyped p
        → IsWithinLimits (outline_of p) → Denied s (IsRefusedFor s p)) }
{
    match limits(model, objects) {
        Ok(()) => Ok(()),
        Err(fault) => Err(measured(fault)),
    }
}

/// The objects and cells of a model with this table and these expressions, where it keeps all
/// limits.
///
/// # Errors
///
/// The first limit that it breaks; or want of memory.
pub fn objects_of<'t>(
    alloc: Global,
    table: &'t ClassTable,
    model: &TypedModel,
) -> Result<Objects<'t>, Status>
    requires typed { IsTypedModel table.now model.now.constraints model.now.goals }
    requires few { length model.now.constraints ≤ model_bytes }
    ensures objects { IfOk result (λ objects. objects ≡ table.now) }
    ensures ready { IfOk result (λ objects. IsReady table.now objects model.now.constraints
        model.now.goals) }
    ensures within { OnOk result ((p : AProgram)
        → IsResolved p table.now model.now.constraints model.now.goals → IsWithin p) }
    ensures refused { IfErr result (λ s. (p : AProgram)
        → IsResolved p table.now model.now.constraints model.now.goals
        → Denied s (IsRefusedFor s p)) }
{
    let objects = laid_out(alloc, table)?;
    if let Err(status) = within(model, &objects) {
        return Err(status);
    }
    Ok(objects)
}
