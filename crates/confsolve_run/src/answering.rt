//! From a model's text and a request to what is printed.
//!
//! `run_text` is the entry: it reads the text's model, builds it, answers what is asked of it,
//! and delivers the answer.
ghost use Rattle.std.specs.Prelude.{map, ◌≡◌, ◌⊎◌, ◌≤◌, IsTrue, List, [], Some, true, false, length, is_some, option_copied, IfOk, IfErr, OnOk, OnErr, ℕ};
ghost use Rattle.std.specs.Option.{option_map};
ghost use Rattle.conf_request.specs.Words.{IsLawful};
ghost use Rattle.conf_syntax.specs.Trees.{program_tokens, nesting};
ghost use Rattle.conf_syntax.specs.Words.{AreWords};
ghost use Rattle.model_limits.specs.Limits.{model_bytes, most_nesting};
ghost use Rattle.proof_log.specs.Rounds.{empty};
ghost use Rattle.run_status.specs.declared.status.Status.{Status as AStatus};
ghost use Rattle.run_promise.specs.Answer.{IsModelAnswer, IsModelSearched};
ghost use Rattle.run_promise.specs.Asking.{IsFurther, OfAsked, closes_rounds, leaves_journal, log_file};
ghost use Rattle.run_promise.specs.Delivery.{outside};
ghost use Rattle.round_commands.specs.Ending.{Ends, EndsModel, trace};
ghost use Rattle.round_commands.specs.Holding.{ForModel};
ghost use Rattle.model_reader.specs.Ready.{IsReady};
ghost use Rattle.run_promise.specs.Recorded.{AreRoundsFor, AreLinesFor, KeepsProblem, IsRecorded};
ghost use Rattle.run_promise.specs.Refusal.{IsDenied};
ghost use Rattle.model_reader.specs.ModelRefusal.{IsTextRefused};
ghost use Rattle.run_status.specs.Stages.{Answered, stage_of, IsUnless};
ghost use Rattle.round_commands.specs.Unreadable.{Unreadable};
ghost use Rattle.round_commands.specs.Told.{IsToldLog};
ghost use Rattle.confsolve_run.specs.Requests.{is_session};

use crate::checking::check;
use crate::delivering::deliver;
use crate::verifying::verify;
use conf_request::{FileName, OrderName, Request};
use conf_syntax::Program;
use desk_io::{Desk, WriteError};
use model_reader::{Built, objects_of, read_model, table_of, typed_model};
use proof_log::Journal;
use round_commands::{
    Answer, Resources, SearchWish, SessionWish, blame_model, generated, hold_model, repair_of,
    solve,
};
use rule_law::Kit;
use run_status::Status;
use std::alloc::Global;

/// The file that a request wants its log in.
fn log_file(request: &Request) -> Option<&FileName>
    ensures { option_copied result ≡ log_file request.now }
{
    match request {
        Request::Solve { log, .. } | Request::Reconfigure { log, .. } => log.as_ref(),
        _ => None,
    }
}

/// What is wanted of a search that a request asks for.
fn wanted(budget: u32, order: OrderName, log: &Option<FileName>) -> SearchWish
    ensures budget { result.budget ≡ budget }
    ensures order { result.order ≡ order }
    ensures logged { result.logged ≡ is_some log.now }
{
    SearchWish {
        budget,
        order,
        logged: log.is_some(),
    }
}

/// The answer to what is asked of a model that is within the limits.
#[tactic(auto, using(crate::proofs::PresentRound::other_problem))]
fn asked<D: Desk>(
    with: Resources<'_>,
    desk: &mut D,
    request: &Request,
    built: Built<'_>,
    kit: &mut Kit,
    journal: &mut Journal,
) -> Result<Answer, Status>
    requires may_read { (name : List ℕ) → IsFurther request.now name
        → IsTrue (D.may_read desk.old name) }
    requires ready { IsReady built.table.now built.objects.now built.model.now.constraints
        built.model.now.goals }
    requires other { is_session request.now ≡ false }
    requires lawful { IsLawful request.now }
    requires empty { journal.old ≡ empty }
    ensures stage { IfOk result (λ a. stage_of a.status ≡ Answered) }
    ensures answer { IfOk result (λ a. OfAsked (D.files desk.old) request.now
        (λ asked. IsModelAnswer built.entry.objects.now built.entry.model.now.constraints
        built.entry.model.now.goals (map (λ c. c.order) with.entry.choosers.now) journal.new asked
        a.status
        a.text.items)) }
    ensures recorded { IfOk result (λ a. IsRecorded (map (λ c. c.order) with.entry.choosers.now)
        request.now
        a.status journal.new) }
    ensures log { IfOk result (λ a. IsToldLog (is_some (log_file request.now)) journal.new
        (option_map (λ text. text.items) a.log)) }
    ensures refused { IfErr result (λ s. Unreadable (D.read_faults desk.old)
        (D.read_faults desk.new) s (IsDenied (D.files desk.old) request.now journal.new s
        built.entry.objects.now built.entry.model.now.constraints
        built.entry.model.now.goals)) }
    ensures lines { AreLinesFor (map (λ c. c.order) with.entry.choosers.now) request.now
        journal.new.lines }
    ensures problem { IfErr result (λ s. KeepsProblem request.now s journal.new) }
    ensures cut { OnErr result ((journal.new.rounds ≡ [])
        ⊎ (AreRoundsFor request.now journal.new.rounds
        × OfAsked (D.files desk.old) request.now (λ asked. IsModelSearched built.entry.objects.now
        built.entry.model.now.constraints journal.new asked))) }
    ensures rounds { closes_rounds request.now ≡ false → journal.new.rounds ≡ journal.old.rounds }
    ensures kept { leaves_journal request.now ≡ true → journal.new ≡ journal.old }
    ensures files { D.files desk.new ≡ D.files desk.old }
    ensures printed { D.printed desk.new ≡ D.printed desk.old }
    ensures read_faults { D.read_faults desk.old ≤ D.read_faults desk.new }
    ensures write_faults { D.write_faults desk.new ≡ D.write_faults desk.old }
    ensures may_write { D.may_write desk.new ≡ D.may_write desk.old }
{
    match request {
        Request::Solve {
            budget,
            order,
            log,
            ..
        } => {
            let wanted = wanted(*budget, *order, log);
            Ok(solve(with, built, None, wanted, kit, journal)?)
        }
        Request::Reconfigure {
            former,
            failed,
            budget,
            order,
            log,
            ..
        } => {
            let repair = repair_of(with.alloc, desk, former, failed.items(), built)?;
            let wanted = wanted(*budget, *order, log);
            Ok(solve(with, built, Some(&repair), wanted, kit, journal)?)
        }
        Request::Gen { n } => Ok(generated(with, built, *n, kit, journal)?),
        Request::Check {
            log,
            former,
            failed,
            ..
        } => match former {
            None => check(with.alloc, desk, log, built, None, journal),
            Some(file) => {
                let repair = repair_of(with.alloc, desk, file, failed.items(), built)?;
                check(with.alloc, desk, log, built, Some(&repair), journal)
            }
        },
        Request::Verify { config, .. } => verify(with.alloc, desk, config, built),
        Request::Core { budget, order, .. } => {
            Ok(blame_model(with, built, *budget, *order, kit, journal)?)
        }
        Request::Session { .. } => unreachable!(),
    }
}

/// Answers what is asked of a model that is within the limits.
#[tactic(auto, using(crate::proofs::PresentRound::answered_problem, crate::proofs::PresentRound::other_problem))]
fn answer_built<D: Desk>(
    with: Resources<'_>,
    desk: &mut D,
    request: &Request,
    built: Built<'_>,
    kit: &mut Kit,
    journal: &mut Journal,
) -> Status
    requires may_read { (name : List ℕ) → IsFurther request.now name
        → IsTrue (D.may_read desk.old name) }
    requires may_write { (name : List ℕ) → log_file request.now ≡ Some name
        → IsTrue (D.may_write desk.old name) }
    requires ready { IsReady built.table.now built.objects.now built.model.now.constraints
        built.model.now.goals }
    requires lawful { IsLawful request.now }
    requires empty { journal.old ≡ empty }
    ensures ends { ForModel built.entry.objects.now built.entry.model.now.constraints
        built.entry.model.now.goals (λ p. EndsModel (trace request.now
        (map (λ c. c.order) with.entry.choosers.now) journal.new
        (outside (D.files desk.old) (D.printed desk.old))
        (outside (D.files desk.new) (D.printed desk.new))
        (D.read_faults desk.old) (D.read_faults desk.new) (D.write_faults desk.old)
        (D.write_faults desk.new)) p result) }
    ensures rounds { closes_rounds request.now ≡ false → journal.new.rounds ≡ journal.old.rounds }
    ensures kept { leaves_journal request.now ≡ true → journal.new ≡ journal.old }
    ensures lines { AreLinesFor (map (λ c. c.order) with.entry.choosers.now) request.now
        journal.new.lines }
    ensures problem { KeepsProblem request.now result journal.new }
{
    if let Request::Session {
        former,
        events,
        budget,
        order,
        ..
    } = request
    {
        let wish = SessionWish {
            former,
            events,
            budget: *budget,
            order: *order,
        };
        return hold_model(with, desk, wish, built, kit, journal);
    }
    let answer = match asked(with, desk, request, built, kit, journal) {
        Ok(answer) => answer,
        Err(status) => return status,
    };
    match deliver(desk, log_file(request), &answer) {
        Ok(()) => answer.status,
        Err(WriteError::WriteFault) => Status::WriteFault,
        Err(WriteError::Memory) => Status::Memory,
    }
}

/// Answers a model: its table, its resolved expressions and its objects are made once, whatever is
/// asked of it.
fn answer_model<D: Desk>(
    with: Resources<'_>,
    desk: &mut D,
    program: &Program,
    request: &Request,
    kit: &mut Kit,
    journal: &mut Journal,
) -> Status
    requires words { AreWords (program_tokens program.now) }
    requires nested { nesting program.now ≤ most_nesting }
    requires few { length (program_tokens program.now) ≤ model_bytes }
    requires may_read { (name : List ℕ) → IsFurther request.now name
        → IsTrue (D.may_read desk.old name) }
    requires may_write { (name : List ℕ) → log_file request.now ≡ Some name
        → IsTrue (D.may_write desk.old name) }
    requires lawful { IsLawful request.now }
    requires empty { journal.old ≡ empty }
    ensures ends { EndsModel (trace request.now (map (λ c. c.order) with.entry.choosers.now)
        journal.new
        (outside (D.files desk.old) (D.printed desk.old))
        (outside (D.files desk.new) (D.printed desk.new))
        (D.read_faults desk.old) (D.read_faults desk.new) (D.write_faults desk.old)
        (D.write_faults desk.new)) program.now result }
    ensures rounds { closes_rounds request.now ≡ false → journal.new.rounds ≡ journal.old.rounds }
    ensures kept { leaves_journal request.now ≡ true → journal.new ≡ journal.old }
    ensures lines { AreLinesFor (map (λ c. c.order) with.entry.choosers.now) request.now
        journal.new.lines }
    ensures problem { KeepsProblem request.now result journal.new }
{
    let table = match table_of(with.alloc, program) {
        Ok(table) => table,
        Err(status) => return status,
    };
    let model = match typed_model(with.alloc, program, &table) {
        Ok(model) => model,
        Err(status) => return status,
    };
    let objects = match objects_of(with.alloc, &table, &model) {
        Ok(objects) => objects,
        Err(status) => return status,
    };
    let built = Built {
        table: &table,
        model: &model,
        objects: &objects,
    };
    answer_built(with, desk, request, built, kit, journal)
}

/// Answers what is asked of the model that a text of at most `MODEL_BYTES` bytes is, or names what
/// keeps it from being one.
pub(crate) fn run_text<D: Desk>(
    with: Resources<'_>,
    desk: &mut D,
    text: &[u8],
    request: &Request,
    kit: &mut Kit,
    journal: &mut Journal,
) -> Status
    requires short { length text.now ≤ model_bytes }
    requires may_read { (name : List ℕ) → IsFurther request.now name
        → IsTrue (D.may_read desk.old name) }
    requires may_write { (name : List ℕ) → log_file request.now ≡ Some name
        → IsTrue (D.may_write desk.old name) }
    requires lawful { IsLawful request.now }
    requires empty { journal.old ≡ empty }
    ensures ends { Ends (trace request.now (map (λ c. c.order) with.entry.choosers.now) journal.new
        (outside (D.files desk.old) (D.printed desk.old))
        (outside (D.files desk.new) (D.printed desk.new))
        (D.read_faults desk.old) (D.read_faults desk.new) (D.write_faults desk.old)
        (D.write_faults desk.new)) text.now result }
    ensures stands { (s : AStatus) → IsTextRefused text.now s → IsUnless s result }
    ensures rounds { closes_rounds request.now ≡ false → journal.new.rounds ≡ journal.old.rounds }
    ensures kept { leaves_journal request.now ≡ true → journal.new ≡ journal.old }
    ensures lines { AreLinesFor (map (λ c. c.order) with.entry.choosers.now) request.now
        journal.new.lines }
    ensures problem { KeepsProblem request.now result journal.new }
{
    match read_model(with.alloc, text) {
        Ok(program) => answer_model(with, desk, &program, request, kit, journal),
        Err(status) => status,
    }
}
