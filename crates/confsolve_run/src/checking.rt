//! `check`: what a log shows of a model, or of a repair of it.
ghost use Rattle.std.specs.Prelude.{◌≡◌, ◌≤◌, None, true, IfOk, IfErr, IfSome, OnOk, IsTrue, option_copied};
ghost use Rattle.desk_io.specs.Desk.{OfFile};
ghost use Rattle.ground_form.specs.WellMade.{IsWellMade};
ghost use Rattle.log_check.specs.Fed.{IsLogOf};
ghost use Rattle.log_check.specs.Soundness.{Means, FoundSolves};
ghost use Rattle.log_check.specs.Kinds.{shown_of};
ghost use Rattle.model_search.specs.Findings.{Tells};
ghost use Rattle.model_search.specs.Problems.{IsProblemOf};
ghost use Rattle.model_search.specs.Wanted.{IsUnderstood};
ghost use Rattle.proof_log.specs.Rounds.{empty};
ghost use Rattle.run_promise.specs.Answer.{IsChecked, checked_status};
ghost use Rattle.answer_text.specs.Texts.{check_text};
ghost use Rattle.confsolve_run.specs.Checking.{IsShownBy, file_status};
ghost use Rattle.model_reader.specs.Ready.{IsReady};
ghost use Rattle.run_promise.specs.Recorded.{HasChecked};
ghost use Rattle.run_promise.specs.Refusal.{IsUnfit, IsUnchecked};
ghost use Rattle.run_status.specs.Stages.{Answered, stage_of};
ghost use Rattle.round_commands.specs.Statuses.{is_of_log};
ghost use Rattle.round_commands.specs.Unreadable.{Unreadable};

use answer_text::check_text;
use command_limits::LOG_BYTES;
use conf_request::FileName;
use desk_io::Desk;
use ground_form::Ground;
use log_check::{CheckError, Checker, Verdict};
use log_file::{FileCheck, check_file};
use model_reader::Built;
use model_search::{Finding, Question, finding_of, problem_of};
use proof_log::Journal;
use reconfigure::Repair;
use round_commands::{Answer, question_of};
use run_status::{LimitKind, Status};
use std::alloc::{AllocError, Global};

/// The status of what a log tells.
fn status_of(told: &Finding) -> Status
    ensures { result ≡ checked_status told.now }
{
    match told {
        Finding::Best(_) | Finding::Open(_) => Status::Done,
        Finding::NoneExists => Status::NoneExists,
    }
}

/// The status of a log's file that wasn't taken in.
fn refused_file(error: FileCheck) -> Status
    ensures { result ≡ file_status error }
{
    match error {
        FileCheck::ReadFault => Status::ReadFault,
        FileCheck::TooLong => Status::Limit {
            kind: LimitKind::Log,
            place: None,
        },
        FileCheck::Rejected(line) => Status::Rejected { line },
        FileCheck::Memory => Status::Memory,
    }
}

/// The verdict of the log in this file.
fn file_verdict<D: Desk>(
    alloc: Global,
    desk: &mut D,
    file: &FileName,
    g: &Ground,
) -> Result<Verdict, Status>
    requires may_read { IsTrue (D.may_read desk.old file.now) }
    requires well_made { IsWellMade g.now }
    ensures log { IfOk result (λ v. OfFile (D.files desk.old) file.now
        (λ bytes. IsLogOf g.now bytes v)) }
    ensures sound { IfOk result (λ v. Means g.now (shown_of v)) }
    ensures found { IfOk result (λ v. FoundSolves g.now v.found) }
    ensures refused { IfErr result (λ s. Unreadable (D.read_faults desk.old)
        (D.read_faults desk.new) s (OfFile (D.files desk.old) file.now
        (λ bytes. IsUnfit bytes s g.now))) }
    ensures files { D.files desk.new ≡ D.files desk.old }
    ensures printed { D.printed desk.new ≡ D.printed desk.old }
    ensures read_faults { D.read_faults desk.old ≤ D.read_faults desk.new }
    ensures write_faults { D.write_faults desk.new ≡ D.write_faults desk.old }
    ensures may_write { D.may_write desk.new ≡ D.may_write desk.old }
{
    let mut checker = Checker::new(alloc, g)?;
    match check_file(alloc, desk, file.as_str(), LOG_BYTES, &mut checker) {
        Ok(()) => {}
        Err(error) => return Err(refused_file(error)),
    }
    match checker.finish() {
        Ok(verdict) => Ok(verdict),
        Err(CheckError::Rejected(line)) => Err(Status::Rejected { line }),
        Err(CheckError::Memory) => Err(Status::Memory),
    }
}

/// What the log in this file tells of a model with this ground problem.
fn told_by<D: Desk>(
    alloc: Global,
    desk: &mut D,
    file: &FileName,
    question: Question<'_>,
    g: &Ground,
) -> Result<Finding, Status>
    requires may_read { IsTrue (D.may_read desk.old file.now) }
    requires problem { IsProblemOf question.objects.now question.model.now.constraints
        question.model.now.goals (option_copied question.repair) g.now }
    ensures told { IfOk result (λ told. OfFile (D.files desk.old) file.now
        (λ bytes. IsShownBy g.now bytes told)) }
    ensures tells { IfOk result (λ told. Tells question.entry.objects.now
        question.entry.model.now.constraints question.entry.model.now.goals
        (option_copied question.entry.repair) told) }
    ensures refused { IfErr result (λ s. Unreadable (D.read_faults desk.old)
        (D.read_faults desk.new) s (OfFile (D.files desk.old) file.now
        (λ bytes. IsUnfit bytes s g.now))) }
    ensures files { D.files desk.new ≡ D.files desk.old }
    ensures printed { D.printed desk.new ≡ D.printed desk.old }
    ensures read_faults { D.read_faults desk.old ≤ D.read_faults desk.new }
    ensures write_faults { D.write_faults desk.new ≡ D.write_faults desk.old }
    ensures may_write { D.may_write desk.new ≡ D.may_write desk.old }
{
    let verdict = file_verdict(alloc, desk, file, g)?;
    let told = finding_of(alloc, question, g, &verdict)?;
    Ok(told)
}

/// The answer that a log tells this.
fn answer_of(
    alloc: Global,
    built: Built<'_>,
    repair: Option<&Repair>,
    told: &Finding,
) -> Result<Answer, AllocError>
    requires ready { IsReady built.table.now built.objects.now built.model.now.constraints
        built.model.now.goals }
    requires understood { IfSome (option_copied repair) (IsUnderstood built.objects.now) }
    requires tells { Tells built.objects.now built.model.now.constraints built.model.now.goals
        (option_copied repair) told.now }
    ensures status { IfOk result (λ a. a.status ≡ checked_status told.now) }
    ensures stage { IfOk result (λ a. stage_of a.status ≡ Answered) }
    ensures text { IfOk result (λ a. a.text.items
        ≡ check_text built.entry.objects.now built.entry.model.now.goals
        (option_copied repair.entry) told.now) }
    ensures log { IfOk result (λ a. a.log ≡ None) }
{
    let text = check_text(alloc, built, repair, told)?;
    Ok(Answer {
        status: status_of(told),
        text,
        log: None,
    })
}

/// The answer to `check` with the log in this file, of the model or of a repair of it. The journal
/// then holds the ground problem, also where the log is refused.
pub(crate) fn check<D: Desk>(
    alloc: Global,
    desk: &mut D,
    file: &FileName,
    built: Built<'_>,
    repair: Option<&Repair>,
    journal: &mut Journal,
) -> Result<Answer, Status>
    requires may_read { IsTrue (D.may_read desk.old file.now) }
    requires ready { IsReady built.table.now built.objects.now built.model.now.constraints
        built.model.now.goals }
    requires understood { IfSome (option_copied repair) (IsUnderstood built.objects.now) }
    requires empty { journal.old ≡ empty }
    ensures answer { IfOk result (λ a. OfFile (D.files desk.old) file.now
        (λ bytes. IsChecked built.entry.objects.now built.entry.model.now.constraints
        built.entry.model.now.goals (option_copied repair.entry) bytes journal.new a.status
        a.text.items)) }
    ensures recorded { OnOk result (HasChecked journal.new) }
    ensures stage { IfOk result (λ a. stage_of a.status ≡ Answered) }
    ensures log { IfOk result (λ a. a.log ≡ None) }
    ensures refused { IfErr result (λ s. Unreadable (D.read_faults desk.old)
        (D.read_faults desk.new) s (OfFile (D.files desk.old) file.now
        (λ bytes. IsUnchecked built.entry.objects.now built.entry.model.now.constraints
        built.entry.model.now.goals (option_copied repair.entry) journal.new bytes s))) }
    ensures problem { IfErr result (λ s. is_of_log s ≡ true → HasChecked journal.new) }
    ensures lines { journal.new.lines ≡ journal.old.lines }
    ensures rounds { journal.new.rounds ≡ journal.old.rounds }
    ensures files { D.files desk.new ≡ D.files desk.old }
    ensures printed { D.printed desk.new ≡ D.printed desk.old }
    ensures read_faults { D.read_faults desk.old ≤ D.read_faults desk.new }
    ensures write_faults { D.write_faults desk.new ≡ D.write_faults desk.old }
    ensures may_write { D.may_write desk.new ≡ D.may_write desk.old }
{
    let question = question_of(built, repair);
    let g = problem_of(alloc, question)?;
    let told = told_by(alloc, desk, file, question, &g);
    journal.keep(g);
    match told {
        Ok(told) => Ok(answer_of(alloc, built, repair, &told)?),
        Err(status) => Err(status),
    }
}
