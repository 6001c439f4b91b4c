//! From words to what is printed: `run` reads the words, and then the text of the model that they
//! name.
ghost use Rattle.std.specs.Prelude.{map, ◌≡◌, ◌↔◌, ◌⊎◌, List, [], None, Some, true, false, IsTrue, IfSome, ℕ};
ghost use Rattle.conf_request.specs.Words.{request, model_file, IsLawful};
ghost use Rattle.conf_request.specs.declared.request.Request.{Request as ARequest};
ghost use Rattle.desk_io.specs.Desk.{with_printed};
ghost use Rattle.desk_io.specs.Fault.{HasRisen};
ghost use Rattle.proof_log.specs.Rounds.{empty};
ghost use Rattle.run_status.specs.declared.status.Status.{Status as AStatus};
ghost use Rattle.run_promise.specs.Answer.{IsAnswer, IsAnswerSearched};
ghost use Rattle.run_promise.specs.Asking.{Reads, Writes, IsFurther, OfRequest, OfText, closes_rounds, leaves_journal, log_file, text_of};
ghost use Rattle.run_promise.specs.Delivery.{outside, IsLogged, IsLogFront, IsBrokenOff};
ghost use Rattle.round_commands.specs.Ending.{RunEnds, trace};
ghost use Rattle.run_promise.specs.Recorded.{AreRoundsFor, AreLinesFor, KeepsProblem, IsRecorded};
ghost use Rattle.run_promise.specs.Refusal.{IsReason, IsStanding};
ghost use Rattle.run_status.specs.Stages.{Refused, Answered, stage_of, is_silent, is_partial, IsSettled, IsUnless};

use crate::answering::run_text;
use crate::source::text_of;
use branch_choice::Chooser;
use conf_request::{Request, request_of};
use desk_io::Desk;
use proof_log::Journal;
use round_commands::Resources;
use rule_law::Kit;
use run_status::Status;
use std::alloc::Global;

/// Answers a request.
fn run_request<D: Desk>(
    with: Resources<'_>,
    desk: &mut D,
    request: &Request,
    kit: &mut Kit,
    journal: &mut Journal,
) -> Status
    requires may_read { (name : List ℕ) → model_file request.now ≡ Some name
        → IsTrue (D.may_read desk.old name) }
    requires may_read_more { (name : List ℕ) → IsFurther request.now name
        → IsTrue (D.may_read desk.old name) }
    requires may_write { (name : List ℕ) → log_file request.now ≡ Some name
        → IsTrue (D.may_write desk.old name) }
    requires lawful { IsLawful request.now }
    requires empty { journal.old ≡ empty }
    ensures ends { RunEnds (trace request.now (map (λ c. c.order) with.entry.choosers.now)
        journal.new
        (outside (D.files desk.old) (D.printed desk.old))
        (outside (D.files desk.new) (D.printed desk.new))
        (D.read_faults desk.old) (D.read_faults desk.new) (D.write_faults desk.old)
        (D.write_faults desk.new)) result }
    ensures stands { (text : List ℕ) (s : AStatus)
        → text_of (D.files desk.old) request.now ≡ Some text → IsStanding text s
        → IsUnless s result }
    ensures rounds { closes_rounds request.now ≡ false → journal.new.rounds ≡ journal.old.rounds }
    ensures kept { leaves_journal request.now ≡ true → journal.new ≡ journal.old }
    ensures lines { AreLinesFor (map (λ c. c.order) with.entry.choosers.now) request.now
        journal.new.lines }
    ensures problem { KeepsProblem request.now result journal.new }
{
    match text_of(with.alloc, desk, request) {
        Ok(text) => run_text(with, desk, &text, request, kit, journal),
        Err(status) => status,
    }
}

/// Runs the command that the words behind the program's name are. The journal, in which nothing
/// stands yet, then holds the ground problem of the model that was searched or whose log was
/// checked, and of a search the lines that it wrote. `choosers` are those of the orders first,
/// small and former.
#[tactic(auto, using(crate::proofs::PresentRound::lost_lines, crate::proofs::PresentRound::lost_problem))]
pub fn run<D: Desk>(
    alloc: Global,
    words: &[String],
    desk: &mut D,
    kit: &mut Kit,
    choosers: &[Chooser; 3],
    journal: &mut Journal,
) -> Status
    requires may_read { (name : List ℕ) → Reads words.now name → IsTrue (D.may_read desk.old name) }
    requires may_write { (name : List ℕ) → Writes words.now name
        → IsTrue (D.may_write desk.old name) }
    requires empty { journal.old ≡ empty }

    ensures usage { (result ≡ Status.Usage) ↔ (request words.now ≡ None) }

    // the answer to what the words ask was printed, and nothing else
    ensures answer { stage_of result ≡ Answered → OfRequest (D.files desk.old) words.now
        (λ r asked p. (text : List ℕ)
        × IsAnswer (map (λ c. c.order) choosers.now) journal.new asked p result text
        × (D.printed desk.new ≡ with_printed text (D.printed desk.old))) }
    // the journal holds what the answer rests on, also where no files are told
    ensures recorded { stage_of result ≡ Answered → IfSome (request words.now)
        (λ r. IsRecorded (map (λ c. c.order) choosers.now) r result journal.new) }
    // the log that they ask for was written, and no other file has changed
    ensures log { stage_of result ≡ Answered → IfSome (request words.now)
        (λ r. IsLogged r journal.new (D.files desk.old) (D.files desk.new)) }

    // a refusal says what is so, and nothing was printed or written
    ensures refused { stage_of result ≡ Refused → IfSome (request words.now)
        (λ r. OfText (D.files desk.old) r
        (λ text. IsReason (D.files desk.old) r journal.new text result)) }
    ensures silent { is_silent (stage_of result) ≡ true → D.printed desk.new ≡ D.printed desk.old }
    ensures files { is_silent (stage_of result) ≡ true → D.files desk.new ≡ D.files desk.old }

    // writing broke off within the log or the text of an answer; of a session the rounds are those
    // of the events that were answered, and all answers but the last were printed whole
    ensures write_fault { result ≡ Status.WriteFault → OfRequest (D.files desk.old) words.now
        (IsBrokenOff (map (λ c. c.order) choosers.now) journal.new
        (outside (D.files desk.old) (D.printed desk.old))
        (outside (D.files desk.new) (D.printed desk.new))) }
    // want of memory came before writing and before a round was closed; or the same is so; or it
    // came among the searches for what to blame, before writing
    ensures memory { result ≡ Status.Memory
        → ((outside (D.files desk.new) (D.printed desk.new)
        ≡ outside (D.files desk.old) (D.printed desk.old)) × (journal.new.rounds ≡ []))
        ⊎ (OfRequest (D.files desk.old) words.now
        (IsBrokenOff (map (λ c. c.order) choosers.now) journal.new
        (outside (D.files desk.old) (D.printed desk.old))
        (outside (D.files desk.new) (D.printed desk.new)))
        ⊎ ((outside (D.files desk.new) (D.printed desk.new)
        ≡ outside (D.files desk.old) (D.printed desk.old))
        × OfRequest (D.files desk.old) words.now
        (λ r asked p. IsAnswerSearched journal.new asked p))) }
    // of a session and of `core` the rounds are then runs, also where no files are told
    ensures rounds_kept { result ≡ Status.Memory → IfSome (request words.now)
        (λ r. AreRoundsFor r journal.new.rounds) }

    // the journal holds what the answer rests on, and the log's file a front of the log
    ensures kept { result ≡ Status.WriteFault → IfSome (request words.now)
        (λ r. (s : AStatus) × IsRecorded (map (λ c. c.order) choosers.now) r s journal.new) }
    ensures log_front { is_partial (stage_of result) ≡ true → IfSome (request words.now)
        (λ r. IsLogFront r journal.new (D.files desk.old) (D.files desk.new)) }

    // a refusal that stands in the model's text is answered
    ensures stands { (r : ARequest) (text : List ℕ) (s : AStatus) → request words.now ≡ Some r
        → text_of (D.files desk.old) r ≡ Some text → IsStanding text s → IsUnless s result }
    // where no fault came, a request is answered, refused, or there was no memory
    ensures complete { (r : ARequest) → request words.now ≡ Some r
        → (HasRisen (D.read_faults desk.old) (D.read_faults desk.new) → ⊥)
        → (HasRisen (D.write_faults desk.old) (D.write_faults desk.new) → ⊥)
        → IsSettled (stage_of result) }

    ensures unread { result ≡ Status.ReadFault
        → HasRisen (D.read_faults desk.old) (D.read_faults desk.new) }
    ensures unwritten { result ≡ Status.WriteFault
        → HasRisen (D.write_faults desk.old) (D.write_faults desk.new) }
    // no command but a session and `core` has rounds
    ensures rounds { IfSome (request words.now) (λ r. closes_rounds r ≡ false
        → journal.new.rounds ≡ journal.old.rounds) }
    // the lines of the present round are a run, however it ends
    ensures lines { IfSome (request words.now)
        (λ r. AreLinesFor (map (λ c. c.order) choosers.now) r journal.new.lines) }
    // where the log of `check` is refused, the journal has the problem that it was checked against
    ensures problem { IfSome (request words.now) (λ r. KeepsProblem r result journal.new) }
    // `verify` has nothing in the journal, however it ends
    ensures untouched { IfSome (request words.now) (λ r. leaves_journal r ≡ true
        → journal.new ≡ journal.old) }
{
    let with = Resources { alloc, choosers };
    match request_of(alloc, words) {
        Ok(Some(request)) => run_request(with, desk, &request, kit, journal),
        Ok(None) => Status::Usage,
        Err(_) => Status::Memory,
    }
}
