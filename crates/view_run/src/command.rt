//! A run: from words to what is printed.
ghost use Rattle.std.specs.Prelude.{◌≡◌, ◌↔◌, ℕ, List, None, map, string_bytes, IfErr, IfOk, IfSome, IsTrue};
ghost use Rattle.view_run.specs.Ending.{Ends, PlanEnds, PictureEnds, StepsEnds, IsAsked, IsDelivered, IsDenied, IsUndrawn, IsHandedOut, IsUnordered, IsSentOut};
ghost use Rattle.view_run.specs.Pictured.{IsDrawn};
ghost use Rattle.view_run.specs.Stepped.{IsOrdered};
ghost use Rattle.view_run.specs.Words.{asked, plan_seen, picture_seen, steps_seen, request_seen};
ghost use Rattle.view_run.specs.declared.status.Status.TheVariants.{Usage};

use crate::answer::{Plan, plan_between};
use crate::picture::picture_of;
use crate::request::{PictureRequest, PlanRequest, Request, StepsRequest, request_of};
use crate::source::source_json;
use crate::status::{Source, Status};
use crate::steps::steps_between;
use desk_io::{Desk, WriteError, print_all};
use std::alloc::Global;
use view_steps::Steps;

/// The plan that is asked for.
fn plan_asked<D: Desk>(
    alloc: Global,
    request: PlanRequest<'_>,
    desk: &mut D,
) -> Result<Plan, Status>
    requires may_read { (name : List ℕ) → IsTrue (D.may_read desk.old name) }
    ensures plan { IfOk result (λ plan. IsAsked (D.files desk.old) (plan_seen request.entry)
        plan.text.items plan.differs) }
    ensures refused { IfErr result (IsDenied (D.files desk.old) (plan_seen request.entry)
        (D.read_faults desk.old) (D.read_faults desk.new)) }
    ensures files { D.files desk.new ≡ D.files desk.old }
    ensures printed { D.printed desk.new ≡ D.printed desk.old }
    ensures write_faults { D.write_faults desk.new ≡ D.write_faults desk.old }
{
    let former = source_json(alloc, desk, request.former, Source::Former)?;
    let new = source_json(alloc, desk, request.new, Source::New)?;
    let plan = plan_between(alloc, &former, &new, request.options)?;
    Ok(plan)
}

/// Prints a text.
fn hand_out<D: Desk>(desk: &mut D, text: &[u8]) -> Status
    ensures handed_out { IsHandedOut text.now (D.printed desk.old) (D.printed desk.new)
        (D.write_faults desk.old) (D.write_faults desk.new) result }
    ensures files { D.files desk.new ≡ D.files desk.old }
    ensures read_faults { D.read_faults desk.new ≡ D.read_faults desk.old }
{
    match print_all(desk, text) {
        Ok(()) => Status::Shown,
        Err(WriteError::WriteFault) => Status::WriteFault,
        Err(WriteError::Memory) => Status::Memory,
    }
}

/// Prints a plan.
fn deliver<D: Desk>(desk: &mut D, plan: &Plan) -> Status
    ensures delivered { IsDelivered plan.now.text.items plan.now.differs (D.printed desk.old)
        (D.printed desk.new) (D.write_faults desk.old) (D.write_faults desk.new) result }
    ensures files { D.files desk.new ≡ D.files desk.old }
    ensures read_faults { D.read_faults desk.new ≡ D.read_faults desk.old }
{
    match hand_out(desk, &plan.text) {
        Status::Shown => {
            if plan.differs {
                Status::Differs
            } else {
                Status::Same
            }
        }
        other => other,
    }
}

/// Prints the plan that is asked for.
fn run_plan<D: Desk>(alloc: Global, request: PlanRequest<'_>, desk: &mut D) -> Status
    requires may_read { (name : List ℕ) → IsTrue (D.may_read desk.old name) }
    ensures ends { PlanEnds (D.files desk.old) (plan_seen request.entry) (record {
      printed = D.printed desk.old;
      printed_now = D.printed desk.new;
      reads = D.read_faults desk.old;
      reads_now = D.read_faults desk.new;
      writes = D.write_faults desk.old;
      writes_now = D.write_faults desk.new;
    }) result }
    ensures files { D.files desk.new ≡ D.files desk.old }
{
    match plan_asked(alloc, request, desk) {
        Ok(plan) => deliver(desk, &plan),
        Err(status) => status,
    }
}

/// The picture that is asked for.
fn picture_asked<D: Desk>(
    alloc: Global,
    request: PictureRequest<'_>,
    desk: &mut D,
) -> Result<Vec<u8>, Status>
    requires may_read { (name : List ℕ) → IsTrue (D.may_read desk.old name) }
    ensures picture { IfOk result (λ text. IsDrawn (D.files desk.old) (picture_seen request.entry)
        text.items) }
    ensures refused { IfErr result (IsUndrawn (D.files desk.old) (picture_seen request.entry)
        (D.read_faults desk.old) (D.read_faults desk.new)) }
    ensures files { D.files desk.new ≡ D.files desk.old }
    ensures printed { D.printed desk.new ≡ D.printed desk.old }
    ensures write_faults { D.write_faults desk.new ≡ D.write_faults desk.old }
{
    let whole = source_json(alloc, desk, request.config, Source::Config)?;
    let text = picture_of(alloc, &whole, request)?;
    Ok(text)
}

/// Prints the picture that is asked for.
fn run_picture<D: Desk>(alloc: Global, request: PictureRequest<'_>, desk: &mut D) -> Status
    requires may_read { (name : List ℕ) → IsTrue (D.may_read desk.old name) }
    ensures ends { PictureEnds (D.files desk.old) (picture_seen request.entry) (record {
      printed = D.printed desk.old;
      printed_now = D.printed desk.new;
      reads = D.read_faults desk.old;
      reads_now = D.read_faults desk.new;
      writes = D.write_faults desk.old;
      writes_now = D.write_faults desk.new;
    }) result }
    ensures files { D.files desk.new ≡ D.files desk.old }
{
    match picture_asked(alloc, request, desk) {
        Ok(text) => hand_out(desk, &text),
        Err(status) => status,
    }
}

/// The steps that are asked for.
fn steps_asked<D: Desk>(
    alloc: Global,
    request: StepsRequest<'_>,
    desk: &mut D,
) -> Result<Steps, Status>
    requires may_read { (name : List ℕ) → IsTrue (D.may_read desk.old name) }
    ensures steps { IfOk result (λ made. IsOrdered (D.files desk.old) (steps_seen request.entry)
        made.text.items made.stuck) }
    ensures refused { IfErr result (IsUnordered (D.files desk.old) (steps_seen request.entry)
        (D.read_faults desk.old) (D.read_faults desk.new)) }
    ensures files { D.files desk.new ≡ D.files desk.old }
    ensures printed { D.printed desk.new ≡ D.printed desk.old }
    ensures write_faults { D.write_faults desk.new ≡ D.write_faults desk.old }
{
    let former = source_json(alloc, desk, request.former, Source::Former)?;
    let new = source_json(alloc, desk, request.new, Source::New)?;
    steps_between(alloc, &former, &new, request)
}

/// Prints steps.
fn send_out<D: Desk>(desk: &mut D, steps: &Steps) -> Status
    ensures sent { IsSentOut steps.now.text.items steps.now.stuck (D.printed desk.old)
        (D.printed desk.new) (D.write_faults desk.old) (D.write_faults desk.new) result }
    ensures files { D.files desk.new ≡ D.files desk.old }
    ensures read_faults { D.read_faults desk.new ≡ D.read_faults desk.old }
{
    match hand_out(desk, &steps.text) {
        Status::Shown => {
            if steps.stuck {
                Status::Stuck
            } else {
                Status::Shown
            }
        }
        other => other,
    }
}

/// Prints the steps that are asked for.
fn run_steps<D: Desk>(alloc: Global, request: StepsRequest<'_>, desk: &mut D) -> Status
    requires may_read { (name : List ℕ) → IsTrue (D.may_read desk.old name) }
    ensures ends { StepsEnds (D.files desk.old) (steps_seen request.entry) (record {
      printed = D.printed desk.old;
      printed_now = D.printed desk.new;
      reads = D.read_faults desk.old;
      reads_now = D.read_faults desk.new;
      writes = D.write_faults desk.old;
      writes_now = D.write_faults desk.new;
    }) result }
    ensures files { D.files desk.new ≡ D.files desk.old }
{
    match steps_asked(alloc, request, desk) {
        Ok(steps) => send_out(desk, &steps),
        Err(status) => status,
    }
}

/// Does what is asked for.
fn run_request<D: Desk>(alloc: Global, request: Request<'_>, desk: &mut D) -> Status
    requires may_read { (name : List ℕ) → IsTrue (D.may_read desk.old name) }
    ensures ends { Ends (D.files desk.old) (request_seen request.entry) (record {
      printed = D.printed desk.old;
      printed_now = D.printed desk.new;
      reads = D.read_faults desk.old;
      reads_now = D.read_faults desk.new;
      writes = D.write_faults desk.old;
      writes_now = D.write_faults desk.new;
    }) result }
    ensures files { D.files desk.new ≡ D.files desk.old }
{
    match request {
        Request::Plan(plan) => run_plan(alloc, plan, desk),
        Request::Picture(picture) => run_picture(alloc, picture, desk),
        Request::Steps(steps) => run_steps(alloc, steps, desk),
    }
}

/// Does what the words behind the program's name ask for.
pub fn run<D: Desk>(alloc: Global, words: &[String], desk: &mut D) -> Status
    requires may_read { (name : List ℕ) → IsTrue (D.may_read desk.old name) }
    ensures usage { (result ≡ Usage) ↔ (asked (map string_bytes words.now) ≡ None) }
    ensures ends { IfSome (asked (map string_bytes words.now)) (λ a.
        Ends (D.files desk.old) a (record {
          printed = D.printed desk.old;
          printed_now = D.printed desk.new;
          reads = D.read_faults desk.old;
          reads_now = D.read_faults desk.new;
          writes = D.write_faults desk.old;
          writes_now = D.write_faults desk.new;
        }) result) }
    ensures files { D.files desk.new ≡ D.files desk.old }
{
    match request_of(words) {
        None => Status::Usage,
        Some(request) => run_request(alloc, request, desk),
    }
}
