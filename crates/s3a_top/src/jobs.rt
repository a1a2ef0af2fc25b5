ghost use Rattle.std.specs.Prelude.{◌≡◌, ◌<◌, ◌^◌, length, true, false, Some, IfOk, OnOk};
ghost use Rattle.s3_types.specs.Answer.{apply_store};
ghost use Rattle.store_image.specs.Content.{IsContent};
ghost use Rattle.exit_status.specs.Statuses.{code, written_text};
ghost use Rattle.durable_store.specs.Outcomes.{IsSound};
ghost use Rattle.durable_job.specs.Jobs.{dest_of};
ghost use Rattle.s3a_shell.specs.Commanded.{plays};
ghost use Rattle.s3a_top.specs.Openings.{opening_in, is_sound, IsFound};
ghost use Rattle.s3a_top.specs.Jobs.{one_text, both_text, job_text};
ghost use Rattle.s3a_top.specs.Commands.{may_read};
ghost use Rattle.s3a_top.specs.inner.Plays.{IsFinal, IsVerdict, IsOfStop, IsReported, IsTold, JobSince};
ghost use Rattle.s3a_top.specs.inner.Workings.{MayDo, Counted};

use crate::asked::Asked;
use crate::script::jobs_for;
use crate::stop::Stop;
use crate::work::Work;
use devices::Source;
use devices::kept::{Shelf, ShelfStop};
use durable_job::{Jobs, Kept, Told, play};
use durable_store::{CommandAnswer, ShelfState};
use exit_status::Status;
use job_gen::summary_text;
use job_model::Script;
use job_operations::Act;
use job_report::{SideReport, report_text, twins_report};
use s3_service::Service;
use s3_types::{Bytes, MOST_MINIMUM, Request, let_go};
use s3a_words::Command;
use std::alloc::{AllocError, Global};
use twin_script::Twins;

/// Sends the request that makes the destination's bucket, and ignores the reply.
fn make_bucket(service: &mut Service, jobs: &Jobs) -> Result<(), AllocError>
    requires { service.old.next < 2 ^ 63 }
    ensures { OnOk result (service.new ≡ apply_store service.old (Request.MakeBucket (dest_of jobs.now).bucket)) }
{
    let request = Request::make_bucket(jobs.dest().bucket().as_text())?;
    let answered = service.apply(&request);
    let_go(request);
    match answered {
        Ok(reply) => {
            let_go(reply);
            Ok(())
        }
        Err(error) => Err(error),
    }
}

/// Makes a new store that has the destination's bucket.
fn new_store(alloc: Global, jobs: &Jobs) -> Result<Service, AllocError>
    ensures opening { IfOk result (λ service. opening_in ShelfState.Nothing jobs.now ≡ Some service) }
    ensures image { IfOk result IsContent }
{
    let mut service = Service::new(alloc, MOST_MINIMUM);
    match make_bucket(&mut service, jobs) {
        Ok(()) => Ok(service),
        Err(error) => {
            let_go(service);
            Err(error)
        }
    }
}

/// The status with this number, which is 0, 1, 8 or 9.
pub fn status_of(verdict: u8) -> Status
    requires { IsFinal verdict }
    ensures which { IsVerdict result }
    ensures code { code result ≡ verdict }
{
    match verdict {
        0 => Status::Done,
        8 => Status::StoreFault,
        9 => Status::NoMemory,
        _ => Status::Refused,
    }
}

/// The text for one job that ran to its end: its report, or the summary if `gen` made the script.
fn one_text(
    alloc: Global,
    command: &Command,
    due: u8,
    sent: usize,
    told: &Told,
    script: &Script,
) -> Result<Bytes, AllocError>
    ensures { IfOk result (λ text. text ≡ one_text command.now due sent told.now script.now) }
{
    match command {
        Command::Gen { tasks, files, .. } => {
            let text = summary_text(alloc, *tasks, *files, due, sent, &told.picks, script)?;
            Bytes::new(alloc, text.into_bytes())
        }
        _ => report_text(alloc, due, sent, &told.picks, &told.ends, script),
    }
}

/// The report of two jobs that ran to the end of their order.
fn both_text(
    alloc: Global,
    due: u8,
    sent: usize,
    told: &Told,
    twins: &Twins,
) -> Result<Bytes, AllocError>
    ensures { IfOk result (λ text. text ≡ both_text due sent told.now twins.now) }
{
    let first = SideReport {
        script: &twins.first,
        ends: &told.ends,
        picks: &told.picks,
    };
    let second = SideReport {
        script: &twins.second,
        ends: &told.second_ends,
        picks: &told.second_picks,
    };
    twins_report(alloc, due, sent, &twins.order, first, second)
}

/// The text for jobs that ran to their end.
fn text_of(alloc: Global, command: &Command, kept: &Kept) -> Result<Bytes, AllocError>
    ensures { IfOk result (λ text. text ≡ job_text command.now kept.now.verdict (length kept.now.journal.entries)
        kept.now.told kept.now.jobs) }
{
    let sent = kept.journal.len();
    match &kept.jobs {
        Jobs::One(script) => one_text(alloc, command, kept.verdict, sent, &kept.told, script),
        Jobs::Two(twins) => both_text(alloc, kept.verdict, sent, &kept.told, twins),
    }
}

/// The status and the text for jobs that ran to their end, or `NoMemory` if memory runs out for the
/// text.
fn reported(alloc: Global, command: &Command, kept: &Kept) -> (Status, Option<Bytes>)
    requires { IsFinal kept.now.verdict }
    ensures which { IsVerdict result.0 }
    ensures said { IsReported command.now kept.now (code result.0) (written_text result.0 result.1) }
{
    match text_of(alloc, command, kept) {
        Ok(text) => (status_of(kept.verdict), Some(text)),
        Err(_) => (Status::NoMemory, None),
    }
}

/// The status and the text for jobs that ran, according to why they stopped.
fn told(alloc: Global, command: &Command, kept: &Kept) -> (Status, Option<Bytes>)
    requires { IsFinal kept.now.verdict }
    ensures which { IsOfStop kept.now.stop result.0 }
    ensures said { IsTold kept.now.stop command.now kept.now (code result.0) (written_text result.0 result.1) }
{
    match kept.stop {
        None => reported(alloc, command, kept),
        Some(ShelfStop::Failed) => (Status::ShelfFault, None),
        Some(ShelfStop::NoMemory) => (Status::NoMemory, None),
    }
}

/// The work that answers jobs that ran.
fn answered(alloc: Global, command: &Command, kept: Kept) -> Work
    requires { IsFinal kept.verdict }
    ensures sent { result.answer.sent ≡ kept.journal }
    ensures told { result.told ≡ kept.told }
    ensures which { IsOfStop kept.stop result.answer.due }
    ensures said { IsTold kept.stop command.now kept (code result.answer.due)
        (written_text result.answer.due result.answer.text) }
{
    let (due, text) = told(alloc, command, &kept);
    let Kept {
        jobs,
        service,
        journal,
        told,
        ..
    } = kept;
    let_go(jobs);
    let_go(service);
    Work {
        answer: CommandAnswer {
            due,
            text,
            sent: journal,
        },
        told,
    }
}

/// The store with which jobs open: the one that the shelf holds, or a new one with their bucket.
pub fn opened(alloc: Global, held: ShelfState, jobs: &Jobs) -> Result<Service, AllocError>
    requires some { is_sound held }
    requires sound { IsSound held }
    ensures opening { IfOk result (λ service. opening_in held jobs.now ≡ Some service) }
    ensures image { IfOk result IsContent }
{
    match held {
        ShelfState::Nothing => new_store(alloc, jobs),
        ShelfState::Store(service) => Ok(service),
        ShelfState::Faulty { .. } => unreachable!(),
    }
}

/// Runs the jobs of the command `job`, `twins` or `gen` over what was found on the shelf.
pub fn job<Q: Source, F: Shelf>(
    input: &mut Q,
    shelf: &mut F,
    asked: Asked<'_>,
    held: ShelfState,
) -> Result<Work, Stop>
    requires ready { MayDo (Q.faults input.old) (F.faults shelf.old) asked.command.now }
    requires one { plays asked.command.now ≡ true }
    requires found { IsFound (F.sight.held shelf.old) held }
    requires sound { IsSound held }
    ensures job { JobSince F.sight asked.entry.command.now (Q.left input.old) (Q.left input.new)
        shelf.old shelf.new result }
    ensures counted { Counted result (Q.faults input.old) (Q.faults input.new) (F.faults shelf.old)
        (F.faults shelf.new) }
    ensures unread { may_read (Some asked.entry.command.now) ≡ false → input.new ≡ input.old }
{
    if let ShelfState::Faulty { number, place } = held {
        return Err(Stop::Image { number, place });
    }
    let jobs = match jobs_for(asked.alloc, input, asked.command) {
        Ok(jobs) => jobs,
        Err(stop) => {
            let_go(held);
            return Err(stop);
        }
    };
    let service = match opened(asked.alloc, held, &jobs) {
        Ok(service) => service,
        Err(_) => {
            let_go(jobs);
            return Err(Stop::NoMemory);
        }
    };
    match play::<Act, F>(asked.alloc, shelf, jobs, service) {
        Ok(kept) => Ok(answered(asked.alloc, asked.command, kept)),
        Err(stop) => Err(Stop::of_shelf(stop)),
    }
}
