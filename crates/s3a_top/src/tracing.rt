ghost use Rattle.std.specs.Prelude.{◌≡◌, ℕ, ◌<◌, ◌≤◌, ◌^◌, ◌-◌, true, false, None, Some, Option, IfOk};
ghost use Rattle.devices.specs.Logged.{Stored};
ghost use Rattle.durable_store.specs.Doing.{work_in};
ghost use Rattle.durable_store.specs.Outcomes.{IsSound};
ghost use Rattle.durable_store.specs.Works as works;
ghost use Rattle.exit_status.specs.Statuses.{code};
ghost use Rattle.job_model.specs.JobScript as scripts;
ghost use Rattle.job_world.specs.Worlds.{MayBegin};
ghost use Rattle.s3_types.specs.Moment.{IsHonest};
ghost use Rattle.s3_types.specs.Store.{Content};
ghost use Rattle.s3a_words.specs.Words.{IsBounded, Reads};
ghost use Rattle.s3a_shell.specs.Commanded.{plays, takes_input};
ghost use Rattle.trace_text.specs.DryRuns.{IsDryRun};
ghost use Rattle.trace_text.specs.Trace as traces;
ghost use Rattle.twin_script.specs.TwinScripts.{Twins};
ghost use Rattle.s3a_top.specs.Commands.{may_read};
ghost use Rattle.s3a_top.specs.Openings.{IsFound};
ghost use Rattle.s3a_top.specs.inner.Plays.{IsFinal, IsVerdict};
ghost use Rattle.s3a_top.specs.inner.Traces.{Shows};
ghost use Rattle.s3a_top.specs.Traces.{asks_trace, if_traceable, store_in, traced_in};
ghost use Rattle.s3a_top.specs.Traces.{shown_sends as sends_in};
ghost use Rattle.s3a_top.specs.inner.Tracings.{AnswerShown, IsShownOf, JobShows, RunShown, StoreShows, Traces};
ghost use Rattle.s3a_top.specs.inner.Workings.{Counted, MayDo};
ghost use Rattle.s3a_top.specs.inner.Works.{IsWritten};

use crate::asked::Asked;
use crate::jobs::{opened, status_of};
use crate::script::jobs_for;
use crate::stop::{Stop, answered, stopped};
use crate::stores::read_bytes;
use crate::work::{Work, quiet};
use devices::Source;
use devices::kept::Shelf;
use durable_job::{Jobs, Told};
use durable_store::{CommandAnswer, ShelfState, Work as Doing, load};
use exit_status::Status;
use job_model::{EndList, PickList, Script};
use job_operations::Act;
use s3_service::Service;
use s3_types::{Bytes, Journal, MOST_MINIMUM, Text, let_go};
use s3a_shell::{plays, work_of};
use s3a_words::{Command, WordFault, read_words};
use std::alloc::{AllocError, Global};
use trace_text::{DryRun, dry_run, requests_text};

// ---- the words

/// True if the words ask for a trace.
pub fn asks_trace(words: &[Text]) -> bool
    ensures { result ≡ asks_trace words.now }
{
    match words.get(1) {
        Some(word) => word.as_str() == "trace",
        None => false,
    }
}

/// True if the command can be traced: any but `init` and `twins`.
fn is_traceable(command: &Command) -> bool
    ensures can { result ≡ true → if_traceable command.now ≡ Some command.now }
    ensures single { result ≡ true → command.now ≡ Command.Twins → ⊥ }
    ensures cannot { result ≡ false → if_traceable command.now ≡ None }
{
    match command {
        Command::Init { .. } => false,
        Command::Twins => false,
        _ => true,
    }
}

/// The same command, or `Usage` if it cannot be traced.
fn if_traceable(command: Command) -> Result<Command, WordFault>
    ensures same { IfOk result (λ traced. traced ≡ command) }
    ensures single { IfOk result (λ traced. traced ≡ Command.Twins → ⊥) }
    ensures exact { Reads (if_traceable command) result }
{
    if is_traceable(&command) {
        Ok(command)
    } else {
        let_go(command);
        Err(WordFault::Usage)
    }
}

/// Reads the command after the word `trace`. Fails with `Usage` if there is none or it cannot be
/// traced.
fn read_traced(alloc: Global, words: &[Text]) -> Result<Command, WordFault>
    requires { asks_trace words.now ≡ true }
    ensures exact { Reads (traced_in words.now) result }
    ensures bounded { IfOk result IsBounded }
    ensures single { IfOk result (λ command. command ≡ Command.Twins → ⊥) }
{
    let (_, behind) = words.split_at(1);
    match read_words(alloc, behind) {
        Ok(command) => if_traceable(command),
        Err(fault) => Err(fault),
    }
}

// ---- a job

/// The script of a job that runs alone.
fn script_alone(jobs: Jobs) -> Script
    requires { (t : Twins) → jobs ≡ Jobs.Two t → ⊥ }
    ensures { jobs ≡ Jobs.One result }
{
    match jobs {
        Jobs::One(script) => script,
        Jobs::Two(_) => unreachable!(),
    }
}

/// The work that shows a run.
fn shown_run(alloc: Global, run: DryRun) -> Result<Work, AllocError>
    requires { IsFinal run.status }
    ensures shown { (w : scripts.Script) (c : Content) → IsDryRun w c run → IfOk result (RunShown w c) }
    ensures which { IfOk result (λ work. IsVerdict work.answer.due) }
{
    let DryRun {
        script,
        journal,
        picks,
        ends,
        status,
        text,
    } = run;
    let_go(script);
    match Bytes::new(alloc, text.into_bytes()) {
        Ok(text) => Ok(Work {
            answer: CommandAnswer {
                due: status_of(status),
                text: Some(text),
                sent: journal,
            },
            told: Told {
                picks,
                ends,
                second_picks: PickList::new(alloc),
                second_ends: EndList::new(alloc),
            },
        }),
        Err(error) => {
            let_go(journal);
            let_go(picks);
            let_go(ends);
            Err(error)
        }
    }
}

/// Runs a job over a store and shows the run.
fn show_job(alloc: Global, script: Script, service: Service) -> Result<Work, AllocError>
    requires { MayBegin service }
    ensures shown { IfOk result (RunShown script service) }
    ensures which { IfOk result (λ work. IsVerdict work.answer.due) }
{
    match dry_run::<Act>(alloc, script, service) {
        Ok(made) => shown_run(alloc, made),
        Err(error) => Err(error),
    }
}

/// Runs the job of a command over what was found on the shelf, and shows the run.
fn trace_job<Q: Source>(input: &mut Q, asked: Asked<'_>, held: ShelfState) -> Result<Work, Stop>
    requires count { Q.faults input.old < 2 ^ 64 - 1 }
    requires fit { IsBounded asked.command.now }
    requires one { plays asked.command.now ≡ true }
    requires single { asked.command.now ≡ Command.Twins → ⊥ }
    requires sound { IsSound held }
    ensures shows { (told : Option Stored) → IsFound told held
        → JobShows asked.entry.command.now told (Q.left input.old) (Q.left input.new) result }
    ensures counted { (n : ℕ) → Counted result (Q.faults input.old) (Q.faults input.new) n n }
    ensures unread { may_read (Some asked.entry.command.now) ≡ false → input.new ≡ input.old }
{
    if let ShelfState::Faulty { number, place } = held {
        return Err(Stop::Image { number, place });
    }
    let jobs = match jobs_for(asked.alloc, input, asked.command) {
        Ok(jobs) => jobs,
        Err(stop) => {
            let_go(held);
            return Err(stop);
        }
    };
    let service = match opened(asked.alloc, held, &jobs) {
        Ok(service) => service,
        Err(_) => {
            let_go(jobs);
            return Err(Stop::NoMemory);
        }
    };
    match show_job(asked.alloc, script_alone(jobs), service) {
        Ok(work) => Ok(work),
        Err(_) => Err(Stop::NoMemory),
    }
}

// ---- another command

/// A copy of the store on which a command is done, or a new store if none is held.
fn store_of(alloc: Global, held: &ShelfState) -> Result<Service, AllocError>
    ensures { IfOk result (λ service. service ≡ store_in held.now) }
{
    match held {
        ShelfState::Store(service) => service.copy(),
        _ => Ok(Service::new(alloc, MOST_MINIMUM)),
    }
}

/// The answer that shows the requests that a command sent.
fn shown_sends(alloc: Global, opening: Service, sent: Journal) -> Result<CommandAnswer, AllocError>
    requires next { opening.next ≤ 2 ^ 62 }
    requires honest { IsHonest opening sent.entries }
    ensures due { IfOk result (λ answer. answer.due ≡ Status.Done) }
    ensures sent { IfOk result (λ answer. answer.sent ≡ sent) }
    ensures said { IfOk result (λ answer. IsWritten answer (traces.requests_text opening sent.entries)) }
{
    let Ok(text) = requests_text(alloc, opening, &sent) else {
        let_go(sent);
        return Err(AllocError);
    };
    match Bytes::new(alloc, text.into_bytes()) {
        Ok(text) => Ok(CommandAnswer {
            due: Status::Done,
            text: Some(text),
            sent,
        }),
        Err(error) => {
            let_go(sent);
            Err(error)
        }
    }
}

/// The answer that shows the requests that a command sent. If the command did not end with `Done`,
/// its own answer.
fn shown_answer(
    alloc: Global,
    opening: Service,
    answer: CommandAnswer,
) -> Result<CommandAnswer, AllocError>
    requires next { opening.next ≤ 2 ^ 62 }
    requires honest { IsHonest opening answer.sent.entries }
    ensures { (before : ShelfState) → store_in before ≡ opening
        → IfOk result (IsShownOf before (works.Says answer.due answer.text answer.sent.entries)) }
{
    match answer.due {
        Status::Done => {
            let CommandAnswer { due: _, text, sent } = answer;
            let_go(text);
            shown_sends(alloc, opening, sent)
        }
        _ => {
            let_go(opening);
            Ok(answer)
        }
    }
}

/// The answer that shows the requests of a command's work. If the command did not end with `Done`,
/// its own answer.
fn shown_work(alloc: Global, opening: Service, work: Doing) -> Result<CommandAnswer, AllocError>
    requires next { opening.next ≤ 2 ^ 62 }
    requires honest { IsHonest opening (sends_in (work_in work)) }
    ensures { (before : ShelfState) → store_in before ≡ opening → IfOk result (IsShownOf before (work_in work)) }
{
    match work {
        Doing::Says(answer) => shown_answer(alloc, opening, answer),
        Doing::Saves {
            opening: saved,
            text,
            sent,
        } => {
            let_go(saved);
            let_go(text);
            shown_sends(alloc, opening, sent)
        }
    }
}

/// Does a command that runs no job on what is held, and shows what it sent.
fn show_store(
    alloc: Global,
    command: &Command,
    bytes: Bytes,
    held: ShelfState,
) -> Result<CommandAnswer, AllocError>
    requires no_job { plays command.now ≡ false }
    requires fit { IsBounded command.now }
    requires sound { IsSound held }
    ensures { IfOk result (AnswerShown command.now bytes held) }
{
    let opening = match store_of(alloc, &held) {
        Ok(opening) => opening,
        Err(error) => {
            let_go(bytes);
            let_go(held);
            return Err(error);
        }
    };
    match work_of(alloc, command, bytes, held) {
        Ok(work) => shown_work(alloc, opening, work),
        Err(error) => {
            let_go(opening);
            Err(error)
        }
    }
}

/// Does a command that runs no job on what was found on the shelf, with its input if it has one,
/// and shows what it sent.
fn trace_store<Q: Source>(input: &mut Q, asked: Asked<'_>, held: ShelfState) -> Result<Work, Stop>
    requires count { Q.faults input.old < 2 ^ 64 - 1 }
    requires fit { IsBounded asked.command.now }
    requires no_job { plays asked.command.now ≡ false }
    requires sound { IsSound held }
    ensures shows { (told : Option Stored) → IsFound told held
        → StoreShows asked.entry.command.now told (Q.left input.old) (Q.left input.new) result }
    ensures counted { (n : ℕ) → Counted result (Q.faults input.old) (Q.faults input.new) n n }
    ensures unread { takes_input asked.entry.command.now ≡ false → input.new ≡ input.old }
{
    let bytes = match read_bytes(asked.alloc, input, asked.command, &held) {
        Ok(bytes) => bytes,
        Err(stop) => {
            let_go(held);
            return Err(stop);
        }
    };
    match show_store(asked.alloc, asked.command, bytes, held) {
        Ok(answer) => Ok(quiet(asked.alloc, answer)),
        Err(_) => Err(Stop::NoMemory),
    }
}

// ---- a command

/// Shows what a command would send over what the shelf holds. The shelf is called only to load it.
fn trace_command<Q: Source, F: Shelf>(
    input: &mut Q,
    shelf: &mut F,
    asked: Asked<'_>,
) -> Result<Work, Stop>
    requires ready { MayDo (Q.faults input.old) (F.faults shelf.old) asked.command.now }
    requires single { asked.command.now ≡ Command.Twins → ⊥ }
    ensures traces { Traces F.sight asked.entry.command.now (Q.left input.old) (Q.left input.new)
        shelf.old shelf.new result }
    ensures counted { Counted result (Q.faults input.old) (Q.faults input.new) (F.faults shelf.old)
        (F.faults shelf.new) }
    ensures unread { may_read (Some asked.entry.command.now) ≡ false → input.new ≡ input.old }
{
    let held = match load(asked.alloc, shelf) {
        Ok(held) => held,
        Err(stop) => return Err(Stop::of_shelf(stop)),
    };
    if plays(asked.command) {
        trace_job(input, asked, held)
    } else {
        trace_store(input, asked, held)
    }
}

/// Shows what the command after the word `trace` would send.
pub fn traced<Q: Source, F: Shelf>(
    alloc: Global,
    words: &[Text],
    input: &mut Q,
    shelf: &mut F,
) -> Work
    requires asks { asks_trace words.now ≡ true }
    requires source_count { Q.faults input.old < 2 ^ 64 - 1 }
    requires shelf_count { F.faults shelf.old < 2 ^ 64 - 1 }
    ensures shows { Shows F.sight (traced_in words.now) (Q.left input.old) (Q.left input.new) shelf.old shelf.new
        (Q.faults input.old) (Q.faults input.new) (F.faults shelf.old) (F.faults shelf.new) (code result.answer.due)
        result.answer.sent.entries result.told (IsWritten result.answer) }
    ensures unread { may_read (traced_in words.now) ≡ false → input.new ≡ input.old }
{
    match read_traced(alloc, words) {
        Ok(command) => {
            let asked = Asked {
                alloc,
                command: &command,
            };
            let done = trace_command(input, shelf, asked);
            let_go(command);
            answered(alloc, done)
        }
        Err(WordFault::Usage) => stopped(alloc, Stop::Usage),
        Err(WordFault::NoMemory) => stopped(alloc, Stop::NoMemory),
    }
}
