ghost use Rattle.std.specs.Prelude.{◌≡◌, ◌⊎◌, ◌≤◌, ◌^◌, true, false, [], codes, Some, None, IfOk};
ghost use Rattle.s3_types.specs.Store.{Content};
ghost use Rattle.durable_store.specs.Stores.{fault_text};
ghost use Rattle.durable_store.specs.Works as works;
ghost use Rattle.durable_store.specs.Doing.{work_in};
ghost use Rattle.durable_store.specs.Outcomes.{IsSound};
ghost use Rattle.s3a_words.specs.Words.{IsBounded};
ghost use Rattle.s3a_shell.specs.Doings.{is_of_shell, only_looks};
ghost use Rattle.s3a_shell.specs.Texts.{refused_line};
ghost use Rattle.s3a_shell.specs.Commanded.{takes_input, plays, minimum_of, init_work, work_said, Done, DoneOn, IsWork};

use crate::{ShellEnd, only_looks, shell};
use durable_store::{CommandAnswer, ShelfState, Work, fault_text};
use exit_status::Status;
use s3_service::Service;
use s3_types::{Bytes, Journal, MOST_MINIMUM, let_go};
use s3a_words::{Command, CommandKind};
use std::alloc::{AllocError, Global};

/// True if the command reads the input: `put`, `put-force` and `put-drop`.
pub fn takes_input(command: &Command) -> bool
    ensures { result ≡ takes_input command.now }
{
    matches!(command.kind(), CommandKind::Puts)
}

/// True if the command runs jobs: `job`, `gen` and `twins`.
pub fn plays(command: &Command) -> bool
    ensures { result ≡ plays command.now }
{
    matches!(command.kind(), CommandKind::Plays)
}

/// The work that reports that the shelf holds no store.
fn faulty(alloc: Global, number: u8, place: u64) -> Result<Work, AllocError>
    ensures { IfOk result (λ work. work_in work ≡ works.Says Status.BadImage (Some (fault_text number place)) []) }
{
    Ok(Work::Says(CommandAnswer {
        due: Status::BadImage,
        text: Some(fault_text(alloc, number, place)?),
        sent: Journal::new(alloc),
    }))
}

/// The work that refuses `init` because a store exists.
fn exists(alloc: Global) -> Result<Work, AllocError>
    ensures { IfOk result (λ work.
        work_in work ≡ works.Says Status.Refused (Some (refused_line (codes "exists") None)) []) }
{
    Ok(Work::Says(CommandAnswer {
        due: Status::Refused,
        text: Some(Bytes::from_slice(alloc, b"refused exists\n")?),
        sent: Journal::new(alloc),
    }))
}

#[tactic(auto, unfolding(crate::specs::Commanded::init_work))]
fn init_work(alloc: Global, minimum: Option<u64>, held: ShelfState) -> Result<Work, AllocError>
    requires some { 1 ≤ minimum_of minimum }
    requires most { minimum_of minimum ≤ MOST_MINIMUM }
    ensures { IfOk result (λ work. work_in work ≡ init_work minimum held) }
{
    match held {
        ShelfState::Nothing => {
            let text = Bytes::empty(alloc)?;
            Ok(Work::Saves {
                opening: Service::new(alloc, minimum.unwrap_or(MOST_MINIMUM)),
                text,
                sent: Journal::new(alloc),
            })
        }
        ShelfState::Store(service) => {
            let_go(service);
            exists(alloc)
        }
        ShelfState::Faulty { number, place } => faulty(alloc, number, place),
    }
}

/// The work that says the text of a command that was refused or sent no change.
fn said(end: ShellEnd) -> Work
    requires same { (end.refused ≡ true) ⊎ (end.changed ≡ false) }
    ensures { (c : Content) → work_in result ≡ work_said end.refused end.changed c end.text end.journal.entries }
{
    let ShellEnd {
        service,
        changed: _,
        refused,
        text,
        journal,
    } = end;
    let_go(service);
    Work::Says(CommandAnswer {
        due: if refused {
            Status::Refused
        } else {
            Status::Done
        },
        text: Some(text),
        sent: journal,
    })
}

/// The work for the end of a command.
fn work_in(end: ShellEnd, opening: Service) -> Work
    ensures { work_in result ≡ work_said end.refused end.changed opening end.text end.journal.entries }
{
    if end.refused || !end.changed {
        let_go(opening);
        return said(end);
    }
    let ShellEnd {
        service,
        changed: _,
        refused: _,
        text,
        journal,
    } = end;
    let_go(service);
    Work::Saves {
        opening,
        text,
        sent: journal,
    }
}

/// Does a command that only looks on a store. It makes no copy of the store.
fn looked(
    alloc: Global,
    command: &Command,
    bytes: Bytes,
    service: Service,
) -> Result<Work, AllocError>
    requires one { is_of_shell command.now ≡ true }
    requires looks { only_looks command.now ≡ true }
    requires few { service.next ≤ 2 ^ 62 }
    ensures { IfOk result (λ work. Done command.now bytes service (work_in work)) }
{
    match shell(alloc, command, service, bytes) {
        Ok(end) => Ok(said(end)),
        Err(error) => Err(error),
    }
}

/// Does a command on a store. Unless it only looks, a copy of the opening store is kept for the
/// work.
fn done(
    alloc: Global,
    command: &Command,
    bytes: Bytes,
    service: Service,
) -> Result<Work, AllocError>
    requires one { is_of_shell command.now ≡ true }
    requires few { service.next ≤ 2 ^ 62 }
    ensures { IfOk result (λ work. Done command.now bytes service (work_in work)) }
{
    if only_looks(command) {
        return looked(alloc, command, bytes, service);
    }
    let Ok(opening) = service.copy() else {
        let_go(service);
        return Err(AllocError);
    };
    match shell(alloc, command, service, bytes) {
        Ok(end) => Ok(work_in(end, opening)),
        Err(error) => {
            let_go(opening);
            Err(error)
        }
    }
}

/// Does a command on what is held.
fn done_on(
    alloc: Global,
    command: &Command,
    bytes: Bytes,
    held: ShelfState,
) -> Result<Work, AllocError>
    requires one { is_of_shell command.now ≡ true }
    requires sound { IsSound held }
    ensures { IfOk result (λ work. DoneOn command.now bytes held (work_in work)) }
{
    match held {
        ShelfState::Nothing => done(alloc, command, bytes, Service::new(alloc, MOST_MINIMUM)),
        ShelfState::Store(service) => done(alloc, command, bytes, service),
        ShelfState::Faulty { number, place } => {
            let_go(bytes);
            faulty(alloc, number, place)
        }
    }
}

/// The work of a command other than `job`, `gen` and `twins`, on what the shelf was found to hold;
/// `bytes` are the command's input.
///
/// - `init` stores a new store if nothing is held, and is refused otherwise.
/// - The others are done on the store that is held, or on a new one if none is.
/// - If the command is refused or sends no change, its text is to be written. Otherwise the store
///   is to be stored as it was, and then what was sent to it.
/// - If what is held is no store, its first fault is reported.
///
/// Fails with `AllocError` only if memory runs out.
pub fn work_of(
    alloc: Global,
    command: &Command,
    bytes: Bytes,
    held: ShelfState,
) -> Result<Work, AllocError>
    requires no_job { plays command.now ≡ false }
    requires fit { IsBounded command.now }
    requires sound { IsSound held }
    ensures work { IfOk result (λ work. IsWork command.now bytes held (work_in work)) }
    ensures plain { IfOk result (λ work. works.IsPlain (work_in work)) }
{
    match command {
        Command::Init { minimum } => {
            let_go(bytes);
            init_work(alloc, *minimum, held)
        }
        _ => done_on(alloc, command, bytes, held),
    }
}
