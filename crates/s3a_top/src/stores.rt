ghost use Rattle.std.specs.Prelude.{◌≡◌, ◌<◌, ◌^◌, ◌-◌, true, false, IfOk, IfErr};
ghost use Rattle.durable_store.specs.Outcomes.{IsSound};
ghost use Rattle.s3a_shell.specs.Commanded.{takes_input, plays};
ghost use Rattle.s3a_top.specs.Openings.{is_sound};
ghost use Rattle.s3a_top.specs.inner.Reads.{CountsReads};
ghost use Rattle.s3a_top.specs.Commands.{reads_input, IsInput};
ghost use Rattle.s3a_top.specs.inner.Workings.{MayDo, Counted, HasReasonIn, StoreSince};

use crate::asked::Asked;
use crate::input::{InputFault, read_input};
use crate::stop::Stop;
use crate::work::{Work, quiet};
use devices::Source;
use devices::kept::Shelf;
use durable_store::{ShelfState, obey};
use s3_types::{Bytes, let_go};
use s3a_shell::{takes_input, work_of};
use s3a_words::Command;
use std::alloc::Global;

/// True if the command reads its input, given what was found on the shelf.
fn reads_input(command: &Command, held: &ShelfState) -> bool
    ensures exact { result ≡ reads_input command.now held.now }
    ensures takes { result ≡ true → takes_input command.now ≡ true }
    ensures sound { result ≡ true → is_sound held.now }
{
    match held {
        ShelfState::Faulty { .. } => false,
        _ => takes_input(command),
    }
}

/// The command's input, or no bytes if the command does not read it.
pub fn read_bytes<Q: Source>(
    alloc: Global,
    input: &mut Q,
    command: &Command,
    held: &ShelfState,
) -> Result<Bytes, Stop>
    requires { Q.faults input.old < 2 ^ 64 - 1 }
    ensures read { IfOk result (λ bytes. IsInput (reads_input command.now held.now) (Q.left input.old)
        (Q.left input.new) bytes) }
    ensures stop { IfErr result (λ stop. HasReasonIn stop command.now held.now (Q.left input.old) (Q.left input.new)) }
    ensures unread { takes_input command.now ≡ false → input.new ≡ input.old }
    ensures counted { CountsReads result (Q.faults input.old) (Q.faults input.new) }
{
    if !reads_input(command, held) {
        return match Bytes::empty(alloc) {
            Ok(bytes) => Ok(bytes),
            Err(_) => Err(Stop::NoMemory),
        };
    }
    match read_input(alloc, input) {
        Ok(bytes) => match Bytes::new(alloc, bytes) {
            Ok(bytes) => Ok(bytes),
            Err(_) => Err(Stop::NoMemory),
        },
        Err(InputFault::Failed) => Err(Stop::ReadFault),
        Err(InputFault::NoMemory) => Err(Stop::NoMemory),
    }
}

/// Does a command that runs no job on what was found on the shelf, with the input if the command
/// has one. If it fails, the shelf was not called.
pub fn commanded<Q: Source, F: Shelf>(
    input: &mut Q,
    shelf: &mut F,
    asked: Asked<'_>,
    held: ShelfState,
) -> Result<Work, Stop>
    requires ready { MayDo (Q.faults input.old) (F.faults shelf.old) asked.command.now }
    requires no_job { plays asked.command.now ≡ false }
    requires sound { IsSound held }
    ensures store { StoreSince F.sight asked.entry.command.now held (Q.left input.old) (Q.left input.new)
        shelf.old shelf.new result }
    ensures counted { Counted result (Q.faults input.old) (Q.faults input.new) (F.faults shelf.old)
        (F.faults shelf.new) }
    ensures unread { takes_input asked.entry.command.now ≡ false → input.new ≡ input.old }
{
    let bytes = match read_bytes(asked.alloc, input, asked.command, &held) {
        Ok(bytes) => bytes,
        Err(stop) => {
            let_go(held);
            return Err(stop);
        }
    };
    match work_of(asked.alloc, asked.command, bytes, held) {
        Ok(work) => Ok(quiet(asked.alloc, obey(asked.alloc, shelf, work))),
        Err(_) => Err(Stop::NoMemory),
    }
}
