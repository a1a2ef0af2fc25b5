ghost use Rattle.std.specs.Prelude.{◌≡◌, ◌≢◌, ◌⊎◌, ◌<◌, ◌^◌, ◌-◌, true, false, Some, None};
ghost use Rattle.exit_status.specs.Statuses.{code, written_text};
ghost use Rattle.durable_store.specs.Outcomes.{Tells};
ghost use Rattle.s3a_words.specs.Words.{command_of};
ghost use Rattle.s3a_words.specs.declared.command.Command as words_said;
ghost use Rattle.durable_job.specs.Jobs.{nothing_told};
ghost use Rattle.s3a_shell.specs.Commanded.{plays};
ghost use Rattle.s3a_top.specs.Statuses.{IsDue, Writes};
ghost use Rattle.s3a_top.specs.Jobs.{JobPlayed, JobStopped};
ghost use Rattle.s3a_top.specs.Commands.{may_read, NoCommand, StoreStopped, StoreDone};
ghost use Rattle.s3a_top.specs.Traces.{IsLoaded, JobTraced, StoreTraced, asks_trace, named_command, traced_command, traced_in};
ghost use Rattle.s3a_top.specs.inner.Traces.{Shows};
ghost use Rattle.s3a_top.specs.inner.Works.{IsWritten};
ghost use Rattle.s3a_top.specs.inner.Workings.{MayDo, Counted, Goes, Comes};

use crate::asked::Asked;
use crate::jobs::job;
use crate::output::write_output;
use crate::report::Report;
use crate::stop::{Stop, answered, stopped};
use crate::stores::commanded;
use crate::tracing::{asks_trace, traced};
use crate::work::Work;
use devices::kept::Shelf;
use devices::{Sink, Source};
use durable_store::load;
use exit_status::Status;
use s3_types::{Text, let_go};
use s3a_shell::plays;
use s3a_words::{Command, WordFault, read_words};
use std::alloc::Global;

/// Loads the shelf and does a command on what it holds.
fn do_command<Q: Source, F: Shelf>(
    input: &mut Q,
    shelf: &mut F,
    asked: Asked<'_>,
) -> Result<Work, Stop>
    requires { MayDo (Q.faults input.old) (F.faults shelf.old) asked.command.now }
    ensures goes { Goes F.sight asked.entry.command.now (Q.left input.old) (Q.left input.new)
        shelf.old shelf.new result }
    ensures counted { Counted result (Q.faults input.old) (Q.faults input.new) (F.faults shelf.old)
        (F.faults shelf.new) }
    ensures unread { may_read (Some asked.entry.command.now) ≡ false → input.new ≡ input.old }
{
    let held = match load(asked.alloc, shelf) {
        Ok(held) => held,
        Err(stop) => return Err(Stop::of_shelf(stop)),
    };
    if plays(asked.command) {
        job(input, shelf, asked, held)
    } else {
        commanded(input, shelf, asked, held)
    }
}

/// Does the command that the words name.
fn do_words<Q: Source, F: Shelf>(
    alloc: Global,
    words: &[Text],
    input: &mut Q,
    shelf: &mut F,
) -> Work
    requires source_count { Q.faults input.old < 2 ^ 64 - 1 }
    requires shelf_count { F.faults shelf.old < 2 ^ 64 - 1 }
    ensures comes { Comes F.sight (command_of words.now) (Q.left input.old) (Q.left input.new) shelf.old shelf.new
        (Q.faults input.old) (Q.faults input.new) (F.faults shelf.old) (F.faults shelf.new) (code result.answer.due)
        result.answer.sent.entries result.told (IsWritten result.answer) }
    ensures unread { may_read (command_of words.now) ≡ false → input.new ≡ input.old }
{
    match read_words(alloc, words) {
        Ok(command) => {
            let asked = Asked {
                alloc,
                command: &command,
            };
            let done = do_command(input, shelf, asked);
            let_go(command);
            answered(alloc, done)
        }
        Err(WordFault::Usage) => stopped(alloc, Stop::Usage),
        Err(WordFault::NoMemory) => stopped(alloc, Stop::NoMemory),
    }
}

/// Does the command that the words name, or shows its requests if the words ask for a trace.
fn worked<Q: Source, F: Shelf>(alloc: Global, words: &[Text], input: &mut Q, shelf: &mut F) -> Work
    requires source_count { Q.faults input.old < 2 ^ 64 - 1 }
    requires shelf_count { F.faults shelf.old < 2 ^ 64 - 1 }
    ensures comes { asks_trace words.now ≡ false
        → Comes F.sight (command_of words.now) (Q.left input.old) (Q.left input.new) shelf.old shelf.new
        (Q.faults input.old) (Q.faults input.new) (F.faults shelf.old) (F.faults shelf.new) (code result.answer.due)
        result.answer.sent.entries result.told (IsWritten result.answer) }
    ensures shows { asks_trace words.now ≡ true
        → Shows F.sight (traced_in words.now) (Q.left input.old) (Q.left input.new) shelf.old shelf.new
        (Q.faults input.old) (Q.faults input.new) (F.faults shelf.old) (F.faults shelf.new) (code result.answer.due)
        result.answer.sent.entries result.told (IsWritten result.answer) }
    ensures unread { may_read (named_command words.now) ≡ false → input.new ≡ input.old }
{
    if asks_trace(words) {
        traced(alloc, words, input, shelf)
    } else {
        do_words(alloc, words, input, shelf)
    }
}

/// Writes the text of the work, and returns the status of the program: 4 if writing failed, else
/// the work's own.
fn say<K: Sink>(out: &mut K, work: &Work) -> u8
    requires count { K.faults out.old < 2 ^ 64 - 1 }
    requires due { IsDue (code work.now.answer.due) }
    ensures written { Tells 4 result (K.faults out.old) (K.faults out.new) }
    ensures otherwise { result ≢ 4 → result ≡ code work.now.answer.due }
    ensures out { result ≢ 4 → K.is_out out.new }
    ensures text { Writes result (K.written out.old) (K.written out.new)
        (written_text work.now.answer.due work.now.answer.text) }
{
    match write_output(out, work.written()) {
        Ok(()) => work.answer.due.code(),
        Err(_) => Status::WriteFault.code(),
    }
}

/// Runs the program. Word 0 is the folder that the shelf stands for, word 1 names the command:
///
/// - `init` or `init MIN` makes an empty store. Each part of an upload but the last must have at
///   least MIN bytes, 1 to 5,242,880.
/// - `mb NAME` makes a bucket.
/// - `ls`, `stat`, `cat`, `put`, `put-force`, `put-drop`, `mkdir`, `rm`, `rmr`, `uploads` and
///   `abort-uploads` with a path, and `mv` with two, do the operation of the FileSystem
///   specification that they name.
/// - `cp` with two paths copies as the FileSystem shell does, and does not overwrite what exists.
/// - `markers`, `clean-markers` and `fill-markers` with a path do as S3A's marker tool does.
/// - `job` reads a script from the input, runs it over the store that the shelf holds, and writes
///   the report.
/// - `twins` reads two scripts and an order from the input, runs both jobs in that order, and
///   writes the report of both.
/// - `gen SEED TASKS FILES` makes a script from these numbers and runs it as `job` does. It takes
///   nothing from the input and writes a line that sums the job up.
/// - `trace` before any other command than `init` and `twins` shows what the command would send
///   over what the shelf holds, and stores nothing. For `job` and `gen` it shows the trace of the
///   whole run, for other commands the lines of their requests.
///
/// A job or a command that changes the store first replaces what the shelf holds by the image of
/// the store that it opens with. Then the shelf takes each change, after each event or after the
/// command. So a stop at any point leaves one of the states of the run.
///
/// The report's status is one of [`Status`]. The report has what was sent before the shelf failed
/// or memory ran out.
pub fn run<Q: Source, F: Shelf, K: Sink>(
    alloc: Global,
    words: &[Text],
    input: &mut Q,
    shelf: &mut F,
    out: &mut K,
) -> Report
    requires source_count { Q.faults input.old < 2 ^ 64 - 1 }
    requires shelf_count { F.faults shelf.old < 2 ^ 64 - 1 }
    requires sink_count { K.faults out.old < 2 ^ 64 - 1 }

    // The status, and when it reports a fault. A failed write or flush gives 4, whatever the status
    // would have been.
    ensures due { IsDue result.due }
    ensures read { Tells 3 result.due (Q.faults input.old) (Q.faults input.new) }
    ensures shelf { Tells 5 result.due (F.faults shelf.old) (F.faults shelf.new) }
    ensures written { Tells 4 result.status (K.faults out.old) (K.faults out.new) }
    ensures otherwise { result.status ≢ 4 → result.status ≡ result.due }
    ensures out { result.status ≢ 4 → K.is_out out.new }

    // A command that runs jobs, one or two. Either they ran, and the promise holds of all that was
    // sent, or the program stopped before their first event.
    ensures job { (c : words_said.Command) → command_of words.now ≡ Some c → plays c ≡ true
        → JobPlayed F.sight c (Q.left input.old) (Q.left input.new) shelf.old shelf.new result.due
        result.journal.entries result.told (Writes result.status (K.written out.old) (K.written out.new))
        ⊎ JobStopped F.sight c (Q.left input.old) (Q.left input.new) shelf.old shelf.new result.due
        result.journal.entries result.told (Writes result.status (K.written out.old) (K.written out.new)) }

    // Another command: either it was done on what the shelf holds, or it stopped before anything
    // was done.
    ensures store { (c : words_said.Command) → command_of words.now ≡ Some c → plays c ≡ false
        → StoreDone F.sight c (Q.left input.old) (Q.left input.new) shelf.old shelf.new result.due
        result.journal.entries (Writes result.status (K.written out.old) (K.written out.new))
        ⊎ StoreStopped F.sight c (Q.left input.old) (Q.left input.new) shelf.old shelf.new result.due
        result.journal.entries (Writes result.status (K.written out.old) (K.written out.new)) }
    ensures quiet { (c : words_said.Command) → command_of words.now ≡ Some c → plays c ≡ false
        → result.told ≡ nothing_told }

    // A trace of a job. Either it ran over the store that the shelf holds, the promise holds of all
    // that the trace shows, and nothing is stored; or it stopped before its first event.
    ensures trace_job { (c : words_said.Command) → traced_command words.now ≡ Some c → plays c ≡ true
        → JobTraced F.sight c (Q.left input.old) (Q.left input.new) shelf.old shelf.new result.due
        result.journal.entries result.told (Writes result.status (K.written out.old) (K.written out.new))
        ⊎ JobStopped F.sight c (Q.left input.old) (Q.left input.new) shelf.old shelf.new result.due
        result.journal.entries result.told (Writes result.status (K.written out.old) (K.written out.new)) }

    // A trace of another command. Either it was done on what the shelf holds, its requests are
    // shown, and nothing is stored; or it stopped before anything was done.
    ensures trace_store { (c : words_said.Command) → traced_command words.now ≡ Some c → plays c ≡ false
        → StoreTraced F.sight c (Q.left input.old) (Q.left input.new) shelf.old shelf.new result.due
        result.journal.entries (Writes result.status (K.written out.old) (K.written out.new))
        ⊎ StoreStopped F.sight c (Q.left input.old) (Q.left input.new) shelf.old shelf.new result.due
        result.journal.entries (Writes result.status (K.written out.old) (K.written out.new)) }

    // A trace calls the shelf at most once, to load it.
    ensures trace_loads { asks_trace words.now ≡ true → IsLoaded F.sight shelf.old shelf.new }

    // Words that are no command.
    ensures usage { named_command words.now ≡ None
        → NoCommand result.due shelf.old shelf.new result.journal.entries result.told
        (Writes result.status (K.written out.old) (K.written out.new)) }
    ensures command { result.due ≡ 2 → named_command words.now ≡ None }
    ensures unread { may_read (named_command words.now) ≡ false → input.new ≡ input.old }
{
    let work = worked(alloc, words, input, shelf);
    let status = say(out, &work);
    let Work { answer, told } = work;
    Report {
        status,
        due: answer.due.code(),
        journal: answer.sent,
        told,
    }
}
