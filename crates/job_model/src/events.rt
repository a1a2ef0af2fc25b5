ghost use Rattle.std.specs.Prelude.{Some};
ghost use Rattle.job_model.specs.Words.{op_word, event_text};

use s3_types::{Actor, Sequence};
use std::fmt;

/// An operation of an actor. The driver has all but `Write`; an attempt has `Write`, `Commit` and
/// `Abort`.
#[derive(Clone, Copy, PartialEq, Eq)]
pub enum Op {
    Setup,
    Write,
    Commit,
    Abort,
    Clean,
}

impl fmt::Display for Op {
    ghost output = { λ op. Some (op_word op) };

    fn fmt<W: fmt::Write>(&self, f: &mut fmt::Formatter<W>) -> fmt::Result {
        let word = match self {
            Op::Setup => "setup",
            Op::Write => "write",
            Op::Commit => "commit",
            Op::Abort => "abort",
            Op::Clean => "clean",
        };
        f.write_str(word)
    }
}

/// The next step of a run.
#[derive(Clone, Copy, PartialEq, Eq)]
pub enum Event {
    /// The actor begins an operation, and sends requests until it ends.
    Do { actor: Actor, op: Op },
    /// The actor begins an operation.
    Start { actor: Actor, op: Op },
    /// The actor sends at most `count` requests, 1 to 1,000,000.
    Step { actor: Actor, count: u32 },
    /// The actor sends requests until its operation ends.
    Run { actor: Actor },
    /// The actor dies.
    Kill { actor: Actor },
    /// The busy actors send requests until none is busy. The seed, below 2^31, decides whose turn
    /// it is.
    Mix { seed: u32 },
    /// A new driver replaces a dead one.
    Restart,
    /// Recovery of this attempt: it is asked for the work of an earlier attempt of its task.
    Recover { actor: Actor },
}

impl fmt::Display for Event {
    ghost output = { λ event. Some (event_text event) };

    fn fmt<W: fmt::Write>(&self, f: &mut fmt::Formatter<W>) -> fmt::Result {
        match self {
            Event::Do { actor, op } => write!(f, "do {actor} {op}"),
            Event::Start { actor, op } => write!(f, "start {actor} {op}"),
            Event::Step { actor, count } => write!(f, "step {actor} {count}"),
            Event::Run { actor } => write!(f, "run {actor}"),
            Event::Kill { actor } => write!(f, "kill {actor}"),
            Event::Mix { seed } => write!(f, "mix {seed}"),
            Event::Restart => f.write_str("restart driver"),
            Event::Recover { actor } => write!(f, "recover {actor}"),
        }
    }
}

/// Events in order.
pub type EventList = Sequence<Event>;
