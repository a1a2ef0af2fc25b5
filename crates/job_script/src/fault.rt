ghost use Rattle.std.specs.Prelude.{◌≡◌};
ghost use Rattle.job_script.specs.Fault.{number_of, line_of};
ghost use Rattle.job_script.specs.declared.fault.ScriptFault.TheVariants.{NoMemory};

use std::alloc::{AllocError, AllocFailed};
use std::fmt;
use thiserror::Error;

/// Why bytes are no script. A number in a variant is the number of the faulty line, from 1.
#[derive(Clone, Copy, Debug, PartialEq, Eq, Error)]
pub enum ScriptFault {
    /// The input is not UTF-8.
    NotUtf8,
    /// The line is in the wrong group, has a wrong number of words, or has a word that is not
    /// allowed there.
    BadLine(u64),
    /// No line begins with this word.
    UnknownWord(u64),
    /// The line `job`, `dest`, `committer` or `tasks` is missing.
    MissingHead,
    /// The head word, the attempt, the attempt's path, or a send of a `loss` line occurs a second
    /// time.
    RepeatedName(u64),
    /// The path is not allowed for a destination or a file.
    BadPath(u64),
    /// An element of the file's path begins with `_` or `.`.
    HiddenPath(u64),
    /// The event's attempt is not declared, or the attempt's task is not below the number of tasks.
    UnknownActor(u64),
    /// The destination is a bucket without a key.
    DestIsRoot,
    /// The input, or a number of lines, files or bytes in it, is over its limit.
    TooLarge,
    /// The number does not have 1 to 18 digits, or is out of its range.
    BadNumber(u64),
    NoMemory,
}

impl ScriptFault {
    /// The number of the fault, 1 to 12.
    pub fn number(&self) -> u8
        ensures { result ≡ number_of self.now }
    {
        match self {
            ScriptFault::NotUtf8 => 1,
            ScriptFault::BadLine(_) => 2,
            ScriptFault::UnknownWord(_) => 3,
            ScriptFault::MissingHead => 4,
            ScriptFault::RepeatedName(_) => 5,
            ScriptFault::BadPath(_) => 6,
            ScriptFault::HiddenPath(_) => 7,
            ScriptFault::UnknownActor(_) => 8,
            ScriptFault::DestIsRoot => 9,
            ScriptFault::TooLarge => 10,
            ScriptFault::BadNumber(_) => 11,
            ScriptFault::NoMemory => 12,
        }
    }

    /// The number of the faulty line, from 1, or 0 if the fault has no line.
    pub fn line(&self) -> u64
        ensures { result ≡ line_of self.now }
    {
        match self {
            ScriptFault::BadLine(line)
            | ScriptFault::UnknownWord(line)
            | ScriptFault::RepeatedName(line)
            | ScriptFault::BadPath(line)
            | ScriptFault::HiddenPath(line)
            | ScriptFault::UnknownActor(line)
            | ScriptFault::BadNumber(line) => *line,
            ScriptFault::NotUtf8
            | ScriptFault::MissingHead
            | ScriptFault::DestIsRoot
            | ScriptFault::TooLarge
            | ScriptFault::NoMemory => 0,
        }
    }
}

impl fmt::Display for ScriptFault {
    fn fmt<W: fmt::Write>(&self, f: &mut fmt::Formatter<W>) -> fmt::Result {
        write!(f, "script fault {} at line {}", self.number(), self.line())
    }
}

impl From<AllocError> for ScriptFault {
    ghost from_gives = { λ _ e. e ≡ NoMemory };

    fn from(_e: AllocError) -> ScriptFault {
        ScriptFault::NoMemory
    }
}

impl<T: Drop> From<AllocFailed<T>> for ScriptFault {
    ghost from_gives = { λ _ e. e ≡ NoMemory };

    fn from(_e: AllocFailed<T>) -> ScriptFault {
        ScriptFault::NoMemory
    }
}
