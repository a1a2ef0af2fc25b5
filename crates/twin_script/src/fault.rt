ghost use Rattle.std.specs.Prelude.{◌≡◌};
ghost use Rattle.twin_script.specs.Fault.{number_of, line_of};
ghost use Rattle.twin_script.specs.declared.fault.TwinFault.TheVariants.{NoMemory};

use job_script::ScriptFault;
use std::alloc::{AllocError, AllocFailed};
use std::fmt;
use thiserror::Error;

/// Why bytes are not two scripts and an order.
#[derive(Clone, Copy, Debug, PartialEq, Eq, Error)]
pub enum TwinFault {
    /// There are not exactly two separator lines.
    NotThree,
    /// The first part is no script.
    First(ScriptFault),
    /// The second part is no script.
    Second(ScriptFault),
    /// Both jobs have the same id.
    SameJob,
    /// The jobs have different destinations.
    OtherDest,
    /// One of the jobs has the mode replace.
    ReplaceMode,
    /// The second script names a fate.
    SecondLoss,
    /// This line of the third part, from 1, is no line of an order, or asks for more events of its
    /// side than are left.
    BadOrder(u64),
    /// The input is over its limit.
    TooLarge,
    NoMemory,
}

impl TwinFault {
    /// The number of the fault, 1 to 10.
    pub fn number(&self) -> u8
        ensures { result ≡ number_of self.now }
    {
        match self {
            TwinFault::NotThree => 1,
            TwinFault::First(_) => 2,
            TwinFault::Second(_) => 3,
            TwinFault::SameJob => 4,
            TwinFault::OtherDest => 5,
            TwinFault::ReplaceMode => 6,
            TwinFault::SecondLoss => 7,
            TwinFault::BadOrder(_) => 8,
            TwinFault::TooLarge => 9,
            TwinFault::NoMemory => 10,
        }
    }

    /// The number of the faulty line in its part, from 1, or 0 if the fault has no line.
    pub fn line(&self) -> u64
        ensures { result ≡ line_of self.now }
    {
        match self {
            TwinFault::First(fault) | TwinFault::Second(fault) => fault.line(),
            TwinFault::BadOrder(line) => *line,
            TwinFault::NotThree
            | TwinFault::SameJob
            | TwinFault::OtherDest
            | TwinFault::ReplaceMode
            | TwinFault::SecondLoss
            | TwinFault::TooLarge
            | TwinFault::NoMemory => 0,
        }
    }
}

impl fmt::Display for TwinFault {
    fn fmt<W: fmt::Write>(&self, f: &mut fmt::Formatter<W>) -> fmt::Result {
        write!(f, "twin fault {} at line {}", self.number(), self.line())
    }
}

impl From<AllocError> for TwinFault {
    ghost from_gives = { λ _ e. e ≡ NoMemory };

    fn from(_e: AllocError) -> TwinFault {
        TwinFault::NoMemory
    }
}

impl<T: Drop> From<AllocFailed<T>> for TwinFault {
    ghost from_gives = { λ _ e. e ≡ NoMemory };

    fn from(_e: AllocFailed<T>) -> TwinFault {
        TwinFault::NoMemory
    }
}
