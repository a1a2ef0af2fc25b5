ghost use Rattle.std.specs.Prelude.{◌≡◌};
ghost use Rattle.pending_json.specs.declared.fault.RecordFault.TheVariants.{NoMemory, MissingField, WrongKind};
ghost use Rattle.pending_json.specs.inner.Fault.{IsFault};

use s3_types::Text;
use std::alloc::{AllocError, AllocFailed, Global};
use std::fmt;
use thiserror::Error;

/// Why bytes could not be read as a record. If there are several faults, the first check in this
/// order decides: the text is JSON, it is an object, its version, the other fields in the byte
/// order of their names, and last the fields that no such record has.
#[derive(Drop, Error)]
pub enum RecordFault {
    /// The bytes are no JSON text (RFC 8259), or a text that nests deeper than 127.
    NotJson,
    /// A required field of this name is absent.
    MissingField(Text),
    /// The field of this name has a value of a wrong kind or out of its range. With an empty name:
    /// the value that should be the record is no object.
    WrongKind(Text),
    /// The record has this version, which no such record has.
    WrongVersion(u64),
    /// No such record has a field of this name. It is the least of these names by its bytes.
    ExtraField(Text),
    /// Memory ran out.
    NoMemory,
}

impl fmt::Display for RecordFault {
    fn fmt<W: fmt::Write>(&self, f: &mut fmt::Formatter<W>) -> fmt::Result {
        let (what, name) = match self {
            RecordFault::NotJson => return f.write_str("the bytes are not JSON"),
            RecordFault::MissingField(name) => ("no field", name),
            RecordFault::WrongKind(name) => ("a wrong value of", name),
            RecordFault::WrongVersion(version) => return write!(f, "version {version} is unknown"),
            RecordFault::ExtraField(name) => ("an unknown field", name),
            RecordFault::NoMemory => return f.write_str("no memory"),
        };
        write!(f, "{what} '{}'", name.as_str())
    }
}

impl fmt::Debug for RecordFault {
    fn fmt<W: fmt::Write>(&self, f: &mut fmt::Formatter<W>) -> fmt::Result {
        let (kind, name) = match self {
            RecordFault::NotJson => return f.write_str("NotJson"),
            RecordFault::MissingField(name) => ("MissingField", name),
            RecordFault::WrongKind(name) => ("WrongKind", name),
            RecordFault::WrongVersion(version) => return write!(f, "WrongVersion({version})"),
            RecordFault::ExtraField(name) => ("ExtraField", name),
            RecordFault::NoMemory => return f.write_str("NoMemory"),
        };
        write!(f, "{kind}({:?})", name.as_str())
    }
}

impl From<AllocError> for RecordFault {
    ghost from_gives = { λ _ e. e ≡ NoMemory };

    fn from(_e: AllocError) -> RecordFault {
        RecordFault::NoMemory
    }
}

impl<T: Drop> From<AllocFailed<T>> for RecordFault {
    ghost from_gives = { λ _ e. e ≡ NoMemory };

    fn from(_e: AllocFailed<T>) -> RecordFault {
        RecordFault::NoMemory
    }
}

/// MissingField of this name.
pub fn missing(alloc: Global, name: &str) -> RecordFault
    ensures { IsFault result (MissingField name.now) }
{
    match Text::copied(alloc, name) {
        Ok(name) => RecordFault::MissingField(name),
        Err(_) => RecordFault::NoMemory,
    }
}

/// WrongKind of this name.
pub fn wrong_kind(alloc: Global, name: &str) -> RecordFault
    ensures { IsFault result (WrongKind name.now) }
{
    match Text::copied(alloc, name) {
        Ok(name) => RecordFault::WrongKind(name),
        Err(_) => RecordFault::NoMemory,
    }
}
