ghost use Rattle.std.specs.Prelude.{◌≡◌, ◌∷◌, ◌++◌, [], List, length, drop, Ok, Err, IfOk, IfSome, is_some};
ghost use Rattle.text_and_lists.specs.Reading.{made};
ghost use Rattle.text_and_lists.proofs.Reading.{with_front};
ghost use Rattle.log_format.specs.Fault.{Gives};
ghost use Rattle.log_format.specs.inner.Fault.{GivesBy};
ghost use Rattle.log_format.specs.File.{StandsFor};
ghost use Rattle.log_format.specs.Reading.{record_at, changes_at, logged_in, is_log, base_length, held_in};
ghost use Rattle.log_format.specs.declared.logged_store.LoggedStore.{LoggedStore as HeldValue};

use crate::fault::LogFault;
use crate::fields::{block_of, byte_of, bytes_of, place_of};
use crate::logged_store::{LoggedStore, RequestList};
use crate::rows::change_of;
use s3_types::{Bytes, Request, Sequence, let_go};
use std::alloc::Global;

/// Reads a change, after its length, which is at the place `at`.
#[tactic(auto, unfolding(crate::specs::Reading::record_at))]
fn record<'b>(alloc: Global, at: u64, bytes: &'b [u8]) -> Result<(Request, &'b [u8]), LogFault>
    ensures { GivesBy (λ x. (x.0, x.1.now)) result (record_at at bytes.now) }
{
    let (text, rest) = block_of(at, bytes)?;
    match change_of(alloc, at, text) {
        Ok(change) => Ok((change, rest)),
        Err(fault) => Err(fault),
    }
}

/// Adds the change whose length is at the place `at`, and returns the bytes after it.
fn add_record<'b>(
    alloc: Global,
    at: u64,
    bytes: &'b [u8],
    changes: &mut RequestList,
) -> Result<&'b [u8], LogFault>
    ensures { GivesBy (λ rest. (changes.new, rest.now)) result (made (λ change. changes.old ++ change ∷ [])
        (record_at at bytes.now)) }
{
    match record(alloc, at, bytes) {
        Ok((change, rest)) => {
            match changes.push(change) {
                Ok(()) => Ok(rest),
                Err(_) => Err(LogFault::NoMemory),
            }
        }
        Err(fault) => Err(fault),
    }
}

/// Adds the changes up to the first gate that is not open.
#[tactic(auto, unfolding(crate::specs::Reading::changes_at))]
fn add_changes(
    alloc: Global,
    whole: u64,
    bytes: &[u8],
    changes: &mut RequestList,
) -> Result<(), LogFault>
    ensures { GivesBy (λ u. changes.new) result (with_front changes.old (changes_at (length bytes.now) whole
        bytes.now)) }
{
    let mut rest = bytes;
    for _ in 0..bytes.len() {
        let (gate, after) = byte_of(place_of(whole, rest), rest)?;
        if gate != 1 {
            return Ok(());
        }
        rest = add_record(alloc, place_of(whole, after), after, changes)?;
    }
    Err(LogFault::Bad(place_of(whole, rest)))
}

/// Reads the changes up to the first gate that is not open.
fn changes_of(alloc: Global, whole: u64, bytes: &[u8]) -> Result<RequestList, LogFault>
    ensures { Gives result (changes_at (length bytes.now) whole bytes.now) }
{
    let mut changes = Sequence::new(alloc);
    match add_changes(alloc, whole, bytes, &mut changes) {
        Ok(()) => Ok(changes),
        Err(fault) => {
            let_go(changes);
            Err(fault)
        }
    }
}

/// Reads a base and the changes after it.
#[tactic(auto, unfolding(crate::specs::Reading::logged_in))]
fn logged(alloc: Global, whole: u64, bytes: &[u8]) -> Result<LoggedStore, LogFault>
    ensures { Gives result (logged_in whole bytes.now) }
{
    let (base, rest) = bytes_of(alloc, 8, bytes)?;
    let changes = changes_of(alloc, whole, rest)?;
    Ok(LoggedStore { base, changes })
}

/// Returns the bytes after a log's first 8 bytes, or None if the bytes do not begin so.
fn behind_magic(bytes: &[u8]) -> Option<&[u8]>
    ensures found { is_some result ≡ is_log bytes.now }
    ensures rest { IfSome result (λ rest. rest.now ≡ drop 8 bytes.now) }
{
    let (first, rest) = bytes.split_at(bytes.len().min(8));
    if first == b"S3ALOG01".as_slice() {
        Some(rest)
    } else {
        None
    }
}

/// Returns the length of a file's base in bytes. If the file is a log, that is its base's length,
/// or 0 if the base runs past the end; else it is the file's length. Takes no memory.
#[tactic(auto, unfolding(crate::specs::Reading::base_length))]
pub fn base_length(file: &[u8]) -> u64
    ensures { result ≡ base_length file.now }
{
    let Some(rest) = behind_magic(file) else {
        return file.len() as u64;
    };
    match block_of(8, rest) {
        Ok((base, _)) => base.len() as u64,
        Err(_) => 0,
    }
}

/// Reads the base and changes in a file, or its first fault.
#[tactic(auto, unfolding(crate::specs::Reading::held_in))]
fn held_of(alloc: Global, file: &Bytes, bytes: &[u8]) -> Result<LoggedStore, LogFault>
    requires { bytes.now ≡ file.now }
    ensures { Gives result (held_in bytes.now) }
{
    match behind_magic(bytes) {
        Some(rest) => logged(alloc, bytes.len() as u64, rest),
        None => {
            Ok(LoggedStore {
                base: file.clone()?,
                changes: Sequence::new(alloc),
            })
        }
    }
}

/// Reads the base and changes in a file from its bytes.
fn read_bytes(alloc: Global, file: &Bytes, bytes: &[u8]) -> Result<LoggedStore, LogFault>
    requires { bytes.now ≡ file.now }
    ensures exact { Gives result (held_in bytes.now) }
    ensures found { IfOk result (λ held. StandsFor bytes.now held) }
    ensures only { (held : HeldValue) → StandsFor bytes.now held → Gives result (Ok held) }
{
    held_of(alloc, file, bytes)
}

/// Reads a file in one pass. A file that does not begin with `S3ALOG01` is a base without changes;
/// its bytes are shared. Reading stops at the first gate that is not open. It copies each byte at
/// most once, and reserves no memory just because a length or a count says so.
pub fn read_log(alloc: Global, file: &Bytes) -> Result<LoggedStore, LogFault>
    // It says which fault it is, and its place.
    ensures exact { Gives result (held_in file.now) }
    // The file stands for what is read.
    ensures found { IfOk result (λ held. StandsFor file.now held) }
    // What the file stands for is read, unless memory runs out.
    ensures only { (held : HeldValue) → StandsFor file.now held → Gives result (Ok held) }
{
    read_bytes(alloc, file, file.as_slice())
}
