ghost use Rattle.std.specs.Prelude.{◌≡◌, ◌++◌, map, false, IfOk, OnOk};
ghost use Rattle.std.specs.List.{filter};
ghost use Rattle.magic_paths.specs.Places.{is_record};
ghost use Rattle.pending_json.specs.Fault.{wanting};
ghost use Rattle.pending_json.specs.Reading.{pending_of, set_of};
ghost use Rattle.job_protocol.specs.Sparing.{ref_of, record_names, set_names, names};

use pending_json::{PendingSet, PendingUpload, RecordFault};
use s3_types::{Key, KeyList, Reply, UploadList, UploadRef, let_go};
use std::alloc::{AllocError, Global};

/// Returns whether a key is that of a record, by its suffix. Takes no memory.
fn is_record(key: &Key) -> bool
    ensures { result ≡ is_record key.now }
{
    key.as_bytes().ends_with(b".pending")
}

/// Returns the keys of records among these keys, shared with the argument.
pub fn records_in(alloc: Global, keys: &[Key]) -> Result<KeyList, AllocError>
    ensures { IfOk result (λ records. records ≡ filter is_record keys.now) }
{
    let mut records = KeyList::new(alloc);
    for key in keys {
        if is_record(key) {
            let Ok(key) = key.clone() else {
                let_go(records);
                return Err(AllocError);
            };
            let Ok(()) = records.push(key) else {
                let_go(records);
                return Err(AllocError);
            };
        }
    }
    Ok(records)
}

/// Returns the upload that a record names; the key is shared.
fn ref_of(pending: &PendingUpload) -> Result<UploadRef, AllocError>
    ensures { IfOk result (λ upload. upload ≡ ref_of pending.now) }
{
    Ok(UploadRef {
        key: pending.destination().clone()?,
        upload: pending.upload(),
    })
}

/// Returns whether a fault means that memory ran out. Takes no memory.
fn is_wanting(fault: &RecordFault) -> bool
    ensures { result ≡ wanting fault.now }
{
    match fault {
        RecordFault::NoMemory => true,
        _ => false,
    }
}

/// Skips bytes that could not be read, unless memory ran out.
fn pass_over(fault: RecordFault) -> Result<(), AllocError>
    ensures { OnOk result (wanting fault ≡ false) }
{
    let wanting = is_wanting(&fault);
    let_go(fault);
    if wanting { Err(AllocError) } else { Ok(()) }
}

/// Adds the upload that a record names. Bytes that are no record name none.
fn add_record(alloc: Global, named: &mut UploadList, bytes: &[u8]) -> Result<(), AllocError>
    ensures { OnOk result (named.new ≡ named.old ++ record_names (pending_of bytes.now)) }
{
    match PendingUpload::read(alloc, bytes) {
        Ok(pending) => {
            let upload = ref_of(&pending);
            let_go(pending);
            named.push(upload?)
        }
        Err(fault) => pass_over(fault),
    }
}

/// Adds the uploads that these records name.
fn add_all(named: &mut UploadList, commits: &[PendingUpload]) -> Result<(), AllocError>
    ensures { OnOk result (named.new ≡ named.old ++ map ref_of commits.now) }
{
    for pending in commits {
        named.push(ref_of(pending)?)?;
    }
    Ok(())
}

/// Adds the uploads that a set names. Bytes that are no set name none.
fn add_set(alloc: Global, named: &mut UploadList, bytes: &[u8]) -> Result<(), AllocError>
    ensures { OnOk result (named.new ≡ named.old ++ set_names (set_of bytes.now)) }
{
    match PendingSet::read(alloc, bytes) {
        Ok(set) => {
            let added = add_all(named, set.commits.as_slice());
            let_go(set);
            added
        }
        Err(fault) => pass_over(fault),
    }
}

/// Adds the uploads that an answer names: a record names its own, a set all of its uploads. An
/// answer that there is no object or file names none.
pub fn add_names(alloc: Global, named: &mut UploadList, reply: &Reply) -> Result<(), AllocError>
    ensures { OnOk result (named.new ≡ named.old ++ names reply.now) }
{
    match reply {
        Reply::Object { bytes, header: _ } => add_record(alloc, named, bytes.as_slice()),
        Reply::ClusterBytes(bytes) => add_set(alloc, named, bytes.as_slice()),
        _ => Ok(()),
    }
}
