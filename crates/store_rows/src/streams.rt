ghost use Rattle.std.specs.Prelude.{◌≡◌, Bool, false, IfOk, OnOk};
ghost use Rattle.s3_types.specs.Store.{Scene};
ghost use Rattle.block_stream.specs.Holds.{IsReady};
ghost use Rattle.store_rows.specs.inner.Lake.{lake};

use crate::lake::{BLOCK, new_store};
use crate::streams_shown::show_driven;
use anyhow::{Result, bail};
use block_stream::{BlockStream, StreamFault, StreamMode, drive_stream};
use machine::Retrying;
use s3_types::{Actor, Bucket, Journal, Key, let_go};
use std::alloc::Global;
use store_link::MemStore;

/// The most retries of a request.
const RETRIES: u32 = 3;

/// A stream to which nothing was written yet.
fn begun(alloc: Global, mode: StreamMode, bucket: Bucket, key: Key) -> BlockStream
    ensures { (result.closed ≡ false) × IsReady result (lake bucket) false }
{
    let stream = BlockStream::start(alloc, mode, bucket, key, BLOCK);
    stream
}

fn new_stream(alloc: Global, mode: StreamMode, bucket: &Bucket) -> Result<Retrying<BlockStream>>
    ensures open { IfOk result (λ stream. stream.machine.closed ≡ false) }
    ensures ready { IfOk result (λ stream. IsReady stream.machine (lake bucket.now) stream.repeated) }
{
    let bucket = bucket.clone()?;
    let key = Key::read(alloc, b"d/f")?;
    Ok(Retrying::new(begun(alloc, mode, bucket, key), RETRIES))
}

/// Writes all pieces to a stream, and closes it.
fn fill(stream: &mut BlockStream, pieces: &str) -> Result<(), StreamFault>
    requires { stream.old.closed ≡ false }
    ensures { OnOk result ((scene : Scene) (repeated : Bool) → IsReady stream.old scene repeated
        → IsReady stream.new scene repeated) }
{
    for piece in pieces.split_whitespace() {
        stream.write(piece.as_bytes())?;
    }
    stream.close()?;
    Ok(())
}

/// Drives a stream, and shows how it ended and what the store then has.
fn drive(
    rt: &impl Print,
    alloc: Global,
    stream: &mut Retrying<BlockStream>,
    store: &mut MemStore,
) -> Result<()>
    requires ready { IsReady stream.old.machine store.old.scene stream.old.repeated }
    requires fresh { store.old.requests ≡ 0 }
{
    let mut journal = Journal::new(alloc);
    let driven = drive_stream(alloc, stream, store, Actor::Driver, 1, &mut journal);
    let requests = journal.len();
    let_go(journal);
    show_driven(rt, driven, requests, stream.machine(), store.service())
}

fn fill_and_drive(
    rt: &impl Print,
    alloc: Global,
    stream: &mut Retrying<BlockStream>,
    store: &mut MemStore,
    pieces: &str,
) -> Result<()>
    requires open { stream.old.machine.closed ≡ false }
    requires ready { IsReady stream.old.machine store.old.scene stream.old.repeated }
    requires fresh { store.old.requests ≡ 0 }
{
    match fill(&mut stream.machine, pieces) {
        Ok(()) => drive(rt, alloc, stream, store),
        Err(fault) => bail!("not written: {fault:?}"),
    }
}

fn over_new_store(
    rt: &impl Print,
    alloc: Global,
    bucket: &Bucket,
    stream: &mut Retrying<BlockStream>,
    pieces: &str,
) -> Result<()>
    requires open { stream.old.machine.closed ≡ false }
    requires ready { IsReady stream.old.machine (lake bucket.now) stream.old.repeated }
{
    let mut store = new_store(alloc, bucket)?;
    let driven = fill_and_drive(rt, alloc, stream, &mut store, pieces);
    let_go(store);
    driven
}

/// Writes pieces to a new stream over a new store, and drives it.
pub fn show_stream(rt: &impl Print, alloc: Global, mode: StreamMode, pieces: &str) -> Result<()> {
    let bucket = Bucket::read(alloc, b"lake")?;
    let mut stream = new_stream(alloc, mode, &bucket)?;
    let driven = over_new_store(rt, alloc, &bucket, &mut stream, pieces);
    let_go(stream);
    driven
}
