ghost use Rattle.std.specs.Prelude.{◌≡◌, ◌↔◌, ℕ, ◌+◌, ◌*◌, ◌<◌, ◌≤◌, Bool, true, false, List, [], ◌∷◌, ◌++◌, length, Option, Some, None, OnOk, OnErr, IfOk, IsErrOf, IsSome, MatchOption};
ghost use Rattle.std.specs.Option.{option_copied};
ghost use Rattle.std.specs.FinMap as fin;
ghost use Rattle.s3_types.specs.Store.{Scene, BucketContent};
ghost use Rattle.s3_types.specs.declared.limits.TheConstants.{MOST_PARTS};
ghost use Rattle.retries.specs.Retries.{OutOfMemory};
ghost use Rattle.block_stream.specs.Stream.{fresh, is_direct, delayed_of, stage, wanted, moved, answers, Fits, told, begun, parted, settled, ended, broken, wrote, close, end_of, left, standing};
ghost use Rattle.block_stream.specs.Holds.{Holds, IsReady};
ghost use Rattle.block_stream.specs.inner.Kept.{next_by, front_of, last_of};
ghost use Rattle.block_stream.specs.declared.mode.StreamEnd.TheVariants.{Done};
ghost use Rattle.block_stream.specs.declared.mode.StreamFault.TheVariants.{TooLong};
ghost use Rattle.block_stream.specs.declared.stage.StreamStage.TheVariants.{Beginning, Sending};

use crate::asking::{Output, next, next_stage, send_first};
use crate::cutting::cut;
use crate::delayed::Delayed;
use crate::mode::{StreamEnd, StreamFault, StreamMode};
use crate::queue::Queue;
use crate::stage::StreamStage;
use machine::Machine;
use s3_types::{
    Bucket, Bytes, Key, MOST_PARTS, Refusal, Reply, Request, Tag, TagList, let_go, put,
};
use std::alloc::{AllocError, Global};
use std::marker::Model;

/// An output stream. It cuts what is written into blocks, and sends each block as a part as soon as
/// it is whole. Direct output of fewer bytes than a block is one put at the close. Longer direct
/// output is an upload that is completed at the close. Delayed output is always an upload, which is
/// left uncompleted. If nothing was written, it has one empty part.
#[derive(Drop)]
pub struct BlockStream {
    alloc: Global,
    output: Output,
    queue: Queue,
    rest: Vec<u8>,
    upload: Option<u64>,
    tags: TagList,
    count: u64,
    closed: bool,
    end: Option<StreamEnd>,
    asked: Option<Request>,
}

impl Model for BlockStream {
    ghost use Rattle.block_stream.specs.Stream.{Stream};
    ghost use Rattle.block_stream.specs.Kept.{seen};
    ghost use Rattle.block_stream.specs.inner.Kept.{IsKept};
    ghost use Rattle.block_stream.specs.Coded.{coded_stream};

    ghost Value = { Stream };

    ghost coded = { coded_stream };

    ghost view = { λ w. seen w.output.mode w.output.bucket w.output.key w.output.block w.queue w.rest.items w.upload
        w.tags w.count w.closed w.end };

    ghost invariant = { λ w. IsKept (seen w.output.mode w.output.bucket w.output.key w.output.block w.queue w.rest.items
        w.upload w.tags w.count w.closed w.end) w.queue w.rest.items w.asked };
}

impl BlockStream {
    /// A stream to which nothing was written yet. `block` is the length in bytes of each part but
    /// the last, and at least 1. The promises of the stream need a store that has the bucket and
    /// whose least part is not longer than the block. Takes no memory.
    pub fn start(
        alloc: Global,
        mode: StreamMode,
        bucket: Bucket,
        key: Key,
        block: u64,
    ) -> BlockStream
        requires { 1 ≤ block }
        ensures fresh { result ≡ fresh mode bucket key block }
        ensures holds { (s : Scene) (c : BucketContent) → fin.get s.content.buckets bucket ≡ Some c
            → s.content.minimum ≤ block → Holds result s false [] }
    {
        let queue = Queue::new(alloc);
        let rest = Vec::new(alloc);
        let tags = TagList::new(alloc);
        BlockStream {
            alloc,
            output: Output {
                mode,
                bucket,
                key,
                block,
            },
            queue,
            rest,
            upload: None,
            tags,
            count: 0,
            closed: false,
            end: None,
            asked: None,
        }
    }

    fn stage(&self) -> StreamStage
        ensures { result ≡ stage self.now }
    {
        if self.end.is_some() {
            return StreamStage::Over;
        }
        next_stage(
            &self.output,
            &self.queue,
            self.closed,
            &self.tags,
            self.upload,
        )
    }

    /// How the stream ended, or None while it is open or still has a request. Takes no memory.
    pub fn end(&self) -> Option<StreamEnd>
        ensures { result ≡ end_of self.now }
    {
        if self.closed { self.end } else { None }
    }

    /// What a committer needs of a delayed output that is done: its upload, the tags of its parts
    /// from the first on, and the number of bytes that were written. Returns None exactly for
    /// direct output, or if the stream has not ended with `Done`. Takes no memory.
    pub fn delayed(&self) -> Option<Delayed<'_>>
        ensures { MatchOption result (delayed_of self.now ≡ None) (λ d. delayed_of self.now
            ≡ Some (d.upload, d.tags.now, d.length)) }
    {
        match (self.output.mode, self.end(), self.upload) {
            (StreamMode::Delayed, Some(StreamEnd::Done), Some(upload)) => Some(Delayed {
                upload,
                tags: &self.tags,
                length: self.count,
            }),
            _ => None,
        }
    }

    /// Writes a piece after what was written before. What the stream holds grows by the piece, and
    /// a request that is there stays the same. After the stream has failed, the piece is only
    /// counted.
    ///
    /// Fails with `TooLong` exactly if all that was written would be more than 10,000 blocks, and
    /// with `NoMemory` if memory runs out. After both the stream is as before.
    pub fn write(&mut self, piece: &[u8]) -> Result<(), StreamFault>
        requires { self.old.closed ≡ false }
        ensures ok { OnOk result (self.new ≡ wrote self.old piece.now) }
        ensures err { OnErr result (self.new ≡ self.old) }
        ensures long { IsErrOf result TooLong ↔ (self.old.block * MOST_PARTS < self.old.count + length piece.now) }
        ensures holds { OnOk result ((s : Scene) (repeated : Bool) (bytes : List ℕ) → Holds self.old s repeated bytes
            → Holds self.new s repeated (bytes ++ piece.now)) }
        ensures asked { OnOk result (IsSome (wanted self.old) → wanted self.new ≡ wanted self.old) }
    {
        let count = self.count as u128 + piece.len() as u128;
        if count > self.output.block as u128 * u128::from(MOST_PARTS) {
            return Err(StreamFault::TooLong);
        }
        if count > u64::MAX as u128 {
            return Err(StreamFault::NoMemory);
        }
        match self.add(piece, count as u64) {
            Ok(()) => Ok(()),
            Err(_) => Err(StreamFault::NoMemory),
        }
    }

    fn add(&mut self, piece: &[u8], count: u64) -> Result<(), AllocError>
        requires unclosed { self.old.closed ≡ false }
        requires count { count ≡ self.old.count + length piece.now }
        requires few { self.old.count + length piece.now ≤ self.old.block * MOST_PARTS }
        ensures ok { OnOk result (self.new ≡ wrote self.old piece.now) }
        ensures err { OnErr result (self.new ≡ self.old) }
        ensures few { OnOk result (self.old.count + length piece.now ≤ self.old.block * MOST_PARTS) }
    {
        if self.end.is_some() {
            self.count = count;
            return Ok(());
        }
        let room = self.output.block as usize - self.rest.len();
        if piece.len() < room {
            self.rest.extend_from_slice(piece)?;
            self.count = count;
            return Ok(());
        }
        let mut blocks = Queue::new(self.alloc);
        let first = self.rest.as_slice();
        let Ok(rest) = cut(self.alloc, first, piece, self.output.block, &mut blocks) else {
            let_go(blocks);
            return Err(AllocError);
        };
        let (asked, _end) = follow(
            self.alloc,
            &self.output,
            &mut self.queue,
            blocks,
            false,
            &self.tags,
            self.upload,
        )?;
        self.rest = rest;
        self.count = count;
        put(&mut self.asked, asked);
        Ok(())
    }

    /// Closes the stream: nothing more can be written. It holds what it held, and a request that is
    /// there stays the same. If memory runs out, the stream is as before.
    pub fn close(&mut self) -> Result<(), AllocError>
        requires { self.old.closed ≡ false }
        ensures ok { OnOk result (self.new ≡ close self.old) }
        ensures err { OnErr result (self.new ≡ self.old) }
        ensures holds { OnOk result ((s : Scene) (repeated : Bool) (bytes : List ℕ) → Holds self.old s repeated bytes
            → Holds self.new s repeated bytes) }
        ensures asked { OnOk result (IsSome (wanted self.old) → wanted self.new ≡ wanted self.old) }
    {
        if self.end.is_some() {
            self.closed = true;
            return Ok(());
        }
        let last = last_block(self.alloc, self.rest.as_slice())?;
        let (asked, end) = follow(
            self.alloc,
            &self.output,
            &mut self.queue,
            last,
            true,
            &self.tags,
            self.upload,
        )?;
        self.rest = Vec::new(self.alloc);
        self.closed = true;
        self.end = end;
        put(&mut self.asked, asked);
        Ok(())
    }

    /// True if this reply answers the current request, so that the stream may take it. Takes no
    /// memory.
    pub fn is_answer(&self, reply: &Reply) -> bool
        ensures { result ≡ answers (stage self.now) reply.now }
    {
        match (self.stage(), reply) {
            (StreamStage::Putting, Reply::Stored(_)) => true,
            (StreamStage::Beginning, Reply::Upload(_)) => true,
            (StreamStage::Sending, Reply::Part(_)) => true,
            (StreamStage::Completing, Reply::Completed(_)) => true,
            (
                StreamStage::Sending | StreamStage::Completing,
                Reply::Refused(Refusal::NoSuchUpload),
            ) => true,
            _ => false,
        }
    }

    fn finish(&mut self, end: StreamEnd)
        requires { end ≡ Done → self.old.upload ≡ None → is_direct self.old.mode ≡ true }
        ensures { self.new ≡ ended self.old end }
    {
        put(&mut self.asked, None);
        self.end = Some(end);
    }

    fn fail(&mut self)
        ensures { self.new ≡ broken self.old }
    {
        clear(self.alloc, &mut self.queue, &mut self.rest, &mut self.tags);
        self.upload = None;
        put(&mut self.asked, None);
        self.end = Some(StreamEnd::NoMemory);
    }

    fn begin(&mut self, upload: u64) -> Result<(), AllocError>
        requires { stage self.old ≡ Beginning }
        ensures ok { OnOk result (self.new ≡ begun self.old upload) }
        ensures err { OnErr result (self.new ≡ self.old) }
    {
        let asked = send_first(self.alloc, &self.output, upload, &self.tags, &self.queue)?;
        self.upload = Some(upload);
        put(&mut self.asked, asked);
        Ok(())
    }

    fn part(&mut self, tag: Tag) -> Result<(), AllocError>
        requires { stage self.old ≡ Sending }
        ensures ok { OnOk result (self.new ≡ settled (parted self.old tag)) }
        ensures err { OnErr result (self.new ≡ broken self.old) }
    {
        self.queue.drop_first();
        match advance(
            self.alloc,
            &self.output,
            &self.queue,
            self.closed,
            &mut self.tags,
            tag,
            self.upload,
        ) {
            Ok((asked, end)) => {
                put(&mut self.asked, asked);
                self.end = end;
                Ok(())
            }
            Err(error) => {
                clear(self.alloc, &mut self.queue, &mut self.rest, &mut self.tags);
                self.upload = None;
                put(&mut self.asked, None);
                self.end = Some(StreamEnd::NoMemory);
                Err(error)
            }
        }
    }

    fn told(&mut self, reply: &Reply, repeated: bool) -> Result<(), AllocError>
        ensures ok { OnOk result (self.new ≡ told (stage self.old) self.old repeated reply.now) }
        ensures err { OnErr result (broken self.new ≡ broken self.old) }
    {
        match (self.stage(), reply) {
            (StreamStage::Putting, Reply::Stored(_)) => self.finish(StreamEnd::Done),
            (StreamStage::Beginning, Reply::Upload(upload)) => self.begin(*upload)?,
            (StreamStage::Sending, Reply::Part(tag)) => self.part(*tag)?,
            (StreamStage::Sending, Reply::Refused(Refusal::NoSuchUpload)) => self.finish(
                StreamEnd::Gone,
            ),
            (StreamStage::Completing, Reply::Completed(_)) => self.finish(StreamEnd::Done),
            (StreamStage::Completing, Reply::Refused(Refusal::NoSuchUpload)) => {
                self.finish(if repeated {
                    StreamEnd::Done
                } else {
                    StreamEnd::Gone
                })
            }
            _ => {}
        }
        Ok(())
    }
}

/// These blocks if there are any, else the others.
fn front<'q>(queue: &'q Queue, others: &'q Queue) -> &'q Queue
    ensures { result.now ≡ front_of queue.now others.now }
{
    if queue.has_some() { queue } else { others }
}

/// Adds blocks after those that wait, and returns the next request, or the end. If it fails, none
/// is added.
fn follow(
    alloc: Global,
    output: &Output,
    queue: &mut Queue,
    blocks: Queue,
    closed: bool,
    tags: &TagList,
    upload: Option<u64>,
) -> Result<(Option<Request>, Option<StreamEnd>), AllocError>
    requires { length tags.now ≤ MOST_PARTS }
    ensures next { IfOk result (λ next. next ≡ next_by output.now.mode output.now.bucket output.now.key output.now.block
        (front_of queue.old blocks) closed tags.now upload) }
    ensures added { OnOk result (queue.new ≡ queue.old ++ blocks) }
    ensures err { OnErr result (queue.new ≡ queue.old) }
{
    let mut blocks = blocks;
    let Ok((asked, end)) = next(alloc, output, front(queue, &blocks), closed, tags, upload) else {
        let_go(blocks);
        return Err(AllocError);
    };
    let added = queue.append(&mut blocks);
    let_go(blocks);
    match added {
        Ok(()) => Ok((asked, end)),
        Err(error) => {
            let_go(asked);
            Err(error)
        }
    }
}

/// Drops what waits and the tags of the parts. Takes no memory.
fn clear(alloc: Global, queue: &mut Queue, rest: &mut Vec<u8>, tags: &mut TagList)
    ensures queue { queue.new ≡ [] }
    ensures rest { rest.new.items ≡ [] }
    ensures tags { tags.new ≡ [] }
{
    *queue = Queue::new(alloc);
    *rest = Vec::new(alloc);
    *tags = TagList::new(alloc);
}

/// The rest as a block of its own, if there is a rest.
fn last_block(alloc: Global, rest: &[u8]) -> Result<Queue, AllocError>
    ensures { IfOk result (λ blocks. blocks ≡ last_of rest.now) }
{
    if rest.is_empty() {
        return Ok(Queue::new(alloc));
    }
    let block = Bytes::from_slice(alloc, rest)?;
    let mut last = Queue::new(alloc);
    last.push(block)?;
    Ok(last)
}

/// Adds the tag of the part that was answered, and returns the next request, or the end.
fn advance(
    alloc: Global,
    output: &Output,
    queue: &Queue,
    closed: bool,
    tags: &mut TagList,
    tag: Tag,
    upload: Option<u64>,
) -> Result<(Option<Request>, Option<StreamEnd>), AllocError>
    requires { length tags.old < MOST_PARTS }
    ensures tags { OnOk result (tags.new ≡ tags.old ++ tag ∷ []) }
    ensures next { IfOk result (λ next. next ≡ next_by output.now.mode output.now.bucket output.now.key output.now.block
        queue.now closed (tags.old ++ tag ∷ []) upload) }
{
    tags.push(tag)?;
    next(alloc, output, queue, closed, tags, upload)
}

impl Machine for BlockStream {
    ghost wants = { wanted };

    ghost after = { moved };

    ghost fits = { Fits };

    ghost ready = { IsReady };

    ghost left = { λ m s. left m };

    ghost standing = { standing };

    fn request(&self) -> Option<&Request> {
        self.asked.as_ref()
    }

    fn take(&mut self, reply: &Reply, repeated: bool) -> Result<(), AllocError> {
        if let Err(error) = self.told(reply, repeated) {
            self.fail();
            return Err(error);
        }
        Ok(())
    }

    fn worn(&mut self) -> Result<(), AllocError> {
        self.finish(StreamEnd::StoreFault);
        Ok(())
    }

    #[tactic(auto, using(crate::proofs::StreamLaws::stream_laws))]
    fn laws() {}
}
