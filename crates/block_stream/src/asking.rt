ghost use Rattle.std.specs.Prelude.{◌≡◌, ℕ, List, [], ◌∷◌, ◌++◌, ◌+◌, ◌<◌, ◌≤◌, length, IfOk, Option};
ghost use Rattle.std.specs.Option.{unwrap_or};
ghost use Rattle.s3_types.specs.declared.limits.TheConstants.{MOST_PARTS};
ghost use Rattle.block_stream.specs.Stream.{asks_with, has_some};
ghost use Rattle.block_stream.specs.declared.stage.StreamStage.TheVariants.{Putting, Sending, Completing};
ghost use Rattle.block_stream.specs.inner.Kept.{first_of, next_by, stage_by, settles};

use crate::mode::{StreamEnd, StreamMode};
use crate::queue::Queue;
use crate::stage::StreamStage;
use s3_types::{Bucket, Key, Request, TagList, let_go, named_parts};
use std::alloc::{AllocError, Global};

/// The output of a stream: its place, and how it is cut.
#[derive(Drop)]
pub struct Output {
    pub mode: StreamMode,
    pub bucket: Bucket,
    pub key: Key,
    /// The length in bytes of each part but the last.
    pub block: u64,
}

/// The stage of a stream that has not ended, given the blocks that wait. Takes no memory.
pub fn next_stage(
    output: &Output,
    queue: &Queue,
    closed: bool,
    tags: &TagList,
    upload: Option<u64>,
) -> StreamStage
    ensures { result ≡ stage_by output.now.mode output.now.block queue.now closed tags.now upload }
{
    let whole = queue.is_whole(output.block);
    let due = whole || closed && (queue.has_some() || tags.len() == 0);
    match upload {
        None => {
            if output.mode.is_direct() && closed && !whole {
                StreamStage::Putting
            } else if due {
                StreamStage::Beginning
            } else {
                StreamStage::Waiting
            }
        }
        Some(_) => {
            if due {
                StreamStage::Sending
            } else if closed {
                StreamStage::Completing
            } else {
                StreamStage::Waiting
            }
        }
    }
}

/// The stage and maybe the end: a delayed output ends where a direct one would be completed. Takes
/// no memory.
fn settle(mode: StreamMode, stage: StreamStage) -> (StreamStage, Option<StreamEnd>)
    ensures { result ≡ settles mode stage }
{
    match (mode, stage) {
        (StreamMode::Delayed, StreamStage::Completing) => (
            StreamStage::Over,
            Some(StreamEnd::Done),
        ),
        (_, stage) => (stage, None),
    }
}

/// The request that puts the first block as the whole object.
fn put_first(alloc: Global, output: &Output, queue: &Queue) -> Result<Option<Request>, AllocError>
    ensures { IfOk result (λ asked. asked ≡ asks_with Putting output.now.bucket output.now.key 0 [] (first_of queue.now)) }
{
    let bytes = queue.first(alloc)?;
    Ok(Some(Request::put_object(&output.bucket, &output.key, &bytes, None)?))
}

/// The request that sends the first block as the part after those of these tags.
pub fn send_first(
    alloc: Global,
    output: &Output,
    upload: u64,
    tags: &TagList,
    queue: &Queue,
) -> Result<Option<Request>, AllocError>
    requires { length tags.now ≤ MOST_PARTS }
    ensures { IfOk result (λ asked. asked ≡ asks_with Sending output.now.bucket output.now.key upload tags.now
        (first_of queue.now)) }
{
    let bytes = queue.first(alloc)?;
    let number = tags.len() as u32 + 1;
    Ok(Some(Request::upload_part(&output.bucket, &output.key, upload, number, &bytes)?))
}

/// The request that completes the upload with the parts of these tags.
fn complete(
    alloc: Global,
    output: &Output,
    upload: u64,
    tags: &TagList,
) -> Result<Option<Request>, AllocError>
    requires { length tags.now ≤ MOST_PARTS }
    ensures { IfOk result (λ asked. asked ≡ asks_with Completing output.now.bucket output.now.key upload tags.now []) }
{
    let parts = named_parts(alloc, tags.as_slice())?;
    let asked = Request::complete_upload(alloc, &output.bucket, &output.key, upload, &parts);
    let_go(parts);
    Ok(Some(asked?))
}

/// The request of a stream at a stage.
fn ask(
    alloc: Global,
    stage: StreamStage,
    output: &Output,
    upload: Option<u64>,
    tags: &TagList,
    queue: &Queue,
) -> Result<Option<Request>, AllocError>
    requires { length tags.now ≤ MOST_PARTS }
    ensures { IfOk result (λ asked. asked ≡ asks_with stage output.now.bucket output.now.key (unwrap_or upload 0)
        tags.now (first_of queue.now)) }
{
    let upload = upload.unwrap_or(0);
    match stage {
        StreamStage::Waiting => Ok(None),
        StreamStage::Putting => put_first(alloc, output, queue),
        StreamStage::Beginning => Ok(Some(Request::create_upload(&output.bucket, &output.key)?)),
        StreamStage::Sending => send_first(alloc, output, upload, tags, queue),
        StreamStage::Completing => complete(alloc, output, upload, tags),
        StreamStage::Over => Ok(None),
    }
}

/// The next request, or the end, with these blocks and tags.
pub fn next(
    alloc: Global,
    output: &Output,
    queue: &Queue,
    closed: bool,
    tags: &TagList,
    upload: Option<u64>,
) -> Result<(Option<Request>, Option<StreamEnd>), AllocError>
    requires { length tags.now ≤ MOST_PARTS }
    ensures { IfOk result (λ next. next ≡ next_by output.now.mode output.now.bucket output.now.key output.now.block
        queue.now closed tags.now upload) }
{
    let stage = next_stage(output, queue, closed, tags, upload);
    let (stage, end) = settle(output.mode, stage);
    let asked = ask(alloc, stage, output, upload, tags, queue)?;
    Ok((asked, end))
}
