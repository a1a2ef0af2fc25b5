ghost use Rattle.std.specs.Prelude.{◌≡◌, ◌*◌, ◌≤◌, length, IfOk};
ghost use Rattle.s3_types.specs.declared.limits.TheConstants.{MOST_PARTS};
ghost use Rattle.fs_files.specs.code.Create as create;
ghost use Rattle.fs_files.specs.code.Create.{write_at, on_climb, on_here, on_below, ended, written, heard, asked_or, climb};
ghost use Rattle.fs_files.specs.code.Writing.{filled};
ghost use Rattle.block_stream.specs.Stream.{wanted, end_of};

use block_stream::{BlockStream, StreamEnd, StreamMode};
use bucket_ops::{Look, seen_in};
use dir_markers::{MarkerPolicy, after_create};
use fs_ops::{Climb, Climbed, Place, keys_above};
use fs_tree::FsRefusal;
use machine::Machine;
use operations::{Plan, Step};
use path_keys::S3Path;
use s3_types::{Bucket, Bytes, Key, KeyList, PageLimit, Reply, Request, both, copied_keys, let_go};
use std::alloc::{AllocError, Global};
use std::marker::Model;

/// The stage of making a file.
#[derive(Drop)]
pub enum CreateStage {
    /// Asks whether a file exists at the path.
    Here,
    /// Asks whether anything exists below it.
    Below,
    /// Asks whether a file exists at one of the directories above.
    Up(Climb),
    /// Writes the bytes.
    Write(BlockStream),
    /// Deletes the markers above.
    DropMarkers,
}

/// A file to make.
///
/// - `place`: its path in the bucket.
/// - `above`, `markers`: the keys of the directories above it, from the root down, and the markers
///   above it that are deleted.
/// - `bytes`: its bytes.
/// - `block`: the length in bytes of each of its parts but the last.
/// - `overwrite`: true if an existing file may be replaced.
#[derive(Drop)]
pub struct NewFile {
    alloc: Global,
    bucket: Bucket,
    place: Place,
    above: KeyList,
    markers: KeyList,
    bytes: Bytes,
    block: u64,
    overwrite: bool,
    policy: MarkerPolicy,
}

impl Model for NewFile {
    ghost use Rattle.fs_files.specs.Creation.{Creation, coded_creation, created_of};
    ghost use Rattle.fs_files.specs.inner.Creation.{IsAsked};

    ghost Value = { Creation };

    ghost coded = { coded_creation };

    ghost view = { λ o. created_of o.bucket o.place o.bytes o.block o.overwrite o.policy };

    ghost invariant = { λ o. IsAsked (created_of o.bucket o.place o.bytes o.block o.overwrite o.policy) o.above
        o.markers };
}

type Answer = Result<(), FsRefusal>;

type CreateStep = Step<CreateStage, Answer>;

impl NewFile {
    /// The closed stream that has all bytes.
    fn stream(&self, key: &Key) -> Result<BlockStream, AllocError>
        ensures { IfOk result (λ stream. stream ≡ filled self.now.path.bucket key.now self.now.block self.now.bytes) }
    {
        let (bucket, key) = both(self.bucket.clone(), key.clone())?;
        let mut stream = BlockStream::start(
            self.alloc,
            StreamMode::Direct,
            bucket,
            key,
            self.block,
        );
        let written = stream.write(self.bytes.as_slice()).is_ok();
        if written && stream.close().is_ok() {
            return Ok(stream);
        }
        let_go(stream);
        Err(AllocError)
    }

    fn write(&self) -> Result<CreateStep, AllocError>
        ensures { IfOk result (λ step. step ≡ write_at self.now.path.key self.now) }
    {
        match self.place.key() {
            Some(key) => Ok(Step::Next(CreateStage::Write(self.stream(key)?))),
            None => Ok(Step::End(Err(FsRefusal::IsDirectory))),
        }
    }

    fn on_climb(&self, climbed: Climbed) -> Result<CreateStep, AllocError>
        ensures { IfOk result (λ step. step ≡ on_climb self.now climbed) }
    {
        match climbed {
            Climbed::File(key) => Ok(Step::End(Err(FsRefusal::NotDirectory(key)))),
            Climbed::On(climb) => Ok(Step::Next(CreateStage::Up(climb))),
            Climbed::Free => self.write(),
        }
    }

    fn climb(&self) -> Result<CreateStep, AllocError>
        ensures { IfOk result (λ step. step ≡ climb self.now) }
    {
        self.on_climb(Climb::over(copied_keys(self.alloc, &self.above)?))
    }

    fn on_here(&self, seen: Look) -> Result<CreateStep, AllocError>
        ensures { IfOk result (λ step. step ≡ on_here self.now.path.key self.now seen) }
    {
        if self.place.is_root() {
            return Ok(Step::End(Err(FsRefusal::IsDirectory)));
        }
        match seen {
            Look::There => {
                if self.overwrite {
                    self.climb()
                } else {
                    Ok(Step::End(Err(FsRefusal::AlreadyExists)))
                }
            }
            _ => Ok(Step::Next(CreateStage::Below)),
        }
    }

    fn on_below(&self, seen: Look) -> Result<CreateStep, AllocError>
        ensures { IfOk result (λ step. step ≡ on_below self.now seen) }
    {
        match seen {
            Look::There => Ok(Step::End(Err(FsRefusal::IsDirectory))),
            _ => self.climb(),
        }
    }

    fn ended(&self, end: StreamEnd) -> CreateStep
        ensures { result ≡ ended self.now end }
    {
        match end {
            StreamEnd::Done => {
                if self.markers.len() == 0 {
                    Step::End(Ok(()))
                } else {
                    Step::Next(CreateStage::DropMarkers)
                }
            }
            _ => Step::End(Err(FsRefusal::NotFound)),
        }
    }

    fn written(&self, stream: BlockStream) -> CreateStep
        ensures { result ≡ written self.now (end_of stream) stream }
    {
        match stream.end() {
            None => Step::Next(CreateStage::Write(stream)),
            Some(end) => {
                let_go(stream);
                self.ended(end)
            }
        }
    }

    fn heard(
        &self,
        stream: BlockStream,
        reply: &Reply,
        repeated: bool,
    ) -> Result<CreateStep, AllocError>
        ensures { IfOk result (λ step. step ≡ heard self.now stream reply.now repeated) }
    {
        let mut stream = stream;
        if !stream.is_answer(reply) {
            let_go(stream);
            return Ok(Step::End(Err(FsRefusal::NotFound)));
        }
        let Ok(()) = stream.take(reply, repeated) else {
            let_go(stream);
            return Err(AllocError);
        };
        Ok(self.written(stream))
    }

    fn ask_stream(&self, stream: &BlockStream) -> Result<Request, AllocError>
        ensures { IfOk result (λ request. request ≡ asked_or self.now (wanted stream.now)) }
    {
        match stream.request() {
            Some(request) => request.copied(self.alloc),
            None => self.place.look(&self.bucket),
        }
    }

    fn ask(&self, stage: &CreateStage) -> Result<Request, AllocError>
        ensures { IfOk result (λ request. request ≡ create.asks self.now stage.now) }
    {
        match stage {
            CreateStage::Here => self.place.look(&self.bucket),
            CreateStage::Below => self.place.below(&self.bucket, PageLimit::new(1)),
            CreateStage::Up(climb) => climb.request(&self.bucket),
            CreateStage::Write(stream) => self.ask_stream(stream),
            CreateStage::DropMarkers => {
                Request::delete_objects(self.alloc, &self.bucket, &self.markers)
            }
        }
    }

    fn next(
        &self,
        stage: CreateStage,
        reply: &Reply,
        repeated: bool,
    ) -> Result<CreateStep, AllocError>
        ensures { IfOk result (λ step. step ≡ create.goes self.now stage reply.now repeated) }
    {
        let seen = seen_in(reply);
        if let Look::NoBucket = seen {
            let_go(stage);
            return Ok(Step::End(Err(FsRefusal::NoSuchBucket)));
        }
        match stage {
            CreateStage::Here => self.on_here(seen),
            CreateStage::Below => self.on_below(seen),
            CreateStage::Up(climb) => self.on_climb(climb.hear(seen)?),
            CreateStage::Write(stream) => self.heard(stream, reply, repeated),
            CreateStage::DropMarkers => Ok(Step::End(Ok(()))),
        }
    }
}

/// Makes a file. (Hadoop FileSystem specification, create.) If the file is shorter than a block,
/// one put writes it; otherwise the parts of an upload do. Then one batch deletes the markers above
/// it, if the policy keeps none. At every point the file is as it was before, or the whole new
/// file.
///
/// The answer is one of these refusals, after which nothing has changed:
///
/// - `NoSuchBucket`, before all others, if there is no bucket.
/// - `IsDirectory` for the root, and if a directory exists at the path.
/// - `AlreadyExists` if a file exists that may not be replaced.
/// - `NotDirectory` with the key of the first directory above, from the root down, at which a file
///   exists.
///
/// This holds on a store whose least part is not longer than the block. On another store the upload
/// may be refused, and the answer is then `NotFound`. It sends two requests, one for each directory
/// above, one for each block, and three more. It keeps a second copy of the bytes, cut into blocks.
#[derive(Drop)]
pub struct CreateFile {
    pub file: NewFile,
    pub stage: CreateStage,
}

impl CreateFile {
    /// Begins to make a file with these bytes. `block` is the length in bytes of each of its parts
    /// but the last.
    pub fn new(
        alloc: Global,
        path: &S3Path,
        bytes: Bytes,
        block: u64,
        overwrite: bool,
        policy: MarkerPolicy,
    ) -> Result<CreateFile, AllocError>
        requires some { 1 ≤ block }
        requires room { length bytes ≤ block * MOST_PARTS }
        ensures file { IfOk result (λ plan. plan.file ≡ record {
          path = path.now;
          bytes = bytes;
          block = block;
          overwrite = overwrite;
          policy = policy;
        }) }
        ensures starts { IfOk result create.starts }
    {
        let at = both(path.bucket().clone(), Place::of(alloc, path));
        let lists = both(
            keys_above(alloc, path.key().as_str()),
            after_create(alloc, policy, path),
        );
        let Ok(((bucket, place), (above, markers))) = both(at, lists) else {
            let_go(bytes);
            return Err(AllocError);
        };
        Ok(CreateFile {
            file: NewFile {
                alloc,
                bucket,
                place,
                above,
                markers,
                bytes,
                block,
                overwrite,
                policy,
            },
            stage: CreateStage::Here,
        })
    }
}

impl Plan for CreateFile {
    type Answer = Result<(), FsRefusal>;

    ghost starts = { create.starts };

    ghost asks = { create.request };

    ghost goes = { create.led };

    ghost holds = { create.holds };

    ghost gives = { create.gives };

    ghost always = { create.always };

    ghost sends = { create.sends };

    ghost calm = { create.calm };

    ghost leaves = { create.leaves };

    ghost left = { create.left };

    fn ask(&self) -> Result<Request, AllocError> {
        self.file.ask(&self.stage)
    }

    fn next(self, reply: &Reply, repeated: bool) -> Result<Step<CreateFile, Answer>, AllocError> {
        let CreateFile { file, stage } = self;
        match file.next(stage, reply, repeated) {
            Ok(Step::Next(stage)) => Ok(Step::Next(CreateFile { file, stage })),
            Ok(Step::End(answer)) => {
                let_go(file);
                Ok(Step::End(answer))
            }
            Err(fault) => {
                let_go(file);
                Err(fault)
            }
        }
    }

    #[tactic(auto, using(crate::proofs::CreateLaws::create_laws, crate::proofs::CreateLaws::create_calm))]
    fn laws() {}
}
