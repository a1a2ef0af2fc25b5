ghost use Rattle.std.specs.Prelude.{◌≡◌, ◌++◌, drop, length, [], true, false, IfOk, OnOk};
ghost use Rattle.s3_types.specs.declared.request.Committer.{Committer};
ghost use Rattle.job_protocol.specs.AtWork.{job_script};
ghost use Rattle.list_walk.specs.Walks.{keys_on, walked};
ghost use Rattle.list_walk.specs.Fitting.{FitsPage};
ghost use Rattle.job_protocol.specs.Sparing.{sparing_start, sparing_asks, sparing_hears, names, walking, naming, reading_on, aborting, emptying, deleting, removing};
ghost use Rattle.cleanup.specs.inner.SparingHeld.{lists_keys, start_stage, within_of, read_asks};
ghost use Rattle.cleanup.specs.SparingHeld.{places_of, all_of, sparing_of};
ghost use Rattle.cleanup.specs.SparingFits.{FitsSparing};

use crate::listed::{next_place, shared_texts};
use crate::names::{add_names, records_in};
use crate::requests::{
    abort_request, delete_request, get_file_request, get_request, names_request, page_request,
    remove_request,
};
use job_model::{CleanEnd, JobPlan};
use list_walk::KeyWalk;
use s3_types::{Committer, KeyList, Reply, Request, TextList, UploadList, let_go, put};
use std::alloc::{AllocError, Global};

/// The most keys that a batch may have. (Amazon S3 API: DeleteObjects.)
const BATCH: usize = 1000;

/// The stage of a sparing clean.
#[derive(Clone, Copy)]
pub enum SparingStage {
    /// Lists the keys below the job's magic directory.
    Walking,
    /// Lists the job's files in the cluster.
    Naming,
    /// Reads the record or the set at the current place.
    Reading,
    /// Aborts the upload at the current place.
    Aborting,
    /// Deletes the keys from the current place on.
    Deleting,
    /// Deletes the file at the current place.
    Removing,
    Over(CleanEnd),
}

/// A sparing clean in progress:
///
/// - its stage;
/// - for a magic job, the walk over its keys and, once that is complete, the keys and those among
///   them that belong to records;
/// - for a staging job, the paths of its files;
/// - the uploads named so far;
/// - the place among the records or paths, the uploads, or the keys or paths.
#[derive(Drop)]
pub struct SparingState {
    pub stage: SparingStage,
    pub walk: KeyWalk,
    pub keys: KeyList,
    pub records: KeyList,
    pub paths: TextList,
    pub named: UploadList,
    pub at: usize,
}

/// Returns the first stage, which lists the keys or the files.
fn start_stage(committer: Committer) -> SparingStage
    ensures { result ≡ start_stage committer }
{
    match committer {
        Committer::Magic => SparingStage::Walking,
        _ => SparingStage::Naming,
    }
}

impl SparingState {
    /// Returns a sparing clean that has sent nothing yet. Takes no memory.
    pub fn new(alloc: Global, committer: Committer) -> SparingState
        ensures start { sparing_of committer result ≡ sparing_start committer }
        ensures within { within_of committer result ≡ true }
    {
        SparingState {
            stage: start_stage(committer),
            walk: KeyWalk::new(alloc),
            keys: KeyList::new(alloc),
            records: KeyList::new(alloc),
            paths: TextList::new(alloc),
            named: UploadList::new(alloc),
            at: 0,
        }
    }

    /// Returns the request that reads the record or the set at the current place, or None if there
    /// is none.
    fn read_request(&self, plan: &JobPlan) -> Result<Option<Request>, AllocError>
        ensures { IfOk result (λ request. request ≡ read_asks plan.now.committer (job_script plan.now)
            (drop self.now.at (places_of plan.now.committer self.now))) }
    {
        match plan.committer {
            Committer::Magic => {
                get_request(plan.dest.bucket(), self.records.as_slice(), self.at)
            }
            _ => get_file_request(self.paths.as_slice(), self.at),
        }
    }

    /// Returns the next request, or None if the clean is over.
    pub fn request(&self, alloc: Global, plan: &JobPlan) -> Result<Option<Request>, AllocError>
        ensures { IfOk result (λ request. request ≡ sparing_asks (job_script plan.now)
            (sparing_of plan.now.committer self.now)) }
    {
        match self.stage {
            SparingStage::Walking => page_request(alloc, &plan.dest, &plan.job, &self.walk),
            SparingStage::Naming => names_request(alloc, &plan.job),
            SparingStage::Reading => self.read_request(plan),
            SparingStage::Aborting => {
                abort_request(plan.dest.bucket(), self.named.as_slice(), self.at)
            }
            SparingStage::Deleting => {
                delete_request(alloc, plan.dest.bucket(), self.keys.as_slice(), self.at)
            }
            SparingStage::Removing => remove_request(self.paths.as_slice(), self.at),
            SparingStage::Over(_) => Ok(None),
        }
    }

    /// Goes to the deletion of the keys from this place on, or ends if none is left.
    fn delete_from(&mut self, at: usize)
        ensures goes { (c : Committer) → sparing_of c self.new ≡ deleting (drop at self.old.keys) }
        ensures within { (c : Committer) → within_of c self.new ≡ true }
    {
        if at >= self.keys.len() {
            self.stage = SparingStage::Over(CleanEnd::Done);
            return;
        }
        self.stage = SparingStage::Deleting;
        self.at = at;
    }

    /// Goes to the deletion of the cluster file at this place, or ends if none is left.
    fn remove_from(&mut self, at: usize)
        ensures goes { (c : Committer) → sparing_of c self.new ≡ removing (drop at self.old.paths) }
        ensures within { (c : Committer) → within_of c self.new ≡ true }
    {
        if at >= self.paths.len() {
            self.stage = SparingStage::Over(CleanEnd::Done);
            return;
        }
        self.stage = SparingStage::Removing;
        self.at = at;
    }

    /// Goes to the deletion of all that was listed.
    fn empty(&mut self, committer: Committer)
        ensures goes { sparing_of committer self.new ≡ emptying committer (all_of committer self.old) }
        ensures within { within_of committer self.new ≡ true }
    {
        match committer {
            Committer::Magic => self.delete_from(0),
            _ => self.remove_from(0),
        }
    }

    /// Goes to the abort of the upload at this place, and after the last to the deletion of all
    /// that was listed.
    fn abort_from(&mut self, committer: Committer, at: usize)
        ensures goes { sparing_of committer self.new ≡ aborting committer (drop at self.old.named)
            (all_of committer self.old) }
        ensures within { within_of committer self.new ≡ true }
    {
        if at >= self.named.len() {
            self.empty(committer);
            return;
        }
        self.stage = SparingStage::Aborting;
        self.at = at;
    }

    /// Returns how many records or sets there are to read.
    fn count(&self, committer: Committer) -> usize
        ensures { result ≡ length (places_of committer self.now) }
    {
        match committer {
            Committer::Magic => self.records.len(),
            _ => self.paths.len(),
        }
    }

    /// Goes to the read of the record or set at this place, and after the last to the aborts of the
    /// named uploads.
    fn read_from(&mut self, committer: Committer, at: usize)
        ensures goes { sparing_of committer self.new ≡ reading_on committer self.old.named
            (drop at (places_of committer self.old)) (all_of committer self.old) }
        ensures within { within_of committer self.new ≡ true }
    {
        if at >= self.count(committer) {
            self.abort_from(committer, 0);
            return;
        }
        self.stage = SparingStage::Reading;
        self.at = at;
    }

    /// Goes to the read of these records, which are among these keys of a magic job.
    fn read_records(&mut self, alloc: Global, committer: Committer, keys: KeyList, records: KeyList)
        requires { lists_keys committer ≡ true }
        ensures goes { sparing_of committer self.new ≡ reading_on committer [] records keys }
        ensures within { within_of committer self.new ≡ true }
    {
        put(&mut self.keys, keys);
        put(&mut self.records, records);
        put(&mut self.named, UploadList::new(alloc));
        self.read_from(committer, 0);
    }

    /// Goes to the read of the sets that a staging job has at these paths.
    fn read_sets(&mut self, alloc: Global, committer: Committer, paths: TextList)
        requires { lists_keys committer ≡ false }
        ensures goes { sparing_of committer self.new ≡ reading_on committer [] paths paths }
        ensures within { within_of committer self.new ≡ true }
    {
        put(&mut self.paths, paths);
        put(&mut self.named, UploadList::new(alloc));
        self.read_from(committer, 0);
    }

    fn hear_page(
        &mut self,
        alloc: Global,
        committer: Committer,
        reply: &Reply,
    ) -> Result<(), AllocError>
        requires stage { self.old.stage ≡ SparingStage.Walking }
        requires keys { lists_keys committer ≡ true }
        requires fits { FitsPage reply.now }
        ensures goes { OnOk result (sparing_of committer self.new ≡ walking committer
            (walked (keys_on self.old.walk) reply.now)) }
        ensures within { within_of committer self.new ≡ true }
    {
        if self.walk.hear(reply)? {
            return Ok(());
        }
        let keys = self.walk.keys(alloc)?;
        let Ok(records) = records_in(alloc, keys.as_slice()) else {
            let_go(keys);
            return Err(AllocError);
        };
        self.read_records(alloc, committer, keys, records);
        Ok(())
    }

    fn hear_names(
        &mut self,
        alloc: Global,
        committer: Committer,
        reply: &Reply,
    ) -> Result<(), AllocError>
        requires stage { self.old.stage ≡ SparingStage.Naming }
        requires paths { lists_keys committer ≡ false }
        ensures goes { OnOk result (sparing_of committer self.new ≡ naming committer reply.now) }
        ensures within { within_of committer self.new ≡ true }
    {
        let Reply::ClusterNames(paths) = reply else {
            return Ok(());
        };
        let paths = shared_texts(alloc, paths.as_slice())?;
        self.read_sets(alloc, committer, paths);
        Ok(())
    }

    /// Notes the uploads of the record or the set at the current place, and goes to the next.
    fn hear_read(
        &mut self,
        alloc: Global,
        committer: Committer,
        reply: &Reply,
    ) -> Result<(), AllocError>
        requires stage { self.old.stage ≡ SparingStage.Reading }
        requires there { within_of committer self.old ≡ true }
        ensures goes { OnOk result (sparing_of committer self.new ≡ reading_on committer
            (self.old.named ++ names reply.now) (drop 1 (drop self.old.at (places_of committer self.old)))
            (all_of committer self.old)) }
        ensures within { within_of committer self.new ≡ true }
    {
        add_names(alloc, &mut self.named, reply)?;
        let at = next_place(self.at, 1, self.count(committer));
        self.read_from(committer, at);
        Ok(())
    }

    /// Goes to the next upload after the current one was aborted.
    fn abort_next(&mut self, committer: Committer)
        ensures goes { sparing_of committer self.new ≡ aborting committer (drop 1 (drop self.old.at self.old.named))
            (all_of committer self.old) }
        ensures within { within_of committer self.new ≡ true }
    {
        let at = next_place(self.at, 1, self.named.len());
        self.abort_from(committer, at);
    }

    /// Goes to the next batch after the current one was deleted.
    fn delete_next(&mut self)
        ensures goes { (c : Committer) → sparing_of c self.new ≡ deleting (drop 1000 (drop self.old.at self.old.keys)) }
        ensures within { (c : Committer) → within_of c self.new ≡ true }
    {
        let at = next_place(self.at, BATCH, self.keys.len());
        self.delete_from(at);
    }

    /// Goes to the next file after the current one was deleted.
    fn remove_next(&mut self)
        ensures goes { (c : Committer) → sparing_of c self.new ≡ removing (drop 1 (drop self.old.at self.old.paths)) }
        ensures within { (c : Committer) → within_of c self.new ≡ true }
    {
        let at = next_place(self.at, 1, self.paths.len());
        self.remove_from(at);
    }

    /// Takes the reply to the current request.
    pub fn hear(&mut self, alloc: Global, plan: &JobPlan, reply: &Reply) -> Result<(), AllocError>
        requires there { within_of plan.now.committer self.old ≡ true }
        requires fits { FitsSparing (sparing_of plan.now.committer self.old) reply.now }
        ensures goes { OnOk result (sparing_of plan.now.committer self.new ≡ sparing_hears (job_script plan.now)
            (sparing_of plan.now.committer self.old) reply.now) }
        ensures within { within_of plan.now.committer self.new ≡ true }
    {
        let committer = plan.committer;
        match self.stage {
            SparingStage::Walking => self.hear_page(alloc, committer, reply),
            SparingStage::Naming => self.hear_names(alloc, committer, reply),
            SparingStage::Reading => self.hear_read(alloc, committer, reply),
            SparingStage::Aborting => {
                self.abort_next(committer);
                Ok(())
            }
            SparingStage::Deleting => {
                self.delete_next();
                Ok(())
            }
            SparingStage::Removing => {
                self.remove_next();
                Ok(())
            }
            SparingStage::Over(_) => Ok(()),
        }
    }
}
