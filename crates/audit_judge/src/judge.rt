ghost use Rattle.std.specs.FinMap as fin;
ghost use Rattle.std.specs.List.Sorted.{IsStrictlySortedBy};
ghost use Rattle.std.specs.Prelude.{◌≡◌, ◌∷◌, ◌++◌, ◌<◌, List, [], None, true, false, cond, length, nat_lt, not, IfNone, IfOk, IfSome};
ghost use Rattle.std.specs.Prelude.{OnErr, OnOk};
ghost use Rattle.text_and_lists.specs.Order.{text_cmp};
ghost use Rattle.soundness.specs.Moments.{Moment};
ghost use Rattle.audit_claims.specs.Claims.{Tags, with_next};
ghost use Rattle.audit_claims.specs.Fits.{after_fit, fit_of};
ghost use Rattle.judging.specs.Listed.{has_attempt};
ghost use Rattle.audit_judge.specs.Bench.{now};
ghost use Rattle.audit_judge.specs.Changes.{changed, paths_of};
ghost use Rattle.audit_judge.specs.Deciding.{Answers};
ghost use Rattle.audit_judge.specs.Picking.{IsPick, NoPick};
ghost use Rattle.audit_judge.specs.Following.{Follows, FollowsSome, Waits, new_bench, rows_up};

use crate::change::Change;
use crate::flags::Flags;
use crate::known::Known;
use crate::moment::find_reason;
use crate::narrow::least_up;
use crate::reason::Reason;
use audit_claims::{Claims, Etags, FileFit, PathTags};
use s3_types::Text;
use soundness::{Keeps, Marker};
use std::alloc::{AllocError, Global};
use std::marker::Model;

/// A judge of a job's run. Contracts see what it knows.
#[derive(Drop)]
pub struct Judge {
    known: Known,
    begun: bool,
    marker: Marker,
    needed: bool,
    candidates: Vec<Flags>,
}

impl Model for Judge {
    ghost use Rattle.audit_judge.specs.Bench.{Bench};
    ghost use Rattle.audit_judge.specs.Codes.{coded_bench};
    ghost use Rattle.audit_judge.specs.Deciding.{bench_of};

    ghost Value = { Bench };

    ghost coded = { coded_bench };

    ghost view = { λ j. bench_of j.known j.begun j.marker j.needed j.candidates.items j.known.shown };
}

impl Judge {
    /// Returns a judge of a run of a job with this number of tasks, which keeps these opening
    /// files. It knows no attempt, file or opening file yet. Takes no memory.
    pub fn new(alloc: Global, keeps: Keeps, tasks: u32) -> Judge
        ensures new { result ≡ new_bench keeps tasks }
        ensures waits { Waits result }
    {
        Judge {
            known: Known {
                alloc,
                keeps,
                tasks,
                claims: Claims::new(alloc),
                opening: PathTags::new(alloc),
                shown: PathTags::new(alloc),
                directories: None,
            },
            begun: false,
            marker: Marker::Absent,
            needed: false,
            candidates: Vec::new(alloc),
        }
    }

    /// Returns how many tasks the job has.
    pub fn tasks(&self) -> u32
        ensures tasks { result ≡ self.now.tasks }
    {
        self.known.tasks
    }

    /// Returns whether some attempt is listed.
    pub fn has_attempts(&self) -> bool
        ensures some { result ≡ nat_lt 0 (length self.now.claimed.listed) }
    {
        !self.known.claims.is_empty()
    }

    /// Returns whether the run has begun.
    pub fn has_started(&self) -> bool
        ensures started { result ≡ self.now.started }
    {
        self.known.directories.is_some()
    }

    /// Returns whether the commit has begun.
    pub fn has_begun(&self) -> bool
        ensures begun { result ≡ self.now.begun }
    {
        self.begun
    }

    /// Returns which success marker exists.
    pub fn marker(&self) -> Marker
        ensures marker { result ≡ self.now.marker }
    {
        self.marker
    }

    /// Lists an attempt of a task, with no file yet; the files that are added next are its files.
    /// Returns false and lists nothing if the task has an attempt with this number already. Fails
    /// only if memory runs out; all is then unchanged.
    pub fn add_attempt(&mut self, task: u32, attempt: u32) -> Result<bool, AllocError>
        requires waits { Waits self.old }
        requires early { self.old.started ≡ false }
        requires below { task < self.old.tasks }
        ensures is_new { IfOk result (λ n. n ≡ not (has_attempt task attempt self.old.claimed.listed)) }
        ensures after { IfOk result (λ n. self.new
            ≡ record self.old { claimed = cond n (with_next task attempt self.old.claimed) self.old.claimed }) }
        ensures err { OnErr result (self.new ≡ self.old) }
        ensures waits { Waits self.new }
    {
        let is_new = self.known.add_attempt(task, attempt)?;
        Ok(is_new)
    }

    /// Lists a file of the attempt that was listed last, as `Claims::add_file` does. Fails only if
    /// memory runs out; all is then unchanged.
    pub fn add_file(&mut self, path: Text, etags: Etags) -> Result<FileFit, AllocError>
        requires waits { Waits self.old }
        requires early { self.old.started ≡ false }
        requires some { 0 < length self.old.claimed.listed }
        ensures fit { IfOk result (λ fit. fit ≡ fit_of self.old.claimed path) }
        ensures after { IfOk result (λ fit. self.new ≡ record self.old { claimed = after_fit fit path etags self.old.claimed }) }
        ensures err { OnErr result (self.new ≡ self.old) }
        ensures waits { Waits self.new }
    {
        let fit = self.known.add_file(path, etags)?;
        Ok(fit)
    }

    /// Notes that readers see a file at this path when the run begins. Fails only if memory runs
    /// out.
    pub fn add_opening(&mut self, path: Text, etags: Etags) -> Result<(), AllocError>
        requires waits { Waits self.old }
        requires early { self.old.started ≡ false }
        requires other { fin.get self.old.opening path ≡ None }
        ensures ok { OnOk result (self.new ≡ record self.old {
          opening = fin.insert self.old.opening path etags;
          shown = fin.insert self.old.opening path etags;
        }) }
        ensures waits { OnOk result (Waits self.new) }
    {
        self.known.add_opening(path, etags)?;
        Ok(())
    }

    /// Notes that an old success marker exists.
    pub fn mark_old(&mut self)
        requires waits { Waits self.old }
        requires early { self.old.started ≡ false }
        ensures after { self.new ≡ record self.old { marker = Marker.Old } }
        ensures waits { Waits self.new }
    {
        self.marker = Marker::Old;
    }

    /// Begins the run, after which no more attempts, files and opening files can come. Visits each
    /// file. Fails only if memory runs out; all is then unchanged.
    pub fn start(&mut self) -> Result<(), AllocError>
        requires waits { Waits self.old }
        requires early { self.old.started ≡ false }
        ensures after { OnOk result (self.new
            ≡ record self.old { started = true; candidates = rows_up self.old.claimed.listed }) }
        ensures follows { OnOk result (Follows self.new []) }
        ensures err { OnErr result (self.new ≡ self.old) }
    {
        let candidates = self.known.all_up()?;
        self.known.start()?;
        self.candidates = candidates;
        Ok(())
    }

    /// Notes that the commit begins.
    pub fn begin(&mut self)
        requires early { self.old.begun ≡ false }
        ensures begun { self.new ≡ record self.old { begun = true } }
        ensures follows { (moments : List (Moment Tags)) → Follows self.old moments
            → Follows self.new (moments ++ now self.new ∷ []) }
    {
        self.begun = true;
    }

    /// Notes that readers see these changes and that this marker exists from now on. The paths of
    /// the changes rise strictly by their bytes. Returns None if readers are still safe, else the
    /// first reason why not. Fails only if memory runs out.
    pub fn change(
        &mut self,
        changes: Vec<Change>,
        marker: Marker,
    ) -> Result<Option<Reason>, AllocError>
        requires started { self.old.started ≡ true }
        requires follows { FollowsSome self.old }
        requires rising { IsStrictlySortedBy text_cmp (paths_of changes.items) }
        requires old { marker ≡ Marker.Old → self.old.marker ≡ Marker.Old }
        ensures right { IfOk result (λ r. (moments : List (Moment Tags)) → Follows self.old moments
            → Answers self.old moments (paths_of changes.items) r self.new) }
        ensures after { IfOk result (λ _. self.new
            ≡ record (changed changes.items marker self.old) { needed = self.new.needed; candidates = self.new.candidates }) }
    {
        self.known.show(&changes)?;
        let was = self.marker;
        self.marker = marker;
        let reason = find_reason(
            &self.known,
            self.begun,
            was,
            marker,
            &mut self.needed,
            &changes,
            &mut self.candidates,
        )?;
        Ok(reason)
    }

    /// Returns the least number of an attempt of a task that explains all moments so far, if there
    /// is one.
    pub fn pick(&self, task: u32) -> Option<u32>
        requires follows { FollowsSome self.now }
        ensures some { (moments : List (Moment Tags)) → Follows self.now moments → IfSome result (IsPick self.now moments task) }
        ensures none { (moments : List (Moment Tags)) → Follows self.now moments → IfNone result (NoPick self.now moments task) }
    {
        let Some((at, attempts)) = self.known.place_by(task) else {
            return None;
        };
        least_up(attempts, &self.candidates[at])
    }
}
