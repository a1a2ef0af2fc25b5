ghost use Rattle.std.specs.FinMap as fin;
ghost use Rattle.std.specs.List.{find, list_any};
ghost use Rattle.std.specs.Map.{lookup};
ghost use Rattle.std.specs.Option.{option_copied, unwrap_or};
ghost use Rattle.std.specs.Prelude.{◌≡◌, ◌<◌, None, true, false, cond, length, not, is_some, map, nat_eq, slice_get, IfNone, IfOk};
ghost use Rattle.std.specs.Prelude.{IfSome, OnErr, OnOk};
ghost use Rattle.soundness.specs.Claims.{always_reaches, is_kept, is_replaced, reaches};
ghost use Rattle.judging.specs.Listed.{has_attempt, owner};
ghost use Rattle.audit_claims.specs.Claims.{with_next};
ghost use Rattle.audit_claims.specs.Fits.{after_fit, fit_of};
ghost use Rattle.audit_judge.specs.Changes.{change_all, paths_of};
ghost use Rattle.audit_judge.specs.Following.{GoodList, rows_up};
ghost use Rattle.audit_judge.specs.inner.Scene.{claim_in, meets, seen, shows_sign};
ghost use Rattle.audit_judge.specs.inner.Tests.{attempts_of, foreign_at, has_content, left_at, lost_at};

use crate::change::Change;
use crate::flags::Flags;
use crate::shows::show_all;
use crate::signs::{Demand, Sign, fits, has_content, is_whole, same_tags};
use audit_claims::{Attempts, Claims, Directories, Etags, FileFit, PathTags};
use s3_types::Text;
use soundness::Keeps;
use std::alloc::{AllocError, Global};
use std::marker::Model;

/// The claim of a job, what readers saw when its run began, and what they see now.
#[derive(Drop)]
pub(crate) struct Known {
    pub(crate) alloc: Global,
    pub(crate) keeps: Keeps,
    pub(crate) tasks: u32,
    pub(crate) claims: Claims,
    pub(crate) opening: PathTags,
    pub(crate) shown: PathTags,
    pub(crate) directories: Option<Directories>,
}

impl Model for Known {
    ghost use Rattle.std.specs.Prelude.{is_some};
    ghost use Rattle.audit_judge.specs.Codes.{coded_scene};
    ghost use Rattle.audit_judge.specs.inner.Scene.{AreKnown};
    ghost use Rattle.audit_judge.specs.Scene.{Scene};

    ghost Value = { Scene };

    ghost coded = { coded_scene };

    ghost view = { λ k. record { keeps = k.keeps; tasks = k.tasks; claimed = k.claims; opening = k.opening; shown = k.shown; started = is_some k.directories } };

    ghost invariant = { λ k. AreKnown k.claims.listed k.directories };
}

impl Known {
    /// Returns whether the path is below a directory that some attempt writes into.
    fn is_reached(&self, path: &Text) -> bool
        requires started { self.now.started ≡ true }
        requires good { GoodList self.now.tasks self.now.claimed.listed }
        ensures reached { result ≡ list_any (list_any (reaches path.now)) (claim_in self.now).tasks }
    {
        match &self.directories {
            Some(directories) => directories.is_reached(path),
            None => unreachable!(),
        }
    }

    /// Returns whether the path is below a directory that all attempts of some task write into.
    fn is_always_reached(&self, path: &Text) -> bool
        requires started { self.now.started ≡ true }
        requires good { GoodList self.now.tasks self.now.claimed.listed }
        ensures reached { result ≡ list_any (always_reaches path.now) (claim_in self.now).tasks }
    {
        match &self.directories {
            Some(directories) => directories.is_always_reached(path),
            None => unreachable!(),
        }
    }

    /// Returns whether an opening file at the path must stay.
    pub(crate) fn is_kept(&self, path: &Text) -> bool
        requires started { self.now.started ≡ true }
        requires good { GoodList self.now.tasks self.now.claimed.listed }
        ensures kept { result ≡ is_kept (claim_in self.now) path.now }
    {
        match self.keeps {
            Keeps::Everything => true,
            Keeps::Partitions => !self.is_reached(path),
            Keeps::Nothing => false,
        }
    }

    /// Returns whether an opening file at the path must go.
    pub(crate) fn is_replaced(&self, path: &Text) -> bool
        requires started { self.now.started ≡ true }
        requires good { GoodList self.now.tasks self.now.claimed.listed }
        ensures replaced { result ≡ is_replaced (claim_in self.now) path.now }
    {
        match self.keeps {
            Keeps::Everything => false,
            Keeps::Partitions => self.is_always_reached(path),
            Keeps::Nothing => true,
        }
    }

    /// Returns whether what readers see at a path meets a demand on an attempt that has this file
    /// there.
    pub(crate) fn meets(&self, demand: Demand, path: &Text, file: Option<&Etags>) -> bool
        requires started { self.now.started ≡ true }
        requires good { GoodList self.now.tasks self.now.claimed.listed }
        ensures meets { result ≡ meets demand self.now path.now (option_copied file.entry) }
    {
        let kept = self.is_kept(path);
        let opening = self.opening.get(path);
        let shown = self.shown.get(path);
        match demand {
            Demand::Part => fits(kept, opening, file, shown),
            Demand::Whole => is_whole(kept, self.is_replaced(path), opening, file, shown),
        }
    }

    /// Returns the place and the number of the task that writes the path, with its attempts, if
    /// there is one.
    pub(crate) fn place_of(&self, path: &Text) -> Option<(usize, u32, &Attempts)>
        ensures found { IfSome result (λ r. slice_get self.now.claimed.listed r.0 ≡ Some (r.1, r.2.now)) }
        ensures owner { IfSome result (λ r. owner path.now self.now.claimed.listed ≡ Some r.1) }
        ensures free { IfNone result (owner path.now self.now.claimed.listed ≡ None) }
    {
        let Some(task) = self.claims.owner(path) else {
            return None;
        };
        match self.claims.held().get_full(&task) {
            Some((at, _, attempts)) => Some((at, task, attempts)),
            None => unreachable!(),
        }
    }

    /// Returns the place of a task with its attempts, if it has any.
    pub(crate) fn place_by(&self, task: u32) -> Option<(usize, &Attempts)>
        ensures found { IfSome result (λ r. slice_get self.now.claimed.listed r.0 ≡ Some (task, r.1.now)) }
        ensures none { IfNone result (lookup (nat_eq task) self.now.claimed.listed ≡ None) }
    {
        match self.claims.held().get_full(&task) {
            Some((at, _, attempts)) => Some((at, attempts)),
            None => None,
        }
    }

    /// Returns whether no attempt writes the path.
    fn is_free(&self, path: &Text) -> bool
        ensures free { result ≡ not (is_some (owner path.now self.now.claimed.listed)) }
    {
        self.claims.owner(path).is_none()
    }

    /// Returns whether some attempt has this content at the path.
    fn has_content(&self, path: &Text, content: &Etags) -> bool
        ensures has { result ≡ has_content path.now content.now
            (attempts_of self.now.claimed.listed (owner path.now self.now.claimed.listed)) }
    {
        let Some(task) = self.claims.owner(path) else {
            return false;
        };
        match self.claims.attempts(task) {
            Some(attempts) => has_content(path, content, attempts),
            None => false,
        }
    }

    fn differs(&self, path: &Text) -> bool
        ensures differs { result ≡ shows_sign Sign.Differs self.now path.now }
    {
        !same_tags(self.shown.get(path), self.opening.get(path))
    }

    fn is_foreign(&self, path: &Text) -> bool
        ensures foreign { result ≡ foreign_at self.now.claimed.listed (seen self.now.opening) (seen self.now.shown) path.now }
    {
        match self.shown.get(path) {
            Some(content) => {
                !same_tags(self.opening.get(path), Some(content))
                    && !self.has_content(path, content)
            }
            None => false,
        }
    }

    fn is_lost(&self, path: &Text) -> bool
        requires started { self.now.started ≡ true }
        requires good { GoodList self.now.tasks self.now.claimed.listed }
        ensures lost { result
            ≡ lost_at (claim_in self.now) self.now.claimed.listed (seen self.now.opening) (seen self.now.shown) path.now }
    {
        self.is_free(path)
            && self.opening.get(path).is_some()
            && self.shown.get(path).is_none()
            && self.is_kept(path)
    }

    fn is_left(&self, path: &Text) -> bool
        requires started { self.now.started ≡ true }
        requires good { GoodList self.now.tasks self.now.claimed.listed }
        ensures left { result
            ≡ left_at (claim_in self.now) self.now.claimed.listed (seen self.now.opening) (seen self.now.shown) path.now }
    {
        self.is_free(path)
            && self.opening.get(path).is_some()
            && self.shown.get(path).is_some()
            && self.is_replaced(path)
    }

    /// Returns whether a path shows a sign against the run.
    pub(crate) fn shows_sign(&self, sign: Sign, path: &Text) -> bool
        requires started { self.now.started ≡ true }
        requires good { GoodList self.now.tasks self.now.claimed.listed }
        ensures shows { result ≡ shows_sign sign self.now path.now }
    {
        match sign {
            Sign::Differs => self.differs(path),
            Sign::Foreign => self.is_foreign(path),
            Sign::Lost => self.is_lost(path),
            Sign::Left => self.is_left(path),
        }
    }

    /// Returns the first changed path that shows a sign.
    pub(crate) fn first_changed<'a>(&self, sign: Sign, changes: &'a [Change]) -> Option<&'a Text>
        requires started { self.now.started ≡ true }
        requires good { GoodList self.now.tasks self.now.claimed.listed }
        ensures first { option_copied result ≡ find (shows_sign sign self.now) (paths_of changes.now) }
    {
        for change in changes {
            if self.shows_sign(sign, &change.path) {
                return Some(&change.path);
            }
        }
        None
    }

    /// Returns the first path at which readers see a file and that shows a sign.
    pub(crate) fn first_shown(&self, sign: Sign) -> Option<&Text>
        requires started { self.now.started ≡ true }
        requires good { GoodList self.now.tasks self.now.claimed.listed }
        ensures first { option_copied result
            ≡ find (shows_sign sign self.now) (map (λ e. e.0) (fin.entries self.now.shown)) }
    {
        for (path, _) in self.shown.held() {
            if self.shows_sign(sign, path) {
                return Some(path);
            }
        }
        None
    }

    /// Notes that readers see these changes, one after the other. Fails only if memory runs out;
    /// some of the changes are then noted.
    pub(crate) fn show(&mut self, changes: &[Change]) -> Result<(), AllocError>
        ensures ok { OnOk result (self.new ≡ record self.old { shown = change_all changes.now self.old.shown }) }
    {
        show_all(&mut self.shown, changes)
    }

    /// Lists an attempt of a task. Fails only if memory runs out; all is then unchanged.
    pub(crate) fn add_attempt(&mut self, task: u32, attempt: u32) -> Result<bool, AllocError>
        requires early { self.old.started ≡ false }
        ensures is_new { IfOk result (λ n. n ≡ not (has_attempt task attempt self.old.claimed.listed)) }
        ensures after { IfOk result (λ n. self.new
            ≡ record self.old { claimed = cond n (with_next task attempt self.old.claimed) self.old.claimed }) }
        ensures err { OnErr result (self.new ≡ self.old) }
    {
        self.claims.add_attempt(task, attempt)
    }

    /// Lists a file of the attempt that was listed last. Fails only if memory runs out; all is then
    /// unchanged.
    pub(crate) fn add_file(&mut self, path: Text, etags: Etags) -> Result<FileFit, AllocError>
        requires early { self.old.started ≡ false }
        requires some { 0 < length self.old.claimed.listed }
        ensures fit { IfOk result (λ fit. fit ≡ fit_of self.old.claimed path) }
        ensures after { IfOk result (λ fit. self.new ≡ record self.old { claimed = after_fit fit path etags self.old.claimed }) }
        ensures err { OnErr result (self.new ≡ self.old) }
    {
        self.claims.add_file(path, etags)
    }

    /// Notes that readers see a file in the opening. Fails only if memory runs out.
    pub(crate) fn add_opening(&mut self, path: Text, etags: Etags) -> Result<(), AllocError>
        ensures ok { OnOk result (self.new ≡ record self.old {
          opening = fin.insert self.old.opening path etags;
          shown = fin.insert self.old.shown path etags;
        }) }
    {
        let other_path = path.clone()?;
        let other_etags = etags.clone()?;
        self.opening.put(other_path, other_etags)?;
        self.shown.put(path, etags)
    }

    /// Notes that no more attempts and files can come. Fails only if memory runs out; all is then
    /// unchanged.
    pub(crate) fn start(&mut self) -> Result<(), AllocError>
        ensures ok { OnOk result (self.new ≡ record self.old { started = true }) }
        ensures err { OnErr result (self.new ≡ self.old) }
    {
        let directories = Directories::of(self.alloc, &self.claims)?;
        self.directories = Some(directories);
        Ok(())
    }

    /// Returns a flag for each attempt of each listed task, all of them up. Fails only if memory
    /// runs out.
    pub(crate) fn all_up(&self) -> Result<Vec<Flags>, AllocError>
        ensures up { IfOk result (λ rows. rows.items ≡ rows_up self.now.claimed.listed) }
    {
        let mut rows = Vec::new(self.alloc);
        for (_, attempts) in self.claims.held() {
            let flags = Flags::all_up(self.alloc, attempts.held().len())?;
            rows.push(flags)?;
        }
        Ok(rows)
    }
}
