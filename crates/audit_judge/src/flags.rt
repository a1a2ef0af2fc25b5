ghost use Rattle.std.specs.Prelude.{◌≡◌, ◌<◌, true, false, get_or, length, replicate, IfOk};
ghost use Rattle.audit_judge.specs.Narrowed.{has_flag};
ghost use Rattle.audit_judge.specs.inner.Narrowed.{lowered};

use std::alloc::{AllocError, Global};
use std::marker::Model;

/// A flag for each attempt of a task, in the order of the trace.
#[derive(Drop)]
pub(crate) struct Flags {
    flags: Vec<bool>,
}

impl Model for Flags {
    ghost use Rattle.std.specs.Prelude.{Bool, List};

    ghost Value = { List Bool };

    ghost view = { λ f. f.flags.items };
}

impl Flags {
    /// Returns `count` flags, all of them up. Fails only if memory runs out.
    pub(crate) fn all_up(alloc: Global, count: usize) -> Result<Flags, AllocError>
        ensures up { IfOk result (λ f. f ≡ replicate count true) }
    {
        let mut flags = Vec::new(alloc);
        for _done in 0..count {
            flags.push(true)?;
        }
        Ok(Flags { flags })
    }

    /// Returns whether some flag is up.
    pub(crate) fn has_any(&self) -> bool
        ensures any { result ≡ has_flag self.now }
    {
        self.flags.iter().any(|flag| *flag)
    }

    /// Takes a flag down unless its attempt meets a demand.
    pub(crate) fn lower_unless(&mut self, met: bool, at: usize)
        requires within { at < length self.old }
        ensures lowered { self.new ≡ lowered met at self.old }
    {
        if !met {
            self.flags[at] = false;
        }
    }

    /// Returns whether a flag is up.
    pub(crate) fn is_up(&self, at: usize) -> bool
        requires within { at < length self.now }
        ensures up { result ≡ get_or self.now at false }
    {
        self.flags[at]
    }
}
