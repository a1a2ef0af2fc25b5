ghost use Rattle.std.specs.Prelude.{◌≡◌, OnOk, OnErr};
ghost use Rattle.devices.specs.Devices.{Rose};
ghost use Rattle.devices.specs.Calls.{unused, is_named, Answers, Fails};
ghost use Rattle.devices.specs.Calls.{is_behind as behind};
ghost use Rattle.devices.specs.declared.calls.Calls.{Calls as Counted};

use crate::device::{CallList, Failed};

/// The counts of a device in memory, and which of its calls fail: those that `fail` names by their
/// numbers from 1, and each one after `stop`. `made` counts all calls, `faults` those that failed,
/// and `wanting` those that ran out of memory. Each count is at most 2^64 - 1.
#[derive(Drop)]
pub struct Calls {
    pub made: u64,
    pub fail: CallList,
    pub stop: Option<u64>,
    pub faults: u64,
    pub wanting: u64,
}

/// Whether a call of this number comes after the stop.
fn is_behind(stop: Option<u64>, call: u64) -> bool
    ensures { result ≡ behind stop call }
{
    match stop {
        Some(stop) => call > stop,
        None => false,
    }
}

impl Calls {
    /// The counts before the first call. Takes no memory.
    pub fn new(fail: CallList, stop: Option<u64>) -> Calls
        ensures { result ≡ unused fail stop }
    {
        Calls {
            made: 0,
            fail,
            stop,
            faults: 0,
            wanting: 0,
        }
    }

    /// Whether the next call is to fail.
    fn is_named(&self) -> bool
        ensures { result ≡ is_named self.now }
    {
        let next = self.made.saturating_add(1);
        is_behind(self.stop, next) || self.fail.as_slice().contains(&next)
    }

    /// Counts one more call. Fails, and counts a fault, if that call is to fail.
    pub fn next(&mut self) -> Result<(), Failed>
        ensures answered { OnOk result (Answers self.old self.new) }
        ensures broken { OnErr result (Fails self.old self.new) }
        ensures failed { OnErr result (Rose self.old.faults self.new.faults) }
    {
        let named = self.is_named();
        self.made = self.made.saturating_add(1);
        if named {
            self.faults = self.faults.saturating_add(1);
            return Err(Failed);
        }
        Ok(())
    }

    /// Counts the last call as one that ran out of memory.
    pub fn starve(&mut self) -> Failed
        ensures fails { (before : Counted) → Answers before self.old → Fails before self.new }
        ensures failed { Rose self.old.faults self.new.faults }
    {
        self.faults = self.faults.saturating_add(1);
        self.wanting = self.wanting.saturating_add(1);
        Failed
    }
}
