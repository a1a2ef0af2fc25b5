ghost use Rattle.std.specs.Prelude.{◌≡◌, ℕ, ◌≤◌, ◌⊎◌, ◌++◌, List, Option, Some, None, is_some, length, IfOk, OnOk, OnErr, IsErrOf};
ghost use Rattle.devices.specs.Devices.{Rose};
ghost use Rattle.devices.specs.Calls.{one_more};
ghost use Rattle.folder_log.specs.Disk.{File, IsRead, IsTooLong, ShowsNow, IsWithin, Writes, IsTorn, Follows, Only, Settles, Elapses};

use devices::Failed;
use s3_types::Bytes;

/// Why a read of a disk failed.
#[derive(Clone, Copy, PartialEq, Eq)]
pub enum DiskFault {
    Failed,
    /// The file has more than 2,147,483,648 bytes.
    TooLarge,
    NoMemory,
}

/// A disk with one file. Between two syncs, a crash may leave any bytes in each range that was
/// written and past the old end; the bytes elsewhere stay. After a sync that returned Ok, a crash
/// leaves the file that a read gives.
pub trait LogDisk {
    /// The file that a read gives, even if too large, if the disk shows it: its bytes, or that
    /// there is no file.
    ghost seen: { Self → Option File };

    /// The files that a crash now may leave.
    ghost may_leave: { Self → File → Type 0 };

    /// The current time, as a number that does not fall.
    ghost moment: { Self → ℕ };

    /// The files that a crash at some point since the given time may have left, during a call or
    /// between two.
    ghost left_since: { Self → ℕ → File → Type 0 };

    /// How many calls were made so far, at most 2^64 - 1.
    ghost calls: { Self → ℕ };

    /// How many of them failed, at most 2^64 - 1.
    ghost faults: { Self → ℕ };

    /// How a call that does not fail may change the disk, if it shows which of its calls fail.
    ghost answers: { Self → Self → Type 0 };

    /// How a failed call may change it.
    ghost fails: { Self → Self → Type 0 };

    /// Returns the file's bytes, or None if there is no file. Fails with TooLarge exactly if the
    /// file has more than 2,147,483,648 bytes.
    fn read(&mut self) -> Result<Option<Bytes>, DiskFault>
        ensures bytes { IfOk result (λ bytes. IsRead (seen self.old) bytes) }
        ensures large { IsErrOf result DiskFault.TooLarge → IsTooLong (seen self.old) }
        ensures seen { seen self.new ≡ seen self.old }
        ensures crash { (c : File) → may_leave self.new c → may_leave self.old c }
        ensures time { Elapses (moment self.old) (moment self.new) (left_since self.old) (left_since self.new)
            (may_leave self.new) }
        ensures counted { calls self.new ≡ one_more (calls self.old) }
        ensures failed { IsErrOf result DiskFault.Failed → Rose (faults self.old) (faults self.new) }
        ensures answered { (IsErrOf result DiskFault.Failed → ⊥) → answers self.old self.new }
        ensures broken { IsErrOf result DiskFault.Failed → fails self.old self.new }
        ensures calm { (IsErrOf result DiskFault.Failed → ⊥) → faults self.new ≡ faults self.old };

    /// Replaces the whole file by three pieces, one after another. A crash during the call leaves
    /// the old file or the new one. After Ok it leaves the new one, and after an error the old
    /// one.
    fn swap(&mut self, head: &[u8], body: &[u8], tail: &[u8]) -> Result<(), Failed>
        ensures swapped { OnOk result (ShowsNow (seen self.old) (seen self.new) (head.now ++ (body.now ++ tail.now))) }
        ensures same { OnErr result (seen self.new ≡ seen self.old) }
        ensures durable { OnOk result (Only (Some (head.now ++ (body.now ++ tail.now))) (may_leave self.new)) }
        ensures kept { OnErr result ((c : File) → may_leave self.new c → may_leave self.old c) }
        ensures time { Elapses (moment self.old) (moment self.new) (left_since self.old) (left_since self.new)
            (λ c. may_leave self.new c ⊎ (c ≡ Some (head.now ++ (body.now ++ tail.now)))) }
        ensures counted { calls self.new ≡ one_more (calls self.old) }
        ensures failed { OnErr result (Rose (faults self.old) (faults self.new)) }
        ensures answered { OnOk result (answers self.old self.new) }
        ensures broken { OnErr result (fails self.old self.new) }
        ensures calm { OnOk result (faults self.new ≡ faults self.old) };

    /// Writes over the bytes at a place, perhaps past the end. Until a sync, a crash may leave any
    /// bytes in the range.
    fn write_at(&mut self, place: u64, bytes: &[u8]) -> Result<(), Failed>
        requires within { IsWithin place (seen self.old) }
        ensures written { OnOk result (Writes place bytes.now (seen self.old) (seen self.new)) }
        ensures told { is_some (seen self.new) ≡ is_some (seen self.old) }
        ensures crash { Follows (IsTorn place (length bytes.now)) (may_leave self.old) (may_leave self.new) }
        ensures time { Elapses (moment self.old) (moment self.new) (left_since self.old) (left_since self.new)
            (may_leave self.new) }
        ensures counted { calls self.new ≡ one_more (calls self.old) }
        ensures failed { OnErr result (Rose (faults self.old) (faults self.new)) }
        ensures answered { OnOk result (answers self.old self.new) }
        ensures broken { OnErr result (fails self.old self.new) }
        ensures calm { OnOk result (faults self.new ≡ faults self.old) };

    /// Puts everything on the disk: after Ok, a crash leaves the file that a read gives.
    fn sync(&mut self) -> Result<(), Failed>
        ensures seen { seen self.new ≡ seen self.old }
        ensures durable { OnOk result (Settles (seen self.old) (may_leave self.new)) }
        ensures crash { (c : File) → may_leave self.new c → may_leave self.old c }
        ensures time { Elapses (moment self.old) (moment self.new) (left_since self.old) (left_since self.new)
            (may_leave self.new) }
        ensures counted { calls self.new ≡ one_more (calls self.old) }
        ensures failed { OnErr result (Rose (faults self.old) (faults self.new)) }
        ensures answered { OnOk result (answers self.old self.new) }
        ensures broken { OnErr result (fails self.old self.new) }
        ensures calm { OnOk result (faults self.new ≡ faults self.old) };

    /// What a crash now may leave counts as left since each earlier time.
    ghost counts_now: { (disk : Self) (t : ℕ) (c : File) → t ≤ moment disk → may_leave disk c → left_since disk t c };

    /// Since the present time nothing else counts.
    ghost only_now: { (disk : Self) (c : File) → left_since disk (moment disk) c → may_leave disk c };

    /// A crash may leave the file that a read gives.
    ghost shows: { (disk : Self) (c : File) → seen disk ≡ Some c → may_leave disk c };
}
