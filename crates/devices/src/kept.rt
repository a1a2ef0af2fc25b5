//! A shelf that takes changes one by one, so that if the program stops, the changes made until
//! then are kept.
ghost use Rattle.std.specs.Prelude.{◌≡◌, ℕ, ◌⊎◌, IfOk, OnOk, OnErr, IsErrOf, true};
ghost use Rattle.log_format.specs.Change.{is_changing};
ghost use Rattle.devices.specs.Devices.{Rose};
ghost use Rattle.devices.specs.Logged.{Sight, Holding, IsLoaded, IsTooLarge, IsBad, fresh, HoldsFresh, HoldsGrown, HoldsOneOf, IsBeforeOrAfter, IsDurable, CrashesLeave, IsTimed, IsMeasured};
ghost use Rattle.devices.specs.Logged.Call.{Load, Replace, Append, AppendOutOfMemory};
ghost use Rattle.devices.specs.Causes.{IfBadLog};

mod memory;

use crate::device::Failed;
pub use log_format::{LoggedStore, RequestList};
pub use memory::MemShelf;
use s3_types::Request;

/// Why a load returned no store.
#[derive(Clone, Copy, PartialEq, Eq)]
pub enum LoadFault {
    Failed,
    /// The base has more than [`MOST_BASE`] bytes, or the file more than [`MOST_FILE`].
    TooLarge,
    /// The file is bad at this place, in bytes from its start.
    BadLog(u64),
    NoMemory,
}

/// Why an append failed.
#[derive(Clone, Copy, PartialEq, Eq)]
pub enum ShelfStop {
    Failed,
    NoMemory,
}

/// The most bytes of a base that a shelf loads.
pub const MOST_BASE: u64 = 1_073_741_824;

/// The most bytes of a file that a shelf loads.
pub const MOST_FILE: u64 = 2_147_483_648;

/// A place that keeps a store: its image, which is the base, and the changes after it.
pub trait Shelf {
    /// What it shows to contracts: what it holds, how its calls change it, and what a crash
    /// leaves.
    ghost sight: { Sight Self };

    /// How many calls have failed so far, at most 2^64 - 1.
    ghost faults: { Self → ℕ };

    /// It takes appends: from a `replace` that returns Ok until one of its calls returns Failed.
    ghost takes_appends: { Self → Type 0 };

    /// Returns what it holds, and leaves it there. Fails with TooLarge exactly if the base or the
    /// file is too large, and with BadLog if neither is and the file is bad at that place. After
    /// Ok, a crash leaves what was loaded.
    fn load(&mut self) -> Result<Option<LoggedStore>, LoadFault>
        ensures loaded { IfOk result (λ loaded. IsLoaded (sight.held self.old) loaded) }
        ensures large { IsErrOf result LoadFault.TooLarge → IsTooLarge (sight.held self.old) }
        ensures bad { IfBadLog result (λ place. IsBad (sight.held self.old) place) }
        ensures same { sight.held self.new ≡ sight.held self.old }
        ensures appends { (IsErrOf result LoadFault.Failed → ⊥) → takes_appends self.old → takes_appends self.new }
        ensures begins_none { takes_appends self.new → takes_appends self.old }
        ensures ends { IsErrOf result LoadFault.Failed → takes_appends self.new → ⊥ }
        ensures any_moment { CrashesLeave sight self.old self.new (sight.may_leave self.old) }
        ensures durable { OnOk result (IsDurable (sight.held self.new) (sight.may_leave self.new)) }
        ensures failed { IsErrOf result LoadFault.Failed → Rose (faults self.old) (faults self.new) }
        ensures answered { (IsErrOf result LoadFault.Failed → ⊥) → sight.answers Load self.old self.new }
        ensures broken { IsErrOf result LoadFault.Failed → sight.fails Load self.old self.new }
        ensures calm { (IsErrOf result LoadFault.Failed → ⊥) → faults self.new ≡ faults self.old };

    /// Holds this base and no changes in place of what it held. After a fault it holds what it
    /// held before. A crash during the call leaves what a crash before it may leave, or the new
    /// base. After Ok it leaves the new base.
    fn replace(&mut self, bytes: &[u8]) -> Result<(), Failed>
        ensures replaced { OnOk result (HoldsFresh (sight.held self.old) (sight.held self.new) bytes.now) }
        ensures appends { OnOk result (takes_appends self.new) }
        ensures ends { OnErr result (takes_appends self.new → ⊥) }
        ensures same { OnErr result (sight.held self.new ≡ sight.held self.old) }
        ensures any_moment { CrashesLeave sight self.old self.new
            (λ h. sight.may_leave self.old h ⊎ (h ≡ fresh bytes.now)) }
        ensures durable { OnOk result (IsDurable (sight.held self.new) (sight.may_leave self.new)) }
        ensures kept { OnErr result ((h : Holding) → sight.may_leave self.new h → sight.may_leave self.old h) }
        ensures failed { OnErr result (Rose (faults self.old) (faults self.new)) }
        ensures answered { OnOk result (sight.answers Replace self.old self.new) }
        ensures broken { OnErr result (sight.fails Replace self.old self.new) }
        ensures calm { OnOk result (faults self.new ≡ faults self.old) };

    /// Adds a change after those that it holds. A crash during the call leaves the changes of
    /// before, with or without the new one; after Ok, with it. After Failed, the changes are as
    /// before or include the new one. After NoMemory everything is as before.
    fn append(&mut self, change: &Request) -> Result<(), ShelfStop>
        requires changing { is_changing change.now ≡ true }
        requires appends { takes_appends self.old }
        ensures grown { OnOk result (HoldsGrown (sight.held self.old) (sight.held self.new) change.now) }
        ensures appends { (IsErrOf result ShelfStop.Failed → ⊥) → takes_appends self.new }
        ensures ends { IsErrOf result ShelfStop.Failed → takes_appends self.new → ⊥ }
        ensures same { IsErrOf result ShelfStop.NoMemory → sight.held self.new ≡ sight.held self.old }
        ensures kept { IsErrOf result ShelfStop.NoMemory
            → (h : Holding) → sight.may_leave self.new h → sight.may_leave self.old h }
        ensures one_of { IsErrOf result ShelfStop.Failed
            → HoldsOneOf (sight.held self.old) (sight.held self.new) change.now }
        ensures any_moment { CrashesLeave sight self.old self.new
            (IsBeforeOrAfter (sight.held self.old) change.now) }
        ensures durable { OnOk result (IsDurable (sight.held self.new) (sight.may_leave self.new)) }
        ensures failed { IsErrOf result ShelfStop.Failed → Rose (faults self.old) (faults self.new) }
        ensures answered { OnOk result (sight.answers Append self.old self.new) }
        ensures starved { IsErrOf result ShelfStop.NoMemory → sight.answers AppendOutOfMemory self.old self.new }
        ensures broken { IsErrOf result ShelfStop.Failed → sight.fails Append self.old self.new }
        ensures calm { (IsErrOf result ShelfStop.Failed → ⊥) → faults self.new ≡ faults self.old };

    /// How its times follow one another.
    ghost timed: { IsTimed sight };

    /// The lengths by which a load decides what is too large.
    ghost measured: { IsMeasured sight takes_appends };
}
