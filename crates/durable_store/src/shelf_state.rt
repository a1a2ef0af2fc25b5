ghost use Rattle.std.specs.Prelude.{◌≡◌, ◌≢◌, ◌<◌, ◌-◌, ◌^◌, Some, IfOk, OnOk, IsErrOf};
ghost use Rattle.devices.specs.Logged.{Stored, IsDurable, CrashesLeave};
ghost use Rattle.devices.specs.Logged.Holding.{Stands};
ghost use Rattle.devices.specs.Logged.Call.{Load};
ghost use Rattle.store_image.specs.Fault.{number_of, place_in};
ghost use Rattle.store_image.specs.Reading.{content_in};
ghost use Rattle.s3_types.specs.Store.{Content};
ghost use Rattle.store_image.specs.Content.{IsContent};
ghost use Rattle.journal_log.specs.Changes.{content_after};
ghost use Rattle.journal_log.specs.Images.{Counts};
ghost use Rattle.durable_store.specs.Stores.{counted, unfolded, found};
ghost use Rattle.durable_store.specs.Outcomes.{IsSound, LoadsAgain, AreAtKeys, IsOf, WhereSound};

use crate::folding::follow_all;
use devices::kept::{LoadFault, LoggedStore, MOST_BASE, Shelf, ShelfStop};
use s3_service::Service;
use s3_types::{Request, let_go};
use std::alloc::{AllocError, Global};
use store_image::{ImageFault, decode};

/// What a shelf was found to hold.
#[derive(Drop)]
pub enum ShelfState {
    Nothing,
    Store(Service),
    /// Something that is no store, with the number of its first fault and its place in bytes from
    /// the start. Three faults are not the image's own:
    ///
    /// - 8: more bytes than are loaded. The place is the most bytes of a base.
    /// - 9: a bad log.
    /// - 5, at place 0: the counter of uploads is over 2^62 after the changes.
    Faulty { number: u8, place: u64 },
}

/// The number of the fault for a counter that is too high.
const TOO_HIGH: u8 = 5;

/// The number of the fault for too many bytes.
const TOO_LARGE: u8 = 8;

/// The number of the fault for a bad log.
const BAD_LOG: u8 = 9;

/// What is held if its image has this fault. Fails if the fault is memory that ran out.
fn faulty(fault: ImageFault) -> Result<ShelfState, AllocError>
    ensures exact { IfOk result (λ held. held ≡ ShelfState.Faulty (number_of fault) (place_in fault)) }
    ensures read { OnOk result (fault ≢ ImageFault.NoMemory) }
{
    match fault {
        ImageFault::NoMemory => Err(AllocError),
        _ => Ok(ShelfState::Faulty {
            number: fault.number(),
            place: fault.place(),
        }),
    }
}

/// The store after the changes, or the fault for a counter that is too high.
fn followed(mut service: Service, changes: &[Request]) -> Result<ShelfState, AllocError>
    ensures exact { IfOk result (λ held. held ≡ counted (content_after service changes.now)) }
    ensures sound { IfOk result (λ held. IsContent service → IsSound held) }
{
    match follow_all(&mut service, changes) {
        Ok(true) => Ok(ShelfState::Store(service)),
        Ok(false) => {
            let_go(service);
            Ok(ShelfState::Faulty {
                number: TOO_HIGH,
                place: 0,
            })
        }
        Err(error) => {
            let_go(service);
            Err(error)
        }
    }
}

/// The store that the base and the changes make, or the first fault.
fn unfolded(alloc: Global, kept: &LoggedStore) -> Result<ShelfState, AllocError>
    ensures exact { IfOk result (λ held. held ≡ unfolded (content_in kept.now.base) kept.now.changes) }
    ensures stands { IfOk result (λ held. IsOf held (Stands kept.now)) }
    ensures sound { IfOk result IsSound }
{
    match decode(alloc, kept.base.as_slice()) {
        Ok(service) => followed(service, kept.changes.as_slice()),
        Err(fault) => faulty(fault),
    }
}

/// Loads what the shelf holds, and leaves it there. The base is decoded and the changes are applied
/// to it, in O(bytes) and O(log n) a change. If what is held is no store, its first fault is
/// returned. A crash within the call leaves what a crash before it may leave.
///
/// Fails with `Failed` only if the shelf's count of faults rose, and with `NoMemory` if memory runs
/// out in the shelf or the store.
pub fn load<F: Shelf>(alloc: Global, shelf: &mut F) -> Result<ShelfState, ShelfStop>
    requires { F.faults shelf.old < 2 ^ 64 - 1 }
    ensures exact { IfOk result (λ held. (s : Stored) → F.sight.held shelf.old ≡ Some s → held ≡ found s) }
    ensures stands { IfOk result (λ held. (s : Stored) → F.sight.held shelf.old ≡ Some s → IsOf held s.holding) }
    ensures sound { IfOk result IsSound }
    ensures same { F.sight.held shelf.new ≡ F.sight.held shelf.old }
    ensures any_moment { CrashesLeave F.sight shelf.old shelf.new (F.sight.may_leave shelf.old) }
    ensures durable { IfOk result (λ held.
        WhereSound held (IsDurable (F.sight.held shelf.new) (F.sight.may_leave shelf.new))) }
    ensures answered { (IsErrOf result ShelfStop.Failed → ⊥) → F.sight.answers Load shelf.old shelf.new }
    ensures broken { IsErrOf result ShelfStop.Failed → F.sight.fails Load shelf.old shelf.new }
    ensures counted { Counts result (F.faults shelf.old) (F.faults shelf.new) }
{
    match shelf.load() {
        Ok(None) => Ok(ShelfState::Nothing),
        Ok(Some(kept)) => match unfolded(alloc, &kept) {
            Ok(held) => Ok(held),
            Err(_) => Err(ShelfStop::NoMemory),
        },
        Err(LoadFault::TooLarge) => Ok(ShelfState::Faulty {
            number: TOO_LARGE,
            place: MOST_BASE,
        }),
        Err(LoadFault::BadLog(place)) => Ok(ShelfState::Faulty {
            number: BAD_LOG,
            place,
        }),
        Err(LoadFault::Failed) => Err(ShelfStop::Failed),
        Err(LoadFault::NoMemory) => Err(ShelfStop::NoMemory),
    }
}

/// Proves that what is stored of a store that can be written as an image is found again by `load`,
/// and that its objects are at keys.
pub fn loads()
    ensures again { LoadsAgain }
    ensures keys { (c : Content) → IsContent c → AreAtKeys c }
{}
