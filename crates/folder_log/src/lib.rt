//! The folder's log: a shelf over any disk of one file. It adds a change by writing its record
//! after a closed gate. It opens the gate only once the record is on the disk.
//!
//! # What is proved
//!
//! `LogShelf` is a shelf over every disk that keeps the trait `LogDisk`:
//!
//! - A crash at any point of an `append` leaves the changes of before, with or without the new one
//!   (`any_moment`); after Ok, with it (`durable`). A failed append leaves them as before, or with
//!   the new one (`one_of`).
//! - `replace` leaves the old file or the new base. `load` leaves what was there before.
//! - Each of its calls is counted. A call that did not fail made a fixed number of calls of the
//!   disk: a load two, a replace one, an append four, and an append that ran out of memory none
//!   (`answered`, `starved`). A failed call made at most as many.
//! - It takes no appends after a failed call (`broken`), and none before a `replace` (`unused`).
//! - Its disk says which of its calls fail.
//!
//! `MemDisk` is such a disk in memory. It says what a crash at any point may leave, and which of
//! its calls fail. `crash` returns the file that a crash leaves, for a choice of what becomes of
//! the ranges that were not synced (`exact`); this file is one that may be left (`allowed`). The
//! program does not call `MemDisk`.
//!
//! `FileDisk` is the file `store.img` of a folder. It counts its calls, and its count of faults
//! rises exactly if one fails. Left open: what the file holds and what a crash leaves, since it
//! says nothing of its bytes; and what happens if two of them use one folder. There `swap` asks
//! for the folder's lock, and checks that the file is still the one that was read.
#![tactic(auto)]

mod disk;
mod file_disk;
mod folder;
mod log_shelf;
mod mem_disk;
mod state;

pub use disk::{DiskFault, LogDisk};
pub use file_disk::FileDisk;
pub use folder::Lockable;
pub use log_shelf::LogShelf;
pub use mem_disk::MemDisk;
pub use state::{Choice, DiskCall};
