ghost use Rattle.std.specs.Prelude.{◌≤◌, length};

use devices::kept::Shelf;
use log_format::is_changing;
use s3_types::{Bytes, Request, let_go};
use std::fmt;

/// A run over a shelf: the file that the disk has, the base that replaces it, and the changes
/// appended to that.
#[derive(Clone, Copy)]
pub struct Play<'p> {
    pub file: &'p Option<Bytes>,
    pub base: &'p [u8],
    pub changes: &'p [Request],
    /// What is held before the run, as bytes; none if nothing is held.
    pub before: &'p [u8],
    /// What is held after all of the run, as bytes.
    pub whole: &'p [u8],
}

/// How far a run came.
#[derive(Clone, Copy)]
pub enum Came {
    Nowhere,
    Loaded,
    Appended(usize),
}

impl fmt::Display for Came {
    fn fmt<W: fmt::Write>(&self, f: &mut fmt::Formatter<W>) -> fmt::Result {
        match self {
            Came::Nowhere => f.write_str("not loaded"),
            Came::Loaded => f.write_str("not replaced"),
            Came::Appended(count) => write!(f, "appended {count}"),
        }
    }
}

/// Appends changes, and returns how many appends succeeded. It stops at the first that does not.
fn append_all<S: Shelf>(shelf: &mut S, changes: &[Request]) -> usize
    requires { S.takes_appends shelf.old }
    ensures { result ≤ length changes.now }
{
    let mut appended = 0;
    for change in changes {
        if !is_changing(change) {
            return appended;
        }
        match shelf.append(change) {
            Ok(()) => appended += 1,
            Err(_) => return appended,
        }
    }
    appended
}

/// Loads, replaces and appends, up to the first call that does not succeed.
pub fn play_over<S: Shelf>(shelf: &mut S, play: Play<'_>) -> Came {
    match shelf.load() {
        Ok(held) => let_go(held),
        Err(_) => return Came::Nowhere,
    }
    match shelf.replace(play.base) {
        Ok(()) => Came::Appended(append_all(shelf, play.changes)),
        Err(_) => Came::Loaded,
    }
}
