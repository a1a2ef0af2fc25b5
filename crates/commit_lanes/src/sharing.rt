ghost use Rattle.std.specs.Prelude.{◌≡◌, ℕ, List, ◌++◌, ◌∷◌, [], ◌<◌, ◌≤◌, ◌^◌, map, length, Some, IfOk, OnOk};
ghost use Rattle.std.specs.HashMap.{get as found, Updates};
ghost use Rattle.std.specs.Option.{unwrap_or};
ghost use Rattle.text_and_lists.specs.Order.{text_eq};
ghost use Rattle.job_protocol.specs.LaneTable.{In};
ghost use Rattle.commit_lanes.specs.Clashes.{Item, items_from, IsBest};
ghost use Rattle.commit_lanes.specs.inner.Clashes.{is_better, clash_of, Finds};

use pending_json::{PendingSet, PendingUpload};
use s3_types::{Key, Text, put};
use std::alloc::{AllocError, Global};
use std::cmp::Ordering;
use std::collections::HashMap;

/// A key that two tasks write.
#[derive(Drop)]
pub struct Clash {
    pub key: Key,
    pub first: u32,
    pub second: u32,
}

/// The lowest task that writes each key, and the least key that two tasks write.
#[derive(Drop)]
pub struct Search {
    owners: HashMap<Text, u32>,
    best: Option<Clash>,
}

/// Returns whether a key comes before the one found so far.
fn is_better(key: &Key, best: &Option<Clash>) -> bool
    ensures { result ≡ is_better key.now best.now }
{
    match best {
        Some(clash) => key.cmp(&clash.key) == Ordering::Less,
        None => true,
    }
}

/// Returns the first task that writes a key, which becomes `task` if there was none. Takes one
/// look-up.
fn owner_of(owners: &mut HashMap<Text, u32>, key: &Key, task: u32) -> Result<u32, AllocError>
    ensures first { IfOk result (λ first. first ≡ unwrap_or (found text_eq owners.old key.now) task) }
    ensures owners { OnOk result (Updates text_eq owners.old owners.new key.now
        (Some (unwrap_or (found text_eq owners.old key.now) task))) }
{
    let first = *owners.entry(key.as_text().clone()?)?.or_insert(task);
    Ok(first)
}

/// Notes that `task` writes a key that `first` was the first to write.
fn add_clash(best: &mut Option<Clash>, key: &Key, first: u32, task: u32) -> Result<(), AllocError>
    ensures { OnOk result (best.new ≡ clash_of key.now first task best.old) }
{
    if first == task || !is_better(key, best) {
        return Ok(());
    }
    let key = key.clone()?;
    put(
        best,
        Some(Clash {
            key,
            first,
            second: task,
        }),
    );
    Ok(())
}

/// Adds an upload of a task that is not below the tasks added before.
fn add(search: &mut Search, key: &Key, task: u32) -> Result<(), AllocError>
    ensures { OnOk result ((items : List Item) → ((k : List ℕ) (v : ℕ) → In (k, v) items → v ≤ task)
        → Finds items (found text_eq search.old.owners) search.old.best
        → Finds (items ++ (key.now, task) ∷ []) (found text_eq search.new.owners) search.new.best) }
{
    let first = owner_of(&mut search.owners, key, task)?;
    add_clash(&mut search.best, key, first, task)
}

/// Adds the uploads of one more task.
fn add_all(search: &mut Search, uploads: &[PendingUpload], task: u32) -> Result<(), AllocError>
    ensures { OnOk result ((items : List Item) → ((k : List ℕ) (v : ℕ) → In (k, v) items → v ≤ task)
        → Finds items (found text_eq search.old.owners) search.old.best
        → Finds (items ++ map (λ c. (c.destination, task)) uploads.now) (found text_eq search.new.owners)
        search.new.best) }
{
    for upload in uploads {
        add(search, upload.destination(), task)?;
    }
    Ok(())
}

/// Returns the least key that two tasks write with the two lowest such tasks, or None if no two
/// tasks write the same key. Usually takes time linear in the uploads.
pub fn shared(alloc: Global, sets: &[PendingSet]) -> Result<Option<Clash>, AllocError>
    requires { length sets.now < 2 ^ 32 }
    ensures { IfOk result (λ best. IsBest (items_from 0 sets.now) best) }
{
    let mut search = Search {
        owners: HashMap::new(alloc),
        best: None,
    };
    for (n, set) in sets.iter().enumerate() {
        add_all(&mut search, set.commits.as_slice(), n as u32)?;
    }
    let Search { owners: _, best } = search;
    Ok(best)
}
