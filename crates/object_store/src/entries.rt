ghost use Rattle.std.specs.Prelude.{◌≡◌};
ghost use Rattle.std.specs.Iterator.{YieldsFirstBy, item_count};
ghost use Rattle.object_store.specs.Held.{lent};

use crate::objects::Held;
use s3_types::{Key, Object, Text};
use std::collections::btree_map::Iter;
use std::marker::Model;

/// Keys with their objects, in the order of the keys. Contracts see it as the list of those that
/// are still to come.
#[derive(Drop)]
pub struct Entries<'a> {
    rest: Iter<'a, Text, Held>,
}

impl<'a> Model for Entries<'a> {
    ghost use Rattle.std.specs.Prelude.{ℕ, List};
    ghost use Rattle.object_store.specs.Held.{lent};
    ghost use Rattle.s3_types.specs.declared.object.Object.{Object as TheObject};

    ghost Value = { List (List ℕ × TheObject) };

    ghost view = { λ e. lent e.rest };
}

impl<'a> Entries<'a> {
    pub(crate) fn new(rest: Iter<'a, Text, Held>) -> Entries<'a>
        ensures { result ≡ lent rest.entry }
    {
        Entries { rest }
    }
}

impl<'a> Iterator for Entries<'a> {
    type Item = (&'a Key, &'a Object);

    ghost next_gives = { YieldsFirstBy (λ p. (p.0.now, p.1.now)) (λ rest. rest) };

    ghost remaining = { item_count (λ rest. rest) };

    fn next(&mut self) -> Option<(&'a Key, &'a Object)> {
        let (_, held) = self.rest.next()?;
        Some((&held.key, &held.object))
    }
}
