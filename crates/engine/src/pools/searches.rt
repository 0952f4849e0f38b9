// What is asked of a pool: how many entries match, which message is the earliest, whether there is one.
ghost use Rattle.std.specs.Prelude.{◌≡◌, ◌≤◌, length};
ghost use Rattle.sets.specs.Lists.{counted};
ghost use Rattle.engine.specs.pools.Entries.{matches};
ghost use Rattle.engine.specs.pools.Sizes.{most_entries};
ghost use Rattle.engine.specs.pools.Pools.{held, first_message, has_message, reservations};

use super::entries;
use crate::{Entry, MOST_ENTRIES, Pool};

impl Pool {
    // Its entries: as many as its count, and no more than its places.
    pub(crate) fn held(&self) -> &[Entry]
        ensures entries { result.now ≡ held self.now }
        ensures few { length result.now ≤ most_entries }
    {
        &self.entries[..usize::min(self.count as usize, MOST_ENTRIES)]
    }
}

// How many entries, reservations included, match the sender and the type, 255 for any.
pub(crate) fn count(p: &Pool, sender: u8, typ: u8) -> usize
    ensures { result ≡ counted (matches sender typ) (held p.now) }
{
    if sender == 255 && typ == 255 {
        return p.held().len();
    }
    p.held()
        .iter()
        .filter(|e| entries::matching(**e, sender, typ))
        .count()
}

// How many reservations the sender has, of the type, 255 for any.
// This count and the one above share `filter` and `count` alone: a function that took the test would say no more than these two do.
pub(crate) fn reservations(p: &Pool, sender: u8, typ: u8) -> usize
    ensures { result ≡ reservations sender typ (held p.now) }
{
    p.held()
        .iter()
        .filter(|e| entries::reserved_by(**e, sender, typ))
        .count()
}

// The place of the earliest message that matches. Reservations are passed over.
pub(crate) fn first_message(p: &Pool, sender: u8, typ: u8) -> Option<usize>
    ensures { result ≡ first_message sender typ (held p.now) }
{
    p.held()
        .iter()
        .position(|e| entries::message_matching(*e, sender, typ))
}

// A message is there, and not reservations alone: the search ends at the first.
pub(crate) fn has_message(p: &Pool) -> bool
    ensures { result ≡ has_message (held p.now) }
{
    p.held().iter().any(|e| e.message)
}
