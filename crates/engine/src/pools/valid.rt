// Whether a pool is valid for its owner in a model of n subjects.
#![tactic(auto, unfolding(crate::specs::pools::Valid::entry_valid, crate::specs::pools::Valid::pool_valid))]

ghost use Rattle.std.specs.Prelude.{◌≡◌, cond, ltb};
ghost use Rattle.sets.specs.Below.{all_below};
ghost use Rattle.engine.specs.pools.Sizes.{most_entries};
ghost use Rattle.engine.specs.pools.Entries.{is_blank_entry};
ghost use Rattle.engine.specs.pools.Valid.{entry_valid, place_valid, pool_valid, is_blank_pool};

use super::{entries, rows};
use crate::{Entry, MOST_ENTRIES, Pool};
use model::Subject;

// A reservation has content 0; the sender is below n and the type below 32.
fn entry_valid(n: u8, e: Entry) -> bool
    ensures { result ≡ entry_valid n e }
{
    (e.message || e.content == 0) && e.sender < n && e.typ < 32
}

// What stands at place i of a pool with so many entries: a valid entry if the pool has one there, else blank.
fn place_valid(n: u8, count: u8, i: usize, e: Entry) -> bool
    ensures { result ≡ cond (ltb i count) (entry_valid n e) (is_blank_entry e) }
{
    if i < count as usize {
        entry_valid(n, e)
    } else {
        entries::is_blank_entry(e)
    }
}

// Every place is right.
fn places_valid(n: u8, p: &Pool) -> bool
    ensures { result ≡ all_below (place_valid n p.now) most_entries }
{
    p.entries
        .iter()
        .enumerate()
        .all(|(i, e)| place_valid(n, p.count, i, *e))
}

// The pool of an owner in a model of n subjects is valid.
pub(crate) fn pool_valid(n: u8, owner: Subject, p: &Pool) -> bool
    ensures { result ≡ pool_valid most_entries n owner p.now }
{
    p.count as usize <= MOST_ENTRIES && places_valid(n, p) && rows::rows_kept(owner, p)
}

// A pool of nobody: all zero.
pub(crate) fn is_blank_pool(p: &Pool) -> bool
    ensures { result ≡ is_blank_pool most_entries p.now }
{
    p.count == 0 && p.entries.iter().all(|e| entries::is_blank_entry(*e))
}
