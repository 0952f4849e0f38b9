// The limit rows of a pool's owner.
#![tactic(auto, unfolding(crate::specs::pools::Rows::row_count, crate::specs::pools::Rows::row_kept, crate::specs::pools::Rows::row_has_room))]

ghost use Rattle.std.specs.Prelude.{◌≡◌, min, take};
ghost use Rattle.model.specs.Sizes.{most_rows};
ghost use Rattle.engine.specs.pools.Sizes.{most_entries};
ghost use Rattle.engine.specs.pools.Pools.{held};
ghost use Rattle.engine.specs.pools.Rows.{row_kept, row_has_room, rows_kept, has_room};

use super::{entries, searches};
use crate::{MOST_ENTRIES, Pool};
use model::{MOST_ROWS, Row, Subject};

// The rows that an owner has: as many as it says, and no more than its places for them.
pub(crate) fn rows_of(owner: &Subject) -> &[Row]
    ensures { result.now ≡ take (min owner.now.rows most_rows) owner.now.row }
{
    &owner.row[..usize::min(owner.rows as usize, MOST_ROWS)]
}

// At most its limit of entries match the row.
fn row_kept(w: Row, p: &Pool) -> bool
    ensures { result ≡ row_kept (held p.now) w }
{
    searches::count(p, w.sender, w.typ) <= w.limit as usize
}

// The row leaves room for an entry of this sender and type.
fn row_has_room(w: Row, p: &Pool, sender: u8, typ: u8) -> bool
    ensures { result ≡ row_has_room sender typ (held p.now) w }
{
    if entries::fitting(w.sender, sender) && entries::fitting(w.typ, typ) {
        return searches::count(p, w.sender, w.typ) < w.limit as usize;
    }
    true
}

// Every limit row is kept.
pub(crate) fn rows_kept(owner: Subject, p: &Pool) -> bool
    ensures { result ≡ rows_kept owner (held p.now) }
{
    rows_of(&owner).iter().all(|w| row_kept(*w, p))
}

// A place is free and every matching row has room.
pub(crate) fn has_room(owner: Subject, p: &Pool, sender: u8, typ: u8) -> bool
    ensures { result ≡ has_room most_entries owner (held p.now) sender typ }
{
    p.held().len() < MOST_ENTRIES
        && rows_of(&owner)
            .iter()
            .all(|w| row_has_room(*w, p, sender, typ))
}
