// One entry: what it matches, and what it becomes.
#![tactic(auto, unfolding(crate::specs::pools::Entries::is_message, crate::specs::pools::Entries::reserved_by, crate::specs::pools::Entries::delivered))]

ghost use Rattle.std.specs.Prelude.{◌≡◌, cond, eqb};
ghost use Rattle.model.specs.Rules.{any};
ghost use Rattle.engine.specs.pools.Entries.{is_blank_entry, fits, matches, is_message, reserved_by, delivered};

use crate::Entry;

// Nothing but zeros.
pub(crate) fn is_blank_entry(e: Entry) -> bool
    ensures { result ≡ is_blank_entry e }
{
    e == Entry::default()
}

// What is wanted, 255 for any, is what is there.
pub(crate) fn fitting(wanted: u8, there: u8) -> bool
    ensures { result ≡ fits wanted there }
{
    wanted == 255 || wanted == there
}

// All ones where any is wanted, else none.
fn freed(wanted: u8) -> u8
    ensures { result ≡ cond (eqb wanted any) 255 0 }
{
    if wanted == 255 { 255 } else { 0 }
}

// The entry is from the sender and of the type, 255 for any: both are looked at as one number.
pub(crate) fn matching(e: Entry, sender: u8, typ: u8) -> bool
    ensures { result ≡ matches sender typ e }
{
    let there = sets::word(e.sender, e.typ);
    let free = sets::word(freed(sender), freed(typ));
    there | free == sets::word(sender, typ)
}

// A message that matches.
pub(crate) fn message_matching(e: Entry, sender: u8, typ: u8) -> bool
    ensures { result ≡ is_message sender typ e }
{
    e.message && matching(e, sender, typ)
}

// A reservation of the sender, of the type, 255 for any.
pub(crate) fn reserved_by(e: Entry, sender: u8, typ: u8) -> bool
    ensures { result ≡ reserved_by sender typ e }
{
    !e.message && e.sender == sender && fitting(typ, e.typ)
}

// A reservation of the sender becomes a message with the word; other entries stay.
pub(crate) fn deliver_entry(e: Entry, sender: u8, word: u32) -> Entry
    ensures { result ≡ delivered sender word e }
{
    if reserved_by(e, sender, 255) {
        return Entry {
            message: true,
            content: word,
            ..e
        };
    }
    e
}
