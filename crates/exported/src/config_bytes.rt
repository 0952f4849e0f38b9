// Configurations as bytes, and back.
ghost use Rattle.std.specs.Prelude.{◌≡◌, [], ◌∷◌, ◌++◌, ◌≤◌, length};
ghost use Rattle.sets.specs.Stores.{stored};
ghost use Rattle.engine.specs.pools.Entries.{blank_entry};
ghost use Rattle.engine.specs.configs.Subjects.{no_one};
ghost use Rattle.exported.specs.Bytes.{entry_bytes, subject_bytes, config_bytes, entry_from, subject_from, config_from, flags_right, is_config};
ghost use Rattle.exported.specs.Calls.{value_bytes, answer_bytes};
ghost use Rattle.exported.specs.Sizes.{length_entry, length_subject};

use super::bytes::{Bytes, all_from, put_all, store};
use engine::{Answer, Config, Entry, MOST_ENTRIES, Pool, Subject};
use sets::{byte, rest};

pub(crate) const CONFIG: usize = 2992;

impl Bytes for Entry {
    ghost SIZE = { 7 };

    ghost blank = { blank_entry };

    ghost bytes = { entry_bytes };

    ghost from = { entry_from };

    ghost sized = { length_entry };

    const SIZE: usize = 7;

    fn put(&self, room: &mut [u8], p: usize) {
        store(room, p, &[self.sender, self.typ, u8::from(self.message)]);
        self.content.put(room, p + 3);
    }

    fn from_bytes(b: &[u8]) -> Entry {
        Entry {
            sender: byte(b, 0),
            typ: byte(b, 1),
            message: byte(b, 2) != 0,
            content: u32::from_bytes(rest(b, 3)),
        }
    }
}

impl Bytes for Subject {
    ghost SIZE = { 187 };

    ghost blank = { no_one };

    ghost bytes = { subject_bytes };

    ghost from = { subject_from };

    ghost sized = { length_subject };

    const SIZE: usize = 187;

    fn put(&self, room: &mut [u8], p: usize) {
        store(room, p, &[self.mode, self.state]);
        self.waited.put(room, p + 2);
        self.word.put(room, p + 4);
        self.mask.put(room, p + 8);
        put_all(room, p + 10, &self.closed);
        room[p + 74] = self.pool.count;
        put_all(room, p + 75, &self.pool.entries);
    }

    fn from_bytes(b: &[u8]) -> Subject {
        Subject {
            mode: byte(b, 0),
            state: byte(b, 1),
            waited: u16::from_bytes(rest(b, 2)),
            word: u32::from_bytes(rest(b, 4)),
            mask: u16::from_bytes(rest(b, 8)),
            closed: all_from(rest(b, 10)),
            pool: Pool {
                entries: all_from(rest(b, 75)),
                count: byte(b, 74),
            },
        }
    }
}

// A configuration goes to the start of the buffer.
pub(crate) fn put_config(c: &Config, room: &mut [u8])
    requires { 2992 ≤ length room.old }
    ensures { room.new ≡ stored room.old 0 (config_bytes c.now) }
{
    put_all(room, 0, &c.subjects);
}

// Four masks and the missing count go to the start of the buffer.
fn put_numbers(room: &mut [u8], placed: u16, improper: u16, closed: u16, full: u16, missing: u8)
    requires { 9 ≤ length room.old }
    ensures { room.new ≡ stored room.old 0 (value_bytes (placed ∷ improper ∷ closed ∷ full ∷ missing ∷ [])) }
{
    put_all(room, 0, &[placed, improper, closed, full]);
    room[8] = missing;
}

// The values of an answer.
pub(crate) fn put_values(answer: Answer, room: &mut [u8])
    requires { 9 ≤ length room.old }
    ensures { room.new ≡ stored room.old 0 (answer_bytes answer) }
{
    match answer {
        Answer::Reserved {
            placed,
            improper,
            closed,
            full,
            missing,
        } => put_numbers(room, placed, improper, closed, full, missing),
        Answer::Done | Answer::Refused(_) => put_numbers(room, 0, 0, 0, 0, 0),
    }
}

// The configuration in some bytes, zeros past the end.
pub(crate) fn config_from(b: &[u8]) -> Config
    ensures { result ≡ config_from b.now }
{
    Config {
        subjects: all_from(b),
    }
}

// Each byte that says whether an entry is a message is 0 or 1.
fn flags_right(b: &[u8]) -> bool
    ensures { result ≡ flags_right b.now }
{
    (0..256).all(|j| {
        let place = Subject::SIZE * (j / MOST_ENTRIES) + (77 + 7 * (j % MOST_ENTRIES));
        byte(b, place) <= 1
    })
}

// The bytes are a configuration's.
#[tactic(auto, unfolding(crate::specs::Bytes::is_config))]
pub(crate) fn is_config(b: &[u8]) -> bool
    ensures { result ≡ is_config b.now }
{
    CONFIG <= b.len() && flags_right(b)
}
