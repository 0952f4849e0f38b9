// Models as bytes, and what they are made of, back.
ghost use Rattle.std.specs.Prelude.{◌≡◌, ◌+◌, ◌≤◌, length};
ghost use Rattle.model.specs.Sizes.{state_places};
ghost use Rattle.model.specs.Valid.{no_subject, state_at};
ghost use Rattle.model.specs.Records.{blank_row, blank_exit};
ghost use Rattle.sets.specs.Stores.{each_of, stored};
ghost use Rattle.exported.specs.Bytes.{row_bytes, exit_bytes, own_bytes, state_bytes, model_bytes, row_from, exit_from, own_from};
ghost use Rattle.exported.specs.Sizes.{length_row, length_exit, length_own};

use super::bytes::{Bytes, all_from, put_all, store};
use model::{Exit, Model, Row, STATE_PLACES, State, Subject};
use sets::{byte, rest};

// Bytes of a model.
pub(crate) const MODEL: usize = 17843;

impl Bytes for Row {
    ghost SIZE = { 3 };

    ghost blank = { blank_row };

    ghost bytes = { row_bytes };

    ghost from = { row_from };

    ghost sized = { length_row };

    const SIZE: usize = 3;

    fn put(&self, room: &mut [u8], p: usize) {
        store(room, p, &[self.sender, self.typ, self.limit]);
    }

    fn from_bytes(b: &[u8]) -> Row {
        Row {
            sender: byte(b, 0),
            typ: byte(b, 1),
            limit: byte(b, 2),
        }
    }
}

impl Bytes for Exit {
    ghost SIZE = { 3 };

    ghost blank = { blank_exit };

    ghost bytes = { exit_bytes };

    ghost from = { exit_from };

    ghost sized = { length_exit };

    const SIZE: usize = 3;

    fn put(&self, room: &mut [u8], p: usize) {
        store(room, p, &[self.target, self.sender, self.typ]);
    }

    fn from_bytes(b: &[u8]) -> Exit {
        Exit {
            target: byte(b, 0),
            sender: byte(b, 1),
            typ: byte(b, 2),
        }
    }
}

impl Bytes for Subject {
    ghost SIZE = { 27 };

    ghost blank = { no_subject };

    ghost bytes = { own_bytes };

    ghost from = { own_from };

    ghost sized = { length_own };

    const SIZE: usize = 27;

    fn put(&self, room: &mut [u8], p: usize) {
        store(room, p, &[self.states, self.initial, self.rows]);
        put_all(room, p + 3, &self.row);
    }

    fn from_bytes(b: &[u8]) -> Subject {
        Subject {
            states: byte(b, 0),
            initial: byte(b, 1),
            rows: byte(b, 2),
            row: all_from(rest(b, 3)),
        }
    }
}

// A state with its exits goes to the places from p on.
fn put_state(room: &mut [u8], p: usize, st: &State)
    requires { p + 34 ≤ length room.old }
    ensures { room.new ≡ stored room.old p (state_bytes st.now) }
{
    store(room, p, &[st.kind, st.exits, st.sender, st.typ]);
    st.after.put(room, p + 4);
    store(room, p + 6, &[st.timeout, st.cancel]);
    st.receivers.put(room, p + 8);
    put_all(room, p + 10, &st.exit);
}

// All states of a model, each with its exits.
fn put_states(room: &mut [u8], m: &Model)
    requires { 17843 ≤ length room.old }
    ensures { room.new ≡ stored room.old 435 (each_of (λ p. state_bytes (state_at m.now p)) state_places) }
{
    for i in 0..STATE_PLACES {
        let st = model::unpack(m.states[i], &m.exits);
        put_state(room, 435 + 34 * i, &st);
    }
}

// A model goes to the start of the buffer.
pub(crate) fn put_model(m: &Model, room: &mut [u8])
    requires { 17843 ≤ length room.old }
    ensures { room.new ≡ stored room.old 0 (model_bytes m.now) }
{
    room[0] = m.n;
    m.start.put(room, 1);
    put_all(room, 3, &m.subjects);
    put_states(room, m);
}
