// Models from their bytes.
ghost use Rattle.std.specs.Prelude.{◌≡◌, true, cond, ◌+◌, ◌*◌, ◌≤◌, eqb, get_or, take, drop};
ghost use Rattle.model.specs.Sizes.{state_places, most_exits_in_all};
ghost use Rattle.sets.specs.Below.{all_below, sum_below, table};
ghost use Rattle.sets.specs.Stores.{stored};
ghost use Rattle.exported.specs.Bytes.{state_in, exits_in, head_from, stored_from, exit_in, exit_line, model_from, is_state, is_model};

use super::bytes::{Bytes, all_from};
use super::model_bytes::MODEL;
use model::{Exit, MOST_EXITS, MOST_EXITS_IN_ALL, Model, STATE_PLACES, Stored};
use sets::{byte, rest};

// ---- are the bytes a model's?

// The first n bytes, or all where there are not so many.
fn front(b: &[u8], n: usize) -> &[u8]
    ensures { result.now ≡ take n b.now }
{
    &b[..n.min(b.len())]
}

// The bytes are a state's.
#[tactic(auto, unfolding(crate::specs::Bytes::is_state))]
fn is_state(b: &[u8]) -> bool
    ensures { result ≡ is_state b.now }
{
    let exits = byte(b, 1) as usize;
    exits <= MOST_EXITS
        && (byte(b, 0) != 0 || exits == 0)
        && sets::is_zero(front(rest(b, 10 + 3 * exits), 24 - 3 * exits))
}

// The bytes of each state are right.
fn states_right(b: &[u8]) -> bool
    ensures { result ≡ all_below (λ p. is_state (state_in b.now p)) state_places }
{
    (0..STATE_PLACES).all(|p| is_state(rest(b, 435 + 34 * p)))
}

// How many exits all states have.
fn exits_in_all(b: &[u8]) -> usize
    ensures { result ≡ sum_below (exits_in b.now) state_places }
{
    let mut sum = 0;
    for p in 0..STATE_PLACES {
        sum += byte(rest(b, 435 + 34 * p), 1) as usize;
    }
    sum
}

// The bytes are a model's.
#[tactic(auto, unfolding(crate::specs::Bytes::is_model))]
pub(crate) fn is_model(b: &[u8]) -> bool
    ensures { result ≡ is_model b.now }
{
    MODEL <= b.len() && states_right(b) && exits_in_all(b) <= MOST_EXITS_IN_ALL
}

// ---- the model

// The state in some bytes, whose exits begin at the given place.
fn head_from(b: &[u8], first: u16) -> Stored
    ensures { result ≡ head_from b.now first }
{
    Stored {
        kind: byte(b, 0),
        exits: byte(b, 1),
        sender: byte(b, 2),
        typ: byte(b, 3),
        after: u16::from_bytes(rest(b, 4)),
        timeout: byte(b, 6),
        cancel: byte(b, 7),
        receivers: u16::from_bytes(rest(b, 8)),
        first,
    }
}

// Where the exits of a state begin: where there is no state, at 0.
fn first_of(kind: u8, place: u16) -> u16
    ensures { result ≡ cond (eqb kind 0) 0 place }
{
    if kind == 0 { 0 } else { place }
}

// All states.
fn states_from(b: &[u8]) -> [Stored; STATE_PLACES]
    requires { sum_below (exits_in b.now) state_places ≤ most_exits_in_all }
    ensures { result ≡ table (stored_from b.now) state_places }
{
    let mut states = [head_from(b, 0); STATE_PLACES];
    let mut place: u16 = 0;
    for p in 0..STATE_PLACES {
        let own = rest(b, 435 + 34 * p);
        states[p] = head_from(own, first_of(byte(own, 0), place));
        place += byte(own, 1) as u16;
    }
    states
}

// The exits of a state go to the line, from the given place on.
fn put_exits(line: &mut [Exit; MOST_EXITS_IN_ALL], place: usize, b: &[u8])
    requires { place + get_or b.now 1 0 ≤ most_exits_in_all }
    ensures { line.new ≡ stored line.old place (table (exit_in b.now) (get_or b.now 1 0)) }
{
    let exits = byte(b, 1) as usize;
    for x in 0..exits {
        line[place + x] = Exit::from_bytes(rest(b, 10 + 3 * x));
    }
}

// Every exit, in the order of their states.
fn exits_from(b: &[u8]) -> [Exit; MOST_EXITS_IN_ALL]
    requires { sum_below (exits_in b.now) state_places ≤ most_exits_in_all }
    ensures { result ≡ exit_line b.now }
{
    let mut line = [Exit::default(); MOST_EXITS_IN_ALL];
    let mut place: usize = 0;
    for p in 0..STATE_PLACES {
        let own = rest(b, 435 + 34 * p);
        put_exits(&mut line, place, own);
        place += byte(own, 1) as usize;
    }
    line
}

// The model in its bytes.
pub(crate) fn model_from(b: &[u8]) -> Model
    requires { is_model b.now ≡ true }
    ensures { result ≡ model_from b.now }
{
    Model {
        n: byte(b, 0),
        start: u16::from_bytes(rest(b, 1)),
        subjects: all_from(rest(b, 3)),
        states: states_from(b),
        exits: exits_from(b),
    }
}
