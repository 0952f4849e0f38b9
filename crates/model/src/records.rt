// What a record says, and its place in the order.
ghost use Rattle.std.specs.Prelude.{◌≡◌};
ghost use Rattle.model.specs.Records.{blank_exits, blank_stored, blank_subject, stored_of, with_exits, state_of, exit_of, row_of, state_key, full_key, order_of};

use super::sizes::MOST_EXITS;
use super::{Exit, Row, State, Stored, Subject};
use sets::{byte, word};

// No exits.
pub(crate) fn blank_exits() -> [Exit; MOST_EXITS]
    ensures { result ≡ blank_exits }
{
    [Exit::default(); MOST_EXITS]
}

// An unused state.
pub(crate) fn blank_stored() -> Stored
    ensures { result ≡ blank_stored }
{
    Stored::default()
}

// An unused subject.
pub(crate) fn blank_subject() -> Subject
    ensures { result ≡ blank_subject }
{
    Subject::default()
}

// The state of a state record as a model keeps it: its exits begin at `first`.
#[tactic(auto, unfolding(crate::specs::Records::stored_of))]
pub(crate) fn stored_of(r: &[u8], first: u16) -> Stored
    ensures { result ≡ stored_of r.now first }
{
    Stored {
        kind: byte(r, 2),
        exits: byte(r, 3),
        sender: byte(r, 4),
        typ: byte(r, 5),
        after: word(byte(r, 6), byte(r, 7)),
        timeout: byte(r, 8),
        cancel: byte(r, 9),
        receivers: word(byte(r, 10), byte(r, 11)),
        first,
    }
}

// A state with the given exits.
#[tactic(auto, unfolding(crate::specs::Records::with_exits))]
pub(crate) fn with_exits(st: Stored, exit: [Exit; MOST_EXITS]) -> State
    ensures { result ≡ with_exits st exit }
{
    State {
        kind: st.kind,
        exits: st.exits,
        sender: st.sender,
        typ: st.typ,
        after: st.after,
        timeout: st.timeout,
        cancel: st.cancel,
        receivers: st.receivers,
        exit,
    }
}

// The state of a state record, with the given exits.
#[tactic(auto, unfolding(crate::specs::Records::state_of))]
pub(crate) fn state_of(r: &[u8], exit: [Exit; MOST_EXITS]) -> State
    ensures { result ≡ state_of r.now exit }
{
    with_exits(stored_of(r, 0), exit)
}

// The exit of an exit record.
#[tactic(auto, unfolding(crate::specs::Records::exit_of))]
pub(crate) fn exit_of(r: &[u8]) -> Exit
    ensures { result ≡ exit_of r.now }
{
    Exit {
        target: byte(r, 3),
        sender: byte(r, 4),
        typ: byte(r, 5),
    }
}

// The row of a limit record.
#[tactic(auto, unfolding(crate::specs::Records::row_of))]
pub(crate) fn row_of(r: &[u8]) -> Row
    ensures { result ≡ row_of r.now }
{
    Row {
        sender: byte(r, 1),
        typ: byte(r, 2),
        limit: byte(r, 3),
    }
}

// Subject and state of a state's or an exit's record, as one number.
pub(crate) fn state_key(r: &[u8]) -> u16
    ensures { result ≡ state_key r.now }
{
    u16::from_be_bytes([byte(r, 0), byte(r, 1)])
}

// Subject, state and exit, or owner, sender and type, as one number.
pub(crate) fn full_key(r: &[u8]) -> u32
    ensures { result ≡ full_key r.now }
{
    u32::from_be_bytes([0, byte(r, 0), byte(r, 1), byte(r, 2)])
}

// What the records of kind k ascend by; 0 stands before the first record.
#[tactic(auto, unfolding(crate::specs::Records::order_of))]
pub(crate) fn order_of(k: u8, r: &[u8]) -> u32
    ensures { result ≡ order_of k r.now }
{
    if r.is_empty() {
        0
    } else if k == 2 {
        state_key(r) as u32 + 1
    } else {
        full_key(r) + 1
    }
}
