// The twelve bytes of each record.
ghost use Rattle.std.specs.Prelude.{◌≡◌, []};
ghost use Rattle.model.specs.Records.{with_exits};
ghost use Rattle.model.specs.File.{header_record, subject_record, state_record, exit_record, limit_record};

use super::sizes::RECORD_BYTES;
use super::{Exit, Row, Stored, Subject};

// The first header record: how many subjects, and the start mask.
pub(crate) fn header_record(n: u8, start: u16) -> [u8; RECORD_BYTES]
    ensures { result ≡ header_record n start }
{
    let [low, high] = start.to_le_bytes();
    [n, low, high, 0, 0, 0, 0, 0, 0, 0, 0, 0]
}

// The header record of subject s.
pub(crate) fn subject_record(s: u8, sub: Subject) -> [u8; RECORD_BYTES]
    ensures { result ≡ subject_record s sub }
{
    [s, sub.states, sub.initial, 0, 0, 0, 0, 0, 0, 0, 0, 0]
}

// The record of state t of subject s.
#[tactic(auto, unfolding(crate::specs::Records::with_exits))]
pub(crate) fn state_record(s: u8, t: u8, st: Stored) -> [u8; RECORD_BYTES]
    ensures { result ≡ state_record s t (with_exits st []) }
{
    let [after, after_high] = st.after.to_le_bytes();
    let [receivers, receivers_high] = st.receivers.to_le_bytes();
    [
        s,
        t,
        st.kind,
        st.exits,
        st.sender,
        st.typ,
        after,
        after_high,
        st.timeout,
        st.cancel,
        receivers,
        receivers_high,
    ]
}

// The record of exit x of state t of subject s.
pub(crate) fn exit_record(s: u8, t: u8, x: u8, e: Exit) -> [u8; RECORD_BYTES]
    ensures { result ≡ exit_record s t x e }
{
    [s, t, x, e.target, e.sender, e.typ, 0, 0, 0, 0, 0, 0]
}

// The record of a limit row of the owner.
pub(crate) fn limit_record(owner: u8, w: Row) -> [u8; RECORD_BYTES]
    ensures { result ≡ limit_record owner w }
{
    [owner, w.sender, w.typ, w.limit, 0, 0, 0, 0, 0, 0, 0, 0]
}
