// Whether a model is valid: every rule kept, all other room zero.
ghost use Rattle.std.specs.Prelude.{◌≡◌, ◌<◌, ◌&&◌, eqb, leb, drop};
ghost use Rattle.sets.specs.Below.{all_below};
ghost use Rattle.sets.specs.Tests.{within};
ghost use Rattle.model.specs.Sizes.{most_subjects, most_exits, most_exits_in_all, most_rows};
ghost use Rattle.model.specs.Rules.{exit_fits, exit_reaches};
ghost use Rattle.model.specs.Valid.{row_at, is_blank_row, unpacked, exit_valid, stored_valid, is_blank_stored, none_after, row_key, row_ascends, row_valid, subject_own, subject_valid, start_right, valid};

use super::sizes::{
    END_KIND, MOST_EXITS_IN_ALL, MOST_ROWS, MOST_ROWS_U8, MOST_STATES, MOST_STATES_U8,
    MOST_SUBJECTS, MOST_SUBJECTS_U8,
};
use super::{Exit, Model, Row, Stored, Subject, records, rules, unpacked};

// An exit of a state of the given kind is right.
fn exit_right(n: u8, states: u8, kind: u8, e: Exit) -> bool
    ensures { result ≡ (exit_fits kind e && exit_reaches n states e) }
{
    rules::exit_fits(kind, e) && rules::exit_reaches(n, states, e)
}

// The exits that a state has are right.
fn exits_valid(exits: &[Exit], n: u8, states: u8, st: Stored) -> bool
    ensures { result ≡ all_below (exit_valid n states (unpacked exits.now st)) most_exits }
{
    let first = st.first as usize;
    for x in 0..unpacked::exits_of(st) {
        let e = unpacked::exit_no(exits, first + x);
        if !exit_right(n, states, st.kind, e) {
            return false;
        }
    }
    true
}

// A state that is there, of a subject with so many states, with its exits, which begin at the given place.
fn stored_valid(exits: &[Exit], n: u8, states: u8, place: usize, st: Stored) -> bool
    ensures { result ≡ stored_valid exits.now n states place st }
{
    let own = records::with_exits(st, records::blank_exits());
    rules::state_fits_in(n, states, own)
        && st.first as usize == place
        && exits_valid(exits, n, states, st)
}

// Sender and type of a row as one number.
fn row_key(w: Row) -> u16
    ensures { result ≡ row_key w }
{
    sets::word(w.typ, w.sender)
}

// Row k of a subject comes after the row before it.
fn row_ascends(sub: Subject, k: usize) -> bool
    requires { k < most_rows }
    ensures { result ≡ row_ascends sub k }
{
    k == 0 || row_key(sub.row[k - 1]) < row_key(sub.row[k])
}

// Row k of a subject: right if the subject has it, else blank.
#[tactic(auto, unfolding(crate::specs::Valid::row_valid))]
fn row_valid(n: u8, sub: Subject, k: usize) -> bool
    requires { k < most_rows }
    ensures { result ≡ row_valid n sub k }
{
    let w = sub.row[k];
    if k < sub.rows as usize {
        rules::row_fits(w) && rules::row_reaches(n, w) && row_ascends(sub, k)
    } else {
        w.sender == 0 && w.typ == 0 && w.limit == 0
    }
}

// The numbers of subject s of n, whose initial state has the given kind: right if there is one, else blank.
#[tactic(auto, unfolding(crate::specs::Valid::subject_own))]
fn subject_own(n: u8, s: u8, sub: Subject, kind: u8) -> bool
    ensures { result ≡ subject_own n s sub kind }
{
    if s < n {
        sets::is_within(1, sub.states, MOST_STATES_U8)
            && sub.initial < sub.states
            && kind != END_KIND
            && sub.rows <= MOST_ROWS_U8
    } else {
        sub.states == 0 && sub.initial == 0 && sub.rows == 0
    }
}

// A row as one number, which is 0 exactly where there is nothing but zeros.
fn row_bits(w: Row) -> u32
    ensures { eqb result 0 ≡ is_blank_row w }
{
    w.sender as u32 + 256 * (w.typ as u32) + 65536 * (w.limit as u32)
}

// No row but blank ones: no branch until the end.
fn rows_blank(sub: Subject) -> bool
    ensures { result ≡ all_below (λ k. is_blank_row (row_at sub k)) most_rows }
{
    let mut seen: u32 = 0;
    for k in 0..MOST_ROWS {
        seen |= row_bits(sub.row[k]);
    }
    seen == 0
}

// The same with its rows.
fn subject_valid(n: u8, s: u8, sub: Subject, kind: u8) -> bool
    ensures { result ≡ subject_valid n s sub kind }
{
    if !subject_own(n, s, sub, kind) {
        return false;
    }
    if n <= s {
        return rows_blank(sub);
    }
    for k in 0..MOST_ROWS {
        if !row_valid(n, sub, k) {
            return false;
        }
    }
    true
}

// A number that is 0 exactly where there is nothing but zeros: the compiler reads eight bytes at once.
// Rows and states compared with Row::default() and Stored::default() made a step of a small model a fifth to a third slower.
fn bits(st: Stored) -> u64
    ensures { eqb result 0 ≡ is_blank_stored st }
{
    let low = st.kind as u64
        + 256 * (st.exits as u64)
        + 65536 * (st.sender as u64)
        + 16777216 * (st.typ as u64);
    let mid = low + 4294967296 * (st.after as u64);
    let all = mid + 281474976710656 * (st.timeout as u64) + 72057594037927936 * (st.cancel as u64);
    all | (st.receivers as u64 + 65536 * (st.first as u64))
}

// Nothing but zeros: no branch until the end.
fn exits_blank(exits: &[Exit]) -> bool
    ensures { result ≡ none_after 0 exits.now }
{
    let mut seen: u8 = 0;
    for e in exits {
        seen |= e.target | e.sender | e.typ;
    }
    seen == 0
}

// The exits from place k on: nothing past the end.
fn exits_behind(k: usize, exits: &[Exit]) -> &[Exit]
    ensures { result.now ≡ drop k exits.now }
{
    exits.get(k..).unwrap_or(&[])
}

// Nothing but zeros from place k on, by sixteen exits: the compiler reads their 48 bytes at once. Exit by exit it gathers
// single bytes, and is_valid took twice the time for a small model.
fn none_after(k: usize, exits: &[Exit]) -> bool
    ensures { result ≡ none_after k exits.now }
{
    let (sixteens, others) = exits_behind(k, exits).as_chunks::<16>();
    sixteens.iter().all(|x| exits_blank(x)) && exits_blank(others)
}

// So many exits have room, and after them there is nothing.
fn no_more(count: usize, exits: &[Exit]) -> bool
    ensures { result ≡ (leb count most_exits_in_all && none_after count exits.now) }
{
    if MOST_EXITS_IN_ALL < count {
        return false;
    }
    none_after(count, exits)
}

// The start mask names a subject, and none from n up.
fn start_right(n: u8, start: u16) -> bool
    ensures { result ≡ start_right n start }
{
    start != 0 && sets::none_from(n, start)
}

// There are 1 to 16 subjects, and the start mask is right.
fn head_right(n: u8, start: u16) -> bool
    ensures { result ≡ (within 1 n most_subjects && start_right n start) }
{
    sets::is_within(1, n, MOST_SUBJECTS_U8) && start_right(n, start)
}

// Whether some file loads to the model. All in one function: a model that is passed on is copied.
pub fn is_valid(m: Model) -> bool
    ensures { result ≡ valid m }
{
    let n = m.n;
    if !head_right(n, m.start) {
        return false;
    }
    let mut exits: usize = 0;
    for s in 0..MOST_SUBJECTS {
        let sub = m.subjects[s];
        let first = m.states[s * MOST_STATES + (sub.initial % MOST_STATES_U8) as usize];
        if !subject_valid(n, s as u8, sub, first.kind) {
            return false;
        }
        let states = sub.states as usize;
        for t in 0..states {
            let st = m.states[s * MOST_STATES + t];
            if !stored_valid(&m.exits, n, sub.states, exits, st) {
                return false;
            }
            exits += st.exits as usize;
        }
        // Most places of a model have no state: no branch until the end.
        let mut own: u64 = 0;
        for t in states..MOST_STATES {
            own |= bits(m.states[s * MOST_STATES + t]);
        }
        if own != 0 {
            return false;
        }
    }
    no_more(exits, &m.exits)
}
