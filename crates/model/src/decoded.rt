// The model that a file's records say, and whether each record stands where the model has its thing.
ghost use Rattle.std.specs.Prelude.{◌≡◌, cond, ◌%◌, ◌≤◌, ◌<◌, ◌+◌, leb, ltb};
ghost use Rattle.sets.specs.Below.{all_below, sum_below, table};
ghost use Rattle.blocks.specs.Blocks.{first_block, count_of, record_no};
ghost use Rattle.model.specs.Sizes.{most_subjects, state_places, most_rows};
ghost use Rattle.model.specs.Records.{blank_row, blank_stored, stored_of, row_of};
ghost use Rattle.model.specs.Decoded.{subjects_in, limits_in, rows_in, rows_from, subject_in, stored_in, all_exits, model_of, exits_named, owner_there, states_in_place, exits_in_place, limits_in_place, in_place};

use super::kinds::Records;
use super::sizes::{MOST_EXITS_IN_ALL, MOST_ROWS, MOST_STATES, MOST_SUBJECTS, STATE_PLACES};
use super::{Exit, Model, Row, Stored, Subject, records};
use blocks::record;
use sets::byte;
use std::array;

// ---- subjects and their limit rows

// How many subjects there are.
fn subjects_in(file: &[u8]) -> u8
    ensures { result ≡ subjects_in file.now }
{
    byte(record(file, 0, 0), 0)
}

// How many limit records name s as the owner.
fn limits_in(limits: &Records<'_, 4>, s: usize) -> usize
    ensures { result ≡ limits_in limits.now.file.now s }
{
    (0..limits.count)
        .filter(|&j| byte(limits.get(j), 0) as usize == s)
        .count()
}

// How many of them the model has room for.
#[tactic(auto, unfolding(crate::specs::Decoded::rows_in))]
fn rows_in(limits: &Records<'_, 4>, s: usize) -> u8
    ensures { result ≡ rows_in limits.now.file.now s }
{
    limits_in(limits, s).min(MOST_ROWS) as u8
}

// Row k of so many, from the record with the number `place` on; blank past the last.
fn row_from(limits: &Records<'_, 4>, place: usize, rows: u8, k: usize) -> Row
    requires { (place ≤ 65536) × (k ≤ 65536) }
    ensures { result ≡ cond (ltb k rows) (row_of (record_no limits.now.file.now 4 (place + k))) blank_row }
{
    if k < rows as usize {
        records::row_of(limits.get(place + k))
    } else {
        Row::default()
    }
}

// So many rows, from the record with the number `place` on.
fn rows_from(limits: &Records<'_, 4>, place: usize, rows: u8) -> [Row; MOST_ROWS]
    requires { place ≤ 65536 }
    ensures { result ≡ rows_from limits.now.file.now (first_block limits.now.file.now 4) place rows }
{
    array::from_fn(|k| row_from(limits, place, rows, k))
}

// Subject s, with so many rows, which start at the given place.
fn subject_in(limits: &Records<'_, 4>, s: usize, rows: u8, place: usize) -> Subject
    requires { (s < most_subjects) × (rows ≡ rows_in limits.now.file.now s) × (place ≡ sum_below (rows_in limits.now.file.now) s) × (place ≤ 65536) }
    ensures { result ≡ subject_in limits.now.file.now s }
{
    if s < subjects_in(limits.file) as usize {
        let r = record(limits.file, 0, s + 1);
        return Subject {
            states: byte(r, 1),
            initial: byte(r, 2),
            rows,
            row: rows_from(limits, place, rows),
        };
    }
    records::blank_subject()
}

// All subjects.
fn subjects(file: &[u8]) -> [Subject; MOST_SUBJECTS]
    ensures { result ≡ table (subject_in file.now) most_subjects }
{
    let limits = Records::of(file);
    let mut subjects = [records::blank_subject(); MOST_SUBJECTS];
    let mut place = 0;
    for s in 0..MOST_SUBJECTS {
        let rows = rows_in(&limits, s);
        subjects[s] = subject_in(&limits, s, rows, place);
        place += rows as usize;
    }
    subjects
}

// ---- states and their exits

// The state of record j, whose exits begin at the given place, where the subject has it; else an unused state.
fn state_or_none(records: &Records<'_, 2>, has: bool, j: usize, place: usize) -> Stored
    ensures { result ≡ cond has (stored_of (record_no records.now.file.now 2 j) (place % 65536)) blank_stored }
{
    if has {
        records::stored_of(records.get(j), (place % 65536) as u16)
    } else {
        Stored::default()
    }
}

// All states, of the subjects of the file.
fn states(file: &[u8], subjects: &[Subject; MOST_SUBJECTS]) -> [Stored; STATE_PLACES]
    requires { subjects.now ≡ table (subject_in file.now) most_subjects }
    ensures { result ≡ table (stored_in file.now) state_places }
{
    let records = Records::of(file);
    let mut states = [records::blank_stored(); STATE_PLACES];
    let mut start = 0;
    let mut place = 0;
    for (s, subject) in subjects.iter().enumerate() {
        let own = subject.states as usize;
        for t in 0..MOST_STATES {
            let st = state_or_none(&records, t < own, start + t, place);
            place += st.exits as usize;
            states[s * MOST_STATES + t] = st;
        }
        start += own;
    }
    states
}

// The exits of the exit records in order, as far as the model has room.
fn all_exits(file: &[u8]) -> [Exit; MOST_EXITS_IN_ALL]
    ensures { result ≡ all_exits file.now }
{
    let records: Records<'_, 3> = Records::of(file);
    let mut exits = [Exit::default(); MOST_EXITS_IN_ALL];
    for j in 0..records.count.min(MOST_EXITS_IN_ALL) {
        exits[j] = records::exit_of(records.get(j));
    }
    exits
}

// The model that the file's records say.
pub(crate) fn model(file: &[u8]) -> Model
    ensures { result ≡ model_of file.now }
{
    let head = record(file, 0, 0);
    let subjects = subjects(file);
    let states = states(file, &subjects);
    let exits = all_exits(file);
    Model {
        n: byte(head, 0),
        start: sets::word(byte(head, 1), byte(head, 2)),
        subjects,
        states,
        exits,
    }
}

// ---- 5: a state or exit missing or too many, a limit's owner that does not exist, more than 8 rows

// The state records are those of the subjects' states, in order, and no more.
fn states_in_place(file: &[u8], subjects: &[Subject; MOST_SUBJECTS]) -> bool
    requires { subjects.now ≡ table (subject_in file.now) most_subjects }
    ensures { result ≡ states_in_place file.now }
{
    let records: Records<'_, 2> = Records::of(file);
    let mut start = 0;
    for (s, subject) in subjects.iter().enumerate() {
        let own = subject.states as usize;
        for t in 0..MOST_STATES {
            if t < own && records::state_key(records.get(start + t)) as usize != t + 256 * s {
                return false;
            }
        }
        start += own;
    }
    records.count == start
}

// So many exits from the given place on name the state with the key and 0, 1, ..
fn exits_named(exits: &Records<'_, 3>, place: usize, count: u8, key: u32) -> bool
    requires { (place ≤ 1000000) × (key ≤ 65535) }
    ensures { result ≡ exits_named exits.now.file.now (first_block exits.now.file.now 3) place count key }
{
    (0..count as u32).all(|x| records::full_key(exits.get(place + x as usize)) == x + 256 * key)
}

// The exit records are those of the states' exits, in order, and no more.
fn exits_in_place(file: &[u8], states: &[Stored; STATE_PLACES]) -> bool
    requires { states.now ≡ table (stored_in file.now) state_places }
    ensures { result ≡ exits_in_place file.now }
{
    let exits = Records::of(file);
    let mut place = 0;
    for (p, st) in states.iter().enumerate() {
        let key = p % MOST_STATES + 256 * (p / MOST_STATES);
        if !exits_named(&exits, place, st.exits, key as u32) {
            return false;
        }
        place += st.exits as usize;
    }
    exits.count == place
}

// Every limit record has an owner that exists.
#[tactic(auto, unfolding(crate::specs::Decoded::owner_there))]
fn owners_there(limits: &Records<'_, 4>) -> bool
    ensures { result ≡ all_below (owner_there limits.now.file.now) (count_of limits.now.file.now 4) }
{
    let n = subjects_in(limits.file);
    (0..limits.count).all(|j| byte(limits.get(j), 0) < n)
}

// No owner has more than 8 limit records.
fn limits_few(limits: &Records<'_, 4>) -> bool
    ensures { result ≡ all_below (λ s. leb (limits_in limits.now.file.now s) most_rows) most_subjects }
{
    (0..MOST_SUBJECTS).all(|s| limits_in(limits, s) <= MOST_ROWS)
}

// Every limit record has an owner, and no owner more than 8.
#[tactic(auto, unfolding(crate::specs::Decoded::limits_in_place))]
fn limits_in_place(file: &[u8]) -> bool
    ensures { result ≡ limits_in_place file.now }
{
    let limits = Records::of(file);
    owners_there(&limits) && limits_few(&limits)
}

// Every record of the file stands where the model has its thing, and none is missing.
#[tactic(auto, unfolding(crate::specs::Decoded::in_place, crate::specs::Decoded::model_of))]
pub(crate) fn in_place(file: &[u8], m: &Model) -> bool
    requires { m.now ≡ model_of file.now }
    ensures { result ≡ in_place file.now }
{
    states_in_place(file, &m.subjects) && exits_in_place(file, &m.states) && limits_in_place(file)
}
