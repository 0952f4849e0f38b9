// Writing: a model goes back to the blocks of its file, in a buffer that is lent.
ghost use Rattle.std.specs.Prelude.{◌≡◌, true, ◌*◌, ◌≤◌, ◌<◌, length, sum_by};
ghost use Rattle.sets.specs.Stores.{stored};
ghost use Rattle.model.specs.File.{records_of, blocks_for, start_of};
ghost use Rattle.model.specs.Valid.{valid};
ghost use Rattle.model.specs.Writing.{written_as, buffer_of};
ghost use Rattle.model.specs.inner.Lines.{HasRoom, next_of, put_on, end_of, end_on, kind_blocks};

use super::sizes::{BLOCK_BYTES, LAST_RECORD, MOST_RECORDS, MOST_STATES, RECORD_BYTES};
use super::{Model, Stored, Subject, Unwritten, made, unpacked, valid};

// Where the next record of a kind goes: its block, and how many records that block has already.
#[derive(Clone, Copy)]
pub(crate) struct Line {
    pub kind: u8,
    pub block: usize,
    pub used: usize,
}

impl Line {
    // One more record; the block that it fills is closed. The line after it.
    #[tactic(auto, unfolding(crate::specs::inner::Lines::put_on, crate::specs::inner::Lines::next_of))]
    fn put(self, buffer: &mut [u8], r: [u8; RECORD_BYTES]) -> Line
        requires { (self.block < 65536) × (self.used < 42) }
        ensures buffer { buffer.new ≡ put_on buffer.old self r }
        ensures line { result ≡ next_of self }
    {
        blocks::put(buffer, self.block, self.used, r);
        if self.used == LAST_RECORD {
            blocks::seal(buffer, self.block, self.kind, MOST_RECORDS);
            Line {
                block: self.block + 1,
                used: 0,
                ..self
            }
        } else {
            Line {
                used: self.used + 1,
                ..self
            }
        }
    }

    // The kind ends: its last block is closed where it is not full. The next block.
    #[tactic(auto, unfolding(crate::specs::inner::Lines::end_on, crate::specs::inner::Lines::end_of))]
    fn end(self, buffer: &mut [u8]) -> usize
        requires { (self.block < 65536) × (self.used < 42) }
        ensures buffer { buffer.new ≡ end_on buffer.old self }
        ensures block { result ≡ end_of self }
    {
        if self.used == 0 {
            return self.block;
        }
        blocks::seal(buffer, self.block, self.kind, self.used as u8);
        self.block + 1
    }
}

// The header: n and the start mask, then each subject. The next block.
fn write_header(m: &Model, buffer: &mut [u8]) -> usize
    requires { HasRoom m.now buffer.old }
    ensures buffer { buffer.new ≡ stored buffer.old (start_of (records_of m.now) 1 * 512) (kind_blocks (records_of m.now) 1) }
    ensures block { result ≡ start_of (records_of m.now) 2 }
{
    let first = Line {
        kind: 1,
        block: 0,
        used: 0,
    };
    let mut line = first.put(buffer, made::header_record(m.n, m.start));
    for s in 0..m.n {
        line = line.put(buffer, made::subject_record(s, m.subjects[s as usize]));
    }
    line.end(buffer)
}

// The states, from the given block on. The next block.
fn write_states(m: &Model, buffer: &mut [u8], block: usize) -> usize
    requires { HasRoom m.now buffer.old × (block ≡ start_of (records_of m.now) 2) }
    ensures buffer { buffer.new ≡ stored buffer.old (start_of (records_of m.now) 2 * 512) (kind_blocks (records_of m.now) 2) }
    ensures block { result ≡ start_of (records_of m.now) 3 }
{
    let mut line = Line {
        kind: 2,
        block,
        used: 0,
    };
    for (s, sub) in m.subjects.iter().enumerate() {
        for t in 0..sub.states {
            let st = m.states[s * MOST_STATES + t as usize];
            line = line.put(buffer, made::state_record(s as u8, t, st));
        }
    }
    line.end(buffer)
}

// The exits, from the given block on. The next block.
fn write_exits(m: &Model, buffer: &mut [u8], block: usize) -> usize
    requires { HasRoom m.now buffer.old × (block ≡ start_of (records_of m.now) 3) }
    ensures buffer { buffer.new ≡ stored buffer.old (start_of (records_of m.now) 3 * 512) (kind_blocks (records_of m.now) 3) }
    ensures block { result ≡ start_of (records_of m.now) 4 }
{
    let mut line = Line {
        kind: 3,
        block,
        used: 0,
    };
    for (p, st) in m.states.iter().enumerate() {
        let s = (p / MOST_STATES) as u8;
        let t = (p % MOST_STATES) as u8;
        for x in 0..st.exits {
            let e = unpacked::exit_no(&m.exits, st.first as usize + x as usize);
            line = line.put(buffer, made::exit_record(s, t, x, e));
        }
    }
    line.end(buffer)
}

// The limit rows, from the given block on.
fn write_limits(m: &Model, buffer: &mut [u8], block: usize)
    requires { HasRoom m.now buffer.old × (block ≡ start_of (records_of m.now) 4) }
    ensures { buffer.new ≡ stored buffer.old (start_of (records_of m.now) 4 * 512) (kind_blocks (records_of m.now) 4) }
{
    let mut line = Line {
        kind: 4,
        block,
        used: 0,
    };
    for (s, sub) in m.subjects.iter().enumerate() {
        for row in &sub.row[..sub.rows as usize] {
            line = line.put(buffer, made::limit_record(s as u8, *row));
        }
    }
    line.end(buffer);
}

// How many states the subjects have.
fn states_in_all(subjects: &[Subject]) -> usize
    requires { length subjects.now ≤ 65536 }
    ensures { result ≡ sum_by (λ sub. sub.states) subjects.now }
{
    subjects.iter().map(|sub| sub.states as usize).sum()
}

// How many exits the states have.
fn exits_in_all(states: &[Stored]) -> usize
    requires { length states.now ≤ 65536 }
    ensures { result ≡ sum_by (λ st. st.exits) states.now }
{
    states.iter().map(|st| st.exits as usize).sum()
}

// How many limit rows the subjects have.
fn rows_in_all(subjects: &[Subject]) -> usize
    requires { length subjects.now ≤ 65536 }
    ensures { result ≡ sum_by (λ sub. sub.rows) subjects.now }
{
    subjects.iter().map(|sub| sub.rows as usize).sum()
}

// How many blocks so many records fill.
fn blocks_for(count: usize) -> usize
    requires { count ≤ 65536 }
    ensures { result ≡ blocks_for count }
{
    count.div_ceil(MOST_RECORDS as usize)
}

// How many blocks the file of a valid model has: the header, and those of the other kinds.
fn block_count(m: &Model) -> usize
    requires { valid m.now ≡ true }
    ensures { result ≡ start_of (records_of m.now) 5 }
{
    let states = states_in_all(&m.subjects);
    let exits = exits_in_all(&m.states);
    let rows = rows_in_all(&m.subjects);
    1 + blocks_for(states) + blocks_for(exits) + blocks_for(rows)
}

// The file of the model goes to the start of the buffer: its length, or why nothing was written.
pub fn write(m: Model, buffer: &mut [u8]) -> Result<usize, Unwritten>
    ensures answer { result ≡ written_as m (length buffer.old) }
    ensures buffer { buffer.new ≡ buffer_of m buffer.old }
{
    if !valid::is_valid(m) {
        return Err(Unwritten::NotValid);
    }
    let bytes = BLOCK_BYTES * block_count(&m);
    if buffer.len() < bytes {
        return Err(Unwritten::TooShort);
    }
    let states = write_header(&m, buffer);
    let exits = write_states(&m, buffer, states);
    let limits = write_exits(&m, buffer, exits);
    write_limits(&m, buffer, limits);
    Ok(bytes)
}
