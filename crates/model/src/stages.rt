// What is right of a file's length, of a block and of a record: refusals 1 to 4; 2 is a block's own.
ghost use Rattle.std.specs.Prelude.{◌≡◌, ◌-◌, ◌<◌, replicate};
ghost use Rattle.sets.specs.Below.{first_not};
ghost use Rattle.blocks.specs.Blocks.{blocks, block_of, check_right, kind_of};
ghost use Rattle.model.specs.Sizes.{keys};
ghost use Rattle.model.specs.Stages.{length_right, kind_right, full_right, block_right, record_before, Kinds, header_right, exit_right, limit_right, fields_right, record_right, records_right};

use super::kinds::Records;
use super::sizes::{
    BLOCK_BYTES, KEYS, LAST_RECORD, MOST_BLOCKS, MOST_RECORDS, MOST_STATES_U8, MOST_SUBJECTS_U8,
};
use super::{records, rules};
use blocks::{block, record};
use sets::{byte, is_within, is_zero, rest};

// 1: the length is 1 to 43 whole blocks.
#[tactic(auto, unfolding(crate::specs::Stages::length_right))]
pub(crate) fn length_right(file: &[u8]) -> bool
    ensures { result ≡ length_right file.now }
{
    let n = file.len() / BLOCK_BYTES;
    file.len() % BLOCK_BYTES == 0 && 1 <= n && n <= MOST_BLOCKS
}

// The first block whose check is wrong.
pub(crate) fn first_bad_check(file: &[u8]) -> Option<usize>
    ensures { result ≡ first_not (λ b. check_right (block_of file.now b)) (blocks file.now) }
{
    (0..file.len() / BLOCK_BYTES).find(|&b| !blocks::check_right(block(file, b)))
}

// One less, and 0 for 0.
fn before(k: usize) -> usize
    ensures { result ≡ k - 1 }
{
    k.saturating_sub(1)
}

// The kind of block b; 0 where it is not whole.
pub(crate) fn kind_of(file: &[u8], b: usize) -> u8
    ensures { result ≡ kind_of file.now b }
{
    byte(block(file, b), 2)
}

// Block 0, and only it, is the header; later kinds are 2 to 4 and never fall.
#[tactic(auto, unfolding(crate::specs::Stages::kind_right))]
fn kind_right(b: usize, before: u8, kind: u8) -> bool
    ensures { result ≡ kind_right b before kind }
{
    if b == 0 {
        kind == 1
    } else {
        is_within(2, kind, 4) && before <= kind
    }
}

// A block is full, or the next one is not of its kind.
#[tactic(auto, unfolding(crate::specs::Stages::full_right))]
fn full_right(used: u8, kind: u8, after: u8) -> bool
    ensures { result ≡ full_right used kind after }
{
    used == MOST_RECORDS || after != kind
}

// 3: block b is right, between the one before it and the one after it.
#[tactic(auto, unfolding(crate::specs::Stages::block_right))]
fn block_right(file: &[u8], b: usize) -> bool
    requires { b < blocks file.now }
    ensures { result ≡ block_right file.now b }
{
    let part = block(file, b);
    let kind = byte(part, 2);
    blocks::room_right(b, part)
        && kind_right(b, kind_of(file, before(b)), kind)
        && full_right(byte(part, 3), kind, kind_of(file, b + 1))
}

// The first block that is wrong.
pub(crate) fn first_bad_block(file: &[u8]) -> Option<usize>
    ensures { result ≡ first_not (block_right file.now) (blocks file.now) }
{
    (0..file.len() / BLOCK_BYTES).find(|&b| !block_right(file, b))
}

// The record before record i of block b, of the same kind; nothing before the first.
#[tactic(auto, unfolding(crate::specs::Stages::record_before))]
fn record_before<'a>(file: &'a [u8], b: usize, i: usize) -> &'a [u8]
    ensures { result.now ≡ record_before file.now b i }
{
    if 0 < i {
        return record(file, b, i - 1);
    }
    let a = before(b);
    if kind_of(file, a) == kind_of(file, b) {
        return record(file, a, LAST_RECORD);
    }
    &file[..0]
}

// The kind of every state that has a record goes to its key in a table of zeros.
fn put_kinds(file: &[u8], kinds: &mut [u8; KEYS])
    requires { kinds.old ≡ replicate keys 0 }
    ensures { Kinds file.now kinds.new }
{
    let states: Records<'_, 2> = Records::of(file);
    for j in 0..states.count {
        let r = states.get(j);
        kinds[records::state_key(r) as usize] = byte(r, 2);
    }
}

// Header record i, of as many as are used.
#[tactic(auto, unfolding(crate::specs::Stages::header_right))]
fn header_right(used: u8, i: usize, r: &[u8]) -> bool
    ensures { result ≡ header_right used i r.now }
{
    let first = byte(r, 0);
    let fits = if i == 0 {
        is_within(1, first, MOST_SUBJECTS_U8) && used as usize == first as usize + 1
    } else {
        first as usize + 1 == i && is_within(1, byte(r, 1), MOST_STATES_U8)
    };
    fits && is_zero(rest(r, 3))
}

// An exit of a state of the given kind; nothing is asked where that state is missing.
#[tactic(auto, unfolding(crate::specs::Stages::exit_right))]
fn exit_right(kind: u8, r: &[u8]) -> bool
    ensures { result ≡ exit_right kind r.now }
{
    kind == 0 || (rules::exit_fits(kind, records::exit_of(r)) && is_zero(rest(r, 6)))
}

// A limit record by itself.
#[tactic(auto, unfolding(crate::specs::Stages::limit_right))]
fn limit_right(r: &[u8]) -> bool
    ensures { result ≡ limit_right r.now }
{
    rules::row_fits(records::row_of(r)) && is_zero(rest(r, 4))
}

// The fields of a record of kind k that is no header.
#[tactic(auto, unfolding(crate::specs::Stages::fields_right))]
fn fields_right(file: &[u8], k: u8, r: &[u8], kinds: &[u8]) -> bool
    requires { Kinds file.now kinds.now }
    ensures { result ≡ fields_right file.now k r.now }
{
    match k {
        2 => rules::state_fits(records::state_of(r, records::blank_exits())),
        3 => exit_right(byte(kinds, records::state_key(r) as usize), r),
        _ => limit_right(r),
    }
}

// 4: record i of block b is right.
#[tactic(auto, unfolding(crate::specs::Stages::record_right))]
fn record_right(file: &[u8], b: usize, i: usize, kinds: &[u8]) -> bool
    requires { Kinds file.now kinds.now }
    ensures { result ≡ record_right file.now b i }
{
    let part = block(file, b);
    let k = byte(part, 2);
    let r = record(file, b, i);
    if k == 1 {
        return header_right(byte(part, 3), i, r);
    }
    let earlier = records::order_of(k, record_before(file, b, i));
    let here = records::order_of(k, r);
    earlier < here && fields_right(file, k, r, kinds)
}

// The first block with a record that is wrong. Not inlined: the table of kinds lies on the stack only while this runs.
#[inline(never)]
pub(crate) fn first_bad_record(file: &[u8]) -> Option<usize>
    ensures { result ≡ first_not (records_right file.now) (blocks file.now) }
{
    let mut kinds = [0; KEYS];
    put_kinds(file, &mut kinds);
    let n = file.len() / BLOCK_BYTES;
    let mut found = None;
    'search: for b in 0..n {
        for i in 0..byte(block(file, b), 3) as usize {
            if !record_right(file, b, i, &kinds) {
                found = Some(b);
                break 'search;
            }
        }
    }
    found
}
