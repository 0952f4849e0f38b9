// Blocks and records as parts of the file.
ghost use Rattle.std.specs.Prelude.{◌≡◌, if◌then◌else◌, nat_eq, nat_lt};
ghost use Rattle.blocks.specs.Blocks.{block_of, body_in, check_in, check_right, room_right, record_of, kind_of, used_of, first_block, count_of, record_from};

use super::checks::check;
use sets::byte;

// Block b; nothing where it is not whole.
pub fn block(file: &[u8], b: usize) -> &[u8]
    ensures { result.now ≡ block_of file.now b }
{
    if b < file.len() / 512 {
        let at = b * 512;
        &file[at..at + 512]
    } else {
        &[]
    }
}

// What a block's check is of.
fn body(block: &[u8]) -> &[u8]
    ensures { result.now ≡ body_in block.now }
{
    if 508 <= block.len() {
        return &block[..508];
    }
    block
}

// The check that a block has, low byte first.
fn stored_check(block: &[u8]) -> u32
    ensures { result ≡ check_in block.now }
{
    u32::from_le_bytes([
        byte(block, 508),
        byte(block, 509),
        byte(block, 510),
        byte(block, 511),
    ])
}

// The twelve bytes of record i of block b as they stand in the file; nothing where the block is not
// whole or i is not below both its record count and 42.
#[tactic(auto, using(crate::proofs::BlockLaws::block_short), unfolding(crate::specs::Blocks::record_of, crate::specs::Blocks::record_in))]
pub fn record(file: &[u8], b: usize, i: usize) -> &[u8]
    ensures { result.now ≡ record_of file.now b i }
{
    let part = block(file, b);
    if part.len() < 512 || part[3] as usize <= i || 42 <= i {
        return &[];
    }
    let at = 4 + i * 12;
    &part[at..at + 12]
}

// Block b is of a kind before k.
fn is_earlier(file: &[u8], b: usize, k: u8) -> bool
    ensures { result ≡ nat_lt (kind_of file.now b) k }
{
    byte(block(file, b), 2) < k
}

// The first block of kind k.
pub fn first_block(file: &[u8], k: u8) -> usize
    ensures { result ≡ first_block file.now k }
{
    (0..file.len() / 512)
        .filter(|b| is_earlier(file, *b, k))
        .count()
}

// How many records of kind k block b has.
fn used_of(file: &[u8], b: usize, k: u8) -> u8
    ensures { result ≡ (if nat_eq (kind_of file.now b) k then used_of file.now b else 0) }
{
    let part = block(file, b);
    if byte(part, 2) == k { byte(part, 3) } else { 0 }
}

// How many records of kind k there are.
pub fn count_of(file: &[u8], k: u8) -> usize
    ensures { result ≡ count_of file.now k }
{
    let mut found = 0;
    for b in 0..file.len() / 512 {
        found += used_of(file, b, k) as usize;
    }
    found
}

// Record j, counted from block `first` on.
pub fn record_from(file: &[u8], first: usize, j: usize) -> &[u8]
    ensures { result.now ≡ record_from file.now first j }
{
    if first < file.len() / 512 {
        record(file, first + j / 42, j % 42)
    } else {
        &[]
    }
}

// ---- what is right of a block by itself

// The check of a block is that of its bytes.
pub fn check_right(block: &[u8]) -> bool
    ensures { result ≡ check_right block.now }
{
    stored_check(block) == check(body(block))
}

// Number, count and unused room of a block are right.
#[tactic(auto, unfolding(crate::specs::Blocks::room_right))]
pub fn room_right(b: usize, block: &[u8]) -> bool
    ensures { result ≡ room_right b block.now }
{
    let number = sets::word(byte(block, 0), byte(block, 1)) as usize;
    let used = byte(block, 3);
    let unused = sets::rest(body(block), 4 + 12 * (used as usize));
    number == b && sets::is_within(1, used, 42) && sets::is_zero(unused)
}
