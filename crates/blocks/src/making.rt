// Blocks are made in a buffer: records go to their places, and a block is closed.
ghost use Rattle.std.specs.Prelude.{◌≡◌, ◌+◌, ◌≤◌, [], ◌∷◌, ◌++◌, length, take, drop, replicate};
ghost use Rattle.sets.specs.Stores.{stored};
ghost use Rattle.blocks.specs.Checks.{check_of};
ghost use Rattle.blocks.specs.Made.{two_bytes, four_bytes, with_record, sealed};

use super::checks::check;

// The bytes go to the places from p on. exported has the same for itself: a public one would have to take any place.
fn store(buffer: &mut [u8], p: usize, bytes: &[u8])
    requires { p + length bytes.now ≤ length buffer.old }
    ensures { buffer.new ≡ stored buffer.old p bytes.now }
{
    buffer[p..p + bytes.len()].copy_from_slice(bytes);
}

// Record i of block b: its twelve bytes go to their place. Nothing changes where the block is not whole or i is not below 42.
#[tactic(auto, unfolding(crate::specs::Made::with_record))]
pub fn put(buffer: &mut [u8], b: usize, i: usize, r: [u8; 12])
    ensures { buffer.new ≡ with_record buffer.old b i r }
{
    if buffer.len() / 512 <= b || 42 <= i {
        return;
    }
    store(buffer, b * 512 + (4 + i * 12), &r);
}

// Number, kind and record count of a block go to the places from p on.
fn store_head(buffer: &mut [u8], p: usize, b: u16, kind: u8, used: u8)
    requires { p + 4 ≤ length buffer.old }
    ensures { buffer.new ≡ stored buffer.old p (two_bytes b ++ kind ∷ used ∷ []) }
{
    let [low, high] = b.to_le_bytes();
    store(buffer, p, &[low, high, kind, used]);
}

// Zeros go to so many places from p on.
fn clear(buffer: &mut [u8], p: usize, count: usize)
    requires { p + count ≤ length buffer.old }
    ensures { buffer.new ≡ stored buffer.old p (replicate count 0) }
{
    buffer[p..p + count].fill(0);
}

// The check of the 508 bytes from p on goes behind them.
fn store_check(buffer: &mut [u8], p: usize)
    requires { p + 512 ≤ length buffer.old }
    ensures { buffer.new ≡ stored buffer.old (p + 508) (four_bytes (check_of (take 508 (drop p buffer.old)))) }
{
    let c = check(&buffer[p..p + 508]);
    store(buffer, p + 508, &c.to_le_bytes());
}

// Block b is closed with the records that stand there: number, kind, count, unused room and check. Nothing changes where the
// block is not whole, its number does not fit two bytes or it has more than 42 records.
pub fn seal(buffer: &mut [u8], b: usize, kind: u8, used: u8)
    ensures { buffer.new ≡ sealed buffer.old b kind used }
{
    if buffer.len() / 512 <= b || 65536 <= b || 42 < used {
        return;
    }
    let p = b * 512;
    let records = 12 * (used as usize);
    store_head(buffer, p, b as u16, kind, used);
    clear(buffer, p + 4 + records, 504 - records);
    store_check(buffer, p);
}
