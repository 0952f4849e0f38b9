// Numbers and things as bytes in a buffer, numbers low byte first, and back: past the end of the bytes there are zeros.
ghost use Rattle.std.specs.Prelude.{◌≡◌, ℕ, List, ◌+◌, ◌*◌, ◌^◌, ◌≤◌, ◌<◌, get_or, drop, length};
ghost use Rattle.sets.specs.Below.{table};
ghost use Rattle.sets.specs.Stores.{each_of, stored};
ghost use Rattle.blocks.specs.Made.{two_bytes};
ghost use Rattle.exported.specs.Bytes.{word_bytes, short_of, word_of};
ghost use Rattle.exported.specs.Calls.{eight_of};
ghost use Rattle.exported.specs.Sizes.{length_short, length_word};

use sets::{byte, rest};
use std::array;

// A thing that is written as SIZE bytes.
pub(crate) trait Bytes: Copy {
    ghost SIZE: { ℕ };

    // What clauses read past the end of an array of such things.
    ghost blank: { Self };

    ghost bytes: { Self → List ℕ };

    ghost from: { List ℕ → Self };

    const SIZE: usize;

    // The bytes go to the places from p on.
    fn put(&self, room: &mut [u8], p: usize)
        requires { p + SIZE ≤ length room.old }
        ensures { room.new ≡ stored room.old p (bytes self.now) };

    // The thing in some bytes.
    fn from_bytes(b: &[u8]) -> Self
        ensures { result ≡ from b.now };

    ghost sized: { (x : Self) → length (bytes x) ≡ SIZE };
}

// Bytes go to the places from p on. blocks has the same for itself: a public one would have to take any place.
pub(crate) fn store(room: &mut [u8], p: usize, bytes: &[u8])
    requires { p + length bytes.now ≤ length room.old }
    ensures { room.new ≡ stored room.old p bytes.now }
{
    room[p..p + bytes.len()].copy_from_slice(bytes);
}

// The bytes of each thing, one behind the other, go to the places from p on.
pub(crate) fn put_all<T: Bytes>(room: &mut [u8], p: usize, all: &[T])
    requires { p + T.SIZE * length all.now ≤ length room.old }
    ensures { room.new ≡ stored room.old p (each_of (λ i. T.bytes (get_or all.now i T.blank)) (length all.now)) }
{
    for (i, x) in all.iter().enumerate() {
        x.put(room, p + T::SIZE * i);
    }
}

// N things, one behind the other.
pub(crate) fn all_from<T: Bytes, const N: usize>(b: &[u8]) -> [T; N]
    requires { T.SIZE * N < 2 ^ 64 }
    ensures { result ≡ table (λ i. T.from (drop (T.SIZE * i) b.now)) N }
{
    array::from_fn(|i| T::from_bytes(rest(b, T::SIZE * i)))
}

impl Bytes for u16 {
    ghost SIZE = { 2 };

    ghost blank = { 0 };

    ghost bytes = { two_bytes };

    ghost from = { short_of };

    ghost sized = { length_short };

    const SIZE: usize = 2;

    fn put(&self, room: &mut [u8], p: usize) {
        store(room, p, &self.to_le_bytes());
    }

    fn from_bytes(b: &[u8]) -> u16 {
        u16::from_le_bytes(array::from_fn(|i| byte(b, i)))
    }
}

impl Bytes for u32 {
    ghost SIZE = { 4 };

    ghost blank = { 0 };

    ghost bytes = { word_bytes };

    ghost from = { word_of };

    ghost sized = { length_word };

    const SIZE: usize = 4;

    fn put(&self, room: &mut [u8], p: usize) {
        store(room, p, &self.to_le_bytes());
    }

    fn from_bytes(b: &[u8]) -> u32 {
        u32::from_le_bytes(array::from_fn(|i| byte(b, i)))
    }
}

// The first eight bytes.
pub(crate) fn eight_of(b: &[u8]) -> [u8; 8]
    ensures { result ≡ eight_of b.now }
{
    array::from_fn(|i| byte(b, i))
}
