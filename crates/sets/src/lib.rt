// What the layers share: tests, bytes and masks. Every function takes any values.
#![tactic(auto)]

ghost use Rattle.std.specs.Prelude.{◌≡◌, ◌&&◌, ◌||◌, cond, ◌+◌, ◌*◌, ltb, get_or, drop, length};
ghost use Rattle.sets.specs.Tests.{within, same, all_zero, none_from};
ghost use Rattle.sets.specs.Masks.{bit, with_bit, others, parted};

// The lowest member of a mask, and the mask of the others. No Option: of no members `parted`, which the contract cites, gives 16 and none.
#[derive(Clone, Copy)]
pub struct Parts {
    pub first: u8,
    pub rest: u16,
}

// What `&&`, `||` and `==` say. No crate here calls the three; they stay for their theorems `both_one`, `either_one` and `same_one`.

// Both hold.
pub fn both(a: bool, b: bool) -> bool
    ensures { result ≡ (a && b) }
{
    a && b
}

// One of the two holds.
pub fn either(a: bool, b: bool) -> bool
    ensures { result ≡ (a || b) }
{
    a || b
}

// Both hold, or neither.
pub fn same(a: bool, b: bool) -> bool
    ensures { result ≡ same a b }
{
    a == b
}

// x is from lo to hi.
pub fn is_within(lo: u8, x: u8, hi: u8) -> bool
    ensures { result ≡ within lo x hi }
{
    lo <= x && x <= hi
}

// Byte k, and 0 past the end.
pub fn byte(s: &[u8], k: usize) -> u8
    ensures { result ≡ get_or s.now k 0 }
{
    s.get(k).copied().unwrap_or(0)
}

// A number of two bytes, low first.
pub fn word(lo: u8, hi: u8) -> u16
    ensures { result ≡ lo + 256 * hi }
{
    u16::from_le_bytes([lo, hi])
}

// What stands from place k on: nothing past the end.
pub fn rest(s: &[u8], k: usize) -> &[u8]
    ensures { result.now ≡ drop k s.now }
{
    s.get(k..).unwrap_or(&[])
}

// Every byte is zero.
pub fn is_zero(s: &[u8]) -> bool
    ensures { result ≡ all_zero s.now }
{
    s.iter().all(|x| *x == 0)
}

// No member of the mask is n or more.
#[tactic(auto, using(crate::proofs::Masks::gone_past))]
pub fn none_from(n: u8, mask: u16) -> bool
    ensures { result ≡ none_from n mask }
{
    n >= 16 || mask >> n == 0
}

// k is in the mask.
pub fn has(mask: u16, k: u8) -> bool
    ensures { result ≡ bit mask k }
{
    k < 16 && (mask >> k) % 2 == 1
}

// The mask with k; unchanged where it has no room for k.
pub fn with(mask: u16, k: u8) -> u16
    ensures { result ≡ cond (ltb k 16) (with_bit mask k) mask }
{
    if k < 16 { mask | (1 << k) } else { mask }
}

// The lowest member, and the others. Of no members: 16, and none.
pub fn part(mask: u16) -> Parts
    ensures { result ≡ parted 16 mask }
{
    if mask == 0 {
        return Parts { first: 16, rest: 0 };
    }
    let low = mask.trailing_zeros();
    Parts {
        first: low as u8,
        rest: mask - (1 << low),
    }
}

// How many receivers are not placed.
pub fn missing(receivers: u16, placed: u16) -> u8
    ensures { result ≡ length (others 16 receivers placed) }
{
    (receivers & !placed).count_ones() as u8
}
