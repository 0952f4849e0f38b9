// The check of a run of bytes.
ghost use Rattle.std.specs.Prelude.{◌≡◌};
ghost use Rattle.blocks.specs.Checks.{step_of, check_of};

// The check after one more byte: 33 times itself, by five doublings, plus the byte, modulo 2^32.
fn check_step(c: u32, byte: u8) -> u32
    ensures { result ≡ step_of c byte }
{
    let c2 = c.wrapping_add(c);
    let c4 = c2.wrapping_add(c2);
    let c8 = c4.wrapping_add(c4);
    let c16 = c8.wrapping_add(c8);
    let c32 = c16.wrapping_add(c16);
    let c33 = c32.wrapping_add(c);
    c33.wrapping_add(byte as u32)
}

// The check of all the bytes of a slice.
pub fn check(bytes: &[u8]) -> u32
    ensures { result ≡ check_of bytes.now }
{
    bytes.iter().fold(1, |c, byte| check_step(c, *byte))
}
