// Numbers as text: decimal digits, each number followed by one byte.
ghost use Rattle.std.specs.Prelude.{◌≡◌, ◌++◌, ◌∷◌, [], ◌+◌, ◌≤◌, length};
ghost use Rattle.controller.specs.Text.{decimal, pasted};

// Puts a number and the byte after it into the buffer from place p on, and answers the place behind.
pub(crate) fn put(out: &mut [u8], p: usize, n: u64, after: u8) -> usize
    requires { p + 21 ≤ length out.old }
    ensures place { result ≡ p + length (decimal n ++ (after ∷ [])) }
    ensures text { out.new ≡ pasted out.old p (decimal n ++ (after ∷ [])) }
{
    let mut digits = [0u8; 20];
    let k = io::decimal(n, &mut digits);
    out[p..p + k].copy_from_slice(&digits[..k]);
    out[p + k] = after;
    p + k + 1
}
