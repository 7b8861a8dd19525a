//! Sizes rounded up.
ghost use Rattle.std.specs.Prelude.{◌≡◌, ◌<◌, ◌^◌};
ghost use Rattle.asm_line.specs.Size.{rounded, zeros_to};

/// A size rounded up to a multiple of 4.
pub fn rounded(size: u128) -> u128
    requires { size < 2 ^ 127 }
    ensures { result ≡ rounded size }
{
    (size + 3) / 4 * 4
}

/// How many zero bytes make the size a multiple of `n`. None for an `n` of 0.
pub fn zeros_to(n: u32, size: u128) -> u128
    ensures { result ≡ zeros_to n size }
{
    if n == 0 {
        return 0;
    }
    let n = u128::from(n);
    (n - size % n) % n
}
