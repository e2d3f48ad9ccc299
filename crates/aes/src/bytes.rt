// Arrays of bytes.
ghost use Rattle.std.specs.Prelude.{◌≡◌, ◌<◌, bit_xor};
ghost use Rattle.aes.specs.Block.{at, xored};

use std::array::from_fn;

// The XOR of two arrays.
pub fn xor<const N: usize>(a: [u8; N], b: [u8; N]) -> [u8; N]
    ensures { result ≡ xored N a.entry b.entry }
{
    from_fn(
        |j| -> u8
            requires { j < N }
            ensures { result ≡ bit_xor (at a j) (at b j) }
        { a[j] ^ b[j] },
    )
}
