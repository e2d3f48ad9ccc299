// Arrays of bytes: their XOR, and numbers in them.
ghost use Rattle.std.specs.Prelude.{◌≡◌};
ghost use Rattle.interfaces.specs.Numbers.{big_endian};

pub use aes::bytes::xor;

// A number in eight bytes, most significant first.
pub fn big_endian(x: u64) -> [u8; 8]
    ensures { result ≡ big_endian 8 x }
{
    x.to_be_bytes()
}
