// A lawful cipher for tests, with no secrecy at all: XOR of the key, the rows shifted, XOR of the tweak.
ghost use Rattle.std.specs.Prelude.{◌≡◌};
ghost use Rattle.aes.specs.Block.{Bytes};
ghost use Rattle.piles.specs.Shifts.{repeated, shifted_map};
ghost use Rattle.interfaces.specs.Inverses.{after, xor_inverse};
ghost use Rattle.piles.specs.Laws.{repeated_bytes, shift_inverse};

use aes::block::{inv_shift_rows, shift_rows};
use interfaces::TweakableCipher;
use interfaces::bytes::xor;

#[derive(Drop)]
pub struct Shifted {
    key: [u8; 16],
    ghost block: { Bytes 16 key },
}

// The tweak twice.
#[tactic(auto, unfolding(crate::specs::Shifts::repeated))]
fn repeat(tweak: [u8; 8]) -> [u8; 16]
    ensures { result ≡ repeated tweak }
{
    let [a, b, c, d, e, f, g, h] = tweak;
    [a, b, c, d, e, f, g, h, a, b, c, d, e, f, g, h]
}

impl Shifted {
    pub fn new(key: [u8; 16]) -> Shifted
        ensures { result.key ≡ key }
    {
        Shifted { key }
    }
}

impl TweakableCipher for Shifted {
    ghost map = { λ c. shifted_map c.key };

    ghost lawful = { λ c. after (after (xor_inverse (λ t. c.key) (λ t w. c.block)) shift_inverse) (xor_inverse repeated repeated_bytes) };

    fn encrypt(&self, tweak: [u8; 8], block: [u8; 16]) -> [u8; 16] {
        xor(shift_rows(xor(block, self.key)), repeat(tweak))
    }

    fn decrypt(&self, tweak: [u8; 8], block: [u8; 16]) -> [u8; 16] {
        xor(inv_shift_rows(xor(block, repeat(tweak))), self.key)
    }
}
