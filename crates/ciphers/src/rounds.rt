// A tweak in the round keys, and rounds under them.
ghost use Rattle.std.specs.Prelude.{◌≡◌};
ghost use Rattle.aes.specs.Block.{add_round_key, full_round, inv_full_round};
ghost use Rattle.ciphers.specs.Rounds.{subkey, rounds, inv_rounds};
ghost use Rattle.ciphers.specs.Tweaks.{spread};

use aes::block::{add_round_key, full_round, inv_full_round};
use aes::keys::RoundKey;

// A tweak, at the places of a round key that it goes into. Its rounds and those of AES-128 are four loops, each with its
// step: one loop for all would take the step as a closure over tweak and key, which is what each loop says, and no plainer.
#[derive(Clone, Copy)]
pub(crate) struct Tweak {
    bytes: [u8; 16],
}

impl Tweak {
    pub(crate) fn new(tweak: [u8; 8]) -> Tweak
        ensures { result.bytes ≡ spread tweak }
    {
        let [a, b, c, d, e, f, g, h] = tweak;
        Tweak {
            bytes: [a, b, 0, 0, c, d, 0, 0, e, f, 0, 0, g, h, 0, 0],
        }
    }

    // s XORed with the round key that has the tweak in it.
    pub(crate) fn add_key(self, key: RoundKey, s: [u8; 16]) -> [u8; 16]
        ensures { result ≡ add_round_key s (subkey self.bytes key) }
    {
        add_round_key(s, add_round_key(key.bytes, self.bytes))
    }

    // With each of the keys in turn: add it, then a full round.
    pub(crate) fn rounds(self, keys: &[RoundKey], block: [u8; 16]) -> [u8; 16]
        ensures { result ≡ rounds self.bytes keys.now block }
    {
        let mut s = block;
        for key in keys {
            s = full_round(self.add_key(*key, s));
        }
        s
    }

    // These rounds undone.
    pub(crate) fn inv_rounds(self, keys: &[RoundKey], block: [u8; 16]) -> [u8; 16]
        ensures { result ≡ inv_rounds self.bytes keys.now block }
    {
        let mut s = block;
        for key in keys.iter().rev() {
            s = self.add_key(*key, inv_full_round(s));
        }
        s
    }
}
