// KIASU-BC.
pub mod tweakable;

ghost use Rattle.std.specs.Prelude.{◌≡◌};
ghost use Rattle.aes.specs.Block.{add_round_key, sub_bytes, inv_sub_bytes, shift_rows, inv_shift_rows};
ghost use Rattle.aes.specs.KeySets.{key_of};
ghost use Rattle.aes.specs.Step.{Step};
ghost use Rattle.ciphers.specs.Kiasu.{kiasu, inv_kiasu};
ghost use Rattle.ciphers.specs.Rounds.{subkeys};

use crate::rounds::Tweak;
use aes::block::{inv_shift_rows, inv_sub_bytes, shift_rows, sub_bytes};
use aes::keys::KeySet;

#[derive(Clone, Copy)]
pub struct KiasuBc {
    keys: KeySet,
}

impl KiasuBc {
    pub fn new(key: [u8; 16]) -> Self
        ensures { key_of result.keys ≡ key }
    {
        KiasuBc {
            keys: KeySet::new(key),
        }
    }

    // Subkey 9, the round that does not mix, and subkey 10.
    fn last_round(&self, tweak: Tweak, s: [u8; 16]) -> [u8; 16]
        ensures { result ≡ add_round_key (shift_rows (sub_bytes (add_round_key s (subkeys self.now.keys tweak.bytes 9)))) (subkeys self.now.keys tweak.bytes 10) }
    {
        let s = tweak.add_key(self.keys.rows[9], s);
        tweak.add_key(self.keys.rows[10], shift_rows(sub_bytes(s)))
    }

    // That undone.
    fn inv_last_round(&self, tweak: Tweak, s: [u8; 16]) -> [u8; 16]
        ensures { result ≡ add_round_key (inv_sub_bytes (inv_shift_rows (add_round_key s (subkeys self.now.keys tweak.bytes 10)))) (subkeys self.now.keys tweak.bytes 9) }
    {
        let s = tweak.add_key(self.keys.rows[10], s);
        tweak.add_key(self.keys.rows[9], inv_sub_bytes(inv_shift_rows(s)))
    }

    // The image of the block under the tweak.
    pub fn encrypt(&self, tweak: [u8; 8], block: [u8; 16]) -> [u8; 16]
        ensures { Step (kiasu (key_of self.now.keys) tweak) (inv_kiasu (key_of self.now.keys) tweak) block result }
    {
        let tweak = Tweak::new(tweak);
        self.last_round(tweak, tweak.rounds(&self.keys.rows[..9], block))
    }

    // The block whose image under the tweak this is.
    pub fn decrypt(&self, tweak: [u8; 8], block: [u8; 16]) -> [u8; 16]
        ensures { Step (inv_kiasu (key_of self.now.keys) tweak) (kiasu (key_of self.now.keys) tweak) block result }
    {
        let tweak = Tweak::new(tweak);
        tweak.inv_rounds(&self.keys.rows[..9], self.inv_last_round(tweak, block))
    }
}
