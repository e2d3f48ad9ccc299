// AES-128.
ghost use Rattle.std.specs.Prelude.{◌≡◌};
ghost use Rattle.aes.specs.KeySets.{key_of};
ghost use Rattle.aes.specs.Step.{Step};
ghost use Rattle.ciphers.specs.Aes.{aes, inv_aes};
ghost use Rattle.ciphers.specs.Kiasu.{kiasu, inv_kiasu};
ghost use Rattle.ciphers.specs.Rounds.{plain_rounds, inv_plain_rounds};
ghost use Rattle.ciphers.specs.Tweaks.{zero_tweak};

use aes::block::{
    add_round_key, full_round, inv_mix_columns, inv_shift_rows, inv_sub_bytes, shift_rows,
    sub_bytes,
};
use aes::keys::{KeySet, RoundKey};

// KiasuBc and ForkAes have the same field and the same `new`. A struct for all three would take a mark for which it is, as
// `Cipher { keys, mark: Kiasu }`, and be no plainer.
#[derive(Clone, Copy)]
pub struct Aes128 {
    keys: KeySet,
}

// A round with each of the keys in turn, which ends with the key.
fn rounds(keys: &[RoundKey], block: [u8; 16]) -> [u8; 16]
    ensures { result ≡ plain_rounds keys.now block }
{
    let mut s = block;
    for key in keys {
        s = add_round_key(full_round(s), key.bytes);
    }
    s
}

// A round of the inverse with each of the keys, from the last one on.
fn inv_rounds(keys: &[RoundKey], block: [u8; 16]) -> [u8; 16]
    ensures { result ≡ inv_plain_rounds keys.now block }
{
    let mut s = block;
    for key in keys.iter().rev() {
        s = inv_mix_columns(add_round_key(inv_sub_bytes(inv_shift_rows(s)), key.bytes));
    }
    s
}

impl Aes128 {
    pub fn new(key: [u8; 16]) -> Self
        ensures { key_of result.keys ≡ key }
    {
        Aes128 {
            keys: KeySet::new(key),
        }
    }

    // The block enciphered, which KIASU-BC does under the zero tweak too.
    pub fn encrypt(&self, block: [u8; 16]) -> [u8; 16]
        ensures made { Step (aes (key_of self.now.keys)) (inv_aes (key_of self.now.keys)) block result }
        ensures untweaked { result ≡ kiasu (key_of self.now.keys) zero_tweak block }
    {
        let rows = &self.keys.rows;
        let s = rounds(&rows[1..10], add_round_key(block, rows[0].bytes));
        add_round_key(shift_rows(sub_bytes(s)), rows[10].bytes)
    }

    // The block whose encryption this is.
    pub fn decrypt(&self, block: [u8; 16]) -> [u8; 16]
        ensures made { Step (inv_aes (key_of self.now.keys)) (aes (key_of self.now.keys)) block result }
        ensures untweaked { result ≡ inv_kiasu (key_of self.now.keys) zero_tweak block }
    {
        let rows = &self.keys.rows;
        let s = inv_rounds(&rows[1..10], add_round_key(block, rows[10].bytes));
        add_round_key(inv_sub_bytes(inv_shift_rows(s)), rows[0].bytes)
    }
}
