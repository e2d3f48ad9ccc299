// KIASU-BC as a tweakable cipher.
ghost use Rattle.aes.specs.KeySets.{key_of};
ghost use Rattle.ciphers.specs.Kiasu.{kiasu_map};
ghost use Rattle.ciphers.specs.Laws.{kiasu_inverse};

use crate::kiasu::KiasuBc;
use interfaces::TweakableCipher;

impl TweakableCipher for KiasuBc {
    ghost map = { λ c. kiasu_map (key_of c.keys) };

    ghost lawful = { λ c. kiasu_inverse (key_of c.keys) c.keys.scheduled.0 };

    fn encrypt(&self, tweak: [u8; 8], block: [u8; 16]) -> [u8; 16] {
        KiasuBc::encrypt(self, tweak, block)
    }

    fn decrypt(&self, tweak: [u8; 8], block: [u8; 16]) -> [u8; 16] {
        KiasuBc::decrypt(self, tweak, block)
    }
}
