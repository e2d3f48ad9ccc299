// ForkAES as a forkcipher.
ghost use Rattle.aes.specs.KeySets.{key_of};
ghost use Rattle.ciphers.specs.Forks.{fork_aes_maps};
ghost use Rattle.ciphers.specs.Laws.{fork_aes_lawful};

use crate::forkaes::ForkAes;
use interfaces::{Forkcipher, Side};

impl Forkcipher for ForkAes {
    ghost maps = { λ c. fork_aes_maps (key_of c.keys) };

    ghost lawful = { λ c. fork_aes_lawful (key_of c.keys) c.keys.scheduled.0 };

    fn fork(&self, tweak: [u8; 8], block: [u8; 16]) -> ([u8; 16], [u8; 16]) {
        ForkAes::fork(self, tweak, block)
    }

    fn back(&self, side: Side, tweak: [u8; 8], image: [u8; 16]) -> [u8; 16] {
        ForkAes::back(self, side, tweak, image)
    }

    fn cross(&self, side: Side, tweak: [u8; 8], image: [u8; 16]) -> [u8; 16] {
        ForkAes::cross(self, side, tweak, image)
    }
}
