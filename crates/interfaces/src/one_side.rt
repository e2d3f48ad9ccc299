// One side of a forkcipher, as a tweakable cipher.
ghost use Rattle.interfaces.specs.Maps.{one_side};
ghost use Rattle.std.proofs.Common.{rules};

use crate::forkcipher::Forkcipher;
use crate::sides::Side;
use crate::tweakable::TweakableCipher;

#[derive(Drop)]
pub struct OneSide<C> {
    pub cipher: C,
    pub side: Side,
}

impl<C: Forkcipher> TweakableCipher for OneSide<C> {
    ghost map = { λ c. one_side c.side (C.Forkcipher.maps c.cipher) };

    ghost lawful = { Prim.search rules };

    fn encrypt(&self, tweak: [u8; 8], block: [u8; 16]) -> [u8; 16] {
        let (left, right) = self.cipher.fork(tweak, block);
        match self.side {
            Side::Left => left,
            Side::Right => right,
        }
    }

    fn decrypt(&self, tweak: [u8; 8], block: [u8; 16]) -> [u8; 16] {
        self.cipher.back(self.side, tweak, block)
    }
}
