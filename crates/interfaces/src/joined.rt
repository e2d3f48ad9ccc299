// A forkcipher of three tweakable ciphers: a stem, and a limb for each side.
ghost use Rattle.interfaces.specs.Maps.{joined};
ghost use Rattle.interfaces.specs.Inverses.{after, side_inverse};

use crate::forkcipher::Forkcipher;
use crate::sides::Side;
use crate::tweakable::TweakableCipher;

#[derive(Drop)]
pub struct Joined<S, L, R> {
    pub stem: S,
    pub left: L,
    pub right: R,
}

impl<S: TweakableCipher, L: TweakableCipher, R: TweakableCipher> Forkcipher for Joined<S, L, R> {
    ghost maps = { λ c. joined (S.TweakableCipher.map c.stem) (L.TweakableCipher.map c.left) (R.TweakableCipher.map c.right) };

    ghost lawful = { λ c s.
        after (S.TweakableCipher.lawful c.stem)
        (side_inverse (L.TweakableCipher.lawful c.left) (R.TweakableCipher.lawful c.right) s) };

    fn fork(&self, tweak: [u8; 8], block: [u8; 16]) -> ([u8; 16], [u8; 16]) {
        let middle = self.stem.encrypt(tweak, block);
        (
            self.left.encrypt(tweak, middle),
            self.right.encrypt(tweak, middle),
        )
    }

    fn back(&self, side: Side, tweak: [u8; 8], image: [u8; 16]) -> [u8; 16] {
        let middle = match side {
            Side::Left => self.left.decrypt(tweak, image),
            Side::Right => self.right.decrypt(tweak, image),
        };
        self.stem.decrypt(tweak, middle)
    }

    fn cross(&self, side: Side, tweak: [u8; 8], image: [u8; 16]) -> [u8; 16] {
        match side {
            Side::Left => self.right.encrypt(tweak, self.left.decrypt(tweak, image)),
            Side::Right => self.left.encrypt(tweak, self.right.decrypt(tweak, image)),
        }
    }
}
