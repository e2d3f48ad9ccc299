// A pad before the lower cipher and one after it.
ghost use Rattle.std.specs.Prelude.{◌≡◌};
ghost use Rattle.aes.specs.Block.{Bytes};
ghost use Rattle.layers.specs.Layers.{padded};
ghost use Rattle.interfaces.specs.Inverses.{after, xor_inverse};

use interfaces::bytes::xor;
use interfaces::{Forkcipher, Side};

#[derive(Drop)]
pub struct Pad<C> {
    lower: C,
    p: [u8; 16],
    q: [u8; 16],
    ghost blocks: { Bytes 16 p × Bytes 16 q },
}

impl<C> Pad<C> {
    pub fn new(lower: C, p: [u8; 16], q: [u8; 16]) -> Pad<C>
        ensures lower { result.lower ≡ lower }
        ensures before { result.p ≡ p }
        ensures after { result.q ≡ q }
    {
        Pad { lower, p, q }
    }
}

impl<C: Forkcipher> Forkcipher for Pad<C> {
    ghost maps = { λ c. padded c.p c.q (C.Forkcipher.maps c.lower) };

    ghost lawful = { λ c s.
        after (after (xor_inverse (λ t. c.p) (λ t w. c.blocks.0)) (C.Forkcipher.lawful c.lower s))
        (xor_inverse (λ t. c.q) (λ t w. c.blocks.1)) };

    fn fork(&self, tweak: [u8; 8], block: [u8; 16]) -> ([u8; 16], [u8; 16]) {
        let (left, right) = self.lower.fork(tweak, xor(block, self.p));
        (xor(left, self.q), xor(right, self.q))
    }

    fn back(&self, side: Side, tweak: [u8; 8], image: [u8; 16]) -> [u8; 16] {
        xor(self.lower.back(side, tweak, xor(image, self.q)), self.p)
    }

    fn cross(&self, side: Side, tweak: [u8; 8], image: [u8; 16]) -> [u8; 16] {
        xor(self.lower.cross(side, tweak, xor(image, self.q)), self.q)
    }
}
