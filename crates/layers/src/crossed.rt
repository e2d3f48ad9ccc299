// Left and right exchanged.
ghost use Rattle.std.specs.Prelude.{◌≡◌};
ghost use Rattle.layers.specs.Layers.{crossed};
ghost use Rattle.std.proofs.Common.{rules};

use interfaces::{Forkcipher, Side};

#[derive(Drop)]
pub struct Crossed<C> {
    lower: C,
}

// The three layers' `new` each promise the lower cipher. A trait would repeat that clause in each impl, and be no plainer.
impl<C> Crossed<C> {
    pub fn new(lower: C) -> Crossed<C>
        ensures { result.lower ≡ lower }
    {
        Crossed { lower }
    }
}

impl<C: Forkcipher> Forkcipher for Crossed<C> {
    ghost maps = { λ c. crossed (C.Forkcipher.maps c.lower) };

    ghost lawful = { Prim.search rules };

    fn fork(&self, tweak: [u8; 8], block: [u8; 16]) -> ([u8; 16], [u8; 16]) {
        let (left, right) = self.lower.fork(tweak, block);
        (right, left)
    }

    fn back(&self, side: Side, tweak: [u8; 8], image: [u8; 16]) -> [u8; 16] {
        self.lower.back(side.other(), tweak, image)
    }

    fn cross(&self, side: Side, tweak: [u8; 8], image: [u8; 16]) -> [u8; 16] {
        self.lower.cross(side.other(), tweak, image)
    }
}
