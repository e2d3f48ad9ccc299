// An owner's number in the tweak.
ghost use Rattle.std.specs.Prelude.{◌≡◌, ◌*◌, ◌^◌};
ghost use Rattle.layers.specs.Layers.{owned, own_tweak};
ghost use Rattle.aes.proofs.Blocks.{xored_bytes};
ghost use Rattle.interfaces.specs.Numbers.{big_endian};
ghost use Rattle.interfaces.specs.Inverses.{retweaked};
ghost use Rattle.interfaces.proofs.Numbers.{big_endian_bytes};

use interfaces::bytes::{big_endian, xor};
use interfaces::{Forkcipher, Side};

#[derive(Drop)]
pub struct Owner<C> {
    lower: C,
    owner: u16,
}

// The tweak with the owner XORed in.
fn own(owner: u16, tweak: [u8; 8]) -> [u8; 8]
    ensures { result ≡ own_tweak owner tweak }
{
    xor(tweak, big_endian(u64::from(owner) << 45))
}

impl<C> Owner<C> {
    pub fn new(lower: C, owner: u16) -> Owner<C>
        ensures lower { result.lower ≡ lower }
        ensures owner { result.owner ≡ owner }
    {
        Owner { lower, owner }
    }
}

impl<C: Forkcipher> Forkcipher for Owner<C> {
    ghost maps = { λ c. owned c.owner (C.Forkcipher.maps c.lower) };

    ghost lawful = { λ c s.
        let n = c.owner * 2 ^ 45 in
        retweaked (C.Forkcipher.lawful c.lower s) (own_tweak c.owner)
        (λ t w. xored_bytes 8 t (big_endian 8 n) w.1 (big_endian_bytes 8 n).1) };

    fn fork(&self, tweak: [u8; 8], block: [u8; 16]) -> ([u8; 16], [u8; 16]) {
        self.lower.fork(own(self.owner, tweak), block)
    }

    fn back(&self, side: Side, tweak: [u8; 8], image: [u8; 16]) -> [u8; 16] {
        self.lower.back(side, own(self.owner, tweak), image)
    }

    fn cross(&self, side: Side, tweak: [u8; 8], image: [u8; 16]) -> [u8; 16] {
        self.lower.cross(side, own(self.owner, tweak), image)
    }
}
