// Ciphers that make two images of a block under a tweak, a left and a right one.
ghost use Rattle.std.specs.Prelude.{◌≡◌};
ghost use Rattle.interfaces.specs.Maps.{Maps, Lawful};
ghost use Rattle.interfaces.specs.Sides.{other};
ghost use Rattle.interfaces.specs.declared.sides.Side.TheVariants.{Left, Right};

use crate::sides::Side;

pub trait Forkcipher {
    ghost maps: { Self → Maps };

    // Both images of the block, left first.
    fn fork(&self, tweak: [u8; 8], block: [u8; 16]) -> ([u8; 16], [u8; 16])
        ensures left { result.0 ≡ (maps self.now).image Left tweak block }
        ensures right { result.1 ≡ (maps self.now).image Right tweak block };

    // The block whose image on that side this is.
    fn back(&self, side: Side, tweak: [u8; 8], image: [u8; 16]) -> [u8; 16]
        ensures { result ≡ (maps self.now).origin side tweak image };

    // The other side's image of that block.
    fn cross(&self, side: Side, tweak: [u8; 8], image: [u8; 16]) -> [u8; 16]
        ensures { result ≡ (maps self.now).image (other side) tweak ((maps self.now).origin side tweak image) };

    ghost lawful: { (c : Self) → Lawful (maps c) };
}
