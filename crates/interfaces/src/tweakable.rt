// Ciphers that make one image of a block, and another one under another tweak.
ghost use Rattle.std.specs.Prelude.{◌≡◌};
ghost use Rattle.interfaces.specs.Maps.{Map, Inverse};

// Tweak and block stand side by side in every call, as arrays by value: the project's rules give them so.
pub trait TweakableCipher {
    ghost map: { Self → Map };

    // The image of the block under the tweak.
    fn encrypt(&self, tweak: [u8; 8], block: [u8; 16]) -> [u8; 16]
        ensures { result ≡ (map self.now).image tweak block };

    // The block whose image under the tweak this is.
    fn decrypt(&self, tweak: [u8; 8], block: [u8; 16]) -> [u8; 16]
        ensures { result ≡ (map self.now).origin tweak block };

    ghost lawful: { (c : Self) → Inverse (map c).image (map c).origin };
}
