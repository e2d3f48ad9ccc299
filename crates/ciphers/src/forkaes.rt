// ForkAES.
pub mod forkcipher;

ghost use Rattle.std.specs.Prelude.{◌≡◌, ◌+◌, take, drop};
ghost use Rattle.aes.specs.KeySets.{key_of};
ghost use Rattle.aes.specs.Keys.{round_key};
ghost use Rattle.aes.specs.Step.{Step};
ghost use Rattle.ciphers.specs.Forks.{start, branch, inv_branch, fork_aes, inv_fork_aes};
ghost use Rattle.ciphers.specs.Rounds.{subkeys};
ghost use Rattle.interfaces.specs.Sides.{other};
ghost use Rattle.interfaces.specs.declared.sides.Side.TheVariants.{Left, Right};

use crate::rounds::Tweak;
use aes::keys::{KeySet, RoundKey};
use interfaces::Side;

#[derive(Clone, Copy)]
pub struct ForkAes {
    keys: KeySet,
}

impl ForkAes {
    pub fn new(key: [u8; 16]) -> Self
        ensures { key_of result.keys ≡ key }
    {
        ForkAes {
            keys: KeySet::new(key),
        }
    }

    // The round keys of a side's branch: those of its five rounds, and the one at its end.
    fn branch_keys(&self, side: Side) -> (&[RoundKey], RoundKey)
        ensures rounds { result.0.now ≡ take 5 (drop (start side) self.now.keys.rows) }
        ensures end { result.1.bytes ≡ round_key (key_of self.now.keys) (start side + 5) }
    {
        let rows = &self.keys.rows;
        match side {
            Side::Left => (&rows[5..10], rows[10]),
            Side::Right => (&rows[11..16], rows[16]),
        }
    }

    // A side's branch, from the stem's result.
    fn branch(&self, side: Side, tweak: Tweak, stem: [u8; 16]) -> [u8; 16]
        ensures { result ≡ branch (subkeys self.now.keys tweak.bytes) side stem }
    {
        let (keys, end) = self.branch_keys(side);
        tweak.add_key(end, tweak.rounds(keys, stem))
    }

    // The stem's result, from a side's image.
    fn inv_branch(&self, side: Side, tweak: Tweak, image: [u8; 16]) -> [u8; 16]
        ensures { result ≡ inv_branch (subkeys self.now.keys tweak.bytes) side image }
    {
        let (keys, end) = self.branch_keys(side);
        tweak.inv_rounds(keys, tweak.add_key(end, image))
    }

    // Both images of the block, left first.
    pub fn fork(&self, tweak: [u8; 8], block: [u8; 16]) -> ([u8; 16], [u8; 16])
        ensures left { Step (fork_aes (key_of self.now.keys) Left tweak) (inv_fork_aes (key_of self.now.keys) Left tweak) block result.0 }
        ensures right { Step (fork_aes (key_of self.now.keys) Right tweak) (inv_fork_aes (key_of self.now.keys) Right tweak) block result.1 }
    {
        let tweak = Tweak::new(tweak);
        let stem = tweak.rounds(&self.keys.rows[..5], block);
        (
            self.branch(Side::Left, tweak, stem),
            self.branch(Side::Right, tweak, stem),
        )
    }

    // The block whose image on that side this is.
    pub fn back(&self, side: Side, tweak: [u8; 8], image: [u8; 16]) -> [u8; 16]
        ensures { Step (inv_fork_aes (key_of self.now.keys) side tweak) (fork_aes (key_of self.now.keys) side tweak) image result }
    {
        let tweak = Tweak::new(tweak);
        tweak.inv_rounds(&self.keys.rows[..5], self.inv_branch(side, tweak, image))
    }

    // The other side's image of that block: from branch to branch, without the stem.
    pub fn cross(&self, side: Side, tweak: [u8; 8], image: [u8; 16]) -> [u8; 16]
        ensures { result ≡ fork_aes (key_of self.now.keys) (other side) tweak (inv_fork_aes (key_of self.now.keys) side tweak image) }
    {
        let tweak = Tweak::new(tweak);
        self.branch(side.other(), tweak, self.inv_branch(side, tweak, image))
    }
}
