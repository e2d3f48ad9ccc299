// What the law of any forkcipher gives to code that knows nothing else of it.
ghost use Rattle.std.specs.Prelude.{◌≡◌};

use interfaces::{Forkcipher, Side};

// The image of a block on a side, taken back: the block.
pub fn there_and_back<C: Forkcipher>(
    cipher: &C,
    side: Side,
    tweak: [u8; 8],
    block: [u8; 16],
) -> [u8; 16]
    ensures { result ≡ block }
{
    let (left, right) = cipher.fork(tweak, block);
    match side {
        Side::Left => cipher.back(Side::Left, tweak, left),
        Side::Right => cipher.back(Side::Right, tweak, right),
    }
}
