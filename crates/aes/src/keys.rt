// Round keys and key sets.
ghost use Rattle.std.specs.Prelude.{◌≡◌, map};
ghost use Rattle.aes.specs.Keys.{round_constants, Doubling, next_key, row, schedule, Scheduled};

use crate::block::{columns, join};
use crate::bytes::xor;
use crate::sbox::sub_byte;

const ROUND_CONSTANTS: [u8; 16] = [
    0x01, 0x02, 0x04, 0x08, 0x10, 0x20, 0x40, 0x80, 0x1B, 0x36, 0x6C, 0xD8, 0xAB, 0x4D, 0x9A, 0x2F,
];

#[derive(Clone, Copy)]
pub struct RoundKey {
    pub bytes: [u8; 16],
}

// Seventeen round keys: the schedule of the first of them. There is no other key set.
#[derive(Clone, Copy)]
pub struct KeySet {
    pub rows: [RoundKey; 17],
    ghost scheduled: { Scheduled (map (λ k. k.bytes) rows) },
}

// The constants of rounds 1 to 16.
#[tactic(auto, using(crate::proofs::Schedule::doubling))]
pub fn round_constants() -> [u8; 16]
    ensures figures { result ≡ round_constants }
    ensures doubling { Doubling result }
{
    ROUND_CONSTANTS
}

// The round key after `key`, column by column.
fn next_key(key: [u8; 16], constant: u8) -> [u8; 16]
    ensures { result ≡ next_key key constant }
{
    let [a, b, c, d] = columns(key);
    let [e, f, g, h] = d.map(sub_byte);
    let a = xor(a, [f ^ constant, g, h, e]);
    let b = xor(b, a);
    let c = xor(c, b);
    let d = xor(d, c);
    join(a, b, c, d)
}

impl KeySet {
    // The schedule of a key.
    pub fn new(key: [u8; 16]) -> Self
        ensures key { row (map (λ k. k.bytes) result.rows) 0 ≡ key }
        ensures rows { map (λ k. k.bytes) result.rows ≡ schedule key }
    {
        let mut rows = [RoundKey { bytes: key }; 17];
        // Row i makes row i + 1: with no index the row before would be a second value beside the rows, and no plainer.
        for (i, constant) in ROUND_CONSTANTS.iter().enumerate() {
            let bytes = next_key(rows[i].bytes, *constant);
            rows[i + 1] = RoundKey { bytes };
        }
        KeySet { rows }
    }
}
