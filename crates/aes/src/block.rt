// The steps on one block of sixteen bytes, which fill its columns one after the other.
ghost use Rattle.std.specs.Prelude.{◌≡◌, ◌+◌, ◌%◌, [], ◌∷◌};
ghost use Rattle.aes.specs.Block.{add_round_key, sub_bytes, inv_sub_bytes, shift_rows, inv_shift_rows, at, listed, quarter, four, joined, mix_columns, inv_mix_columns, full_round, inv_full_round};
ghost use Rattle.aes.specs.Step.{Step};

use crate::bytes::xor;
use crate::columns::{inv_mix_column, mix_column};
use crate::inv_sbox::inv_sub_byte;
use crate::sbox::sub_byte;
use std::array::from_fn;

// The block XORed with a round key.
pub fn add_round_key(s: [u8; 16], key: [u8; 16]) -> [u8; 16]
    ensures { result ≡ add_round_key s key }
{
    xor(s, key)
}

// Row r moved left by as many places as `by` has for it.
fn moved(s: [u8; 16], by: [u8; 4]) -> [u8; 16]
    ensures { result ≡ listed 16 λ j. at s ((j + at by (j % 4)) % 16) }
{
    from_fn(|j| s[(j + usize::from(by[j % 4])) % 16])
}

// Row r moved left by r columns.
pub fn shift_rows(s: [u8; 16]) -> [u8; 16]
    ensures { Step shift_rows inv_shift_rows s result }
{
    moved(s, [0, 4, 8, 12])
}

// Row r moved right by r columns.
pub fn inv_shift_rows(s: [u8; 16]) -> [u8; 16]
    ensures { Step inv_shift_rows shift_rows s result }
{
    moved(s, [0, 12, 8, 4])
}

// S of each byte.
pub fn sub_bytes(s: [u8; 16]) -> [u8; 16]
    ensures { Step sub_bytes inv_sub_bytes s result }
{
    s.map(sub_byte)
}

// The byte that S takes to it, for each byte.
pub fn inv_sub_bytes(s: [u8; 16]) -> [u8; 16]
    ensures { Step inv_sub_bytes sub_bytes s result }
{
    s.map(inv_sub_byte)
}

// The four columns of a block.
pub(crate) fn columns(s: [u8; 16]) -> [[u8; 4]; 4]
    ensures { result ≡ quarter s 0 ∷ quarter s 1 ∷ quarter s 2 ∷ quarter s 3 ∷ [] }
{
    [
        [s[0], s[1], s[2], s[3]],
        [s[4], s[5], s[6], s[7]],
        [s[8], s[9], s[10], s[11]],
        [s[12], s[13], s[14], s[15]],
    ]
}

// A block of four columns.
pub(crate) fn join(a: [u8; 4], b: [u8; 4], c: [u8; 4], d: [u8; 4]) -> [u8; 16]
    ensures { result ≡ joined (four a b c d) }
{
    [
        a[0], a[1], a[2], a[3], b[0], b[1], b[2], b[3], c[0], c[1], c[2], c[3], d[0], d[1], d[2],
        d[3],
    ]
}

// Each column mixed. One function over the column's own, as `F: Fn([u8; 4]) -> [u8; 4]`, was tried for this one and the
// next: `ForkAes::back` then takes 541 ns and not 363.
pub fn mix_columns(s: [u8; 16]) -> [u8; 16]
    ensures { Step mix_columns inv_mix_columns s result }
{
    let [a, b, c, d] = columns(s);
    join(mix_column(a), mix_column(b), mix_column(c), mix_column(d))
}

// Each column mixed back.
pub fn inv_mix_columns(s: [u8; 16]) -> [u8; 16]
    ensures { Step inv_mix_columns mix_columns s result }
{
    let [a, b, c, d] = columns(s);
    join(
        inv_mix_column(a),
        inv_mix_column(b),
        inv_mix_column(c),
        inv_mix_column(d),
    )
}

// A round before its key: substitute, shift, mix.
pub fn full_round(s: [u8; 16]) -> [u8; 16]
    ensures { result ≡ full_round s }
{
    mix_columns(shift_rows(sub_bytes(s)))
}

// A full round undone.
pub fn inv_full_round(s: [u8; 16]) -> [u8; 16]
    ensures { result ≡ inv_full_round s }
{
    inv_sub_bytes(inv_shift_rows(inv_mix_columns(s)))
}
