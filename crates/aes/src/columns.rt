// One column of a block: four bytes, times one of the two matrices.
ghost use Rattle.std.specs.Prelude.{◌≡◌, [], ◌∷◌};
ghost use Rattle.aes.specs.Block.{mix_column, inv_mix_column};
ghost use Rattle.aes.specs.Field.{doubled, product};
ghost use Rattle.aes.specs.Step.{Step};

// b times 02.
fn double(b: u8) -> u8
    ensures { result ≡ doubled b }
{
    (b % 128 * 2) ^ (b / 128 * 0x1B)
}

// b times 09, 0B, 0D and 0E.
fn multiples(b: u8) -> [u8; 4]
    ensures { result ≡ product 0x09 b ∷ product 0x0B b ∷ product 0x0D b ∷ product 0x0E b ∷ [] }
{
    let two = double(b);
    let four = double(two);
    let eight = double(four);
    [
        b ^ eight,
        b ^ (two ^ eight),
        b ^ (four ^ eight),
        two ^ (four ^ eight),
    ]
}

// The column times the matrix with first row 02 03 01 01.
pub fn mix_column(v: [u8; 4]) -> [u8; 4]
    ensures { Step mix_column inv_mix_column v result }
{
    let [a, b, c, d] = v;
    let [a2, b2, c2, d2] = v.map(double);
    [
        (a2 ^ (b ^ b2)) ^ (c ^ d),
        (a ^ b2) ^ ((c ^ c2) ^ d),
        (a ^ b) ^ (c2 ^ (d ^ d2)),
        ((a ^ a2) ^ b) ^ (c ^ d2),
    ]
}

// The column times the matrix with first row 0E 0B 0D 09.
pub fn inv_mix_column(v: [u8; 4]) -> [u8; 4]
    ensures { Step inv_mix_column mix_column v result }
{
    let [a9, ab, ad, ae] = multiples(v[0]);
    let [b9, bb, bd, be] = multiples(v[1]);
    let [c9, cb, cd, ce] = multiples(v[2]);
    let [d9, db, dd, de] = multiples(v[3]);
    [
        (ae ^ bb) ^ (cd ^ d9),
        (a9 ^ be) ^ (cb ^ dd),
        (ad ^ b9) ^ (ce ^ db),
        (ab ^ bd) ^ (c9 ^ de),
    ]
}
