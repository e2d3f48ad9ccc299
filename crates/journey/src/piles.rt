// The two piles: the home pile is ForkAES alone, and the away pile has layers over it.
use ciphers::ForkAes;
use layers::{Crossed, Owner, Pad};

const HOME_KEY: u128 = 0x2555b3b1_4881f9c4_3a55c99c_f968af07;

const AWAY_KEY: u128 = 0x9118d6bf_526efdfb_2cf06149_7726f2a5;

// The pads of the away pile, with no byte twice in all four.
const OUTER_P: u128 = 0x00112233_44556677_8899aabb_ccddeeff;

const OUTER_Q: u128 = 0xf0e1d2c3_b4a59687_78695a4b_3c2d1e0f;

const INNER_P: u128 = 0x02132435_46576879_8a9bacbd_cedfe0f1;

const INNER_Q: u128 = 0xfdecdbca_b9a89786_75645342_31201f0e;

const AWAY_OWNER: u16 = 4660;

pub(crate) type Layered = Pad<Owner<Crossed<Pad<ForkAes>>>>;

pub(crate) fn home_pile() -> ForkAes {
    ForkAes::new(HOME_KEY.to_be_bytes())
}

pub(crate) fn away_pile() -> Layered {
    let cipher = ForkAes::new(AWAY_KEY.to_be_bytes());
    let inner = Pad::new(cipher, INNER_P.to_be_bytes(), INNER_Q.to_be_bytes());
    let owned = Owner::new(Crossed::new(inner), AWAY_OWNER);
    Pad::new(owned, OUTER_P.to_be_bytes(), OUTER_Q.to_be_bytes())
}
