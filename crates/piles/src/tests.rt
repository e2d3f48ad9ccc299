// Piles by their images: what is expected comes from the vectors by the layers' formulas.
use crate::foreign::Shifted;
use crate::law::there_and_back;
use crate::vectors::{VECTORS, Vector};
use ciphers::{ForkAes, KiasuBc};
use interfaces::{Forkcipher, Joined, OneSide, Side, TweakableCipher};
use layers::{Crossed, Owner, Pad};

// Pads, with no byte twice.
const P: u128 = 0x00112233_44556677_8899aabb_ccddeeff;

const Q: u128 = 0xf0e1d2c3_b4a59687_78695a4b_3c2d1e0f;

const FIVES: u128 = 0x55555555_55555555_55555555_55555555;

// Owner 1234 (hexadecimal) in the tweak, and owner 8001.
const OWNER_1234: u64 = 0x02468000_00000000;

const OWNER_8001: u64 = 0x10002000_00000000;

// Do all three calls of any forkcipher agree with a block and its images?
fn forks<C: Forkcipher>(c: &C, tweak: u64, block: u128, left: u128, right: u128) -> bool {
    let t = tweak.to_be_bytes();
    let l = left.to_be_bytes();
    let r = right.to_be_bytes();
    let (first, second) = c.fork(t, block.to_be_bytes());
    u128::from_be_bytes(first) == left
        && u128::from_be_bytes(second) == right
        && u128::from_be_bytes(c.back(Side::Left, t, l)) == block
        && u128::from_be_bytes(c.back(Side::Right, t, r)) == block
        && u128::from_be_bytes(c.cross(Side::Left, t, l)) == right
        && u128::from_be_bytes(c.cross(Side::Right, t, r)) == left
}

// Do both calls of any tweakable cipher agree with a block and its image?
fn encrypts<C: TweakableCipher>(c: &C, tweak: u64, block: u128, image: u128) -> bool {
    let t = tweak.to_be_bytes();
    u128::from_be_bytes(c.encrypt(t, block.to_be_bytes())) == image
        && u128::from_be_bytes(c.decrypt(t, image.to_be_bytes())) == block
}

fn forkaes(v: &Vector) -> ForkAes {
    ForkAes::new(v.key.to_be_bytes())
}

fn one_side(v: &Vector, side: Side) -> OneSide<ForkAes> {
    OneSide {
        cipher: forkaes(v),
        side,
    }
}

fn kiasu(v: &Vector) -> KiasuBc {
    KiasuBc::new(v.key.to_be_bytes())
}

fn shifted(key: u128) -> Shifted {
    Shifted::new(key.to_be_bytes())
}

// The cipher from here as stem, KIASU-BC as left limb, and ForkAES's left side as right limb.
fn mixed(v: &Vector) -> Joined<Shifted, KiasuBc, OneSide<ForkAes>> {
    Joined {
        stem: shifted(Q),
        left: kiasu(v),
        right: one_side(v, Side::Left),
    }
}

fn padded<C: Forkcipher>(lower: C, p: u128, q: u128) -> Pad<C> {
    Pad::new(lower, p.to_be_bytes(), q.to_be_bytes())
}

// Three layers over any forkcipher.
fn three<C: Forkcipher>(lower: C) -> Pad<Owner<Crossed<C>>> {
    padded(Owner::new(Crossed::new(lower), 0x1234), P, Q)
}

#[test]
fn tweakable_ciphers(rt: HostRuntime) {
    for v in VECTORS.iter() {
        assert!(rt; encrypts(&kiasu(v), v.tweak, v.block, v.kiasu));
        assert!(rt; encrypts(&one_side(v, Side::Left), v.tweak, v.block, v.left));
        assert!(rt; encrypts(&one_side(v, Side::Right), v.tweak, v.block, v.right));
        assert!(rt; encrypts(&shifted(Q), v.tweak, v.start, v.block));
    }
}

#[test]
fn no_layer_and_one(rt: HostRuntime) {
    for v in VECTORS.iter() {
        let (t, b, l, r) = (v.tweak, v.block, v.left, v.right);
        assert!(rt; forks(&forkaes(v), t, b, l, r));
        assert!(rt; forks(&padded(forkaes(v), P, Q), t, b ^ P, l ^ Q, r ^ Q));
        assert!(rt; forks(&Owner::new(forkaes(v), 0x1234), t ^ OWNER_1234, b, l, r));
        assert!(rt; forks(&Crossed::new(forkaes(v)), t, b, r, l));
    }
}

#[test]
fn two_to_four_layers(rt: HostRuntime) {
    for v in VECTORS.iter() {
        let (t, b, l, r) = (v.tweak, v.block, v.left, v.right);
        let t3 = t ^ OWNER_1234;
        assert!(rt; forks(&Crossed::new(Crossed::new(forkaes(v))), t, b, l, r));
        let owners = Owner::new(Owner::new(forkaes(v), 0x8001), 0x1234);
        assert!(rt; forks(&owners, t3 ^ OWNER_8001, b, l, r));
        assert!(rt; forks(&three(forkaes(v)), t3, b ^ P, r ^ Q, l ^ Q));
        let four = padded(three(forkaes(v)), Q, FIVES);
        assert!(rt; forks(&four, t3, b ^ P ^ Q, r ^ Q ^ FIVES, l ^ Q ^ FIVES));
    }
}

#[test]
fn joined_ciphers(rt: HostRuntime) {
    for v in VECTORS.iter() {
        let (t, b, l, r) = (v.tweak, v.start, v.kiasu, v.left);
        assert!(rt; forks(&mixed(v), t, b, l, r));
        assert!(rt; forks(&three(mixed(v)), t ^ OWNER_1234, b ^ P, r ^ Q, l ^ Q));
    }
}

// KIASU-BC's image of the second vector's block goes on into the cipher from here, under the keys P and Q.
#[test]
fn limbs_from_here(rt: HostRuntime) {
    let v = &VECTORS[1];
    let ends = Joined {
        stem: kiasu(v),
        left: shifted(P),
        right: shifted(Q),
    };
    assert!(rt;
        forks(
            &ends,
            v.tweak,
            v.block,
            0xa3630af1_5eabf5ec_39ca9d6c_1a0077f0,
            0x5393fa01_ae5b051c_c93a6d9c_eaf08700
        )
    );
}

// The cipher from here three times: its image under Q, and then under P and Q.
#[test]
fn all_from_here(rt: HostRuntime) {
    let v = &VECTORS[1];
    let all = Joined {
        stem: shifted(Q),
        left: shifted(P),
        right: shifted(Q),
    };
    let left = 0x8776fc70_a873fc57_64c9d131_90ef82b9;
    let right = 0x77860c80_58830ca7_943921c1_601f7249;
    assert!(rt; forks(&all, v.tweak, v.block, left, right));
    assert!(rt; forks(&Crossed::new(all), v.tweak, v.block, right, left));
}

// Three of KIASU-BC, where no vector is at hand: the calls agree with each other.
#[test]
fn three_of_kiasu(rt: HostRuntime) {
    let v = &VECTORS[1];
    let pile = three(Joined {
        stem: kiasu(v),
        left: KiasuBc::new(P.to_be_bytes()),
        right: KiasuBc::new(Q.to_be_bytes()),
    });
    let t = v.tweak.to_be_bytes();
    let b = v.block.to_be_bytes();
    assert!(rt; u128::from_be_bytes(there_and_back(&pile, Side::Left, t, b)) == v.block);
    let (left, right) = pile.fork(t, b);
    assert!(rt;
        forks(
            &pile,
            v.tweak,
            v.block,
            u128::from_be_bytes(left),
            u128::from_be_bytes(right)
        )
    );
}
