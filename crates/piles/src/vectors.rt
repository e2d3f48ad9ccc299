// Vectors that an independent model of KIASU-BC and ForkAES made, as hexadecimal figures. The program `cipher_vectors` has
// the same ones: these tests cannot see a program, and a crate for six rows would be no plainer.

pub struct Vector {
    pub key: u128,
    pub tweak: u64,
    pub block: u128,
    // the image by KIASU-BC, and the two by ForkAES
    pub kiasu: u128,
    pub left: u128,
    pub right: u128,
    // what the cipher of this crate under the key Q takes to the block: worked out from its formula, not by a run
    pub start: u128,
}

pub const VECTORS: [Vector; 6] = [
    Vector {
        key: 0x4a0c7767_6eaf996e_b0ee1f05_b59691f6,
        tweak: 0x00000000_00000000,
        block: 0x54633140_24272c3c_43593d97_549aa826,
        kiasu: 0x55fd8826_c3f007c6_e9cf81c9_b6feeba0,
        left: 0x27902796_0582f481_e70a890a_7542e5d1,
        right: 0xa201c66e_cbbcb172_f151f9e2_97f3f0fd,
        start: 0xa47befff_90c63e10_3b4e6b6d_6874324f,
    },
    Vector {
        key: 0x2555b3b1_4881f9c4_3a55c99c_f968af07,
        tweak: 0xc4bd60df_b5d8e601,
        block: 0x7790845b_583e845b_942fa91a_60a2fab5,
        kiasu: 0x67c9dfde_af8bf7c4_75eac04a_63aafdd1,
        left: 0xfd367115_20083b04_4a23760a_232e2cc4,
        right: 0xc6af75d0_090b1c8f_2b1c98f1_7eae05d1,
        start: 0x439b1b99_59888a42_288fbeff_e9bf7c8b,
    },
    Vector {
        key: 0x9118d6bf_526efdfb_2cf06149_7726f2a5,
        tweak: 0xe0e3e58e_1078a4c8,
        block: 0x65394805_0c499fed_aa0ad7c1_7dd2c0e7,
        kiasu: 0x9610c77c_b53306ee_2beaa3f5_4899c4fe,
        left: 0x31e739d2_a30435fc_901e2e37_89767e6a,
        right: 0x8b10b81a_a59d8ab3_f945cfa3_32a1c84c,
        start: 0x754be0e6_a87ff2c8_3258f764_51c42584,
    },
    Vector {
        key: 0xc3f8d91a_652e3916_a25d8157_876cad0f,
        tweak: 0x0b83ced5_32fc2855,
        block: 0xfa9b5066_a6831bba_3c5a8490_8aa66c6f,
        kiasu: 0xe68ab1c1_3f8ebfbf_878f56ed_e137ec69,
        left: 0x21b234bb_18a50a06_9166aaee_9b1c08dc,
        right: 0x3c8df360_8c16d7cf_c3695d6e_119b168f,
        start: 0x01bb982c_20bdd2c2_4f16c471_84f42dbc,
    },
    Vector {
        key: 0x2c3ccb1d_164635da_70d37663_fd889986,
        tweak: 0xad9abb84_82aae9a2,
        block: 0xf99e78a2_f58e95e6_ab17c0e6_a10c3b5c,
        kiasu: 0xa49c2b4f_ee0d0323_67dcfffd_840dd74a,
        left: 0x29d70eac_aaeb28aa_a3fa16f6_a92868fd,
        right: 0xe71f4a39_46afeb6f_86bec4e4_f641bb9e,
        start: 0xa447a987_c3a144e5_7e4d99b5_1fa06229,
    },
    Vector {
        key: 0x8daa04d9_fa6f332a_77dcfb47_3403ca29,
        tweak: 0xbb80a9fd_7c8d3c03,
        block: 0x88824668_520f8b18_456de664_93e3f937,
        kiasu: 0xd2249bb9_8c694cc5_a118d038_81fff0d5,
        left: 0x2200ec1a_3daa3dc6_3c517945_44eab441,
        right: 0x71d903c7_bded4446_06b38d57_59131268,
        start: 0xc38f9dd8_9aa7531e_86ebb57f_d3c0a99a,
    },
];
