// The parts that AES-128 and the ciphers over it are made of: the substitution, the steps on a block, the key schedule.
#![tactic(auto)]

pub mod block;
pub mod bytes;
pub mod columns;
pub mod inv_sbox;
pub mod keys;
pub mod laws;
pub mod sbox;
