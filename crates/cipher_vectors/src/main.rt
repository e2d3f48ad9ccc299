// Compares AES-128, KIASU-BC and ForkAES with published and with independently made vectors.
#![tactic(auto)]

mod tables;
mod tally;

use aes::keys::KeySet;
use ciphers::aes128::Aes128;
use ciphers::forkaes::ForkAes;
use ciphers::kiasu::KiasuBc;
use interfaces::Side;
use std::io;
use tables::{AES, ROUND_KEYS, TWEAKED};
use tally::Tally;

fn aes128(rt: &HostRuntime) -> io::Result<()> {
    let mut forward = Tally::new();
    let mut back = Tally::new();
    for v in AES.iter() {
        let cipher = Aes128::new(v.key.to_be_bytes());
        forward.compare(cipher.encrypt(v.block.to_be_bytes()), v.image);
        back.compare(cipher.decrypt(v.image.to_be_bytes()), v.block);
    }
    println!(rt; "AES-128 forward: {forward}")?;
    println!(rt; "AES-128 back: {back}")
}

fn round_keys(rt: &HostRuntime) -> io::Result<()> {
    let mut rows = Tally::new();
    let keys = KeySet::new(ROUND_KEYS[0].to_be_bytes());
    for (row, wanted) in keys.rows.iter().zip(ROUND_KEYS.iter()) {
        rows.compare(row.bytes, *wanted);
    }
    println!(rt; "AES-128 round keys: {rows}")
}

// As `aes128`, whose cipher takes no tweak and so lacks the interface's calls: one function for both would take the two calls
// as closures, `|b| cipher.encrypt(tweak, b)` and `|b| cipher.decrypt(tweak, b)`, and be no plainer.
fn kiasu(rt: &HostRuntime) -> io::Result<()> {
    let mut forward = Tally::new();
    let mut back = Tally::new();
    for v in TWEAKED.iter() {
        let cipher = KiasuBc::new(v.key.to_be_bytes());
        let tweak = v.tweak.to_be_bytes();
        forward.compare(cipher.encrypt(tweak, v.block.to_be_bytes()), v.kiasu);
        back.compare(cipher.decrypt(tweak, v.kiasu.to_be_bytes()), v.block);
    }
    println!(rt; "KIASU-BC forward: {forward}")?;
    println!(rt; "KIASU-BC back: {back}")
}

fn forkaes(rt: &HostRuntime) -> io::Result<()> {
    let mut forward = Tally::new();
    let mut back = Tally::new();
    let mut across = Tally::new();
    for v in TWEAKED.iter() {
        let cipher = ForkAes::new(v.key.to_be_bytes());
        let tweak = v.tweak.to_be_bytes();
        let (left, right) = cipher.fork(tweak, v.block.to_be_bytes());
        forward.compare(left, v.left);
        forward.compare(right, v.right);
        for (side, image, other) in [
            (Side::Left, v.left, v.right),
            (Side::Right, v.right, v.left),
        ] {
            let image = image.to_be_bytes();
            back.compare(cipher.back(side, tweak, image), v.block);
            across.compare(cipher.cross(side, tweak, image), other);
        }
    }
    println!(rt; "ForkAES forward: {forward}")?;
    println!(rt; "ForkAES back: {back}")?;
    println!(rt; "ForkAES across: {across}")
}

fn main(rt: HostRuntime) -> io::Result<()> {
    aes128(&rt)?;
    round_keys(&rt)?;
    kiasu(&rt)?;
    forkaes(&rt)
}
