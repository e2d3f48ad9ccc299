// A cipher of this crate's own behind the interfaces, and piles of layers over it and over the others, tried on examples.
#![tactic(auto)]

pub mod foreign;
pub mod law;
#[cfg(test)]
mod tests;
#[cfg(test)]
mod vectors;
