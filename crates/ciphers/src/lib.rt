// AES-128, KIASU-BC and ForkAES.
#![tactic(auto)]

pub mod aes128;
pub mod forkaes;
pub mod kiasu;
mod rounds;

pub use forkaes::ForkAes;
pub use kiasu::KiasuBc;
