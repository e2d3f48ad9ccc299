// Strips: rows of sixteen bytes, kept in the caller's memory at a place.
// Piles and memory stand side by side in the calls: by the project's rules the caller hands both to every call. So do
// place, row and block in the private ones, where a struct would be made for one call and taken apart in it.
#![tactic(auto)]

mod checks;
mod comparing;
mod exchanging;
mod laying;
mod leading;
mod piles;
mod reading;
mod resealing;
mod rows;
mod stamping;
mod strip;
mod turning;
mod tweaks;
mod ways;
mod writing;

pub use piles::Piles;
pub use strip::Strip;
