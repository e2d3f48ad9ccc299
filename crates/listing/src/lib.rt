// A strip file as lines of text.
#![tactic(auto)]

mod lines;
mod listing;
mod text;

pub use listing::list;
