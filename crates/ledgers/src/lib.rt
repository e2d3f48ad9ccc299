// The ledger of a strip: plain rows and a place, and what every call makes of them. What holds of strips over whole
// lists of calls is stated and proved here, for any two forkciphers that keep their law.
#![tactic(auto)]

mod call;

pub use call::{Act, Answer, Call, Change};
