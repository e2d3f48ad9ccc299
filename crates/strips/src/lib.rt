// What others name of a strip: where it is, how many rows it has, and why one of its calls is refused.
// A strip is a run of rows, sixteen bytes each, that stays in the memory of whoever uses it.
#![tactic(auto)]

mod fault;
mod pile;
mod place;
mod rows;
mod station;
mod unknown;

pub use fault::StripFault;
pub use place::{Pile, Place, Station};
pub use rows::RowCount;
pub use unknown::UnknownNumber;
