// The strip file: which bytes are one, and what is in it.
#![tactic(auto)]

mod checks;
mod fault;
mod file;
mod iter;
mod parts;
mod record;
mod records;

pub use checks::check;
pub use fault::FileFault;
pub use file::StripFile;
pub use record::Record;
pub use records::Records;
