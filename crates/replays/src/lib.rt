// Lists of calls on one strip, and the law over every such list.
// Piles, strip, memory and room stand side by side in what makes the calls: by the project's rules the caller hands piles
// and memory to every call of a strip.
#![tactic(auto)]

mod making;
mod ready;
mod replaying;
mod resuming;

pub use making::Room;
pub use ready::Unready;
pub use replaying::replay;
pub use resuming::resume;
