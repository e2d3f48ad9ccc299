// The calls on a strip, as its ledger is fed them.
use strips::{Pile, Station, StripFault};

// A conversion: a call that gives the strip another place.
#[derive(Clone, Copy, PartialEq, Eq, Debug)]
pub enum Change {
    Turn(Station),
    Renumber(u16),
    Transfer(Pile),
}

// What a call does. Of an answer place only its length is told. A list of calls is data, which is fed to the ledger and
// struck out, so what makes a call matches its act; a list of closures could be made, and not be told apart.
#[derive(Clone, Copy, PartialEq, Eq, Debug)]
pub enum Act {
    // The row, and its new block.
    Write(usize, [u8; 16]),
    // The first row and the second.
    Exchange(usize, usize),
    Convert(Change),
    // The row, and the length of the answer place.
    Read(usize, usize),
    // The length of the answer place.
    Stamp(usize),
}

// A call, with the length of the memory that it is handed: sixteen bytes for each row are the strip's own memory.
#[derive(Clone, Copy, PartialEq, Eq, Debug)]
pub struct Call {
    pub memory: usize,
    pub act: Act,
}

// Nothing where the call is done, or what the answer place then holds; or a refusal.
pub type Answer = Result<Option<[u8; 16]>, StripFault>;
