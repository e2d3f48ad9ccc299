// Where a strip is.

// How its rows are stored: as themselves, or as their left or right images under a forkcipher.
#[derive(Clone, Copy, PartialEq, Eq, Debug)]
pub enum Station {
    Plain,
    Left,
    Right,
}

// Whose images they are: a pile is a forkcipher under any number of layers, and a strip has two at hand.
#[derive(Clone, Copy, PartialEq, Eq, Debug)]
pub enum Pile {
    Home,
    Away,
}

// All that decides how a strip's rows are stored.
#[derive(Clone, Copy, PartialEq, Eq, Debug)]
pub struct Place {
    pub number: u16,
    pub station: Station,
    pub pile: Pile,
}
