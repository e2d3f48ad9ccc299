// What is kept of a strip.
ghost use Rattle.std.specs.Prelude.{◌≡◌};

use strips::{Pile, Place, RowCount, Station};

// A strip's record; its bytes lie in the caller's memory.
#[derive(Clone, Copy, PartialEq, Eq, Debug)]
pub struct Strip {
    pub(crate) rows: RowCount,
    pub(crate) place: Place,
}

impl Strip {
    // Takes up a strip that was stored: its bytes are what was stored with it.
    pub fn take_up(number: u16, rows: RowCount, station: Station, pile: Pile) -> Strip
        ensures { result ≡ record { rows = rows; place = record { number = number; station = station; pile = pile } } }
    {
        Strip {
            rows,
            place: Place {
                number,
                station,
                pile,
            },
        }
    }

    // How many rows it has.
    pub fn rows(&self) -> RowCount
        ensures { result ≡ self.now.rows }
    {
        self.rows
    }

    // Where it is.
    pub fn place(&self) -> Place
        ensures { result ≡ self.now.place }
    {
        self.place
    }
}
