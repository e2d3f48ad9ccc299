// Why a strip's call is refused.
ghost use Rattle.std.specs.Prelude.{◌≡◌, Some};
ghost use Rattle.strips.specs.Faults.{told, fault_text};

use std::error::Error;
use std::fmt;

#[derive(Clone, Copy, PartialEq, Eq, Debug)]
pub enum StripFault {
    // A text of over 65,536 bytes.
    LongText,
    // Memory that is not 16 bytes for each row.
    WrongMemory,
    // A row that is not below the count.
    NoSuchRow(usize),
    // An answer place that is not 16 bytes.
    WrongAnswerPlace,
}

impl StripFault {
    // The project's rules give each its number, and `as` gives none where a case holds a value.
    pub fn number(self) -> u8
        ensures { result ≡ (told self).number }
    {
        match self {
            StripFault::LongText => 1,
            StripFault::WrongMemory => 2,
            StripFault::NoSuchRow(_) => 3,
            StripFault::WrongAnswerPlace => 4,
        }
    }

    // The row refused, else 0.
    pub fn row(self) -> usize
        ensures { result ≡ (told self).row }
    {
        match self {
            StripFault::NoSuchRow(row) => row,
            _ => 0,
        }
    }
}

impl fmt::Display for StripFault {
    ghost output = { λ f. Some (fault_text f) };

    fn fmt<W: fmt::Write>(&self, f: &mut fmt::Formatter<W>) -> fmt::Result {
        match *self {
            StripFault::LongText => f.write_str("a text of over 65,536 bytes"),
            StripFault::WrongMemory => f.write_str("memory that is not 16 bytes for each row"),
            StripFault::NoSuchRow(row) => write!(f, "no row {row}"),
            StripFault::WrongAnswerPlace => f.write_str("an answer place that is not 16 bytes"),
        }
    }
}

impl Error for StripFault {}
