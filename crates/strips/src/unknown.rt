// A number that stands for nothing.
ghost use Rattle.std.specs.Prelude.{Some};
ghost use Rattle.strips.specs.Places.{unknown_text};

use std::error::Error;
use std::fmt;

// The number of no station, or of no pile.
#[derive(Clone, Copy, PartialEq, Eq, Debug)]
pub struct UnknownNumber(pub u8);

impl fmt::Display for UnknownNumber {
    ghost output = { λ e. Some (unknown_text e) };

    fn fmt<W: fmt::Write>(&self, f: &mut fmt::Formatter<W>) -> fmt::Result {
        write!(f, "unknown number {}", self.0)
    }
}

impl Error for UnknownNumber {}
