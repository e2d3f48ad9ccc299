// The numbers and the words of stations.
ghost use Rattle.std.specs.Prelude.{◌≡◌, Some};
ghost use Rattle.strips.specs.Places.{StationOf, station_word};

use crate::place::Station;
use crate::unknown::UnknownNumber;
use std::fmt;

impl Station {
    // Its name in plain English.
    pub fn word(self) -> &'static str
        ensures { result.now ≡ station_word self }
    {
        match self {
            Station::Plain => "plain",
            Station::Left => "left",
            Station::Right => "right",
        }
    }
}

impl fmt::Display for Station {
    ghost output = { λ s. Some (station_word s) };

    fn fmt<W: fmt::Write>(&self, f: &mut fmt::Formatter<W>) -> fmt::Result {
        f.write_str(self.word())
    }
}

// The station that has a number in a file.
impl TryFrom<u8> for Station {
    type Error = UnknownNumber;

    ghost try_from_gives = { StationOf };

    fn try_from(number: u8) -> Result<Station, UnknownNumber> {
        match number {
            0 => Ok(Station::Plain),
            1 => Ok(Station::Left),
            2 => Ok(Station::Right),
            _ => Err(UnknownNumber(number)),
        }
    }
}
