// Why a strip file, or a call on one, is refused.
ghost use Rattle.std.specs.Prelude.{◌≡◌, Some};
ghost use Rattle.files.specs.Faults.{told, fault_text};

use std::error::Error;
use std::fmt;
use strips::StripFault;

// `entry` counts the entries fully checked, or is the entry that a call named; `byte` is where the faulty field begins.
#[derive(Clone, Copy, PartialEq, Eq, Debug)]
pub enum FileFault {
    // A file of under 16 bytes.
    Short,
    Mark { byte: usize },
    Edition { byte: usize },
    // Too many entries, a spare byte that is not zero, or entries that do not end at the trailer.
    Shape { byte: usize },
    // A station, a pile or a row count that there is not, or zeros that are not.
    Field { entry: usize, byte: usize },
    // A strip number that is not above the one before.
    Order { entry: usize, byte: usize },
    // A body that does not begin where those before it end, or entries that do not begin there.
    BodyStart { entry: usize, byte: usize },
    TotalRows { entry: usize, byte: usize },
    NoSuchEntry { entry: usize },
    // A stamp that is not the one computed.
    Stamp { entry: usize, byte: usize },
    // Output memory that is shorter than the file.
    ShortOutput { entry: usize },
    // What the entry's strip refuses.
    Strip { entry: usize, fault: StripFault },
}

impl FileFault {
    // The project's rules give each its number, and `as` gives none where a case holds values.
    pub fn number(self) -> u8
        ensures { result ≡ (told self).number }
    {
        match self {
            FileFault::Short => 5,
            FileFault::Mark { .. } => 6,
            FileFault::Edition { .. } => 7,
            FileFault::Shape { .. } => 8,
            FileFault::Field { .. } => 9,
            FileFault::Order { .. } => 10,
            FileFault::BodyStart { .. } => 11,
            FileFault::TotalRows { .. } => 12,
            FileFault::NoSuchEntry { .. } => 13,
            FileFault::Stamp { .. } => 14,
            FileFault::ShortOutput { .. } => 15,
            FileFault::Strip { fault, .. } => fault.number(),
        }
    }

    // The entries fully checked before, or the entry named.
    pub fn entry(self) -> usize
        ensures { result ≡ (told self).entry }
    {
        match self {
            FileFault::Field { entry, .. }
            | FileFault::Order { entry, .. }
            | FileFault::BodyStart { entry, .. }
            | FileFault::TotalRows { entry, .. }
            | FileFault::NoSuchEntry { entry }
            | FileFault::Stamp { entry, .. }
            | FileFault::ShortOutput { entry }
            | FileFault::Strip { entry, .. } => entry,
            _ => 0,
        }
    }

    // Where the faulty field begins.
    pub fn byte(self) -> usize
        ensures { result ≡ (told self).byte }
    {
        match self {
            FileFault::Mark { byte }
            | FileFault::Edition { byte }
            | FileFault::Shape { byte }
            | FileFault::Field { byte, .. }
            | FileFault::Stamp { byte, .. }
            | FileFault::Order { byte, .. }
            | FileFault::BodyStart { byte, .. }
            | FileFault::TotalRows { byte, .. } => byte,
            _ => 0,
        }
    }

    // The row of the strip fault that it carries, else 0.
    pub fn row(self) -> usize
        ensures { result ≡ (told self).row }
    {
        match self {
            FileFault::Strip { fault, .. } => fault.row(),
            _ => 0,
        }
    }
}

impl fmt::Display for FileFault {
    ghost output = { λ f. Some (fault_text f) };

    fn fmt<W: fmt::Write>(&self, f: &mut fmt::Formatter<W>) -> fmt::Result {
        match *self {
            FileFault::Strip { entry, fault } => write!(f, "entry {entry}: {fault}"),
            _ => {
                let (number, entry, byte) = (self.number(), self.entry(), self.byte());
                write!(f, "fault {number} at entry {entry}, byte {byte}")
            }
        }
    }
}

impl Error for FileFault {}
