// The record of an entry.
ghost use Rattle.std.specs.Prelude.{◌≡◌, IfOk};
ghost use Rattle.std.specs.Result.{result_err};
ghost use Rattle.files.specs.Checks.{faulty_field};
ghost use Rattle.files.specs.Layout.{rows, body_start};
ghost use Rattle.files.specs.Records.{Reads};

use crate::parts::cut;
use strips::{Pile, RowCount, Station};

// What an entry says of its strip.
#[derive(Clone, Copy, PartialEq, Eq, Debug)]
pub struct Record {
    pub number: u16,
    pub station: Station,
    pub pile: Pile,
    // A number: with a `RowCount` its definition would have to say what a record of too many rows is, and be no plainer.
    pub rows: u32,
    // The byte where the body begins.
    pub start: u32,
    pub stamp: [u8; 16],
}

// The row count in an entry.
pub(crate) fn row_count(entry: &[u8; 32]) -> u32
    ensures { result ≡ rows entry.now }
{
    u32::from_be_bytes(cut(entry, 4))
}

// Where the body of an entry begins.
pub(crate) fn body_start(entry: &[u8; 32]) -> u32
    ensures { result ≡ body_start entry.now }
{
    u32::from_be_bytes(cut(entry, 8))
}

impl Record {
    // The record that an entry's bytes write; else where the first of its fields that is at fault begins in them.
    pub(crate) fn read(entry: &[u8; 32]) -> Result<Record, usize>
        ensures fault { result_err result ≡ faulty_field entry.now }
        ensures reads { IfOk result (Reads entry.now) }
    {
        let station = Station::try_from(entry[2]).map_err(|_| 2usize)?;
        let pile = Pile::try_from(entry[3]).map_err(|_| 3usize)?;
        let rows = row_count(entry);
        RowCount::new(rows as usize).ok_or(4usize)?;
        if u32::from_be_bytes(cut(entry, 12)) != 0 {
            return Err(12);
        }
        Ok(Record {
            number: u16::from_be_bytes(cut(entry, 0)),
            station,
            pile,
            rows,
            start: body_start(entry),
            stamp: cut(entry, 16),
        })
    }
}
