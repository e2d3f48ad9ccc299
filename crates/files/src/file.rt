// A strip file over the caller's bytes.
ghost use Rattle.std.specs.Prelude.{◌≡◌, ◌+◌, ◌≤◌, true};
ghost use Rattle.std.specs.List.{All};
ghost use Rattle.strips.specs.Rows.{most_rows};
ghost use Rattle.files.specs.Layout.{most_entries, entries, entry, body, slots};
ghost use Rattle.files.specs.Left.{records_left};
ghost use Rattle.files.specs.Faults.{Named, is_sound, sound};
ghost use Rattle.files.specs.Records.{Reads, records};
ghost use Rattle.files.specs.Verdict.{verdict};

use crate::fault::FileFault;
use crate::parts::Parts;
use crate::record::{Record, body_start, row_count};
use crate::records::Records;

// The bytes of a file that `check` has accepted.
#[derive(Clone, Copy)]
pub struct StripFile<'a> {
    bytes: &'a [u8],
    ghost accepted: { is_sound (verdict bytes.now) ≡ true },
}

impl<'a> StripFile<'a> {
    // `check` has accepted the bytes.
    pub fn new(bytes: &'a [u8]) -> StripFile<'a>
        requires { verdict bytes.now ≡ sound }
        ensures { result.bytes.now ≡ bytes.now }
    {
        StripFile { bytes }
    }

    // The bytes of its entries.
    fn slots(&self) -> &'a [[u8; 32]]
        ensures { result.now ≡ slots self.now.bytes.now }
    {
        Parts::of(self.bytes).slots()
    }

    // How many entries there are.
    pub fn count(&self) -> usize
        ensures is { result ≡ entries self.now.bytes.now }
        ensures few { result ≤ most_entries }
    {
        self.slots().len()
    }

    // Entry i's bytes.
    fn slot(&self, i: usize) -> Result<&'a [u8; 32], FileFault>
        ensures { Named self.now.bytes.now i (λ e. e.now ≡ entry self.now.bytes.now i) result }
    {
        let slots = self.slots();
        slots.get(i).ok_or(FileFault::NoSuchEntry { entry: i })
    }

    // Entry i's record.
    pub fn entry(&self, i: usize) -> Result<Record, FileFault>
        ensures { Named self.now.bytes.now i (Reads (entry self.now.bytes.now i)) result }
    {
        Ok(Record::read(self.slot(i)?).unwrap())
    }

    // The records of all entries.
    pub fn records(&self) -> Records<'a>
        ensures are { records_left result ≡ records self.now.bytes.now }
        ensures few { All (λ r. r.rows ≤ most_rows) (records self.now.bytes.now) }
    {
        Records::of(self.slots())
    }

    // Entry i's body, a part of the file. Its entry's other fields are not looked at.
    pub fn body(&self, i: usize) -> Result<&'a [u8], FileFault>
        ensures { Named self.now.bytes.now i (λ b. b.now ≡ body self.now.bytes.now i) result }
    {
        let entry = self.slot(i)?;
        let start = body_start(entry) as usize;
        let len = 16 * row_count(entry) as usize;
        Ok(&self.bytes[start..start + len])
    }
}
