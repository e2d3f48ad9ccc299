// The listing of a strip file.
ghost use Rattle.std.specs.Prelude.{◌<◌, length, Decides};
ghost use Rattle.files.specs.Records.{records};
ghost use Rattle.listing.specs.Listing.{most_input, records_listing, listing, Lists};
ghost use Rattle.listing.specs.Text.{HasRoom, Adds};

use crate::text::Page;
use files::{StripFile, check};

// The longest input that is looked at.
const MOST_INPUT: usize = 65_536;

// The number of an input that is too long; the program's one refusal of its own, so it has no enum.
const LONG_INPUT: u8 = 16;

// Is an input too long to be looked at?
fn is_long(input: &[u8]) -> bool
    ensures { Decides result (most_input < length input.now) }
{
    input.len() > MOST_INPUT
}

impl Page<'_> {
    fn put_file(&mut self, file: StripFile<'_>)
        requires { HasRoom self.old 16384 }
        ensures { Adds self.old (records_listing (records file.entry.bytes.now)) self.new }
    {
        let entries = file.count();
        let mut rows = 0;
        for record in file.records() {
            self.put_record(record);
            rows += record.rows as usize;
        }
        self.put_total(entries, rows);
    }

    fn put_listing(&mut self, input: &[u8])
        requires { HasRoom self.old 16384 }
        ensures { Adds self.old (listing input.now) self.new }
    {
        if is_long(input) {
            return self.put_fault(b"fault list ", LONG_INPUT, 0, 0);
        }
        match check(input) {
            Ok(()) => self.put_file(StripFile::new(input)),
            Err(fault) => self.put_refusal(fault),
        }
    }
}

// Fills the place from its start with the lines that list a strip file, or with the line of its refusal, and answers
// how many bytes they take.
pub fn list(input: &[u8], place: &mut [u8; 16384]) -> usize
    ensures { Lists input.now place.old place.new result }
{
    let mut page = Page { place, used: 0 };
    page.put_listing(input);
    page.used
}
