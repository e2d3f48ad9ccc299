// The lines of a listing. Each has labels and figures of its own, which no shared function would spare.
ghost use Rattle.std.specs.Prelude.{◌+◌, ◌*◌, ◌≤◌, length};
ghost use Rattle.files.specs.Faults.{told};
ghost use Rattle.files.specs.Layout.{most_entries};
ghost use Rattle.strips.specs.Rows.{most_rows};
ghost use Rattle.listing.specs.Lengths.{longest_record, longest_total, longest_fault, longest_refusal};
ghost use Rattle.listing.specs.Listing.{record_line, total_line, fault_line, refused_line};
ghost use Rattle.listing.specs.Text.{HasRoom, Adds};

use crate::text::Page;
use files::{FileFault, Record};

impl Page<'_> {
    #[tactic(auto, using(crate::proofs::Listed::room))]
    pub(crate) fn put_record(&mut self, record: Record)
        requires room { HasRoom self.old longest_record }
        requires few { «record».rows ≤ most_rows }
        ensures { Adds self.old (record_line «record») self.new }
    {
        self.put_labelled(b"strip ", record.number as usize);
        self.put_labelled(b" rows ", record.rows as usize);
        self.put(b" station ");
        self.put(record.station.word().as_bytes());
        self.put(b" pile ");
        self.put(record.pile.word().as_bytes());
        self.put(b"\n");
    }

    #[tactic(auto, using(crate::proofs::Listed::room))]
    pub(crate) fn put_total(&mut self, entries: usize, rows: usize)
        requires room { HasRoom self.old longest_total }
        requires entries_few { entries ≤ most_entries }
        requires rows_few { rows ≤ most_rows * most_entries }
        ensures { Adds self.old (total_line entries rows) self.new }
    {
        self.put_labelled(b"entries ", entries);
        self.put_labelled(b" rows ", rows);
        self.put(b"\n");
    }

    // A refusal's line, behind the words for what was refused. Three figures and no struct: an input that is too long has a
    // line and no `FileFault`, and a struct for the two would be made here to be taken apart.
    #[tactic(auto, using(crate::proofs::Listed::room))]
    pub(crate) fn put_fault(&mut self, words: &[u8], number: u8, entry: usize, byte: usize)
        requires { HasRoom self.old (length words.now + longest_fault) }
        ensures { Adds self.old (fault_line words.now number entry byte) self.new }
    {
        self.put_labelled(words, number as usize);
        self.put_labelled(b" entry ", entry);
        self.put_labelled(b" byte ", byte);
        self.put(b"\n");
    }

    // The line of a refused file.
    #[tactic(auto, using(crate::proofs::Listed::room))]
    pub(crate) fn put_refusal(&mut self, fault: FileFault)
        requires { HasRoom self.old longest_refusal }
        ensures { Adds self.old (refused_line (told fault)) self.new }
    {
        let number = fault.number();
        self.put_fault(b"fault file ", number, fault.entry(), fault.byte());
    }
}
