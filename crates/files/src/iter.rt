// One record after another.
ghost use Rattle.std.specs.Iterator.{YieldsFirst, item_count};
ghost use Rattle.files.specs.Left.{records_left};

use crate::record::Record;
use crate::records::Records;

impl Iterator for Records<'_> {
    type Item = Record;

    ghost next_gives = { YieldsFirst records_left };

    ghost remaining = { item_count records_left };

    fn next(&mut self) -> Option<Record> {
        let (first, others) = self.slots.split_first()?;
        self.slots = others;
        Some(Record::read(first).unwrap())
    }
}
