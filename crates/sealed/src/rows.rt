// Rows in the caller's memory.
ghost use Rattle.std.specs.Prelude.{◌≡◌, ◌-◌, ◌*◌, ◌<◌, ◌≤◌, ◌++◌, [], IfOk, length, replicate, slice_index_or, slice_set};
ghost use Rattle.std.specs.List.{concat};
ghost use Rattle.strips.specs.declared.fault.StripFault.TheVariants.{WrongMemory};
ghost use Rattle.ledgers.specs.Rows.{cells};
ghost use Rattle.sealed.specs.Calls.{Checks};

use crate::Strip;
use strips::StripFault;

impl Strip {
    // The rows in memory that fits.
    pub(crate) fn split<'m>(&self, memory: &'m [u8]) -> &'m [[u8; 16]]
        requires { length memory.now ≡ 16 * self.now.rows.count }
        ensures count { length result.now ≡ self.now.rows.count }
        ensures rows { result.now ≡ cells self.now.rows.count memory.now }
    {
        let (rows, _) = memory.as_chunks::<16>();
        rows
    }

    // The rows in memory, which has to be sixteen bytes for each.
    pub(crate) fn rows_in<'m>(&self, memory: &'m [u8]) -> Result<&'m [[u8; 16]], StripFault>
        ensures checks { Checks (length memory.now ≡ 16 * self.now.rows.count) WrongMemory result }
        ensures count { IfOk result (λ rows. length rows.now ≡ self.now.rows.count) }
        ensures rows { IfOk result (λ rows. rows.now ≡ cells self.now.rows.count memory.now) }
    {
        self.fits(memory.len())?;
        Ok(self.split(memory))
    }

    // A row as it is stored.
    pub(crate) fn row(&self, memory: &[u8], row: usize) -> [u8; 16]
        requires memory_fits { length memory.now ≡ 16 * self.now.rows.count }
        requires row_within { row < self.now.rows.count }
        ensures { result ≡ slice_index_or (cells self.now.rows.count memory.now) row [] }
    {
        self.split(memory)[row]
    }

    // Stores a block in a row. That memory fits is asked here and of what calls this: a struct over the memory could carry
    // it, as a page of a listing does, but would be made in each call from the strip and its memory, and each of its own
    // calls would promise the same slice and count: no plainer. A type for a row that is there would hold of one strip.
    pub(crate) fn set_row(&self, memory: &mut [u8], row: usize, block: [u8; 16])
        requires memory_fits { length memory.old ≡ 16 * self.now.rows.count }
        requires row_within { row < self.now.rows.count }
        ensures { memory.new ≡ concat (slice_set (cells self.now.rows.count memory.old) row block) }
    {
        memory[16 * row..16 * row + 16].copy_from_slice(&block);
    }
}

// Puts a text into memory, and zeros after it.
pub(crate) fn fill(memory: &mut [u8], text: &[u8])
    requires { length text.now ≤ length memory.old }
    ensures { memory.new ≡ text.now ++ replicate (length memory.old - length text.now) 0 }
{
    memory.fill(0);
    memory[0..text.len()].copy_from_slice(text);
}
