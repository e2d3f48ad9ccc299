// The rows of a strip go to another place.
ghost use Rattle.std.specs.Prelude.{◌≡◌, ◌*◌, ◌<◌, length};
ghost use Rattle.sealed.specs.Piles.{images};
ghost use Rattle.sealed.specs.Serving.{Starts, all_moved, leads, row_moved};

use crate::ways::Way;
use crate::{Piles, Strip};
use interfaces::Forkcipher;

impl Strip {
    // Takes a row along a way.
    fn lead_row<H: Forkcipher, A: Forkcipher>(
        &self,
        piles: &Piles<'_, H, A>,
        memory: &mut [u8],
        way: Way,
        row: usize,
    )
        requires memory_fits { length memory.old ≡ 16 * self.now.rows.count }
        requires row_within { row < self.now.rows.count }
        requires starts { Starts way self.now.place.station }
        ensures { memory.new ≡ row_moved
            (images H.maps A.maps piles.now)
            self.now (leads way self.now.place) row memory.old }
    {
        let block = self.row(memory, row);
        self.set_row(memory, row, piles.led(self.place, way, row as u32, block));
    }

    // Takes every row along a way.
    pub(crate) fn lead<H: Forkcipher, A: Forkcipher>(
        &self,
        piles: &Piles<'_, H, A>,
        memory: &mut [u8],
        way: Way,
    )
        requires memory_fits { length memory.old ≡ 16 * self.now.rows.count }
        requires starts { Starts way self.now.place.station }
        ensures { memory.new ≡ all_moved
            (images H.maps A.maps piles.now)
            self.now (leads way self.now.place) memory.old }
    {
        // By index: tried over `as_chunks_mut`, `chunks_mut` and `chunks_exact_mut`, and by `split_first_chunk_mut` in a
        // `while let`, and the proof did not close: after such a loop it knows of the memory only how long it is.
        for row in 0..self.rows.get() {
            self.lead_row(piles, memory, way, row);
        }
    }
}
