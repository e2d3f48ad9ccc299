// Two strips are compared.
ghost use Rattle.std.specs.Prelude.{◌≡◌, ◌*◌, ◌≤◌, length, Decides};
ghost use Rattle.strips.specs.Rows.{most_rows};
ghost use Rattle.ledgers.specs.Laws.{BytesTellRows};
ghost use Rattle.sealed.specs.Calls.{Compares, SameRows, state};
ghost use Rattle.sealed.specs.Piles.{images};
ghost use Rattle.sealed.specs.Serving.{opened_rows};

use crate::{Piles, Strip};
use interfaces::Forkcipher;
use strips::{Place, StripFault};

impl<H: Forkcipher, A: Forkcipher> Piles<'_, H, A> {
    // Are the plain blocks of all rows the same, stored at one place and at another?
    fn same_plain(&self, place: Place, rows: &[[u8; 16]], other: Place, others: &[[u8; 16]]) -> bool
        requires few { length rows.now ≤ most_rows }
        requires same_count { length rows.now ≡ length others.now }
        ensures { Decides result (
            opened_rows (images H.maps A.maps self.now) place rows.now
            ≡ opened_rows (images H.maps A.maps self.now) other others.now) }
    {
        rows.iter().zip(others).enumerate().all(|(row, (mine, theirs))| {
            self.open(place, row as u32, *mine) == self.open(other, row as u32, *theirs)
        })
    }
}

impl Strip {
    // Do the two hold the same rows? At one place their bytes tell.
    fn agrees<H: Forkcipher, A: Forkcipher>(
        &self,
        piles: &Piles<'_, H, A>,
        memory: &[u8],
        other: &Strip,
        others: &[u8],
    ) -> bool
        requires memory_fits { length memory.now ≡ 16 * self.now.rows.count }
        requires others_fit { length others.now ≡ 16 * other.now.rows.count }
        ensures { SameRows
            (images H.maps A.maps piles.now)
            (state self.now memory.now) (state other.now others.now) result }
    {
        if memory.len() != others.len() {
            return false;
        }
        if self.place == other.place {
            return memory == others;
        }
        piles.same_plain(
            self.place,
            self.split(memory),
            other.place,
            other.split(others),
        )
    }

    // Do two strips under the same two piles hold the same rows?
    pub fn same_rows<H: Forkcipher, A: Forkcipher>(
        &self,
        piles: &Piles<'_, H, A>,
        memory: &[u8],
        other: &Strip,
        others: &[u8],
    ) -> Result<bool, StripFault>
        ensures compares { Compares
            (images H.maps A.maps piles.now)
            self.now other.now memory.now others.now result }
        ensures law { BytesTellRows
            (images H.maps A.maps piles.now)
            (state self.now memory.now) (state other.now others.now) }
    {
        self.fits(memory.len())?;
        other.fits(others.len())?;
        Ok(self.agrees(piles, memory, other, others))
    }
}
