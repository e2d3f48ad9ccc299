// A row is read.
ghost use Rattle.std.specs.Prelude.{length};
ghost use Rattle.ledgers.specs.declared.call.Act.TheVariants.{Read};
ghost use Rattle.sealed.specs.Calls.{Shows};
ghost use Rattle.sealed.specs.Piles.{images};

use crate::checks::takes_answer;
use crate::{Piles, Strip};
use interfaces::Forkcipher;
use strips::StripFault;

impl Strip {
    // Puts a row's plain block into the answer place.
    pub fn read<H: Forkcipher, A: Forkcipher>(
        &self,
        piles: &Piles<'_, H, A>,
        memory: &[u8],
        row: usize,
        answer: &mut [u8],
    ) -> Result<(), StripFault>
        ensures { Shows
            (images H.maps A.maps piles.now)
            (Read row (length answer.old)) self.now memory.now answer.old answer.new result }
    {
        let rows = self.rows_in(memory)?;
        self.has(row)?;
        takes_answer(answer)?;
        answer.copy_from_slice(&piles.open(self.place, row as u32, rows[row]));
        Ok(())
    }
}
