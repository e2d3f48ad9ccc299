// A row is written.
ghost use Rattle.ledgers.specs.declared.call.Act.TheVariants.{Write};
ghost use Rattle.sealed.specs.Calls.{Does};
ghost use Rattle.sealed.specs.Piles.{images};

use crate::{Piles, Strip};
use interfaces::Forkcipher;
use strips::StripFault;

impl Strip {
    // Replaces a row's plain block.
    pub fn write<H: Forkcipher, A: Forkcipher>(
        &self,
        piles: &Piles<'_, H, A>,
        memory: &mut [u8],
        row: usize,
        block: [u8; 16],
    ) -> Result<(), StripFault>
        ensures { Does
            (images H.maps A.maps piles.now)
            (Write row block) self.now self.now memory.old memory.new result }
    {
        self.fits(memory.len())?;
        self.has(row)?;
        self.set_row(memory, row, piles.store(self.place, row as u32, block));
        Ok(())
    }
}
