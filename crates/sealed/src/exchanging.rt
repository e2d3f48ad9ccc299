// Two rows are traded.
ghost use Rattle.std.specs.Prelude.{◌≡◌, ◌*◌, ◌<◌, length};
ghost use Rattle.ledgers.specs.declared.call.Act.TheVariants.{Exchange};
ghost use Rattle.sealed.specs.Calls.{Does};
ghost use Rattle.sealed.specs.Piles.{images};
ghost use Rattle.sealed.specs.Serving.{copied, traded};

use crate::{Piles, Strip};
use interfaces::Forkcipher;
use strips::{Place, StripFault};

impl<H: Forkcipher, A: Forkcipher> Piles<'_, H, A> {
    // A row that is stored at a place, as the place stores it for another row.
    fn copied(&self, place: Place, from: u32, to: u32, block: [u8; 16]) -> [u8; 16]
        ensures { result ≡ copied (images H.maps A.maps self.now) place from to block }
    {
        self.store(place, to, self.open(place, from, block))
    }
}

impl Strip {
    // The two rows' plain blocks, each stored for the other row.
    fn trade<H: Forkcipher, A: Forkcipher>(
        &self,
        piles: &Piles<'_, H, A>,
        memory: &mut [u8],
        first: usize,
        second: usize,
    )
        requires memory_fits { length memory.old ≡ 16 * self.now.rows.count }
        requires first_within { first < self.now.rows.count }
        requires second_within { second < self.now.rows.count }
        ensures { memory.new ≡ traded (images H.maps A.maps piles.now) self.now memory.old first second }
    {
        let a = self.row(memory, first);
        let b = self.row(memory, second);
        let for_first = piles.copied(self.place, second as u32, first as u32, b);
        let for_second = piles.copied(self.place, first as u32, second as u32, a);
        self.set_row(memory, first, for_first);
        self.set_row(memory, second, for_second);
    }

    // Trades the plain blocks of two rows, which may be one and the same.
    pub fn exchange<H: Forkcipher, A: Forkcipher>(
        &self,
        piles: &Piles<'_, H, A>,
        memory: &mut [u8],
        first: usize,
        second: usize,
    ) -> Result<(), StripFault>
        ensures { Does
            (images H.maps A.maps piles.now)
            (Exchange first second) self.now self.now memory.old memory.new result }
    {
        self.fits(memory.len())?;
        self.has(first)?;
        self.has(second)?;
        self.trade(piles, memory, first, second);
        Ok(())
    }
}
