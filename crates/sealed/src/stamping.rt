// The stamp of a strip.
ghost use Rattle.std.specs.Prelude.{◌≡◌, length};
ghost use Rattle.ledgers.specs.Laws.{StampTellsRow, TurnKeepsStamp};
ghost use Rattle.ledgers.specs.declared.call.Act.TheVariants.{Stamp};
ghost use Rattle.sealed.specs.Calls.{Shows, state};
ghost use Rattle.sealed.specs.Piles.{images};
ghost use Rattle.sealed.specs.Serving.{mixed_with};

use crate::checks::takes_answer;
use crate::{Piles, Strip};
use interfaces::Forkcipher;
use interfaces::bytes::xor;
use strips::{Place, StripFault};

impl<H: Forkcipher, A: Forkcipher> Piles<'_, H, A> {
    // The sum with the right image of a row that is stored so.
    fn mixed(&self, place: Place, row: u32, block: [u8; 16], sum: [u8; 16]) -> [u8; 16]
        ensures { result ≡ mixed_with (images H.maps A.maps self.now) place row block sum }
    {
        let plain = self.open(place, row, block);
        xor(sum, self.right(place, row, plain))
    }
}

impl Strip {
    // Puts the stamp into the answer place. No turn changes it, and it tells one changed row.
    pub fn stamp<H: Forkcipher, A: Forkcipher>(
        &self,
        piles: &Piles<'_, H, A>,
        memory: &[u8],
        answer: &mut [u8],
    ) -> Result<(), StripFault>
        ensures shows { Shows
            (images H.maps A.maps piles.now)
            (Stamp (length answer.old)) self.now memory.now answer.old answer.new result }
        ensures kept { TurnKeepsStamp (images H.maps A.maps piles.now) (state self.now memory.now) }
        ensures tells { StampTellsRow (images H.maps A.maps piles.now) (state self.now memory.now) }
    {
        let rows = self.rows_in(memory)?;
        takes_answer(answer)?;
        let mut sum = piles.head(self.place, self.rows);
        for (row, block) in rows.iter().enumerate() {
            sum = piles.mixed(self.place, row as u32, *block, sum);
        }
        answer.copy_from_slice(&sum);
        Ok(())
    }
}
