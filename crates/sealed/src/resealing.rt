// A strip gets another number or goes to another pile: every row is stored anew.
ghost use Rattle.std.specs.Prelude.{◌≡◌};
ghost use Rattle.ledgers.specs.Ledgers.{changed};
ghost use Rattle.ledgers.specs.declared.call.Act.TheVariants.{Convert};
ghost use Rattle.ledgers.specs.declared.call.Change.TheVariants.{Renumber, Transfer};
ghost use Rattle.sealed.specs.Calls.{Does};
ghost use Rattle.sealed.specs.Piles.{images};

use crate::ways::Way;
use crate::{Piles, Strip};
use interfaces::Forkcipher;
use ledgers::Change;
use strips::{Pile, Place, StripFault};

// Where a conversion leads from a place.
fn changed(change: Change, place: Place) -> Place
    ensures { result ≡ changed change place }
{
    match change {
        Change::Turn(station) => Place { station, ..place },
        Change::Renumber(number) => Place { number, ..place },
        Change::Transfer(pile) => Place { pile, ..place },
    }
}

impl Strip {
    // Goes where a conversion leads, by the rows' plain blocks.
    fn reseal<H: Forkcipher, A: Forkcipher>(
        &mut self,
        piles: &Piles<'_, H, A>,
        memory: &mut [u8],
        change: Change,
    ) -> Result<(), StripFault>
        ensures { Does
            (images H.maps A.maps piles.now)
            (Convert change) self.old self.new memory.old memory.new result }
    {
        self.fits(memory.len())?;
        let to = changed(change, self.place);
        self.lead(piles, memory, Way::Anew(to));
        self.place = to;
        Ok(())
    }

    // Takes a new number.
    pub fn renumber<H: Forkcipher, A: Forkcipher>(
        &mut self,
        piles: &Piles<'_, H, A>,
        memory: &mut [u8],
        number: u16,
    ) -> Result<(), StripFault>
        ensures { Does
            (images H.maps A.maps piles.now)
            (Convert (Renumber number)) self.old self.new memory.old memory.new result }
    {
        self.reseal(piles, memory, Change::Renumber(number))
    }

    // Goes to a pile.
    pub fn transfer<H: Forkcipher, A: Forkcipher>(
        &mut self,
        piles: &Piles<'_, H, A>,
        memory: &mut [u8],
        wanted: Pile,
    ) -> Result<(), StripFault>
        ensures { Does
            (images H.maps A.maps piles.now)
            (Convert (Transfer wanted)) self.old self.new memory.old memory.new result }
    {
        self.reseal(piles, memory, Change::Transfer(wanted))
    }
}
