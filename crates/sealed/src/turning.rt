// A strip goes to another station.
ghost use Rattle.std.specs.Prelude.{◌≡◌, MatchOption};
ghost use Rattle.ledgers.specs.declared.call.Act.TheVariants.{Convert};
ghost use Rattle.ledgers.specs.declared.call.Change.TheVariants.{Turn};
ghost use Rattle.sealed.specs.Calls.{Does};
ghost use Rattle.sealed.specs.Piles.{images};
ghost use Rattle.sealed.specs.Serving.{Serves};

use crate::ways::Way;
use crate::{Piles, Strip};
use interfaces::{Forkcipher, Side};
use strips::{Station, StripFault};

impl Strip {
    // The way to a station; none where the strip is there.
    fn way_to(&self, wanted: Station) -> Option<Way>
        ensures { MatchOption result (self.now.place.station ≡ wanted) (Serves self.now.place wanted) }
    {
        match (self.place.station, wanted) {
            (Station::Plain, Station::Plain) => None,
            (Station::Plain, Station::Left) => Some(Way::Fork(Side::Left)),
            (Station::Plain, Station::Right) => Some(Way::Fork(Side::Right)),
            (Station::Left, Station::Plain) => Some(Way::Back(Side::Left)),
            (Station::Left, Station::Left) => None,
            (Station::Left, Station::Right) => Some(Way::Cross(Side::Left)),
            (Station::Right, Station::Plain) => Some(Way::Back(Side::Right)),
            (Station::Right, Station::Left) => Some(Way::Cross(Side::Right)),
            (Station::Right, Station::Right) => None,
        }
    }

    // Goes to a station.
    pub fn turn<H: Forkcipher, A: Forkcipher>(
        &mut self,
        piles: &Piles<'_, H, A>,
        memory: &mut [u8],
        wanted: Station,
    ) -> Result<(), StripFault>
        ensures { Does
            (images H.maps A.maps piles.now)
            (Convert (Turn wanted)) self.old self.new memory.old memory.new result }
    {
        self.fits(memory.len())?;
        let Some(way) = self.way_to(wanted) else {
            return Ok(());
        };
        self.lead(piles, memory, way);
        self.place.station = wanted;
        Ok(())
    }
}
