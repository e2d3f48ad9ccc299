// How the rows of a strip get to another place.
ghost use Rattle.std.specs.Prelude.{◌≡◌};
ghost use Rattle.ledgers.specs.Machine.{restored};
ghost use Rattle.sealed.specs.Piles.{images};
ghost use Rattle.sealed.specs.Serving.{Starts, leads};

use crate::piles::Piles;
use crate::tweaks::row_tweak;
use interfaces::{Forkcipher, Side};
use strips::Place;

// An enum and no closure: `Way::Cross(Side::Left)` is plainer than a closure over piles, pile, number and side, and where
// it starts and leads to are two definitions.
#[derive(Clone, Copy)]
pub(crate) enum Way {
    // To another station, by one call of the pile's cipher.
    Fork(Side),
    Back(Side),
    Cross(Side),
    // To any place, by their plain blocks.
    Anew(Place),
}

impl<H: Forkcipher, A: Forkcipher> Piles<'_, H, A> {
    // A row that is stored at a place, as it is stored where the way leads. That the way starts at the place is asked here
    // and of the loop over the rows: a way does not know the place, so no fact of its type could say it.
    pub(crate) fn led(&self, place: Place, way: Way, row: u32, block: [u8; 16]) -> [u8; 16]
        requires { Starts way place.station }
        ensures { result ≡ restored (images H.maps A.maps self.now) place (leads way place) row block }
    {
        let tweak = row_tweak(place.number, row);
        match way {
            Way::Fork(side) => self.image(place.pile, side, tweak, block),
            Way::Back(side) => self.back(place.pile, side, tweak, block),
            Way::Cross(side) => self.cross(place.pile, side, tweak, block),
            Way::Anew(to) => self.store(to, row, self.open(place, row, block)),
        }
    }
}
