// The two piles of a strip, and the cipher calls that serve one row.
ghost use Rattle.std.specs.Prelude.{◌≡◌};
ghost use Rattle.interfaces.specs.Sides.{other};
ghost use Rattle.interfaces.specs.declared.sides.Side.TheVariants.{Left, Right};
ghost use Rattle.ledgers.specs.Rows.{plain, stored};
ghost use Rattle.sealed.specs.Piles.{images};
ghost use Rattle.ledgers.specs.Stamps.{head_of, header, right_of};

use crate::tweaks::{header_tweak, row_tweak};
use interfaces::{Forkcipher, Side};
use strips::{Pile, Place, RowCount, Station};

// The ciphers whose images a strip's rows are, at home and away.
#[derive(Clone, Copy)]
pub struct Piles<'a, H, A> {
    pub home: &'a H,
    pub away: &'a A,
}

// Four bytes for the row count, then zeros.
fn header_block(rows: RowCount) -> [u8; 16]
    ensures { result ≡ header rows.count }
{
    let [a, b, c, d] = (rows.get() as u32).to_be_bytes();
    [a, b, c, d, 0, 0, 0, 0, 0, 0, 0, 0, 0, 0, 0, 0]
}

impl<H: Forkcipher, A: Forkcipher> Piles<'_, H, A> {
    // Both images under a pile's cipher, left first. `fork`, `back` and `cross` each match on the pile: home and away may
    // be of two types, and the gate lets no function hand out the one that is meant as a `dyn`.
    fn fork(&self, pile: Pile, tweak: [u8; 8], block: [u8; 16]) -> ([u8; 16], [u8; 16])
        ensures left { result.0 ≡ (images H.maps A.maps self.now pile).image Left tweak block }
        ensures right { result.1 ≡ (images H.maps A.maps self.now pile).image Right tweak block }
    {
        match pile {
            Pile::Home => self.home.fork(tweak, block),
            Pile::Away => self.away.fork(tweak, block),
        }
    }

    // The image on one side.
    pub(crate) fn image(&self, pile: Pile, side: Side, tweak: [u8; 8], block: [u8; 16]) -> [u8; 16]
        ensures { result ≡ (images H.maps A.maps self.now pile).image side tweak block }
    {
        let (left, right) = self.fork(pile, tweak, block);
        match side {
            Side::Left => left,
            Side::Right => right,
        }
    }

    // The block whose image this is.
    pub(crate) fn back(&self, pile: Pile, side: Side, tweak: [u8; 8], image: [u8; 16]) -> [u8; 16]
        ensures { result ≡ (images H.maps A.maps self.now pile).origin side tweak image }
    {
        match pile {
            Pile::Home => self.home.back(side, tweak, image),
            Pile::Away => self.away.back(side, tweak, image),
        }
    }

    // The other side's image of that block.
    pub(crate) fn cross(&self, pile: Pile, side: Side, tweak: [u8; 8], image: [u8; 16]) -> [u8; 16]
        ensures { result ≡ (images H.maps A.maps self.now pile).image (other side) tweak ((images H.maps A.maps self.now pile).origin side tweak image) }
    {
        match pile {
            Pile::Home => self.home.cross(side, tweak, image),
            Pile::Away => self.away.cross(side, tweak, image),
        }
    }

    // A plain block as its place stores it.
    pub(crate) fn store(&self, place: Place, row: u32, block: [u8; 16]) -> [u8; 16]
        ensures { result ≡ stored (images H.maps A.maps self.now) place row block }
    {
        let tweak = row_tweak(place.number, row);
        match place.station {
            Station::Plain => block,
            Station::Left => self.image(place.pile, Side::Left, tweak, block),
            Station::Right => self.image(place.pile, Side::Right, tweak, block),
        }
    }

    // The plain block that is stored so.
    pub(crate) fn open(&self, place: Place, row: u32, block: [u8; 16]) -> [u8; 16]
        ensures { result ≡ plain (images H.maps A.maps self.now) place row block }
    {
        let tweak = row_tweak(place.number, row);
        match place.station {
            Station::Plain => block,
            Station::Left => self.back(place.pile, Side::Left, tweak, block),
            Station::Right => self.back(place.pile, Side::Right, tweak, block),
        }
    }

    // The header's left image.
    pub(crate) fn head(&self, place: Place, rows: RowCount) -> [u8; 16]
        ensures { result ≡ head_of (images H.maps A.maps self.now place.pile) place.number rows.count }
    {
        let tweak = header_tweak(place.number);
        self.image(place.pile, Side::Left, tweak, header_block(rows))
    }

    // A plain row's right image.
    pub(crate) fn right(&self, place: Place, row: u32, block: [u8; 16]) -> [u8; 16]
        ensures { result ≡ right_of (images H.maps A.maps self.now place.pile) place.number row block }
    {
        self.image(place.pile, Side::Right, row_tweak(place.number, row), block)
    }
}
