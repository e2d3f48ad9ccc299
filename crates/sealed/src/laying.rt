// A new strip.
ghost use Rattle.sealed.specs.Calls.{Lays};

use crate::Strip;
use crate::rows::fill;
use strips::{Pile, RowCount, Station, StripFault};

impl Strip {
    // A strip of a text, at plain and home.
    pub fn lay(number: u16, text: &[u8], memory: &mut [u8]) -> Result<Strip, StripFault>
        ensures { Lays number text.now memory.old memory.new result }
    {
        let rows = RowCount::of_text(text.len()).ok_or(StripFault::LongText)?;
        let strip = Strip::take_up(number, rows, Station::Plain, Pile::Home);
        strip.fits(memory.len())?;
        fill(memory, text);
        Ok(strip)
    }
}
