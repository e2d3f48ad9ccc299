// A list of calls on a strip that is laid from a text.
ghost use Rattle.std.specs.Prelude.{◌≡◌};
ghost use Rattle.sealed.specs.Piles.{images};
ghost use Rattle.replays.specs.Ready.{Untouched, lengths};
ghost use Rattle.replays.specs.Replays.{Replays};

use crate::making::Room;
use crate::ready::{Lengths, Unready, check_text};
use crate::resuming::make_all;
use interfaces::Forkcipher;
use ledgers::{Answer, Call};
use sealed::{Piles, Strip};

// Lays a strip from a text and makes the calls on it. What is at hand in the room stays. Each answer goes into the caller's
// slice beside the calls: a list of both would have to be made, and there is no heap. It does not go by `resume`, since all
// is checked before the text is put into the memory.
pub fn replay<H: Forkcipher, A: Forkcipher>(
    piles: &Piles<'_, H, A>,
    number: u16,
    text: &[u8],
    memory: &mut [u8],
    room: &mut Room<'_>,
    calls: &[Call],
    answers: &mut [Answer],
) -> Result<Strip, Unready>
    ensures law { Replays
        (images H.maps A.maps piles.now)
        calls.now (lengths memory.old room.old answers.old)
        number text.now memory.old memory.new answers.old answers.new result }
    ensures room { Untouched room.old room.new }
{
    let held = Lengths::of(memory, room, answers);
    check_text(text.len(), held, calls)?;
    let mut strip = Strip::lay(number, text, memory)?;
    make_all(piles, &mut strip, memory, room, calls, answers);
    Ok(strip)
}
