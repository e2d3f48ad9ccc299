// A list of calls on a strip that is there.
ghost use Rattle.std.specs.Prelude.{◌≡◌, None};
ghost use Rattle.ledgers.specs.Machine.{Ran};
ghost use Rattle.sealed.specs.Calls.{state};
ghost use Rattle.sealed.specs.Piles.{images};
ghost use Rattle.replays.specs.Ready.{Untouched, lengths, unready};
ghost use Rattle.replays.specs.Replays.{Resumes};

use crate::making::{Room, hand};
use crate::ready::{Lengths, Unready, check};
use interfaces::Forkcipher;
use ledgers::{Answer, Call};
use sealed::{Piles, Strip};

// Makes the calls in their order, each on what the one before left, and writes down each answer.
pub(crate) fn make_all<H: Forkcipher, A: Forkcipher>(
    piles: &Piles<'_, H, A>,
    strip: &mut Strip,
    memory: &mut [u8],
    room: &mut Room<'_>,
    calls: &[Call],
    answers: &mut [Answer],
)
    requires { unready strip.old.rows.count (lengths memory.old room.old answers.old) calls.now ≡ None }
    ensures ran { Ran
        (images H.maps A.maps piles.now)
        calls.now (state strip.old memory.old) (state strip.new memory.new) answers.new }
    ensures room { Untouched room.old room.new }
{
    // The answers by index: tried as a `zip` of `answers.iter_mut()` and the calls, either way round, and the proof did
    // not close: after such a loop it knows of the answers only how many there are.
    for (i, call) in calls.iter().enumerate() {
        let answer = hand(piles, strip, memory, room, *call);
        answers[i] = answer;
    }
}

// Makes the calls on a strip. What is at hand in the room stays.
pub fn resume<H: Forkcipher, A: Forkcipher>(
    piles: &Piles<'_, H, A>,
    strip: &mut Strip,
    memory: &mut [u8],
    room: &mut Room<'_>,
    calls: &[Call],
    answers: &mut [Answer],
) -> Result<(), Unready>
    ensures law { Resumes
        (images H.maps A.maps piles.now)
        calls.now (lengths memory.old room.old answers.old)
        strip.old strip.new memory.old memory.new answers.old answers.new result }
    ensures room { Untouched room.old room.new }
{
    let held = Lengths::of(memory, room, answers);
    check(strip.rows(), held, calls)?;
    make_all(piles, strip, memory, room, calls, answers);
    Ok(())
}
