// One call of a list, made by the strip's own calls.
ghost use Rattle.std.specs.Prelude.{◌≡◌, ◌*◌, true, length};
ghost use Rattle.ledgers.specs.Rows.{IsBlock};
ghost use Rattle.ledgers.specs.Machine.{Made, SoundAct, step_answer};
ghost use Rattle.ledgers.specs.declared.call.Act.TheVariants.{Convert};
ghost use Rattle.sealed.specs.Calls.{Does, Shows, call as handed, state};
ghost use Rattle.sealed.specs.Piles.{images};
ghost use Rattle.replays.specs.Asking.{asking};
ghost use Rattle.replays.specs.Ready.{Untouched, place_named, roomy, served};

use interfaces::Forkcipher;
use ledgers::{Act, Answer, Call, Change};
use sealed::{Piles, Strip};
use strips::StripFault;

// A block is one.
fn is_block(block: [u8; 16])
    ensures { IsBlock block }
{}

// What an act brings is what its types say.
fn is_sound(act: Act)
    ensures { SoundAct act }
{
    if let Act::Write(_, block) = act {
        is_block(block);
    }
}

fn convert<H: Forkcipher, A: Forkcipher>(
    piles: &Piles<'_, H, A>,
    strip: &mut Strip,
    memory: &mut [u8],
    change: Change,
) -> Result<(), StripFault>
    ensures { Does
        (images H.maps A.maps piles.now)
        (Convert change) strip.old strip.new memory.old memory.new result }
{
    match change {
        Change::Turn(station) => strip.turn(piles, memory, station),
        Change::Renumber(number) => strip.renumber(piles, memory, number),
        Change::Transfer(pile) => strip.transfer(piles, memory, pile),
    }
}

// What a strip is asked: a row, or its stamp. With a closure in its place `answer` would have to ask of it, clause by
// clause, what `Shows` says of both in one word.
#[derive(Clone, Copy)]
enum Question {
    Row(usize),
    Stamp,
}

// Puts what is asked into the answer place.
fn ask<H: Forkcipher, A: Forkcipher>(
    piles: &Piles<'_, H, A>,
    strip: &Strip,
    memory: &[u8],
    question: Question,
    place: &mut [u8],
) -> Result<(), StripFault>
    ensures { Shows
        (images H.maps A.maps piles.now)
        (asking question (length place.old)) strip.now memory.now place.old place.new result }
{
    match question {
        Question::Row(row) => strip.read(piles, memory, row, place),
        Question::Stamp => strip.stamp(piles, memory, place),
    }
}

// What is answered with an answer place of so many bytes.
fn answer<H: Forkcipher, A: Forkcipher>(
    piles: &Piles<'_, H, A>,
    strip: &Strip,
    memory: &[u8],
    blank: &mut [u8],
    question: Question,
    len: usize,
) -> Answer
    requires { roomy (length blank.old) len ≡ true }
    ensures answer { result ≡ step_answer
        (images H.maps A.maps piles.now)
        (handed (asking question len) memory.now) (state strip.now memory.now) }
    ensures blank { blank.new ≡ blank.old }
{
    if len == 16 {
        let mut place = [0; 16];
        ask(piles, strip, memory, question, &mut place)?;
        return Ok(Some(place));
    }
    ask(piles, strip, memory, question, &mut blank[0..len])?;
    Ok(None)
}

// One act, handed this memory.
fn perform<H: Forkcipher, A: Forkcipher>(
    piles: &Piles<'_, H, A>,
    strip: &mut Strip,
    memory: &mut [u8],
    blank: &mut [u8],
    act: Act,
) -> Answer
    requires { roomy (length blank.old) (place_named act) ≡ true }
    ensures made { Made
        (images H.maps A.maps piles.now)
        (handed act memory.old) (state strip.old memory.old) (state strip.new memory.new) result }
    ensures blank { blank.new ≡ blank.old }
{
    is_sound(act);
    match act {
        Act::Write(row, block) => strip.write(piles, memory, row, block).map(|()| None),
        Act::Exchange(first, second) => strip.exchange(piles, memory, first, second).map(|()| None),
        Act::Convert(change) => convert(piles, strip, memory, change).map(|()| None),
        Act::Read(row, len) => answer(piles, strip, memory, blank, Question::Row(row), len),
        Act::Stamp(len) => answer(piles, strip, memory, blank, Question::Stamp, len),
    }
}

// What a list has at hand for calls that are not handed what fits.
#[derive(Drop)]
pub struct Room<'a> {
    // Memory of any other length is a front part of this.
    pub spare: &'a mut [u8],
    // An answer place of any other length is a front part of this.
    pub blank: &'a mut [u8],
}

// One call of a list: handed the strip's own memory, or so much of the spare memory as another length names.
pub(crate) fn hand<H: Forkcipher, A: Forkcipher>(
    piles: &Piles<'_, H, A>,
    strip: &mut Strip,
    memory: &mut [u8],
    room: &mut Room<'_>,
    call: Call,
) -> Answer
    requires memory_fits { length memory.old ≡ 16 * strip.old.rows.count }
    requires call_served { served strip.old.rows.count (length room.old.spare.now) (length room.old.blank.now) call ≡ true }
    ensures made { Made
        (images H.maps A.maps piles.now)
        call (state strip.old memory.old) (state strip.new memory.new) result }
    ensures room { Untouched room.old room.new }
{
    if call.memory == memory.len() {
        return perform(piles, strip, memory, room.blank, call.act);
    }
    perform(
        piles,
        strip,
        &mut room.spare[0..call.memory],
        room.blank,
        call.act,
    )
}
