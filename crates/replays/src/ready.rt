// When a list of calls is begun.
ghost use Rattle.std.specs.Prelude.{◌≡◌};
ghost use Rattle.replays.specs.declared.ready.Unready.TheVariants.{Refused};
ghost use Rattle.replays.specs.Ready.{Finds, first_unserved, lengths, place_named, roomy, served, unready, unready_text};

use crate::making::Room;
use ledgers::{Act, Answer, Call};
use strips::{RowCount, StripFault};

// Why a list of calls is not begun.
#[derive(Clone, Copy, PartialEq, Eq, Debug)]
pub enum Unready {
    // The strip's own refusal: the text is too long, or the memory is not sixteen bytes for each row.
    Refused(StripFault),
    // There are not as many answers as calls.
    Answers,
    // The first call for which the spare memory or the blank answer place is too short.
    NoRoom(usize),
}

impl From<StripFault> for Unready {
    ghost from_gives = { λ fault why. why ≡ Refused fault };

    fn from(fault: StripFault) -> Unready {
        Unready::Refused(fault)
    }
}

// The lengths of what is handed in with a list of calls.
#[derive(Clone, Copy)]
pub(crate) struct Lengths {
    pub(crate) memory: usize,
    pub(crate) spare: usize,
    pub(crate) blank: usize,
    pub(crate) answers: usize,
}

impl Lengths {
    pub(crate) fn of(memory: &[u8], room: &Room<'_>, answers: &[Answer]) -> Lengths
        ensures { result ≡ lengths memory.now room.now answers.now }
    {
        Lengths {
            memory: memory.len(),
            spare: room.spare.len(),
            blank: room.blank.len(),
            answers: answers.len(),
        }
    }
}

// The length of the answer place that an act names.
fn named_place(act: Act) -> usize
    ensures { result ≡ place_named act }
{
    match act {
        Act::Read(_, len) | Act::Stamp(len) => len,
        _ => 16,
    }
}

fn has_room(blank: usize, len: usize) -> bool
    ensures { result ≡ roomy blank len }
{
    len == 16 || len <= blank
}

fn is_served(rows: RowCount, held: Lengths, call: Call) -> bool
    ensures { result ≡ served rows.count held.spare held.blank call }
{
    (call.memory == 16 * rows.get() || call.memory <= held.spare)
        && has_room(held.blank, named_place(call.act))
}

// The first call that is not served.
fn first_unserved(rows: RowCount, held: Lengths, calls: &[Call]) -> Option<usize>
    ensures { result ≡ first_unserved rows.count held.spare held.blank calls.now }
{
    calls.iter().position(|call| !is_served(rows, held, *call))
}

// Is a list on a strip of so many rows begun?
pub(crate) fn check(rows: RowCount, held: Lengths, calls: &[Call]) -> Result<(), Unready>
    ensures { Finds (unready rows.count held calls.now) result }
{
    if held.memory != 16 * rows.get() {
        return Err(Unready::Refused(StripFault::WrongMemory));
    }
    if held.answers != calls.len() {
        return Err(Unready::Answers);
    }
    match first_unserved(rows, held, calls) {
        Some(call) => Err(Unready::NoRoom(call)),
        None => Ok(()),
    }
}

// Is a list on a text of so many bytes begun?
pub(crate) fn check_text(len: usize, held: Lengths, calls: &[Call]) -> Result<(), Unready>
    ensures { Finds (unready_text len held calls.now) result }
{
    let rows = RowCount::of_text(len).ok_or(StripFault::LongText)?;
    check(rows, held, calls)
}
