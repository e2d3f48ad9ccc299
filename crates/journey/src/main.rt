// The journey of a strip: it is laid and led through a list of calls, by one replay and then step by step. What has to
// be printed was calculated by model/journey.py, which shares no code with the library.
#![tactic(auto)]

mod calls;
mod piles;
mod printing;

use calls::{CALLS, COUNT, OWN};
use interfaces::Forkcipher;
use ledgers::{Answer, Call};
use piles::{away_pile, home_pile};
use printing::{show_answers, show_end, show_lay, show_step};
use replays::{Room, replay, resume};
use sealed::{Piles, Strip};
use std::io;

const NUMBER: u16 = 7;

// Three rows, the last one not full.
const TEXT: [u8; 41] = *b"31415926535897932384626433832795028841971";

// One byte more than a strip holds.
const LONG_TEXT: [u8; 65_537] = [0; 65_537];

// The longest memory and the longest answer place that a call is handed, of those that do not fit.
const SPARE: usize = 64;

const BLANK: usize = 17;

fn lay(rt: &HostRuntime, text: &[u8], memory: &mut [u8]) -> io::Result<()> {
    show_lay(rt, Strip::lay(NUMBER, text, memory))
}

// A text that is too long, memory that is too short, and the strip of the journey.
fn lays(rt: &HostRuntime) -> io::Result<()> {
    lay(rt, &LONG_TEXT, &mut [0; 16])?;
    lay(rt, &TEXT, &mut [0; 47])?;
    lay(rt, &TEXT, &mut [0; OWN])
}

// All calls by one replay: the answers, and how the strip ends. Handle, piles and memory stand side by side here and below,
// since the calls that take them are three.
fn at_once<H: Forkcipher, A: Forkcipher>(
    rt: &HostRuntime,
    piles: &Piles<'_, H, A>,
    memory: &mut [u8],
    answers: &mut [Answer],
) -> io::Result<()> {
    let mut room = Room {
        spare: &mut [0; SPARE],
        blank: &mut [0; BLANK],
    };
    match replay(piles, NUMBER, &TEXT, memory, &mut room, &CALLS, answers) {
        Ok(strip) => {
            show_answers(rt, answers)?;
            show_end(rt, strip, memory)
        }
        Err(_) => println!(rt; "not ready"),
    }
}

// One call. Is this the answer?
fn one_step<H: Forkcipher, A: Forkcipher>(
    piles: &Piles<'_, H, A>,
    strip: &mut Strip,
    memory: &mut [u8],
    call: Call,
    answer: Answer,
) -> bool {
    let mut room = Room {
        spare: &mut [0; SPARE],
        blank: &mut [0; BLANK],
    };
    let mut answers = [Ok(None)];
    resume(piles, strip, memory, &mut room, &[call], &mut answers).is_ok_and(|()| answers[0]
        == answer)
}

// The strip after each call, and where an answer is not the one of the replay.
fn steps<H: Forkcipher, A: Forkcipher>(
    rt: &HostRuntime,
    piles: &Piles<'_, H, A>,
    mut strip: Strip,
    memory: &mut [u8],
    calls: &[Call],
    answers: &[Answer],
) -> io::Result<()> {
    for (i, (call, answer)) in calls.iter().zip(answers).enumerate() {
        if !one_step(piles, &mut strip, memory, *call, *answer) {
            println!(rt; "another answer")?;
        }
        show_step(rt, i + 1, strip, memory)?;
    }
    Ok(())
}

// The calls one by one.
fn step_by_step<H: Forkcipher, A: Forkcipher>(
    rt: &HostRuntime,
    piles: &Piles<'_, H, A>,
    memory: &mut [u8],
    answers: &[Answer],
) -> io::Result<()> {
    println!(rt; "step by step")?;
    match Strip::lay(NUMBER, &TEXT, memory) {
        Ok(strip) => steps(rt, piles, strip, memory, &CALLS, answers),
        Err(_) => println!(rt; "not laid"),
    }
}

// The journey twice.
fn walk<H: Forkcipher, A: Forkcipher>(rt: &HostRuntime, piles: &Piles<'_, H, A>) -> io::Result<()> {
    let mut memory = [0; OWN];
    let mut answers = [Ok(None); COUNT];
    at_once(rt, piles, &mut memory, &mut answers)?;
    step_by_step(rt, piles, &mut memory, &answers)
}

fn main(rt: HostRuntime) -> io::Result<()> {
    lays(&rt)?;
    let (home, away) = (home_pile(), away_pile());
    walk(
        &rt,
        &Piles {
            home: &home,
            away: &away,
        },
    )
}
