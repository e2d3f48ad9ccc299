// What is printed of answers and strips.
use ledgers::Answer;
use sealed::Strip;
use std::{fmt, io};
use strips::{Place, StripFault};

// A place as it is printed.
#[derive(Clone, Copy)]
struct Where(Place);

impl fmt::Display for Where {
    fn fmt<W: fmt::Write>(&self, f: &mut fmt::Formatter<W>) -> fmt::Result {
        let Where(place) = *self;
        write!(f, "{} {} {}", place.station, place.pile, place.number)
    }
}

// An answer as it is printed.
#[derive(Clone, Copy)]
struct Told(Answer);

impl fmt::Display for Told {
    fn fmt<W: fmt::Write>(&self, f: &mut fmt::Formatter<W>) -> fmt::Result {
        match self.0 {
            Ok(None) => write!(f, "done"),
            Ok(Some(block)) => write!(f, "{:032x}", u128::from_be_bytes(block)),
            Err(fault) => write!(f, "fault {} row {}", fault.number(), fault.row()),
        }
    }
}

pub(crate) fn show_lay(rt: &HostRuntime, laid: Result<Strip, StripFault>) -> io::Result<()> {
    println!(rt; "lay {}", Told(laid.map(|_| None)))
}

pub(crate) fn show_answers(rt: &HostRuntime, answers: &[Answer]) -> io::Result<()> {
    println!(rt; "answers")?;
    for (i, answer) in answers.iter().enumerate() {
        println!(rt; "{} {}", i + 1, Told(*answer))?;
    }
    Ok(())
}

// Each stored row, with this before it.
fn show_rows(rt: &HostRuntime, before: &str, memory: &[u8]) -> io::Result<()> {
    let (rows, _) = memory.as_chunks::<16>();
    for row in rows {
        print!(rt; "{before}{:032x}", u128::from_be_bytes(*row))?;
    }
    println!(rt; "")
}

// Where the strip is, and each stored row on a line.
pub(crate) fn show_end(rt: &HostRuntime, strip: Strip, memory: &[u8]) -> io::Result<()> {
    let place = Where(strip.place());
    print!(rt; "end {place} rows {}", strip.rows().get())?;
    show_rows(rt, "\n", memory)
}

// The same on one line, behind the number of the step.
pub(crate) fn show_step(
    rt: &HostRuntime,
    step: usize,
    strip: Strip,
    memory: &[u8],
) -> io::Result<()> {
    print!(rt; "{step} {}", Where(strip.place()))?;
    show_rows(rt, " ", memory)
}
