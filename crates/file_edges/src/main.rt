// Files at the edge of each refusal, and the nearest that are not refused. What is expected was worked out by hand from
// the layout in docs/FORMATS.md. Prints how many came out so, and each that did not.
#![tactic(auto)]

mod cases;
mod made;
mod tally;

use cases::{CASES, Refusal, SAME, edited};
use files::{StripFile, check};
use made::{entries_only, long_strips};
use strips::{Pile, Station};
use tally::Tally;

fn small_files(rt: &HostRuntime) -> anyhow::Result<usize> {
    let mut tally = Tally::new(rt);
    for (name, first, second, expected) in CASES {
        tally.expect(name, check(&edited(first, second)), expected)?;
    }
    Ok(tally.agreed())
}

fn short_files(rt: &HostRuntime) -> anyhow::Result<usize> {
    let empty = *b"\0\0\0\0\0\0\x01\0\0\0\0\0FNCP";
    let mut tally = Tally::new(rt);
    tally.expect("no bytes", check(&[]), Err(Refusal(5, 0, 0)))?;
    tally.expect("15 bytes", check(&empty[0..15]), Err(Refusal(5, 0, 0)))?;
    tally.expect("16 bytes", check(&empty), Ok(()))?;
    Ok(tally.agreed())
}

fn large_files(rt: &HostRuntime) -> anyhow::Result<usize> {
    let heap = rt.alloc();
    let mut tally = Tally::new(rt);
    tally.expect("256 entries", check(&entries_only(heap, 256)?), Ok(()))?;
    tally.expect(
        "257 entries",
        check(&entries_only(heap, 257)?),
        Err(Refusal(8, 0, 8228)),
    )?;
    tally.expect("4,096 rows", check(&long_strips(heap, 1, 4096)?), Ok(()))?;
    tally.expect(
        "4,097 rows",
        check(&long_strips(heap, 1, 4097)?),
        Err(Refusal(9, 0, 65_556)),
    )?;
    tally.expect(
        "256 strips of 4,096 rows",
        check(&long_strips(heap, 256, 4096)?),
        Ok(()),
    )?;
    Ok(tally.agreed())
}

fn inputs(rt: &HostRuntime) -> anyhow::Result<usize> {
    let mut tally = Tally::new(rt);
    let mut input = long_strips(rt.alloc(), 1, 4093)?;
    tally.expect_listed(
        "65,536 bytes",
        &input,
        b"strip 0 rows 4093 station plain pile home\nentries 1 rows 4093\n",
    )?;
    input.push(0)?;
    tally.expect_listed("65,537 bytes", &input, b"fault list 16 entry 0 byte 0\n")?;
    Ok(tally.agreed())
}

// The parts of the sample.
fn opened(rt: &HostRuntime) -> anyhow::Result<usize> {
    let sample = edited(SAME, SAME);
    let Ok(()) = check(&sample) else {
        return Ok(0);
    };
    let file = StripFile::new(&sample);
    let last = file.entry(1).is_ok_and(|r| r.number == 9
        && r.rows == 2
        && r.start == 16
        && r.stamp == *b"stamp of strip 9");
    let place = file
        .entry(1)
        .is_ok_and(|r| r.station == Station::Left && r.pile == Pile::Away);
    let body = file.body(1).is_ok_and(|bytes| bytes
        == b"and two of the  second, all here".as_slice());
    println!(rt; "entry 1: fields {last}, place {place}, body {body}")?;
    let mut tally = Tally::new(rt);
    tally.expect("entry 2", file.entry(2), Err(Refusal(13, 2, 0)))?;
    tally.expect("body 2", file.body(2), Err(Refusal(13, 2, 0)))?;
    Ok(tally.agreed())
}

fn main(rt: HostRuntime) -> anyhow::Result<()> {
    let small = small_files(&rt)?;
    println!(rt; "small files: {small} as worked out")?;
    let missing = opened(&rt)?;
    println!(rt; "missing entries: {missing} as worked out")?;
    let short = short_files(&rt)?;
    println!(rt; "short files: {short} as worked out")?;
    let large = large_files(&rt)?;
    println!(rt; "large files: {large} as worked out")?;
    let inputs = inputs(&rt)?;
    println!(rt; "inputs: {inputs} as worked out")?;
    Ok(())
}
