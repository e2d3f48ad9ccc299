// Lists the strips of the strip file on standard input.
#![tactic(auto)]

use listing::list;
use std::io;
use std::io::{Read, Write};

fn main(rt: HostRuntime) -> io::Result<()> {
    let mut input = Vec::new(rt.alloc());
    // One byte more than a file may have tells that it is too long.
    rt.stdin().take(65_537).read_to_end(&mut input)?;
    let mut place = [0u8; 16384];
    let used = list(&input, &mut place);
    rt.stdout().write_all(&place[..used])
}
