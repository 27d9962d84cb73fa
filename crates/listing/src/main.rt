// Prints the reading of the source on standard input, in the format of document 01.
#![tactic(auto)]

use std::io;
use std::io::Read;

// One byte more than the longest source that is listed tells a longer one.
const SIZE: usize = listed::LONGEST + 1;

fn main(rt: HostRuntime) -> io::Result<()> {
    // With this room the first read asks for all of it: what a read leaves of a message is gone.
    let mut src = Vec::with_capacity(rt.alloc(), SIZE)?;
    rt.reader().take(SIZE as u64).read_to_end(&mut src)?;
    listed::listing(&rt, &src)
}
